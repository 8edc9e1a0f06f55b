//! Pages that are not those of the table of papers.
ghost use Rattle.std.specs.Prelude.{◌≡◌, ◌++◌, OnOk, flat_map};
ghost use Rattle.profile_lint.specs.PageHints.{area_hints, is_same_area, page_hints, paper_hints};
ghost use Rattle.profile_lint.specs.PageHints.{paper_of};

use crate::hint::{Area, Hint};
use device_profile::Geometry;
use printer_models::{PAPERS, Paper, page_of};
use std::alloc::{AllocError, Allocator};

/// Appends the hints on pages.
pub(crate) fn push_hints_of_pages<A: Allocator>(
    hints: &mut Vec<Hint, A>,
    pages: &[Geometry],
) -> Result<(), AllocError>
    ensures { OnOk result (hints.new.items ≡ hints.old.items ++ flat_map page_hints pages.now) }
{
    for page in pages {
        push_page_hints(hints, page)?;
    }
    Ok(())
}

/// Appends the hints on a page. One of a size that no paper has gives none.
#[tactic(auto, unfolding(crate::specs::PageHints::page_hints))]
fn push_page_hints<A: Allocator>(
    hints: &mut Vec<Hint, A>,
    page: &Geometry,
) -> Result<(), AllocError>
    ensures { OnOk result (hints.new.items ≡ hints.old.items ++ page_hints page.now) }
{
    match paper_of(page.size) {
        Some(paper) => push_paper_hints(hints, page, paper),
        None => Ok(()),
    }
}

/// The paper of a size.
#[tactic(auto, unfolding(crate::specs::PageHints::paper_of))]
fn paper_of(size: u32) -> Option<Paper>
    ensures { result ≡ paper_of size }
{
    PAPERS.iter().copied().find(|paper| paper.code() == size)
}

/// Appends a hint for each area that is not that of the paper.
#[tactic(auto, unfolding(crate::specs::PageHints::paper_hints))]
fn push_paper_hints<A: Allocator>(
    hints: &mut Vec<Hint, A>,
    page: &Geometry,
    paper: Paper,
) -> Result<(), AllocError>
    ensures { OnOk result (hints.new.items ≡ hints.old.items ++ paper_hints page.now paper) }
{
    push_area_hints(hints, page, paper, Area::Physical)?;
    push_area_hints(hints, page, paper, Area::Logical)?;
    push_area_hints(hints, page, paper, Area::Printable)
}

/// Appends a hint where an area is not that of the paper.
#[tactic(auto, unfolding(crate::specs::PageHints::area_hints))]
fn push_area_hints<A: Allocator>(
    hints: &mut Vec<Hint, A>,
    page: &Geometry,
    paper: Paper,
    area: Area,
) -> Result<(), AllocError>
    ensures { OnOk result (hints.new.items ≡ hints.old.items ++ area_hints page.now paper area) }
{
    if is_same_area(area, page, &page_of(paper, page.orientation)) {
        return Ok(());
    }
    hints.push(Hint::OtherArea {
        area,
        page: *page,
        paper,
    })?;
    Ok(())
}

/// Whether an area of two pages is the same.
pub(crate) fn is_same_area(area: Area, a: &Geometry, b: &Geometry) -> bool
    ensures { result ≡ is_same_area area a.now b.now }
{
    match area {
        Area::Physical => a.page_width == b.page_width && a.page_height == b.page_height,
        Area::Logical => {
            a.logical_left == b.logical_left
                && a.logical_top == b.logical_top
                && a.logical_width == b.logical_width
                && a.logical_height == b.logical_height
        }
        Area::Printable => {
            a.printable_left == b.printable_left
                && a.printable_top == b.printable_top
                && a.printable_right == b.printable_right
                && a.printable_bottom == b.printable_bottom
        }
    }
}
