//! What is shown of the pages.
ghost use Rattle.std.specs.Prelude.{◌≡◌, ◌++◌, OnOk, flat_map};
ghost use Rattle.profile_show.specs.Pages.{
  has_same_lengths,
  is_same_reversed,
  lines_of,
  logical_line,
  orientations_words,
  page_heading,
  page_line,
  page_lines,
  pages_lines,
  place_words,
  printable_line,
  reverse_of,
  sheet_words,
  span_words,
};

use crate::figures::{LengthUnit, push_length, push_sides};
use crate::label::Label;
use crate::words::{push_orientation, push_size};
use device_profile::{Geometry, Profile};
use std::alloc::{AllocError, Allocator};
use tick_length::Length;

/// Appends the pages.
#[tactic(auto, unfolding(crate::specs::Pages::pages_lines))]
pub(crate) fn push_pages<A: Allocator, P: Allocator>(
    text: &mut Vec<u8, A>,
    profile: &Profile<P>,
) -> Result<(), AllocError>
    ensures { OnOk result
        (text.new.items ≡ text.old.items ++ pages_lines profile.now.geometries) }
{
    text.extend_from_slice(Label::Pages.words())?;
    push_each(text, profile, profile.geometries())
}

/// Appends pages of a profile.
fn push_each<A: Allocator, P: Allocator>(
    text: &mut Vec<u8, A>,
    profile: &Profile<P>,
    pages: &[Geometry],
) -> Result<(), AllocError>
    ensures { OnOk result (text.new.items ≡
        text.old.items ++ flat_map (page_lines profile.now.geometries) pages.now) }
{
    for page in pages {
        push_page(text, profile, page)?;
    }
    Ok(())
}

/// Appends a page of a profile. A reverse page has no lines, where those of the other are its own.
#[tactic(auto, unfolding(crate::specs::Pages::page_lines))]
fn push_page<A: Allocator, P: Allocator>(
    text: &mut Vec<u8, A>,
    profile: &Profile<P>,
    page: &Geometry,
) -> Result<(), AllocError>
    ensures { OnOk result
        (text.new.items ≡ text.old.items ++ page_lines profile.now.geometries page.now) }
{
    let is_both = is_same_reversed(profile, page);
    if page.orientation >= 2 && is_both {
        return Ok(());
    }
    push_lines(text, is_both, page)
}

/// Whether the profile has a page of this size and these lengths in the reverse orientation too.
#[tactic(auto, unfolding(crate::specs::Pages::is_same_reversed))]
fn is_same_reversed<P: Allocator>(profile: &Profile<P>, page: &Geometry) -> bool
    ensures { result ≡ is_same_reversed profile.now.geometries page.now }
{
    match profile.geometry(page.size, reverse_of(page.orientation)) {
        Some(reverse) => has_same_lengths(page, reverse),
        None => false,
    }
}

/// The orientation in which the sheet stands on its head.
fn reverse_of(orientation: u32) -> u32
    ensures { result ≡ reverse_of orientation }
{
    match orientation {
        0 => 2,
        1 => 3,
        2 => 0,
        _ => 1,
    }
}

/// Whether two pages have the same lengths.
fn has_same_lengths(a: &Geometry, b: &Geometry) -> bool
    ensures { result ≡ has_same_lengths a.now b.now }
{
    a.page_width == b.page_width
        && a.page_height == b.page_height
        && a.logical_left == b.logical_left
        && a.logical_top == b.logical_top
        && a.logical_width == b.logical_width
        && a.logical_height == b.logical_height
        && a.printable_left == b.printable_left
        && a.printable_top == b.printable_top
        && a.printable_right == b.printable_right
        && a.printable_bottom == b.printable_bottom
}

/// Appends the lines of a page, which stand for the reverse orientation too, where it is both.
#[tactic(auto, unfolding(crate::specs::Pages::lines_of))]
fn push_lines<A: Allocator>(
    text: &mut Vec<u8, A>,
    is_both: bool,
    page: &Geometry,
) -> Result<(), AllocError>
    ensures { OnOk result (text.new.items ≡ text.old.items ++ lines_of is_both page.now) }
{
    push_page_heading(text, is_both, page)?;
    push_page_line(text, page)?;
    push_logical_line(text, page)?;
    push_printable_line(text, page)
}

/// Appends the size and the orientations of a page.
#[tactic(auto, unfolding(crate::specs::Pages::page_heading))]
fn push_page_heading<A: Allocator>(
    text: &mut Vec<u8, A>,
    is_both: bool,
    page: &Geometry,
) -> Result<(), AllocError>
    ensures { OnOk result (text.new.items ≡ text.old.items ++ page_heading is_both page.now) }
{
    text.extend_from_slice(b"  ")?;
    push_size(text, page.size)?;
    text.extend_from_slice(b", ")?;
    push_orientations(text, is_both, page)?;
    text.extend_from_slice(b":\n")
}

/// Appends the orientations for which the lines of a page stand.
#[tactic(auto, unfolding(crate::specs::Pages::orientations_words))]
fn push_orientations<A: Allocator>(
    text: &mut Vec<u8, A>,
    is_both: bool,
    page: &Geometry,
) -> Result<(), AllocError>
    ensures { OnOk result
        (text.new.items ≡ text.old.items ++ orientations_words is_both page.now) }
{
    push_orientation(text, page.orientation)?;
    if !is_both {
        return Ok(());
    }
    text.extend_from_slice(b" and ")?;
    push_orientation(text, reverse_of(page.orientation))
}

/// Appends the line of the physical page.
#[tactic(auto, unfolding(crate::specs::Pages::page_line))]
fn push_page_line<A: Allocator>(text: &mut Vec<u8, A>, page: &Geometry) -> Result<(), AllocError>
    ensures { OnOk result (text.new.items ≡ text.old.items ++ page_line page.now) }
{
    text.extend_from_slice(b"    page: ")?;
    push_sheet(text, LengthUnit::Millimetres, page, b", ")?;
    push_sheet(text, LengthUnit::Inches, page, b", ")?;
    push_sheet(text, LengthUnit::Dots, page, b"\n")
}

/// Appends the sides of the physical page, and what follows.
fn push_sheet<A: Allocator>(
    text: &mut Vec<u8, A>,
    unit: LengthUnit,
    page: &Geometry,
    behind: &[u8],
) -> Result<(), AllocError>
    ensures { OnOk result
        (text.new.items ≡ text.old.items ++ sheet_words unit page.now behind.now) }
{
    push_sides(text, unit, page.page_width, page.page_height)?;
    text.extend_from_slice(behind)
}

/// Appends the line of the logical page.
#[tactic(auto, unfolding(crate::specs::Pages::logical_line))]
fn push_logical_line<A: Allocator>(text: &mut Vec<u8, A>, page: &Geometry) -> Result<(), AllocError>
    ensures { OnOk result (text.new.items ≡ text.old.items ++ logical_line page.now) }
{
    text.extend_from_slice(Label::LogicalPage.words())?;
    push_sides(
        text,
        LengthUnit::Dots,
        page.logical_width,
        page.logical_height,
    )?;
    text.extend_from_slice(b", ")?;
    push_place(text, page.logical_left, page.logical_top)?;
    text.extend_from_slice(b"\n")
}

/// Appends a place on the page.
#[tactic(auto, unfolding(crate::specs::Pages::place_words))]
fn push_place<A: Allocator>(
    text: &mut Vec<u8, A>,
    left: Length,
    top: Length,
) -> Result<(), AllocError>
    ensures { OnOk result (text.new.items ≡ text.old.items ++ place_words left top) }
{
    push_length(text, LengthUnit::Dots, left)?;
    text.extend_from_slice(Label::FromLeft.words())?;
    push_length(text, LengthUnit::Dots, top)?;
    text.extend_from_slice(Label::FromTop.words())
}

/// Appends the line of the printable area.
#[tactic(auto, unfolding(crate::specs::Pages::printable_line))]
fn push_printable_line<A: Allocator>(
    text: &mut Vec<u8, A>,
    page: &Geometry,
) -> Result<(), AllocError>
    ensures { OnOk result (text.new.items ≡ text.old.items ++ printable_line page.now) }
{
    text.extend_from_slice(Label::PrintableArea.words())?;
    push_span(text, page.printable_left, page.printable_right)?;
    text.extend_from_slice(b" across, ")?;
    push_span(text, page.printable_top, page.printable_bottom)?;
    text.extend_from_slice(b" down\n")
}

/// Appends from where to where an area reaches.
#[tactic(auto, unfolding(crate::specs::Pages::span_words))]
fn push_span<A: Allocator>(
    text: &mut Vec<u8, A>,
    first: Length,
    last: Length,
) -> Result<(), AllocError>
    ensures { OnOk result (text.new.items ≡ text.old.items ++ span_words first last) }
{
    push_length(text, LengthUnit::Dots, first)?;
    text.extend_from_slice(b" to ")?;
    push_length(text, LengthUnit::Dots, last)
}
