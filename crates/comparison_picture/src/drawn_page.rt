//! A page on which two jobs differ, as it is drawn.
ghost use Rattle.std.specs.Prelude.{◌≡◌};
ghost use Rattle.device_profile.specs.Printer.{geometry_at};
ghost use Rattle.comparison_picture.specs.DrawnPages.{holding, longer, paper_at};

use device_profile::{Geometry, Profile};
use page_comparison::{Page, PageDifference};
use page_env::PageEnd;
use std::alloc::Allocator;
use tick_length::Length;

/// A page on which two jobs differ.
#[derive(Drop)]
pub struct DrawnPage<'p, A: Allocator> {
    /// Its number, from 1.
    pub number: u64,
    /// On which it is printed.
    pub paper: Geometry,
    /// The page of OLD; of one that it does not have, no marks.
    pub old: &'p Page<A>,
    /// The same of NEW.
    pub new: &'p Page<A>,
    /// All that differs on it.
    pub differences: Vec<PageDifference, A>,
}

/// The paper of a page that ends so in OLD and in NEW: of a page that both have OLD's, as wide and
/// as high as holds NEW's too.
pub fn paper_of<P: Allocator>(
    profile: &Profile<P>,
    old_end: Option<PageEnd>,
    new_end: Option<PageEnd>,
) -> Geometry
    ensures { result ≡ paper_at profile.now.geometries old_end new_end }
{
    match (old_end, new_end) {
        (Some(old_end), Some(new_end)) => paper_of_both(profile, old_end, new_end),
        (Some(end), None) => paper_on(profile, end),
        (None, Some(end)) => paper_on(profile, end),
        (None, None) => profile.page_geometry(0, 0),
    }
}

/// OLD's paper of a page that both jobs have, as wide and as high as holds NEW's too.
fn paper_of_both<P: Allocator>(profile: &Profile<P>, old_end: PageEnd, new_end: PageEnd) -> Geometry
    ensures { result ≡ holding
        (geometry_at profile.now.geometries old_end.size old_end.orientation)
        (geometry_at profile.now.geometries new_end.size new_end.orientation) }
{
    let paper = paper_on(profile, old_end);
    let other = paper_on(profile, new_end);
    holding(paper, other)
}

/// The paper of a page that ends with these values.
fn paper_on<P: Allocator>(profile: &Profile<P>, end: PageEnd) -> Geometry
    ensures { result ≡ geometry_at profile.now.geometries end.size end.orientation }
{
    profile.page_geometry(end.size, end.orientation)
}

/// A paper, as wide and as high as holds another one too.
fn holding(paper: Geometry, other: Geometry) -> Geometry
    ensures { result ≡ holding paper other }
{
    Geometry {
        page_width: longer(paper.page_width, other.page_width),
        page_height: longer(paper.page_height, other.page_height),
        ..paper
    }
}

fn longer(one: Length, other: Length) -> Length
    ensures { result ≡ longer one other }
{
    if one.ticks() <= other.ticks() {
        other
    } else {
        one
    }
}
