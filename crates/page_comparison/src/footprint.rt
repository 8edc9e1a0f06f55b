//! What a mark covers, and what covers it.

ghost use Rattle.std.specs.Prelude.{◌≡◌};
ghost use Rattle.page_comparison.specs.Marks.{
  footprint_of,
  hides,
  is_one_white,
  is_white,
  is_white_fill,
};
ghost use Rattle.sinks.specs.Owned.{shape_of_owned};

use crate::edges::{Edges, edges_of, overlap};
use page_env::Fill;
use sinks::OwnedMark;
use std::alloc::Allocator;

/// The box of a mark, and whether it is white.
#[derive(Clone, Copy)]
pub(crate) struct Footprint {
    pub(crate) edges: Edges,
    pub(crate) white: bool,
}

/// The footprint of a mark.
pub(crate) fn footprint_of<A: Allocator>(mark: &OwnedMark<A>) -> Footprint
    ensures { result ≡ footprint_of (shape_of_owned mark.now) }
{
    Footprint {
        edges: edges_of(mark),
        white: is_white(mark),
    }
}

/// Whether a mark is white.
fn is_white<A: Allocator>(mark: &OwnedMark<A>) -> bool
    ensures { result ≡ is_white (shape_of_owned mark.now) }
{
    match mark {
        OwnedMark::Rect(area) => is_white_fill(area.fill),
        OwnedMark::Glyph(_) => false,
        OwnedMark::Row(_) => false,
        OwnedMark::Line(_) => false,
    }
}

fn is_white_fill(fill: Fill) -> bool
    ensures { result ≡ is_white_fill fill }
{
    match fill {
        Fill::Solid => false,
        Fill::Erase => true,
        Fill::Shade(_) => false,
        Fill::Hatch(_) => false,
    }
}

/// Whether one of two marks hides the other one where it is made behind it.
pub(crate) fn hides(one: &Footprint, other: &Footprint) -> bool
    ensures { result ≡ hides one.now other.now }
{
    is_one_white(one.white, other.white) && overlap(&one.edges, &other.edges)
}

/// Whether exactly one of two marks is white.
fn is_one_white(one: bool, other: bool) -> bool
    ensures { result ≡ is_one_white one other }
{
    if one { !other } else { other }
}
