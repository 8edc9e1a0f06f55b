//! What differs between two events that are not the same.

ghost use Rattle.std.specs.Prelude.{◌≡◌, ◌↔◌, ◌-ℤ◌, IsTrue, if◌then◌else◌};
ghost use Rattle.comparison.specs.Changes.{
  area_at_origin,
  at_origin,
  box_at_origin,
  change_of,
  glyph_at_origin,
  is_moved,
  line_at_origin,
  only_in_new,
  only_in_old,
  row_at_origin,
};
ghost use Rattle.sinks.specs.Owned.{event_of, row_of_owned, shape_of_owned};

use crate::difference::Change;
use device_profile::{FontRequest, is_same_request};
use page_env::{Area, Bounds, Fill, Glyph, PenLine};
use sinks::{OwnedEvent, OwnedMark, OwnedRow};
use std::alloc::Allocator;
use tick_length::Length;

/// What differs between an event of OLD and one of NEW.
pub(crate) fn change_of<A: Allocator>(of_old: &OwnedEvent<A>, of_new: &OwnedEvent<A>) -> Change
    ensures { result ≡ change_of (event_of of_old.now) (event_of of_new.now) }
{
    match (of_old, of_new) {
        (OwnedEvent::Marked(one), OwnedEvent::Marked(other)) => change_of_marks(one, other),
        (OwnedEvent::Marked(_), OwnedEvent::Ended(_)) => Change::OnlyInOld,
        (OwnedEvent::Ended(_), OwnedEvent::Marked(_)) => Change::OnlyInNew,
        (OwnedEvent::Ended(_), OwnedEvent::Ended(_)) => Change::PageEnds,
    }
}

/// What differs where OLD makes this event, and NEW nothing more.
pub(crate) fn only_in_old<A: Allocator>(event: &OwnedEvent<A>) -> Change
    ensures { result ≡ only_in_old (event_of event.now) }
{
    match event {
        OwnedEvent::Marked(_) => Change::OnlyInOld,
        OwnedEvent::Ended(_) => Change::PageOnlyInOld,
    }
}

/// What differs where NEW makes this event, and OLD nothing more.
pub(crate) fn only_in_new<A: Allocator>(event: &OwnedEvent<A>) -> Change
    ensures { result ≡ only_in_new (event_of event.now) }
{
    match event {
        OwnedEvent::Marked(_) => Change::OnlyInNew,
        OwnedEvent::Ended(_) => Change::PageOnlyInNew,
    }
}

/// Whether a mark is moved, or another one.
fn change_of_marks<A: Allocator>(one: &OwnedMark<A>, other: &OwnedMark<A>) -> Change
    ensures { result ≡ (if is_moved (shape_of_owned one.now) (shape_of_owned other.now)
        then Change.Moved else Change.Changed) }
{
    if is_moved(one, other) {
        Change::Moved
    } else {
        Change::Changed
    }
}

/// Whether the second mark is the first one at another place.
pub fn is_moved<A: Allocator>(one: &OwnedMark<A>, other: &OwnedMark<A>) -> bool
    ensures { result ≡ is_moved (shape_of_owned one.now) (shape_of_owned other.now) }
{
    is_same_at_origin(one, other)
}

/// Whether two marks are the same once both are put at the origin.
fn is_same_at_origin<A: Allocator>(one: &OwnedMark<A>, other: &OwnedMark<A>) -> bool
    ensures { IsTrue result ↔
        (at_origin (shape_of_owned one.now) ≡ at_origin (shape_of_owned other.now)) }
{
    match (one, other) {
        (OwnedMark::Rect(one), OwnedMark::Rect(other)) => is_moved_area(one, other),
        (OwnedMark::Glyph(one), OwnedMark::Glyph(other)) => is_moved_glyph(one, other),
        (OwnedMark::Row(one), OwnedMark::Row(other)) => is_moved_row(one, other),
        (OwnedMark::Line(one), OwnedMark::Line(other)) => is_moved_line(one, other),
        _ => false,
    }
}

fn is_moved_area(one: &Area, other: &Area) -> bool
    ensures { IsTrue result ↔ (area_at_origin one.now ≡ area_at_origin other.now) }
{
    is_same_fill(one.fill, other.fill) && is_as_large(&one.bounds, &other.bounds)
}

fn is_moved_glyph(one: &Glyph, other: &Glyph) -> bool
    ensures { IsTrue result ↔ (glyph_at_origin one.now ≡ glyph_at_origin other.now) }
{
    one.code == other.code
        && is_equal_request(&one.request, &other.request)
        && is_as_far(one.bounds.top, one.y, other.bounds.top, other.y)
        && is_as_large(&one.bounds, &other.bounds)
}

fn is_moved_row<A: Allocator>(one: &OwnedRow<A>, other: &OwnedRow<A>) -> bool
    ensures { IsTrue result ↔
        (row_at_origin (row_of_owned one.now) ≡ row_at_origin (row_of_owned other.now)) }
{
    one.resolution == other.resolution && one.bytes.as_slice() == other.bytes.as_slice()
}

fn is_moved_line(one: &PenLine, other: &PenLine) -> bool
    ensures { IsTrue result ↔ (line_at_origin one.now ≡ line_at_origin other.now) }
{
    one.width == other.width
        && is_as_far(one.x0, one.x1, other.x0, other.x1)
        && is_as_far(one.y0, one.y1, other.y0, other.y1)
}

/// Whether two areas are filled alike.
fn is_same_fill(one: Fill, other: Fill) -> bool
    ensures { IsTrue result ↔ (one ≡ other) }
{
    one == other
}

/// Whether two requests are the same in all seven parts.
fn is_equal_request(one: &FontRequest, other: &FontRequest) -> bool
    ensures { IsTrue result ↔ (one.now ≡ other.now) }
{
    is_same_request(one, other)
}

/// Whether two boxes have one width and one height.
fn is_as_large(one: &Bounds, other: &Bounds) -> bool
    ensures { IsTrue result ↔ (box_at_origin one.now ≡ box_at_origin other.now) }
{
    is_as_far(one.left, one.right, other.left, other.right)
        && is_as_far(one.top, one.bottom, other.top, other.bottom)
}

/// Whether it is as far from the first place to the second as from the third to the fourth.
fn is_as_far(from: Length, to: Length, other_from: Length, other_to: Length) -> bool
    ensures { IsTrue result ↔ (to -ℤ from ≡ other_to -ℤ other_from) }
{
    distance(from, to) == distance(other_from, other_to)
}

/// How many ticks it is from one place to another.
fn distance(from: Length, to: Length) -> i64
    ensures { result ≡ to -ℤ from }
{
    to.ticks() - from.ticks()
}
