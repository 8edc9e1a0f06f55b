//! Whether events that are kept are the same.

ghost use Rattle.std.specs.Prelude.{◌≡◌, ◌↔◌, IsTrue};
ghost use Rattle.page_env.specs.Mark.{shape_of};
ghost use Rattle.page_machine.specs.Event.{Marked};
ghost use Rattle.sinks.specs.Same.{is_same_event};
ghost use Rattle.sinks.specs.Owned.{event_of, shape_of_owned};

use page_env::{Mark, RasterRow};
use sinks::{OwnedEvent, OwnedMark};
use std::alloc::Allocator;

/// Whether two events are the same, by the test by which two printers print alike.
pub(crate) fn is_same<A: Allocator>(one: &OwnedEvent<A>, other: &OwnedEvent<A>) -> bool
    ensures { result ≡ is_same_event (event_of one.now) (event_of other.now) }
{
    is_equal(one, other)
}

/// Whether two events are equal.
fn is_equal<A: Allocator>(one: &OwnedEvent<A>, other: &OwnedEvent<A>) -> bool
    ensures { IsTrue result ↔ (event_of one.now ≡ event_of other.now) }
{
    match other {
        OwnedEvent::Marked(mark) => is_equal_mark(one, mark),
        OwnedEvent::Ended(page) => one.is_ended(page),
    }
}

/// Whether an event is the one of this mark.
fn is_equal_mark<A: Allocator>(one: &OwnedEvent<A>, mark: &OwnedMark<A>) -> bool
    ensures { IsTrue result ↔ (event_of one.now ≡ Marked (shape_of_owned mark.now)) }
{
    let mark = lent(mark);
    one.is_marked(&mark)
}

/// A mark that is kept, as it is lent.
pub fn lent<A: Allocator>(mark: &OwnedMark<A>) -> Mark<'_>
    ensures { shape_of result ≡ shape_of_owned mark.now }
{
    match mark {
        OwnedMark::Rect(area) => Mark::Rect(*area),
        OwnedMark::Glyph(glyph) => Mark::Glyph(*glyph),
        OwnedMark::Row(row) => Mark::Row(RasterRow {
            resolution: row.resolution,
            x: row.x,
            y: row.y,
            bytes: row.bytes.as_slice(),
        }),
        OwnedMark::Line(line) => Mark::Line(*line),
    }
}
