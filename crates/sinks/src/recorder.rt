//! Keeps the events of a run.

ghost use Rattle.std.specs.Prelude.{◌≡◌, List, [], length, map, IfOk};
ghost use Rattle.page_env.specs.Mark.{Shape, shape_of};
ghost use Rattle.page_machine.specs.Event.{Marked};
ghost use Rattle.sinks.specs.Owned.{event_of, shape_of_owned};
ghost use Rattle.sinks.specs.Counts.{counts_after};
ghost use Rattle.sinks.specs.Recorder.{nothing_recorded, recorded};

use crate::counts::Counts;
use crate::owned::{OwnedEvent, OwnedMark, OwnedRow};
use page_env::{Mark, PageEnd};
use page_machine::MarkSink;
use std::alloc::{AllocError, Allocator, Global};
use std::marker::Model;
use std::mem;

/// Keeps the events that it was handed since it was cleared, and counts all the pages and marks
/// that it was ever handed.
///
/// It refuses an event where the allocator refuses to keep it, and then it is as before.
#[derive(Drop)]
pub struct Recorder<A: Allocator + Copy = Global> {
    alloc: A,
    events: Vec<OwnedEvent<A>, A>,
    /// Room for the bytes of a row, so that it is not asked for at each.
    room: Vec<u8, A>,
    counts: Counts,
}

impl<A: Allocator + Copy> Model for Recorder<A> {
    ghost use Rattle.std.specs.Prelude.{map};
    ghost use Rattle.sinks.specs.Owned.{event_of};
    ghost use Rattle.sinks.specs.Recorder.{Recorded};

    ghost Value = { Recorded };

    ghost view = { λ recorder. record {
      events = map event_of recorder.events.items;
      counts = recorder.counts;
    } };
}

impl<A: Allocator + Copy> Recorder<A> {
    /// A recorder of no events.
    pub fn new(alloc: A) -> Self
        ensures { result ≡ nothing_recorded }
    {
        Recorder {
            alloc,
            events: Vec::new(alloc),
            room: Vec::new(alloc),
            counts: Counts::none(),
        }
    }

    /// The events since it was cleared, in order.
    pub fn events(&self) -> &[OwnedEvent<A>]
        ensures { map event_of result.now ≡ self.now.events }
    {
        &self.events
    }

    /// How many pages and marks it was handed, those before it was cleared among them.
    pub fn counts(&self) -> Counts
        ensures { result ≡ self.now.counts }
    {
        self.counts
    }

    /// Counts so many marks, as if they were handed over one after another and then forgotten.
    pub fn add_marks(&mut self, marks: u64)
        ensures { (shapes : List Shape) → length shapes ≡ marks →
            self.new ≡ record self.old {
              counts = counts_after (map Marked shapes)
                  self.old.counts;
            } }
    {
        self.counts.add_marks(marks);
    }

    /// Forgets the events; the counts go on.
    #[inline(always)]
    pub fn clear(&mut self)
        ensures { self.new ≡ record self.old { events = [] } }
    {
        if let Some(OwnedEvent::Marked(OwnedMark::Row(_))) = self.events.last() {
            self.keep_room();
        }
        self.events.clear();
    }

    /// Forgets the events, and counts on from these.
    #[inline(always)]
    pub fn restart(&mut self, counts: Counts)
        ensures { self.new ≡ record self.old { events = []; counts = counts } }
    {
        self.clear();
        self.counts = counts;
    }

    /// Takes back the room of the last event, if that is a row.
    #[inline(never)]
    fn keep_room(&mut self)
        ensures { self.new.counts ≡ self.old.counts }
    {
        if let Some(OwnedEvent::Marked(OwnedMark::Row(row))) = self.events.pop() {
            self.room = row.bytes;
        }
    }

    /// A copy of the mark, which takes the room where it is a row.
    #[inline(always)]
    fn copy_of(&mut self, mark: &Mark<'_>) -> Result<OwnedMark<A>, AllocError>
        ensures copy { IfOk result (λ copy. shape_of_owned copy ≡ shape_of mark.now) }
        ensures same { self.new ≡ self.old }
    {
        match mark {
            Mark::Row(row) => {
                let room = mem::replace(&mut self.room, Vec::new(self.alloc));
                let copy = OwnedRow::copy_in(room, row)?;
                Ok(OwnedMark::Row(copy))
            }
            _ => OwnedMark::copy_of(self.alloc, mark),
        }
    }
}

impl<A: Allocator + Copy> MarkSink for Recorder<A> {
    type Fault = AllocError;

    ghost takes = { λ old event new. new ≡ recorded event old };

    ghost refuses = { λ old event new. new ≡ old };

    // Inlined, so that the caller's mark is put together where the event is kept.
    #[inline(always)]
    fn mark(&mut self, mark: &Mark<'_>) -> Result<(), AllocError> {
        let copy = self.copy_of(mark)?;
        self.events.push(OwnedEvent::Marked(copy))?;
        let Ok(()) = self.counts.mark(mark);
        Ok(())
    }

    fn page(&mut self, page: PageEnd) -> Result<(), AllocError> {
        self.events.push(OwnedEvent::Ended(page))?;
        let Ok(()) = self.counts.page(page);
        Ok(())
    }
}
