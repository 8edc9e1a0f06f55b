//! What comes of two jobs, and where they first differ.

ghost use Rattle.std.specs.Prelude.{◌≡◌, List, length, map};
ghost use Rattle.page_env.specs.Mark.{Shape};
ghost use Rattle.page_machine.specs.Event.{Marked};
ghost use Rattle.comparison.specs.Comparing.{spot_behind};
ghost use Rattle.comparison.specs.Comparison.{at_start, behind_event, difference_at};
ghost use Rattle.sinks.specs.Owned.{event_of};

use page_env::{Mark, PageEnd};
use page_machine::MarkSink;
use sinks::{Counts, OwnedEvent};
use std::alloc::Allocator;
use std::convert::Infallible;
use verdict::Failure;

/// What differs.
#[derive(Clone, Copy, Debug, PartialEq, Eq)]
pub enum Change {
    /// The mark stands at another place, and is otherwise the same.
    Moved,
    /// Another mark stands for it.
    Changed,
    /// OLD has a mark that NEW does not have here.
    OnlyInOld,
    /// NEW has one that OLD does not have here.
    OnlyInNew,
    /// The page ends in both, with other values.
    PageEnds,
    /// OLD has a page without marks behind all of NEW.
    PageOnlyInOld,
    /// NEW has one behind all of OLD.
    PageOnlyInNew,
}

/// The first difference of two jobs, OLD and NEW.
#[derive(Clone, Copy, Debug, PartialEq, Eq)]
pub struct Difference {
    /// The page, from 1.
    pub page: u64,
    /// The number of the mark on its page, from 1. Of the end of a page it is one more than the
    /// page has marks.
    pub mark: u64,
    /// Where the item of OLD stands that makes it, in bytes from the job's start; where OLD makes
    /// nothing more, the number of its bytes.
    pub old_place: u64,
    /// The same of NEW.
    pub new_place: u64,
    pub change: Change,
}

/// What comes of two jobs, OLD and NEW, on a printer.
#[derive(Clone, Copy, Debug, PartialEq, Eq)]
pub enum Comparison {
    /// They print the same: so many pages and marks.
    Same(Counts),
    /// Neither fails, and here they differ first.
    Differs(Difference),
    /// OLD fails.
    OldFails(Failure),
    /// NEW fails, and OLD does not.
    NewFails(Failure),
}

/// How far two jobs printed the same.
#[derive(Clone, Copy, Debug, PartialEq, Eq)]
pub struct Spot {
    pub counts: Counts,
    /// How many marks the page has that is open.
    pub on_page: u64,
}

impl Spot {
    /// Before the first mark.
    pub(crate) fn start() -> Spot
        ensures { result ≡ at_start }
    {
        Spot {
            counts: Counts::none(),
            on_page: 0,
        }
    }

    /// Counts an event that both jobs made.
    pub(crate) fn count<A: Allocator>(&mut self, event: &OwnedEvent<A>)
        ensures { self.new ≡ behind_event (event_of event.now) self.old }
    {
        match event {
            OwnedEvent::Marked(_) => {
                self.counts.marks = self.counts.marks.saturating_add(1);
                self.on_page = self.on_page.saturating_add(1);
            }
            OwnedEvent::Ended(_) => {
                self.counts.pages = self.counts.pages.saturating_add(1);
                self.on_page = 0;
            }
        }
    }

    /// Counts so many marks that both jobs made.
    pub(crate) fn count_marks(&mut self, marks: u64)
        ensures { (shapes : List Shape) → length shapes ≡ marks →
            self.new ≡ spot_behind (map Marked shapes) self.old }
    {
        self.counts.add_marks(marks);
        self.on_page = self.on_page.saturating_add(marks);
    }

    /// A difference here, of the items at these places.
    pub(crate) fn difference(self, old_place: u64, new_place: u64, change: Change) -> Difference
        ensures { result ≡ difference_at self old_place new_place change }
    {
        Difference {
            page: self.counts.pages.saturating_add(1),
            mark: self.on_page.saturating_add(1),
            old_place,
            new_place,
            change,
        }
    }
}

/// Counts what a job makes that is carried out for both.
impl MarkSink for Spot {
    type Fault = Infallible;

    ghost takes = { λ old event new. new ≡ behind_event event old };

    ghost refuses = { λ old event new. ⊥ };

    fn mark(&mut self, _mark: &Mark<'_>) -> Result<(), Infallible> {
        self.counts.marks = self.counts.marks.saturating_add(1);
        self.on_page = self.on_page.saturating_add(1);
        Ok(())
    }

    fn page(&mut self, _page: PageEnd) -> Result<(), Infallible> {
        self.counts.pages = self.counts.pages.saturating_add(1);
        self.on_page = 0;
        Ok(())
    }
}
