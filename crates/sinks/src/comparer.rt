//! Compares the events of a run with recorded ones.

ghost use Rattle.std.specs.Prelude.{◌≡◌, ◌↔◌, None, Some, [], map, IsFalse};
ghost use Rattle.sinks.specs.Owned.{event_of};
ghost use Rattle.sinks.specs.Comparer.{Compares};

use crate::owned::OwnedEvent;
use page_env::{Mark, PageEnd};
use page_machine::MarkSink;
use std::alloc::{Allocator, Global};
use std::convert::Infallible;
use std::marker::Model;

/// Compares each event that it is handed with the next one of a recorded list, and counts the pages
/// that end.
#[derive(Drop)]
pub struct Comparer<'a, A: Allocator = Global> {
    /// The events that are still to come, unless one came that differs.
    expected: Option<&'a [OwnedEvent<A>]>,
    /// How many pages have ended; it stands still at 2^64 - 1.
    pages: u64,
}

impl<'a, A: Allocator> Model for Comparer<'a, A> {
    ghost use Rattle.std.specs.Prelude.{map, option_map};
    ghost use Rattle.sinks.specs.Comparer.{Comparison};
    ghost use Rattle.sinks.specs.Owned.{event_of};

    ghost Value = { Comparison };

    ghost view = { λ comparer. record {
      expected = option_map (λ rest. map event_of rest.now) comparer.expected;
      pages = comparer.pages;
    } };
}

impl<'a, A: Allocator> Comparer<'a, A> {
    /// A comparer that expects these events, in order, where so many pages have ended before.
    pub fn new(recorded: &'a [OwnedEvent<A>], pages: u64) -> Comparer<'a, A>
        ensures { result ≡ record {
          expected = Some (map event_of recorded.now);
          pages = pages;
        } }
    {
        Comparer {
            expected: Some(recorded),
            pages,
        }
    }

    /// Whether the events that it was handed are others than the recorded ones, or fewer, or more.
    pub fn differs(&self) -> bool
        ensures { IsFalse result ↔ (self.now.expected ≡ Some []) }
    {
        !matches!(self.expected, Some([]))
    }

    /// How many pages have ended, those before it was made among them.
    pub fn pages(&self) -> u64
        ensures { result ≡ self.now.pages }
    {
        self.pages
    }

    /// Expects nothing any more: an event came that differs.
    // The call is rare, and keeps LLVM from choosing what is expected at each word that is
    // compared.
    #[inline(never)]
    fn differ(&mut self)
        ensures { self.new ≡ record self.old { expected = None } }
    {
        self.expected = None;
    }
}

impl<A: Allocator> MarkSink for Comparer<'_, A> {
    type Fault = Infallible;

    ghost takes = { Compares };

    ghost refuses = { λ old event new. ⊥ };

    // Inlined, so that of what is compared only the case of the caller's mark is left.
    #[inline(always)]
    fn mark(&mut self, mark: &Mark<'_>) -> Result<(), Infallible> {
        match self.expected {
            Some([first, rest @ ..]) if first.is_marked(mark) => self.expected = Some(rest),
            _ => self.differ(),
        }
        Ok(())
    }

    fn page(&mut self, page: PageEnd) -> Result<(), Infallible> {
        self.pages = self.pages.saturating_add(1);
        match self.expected {
            Some([first, rest @ ..]) if first.is_ended(&page) => self.expected = Some(rest),
            _ => self.differ(),
        }
        Ok(())
    }
}
