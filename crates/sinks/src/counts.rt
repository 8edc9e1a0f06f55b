//! Counts the pages and marks of a run.

ghost use Rattle.std.specs.Prelude.{◌≡◌, List, length, map};
ghost use Rattle.page_env.specs.Mark.{Shape};
ghost use Rattle.page_machine.specs.Event.{Marked};
ghost use Rattle.sinks.specs.Counts.{counted, counts_after, no_counts};

use page_env::{Mark, PageEnd};
use page_machine::MarkSink;
use std::convert::Infallible;

/// How many pages and marks there were; each count stands still at 2^64 - 1.
#[derive(Clone, Copy, Debug, PartialEq, Eq)]
pub struct Counts {
    pub pages: u64,
    pub marks: u64,
}

impl Counts {
    /// Of no events.
    pub fn none() -> Counts
        ensures { result ≡ no_counts }
    {
        Counts { pages: 0, marks: 0 }
    }

    /// Counts so many marks, as if they were handed over one after another.
    pub fn add_marks(&mut self, marks: u64)
        ensures { (shapes : List Shape) → length shapes ≡ marks →
            self.new ≡ counts_after (map Marked shapes) self.old }
    {
        self.marks = self.marks.saturating_add(marks);
    }
}

impl MarkSink for Counts {
    type Fault = Infallible;

    ghost takes = { λ old event new. new ≡ counted event old };

    ghost refuses = { λ old event new. ⊥ };

    fn mark(&mut self, _mark: &Mark<'_>) -> Result<(), Infallible> {
        self.marks = self.marks.saturating_add(1);
        Ok(())
    }

    fn page(&mut self, _page: PageEnd) -> Result<(), Infallible> {
        self.pages = self.pages.saturating_add(1);
        Ok(())
    }
}
