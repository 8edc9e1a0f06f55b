//! Whether a run closes a page.
ghost use Rattle.std.specs.Prelude.{◌≡◌};
ghost use Rattle.notes.specs.Carriers.Rest.{closing_behind};

use page_env::{Mark, PageEnd};
use page_machine::MarkSink;
use std::convert::Infallible;

/// Whether a page was closed.
#[derive(Clone, Copy, Debug, PartialEq, Eq)]
pub struct Closing {
    pub closed: bool,
}

impl MarkSink for Closing {
    type Fault = Infallible;

    ghost takes = { λ old event new. new ≡ closing_behind event old };

    ghost refuses = { λ old event new. ⊥ };

    fn mark(&mut self, _mark: &Mark<'_>) -> Result<(), Infallible> {
        Ok(())
    }

    fn page(&mut self, _page: PageEnd) -> Result<(), Infallible> {
        self.closed = true;
        Ok(())
    }
}
