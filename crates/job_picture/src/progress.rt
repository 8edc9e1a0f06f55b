//! How far the pages of a job have come.

/// Which page is open, and whether it has a mark.
#[derive(Clone, Copy, Debug, PartialEq, Eq)]
pub(crate) struct Progress {
    /// The number of the page that is open, from 1; it stands still at 2^64 - 1.
    pub page: u64,
    pub is_marked: bool,
}

impl Progress {
    ghost use Rattle.std.specs.Prelude.{◌≡◌, ◌+◌, true, false};
    ghost use Rattle.sinks.specs.Counts.{capped};
    ghost use Rattle.job_picture.specs.Progress.{first_page};

    /// Before the first mark.
    pub fn first_page() -> Progress
        ensures { result ≡ first_page }
    {
        Progress {
            page: 1,
            is_marked: false,
        }
    }

    /// Behind a mark.
    pub fn behind_mark(self) -> Progress
        ensures { result ≡ record { page = self.page; is_marked = true } }
    {
        Progress {
            page: self.page,
            is_marked: true,
        }
    }

    /// Behind the end of a page.
    pub fn behind_end(self) -> Progress
        ensures { result ≡ record { page = capped (self.page + 1); is_marked = false } }
    {
        Progress {
            page: self.page.saturating_add(1),
            is_marked: false,
        }
    }
}
