//! Why a job fails.
ghost use Rattle.std.specs.Prelude.{◌≡◌};
ghost use Rattle.verdict.specs.Limits.{is_many_items};
ghost use Rattle.verdict.specs.Numbers.{reason_number};

use crate::numbers::cause_number;
use page_env::Finding;
use pcl_items::LexCause;

/// Why a job fails.
#[derive(Clone, Copy, Debug, PartialEq, Eq)]
pub enum Reason {
    /// The bytes at the place are no item.
    Fault(LexCause),
    /// The item at the place is wrong for a printer.
    Finding(Finding),
    /// The item at the place gives other marks or pages than with the first profile.
    Differs,
    /// The item at the place returns to what the panel has, so there is no pinned job.
    Unpinnable,
}

impl Reason {
    /// The number of the fault or the finding.
    pub fn number(self) -> u8
        ensures { result ≡ reason_number self }
    {
        match self {
            Reason::Fault(cause) => cause_number(cause),
            Reason::Finding(finding) => finding.number(),
            Reason::Differs => 33,
            Reason::Unpinnable => 35,
        }
    }

    /// Whether macros carry out more items than are allowed.
    pub fn is_many_items(self) -> bool
        ensures { result ≡ is_many_items self }
    {
        match self {
            Reason::Finding(Finding::ManyItems) => true,
            Reason::Finding(_) => false,
            Reason::Fault(_) => false,
            Reason::Differs => false,
            Reason::Unpinnable => false,
        }
    }
}
