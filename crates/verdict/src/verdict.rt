//! What a check answers on a job.
ghost use Rattle.std.specs.Prelude.{◌≡◌};
ghost use Rattle.verdict.specs.Limits.{has_many_items};

use crate::reason::Reason;

/// What a check answers on a job.
#[derive(Clone, Copy, Debug, PartialEq, Eq)]
pub enum Verdict {
    /// Every printer of the fleet prints the job as it stands. Both counts stop at 2^64 - 1.
    Pass {
        pages: u64,
        marks: u64,
    },
    /// The first thing wrong: its place in bytes from the job's start, and the number of the
    /// profile that it is wrong for, from 1, or 0 for a fault of the bytes.
    Fail {
        place: u64,
        profile: u64,
        finding: Reason,
    },
}

impl Verdict {
    /// Whether it says that macros carry out more items than are allowed.
    pub fn has_many_items(self) -> bool
        ensures { result ≡ has_many_items self }
    {
        match self {
            Verdict::Pass { .. } => false,
            Verdict::Fail { finding, .. } => finding.is_many_items(),
        }
    }
}
