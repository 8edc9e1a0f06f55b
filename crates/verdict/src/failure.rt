//! What is wrong with a job, and where.
ghost use Rattle.std.specs.Prelude.{◌≡◌, MatchOption};
ghost use Rattle.verdict.specs.Failing.{IsPass, differs_at, failing, fault_at, found_at};
ghost use Rattle.verdict.specs.Failing.{unpinnable_at};

use crate::reason::Reason;
use crate::verdict::Verdict;
use page_env::Finding;
use pcl_items::LexFault;

/// What is wrong with a job, and where.
#[derive(Clone, Copy, Debug, PartialEq, Eq)]
pub struct Failure {
    /// In bytes from the job's start.
    pub place: u64,
    /// The number of the profile that it is wrong for, from 1, or 0 for a fault of the bytes.
    pub profile: u64,
    pub reason: Reason,
}

impl Failure {
    /// The failure of a job with a fault of its bytes.
    pub fn of_fault(fault: LexFault) -> Failure
        ensures { result ≡ fault_at fault.place fault.cause }
    {
        Failure {
            place: fault.place,
            profile: 0,
            reason: Reason::Fault(fault.cause),
        }
    }

    /// The failure of a job by what the item at this place comes to on the printer of this number.
    pub fn of_finding(place: u64, profile: u64, finding: Finding) -> Failure
        ensures { result ≡ found_at place profile finding }
    {
        Failure {
            place,
            profile,
            reason: Reason::Finding(finding),
        }
    }

    /// The failure of a job by the item at this place, which gives other marks or pages on the
    /// printer of this number than on the first.
    pub fn of_difference(place: u64, profile: u64) -> Failure
        ensures { result ≡ differs_at place profile }
    {
        Failure {
            place,
            profile,
            reason: Reason::Differs,
        }
    }

    /// The failure of a job by the item at this place, for which there is no pinned job. A pinned
    /// job is that of one printer, which has the number 1.
    pub fn of_unpinnable(place: u64) -> Failure
        ensures { result ≡ unpinnable_at place }
    {
        Failure {
            place,
            profile: 1,
            reason: Reason::Unpinnable,
        }
    }

    /// The verdict on the job.
    pub fn verdict(self) -> Verdict
        ensures { result ≡ failing self }
    {
        Verdict::Fail {
            place: self.place,
            profile: self.profile,
            finding: self.reason,
        }
    }
}

impl Verdict {
    /// What is wrong with the job. None where it passes.
    pub fn failure(self) -> Option<Failure>
        ensures { MatchOption result (IsPass self) (λ failure. self ≡ failing failure) }
    {
        match self {
            Verdict::Pass { .. } => None,
            Verdict::Fail {
                place,
                profile,
                finding,
            } => Some(Failure {
                place,
                profile,
                reason: finding,
            }),
        }
    }
}
