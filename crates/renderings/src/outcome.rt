//! What comes of writing a text of a job.
ghost use Rattle.std.specs.Prelude.{◌≡◌, MatchOption};
ghost use Rattle.renderings.specs.Outcomes.{fails_with};
ghost use Rattle.verdict.specs.Failing.{fault_at, found_at, unpinnable_at};

use page_env::Finding;
use pcl_items::{LexFault, Place};
use verdict::{Failure, Reason};

/// What comes of writing a text of a job.
#[derive(Clone, Copy, Debug, PartialEq, Eq)]
pub enum Outcome {
    /// The job was gone through to its end.
    Done,
    /// The first thing wrong: its place in bytes from the job's start, and the number of the
    /// profile that it is wrong for, which is 1, or 0 for a fault of the bytes.
    Fail {
        place: u64,
        profile: u64,
        finding: Reason,
    },
}

impl Outcome {
    /// The outcome of a job that fails so.
    pub fn of(failure: Failure) -> Outcome
        ensures { result ≡ fails_with failure }
    {
        Outcome::Fail {
            place: failure.place,
            profile: failure.profile,
            finding: failure.reason,
        }
    }

    /// The outcome of a job with a fault of its bytes.
    pub fn of_fault(fault: LexFault) -> Outcome
        ensures { result ≡ fails_with (fault_at fault.place fault.cause) }
    {
        Outcome::of(Failure::of_fault(fault))
    }

    /// The outcome of a job by what the item at this place comes to on the one printer of a text.
    pub fn of_finding(place: Place, finding: Finding) -> Outcome
        ensures { result ≡ fails_with (found_at place 1 finding) }
    {
        Outcome::of(Failure::of_finding(place, 1, finding))
    }

    /// The outcome of a job by the item at this place, for which there is no pinned job.
    pub fn of_unpinnable(place: Place) -> Outcome
        ensures { result ≡ fails_with (unpinnable_at place) }
    {
        Outcome::of(Failure::of_unpinnable(place))
    }

    /// What is wrong with the job. None where it was gone through to its end.
    pub fn failure(self) -> Option<Failure>
        ensures { MatchOption result (self ≡ Outcome.Done) (λ failure. self ≡ fails_with failure) }
    {
        match self {
            Outcome::Done => None,
            Outcome::Fail {
                place,
                profile,
                finding,
            } => Some(Failure {
                place,
                profile,
                reason: finding,
            }),
        }
    }
}
