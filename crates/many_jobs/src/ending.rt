//! How jobs count for the exit status of a check of many jobs.
ghost use Rattle.std.specs.Prelude.{◌≡◌};
ghost use Rattle.job_rows.specs.Kept.{kept_part};
ghost use Rattle.many_jobs.specs.Asked.{told_by};
ghost use Rattle.many_jobs.specs.JobChecks.{ending_of, ending_of_kind, worse};
ghost use Rattle.many_jobs.specs.JobRow.{ending_of_kept};

use crate::telling::Telling;
use job_reports::{Kind, kind_of};
use judgement::Judgement;
use std::alloc::Allocator;
use streams::Error;
use verdict::Verdict;

/// How jobs count for the exit status.
#[derive(Clone, Copy, Debug, PartialEq, Eq)]
pub enum Ending {
    /// All pass, or what fails counts as a PASS.
    Passes,
    /// One fails.
    Fails,
    /// One has no verdict.
    HasNoVerdict,
}

impl Ending {
    /// How a job of this result counts, where it is told so.
    pub(crate) fn of(telling: &Telling<'_>, answer: Result<Judgement, Error>) -> Ending
        ensures { result ≡ ending_of (told_by telling.now) answer }
    {
        match answer {
            Ok(judgement) => match judgement.verdict {
                Verdict::Pass { .. } => Ending::Passes,
                Verdict::Fail { finding, .. } => {
                    Ending::of_kind(telling, kind_of(finding, judgement.failing_item))
                }
            },
            Err(_) => Ending::HasNoVerdict,
        }
    }

    /// How a job counts that fails by this kind.
    fn of_kind(telling: &Telling<'_>, kind: Kind) -> Ending
        ensures { result ≡ ending_of_kind (told_by telling.now) kind }
    {
        if telling.exit_zero {
            return Ending::Passes;
        }
        if !telling.passes_unchecked {
            return Ending::Fails;
        }
        if kind.is_unchecked() {
            Ending::Passes
        } else {
            Ending::Fails
        }
    }

    /// How notes count that are told in a row: where they could not be had there is no verdict.
    pub(crate) fn of_notes<A: Allocator>(notes: &Option<Result<Vec<u8, A>, Error>>) -> Ending
        ensures { result ≡ ending_of_kept (kept_part (λ text. text.items) notes.now) }
    {
        match notes {
            None => Ending::Passes,
            Some(Ok(_)) => Ending::Passes,
            Some(Err(_)) => Ending::HasNoVerdict,
        }
    }

    /// The greater one.
    pub(crate) fn worse(self, other: Ending) -> Ending
        ensures { result ≡ worse self other }
    {
        match (self, other) {
            (Ending::HasNoVerdict, _) | (_, Ending::HasNoVerdict) => Ending::HasNoVerdict,
            (Ending::Fails, _) | (_, Ending::Fails) => Ending::Fails,
            (Ending::Passes, Ending::Passes) => Ending::Passes,
        }
    }
}
