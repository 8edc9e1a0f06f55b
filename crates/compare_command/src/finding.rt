//! What comes of two jobs on one printer after another.

ghost use Rattle.std.specs.Prelude.{◌≡◌, IfErr, IfOk, IsFalse};
ghost use Rattle.compare_command.specs.Compare.{AreCompared, IsCompared, StopsJobs, StopsReading};
ghost use Rattle.compare_command.specs.Compare.{first_counts};
ghost use Rattle.compare_command.specs.Outcomes.{IsOutcome};
ghost use Rattle.compare_command.specs.declared.found.Manner.TheVariants.{ByEvents, ByPages};
ghost use Rattle.sinks.specs.Counts.{no_counts};
ghost use Rattle.streams.specs.Pieces.{ByReads};

use crate::asked::CompareAsked;
use crate::found::{Found, Manner, Outcome};
use crate::stops::{Stop, stop_of_pages, stop_of_reading};
use comparison::{Comparison, compare_jobs};
use device_profile::Profile;
use named_inputs::Jobs;
use page_comparison::{Most, Nearness, compare_pages};
use sinks::Counts;
use std::alloc::Global;
use streams::Source;

/// Compares the jobs in this manner on one printer after another, until they are not the same on
/// one.
pub(crate) fn find<'n, J: Jobs<'n>>(
    alloc: Global,
    jobs: &mut J,
    asked: &CompareAsked<'_, 'n>,
    manner: Manner,
    fleet: &[Profile],
) -> Result<Found, Stop>
    ensures found { IfOk result (λ found. AreCompared manner (J.start jobs.old)
        asked.now.old_name.now asked.now.new_name.now 1 fleet.now no_counts found
        (J.ended jobs.old) (J.ended jobs.new)) }
    ensures start { J.start jobs.new ≡ J.start jobs.old }
    ensures stopped { IfErr result (λ stop. StopsJobs
        asked.now.old_name.now asked.now.new_name.now stop.which stop.error
        (J.ended jobs.old) (J.ended jobs.new)) }
{
    let mut counts = Counts::none();
    for (index, profile) in fleet.iter().enumerate() {
        let number = index as u64 + 1;
        let outcome = compare_on(alloc, jobs, asked, manner, profile, number)?;
        let same = outcome.same_counts();
        match same {
            Some(these) => counts = first_counts(number, counts, these),
            None => return Ok(Found { number, outcome }),
        }
    }
    Ok(Found {
        number: 1,
        outcome: Outcome::OfEvents(Comparison::Same(counts)),
    })
}

/// The counts on the first printer, behind the one of this number.
fn first_counts(number: u64, first: Counts, these: Counts) -> Counts
    ensures { result ≡ first_counts number first these }
{
    if number == 1 { these } else { first }
}

/// Compares the jobs on the printer of this number.
fn compare_on<'n, J: Jobs<'n>>(
    alloc: Global,
    jobs: &mut J,
    asked: &CompareAsked<'_, 'n>,
    manner: Manner,
    profile: &Profile,
    number: u64,
) -> Result<Outcome, Stop>
    ensures compared { IfOk result (λ outcome. IsCompared manner (J.start jobs.old)
        asked.now.old_name.now asked.now.new_name.now number profile.now outcome
        (J.ended jobs.old) (J.ended jobs.new)) }
    ensures start { J.start jobs.new ≡ J.start jobs.old }
    ensures stopped { IfErr result (λ stop. StopsJobs
        asked.now.old_name.now asked.now.new_name.now stop.which stop.error
        (J.ended jobs.old) (J.ended jobs.new)) }
{
    let old_name = asked.old_name.as_bytes();
    let new_name = asked.new_name.as_bytes();
    let mut old_job = jobs.job(old_name);
    let mut new_job = jobs.job(new_name);
    let answer = compare_two(alloc, &mut old_job, &mut new_job, manner, profile, number);
    jobs.end(old_name, old_job);
    jobs.end(new_name, new_job);
    answer
}

/// Compares these jobs on the printer of this number.
fn compare_two<S: Source>(
    alloc: Global,
    old_job: &mut S,
    new_job: &mut S,
    manner: Manner,
    profile: &Profile,
    number: u64,
) -> Result<Outcome, Stop>
    requires old_job { IsFalse (S.state old_job.old).failed }
    requires new_job { IsFalse (S.state new_job.old).failed }
    ensures compared { IfOk result (λ outcome.
        ByReads (S.state old_job.old) (S.state old_job.new) (λ one.
        ByReads (S.state new_job.old) (S.state new_job.new) (λ other.
        IsOutcome manner number profile.now one other outcome))) }
    ensures stopped { IfErr result (λ stop. StopsReading
        (S.state old_job.new) (S.state new_job.new) stop.which stop.error) }
{
    match manner {
        Manner::ByEvents => compare_events(alloc, old_job, new_job, profile, number),
        Manner::ByPages { nearness, most } => {
            compare_all(alloc, old_job, new_job, profile, number, nearness, most)
        }
    }
}

/// Compares these jobs event by event.
fn compare_events<S: Source>(
    alloc: Global,
    old_job: &mut S,
    new_job: &mut S,
    profile: &Profile,
    number: u64,
) -> Result<Outcome, Stop>
    requires old_job { IsFalse (S.state old_job.old).failed }
    requires new_job { IsFalse (S.state new_job.old).failed }
    ensures compared { IfOk result (λ outcome.
        ByReads (S.state old_job.old) (S.state old_job.new) (λ one.
        ByReads (S.state new_job.old) (S.state new_job.new) (λ other.
        IsOutcome ByEvents number profile.now one other outcome))) }
    ensures stopped { IfErr result (λ stop. StopsReading
        (S.state old_job.new) (S.state new_job.new) stop.which stop.error) }
{
    match compare_jobs(alloc, old_job, new_job, profile, number) {
        Ok(comparison) => Ok(Outcome::OfEvents(comparison)),
        Err(unread) => Err(stop_of_reading(alloc, old_job, new_job, unread)),
    }
}

/// Compares these jobs page by page.
fn compare_all<S: Source>(
    alloc: Global,
    old_job: &mut S,
    new_job: &mut S,
    profile: &Profile,
    number: u64,
    nearness: Nearness,
    most: Most,
) -> Result<Outcome, Stop>
    requires old_job { IsFalse (S.state old_job.old).failed }
    requires new_job { IsFalse (S.state new_job.old).failed }
    ensures compared { IfOk result (λ outcome.
        ByReads (S.state old_job.old) (S.state old_job.new) (λ one.
        ByReads (S.state new_job.old) (S.state new_job.new) (λ other.
        IsOutcome (ByPages nearness most) number profile.now one other outcome))) }
    ensures stopped { IfErr result (λ stop. StopsReading
        (S.state old_job.new) (S.state new_job.new) stop.which stop.error) }
{
    match compare_pages(alloc, old_job, new_job, profile, number, nearness, most) {
        Ok(comparison) => Ok(Outcome::OfPages(comparison)),
        Err(error) => Err(stop_of_pages(alloc, old_job, new_job, error)),
    }
}
