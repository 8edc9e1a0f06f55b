//! Checks of a job in memory.
ghost use Rattle.std.specs.Prelude.{◌≡◌, ◌↔◌, [], None, Ok, IfErr, IfOk, IsErrOf};
ghost use Rattle.preflight.specs.Judgement.{IsAnswer};
ghost use Rattle.job_reports.specs.Groups.{reported};
ghost use Rattle.job_reports.specs.JobSentences.{job_sentence};
ghost use Rattle.foreign_calls.specs.Answers.{IsStop, verdict_row};
ghost use Rattle.foreign_calls.specs.Checked.{Checks, IsSentenceOf, IsTextOf, IsWithin};
ghost use Rattle.foreign_calls.specs.Checked.{PassesLimit, answer_number, answer_row};

use crate::numbers::{DONE, error_number};
use crate::rows::{VerdictRow, verdict_row};
use crate::told::Told;
use crate::why::Why;
use device_profile::Profile;
use job_reports::{PrinterGroup, Report, push_job_sentence};
use judgement::Judgement;
use preflight::check_job_within;
use std::alloc::{AllocError, Allocator};
use streams::{Error, Latched};

/// The verdict on a job for a fleet, and where it fails.
pub fn judge<A: Allocator + Copy>(
    alloc: A,
    fleet: &[Profile<A>],
    job: &[u8],
) -> Result<Judgement, Error>
    ensures right { IfOk result (IsAnswer fleet.now job.now) }
    ensures no_printer { IsErrOf result Error.NoProfile ↔ (fleet.now ≡ []) }
    ensures within { IfOk result IsWithin }
    ensures items { IsErrOf result Error.Items → PassesLimit fleet.now job.now }
{
    let mut source = Latched::new(job);
    check_job_within(alloc, &mut source, fleet)
}

/// Checks a job for printers, and tells the verdict.
pub fn check<A: Allocator + Copy>(
    alloc: A,
    group: &PrinterGroup<'_, A>,
    job: &[u8],
    row: &mut VerdictRow,
) -> u32
    ensures { Checks group.now.fleet job.now result row.old row.new }
{
    let answer = judge(alloc, group.profiles(), job);
    leave(answer, row)
}

/// Tells the verdict of an answer, where it has one, and the number of the answer.
pub fn leave(answer: Result<Judgement, Error>, row: &mut VerdictRow) -> u32
    ensures number { result ≡ answer_number answer }
    ensures row { row.new ≡ answer_row row.old answer }
{
    match answer {
        Ok(judgement) => {
            *row = verdict_row(judgement.verdict, judgement.page);
            DONE
        }
        Err(error) => error_number(error),
    }
}

/// The sentence on a job of this name for printers.
pub fn tell<A: Allocator + Copy>(
    alloc: A,
    group: &PrinterGroup<'_, A>,
    name: &[u8],
    job: &[u8],
) -> Result<Told<A>, Why>
    ensures sentence { IfOk result (IsSentenceOf group.now name.now job.now) }
    ensures stops { IfErr result IsStop }
{
    match judge(alloc, group.profiles(), job) {
        Ok(judgement) => told_of(alloc, group, name, judgement),
        Err(error) => Err(Why::Stopped(error)),
    }
}

/// The sentence by an answer on a job of this name.
pub fn text_of<A: Allocator + Copy>(
    alloc: A,
    group: &PrinterGroup<'_, A>,
    name: &[u8],
    answer: Result<Judgement, Error>,
) -> Result<Told<A>, Why>
    ensures text { IfOk result (IsTextOf group.now name.now answer) }
    ensures stops { IfErr result IsStop }
{
    match answer {
        Ok(judgement) => told_of(alloc, group, name, judgement),
        Err(error) => Err(Why::Stopped(error)),
    }
}

/// The sentence on a job that was judged, with its verdict.
fn told_of<A: Allocator + Copy>(
    alloc: A,
    group: &PrinterGroup<'_, A>,
    name: &[u8],
    judgement: Judgement,
) -> Result<Told<A>, Why>
    ensures row { IfOk result (λ told. told.row
        ≡ verdict_row judgement.verdict judgement.page) }
    ensures text { IfOk result (λ told. told.text
        ≡ job_sentence (reported group.now name.now (Ok judgement) None)) }
    ensures stops { IfErr result IsStop }
{
    match sentence(alloc, group, name, judgement) {
        Ok(text) => Ok(Told {
            row: verdict_row(judgement.verdict, judgement.page),
            text,
        }),
        Err(error) => Err(Why::from(error)),
    }
}

/// The sentence on a job that was judged.
pub fn sentence<A: Allocator + Copy>(
    alloc: A,
    group: &PrinterGroup<'_, A>,
    name: &[u8],
    judgement: Judgement,
) -> Result<Vec<u8, A>, AllocError>
    ensures { IfOk result (λ text. text.items
        ≡ job_sentence (reported group.now name.now (Ok judgement) None)) }
{
    let report = Report {
        printers: group,
        job: name,
        answer: Ok(judgement),
        cause: None,
    };
    let mut text = Vec::new(alloc);
    push_job_sentence(alloc, &mut text, &report)?;
    Ok(text)
}
