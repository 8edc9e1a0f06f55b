//! The line of a job, in a check of many.
ghost use Rattle.std.specs.Prelude.{◌≡◌, ◌++◌, OnOk, option_map};
ghost use Rattle.job_reports.specs.JobLines.{cause_part, job_line, printer_words, reason_part};
ghost use Rattle.job_reports.specs.JobLines.{result_words, verdict_words};
ghost use Rattle.job_reports.specs.Reports.{number_told, verdict_told};

use crate::reports::Report;
use line_words::{push_named, push_reason};
use requests::error_words;
use shown_bytes::push_shown;
use std::alloc::{AllocError, Allocator};
use streams::Error;
use verdict::Verdict;

/// Appends the line of a job: what came of it, the printer that this is about, the number and the
/// name of what is wrong, the job's name, and what the system says of a read that failed.
pub fn push_job_line<A: Allocator, B: Allocator>(
    line: &mut Vec<u8, A>,
    report: &Report<'_, '_, B>,
) -> Result<(), AllocError>
    ensures { OnOk result (line.new.items ≡ line.old.items ++ job_line report.now) }
{
    push_result(line, report.verdict())?;
    push_printer(line, report)?;
    push_reason_part(line, report.verdict())?;
    line.push(b' ')?;
    push_shown(line, report.job)?;
    push_cause(line, report.cause)?;
    line.push(b'\n')?;
    Ok(())
}

/// Appends what came of a job.
fn push_result<A: Allocator>(
    line: &mut Vec<u8, A>,
    answer: Result<Verdict, Error>,
) -> Result<(), AllocError>
    ensures { OnOk result (line.new.items ≡ line.old.items ++ result_words answer) }
{
    match answer {
        Ok(verdict) => push_verdict(line, verdict),
        Err(error) => line.extend_from_slice(error_words(error)),
    }
}

/// Appends a verdict without what is wrong.
fn push_verdict<A: Allocator>(line: &mut Vec<u8, A>, verdict: Verdict) -> Result<(), AllocError>
    ensures { OnOk result (line.new.items ≡ line.old.items ++ verdict_words verdict) }
{
    match verdict {
        Verdict::Pass { pages, marks } => {
            push_named(line, b"PASS pages=", pages)?;
            push_named(line, b" marks=", marks)?;
        }
        Verdict::Fail { place, .. } => push_named(line, b"FAIL at=", place)?,
    }
    Ok(())
}

/// Appends the name of the printer that the line is about.
fn push_printer<A: Allocator, B: Allocator>(
    line: &mut Vec<u8, A>,
    report: &Report<'_, '_, B>,
) -> Result<(), AllocError>
    ensures { OnOk result (line.new.items ≡ line.old.items ++ printer_words report.now.names
        (number_told report.now.is_each (verdict_told report.now.answer))) }
{
    if report.number_told() == 0 {
        return Ok(());
    }
    line.extend_from_slice(b" printer=")?;
    line.extend_from_slice(report.printer_name())
}

/// Appends the number and the name of what is wrong.
fn push_reason_part<A: Allocator>(
    line: &mut Vec<u8, A>,
    answer: Result<Verdict, Error>,
) -> Result<(), AllocError>
    ensures { OnOk result (line.new.items ≡ line.old.items ++ reason_part answer) }
{
    match answer {
        Ok(Verdict::Fail { finding, .. }) => {
            line.push(b' ')?;
            push_reason(line, finding)
        }
        Ok(Verdict::Pass { .. }) | Err(_) => Ok(()),
    }
}

/// Appends what the system says of a read that failed.
pub fn push_cause<A: Allocator>(
    line: &mut Vec<u8, A>,
    cause: Option<&[u8]>,
) -> Result<(), AllocError>
    ensures { OnOk result (line.new.items ≡ line.old.items ++
        cause_part (option_map (λ words. words.now) cause.entry)) }
{
    match cause {
        Some(words) => {
            line.extend_from_slice(b": ")?;
            push_shown(line, words)
        }
        None => Ok(()),
    }
}
