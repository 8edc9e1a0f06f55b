//! The line that is told of a job, in a check of many jobs.
ghost use Rattle.std.specs.Prelude.{◌≡◌, IfErr, IfOk, IsFalse, List, OnOk, Option, ℕ};
ghost use Rattle.streams.specs.Errors.{is_err_of_write};
ghost use Rattle.many_jobs.specs.Asked.{told_by};
ghost use Rattle.job_reports.specs.Groups.{reported};
ghost use Rattle.many_jobs.specs.JobChecks.{AddsTold, CutsTold};
ghost use Rattle.many_jobs.specs.Telling.{report_text};

use crate::telling::{Telling, push_report};
use job_reports::{PrinterGroup, Report};
use judgement::Judgement;
use named_inputs::system_words::system_words;
use std::alloc::{AllocError, Allocator};
use std::io;
use streams::{Error, Outlet, write_text};

/// Writes what came of a job, with what the system says of an error, where it can be had.
pub(crate) fn tell_line<'t, O: Outlet, A: Allocator + Copy>(
    alloc: A,
    group: &'t PrinterGroup<'t, A>,
    name: &'t [u8],
    answer: Result<Judgement, Error>,
    error: Option<io::Error>,
    telling: &Telling<'_>,
    stdout: &mut O,
) -> Result<(), Error>
    requires { IsFalse (O.state stdout.old).failed }
    ensures told { OnOk result (AddsTold
        (λ cause. report_text (told_by telling.now) (reported group.now name.now answer cause))
        (O.state stdout.old) (O.state stdout.new)) }
    ensures cut { IfErr result (λ error. CutsTold error
        (λ cause. report_text (told_by telling.now) (reported group.now name.now answer cause))
        (O.state stdout.old) (O.state stdout.new)) }
    ensures write { (O.state stdout.new).failed ≡ is_err_of_write result }
{
    let line = line_of_job(alloc, group, name, answer, error, telling)?;
    write_text(stdout, line.as_slice())
}

/// What is told of a job, with what the system says of an error, where it can be had.
fn line_of_job<'t, A: Allocator + Copy>(
    alloc: A,
    group: &'t PrinterGroup<'t, A>,
    name: &'t [u8],
    answer: Result<Judgement, Error>,
    error: Option<io::Error>,
    telling: &Telling<'_>,
) -> Result<Vec<u8, A>, AllocError>
    ensures { IfOk result (λ line. (cause : Option (List ℕ)) × (line.items ≡
        report_text (told_by telling.now) (reported group.now name.now answer cause))) }
{
    let words = system_words(alloc, error);
    let cause = words.as_ref().map(|words| words.as_bytes());
    let report = Report {
        printers: group,
        job: name,
        answer,
        cause,
    };
    let mut line = Vec::new(alloc);
    push_report(alloc, &mut line, &report, telling)?;
    Ok(line)
}
