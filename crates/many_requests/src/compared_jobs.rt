//! Comparisons of jobs by request, on files.

ghost use Rattle.std.specs.Prelude.{◌≢◌, [], IsFalse, map, option_map};
ghost use Rattle.compare_command.specs.Compare.{asked_for};
ghost use Rattle.compare_command.specs.Golden.{golden_for};
ghost use Rattle.many_requests.specs.Comparisons.{LeavesComparison, LeavesOnFiles, LeavesPair};
ghost use Rattle.many_requests.specs.Comparisons.{LeavesWith};
ghost use Rattle.many_requests.specs.GoldenJobs.{LeavesInFolder, golden_in};
ghost use Rattle.requests.specs.Comparisons.{NamesCompared};

use crate::drawn_jobs::compare_drawn_on_files;
use crate::golden_jobs::{compare_golden_jobs, golden_jobs};
use crate::inputs::READ_FOR_EACH;
use crate::many::{all_printers, read_fleets};
use crate::read_again::gone_once_read;
use compare_command::{CompareAsked, GoldenAsked, compare};
use job_reports::refuse_pipe;
use named_inputs::{FileJobs, FileTexts};
use requests::{CompareWords, ComparedJobs, Status};
use std::io::{Input, Print};
use std::rt::Files;
use streams::{Error, FilesUsed, Outlet};

/// Compares jobs. The fleets are read first, then the profiles, then the jobs.
pub fn compare_asked<R: Files + Input + Print + AllocGlobal, O: Outlet, E: Outlet>(
    rt: &R,
    words: &CompareWords<'_>,
    used: &mut FilesUsed,
    stdout: &mut O,
    stderr: &mut E,
) -> Status
    requires stdout { IsFalse (O.state stdout.old).failed }
    requires stderr { IsFalse (E.state stderr.old).failed }
    requires some { NamesCompared words.now }
    ensures { LeavesComparison words.now result used.old used.new
        (O.state stdout.old) (O.state stdout.new) (E.state stderr.old) (E.state stderr.new) }
{
    let alloc = rt.alloc();
    let mut texts = FileTexts::new(rt);
    let fleets = match read_fleets(alloc, &mut texts, words.fleets.as_slice(), stderr) {
        Ok(fleets) => fleets,
        Err(status) => return status,
    };
    texts.end(used);
    let Ok(printers) = all_printers(alloc, words.printers.as_slice(), fleets.as_slice()) else {
        return Status::Stopped(Error::Memory);
    };
    compare_with(rt, words, printers.as_slice(), used, stdout, stderr)
}

/// Compares the jobs that words name, on these printers.
fn compare_with<R: Files + Input + Print + AllocGlobal, O: Outlet, E: Outlet>(
    rt: &R,
    words: &CompareWords<'_>,
    printers: &[&str],
    used: &mut FilesUsed,
    stdout: &mut O,
    stderr: &mut E,
) -> Status
    requires stdout { IsFalse (O.state stdout.old).failed }
    requires stderr { IsFalse (E.state stderr.old).failed }
    requires some { printers.now ≢ [] }
    ensures { LeavesWith words.now.jobs words.now (map (λ word. word.now) printers.now) result
        used.old used.new
        (O.state stdout.old) (O.state stdout.new) (E.state stderr.old) (E.state stderr.new) }
{
    match &words.jobs {
        ComparedJobs::Pair { old_job, new_job } => {
            let asked = CompareAsked {
                old_name: old_job,
                new_name: new_job,
                printers,
                form: words.form,
                nearness: words.nearness,
                extent: words.extent,
                is_named: false,
            };
            compare_pair(rt, &asked, words.picture, used, stdout, stderr)
        }
        ComparedJobs::Golden { folder, jobs } => {
            let asked = GoldenAsked {
                pairs: &[],
                printers,
                form: words.form,
                nearness: words.nearness,
                extent: words.extent,
            };
            compare_in_folder(rt, folder, jobs.as_slice(), &asked, used, stdout, stderr)
        }
    }
}

/// Compares two jobs, and draws what differs in the place of the file at a path, if one is told.
fn compare_pair<'r, R: Files + Input + Print + AllocGlobal, O: Outlet, E: Outlet>(
    rt: &'r R,
    asked: &CompareAsked<'_, 'r>,
    picture: Option<&'r str>,
    used: &mut FilesUsed,
    stdout: &mut O,
    stderr: &mut E,
) -> Status
    requires stdout { IsFalse (O.state stdout.old).failed }
    requires stderr { IsFalse (E.state stderr.old).failed }
    requires some { asked.now.printers.now ≢ [] }
    ensures { LeavesPair (option_map (λ path. path.now) picture.entry) (asked_for asked.now) result
        used.old used.new
        (O.state stdout.old) (O.state stdout.new) (E.state stderr.old) (E.state stderr.new) }
{
    match picture {
        Some(path) => compare_drawn_on_files(rt, asked, path, used, stdout, stderr),
        None => compare_on_files(rt, asked, used, stdout, stderr),
    }
}

/// Compares two jobs, unless one would be read again that can be read only once.
fn compare_on_files<'r, R: Files + Input + AllocGlobal, O: Outlet, E: Outlet>(
    rt: &'r R,
    asked: &CompareAsked<'_, 'r>,
    used: &mut FilesUsed,
    stdout: &mut O,
    stderr: &mut E,
) -> Status
    requires stdout { IsFalse (O.state stdout.old).failed }
    requires stderr { IsFalse (E.state stderr.old).failed }
    requires some { asked.now.printers.now ≢ [] }
    ensures { LeavesOnFiles (asked_for asked.now) result used.old used.new
        (O.state stdout.old) (O.state stdout.new) (E.state stderr.old) (E.state stderr.new) }
{
    if let Some(name) = gone_once_read(rt, asked) {
        return refuse_pipe(rt.alloc(), name.as_bytes(), READ_FOR_EACH, stderr);
    }
    let mut jobs = FileJobs::new(rt);
    let mut texts = FileTexts::new(rt);
    let status = compare(rt.alloc(), &mut jobs, &mut texts, asked, stdout, stderr);
    texts.end(used);
    jobs.tell(used);
    status
}

/// Compares each of these jobs with the one of its name in a folder; else as it is asked.
fn compare_in_folder<R: Files + Input + AllocGlobal, O: Outlet, E: Outlet>(
    rt: &R,
    folder: &str,
    jobs: &[&str],
    asked: &GoldenAsked<'_, '_>,
    used: &mut FilesUsed,
    stdout: &mut O,
    stderr: &mut E,
) -> Status
    requires stdout { IsFalse (O.state stdout.old).failed }
    requires stderr { IsFalse (E.state stderr.old).failed }
    requires some { asked.now.printers.now ≢ [] }
    ensures { LeavesInFolder
        (golden_in folder.now (map (λ job. job.now) jobs.now) (golden_for asked.now))
        result used.old used.new
        (O.state stdout.old) (O.state stdout.new) (E.state stderr.old) (E.state stderr.new) }
{
    let Ok(golden) = golden_jobs(rt.alloc(), folder, jobs) else {
        return Status::Stopped(Error::Memory);
    };
    compare_golden_jobs(rt, golden.as_slice(), asked, used, stdout, stderr)
}
