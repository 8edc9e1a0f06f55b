//! What the program does on texts of a job by request, on files. A history is kept of which files
//! that were.
ghost use Rattle.renderings.specs.Expected.{list_rendering};
ghost use Rattle.std.specs.Prelude.{◌≢◌, [], IsFalse, map};
ghost use Rattle.file_requests.specs.JobRequests.{LeavesCheck, LeavesNotesFor, LeavesPagesFor};
ghost use Rattle.file_requests.specs.JobRequests.{LeavesPdfAt, LeavesPictureFor, LeavesPin};
ghost use Rattle.file_requests.specs.JobRequests.{LeavesPlain};
ghost use Rattle.file_requests.specs.JobRequests.{LeavesRendered, LeavesSurveyOf};
ghost use Rattle.named_inputs.specs.Texts.{text_named};

use crate::outs::{end_document, end_out};
use job_reports::{is_pipe, refuse_pipe};
use named_inputs::{FileJobs, FileTexts};
use pdf_command::PdfAsked;
use picture_command::PictureAsked;
use requests::{Form, PanelSetting, Status};
use std::io::{Input, Print};
use std::rt::Files;
use streams::{FilesUsed, Outlet, OutletAt, SourceAt};
use survey::survey_jobs;

/// Checks the job at a path for the printers that words name.
pub fn check<R: Files + AllocGlobal, O: Outlet>(
    rt: &R,
    job: &str,
    profiles: &[&str],
    used: &mut FilesUsed,
    stdout: &mut O,
) -> Status
    requires stdout { IsFalse (O.state stdout.old).failed }
    requires some { profiles.now ≢ [] }
    ensures { LeavesCheck job.now (map (λ word. word.now) profiles.now)
        (map (λ word. text_named word.now) profiles.now) result
        used.old used.new (O.state stdout.old) (O.state stdout.new) }
{
    let mut source = SourceAt::new(rt, job);
    let mut texts = FileTexts::new(rt);
    let status = subcommands::check::check(
        rt.alloc(),
        &mut source.file,
        &mut texts,
        profiles,
        stdout,
    );
    texts.end(used);
    used.read(source);
    status
}

/// Lists the items of the job at a path.
pub fn list<R: Files + AllocGlobal, O: Outlet>(
    rt: &R,
    job: &str,
    used: &mut FilesUsed,
    stdout: &mut O,
) -> Status
    requires { IsFalse (O.state stdout.old).failed }
    ensures { LeavesRendered job.now list_rendering result
        used.old used.new (O.state stdout.old) (O.state stdout.new) }
{
    let mut source = SourceAt::new(rt, job);
    let status = subcommands::list::list(rt.alloc(), &mut source.file, stdout);
    used.read(source);
    status
}

/// Surveys the jobs at paths.
pub fn survey_files<'r, R: Files + Input + AllocGlobal, O: Outlet, E: Outlet>(
    rt: &'r R,
    jobs: &[&'r str],
    form: Form,
    used: &mut FilesUsed,
    stdout: &mut O,
    stderr: &mut E,
) -> Status
    requires stdout { IsFalse (O.state stdout.old).failed }
    requires stderr { IsFalse (E.state stderr.old).failed }
    ensures { LeavesSurveyOf (map (λ job. job.now) jobs.now) form result
        used.old used.new (O.state stdout.old) (O.state stdout.new)
        (E.state stderr.old) (E.state stderr.new) }
{
    let mut files = FileJobs::new(rt);
    let status = survey_jobs(rt.alloc(), &mut files, jobs, form, stdout, stderr);
    files.tell(used);
    status
}

/// Writes what the job at a path marks on its pages, on the printer that a word names.
pub fn pages<R: Files + AllocGlobal, O: Outlet>(
    rt: &R,
    job: &str,
    profile: &str,
    used: &mut FilesUsed,
    stdout: &mut O,
) -> Status
    requires { IsFalse (O.state stdout.old).failed }
    ensures { LeavesPagesFor job.now profile.now result
        used.old used.new (O.state stdout.old) (O.state stdout.new) }
{
    let mut source = SourceAt::new(rt, job);
    let mut texts = FileTexts::new(rt);
    let status = subcommands::pages::pages(
        rt.alloc(),
        &mut source.file,
        &mut texts,
        profile,
        stdout,
    );
    texts.end(used);
    used.read(source);
    status
}

/// Why a picture reads its job again.
const READ_TO_DRAW: &[u8] = b"a picture is drawn at a second reading\n";

/// Draws pages of the job at a path, from a panel setting of a printer. A job that is no file is
/// refused, since it cannot be read twice.
pub fn picture<R: Files + AllocGlobal, O: Outlet, E: Outlet>(
    rt: &R,
    asked: &PictureAsked<'_>,
    used: &mut FilesUsed,
    stdout: &mut O,
    stderr: &mut E,
) -> Status
    requires stdout { IsFalse (O.state stdout.old).failed }
    requires stderr { IsFalse (E.state stderr.old).failed }
    ensures { LeavesPictureFor asked.now.setting.profile.now asked.now.setting.choices.now
        asked.now.selection asked.now.job.now result used.old used.new
        (O.state stdout.old) (O.state stdout.new) (E.state stderr.old) (E.state stderr.new) }
{
    if is_pipe(rt, asked.job.as_bytes()) {
        return refuse_pipe(rt.alloc(), asked.job.as_bytes(), READ_TO_DRAW, stderr);
    }
    let mut first = SourceAt::new(rt, asked.job);
    let mut second = SourceAt::new(rt, asked.job);
    let mut texts = FileTexts::new(rt);
    let status = picture_command::picture(
        rt.alloc(),
        &mut first.file,
        &mut second.file,
        &mut texts,
        asked,
        stdout,
        stderr,
    );
    texts.end(used);
    used.read(first);
    used.read(second);
    status
}

/// Why a document reads its job again.
const READ_TO_WRITE: &[u8] = b"a document is written at a second reading\n";

/// Writes pages of the job at a path as a PDF document, in the place of the file at another, from a
/// panel setting of a printer. A job that is no file is refused, since it cannot be read twice.
pub fn pdf<R: Files + Print + AllocGlobal, O: Outlet, E: Outlet>(
    rt: &R,
    asked: &PdfAsked<'_>,
    out: &str,
    used: &mut FilesUsed,
    stdout: &mut O,
    stderr: &mut E,
) -> Status
    requires stdout { IsFalse (O.state stdout.old).failed }
    requires stderr { IsFalse (E.state stderr.old).failed }
    ensures { LeavesPdfAt asked.now.job.now out.now asked.now.setting.profile.now
        asked.now.most_items asked.now.setting.choices.now asked.now.selection asked.now.is_proof
        result used.old used.new
        (O.state stdout.old) (O.state stdout.new) (E.state stderr.old) (E.state stderr.new) }
{
    if is_pipe(rt, asked.job.as_bytes()) {
        return refuse_pipe(rt.alloc(), asked.job.as_bytes(), READ_TO_WRITE, stderr);
    }
    let mut first = SourceAt::new(rt, asked.job);
    let mut source = SourceAt::new(rt, asked.job);
    let mut texts = FileTexts::new(rt);
    let mut outlet = OutletAt::new(rt, out);
    let ended = pdf_command::pdf(
        rt.alloc(),
        &mut first.file,
        &mut source.file,
        &mut texts,
        asked,
        &mut outlet.file,
        stdout,
        stderr,
    );
    let status = end_document(ended, &mut outlet.file);
    texts.end(used);
    used.read(first);
    used.read(source);
    used.written(outlet);
    status
}

/// Writes what the job at a path leaves to the printer that a word names.
pub fn notes<R: Files + AllocGlobal, O: Outlet>(
    rt: &R,
    job: &str,
    profile: &str,
    used: &mut FilesUsed,
    stdout: &mut O,
) -> Status
    requires { IsFalse (O.state stdout.old).failed }
    ensures { LeavesNotesFor job.now profile.now result
        used.old used.new (O.state stdout.old) (O.state stdout.new) }
{
    let mut source = SourceAt::new(rt, job);
    let mut texts = FileTexts::new(rt);
    let status = subcommands::job_notes::tell_notes(
        rt.alloc(),
        &mut source.file,
        &mut texts,
        profile,
        stdout,
    );
    texts.end(used);
    used.read(source);
    status
}

/// Writes the job at a path again, in the place of the file at another.
pub fn plain<R: Files + Print + AllocGlobal, O: Outlet>(
    rt: &R,
    job: &str,
    out: &str,
    used: &mut FilesUsed,
    stdout: &mut O,
) -> Status
    requires { IsFalse (O.state stdout.old).failed }
    ensures { LeavesPlain job.now out.now result
        used.old used.new (O.state stdout.old) (O.state stdout.new) }
{
    let mut source = SourceAt::new(rt, job);
    let mut outlet = OutletAt::new(rt, out);
    let answer = subcommands::plain::plain(rt.alloc(), &mut source.file, &mut outlet.file, stdout);
    let status = end_out(answer, &mut outlet.file);
    used.read(source);
    used.written(outlet);
    status
}

/// Writes the job at a path again, in the place of the file at another, pinned to a panel setting
/// of a printer.
pub fn pin<R: Files + Print + AllocGlobal, O: Outlet, E: Outlet>(
    rt: &R,
    job: &str,
    setting: &PanelSetting<'_>,
    out: &str,
    used: &mut FilesUsed,
    stdout: &mut O,
    stderr: &mut E,
) -> Status
    requires stdout { IsFalse (O.state stdout.old).failed }
    requires stderr { IsFalse (E.state stderr.old).failed }
    ensures { LeavesPin job.now out.now setting.now.profile.now setting.now.choices.now result
        used.old used.new
        (O.state stdout.old) (O.state stdout.new) (E.state stderr.old) (E.state stderr.new) }
{
    let mut source = SourceAt::new(rt, job);
    let mut texts = FileTexts::new(rt);
    let mut outlet = OutletAt::new(rt, out);
    let answer = subcommands::pin::pin(
        rt.alloc(),
        &mut source.file,
        &mut texts,
        setting,
        &mut outlet.file,
        stdout,
        stderr,
    );
    let status = end_out(answer, &mut outlet.file);
    texts.end(used);
    used.read(source);
    used.written(outlet);
    status
}
