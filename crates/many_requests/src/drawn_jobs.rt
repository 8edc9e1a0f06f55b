//! A comparison of two jobs by request, on files, with a picture of what differs.

ghost use Rattle.std.specs.Prelude.{◌≢◌, [], IsFalse};
ghost use Rattle.compare_command.specs.Compare.{asked_for};
ghost use Rattle.many_requests.specs.DrawnJobs.{EndsDrawn, FindsInput, LeavesDrawnJobs};
ghost use Rattle.many_requests.specs.DrawnJobs.{LeavesDrawnOnFiles, LeavesUnlessRead};

use crate::inputs::READ_FOR_EACH;
use crate::looks::first_same;
use crate::read_again::gone_once_read;
use compare_command::{CompareAsked, Drawn, compare_drawn};
use job_reports::refuse_pipe;
use named_inputs::{FileJobs, FileTexts};
use requests::{Input as Read, Status};
use std::io::{Input, Print};
use std::rt::Files;
use streams::{Error, FileOutlet, FilesUsed, Outlet, OutletAt};

/// Compares two jobs and draws what differs, in the place of the file at a path: unless one would
/// be read again that can be read only once, or that file is one that is read.
pub(crate) fn compare_drawn_on_files<
    'r,
    R: Files + Input + Print + AllocGlobal,
    O: Outlet,
    E: Outlet,
>(
    rt: &'r R,
    asked: &CompareAsked<'_, 'r>,
    path: &'r str,
    used: &mut FilesUsed,
    stdout: &mut O,
    stderr: &mut E,
) -> Status
    requires stdout { IsFalse (O.state stdout.old).failed }
    requires stderr { IsFalse (E.state stderr.old).failed }
    requires some { asked.now.printers.now ≢ [] }
    ensures { LeavesDrawnOnFiles (asked_for asked.now) path.now result used.old used.new
        (O.state stdout.old) (O.state stdout.new) (E.state stderr.old) (E.state stderr.new) }
{
    if let Some(name) = gone_once_read(rt, asked) {
        return refuse_pipe(rt.alloc(), name.as_bytes(), READ_FOR_EACH, stderr);
    }
    draw_unless_read(rt, asked, path, used, stdout, stderr)
}

/// Compares two jobs and draws what differs, unless the file at the path is one that is read.
fn draw_unless_read<'r, R: Files + Input + Print + AllocGlobal, O: Outlet, E: Outlet>(
    rt: &'r R,
    asked: &CompareAsked<'_, 'r>,
    path: &'r str,
    used: &mut FilesUsed,
    stdout: &mut O,
    stderr: &mut E,
) -> Status
    requires stdout { IsFalse (O.state stdout.old).failed }
    requires stderr { IsFalse (E.state stderr.old).failed }
    requires some { asked.now.printers.now ≢ [] }
    ensures { LeavesUnlessRead (asked_for asked.now) path.now result used.old used.new
        (O.state stdout.old) (O.state stdout.new) (E.state stderr.old) (E.state stderr.new) }
{
    match overwritten(rt, asked, path, used) {
        Some(read) => Status::Overwrites(read),
        None => draw_jobs(rt, asked, path, used, stdout, stderr),
    }
}

/// Compares two jobs and draws what differs.
fn draw_jobs<'r, R: Files + Input + Print + AllocGlobal, O: Outlet, E: Outlet>(
    rt: &'r R,
    asked: &CompareAsked<'_, 'r>,
    path: &'r str,
    used: &mut FilesUsed,
    stdout: &mut O,
    stderr: &mut E,
) -> Status
    requires stdout { IsFalse (O.state stdout.old).failed }
    requires stderr { IsFalse (E.state stderr.old).failed }
    requires some { asked.now.printers.now ≢ [] }
    ensures { LeavesDrawnJobs (asked_for asked.now) path.now result used.old used.new
        (O.state stdout.old) (O.state stdout.new) (E.state stderr.old) (E.state stderr.new) }
{
    let mut jobs = FileJobs::new(rt);
    let mut texts = FileTexts::new(rt);
    let mut outlet = OutletAt::new(rt, path);
    let drawn = compare_drawn(
        rt.alloc(),
        &mut jobs,
        &mut texts,
        asked,
        &mut outlet.file,
        stdout,
        stderr,
    );
    let status = end_drawn(drawn, &mut outlet.file);
    texts.end(used);
    jobs.tell(used);
    used.written(outlet);
    status
}

/// Puts OUT in its place where it has all of the picture, and the command came to its end; else OUT
/// is as it was. Answers how the program then ends.
fn end_drawn<R: Files + Print>(drawn: Drawn, out: &mut FileOutlet<'_, R>) -> Status
    ensures { EndsDrawn drawn result out.old.outlet out.new }
{
    match out.end(drawn.is_whole()) {
        Ok(()) => drawn.status,
        Err(_) => Status::Stopped(Error::Write),
    }
}

/// Which of the files that are read is the one that would be written, if one is. No clause can say
/// what stands at a path, but that a look found it.
fn overwritten<R: Files>(
    rt: &R,
    asked: &CompareAsked<'_, '_>,
    path: &str,
    used: &mut FilesUsed,
) -> Option<Read>
    ensures { FindsInput (asked_for asked.now) path.now result used.old used.new }
{
    let is_old = used.is_same_file(rt, path, asked.old_name);
    if is_old {
        return Some(Read::Job);
    }
    let is_new = used.is_same_file(rt, path, asked.new_name);
    if is_new {
        return Some(Read::Job);
    }
    overwritten_profile(rt, asked, path, used)
}

/// The same of the profiles alone.
fn overwritten_profile<R: Files>(
    rt: &R,
    asked: &CompareAsked<'_, '_>,
    path: &str,
    used: &mut FilesUsed,
) -> Option<Read>
    ensures { FindsInput (asked_for asked.now) path.now result used.old used.new }
{
    match first_same(rt, asked.printers, path, used) {
        Some(_) => Some(Read::Profile),
        None => None,
    }
}
