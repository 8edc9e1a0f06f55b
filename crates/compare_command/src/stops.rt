//! Why two jobs are not compared.

ghost use Rattle.std.specs.Prelude.{◌≡◌, IsFalse};
ghost use Rattle.comparison.specs.Comparing.{is_unread_by};
ghost use Rattle.comparison.specs.Running.{IsErrorOfJob};
ghost use Rattle.compare_command.specs.Compare.{LacksMemory, StopsAt, StopsReading, TellsUnheld};
ghost use Rattle.compare_command.specs.Compare.{asked_for, name_by};
ghost use Rattle.job_reports.specs.Refusals.{TellsUnread};
ghost use Rattle.page_comparison.specs.Reading.{IsErrorOfPages, is_unread_error};
ghost use Rattle.streams.specs.Source.{SourceState};

use crate::asked::CompareAsked;
use crate::found::Manner;
use comparison::{Unread, Which};
use job_reports::push_unread;
use named_inputs::system_words::system_words;
use page_comparison::{MOST_MARKS, PagesError};
use requests::{Status, Trouble};
use std::alloc::Global;
use std::io;
use streams::{Error, Outlet, Source, write_text};

/// Why two jobs are not compared.
#[derive(Drop)]
pub(crate) struct Stop {
    pub which: Which,
    pub error: Error,
    /// What is known of that, where it can be told.
    pub cause: Option<String>,
}

/// One of two jobs was not read to its end.
pub(crate) fn stop_of_reading<S: Source>(
    alloc: Global,
    old_job: &S,
    new_job: &S,
    unread: Unread,
) -> Stop
    requires { IsErrorOfJob unread.error }
    ensures { (old_read new_read : SourceState) →
        old_read.failed ≡ is_unread_by Which.Old unread.which unread.error →
        new_read.failed ≡ is_unread_by Which.New unread.which unread.error →
        StopsReading old_read new_read result.which result.error }
{
    Stop {
        which: unread.which,
        error: unread.error,
        cause: system_words(alloc, error_of(old_job, new_job, unread.which)),
    }
}

/// Why a read of this one of two jobs failed, where the system tells it.
fn error_of<S: Source>(old_job: &S, new_job: &S, which: Which) -> Option<io::Error> {
    match which {
        Which::Old => old_job.error(),
        Which::New => new_job.error(),
    }
}

/// The pages of two jobs are not compared: one was not read to its end, or has a page with more
/// marks than are held; or there was no memory for marks or for differences.
pub(crate) fn stop_of_pages<S: Source>(
    alloc: Global,
    old_job: &S,
    new_job: &S,
    error: PagesError,
) -> Stop
    requires { IsErrorOfPages error }
    ensures { (old_read new_read : SourceState) →
        old_read.failed ≡ is_unread_error Which.Old error →
        new_read.failed ≡ is_unread_error Which.New error →
        StopsReading old_read new_read result.which result.error }
{
    match error {
        PagesError::Unread(unread) => stop_of_reading(alloc, old_job, new_job, unread),
        PagesError::TooManyMarks(page) => Stop {
            which: page.which,
            error: Error::Memory,
            cause: page_words(alloc, page.page),
        },
        PagesError::Memory => Stop {
            which: Which::Old,
            error: Error::Memory,
            cause: None,
        },
    }
}

/// The words on a page with so many marks, where there is memory for them.
fn page_words(alloc: Global, page: u64) -> Option<String> {
    let most = MOST_MARKS;
    format!(in alloc; "page {page} has more than {most} marks").ok()
}

/// The name of this one of two jobs.
pub(crate) fn name_by<'n>(asked: &CompareAsked<'_, 'n>, which: Which) -> &'n str
    ensures { result.now ≡ name_by (asked_for asked.now) which }
{
    match which {
        Which::Old => asked.old_name,
        Which::New => asked.new_name,
    }
}

/// Tells standard error why two jobs are not compared in this manner, where that is known of one
/// of them.
pub(crate) fn tell_stop<E: Outlet>(
    alloc: Global,
    asked: &CompareAsked<'_, '_>,
    manner: Manner,
    stop: &Stop,
    stderr: &mut E,
) -> Status
    requires error { IsErrorOfJob stop.now.error }
    requires stderr { IsFalse (E.state stderr.old).failed }
    ensures { StopsAt manner (name_by (asked_for asked.now) stop.now.which) stop.now.error result
        (E.state stderr.old) (E.state stderr.new) }
{
    let name = name_by(asked, stop.which);
    let cause = stop.cause.as_ref().map(|words| words.as_bytes());
    tell_stop_of(alloc, manner, name, stop.error, cause, stderr)
}

/// Tells standard error why the job of this name is not compared, where that is known.
fn tell_stop_of<E: Outlet>(
    alloc: Global,
    manner: Manner,
    name: &str,
    error: Error,
    cause: Option<&[u8]>,
    stderr: &mut E,
) -> Status
    requires error { IsErrorOfJob error }
    requires stderr { IsFalse (E.state stderr.old).failed }
    ensures { StopsAt manner name.now error result (E.state stderr.old) (E.state stderr.new) }
{
    match error {
        Error::Read => tell_cause(alloc, b"ERROR read job ", name, cause, stderr),
        Error::Memory => tell_of_memory(alloc, manner, name, cause, stderr),
        _ => Status::Stopped(error),
    }
}

/// Tells standard error of a job for which there is no memory. Event by event no page of it is
/// held, and nothing is told.
fn tell_of_memory<E: Outlet>(
    alloc: Global,
    manner: Manner,
    name: &str,
    cause: Option<&[u8]>,
    stderr: &mut E,
) -> Status
    requires { IsFalse (E.state stderr.old).failed }
    ensures { LacksMemory manner name.now result (E.state stderr.old) (E.state stderr.new) }
{
    match manner {
        Manner::ByEvents => Status::Stopped(Error::Memory),
        Manner::ByPages { .. } => tell_of_page(alloc, name, cause, stderr),
    }
}

/// Tells standard error which page of a job cannot be held, where that is known.
fn tell_of_page<E: Outlet>(
    alloc: Global,
    name: &str,
    cause: Option<&[u8]>,
    stderr: &mut E,
) -> Status
    requires { IsFalse (E.state stderr.old).failed }
    ensures { TellsUnheld name.now result (E.state stderr.old) (E.state stderr.new) }
{
    match cause {
        Some(_) => tell_cause(alloc, b"ERROR memory job ", name, cause, stderr),
        None => Status::Stopped(Error::Memory),
    }
}

/// Tells standard error behind this front what of the job of a name could not be had, and why.
fn tell_cause<E: Outlet>(
    alloc: Global,
    front: &[u8],
    name: &str,
    cause: Option<&[u8]>,
    stderr: &mut E,
) -> Status
    requires { IsFalse (E.state stderr.old).failed }
    ensures { TellsUnread front.now name.now result (E.state stderr.old) (E.state stderr.new) }
{
    let mut text = Vec::new(alloc);
    if push_unread(&mut text, front, name, cause).is_err() {
        return Status::Stopped(Error::Memory);
    }
    // Where standard error takes nothing, the status alone is left to tell.
    let _ = write_text(stderr, text.as_slice());
    Status::Told(Trouble::NoVerdict)
}
