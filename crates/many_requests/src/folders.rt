//! Folders that cannot have the documents of jobs.
ghost use Rattle.std.specs.Prelude.{◌≡◌, IfNone, IfOk, IfSome, IsFalse, None, map};
ghost use Rattle.many_requests.specs.Documents.{same_named};
ghost use Rattle.many_requests.specs.Folders.{RefusesFolder, RefusesFolderFor, TellsFolder};
ghost use Rattle.many_requests.specs.Folders.{folder_line};
ghost use Rattle.many_requests.specs.Checks.{RefusesDocuments};

use crate::documents::refuse_names;
use job_reports::{push_named_first, refuse_words};
use named_inputs::system_words::system_words;
use requests::Status;
use std::alloc::{AllocError, Global};
use std::io;
use std::rt::Files;
use streams::{Error, FilesUsed, Outlet};

/// Why the system said no, where it says nothing more.
const UNKNOWN: &[u8] = b"the system does not tell why";

/// Refuses jobs whose documents would be one file, and a folder that cannot have them: of that
/// standard error is told.
pub(crate) fn refuse_documents<R: Files + AllocGlobal, E: Outlet>(
    rt: &R,
    folder: &str,
    jobs: &[&[u8]],
    used: &mut FilesUsed,
    stderr: &mut E,
) -> Option<Status>
    requires { IsFalse (E.state stderr.old).failed }
    ensures apart { IfNone result (same_named (map (λ job. job.now) jobs.now) ≡ None) }
    ensures quiet { IfNone result (stderr.new ≡ stderr.old) }
    ensures unused { IfNone result (used.new ≡ used.old) }
    ensures refused { IfSome result (λ status. RefusesDocuments folder.now
        (map (λ job. job.now) jobs.now) status used.old used.new
        (E.state stderr.old) (E.state stderr.new)) }
{
    match refuse_names(rt.alloc(), jobs, stderr) {
        Some(status) => Some(status),
        None => refuse_folder(rt, folder, used, stderr),
    }
}

/// Refuses a folder that is not there, or cannot be entered, as a look finds.
fn refuse_folder<R: Files + AllocGlobal, E: Outlet>(
    rt: &R,
    folder: &str,
    used: &mut FilesUsed,
    stderr: &mut E,
) -> Option<Status>
    requires { IsFalse (E.state stderr.old).failed }
    ensures quiet { IfNone result (stderr.new ≡ stderr.old) }
    ensures unused { IfNone result (used.new ≡ used.old) }
    ensures refused { IfSome result (λ status. RefusesFolder folder.now status
        used.old used.new (E.state stderr.old) (E.state stderr.new)) }
{
    match used.enter(rt, folder) {
        Ok(None) => None,
        Ok(Some(error)) => Some(tell_folder(rt.alloc(), folder, error, stderr)),
        Err(_) => Some(Status::Stopped(Error::Memory)),
    }
}

/// Tells standard error of a folder of which the system says this.
fn tell_folder<E: Outlet>(alloc: Global, folder: &str, error: io::Error, stderr: &mut E) -> Status
    requires { IsFalse (E.state stderr.old).failed }
    ensures { TellsFolder folder.now result (E.state stderr.old) (E.state stderr.new) }
{
    match system_words(alloc, Some(error)) {
        Some(words) => tell_cause(alloc, folder, words.as_bytes(), stderr),
        None => tell_cause(alloc, folder, UNKNOWN, stderr),
    }
}

fn tell_cause<E: Outlet>(alloc: Global, folder: &str, cause: &[u8], stderr: &mut E) -> Status
    requires { IsFalse (E.state stderr.old).failed }
    ensures { RefusesFolderFor folder.now cause.now result
        (E.state stderr.old) (E.state stderr.new) }
{
    match folder_line(alloc, folder.as_bytes(), cause) {
        Ok(line) => refuse_words(line.as_slice(), stderr),
        Err(_) => Status::Stopped(Error::Memory),
    }
}

/// The line on such a folder.
fn folder_line(alloc: Global, folder: &[u8], cause: &[u8]) -> Result<Vec<u8>, AllocError>
    ensures { IfOk result (λ line. line.items ≡ folder_line folder.now cause.now) }
{
    let mut line = Vec::new(alloc);
    line.extend_from_slice(b"error: ")?;
    push_named_first(alloc, &mut line, folder)?;
    line.extend_from_slice(b"this folder of --pdf cannot be used: ")?;
    line.extend_from_slice(cause)?;
    line.extend_from_slice(b"\n")?;
    Ok(line)
}
