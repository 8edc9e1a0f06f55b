//! Jobs that are no files, and can be read only once.
ghost use Rattle.std.specs.Prelude.{◌≡◌, Contains, IfOk, IsFalse, List, ℕ};
ghost use Rattle.streams.specs.Writing.{Writes};
ghost use Rattle.job_reports.specs.Pipes.{RefusesPipe, pipe_again};

use crate::job_sentences::push_named_first;
use requests::Status;
use std::alloc::{AllocError, Global};
use std::fs;
use std::rt::Files;
use streams::{Error, Outlet, write_text};

/// Whether what is at a path is gone once it is read, as the bytes of a pipe.
pub fn is_pipe<R: Files>(rt: &R, name: &[u8]) -> bool {
    let Ok(path) = str::from_utf8(name) else {
        return false;
    };
    match fs::metadata(rt, path) {
        Ok(metadata) => !metadata.is_file() && !metadata.is_dir(),
        Err(_) => false,
    }
}

/// Refuses a job that is no file, which would be read again; `why` ends the line.
pub fn refuse_pipe<E: Outlet>(alloc: Global, name: &[u8], why: &[u8], stderr: &mut E) -> Status
    requires { IsFalse (E.state stderr.old).failed }
    ensures { (jobs : List (List ℕ)) → Contains jobs name.now →
        RefusesPipe jobs why.now result (E.state stderr.old) (E.state stderr.new) }
{
    match pipe_again(alloc, name, why) {
        Ok(line) => refuse_words(line.as_slice(), stderr),
        Err(_) => Status::Stopped(Error::Memory),
    }
}

/// The line on such a job.
fn pipe_again(alloc: Global, name: &[u8], why: &[u8]) -> Result<Vec<u8>, AllocError>
    ensures { IfOk result (λ line. line.items ≡ pipe_again name.now why.now) }
{
    let mut line = Vec::new(alloc);
    line.extend_from_slice(b"error: ")?;
    push_named_first(alloc, &mut line, name)?;
    line.extend_from_slice(b"a job that is no file can be read only once; ")?;
    line.extend_from_slice(why)?;
    Ok(line)
}

/// Tells standard error why words are refused.
pub fn refuse_words<E: Outlet>(text: &[u8], stderr: &mut E) -> Status
    requires { IsFalse (E.state stderr.old).failed }
    ensures status { result ≡ Status.Usage }
    ensures text { Writes (E.state stderr.old) (E.state stderr.new) text.now }
{
    // Where standard error takes nothing, the status alone is left to tell.
    let _ = write_text(stderr, text);
    Status::Usage
}
