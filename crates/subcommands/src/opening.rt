//! The opening of JOB and the creation of OUT, in this order.
ghost use Rattle.std.specs.Prelude.{◌≡◌, ◌⊎◌, IfErr, IsFalse, IsSome, IsTrue, OnOk};
ghost use Rattle.requests.specs.Status.{is_err_at_read, is_err_at_write, is_overwriting};
ghost use Rattle.requests.specs.Status.{IsEndOfOpening};

use requests::{Input, Status};
use streams::{Create, CreateError, Error, FileId, Open};

/// Opens JOB and creates OUT, unless OUT is JOB or the file that the profile came from, if from
/// one.
pub fn open_and_create<S: Open, W: Create>(
    job: &mut S,
    profile: Option<FileId>,
    out: &mut W,
) -> Result<(), Status>
    requires job { IsFalse (S.state job.old).failed }
    requires out { IsFalse (W.state out.old).failed }
    ensures err { IfErr result IsEndOfOpening }
    ensures created { OnOk result (S.opens job.old job.new × W.creates out.old out.new) }
    // OUT is as it was, or the job was opened.
    ensures opened { (out.new ≡ out.old) ⊎ S.opens job.old job.new }
    // Where OUT is a file that is read, the job was opened, and OUT is as it was.
    ensures kept { IfErr result (λ status. IsTrue (is_overwriting status) →
        (out.new ≡ out.old) × S.opens job.old job.new
        × (IsSome (S.file job.new) ⊎ IsSome profile)) }
    ensures source { S.state job.new ≡ record (S.state job.old) { failed = is_err_at_read result } }
    ensures outlet { W.state out.new ≡
        record (W.state out.old) { failed = is_err_at_write result } }
{
    if job.open().is_err() {
        return Err(Status::Stopped(Error::Read));
    }
    if overwrites(out, job.file()) {
        return Err(Status::Overwrites(Input::Job));
    }
    if overwrites(out, profile) {
        return Err(Status::Overwrites(Input::Profile));
    }
    match out.create() {
        Ok(()) => Ok(()),
        Err(CreateError::NoMemory) => Err(Status::Stopped(Error::Memory)),
        Err(CreateError::Refused) => Err(Status::Stopped(Error::Write)),
    }
}

/// Whether a file, if there is one, would be written once the outlet is created.
fn overwrites<W: Create>(out: &W, file: Option<FileId>) -> bool
    ensures { IsTrue result → IsSome file }
{
    match file {
        Some(file) => out.leads_to(file),
        None => false,
    }
}
