//! The command `profile sheet`.
ghost use Rattle.std.specs.Prelude.{◌≡◌, ◌++◌, ◌∷◌, [], IfOk, IsFalse, IsSome, IsTrue};
ghost use Rattle.profile_commands.specs.ProfileSheet.{IsEndOfCheck, LeavesSheet, LeavesSheetOf};
ghost use Rattle.profile_commands.specs.ProfileSheet.{WritesOut, unprinted_sheet};
ghost use Rattle.job_reports.specs.Refusals.{TellsLine};
ghost use Rattle.requests.specs.Status.{is_overwriting};

use crate::profile_reading::{profile_of, read_text};
use crate::whole_text::write_whole;
use device_profile::{Profile, printer_name};
use job_reports::line_of_failure;
use named_inputs::ProfileTexts;
use requests::{Input, Status, Trouble};
use shown_bytes::push_shown;
use std::alloc::{AllocError, Allocator};
use streams::{Create, CreateError, Error, FileId, Outlet, write_text};
use subcommands::check::verdict_on;
use test_sheet::sheet_job;
use verdict::Failure;

/// The command `profile sheet`: in OUT a job by which the printer is compared with its profile. The
/// profile is read, the job made, and checked for it, before OUT is created, unless that is the
/// profile. Of a profile that cannot be read or is refused, and of one whose sheet would fail,
/// standard error tells.
pub fn profile_sheet<T: ProfileTexts, W: Create, E: Outlet, A: Allocator + Copy>(
    alloc: A,
    texts: &mut T,
    word: &str,
    out: &mut W,
    stderr: &mut E,
) -> Status
    requires texts { IsFalse (T.failed texts.old) }
    requires out { IsFalse (W.state out.old).failed }
    requires stderr { IsFalse (E.state stderr.old).failed }
    ensures left { LeavesSheet (T.text_of texts.old word.now) word.now (T.given texts.old)
        (T.given texts.new) (T.failed texts.new) result (W.state out.old) (W.state out.new)
        (E.state stderr.old) (E.state stderr.new) }
    ensures named { T.named texts.new ≡ T.named texts.old ++ word.now ∷ [] }
    // Where OUT is the profile, it is as it was.
    ensures kept { IsTrue (is_overwriting result) → out.new ≡ out.old }
{
    let text = match read_text(alloc, texts, word, stderr) {
        Ok(text) => text,
        Err(status) => return status,
    };
    let profile = match profile_of(alloc, word, text.as_slice(), stderr) {
        Ok(profile) => profile,
        Err(status) => return status,
    };
    let Ok(job) = sheet_job(alloc, printer_name(text.as_slice()), &profile) else {
        return Status::Stopped(Error::Memory);
    };
    write_sheet(
        alloc,
        word,
        profile,
        job.as_slice(),
        texts.file(),
        out,
        stderr,
    )
}

/// Writes a sheet in OUT, where it passes on its printer.
fn write_sheet<W: Create, E: Outlet, A: Allocator + Copy>(
    alloc: A,
    word: &str,
    profile: Profile<A>,
    job: &[u8],
    file: Option<FileId>,
    out: &mut W,
    stderr: &mut E,
) -> Status
    requires out { IsFalse (W.state out.old).failed }
    requires stderr { IsFalse (E.state stderr.old).failed }
    ensures left { LeavesSheetOf word.now profile job.now result
        (W.state out.old) (W.state out.new) (E.state stderr.old) (E.state stderr.new) }
    // It is refused only where the profile came from a file, and then OUT is as it was.
    ensures refused { IsTrue (is_overwriting result) → IsSome file }
    ensures kept { IsTrue (is_overwriting result) → out.new ≡ out.old }
{
    let mut fleet = Vec::new(alloc);
    if fleet.push(profile).is_err() {
        return Status::Stopped(Error::Memory);
    }
    let verdict = match verdict_on(alloc, job, fleet.as_slice()) {
        Ok(verdict) => verdict,
        Err(error) => return end_of_check(error),
    };
    match verdict.failure() {
        None => write_out(job, file, out),
        Some(failure) => refuse(alloc, word, failure, stderr),
    }
}

/// How the command ends where the check of a sheet gave no verdict.
fn end_of_check(error: Error) -> Status
    ensures end { IsEndOfCheck result }
    ensures same { IsEndOfCheck (Status.Stopped error) → result ≡ Status.Stopped error }
{
    match error {
        Error::Memory => Status::Stopped(Error::Memory),
        Error::Read => Status::Stopped(Error::Read),
        Error::Turns => Status::Stopped(Error::Turns),
        // A check writes nothing, a printer is named, and no macro has a limit.
        Error::Write | Error::NoProfile | Error::Items => Status::Stopped(Error::Memory),
    }
}

/// Creates OUT, unless it is the file that the profile came from, and writes the job.
fn write_out<W: Create>(job: &[u8], file: Option<FileId>, out: &mut W) -> Status
    requires { IsFalse (W.state out.old).failed }
    ensures written { WritesOut job.now result (W.state out.old) (W.state out.new) }
    ensures refused { IsTrue (is_overwriting result) → IsSome file }
    ensures kept { IsTrue (is_overwriting result) → out.new ≡ out.old }
{
    if let Some(file) = file {
        if out.leads_to(file) {
            return Status::Overwrites(Input::Profile);
        }
    }
    match out.create() {
        Ok(()) => write_whole(out, job),
        Err(CreateError::NoMemory) => Status::Stopped(Error::Memory),
        Err(CreateError::Refused) => Status::Stopped(Error::Write),
    }
}

/// Tells that the sheet would fail on its printer, and how.
fn refuse<E: Outlet, A: Allocator + Copy>(
    alloc: A,
    word: &str,
    failure: Failure,
    stderr: &mut E,
) -> Status
    requires { IsFalse (E.state stderr.old).failed }
    ensures { TellsLine result Trouble.Refused (unprinted_sheet word.now failure)
        (E.state stderr.old) (E.state stderr.new) }
{
    let Ok(line) = refusal_line(alloc, word, failure) else {
        return Status::Stopped(Error::Memory);
    };
    // Where standard error takes nothing, the status alone is left to tell.
    let _ = write_text(stderr, line.as_slice());
    Status::Told(Trouble::Refused)
}

fn refusal_line<A: Allocator + Copy>(
    alloc: A,
    word: &str,
    failure: Failure,
) -> Result<Vec<u8, A>, AllocError>
    ensures { IfOk result (λ line. line.items ≡ unprinted_sheet word.now failure) }
{
    let mut line = Vec::new(alloc);
    line.extend_from_slice(b"error: the sheet for '")?;
    push_shown(&mut line, word.as_bytes())?;
    line.extend_from_slice(b"' would not pass on it: ")?;
    line.extend_from_slice(line_of_failure(alloc, failure)?.as_slice())?;
    Ok(line)
}
