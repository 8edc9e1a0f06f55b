//! The command `check` for many jobs.
ghost use Rattle.std.specs.Prelude.{◌≡◌, ◌≢◌, ◌-◌, ◌++◌, ℕ, List, [], Option, IsFalse, OnOk, false};
ghost use Rattle.std.specs.Prelude.{get_or, map, option_map};
ghost use Rattle.many_jobs.specs.Asked.{asked_for};
ghost use Rattle.many_jobs.specs.CheckMany.{LeavesLines, LeavesMany, TellsRefusal, TellsStop};
ghost use Rattle.many_jobs.specs.CheckMany.{refusal_text, status_of, unread_text};
ghost use Rattle.job_reports.specs.Refusals.{TellsLine};
ghost use Rattle.named_inputs.specs.Fleet.{IsEndOfFleet};
ghost use Rattle.many_jobs.specs.JobChecks.{work};
ghost use Rattle.named_inputs.specs.Texts.{AsksInOrder, IsErrorOfReading};
ghost use Rattle.requests.specs.Status.{is_stop_of_read, is_stop_of_write};

use crate::document::tell_document;
use crate::ending::Ending;
use crate::kept_texts::{note_printers, printer_names};
use crate::limited::limited_fleet;
use crate::telling::{Format, Telling};
use device_profile::Cause;
use job_reports::{
    PrinterGroup, push_refused_profile, push_refused_profile_sentence, push_unread_profile,
    push_unread_profile_sentence,
};
use named_inputs::system_words::system_words;
use named_inputs::{Jobs, ProfileTexts, read_kept_fleet};
use requests::{Status, Trouble};
use std::alloc::{AllocError, Allocator};
use streams::{Error, Outlet, write_text};

/// Jobs and printers by the words that name them, and how they are checked.
#[derive(Clone, Copy)]
pub struct ManyJobs<'w, 'n> {
    pub jobs: &'w [&'n [u8]],
    pub printers: &'w [&'w str],
    /// How many items macros may carry out in a job, where that is limited.
    pub most_items: Option<u64>,
    /// Each printer has lines of its own.
    pub is_each: bool,
    /// The notes of a job that passes are told, for which it is read a second time.
    pub tells_notes: bool,
    pub telling: Telling<'w>,
}

/// The command `check` for many jobs: a line on standard output for each job, or where `is_each` is
/// set for each job and printer, as soon as it is known. Where `tells_notes` is set the notes of a
/// job that passes stand below its line, for the first printer that this is about. In a document of
/// HTML a row stands for a line.
///
/// All profiles are read and judged before the first job. Of one that is refused or cannot be read
/// standard error tells, with the word that names it.
pub fn check_many<'n, J: Jobs<'n>, T: ProfileTexts, O: Outlet, E: Outlet, A: Allocator + Copy>(
    alloc: A,
    jobs: &mut J,
    texts: &mut T,
    asked: &ManyJobs<'_, 'n>,
    stdout: &mut O,
    stderr: &mut E,
) -> Status
    requires texts { IsFalse (T.failed texts.old) }
    requires stdout { IsFalse (O.state stdout.old).failed }
    requires stderr { IsFalse (E.state stderr.old).failed }
    requires some { asked.now.printers.now ≢ [] }
    ensures left { LeavesMany (map (λ word. T.text_of texts.old word.now) asked.now.printers.now)
        (T.given texts.old) (T.given texts.new) (T.failed texts.new)
        (asked_for asked.now) (J.start jobs.old) result
        (work (O.state stdout.old) (J.ended jobs.old))
        (work (O.state stdout.new) (J.ended jobs.new))
        (E.state stderr.old) (E.state stderr.new) }
    ensures named { AsksInOrder (map (λ word. word.now) asked.now.printers.now)
        (T.named texts.old) (T.named texts.new) }
    ensures read { is_stop_of_read result ≡ false }
    ensures write { (O.state stdout.new).failed ≡ is_stop_of_write result }
{
    let mut kept = Vec::new(alloc);
    let read = match read_kept_fleet(alloc, texts, asked.printers, &mut kept) {
        Ok(fleet) => fleet,
        Err(status) => {
            let told = system_words(alloc, texts.error());
            let word = word_of(asked.printers, (kept.len() as u64).saturating_add(1));
            return tell_refusal(alloc, asked, word, told, status, stderr);
        }
    };
    let fleet = limited_fleet(read, asked.most_items);
    let Ok(names) = printer_names(alloc, kept.as_slice()) else {
        return Status::Stopped(Error::Memory);
    };
    let Ok(note_printers) = note_printers(alloc, asked.tells_notes, kept.as_slice()) else {
        return Status::Stopped(Error::Memory);
    };
    let printers = PrinterGroup::new(
        fleet.as_slice(),
        note_printers.as_slice(),
        names.as_slice(),
        asked.is_each,
    );
    check_for(alloc, jobs, asked, &printers, stdout)
}

/// Checks the jobs that are asked for, for these printers.
fn check_for<'n, J: Jobs<'n>, O: Outlet, A: Allocator + Copy>(
    alloc: A,
    jobs: &mut J,
    asked: &ManyJobs<'_, 'n>,
    printers: &PrinterGroup<'_, A>,
    stdout: &mut O,
) -> Status
    requires stdout { IsFalse (O.state stdout.old).failed }
    requires some { printers.now.fleet ≢ [] }
    ensures left { LeavesLines (asked_for asked.now) printers.now (J.start jobs.old) result
        (work (O.state stdout.old) (J.ended jobs.old))
        (work (O.state stdout.new) (J.ended jobs.new)) }
    ensures write { (O.state stdout.new).failed ≡ is_stop_of_write result }
{
    match tell_document(alloc, jobs, asked.jobs, printers, &asked.telling, stdout) {
        Ok(ending) => status_of(ending),
        Err(error) => Status::Stopped(error),
    }
}

/// How the program ends by how the jobs count.
fn status_of(ending: Ending) -> Status
    ensures { result ≡ status_of ending }
{
    match ending {
        Ending::Passes => Status::Pass,
        Ending::Fails => Status::Fail,
        Ending::HasNoVerdict => Status::Told(Trouble::NoVerdict),
    }
}

/// Tells standard error why there is no fleet: of the first profile that is refused, or of the one
/// of this word, which could not be read, with what the system says of that.
pub fn tell_refusal<E: Outlet, A: Allocator + Copy>(
    alloc: A,
    asked: &ManyJobs<'_, '_>,
    word: &str,
    told: Option<String<A>>,
    status: Status,
    stderr: &mut E,
) -> Status
    requires stderr { IsFalse (E.state stderr.old).failed }
    requires end { (known : List (Option (List ℕ))) × IsEndOfFleet known status }
    ensures { TellsRefusal asked.now.telling.format status
        (map (λ word. word.now) asked.now.printers.now) result
        (E.state stderr.old) (E.state stderr.new) }
{
    let format = asked.telling.format;
    match status {
        Status::Profile {
            number,
            line,
            cause,
        } => {
            let word = word_of(asked.printers, number);
            tell_refused(alloc, format, number, word, line, cause, stderr)
        }
        Status::Stopped(error) => tell_stop(alloc, format, word, told, error, stderr),
        _ => status,
    }
}

/// Tells standard error of the profile of this word, where it could not be read.
fn tell_stop<E: Outlet, A: Allocator + Copy>(
    alloc: A,
    format: Format,
    word: &str,
    told: Option<String<A>>,
    error: Error,
    stderr: &mut E,
) -> Status
    requires stderr { IsFalse (E.state stderr.old).failed }
    requires end { IsErrorOfReading error }
    ensures { TellsStop format error result (E.state stderr.old) (E.state stderr.new) }
{
    match (error, told) {
        (Error::Read, Some(told)) => {
            tell_unread(alloc, format, word, Some(told.as_bytes()), stderr)
        }
        (Error::Read, None) => tell_unread(alloc, format, word, None, stderr),
        (error, _) => Status::Stopped(error),
    }
}

/// Tells standard error of a profile that is refused.
fn tell_refused<E: Outlet, A: Allocator + Copy>(
    alloc: A,
    format: Format,
    number: u64,
    word: &str,
    line: u64,
    cause: Cause,
    stderr: &mut E,
) -> Status
    requires { IsFalse (E.state stderr.old).failed }
    ensures { TellsLine result Trouble.Refused (refusal_text format number word.now line cause)
        (E.state stderr.old) (E.state stderr.new) }
{
    let mut text = Vec::new(alloc);
    if push_refusal(alloc, &mut text, format, number, word, line, cause).is_err() {
        return Status::Stopped(Error::Memory);
    }
    // Where standard error takes nothing, the status alone is left to tell.
    let _ = write_text(stderr, text.as_slice());
    Status::Told(Trouble::Refused)
}

/// Appends that the profile of this number and word is refused at a line of its text.
fn push_refusal<A: Allocator + Copy>(
    alloc: A,
    text: &mut Vec<u8, A>,
    format: Format,
    number: u64,
    word: &str,
    line: u64,
    cause: Cause,
) -> Result<(), AllocError>
    ensures { OnOk result (text.new.items ≡ text.old.items ++
        refusal_text format number word.now line cause) }
{
    match format {
        Format::Line => push_refused_profile(text, number, word, line, cause),
        Format::Words => push_refused_profile_sentence(alloc, text, number, word, line, cause),
        Format::Json(_) => push_refused_profile(text, number, word, line, cause),
        Format::Html => push_refused_profile(text, number, word, line, cause),
    }
}

/// Tells standard error of a profile that could not be read.
fn tell_unread<E: Outlet, A: Allocator + Copy>(
    alloc: A,
    format: Format,
    word: &str,
    cause: Option<&[u8]>,
    stderr: &mut E,
) -> Status
    requires { IsFalse (E.state stderr.old).failed }
    ensures { TellsLine result Trouble.NoVerdict
        (unread_text format word.now (option_map (λ words. words.now) cause.entry))
        (E.state stderr.old) (E.state stderr.new) }
{
    let mut text = Vec::new(alloc);
    if push_unread(alloc, &mut text, format, word, cause).is_err() {
        return Status::Stopped(Error::Memory);
    }
    // Where standard error takes nothing, the status alone is left to tell.
    let _ = write_text(stderr, text.as_slice());
    Status::Told(Trouble::NoVerdict)
}

/// Appends that the profile of this word could not be read.
fn push_unread<A: Allocator + Copy>(
    alloc: A,
    text: &mut Vec<u8, A>,
    format: Format,
    word: &str,
    cause: Option<&[u8]>,
) -> Result<(), AllocError>
    ensures { OnOk result (text.new.items ≡ text.old.items ++
        unread_text format word.now (option_map (λ words. words.now) cause.entry)) }
{
    match format {
        Format::Line => push_unread_profile(text, word, cause),
        Format::Words => push_unread_profile_sentence(alloc, text, word, cause),
        Format::Json(_) => push_unread_profile(text, word, cause),
        Format::Html => push_unread_profile(text, word, cause),
    }
}

/// The word of this number, from 1.
pub fn word_of<'w>(words: &[&'w str], number: u64) -> &'w str
    ensures { result.now ≡ get_or (map (λ word. word.now) words.now) (number - 1) [] }
{
    match words.get(number.saturating_sub(1) as usize) {
        Some(word) => word,
        None => "",
    }
}
