//! What stands in the way of a request, in words: its name, its cause, and what was probably meant.
//!
//! No text means that there is nothing to tell, or no memory for it.

use crate::held_lines::sentence_of_line;
use device_profile::Cause;
use job_reports::{
    is_pipe, push_cause_phrase, push_named_first, push_refused_profile_sentence,
    push_unread_profile_sentence,
};
use named_inputs::system_words::system_words;
use named_inputs::{is_input, read_front};
use requests::{Request, Status, tell};
use std::alloc::Global;
use std::fs::OpenOptions;
use std::path::Path;
use std::rt::Files;
use std::{fs, io};
use streams::{Error, FileSource, Outlet, Source, write_text};

/// The text of a profile begins so, before the number of its version.
const FRONT_OF_PROFILE: &[u8] = b"pclprofile ";

/// The name of a file that is made and removed, to learn why none can be made in a folder.
const TRIED: &str = ".pclcheck-tried.out";

/// Tells what a request would have told meanwhile, as far as it can be written: a line on what it
/// names by a sentence.
pub fn tell_held<E: Outlet>(alloc: Global, request: &Request<'_>, held: &[u8], stderr: &mut E) {
    match sentence_of_line(alloc, request, held) {
        Some(text) => write(text.as_slice(), stderr),
        None => write(held, stderr),
    }
}

/// Tells how a request ended, as far as it can be written. A file that could not be read is looked
/// for among those of the request, by opening them again; why one could not be written is learnt by
/// trying once more, unless it was standard output.
pub fn tell_in_words<R: Files + AllocGlobal, E: Outlet>(
    rt: &R,
    request: &Request<'_>,
    status: Status,
    is_output_lost: bool,
    stderr: &mut E,
) {
    match sentence(rt, request, status, is_output_lost) {
        Some(text) => write(text.as_slice(), stderr),
        None => tell(status, stderr),
    }
    if let Some(text) = hint(rt, request) {
        write(text.as_slice(), stderr);
    }
}

/// Writes a text, unless it is empty or an earlier write failed.
fn write<E: Outlet>(text: &[u8], stderr: &mut E) {
    if text.is_empty() {
        return;
    }
    if stderr.has_failed() {
        return;
    }
    // Where standard error takes nothing, the status alone is left to tell.
    let _ = write_text(stderr, text);
}

/// The sentence of a status that a request came to.
fn sentence<R: Files + AllocGlobal>(
    rt: &R,
    request: &Request<'_>,
    status: Status,
    is_output_lost: bool,
) -> Option<Vec<u8>> {
    match status {
        Status::Stopped(Error::Read) => unread_sentence(rt, request),
        Status::Stopped(Error::Write) => unwritten_sentence(rt, request, is_output_lost),
        Status::Profile {
            number,
            line,
            cause,
        } => refused_sentence(rt.alloc(), number, profile_of(request)?, line, cause),
        _ => None,
    }
}

// ---- what a request names

/// The path of its one job.
fn job_of<'a>(request: &Request<'a>) -> Option<&'a str> {
    match request {
        Request::List { job } => Some(*job),
        Request::Pages { job, .. } => Some(*job),
        Request::Notes { job, .. } => Some(*job),
        Request::Picture { job, .. } => Some(*job),
        Request::Pdf { job, .. } => Some(*job),
        Request::Plain { job, .. } => Some(*job),
        Request::Pin { job, .. } => Some(*job),
        _ => None,
    }
}

/// The word of the one printer of a job.
fn profile_of<'a>(request: &Request<'a>) -> Option<&'a str> {
    match request {
        Request::Pages { profile, .. } => Some(*profile),
        Request::Notes { profile, .. } => Some(*profile),
        Request::Picture { profile, .. } => Some(*profile),
        Request::Pdf { profile, .. } => Some(*profile),
        Request::Pin { profile, .. } => Some(*profile),
        _ => None,
    }
}

/// The path of the file that it writes.
fn out_of<'a>(request: &Request<'a>) -> Option<&'a str> {
    match request {
        Request::Plain { out, .. } => Some(*out),
        Request::Pdf { out, .. } => Some(*out),
        Request::Pin { out, .. } => Some(*out),
        Request::ProfileSheet { out, .. } => Some(*out),
        Request::Compare(words) => words.picture,
        _ => None,
    }
}

/// Whether a word names a built-in sample, and no file.
fn is_sample(word: &str) -> bool {
    word == "@A" || word == "@B" || word == "@C" || word == "@D"
}

// ---- sentences

/// Which file of a request cannot be read.
fn unread_sentence<R: Files + AllocGlobal>(rt: &R, request: &Request<'_>) -> Option<Vec<u8>> {
    if let Some(profile) = profile_of(request) {
        if let Some(error) = error_at(rt, profile) {
            return unread_profile(rt.alloc(), profile, error);
        }
    }
    let job = job_of(request)?;
    let told = b"this job cannot be read";
    caused_sentence(rt.alloc(), job, told, error_at(rt, job), b" (ERROR read)\n")
}

/// Why a file cannot be opened, or not read at its beginning. What can be read only once is left as
/// it is.
fn error_at<R: Files>(rt: &R, word: &str) -> Option<io::Error> {
    if is_sample(word) || is_pipe(rt, word.as_bytes()) {
        return None;
    }
    let mut file = FileSource::new(rt, word);
    let mut byte = [0u8; 1];
    // The file itself tells what came of it.
    let _ = file.read(&mut byte);
    file.error()
}

fn unread_profile(alloc: Global, word: &str, error: io::Error) -> Option<Vec<u8>> {
    let told = system_words(alloc, Some(error));
    let cause = told.as_ref().map(|told| told.as_bytes());
    let mut text = Vec::new(alloc);
    push_unread_profile_sentence(alloc, &mut text, word, cause).ok()?;
    Some(text)
}

/// What cannot be done with a file, and what the system says of it.
fn caused_sentence(
    alloc: Global,
    name: &str,
    what: &[u8],
    error: Option<io::Error>,
    end: &[u8],
) -> Option<Vec<u8>> {
    let told = system_words(alloc, error);
    let cause = told.as_ref().map(|told| told.as_bytes());
    let mut text = Vec::new(alloc);
    push_named_first(alloc, &mut text, name.as_bytes()).ok()?;
    text.extend_from_slice(what).ok()?;
    push_cause_phrase(alloc, &mut text, cause).ok()?;
    text.extend_from_slice(end).ok()?;
    Some(text)
}

/// Where no more can be written: on standard output, or else in the file of the request.
fn unwritten_sentence<R: Files + AllocGlobal>(
    rt: &R,
    request: &Request<'_>,
    is_output_lost: bool,
) -> Option<Vec<u8>> {
    match out_of(request) {
        Some(out) if out != "-" && !is_output_lost => {
            let told = b"this file cannot be written";
            let error = write_error_at(rt, out);
            caused_sentence(rt.alloc(), out, told, error, b" (ERROR write)\n")
        }
        _ => {
            let mut text = Vec::new(rt.alloc());
            text.extend_from_slice(b"standard output cannot be written (ERROR write)\n")
                .ok()?;
            Some(text)
        }
    }
}

/// Why a file cannot be opened to write it, or none be made beside it. A link, a device and a pipe
/// are left as they are.
fn write_error_at<R: Files + AllocGlobal>(rt: &R, out: &str) -> Option<io::Error> {
    let found = match fs::symlink_metadata(rt, out) {
        Ok(found) => found,
        Err(error) if error.kind() == io::ErrorKind::NotFound => return error_beside(rt, out),
        Err(error) => return Some(error),
    };
    if !found.is_file() && !found.is_dir() {
        return None;
    }
    let opened = OpenOptions::new().write(true).open(rt, out);
    match opened {
        Ok(_file) => error_beside(rt, out),
        Err(error) => Some(error),
    }
}

/// Why no file can be made beside this path. One that is made is removed.
fn error_beside<R: Files + AllocGlobal>(rt: &R, out: &str) -> Option<io::Error> {
    let Ok(path) = Path::new(out).with_file_name(rt.alloc(), TRIED) else {
        return None;
    };
    let mut options = OpenOptions::new();
    options.write(true).create_new(true);
    match options.open(rt, path.as_str()) {
        Ok(_file) => {
            let _ = fs::remove_file(rt, path.as_str());
            None
        }
        Err(error) if error.kind() == io::ErrorKind::AlreadyExists => None,
        Err(error) => Some(error),
    }
}

/// Why the profile of this word is refused.
fn refused_sentence(
    alloc: Global,
    number: u64,
    word: &str,
    line: u64,
    cause: Cause,
) -> Option<Vec<u8>> {
    let mut text = Vec::new(alloc);
    if cause != Cause::Version {
        push_refused_profile_sentence(alloc, &mut text, number, word, line, cause).ok()?;
        return Some(text);
    }
    push_named_first(alloc, &mut text, word.as_bytes()).ok()?;
    text.extend_from_slice(
        b"this is no profile, and JOB stands before PROFILE (ERROR profile 1 Version)\n",
    ).ok()?;
    Some(text)
}

// ---- what was probably meant

/// What stands behind the name of a profile that is a job or a fleet of a check of many jobs.
const FOR_PRINTERS: &[u8] = b"this is a profile, and -p takes it\n";

/// What stands behind the name of a printer that is a job.
const NO_PRINTER: &[u8] =
    b"this is a job, where a profile has to stand; -p takes a profile, and without -p JOB stands before the PROFILEs\n";

/// What stands behind the name of a fleet that is a job.
const NO_FLEET: &[u8] = b"this is a job, and no fleet; -f takes a text with a profile a line\n";

/// The jobs and the fleets of a request that are profiles, the printers that are fleets, and the
/// printers and the fleets that are jobs, by their names and their first bytes.
fn hint<R: Files + AllocGlobal>(rt: &R, request: &Request<'_>) -> Option<Vec<u8>> {
    let mut text = Vec::new(rt.alloc());
    match request {
        Request::CheckMany(many) => {
            push_profiles(rt, &mut text, many.jobs.as_slice())?;
            push_profiles_of(rt, &mut text, many.fleets.as_slice())?;
            push_fleets(rt, &mut text, many.printers.as_slice())?;
            push_jobs(rt, &mut text, many.printers.as_slice(), NO_PRINTER)?;
            push_jobs(rt, &mut text, many.fleets.as_slice(), NO_FLEET)?;
        }
        _ => {
            let why = b"this is a profile, and JOB stands before PROFILE\n";
            push_profile(rt, &mut text, job_of(request)?.as_bytes(), why)?;
        }
    }
    Some(text)
}

/// Appends which of these jobs are profiles.
fn push_profiles<R: Files + AllocGlobal>(rt: &R, text: &mut Vec<u8>, jobs: &[&[u8]]) -> Option<()> {
    for job in jobs {
        push_profile(rt, text, job, FOR_PRINTERS)?;
    }
    Some(())
}

/// Appends which of these fleets are profiles.
fn push_profiles_of<R: Files + AllocGlobal>(
    rt: &R,
    text: &mut Vec<u8>,
    fleets: &[&str],
) -> Option<()> {
    for fleet in fleets {
        push_profile(rt, text, fleet.as_bytes(), FOR_PRINTERS)?;
    }
    Some(())
}

/// Appends which of these printers are fleets.
fn push_fleets<R: Files + AllocGlobal>(
    rt: &R,
    text: &mut Vec<u8>,
    printers: &[&str],
) -> Option<()> {
    for printer in printers {
        if is_fleet(rt, printer.as_bytes()) {
            push_named_first(rt.alloc(), text, printer.as_bytes()).ok()?;
            text.extend_from_slice(b"this is a fleet, and -f takes it\n")
                .ok()?;
        }
    }
    Some(())
}

/// Appends which of these words are jobs.
fn push_jobs<R: Files + AllocGlobal>(
    rt: &R,
    text: &mut Vec<u8>,
    words: &[&str],
    why: &[u8],
) -> Option<()> {
    for word in words {
        if is_job(rt, word) {
            push_named_first(rt.alloc(), text, word.as_bytes()).ok()?;
            text.extend_from_slice(why).ok()?;
        }
    }
    Some(())
}

/// Appends that a job is a profile, where it is one.
fn push_profile<R: Files + AllocGlobal>(
    rt: &R,
    text: &mut Vec<u8>,
    job: &[u8],
    why: &[u8],
) -> Option<()> {
    if !is_profile(rt, job) {
        return Some(());
    }
    push_named_first(rt.alloc(), text, job).ok()?;
    text.extend_from_slice(why).ok()
}

/// Whether a word is named as profiles are, and its file begins as one.
fn is_profile<R: Files + AllocGlobal>(rt: &R, word: &[u8]) -> bool {
    matches!(begins_as_profile(rt, word, ".profile"), Some(true))
}

/// Whether a word is named as fleets are, and its file begins as no profile.
fn is_fleet<R: Files + AllocGlobal>(rt: &R, word: &[u8]) -> bool {
    matches!(begins_as_profile(rt, word, ".fleet"), Some(false))
}

/// Whether the file of a word that ends so begins as a profile; nothing where it does not end so,
/// or cannot be read.
fn begins_as_profile<R: Files + AllocGlobal>(rt: &R, word: &[u8], ending: &str) -> Option<bool> {
    let Ok(path) = str::from_utf8(word) else {
        return None;
    };
    if !path.ends_with(ending) || is_input(word) {
        return None;
    }
    let front = front_at(rt, path, FRONT_OF_PROFILE.len())?;
    Some(front.as_slice() == FRONT_OF_PROFILE)
}

/// Whether the file of a word begins by ESC, as jobs mostly do.
fn is_job<R: Files + AllocGlobal>(rt: &R, word: &str) -> bool {
    if is_sample(word) {
        return false;
    }
    match front_at(rt, word, 1) {
        Some(front) => front.as_slice().starts_with(b"\x1b"),
        None => false,
    }
}

/// The first bytes of a file that can be read again; nothing where it cannot be read.
fn front_at<R: Files + AllocGlobal>(rt: &R, path: &str, most: usize) -> Option<Vec<u8>> {
    if is_pipe(rt, path.as_bytes()) {
        return None;
    }
    let mut file = FileSource::new(rt, path);
    read_front(rt.alloc(), &mut file, most).ok()
}
