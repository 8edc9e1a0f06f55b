//! A preflight checker for print jobs.
#![tactic(auto)]

mod by_request;
mod held_lines;
mod in_words;

ghost use Rattle.std.specs.Prelude.{IsFalse};
ghost use Rattle.requests.specs.Words.{NamesSome};

use crate::by_request::fulfil;
use crate::in_words::{tell_held, tell_in_words};
use command_line::{Word, form_of, read_words};
use named_inputs::KeptText;
use requests::{Form, Request, Status, tell};
use std::alloc::{AllocError, Global};
use std::convert::AsStr;
use std::env::{FillError, VarError};
use std::io::{Input, Print};
use std::os::fd::{AsRawFd, IntoRawFd, RawFd};
use std::process::ExitCode;
use std::rt::{Env, Files};
use std::{env, fs};
use streams::{Error, FilesUsed, Latched, Outlet, write_text};

/// The descriptors of the standard streams are those below this one.
const STANDARD_STREAMS: RawFd = 3;

/// A word has room for so many bytes at first.
const ROOM_OF_WORD: usize = 256;

fn main(rt: HostRuntime) -> ExitCode {
    fill_closed_streams(&rt);
    let mut stdout = Latched::new(rt.stdout());
    let mut stderr = Latched::new(rt.stderr());
    let status = run(&rt, &mut stdout, &mut stderr);
    ExitCode::from(status.code())
}

/// Opens the root directory in the place of each standard stream that is closed.
///
/// A file that is opened later would else be taken for that stream. A directory gives and takes no
/// bytes, and nor does what is opened at `/dev/stdin` and the like then.
fn fill_closed_streams(rt: &HostRuntime) {
    for _ in 0..STANDARD_STREAMS {
        let Ok(directory) = fs::open(rt, "/") else {
            return;
        };
        if directory.as_raw_fd() >= STANDARD_STREAMS {
            return;
        }
        // It stays open as long as the program runs.
        directory.into_raw_fd();
    }
}

/// Does what the program's words ask for, and tells what stands in the way.
fn run<R: Env + Files + Input + Print + AllocGlobal, O: Outlet, E: Outlet>(
    rt: &R,
    stdout: &mut O,
    stderr: &mut E,
) -> Status
    requires stdout { IsFalse (O.state stdout.old).failed }
    requires stderr { IsFalse (E.state stderr.old).failed }
{
    let Ok(words) = gather_words(rt) else {
        return told(Status::Stopped(Error::Memory), stderr);
    };
    let Ok(usual) = usual_form(rt) else {
        return told(Status::Stopped(Error::Memory), stderr);
    };
    match usual {
        Some(usual) => fulfil_words(rt, words.as_slice(), usual, stdout, stderr),
        None if ask_for_form(words.as_slice()) => {
            fulfil_words(rt, words.as_slice(), Form::Line, stdout, stderr)
        }
        None => refuse_work(rt.alloc(), words.as_slice(), stdout, stderr),
    }
}

/// The words that the program was started with.
///
/// An error means that the allocator refused a request; so of each below.
fn gather_words<R: Env + AllocGlobal>(rt: &R) -> Result<Vec<Word>, AllocError> {
    let mut words = Vec::new(rt.alloc());
    for place in 0..usize::MAX {
        let Some(bytes) = word_at(rt, place)? else {
            break;
        };
        words.push(Word::new(rt.alloc(), bytes)?)?;
    }
    Ok(words)
}

/// The bytes of the word at a place, counted from 0, where there is one.
fn word_at<R: Env + AllocGlobal>(rt: &R, place: usize) -> Result<Option<Vec<u8>>, AllocError> {
    let mut room = ROOM_OF_WORD;
    for _ in 0..usize::BITS {
        let mut bytes = Vec::new(rt.alloc());
        bytes.resize(room, 0u8)?;
        match rt.arg(place, bytes.as_mut_slice()) {
            Ok(length) => {
                bytes.truncate(length);
                return Ok(Some(bytes));
            }
            Err(FillError::NotPresent) => return Ok(None),
            Err(FillError::TooLong) => room = room.saturating_add(room),
        }
    }
    Err(AllocError)
}

/// The form that the environment asks for, a line where it asks for none, or nothing where what it
/// asks for is no form.
fn usual_form<R: Env + AllocGlobal>(rt: &R) -> Result<Option<Form>, AllocError> {
    match env::var(rt, "PCLCHECK_FORMAT") {
        Ok(word) => Ok(form_or_line(word.as_str())),
        Err(VarError::NotPresent) => Ok(Some(Form::Line)),
        Err(VarError::NotUnicode) => Ok(None),
        Err(VarError::OutOfMemory) => Err(AllocError),
    }
}

/// The form of a word; of an empty one a line.
fn form_or_line(word: &str) -> Option<Form> {
    if word.is_empty() {
        return Some(Form::Line);
    }
    form_of(word)
}

/// Whether words have an option for the form, so that the environment is not looked at.
fn ask_for_form(words: &[Word]) -> bool {
    for word in words {
        if word.as_str().starts_with("--format") {
            return true;
        }
    }
    false
}

/// Refuses the form of the environment, unless the words ask for help, or are wrong themselves.
fn refuse_work<O: Outlet, E: Outlet>(
    alloc: Global,
    words: &[Word],
    stdout: &mut O,
    stderr: &mut E,
) -> Status
    requires stdout { IsFalse (O.state stdout.old).failed }
    requires stderr { IsFalse (E.state stderr.old).failed }
{
    match read_words(alloc, words, Form::Line, stdout, stderr) {
        Ok(_asked) => refuse_form(stderr),
        Err(status) => told(status, stderr),
    }
}

/// Tells that the environment asks for no form that there is.
fn refuse_form<E: Outlet>(stderr: &mut E) -> Status
    requires { IsFalse (E.state stderr.old).failed }
{
    let text = b"error: PCLCHECK_FORMAT is none of line, words, json and html\n";
    match write_text(stderr, text) {
        Ok(()) => Status::Usage,
        Err(error) => Status::Stopped(error),
    }
}

/// Does what the words ask for, in the usual form where they ask for none.
fn fulfil_words<R: Files + Input + Print + AllocGlobal, O: Outlet, E: Outlet>(
    rt: &R,
    words: &[Word],
    usual: Form,
    stdout: &mut O,
    stderr: &mut E,
) -> Status
    requires stdout { IsFalse (O.state stdout.old).failed }
    requires stderr { IsFalse (E.state stderr.old).failed }
{
    let asked = match read_words(rt.alloc(), words, usual, stdout, stderr) {
        Ok(asked) => asked,
        Err(status) => return told(status, stderr),
    };
    match asked.form {
        Form::Words => fulfil_in_words(rt, &asked.request, stdout, stderr),
        Form::Line | Form::Json | Form::Html => {
            let mut used = FilesUsed::new();
            let status = fulfil(rt, &asked.request, &mut used, stdout, stderr);
            told(status, stderr)
        }
    }
}

/// Does what is asked for. What it tells standard error meanwhile is held, and told at its end.
fn fulfil_in_words<R: Files + Input + Print + AllocGlobal, O: Outlet, E: Outlet>(
    rt: &R,
    request: &Request<'_>,
    stdout: &mut O,
    stderr: &mut E,
) -> Status
    requires stdout { IsFalse (O.state stdout.old).failed }
    requires some { NamesSome request.now }
{
    let mut used = FilesUsed::new();
    let mut held = KeptText::new(rt.alloc());
    let status = fulfil(rt, request, &mut used, stdout, &mut held);
    tell_held(rt.alloc(), request, held.into_bytes().as_slice(), stderr);
    tell_in_words(rt, request, status, stdout.has_failed(), stderr);
    status
}

/// A status, of which its line is told.
fn told<E: Outlet>(status: Status, stderr: &mut E) -> Status {
    tell(status, stderr);
    status
}
