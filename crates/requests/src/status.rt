//! How the program ends.
ghost use Rattle.std.specs.Prelude.{◌≡◌, IsFalse, IsTrue, map};
ghost use Rattle.std.specs.List.{concat};
ghost use Rattle.streams.specs.Writing.{Writes};
ghost use Rattle.streams.specs.declared.error.Error.TheVariants.{Memory};
ghost use Rattle.requests.specs.Status.{code_of, cause_name, error_line, error_words, is_complete};
ghost use Rattle.requests.specs.Status.{overwriting_line, refusal_line, status_line};
ghost use Rattle.requests.specs.declared.status.Status.TheVariants.{Stopped};

use crate::choices::Choice;
use device_profile::Cause;
use itoa::Buffer;
use std::alloc::AllocFailed;
use streams::{Error, Outlet, write_text};

/// What the program reads.
#[derive(Clone, Copy, Debug, PartialEq, Eq)]
pub enum Input {
    /// The file JOB.
    Job,
    /// The file PROFILE.
    Profile,
}

/// How the program ends.
#[derive(Clone, Copy, Debug, PartialEq, Eq)]
pub enum Status {
    /// The job passes, or all of its text was written.
    Pass,
    /// The job fails, or its text ends with the line of a failure.
    Fail,
    /// Help, the version, an explanation, the list of models or the text of a profile was written.
    Help,
    /// A usage error: the words ask for nothing that there is.
    Usage,
    /// OUT is a file that is read.
    Overwrites(Input),
    /// The panel of the printer may not have this value.
    NotAllowed(Choice),
    /// A profile is refused: the one of this number, counted from 1, at this line of its text,
    /// counted from 1, or as a whole, with line 0.
    Profile {
        number: u64,
        line: u64,
        cause: Cause,
    },
    /// The work stopped before its end.
    Stopped(Error),
    /// A trouble of which what it is about was told.
    Told(Trouble),
}

/// What stands in the way of verdicts or of a text, and was told with what it is about.
#[derive(Clone, Copy, Debug, PartialEq, Eq)]
pub enum Trouble {
    /// A profile or a fleet is refused.
    Refused,
    /// A job has no verdict, or a profile could not be read.
    NoVerdict,
    /// A text that the program made is not that of its tables, which is a mistake in the program.
    Mismatch,
}

impl Status {
    /// The number that the system is told.
    pub fn code(self) -> u8
        ensures { result ≡ code_of self }
    {
        match self {
            Status::Pass | Status::Help => 0,
            Status::Fail => 1,
            Status::Usage
            | Status::Overwrites(_)
            | Status::NotAllowed(_)
            | Status::Profile { .. }
            | Status::Told(Trouble::Refused) => 2,
            Status::Stopped(_) | Status::Told(Trouble::NoVerdict | Trouble::Mismatch) => 3,
        }
    }

    /// Whether the command came to its end, so that what it writes is whole, up to the failure of a
    /// job that fails.
    pub fn is_complete(self) -> bool
        ensures { result ≡ is_complete self }
    {
        match self {
            Status::Pass | Status::Fail | Status::Help => true,
            Status::Usage
            | Status::Overwrites(_)
            | Status::NotAllowed(_)
            | Status::Profile { .. }
            | Status::Stopped(_)
            | Status::Told(_) => false,
        }
    }
}

impl From<Error> for Status {
    ghost from_gives = { λ error status. status ≡ Stopped error };

    fn from(error: Error) -> Status {
        Status::Stopped(error)
    }
}

impl<T: Drop> From<AllocFailed<T>> for Status {
    ghost from_gives = { λ _ status. status ≡ Stopped Memory };

    fn from(error: AllocFailed<T>) -> Status {
        Status::Stopped(Error::from(error))
    }
}

/// Writes the line of a status, as far as it can be written.
pub fn tell<E: Outlet>(status: Status, stderr: &mut E)
    ensures line { IsFalse (E.state stderr.old).failed →
        Writes (E.state stderr.old) (E.state stderr.new) (status_line status) }
    ensures failed { IsTrue (E.state stderr.old).failed → stderr.new ≡ stderr.old }
{
    if stderr.has_failed() {
        return;
    }
    // Where standard error takes nothing, the status alone is left to tell.
    let _ = match status {
        Status::Profile {
            number,
            line,
            cause,
        } => write_refusal(stderr, number, line, cause),
        Status::Stopped(error) => write_pieces(stderr, &[error_words(error), b"\n"]),
        Status::Overwrites(input) => write_text(stderr, overwriting_line(input)),
        Status::Pass
        | Status::Fail
        | Status::Help
        | Status::Usage
        | Status::NotAllowed(_)
        | Status::Told(_) => Ok(()),
    };
}

/// Why work stopped, in words.
pub fn error_words(error: Error) -> &'static [u8]
    ensures { result.now ≡ error_words error }
{
    match error {
        Error::Memory => b"ERROR memory",
        Error::Read => b"ERROR read",
        Error::Write => b"ERROR write",
        Error::Turns => b"ERROR turns",
        Error::NoProfile => b"ERROR no profile",
        Error::Items => b"ERROR items",
    }
}

fn overwriting_line(input: Input) -> &'static [u8]
    ensures { result.now ≡ overwriting_line input }
{
    match input {
        Input::Job => b"error: OUT is JOB itself, which would be lost\n",
        Input::Profile => b"error: OUT is PROFILE itself, which would be lost\n",
    }
}

/// Writes which profile is refused, at which line and why.
fn write_refusal<E: Outlet>(
    stderr: &mut E,
    number: u64,
    line: u64,
    cause: Cause,
) -> Result<(), Error>
    requires { IsFalse (E.state stderr.old).failed }
    ensures { Writes (E.state stderr.old) (E.state stderr.new) (refusal_line number line cause) }
{
    let mut number_digits = Buffer::new();
    let mut line_digits = Buffer::new();
    let pieces: [&[u8]; 7] = [
        b"ERROR profile ",
        number_digits.format(number).as_bytes(),
        b" ",
        line_digits.format(line).as_bytes(),
        b" ",
        cause_name(cause),
        b"\n",
    ];
    write_pieces(stderr, &pieces)
}

pub fn cause_name(cause: Cause) -> &'static [u8]
    ensures { result.now ≡ cause_name cause }
{
    match cause {
        Cause::Version => b"Version",
        Cause::Unknown => b"Unknown",
        Cause::Repeated => b"Repeated",
        Cause::Range => b"Range",
        Cause::Missing => b"Missing",
        Cause::NoGeometry => b"NoGeometry",
    }
}

/// Writes pieces of a text one after the other.
pub fn write_pieces<E: Outlet>(outlet: &mut E, pieces: &[&[u8]]) -> Result<(), Error>
    requires { IsFalse (E.state outlet.old).failed }
    ensures { Writes (E.state outlet.old) (E.state outlet.new)
        (concat (map (λ piece. piece.now) pieces.now)) }
{
    for piece in pieces {
        write_text(outlet, piece)?;
    }
    Ok(())
}
