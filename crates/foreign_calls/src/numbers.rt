//! The numbers that calls answer. C has them behind `PCLCHECK_`.
ghost use Rattle.std.specs.Prelude.{◌≡◌};
ghost use Rattle.foreign_calls.specs.Answers.{cause_number, error_number};

use device_profile::Cause;
use streams::Error;

/// What was asked for is done.
pub const DONE: u32 = 0;

/// The room is too short for the text; `needed` says how long that is.
pub const ROOM: u32 = 1;

/// A request for memory was refused.
pub const MEMORY: u32 = 2;

/// The job has more than 2^52 bytes.
pub const LONG: u32 = 3;

/// The fleet has no printer, or none of this number.
pub const NO_PRINTER: u32 = 4;

/// Work stopped for another cause. It does not happen.
pub const STOPPED: u32 = 5;

/// The text of a profile is refused; `refusal` says where and why.
pub const REFUSED: u32 = 6;

/// The panel of the printer may not have a value that is chosen.
pub const NOT_ALLOWED: u32 = 7;

/// A value is chosen for what is no field of the panel.
pub const NO_FIELD: u32 = 8;

/// The job does not have this page.
pub const NO_PAGE: u32 = 9;

/// Nothing has this code.
pub const UNKNOWN: u32 = 10;

/// Macros would carry out more items of the job than the fleet allows.
pub const ITEMS: u32 = 11;

/// What a session was fed decides the verdict, whatever follows.
pub const JUDGED: u32 = 12;

/// The number of why work stopped.
pub fn error_number(error: Error) -> u32
    ensures { result ≡ error_number error }
{
    match error {
        Error::Memory => MEMORY,
        Error::Turns => LONG,
        Error::NoProfile => NO_PRINTER,
        Error::Items => ITEMS,
        Error::Read | Error::Write => STOPPED,
    }
}

/// The number of what is wrong with the text of a profile: 1 Version, 2 Unknown, 3 Repeated, 4
/// Range, 5 Missing, 6 NoGeometry.
pub(crate) fn cause_number(cause: Cause) -> u32
    ensures { result ≡ cause_number cause }
{
    match cause {
        Cause::Version => 1,
        Cause::Unknown => 2,
        Cause::Repeated => 3,
        Cause::Range => 4,
        Cause::Missing => 5,
        Cause::NoGeometry => 6,
    }
}
