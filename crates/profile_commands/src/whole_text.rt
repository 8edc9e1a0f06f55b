//! A text that was put together before it is written.
ghost use Rattle.std.specs.Prelude.{IsFalse};
ghost use Rattle.profile_commands.specs.WholeText.{WritesWhole};

use requests::Status;
use streams::{Error, Outlet, write_text};

/// Writes a text, and answers how a command ends that has nothing more to do.
pub fn write_whole<O: Outlet>(stdout: &mut O, text: &[u8]) -> Status
    requires { IsFalse (O.state stdout.old).failed }
    ensures { WritesWhole text.now result (O.state stdout.old) (O.state stdout.new) }
{
    match write_text(stdout, text) {
        Ok(()) => Status::Help,
        Err(_) => Status::Stopped(Error::Write),
    }
}
