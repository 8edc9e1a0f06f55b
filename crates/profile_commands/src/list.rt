//! The command `profile list`.
ghost use Rattle.std.specs.Prelude.{IsFalse};
ghost use Rattle.profile_commands.specs.ProfileList.{LeavesModels};

use crate::whole_text::write_whole;
use printer_models::models_text;
use requests::Status;
use std::alloc::Allocator;
use streams::{Error, Outlet};

/// The command `profile list`: on standard output a line for each model of which the program can
/// make the text of a profile.
pub fn profile_list<A: Allocator, O: Outlet>(alloc: A, stdout: &mut O) -> Status
    requires { IsFalse (O.state stdout.old).failed }
    ensures { LeavesModels result (O.state stdout.old) (O.state stdout.new) }
{
    match models_text(alloc) {
        Ok(text) => write_whole(stdout, text.as_slice()),
        Err(_) => Status::Stopped(Error::Memory),
    }
}
