//! The command `profile show`.
ghost use Rattle.std.specs.Prelude.{◌≡◌, ◌∷◌, ◌++◌, [], IsFalse};
ghost use Rattle.profile_commands.specs.ProfileShow.{LeavesShown};

use crate::profile_reading::{profile_of, read_text};
use crate::whole_text::write_whole;
use device_profile::printer_name;
use named_inputs::ProfileTexts;
use profile_show::profile_text;
use requests::Status;
use std::alloc::Allocator;
use streams::{Error, Outlet};

/// The command `profile show`: on standard output what a profile says, for people. Of a profile
/// that cannot be read or that is refused standard error tells.
pub fn profile_show<T: ProfileTexts, O: Outlet, E: Outlet, A: Allocator + Copy>(
    alloc: A,
    texts: &mut T,
    word: &str,
    stdout: &mut O,
    stderr: &mut E,
) -> Status
    requires texts { IsFalse (T.failed texts.old) }
    requires stdout { IsFalse (O.state stdout.old).failed }
    requires stderr { IsFalse (E.state stderr.old).failed }
    ensures left { LeavesShown (T.text_of texts.old word.now) word.now (T.given texts.old)
        (T.given texts.new) (T.failed texts.new) result (O.state stdout.old) (O.state stdout.new)
        (E.state stderr.old) (E.state stderr.new) }
    ensures named { T.named texts.new ≡ T.named texts.old ++ word.now ∷ [] }
{
    let text = match read_text(alloc, texts, word, stderr) {
        Ok(text) => text,
        Err(status) => return status,
    };
    let profile = match profile_of(alloc, word, text.as_slice(), stderr) {
        Ok(profile) => profile,
        Err(status) => return status,
    };
    match profile_text(alloc, printer_name(text.as_slice()), &profile) {
        Ok(shown) => write_whole(stdout, shown.as_slice()),
        Err(_) => Status::Stopped(Error::Memory),
    }
}
