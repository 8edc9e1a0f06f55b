//! Laws of the table of commands.
ghost use Rattle.std.specs.Prelude.{List, ℕ};
ghost use Rattle.command_names.specs.CommandNames.{IsName, command_name};
ghost use Rattle.command_names.specs.Language.{TellLanguage};

use crate::chapters::CHAPTERS;

/// Each command that the language has is in the table as taken, each other one is there as refused,
/// and no key stands twice.
pub fn commands_are_told()
    ensures { TellLanguage CHAPTERS }
{}

/// A name has at most 60 bytes, of which none is a control code.
pub fn names_are_short()
    ensures { (key : List ℕ) → IsName (command_name key) }
{}
