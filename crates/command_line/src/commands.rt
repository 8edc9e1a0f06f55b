//! The commands by their rows, and the command line that they make up.

use crate::check_words::{EXPLANATION, check_help, check_row};
use crate::compare_words::{compare_help, compare_row};
use crate::form_words::FORMAT;
use crate::pdf_words::{pdf_help, pdf_row};
use crate::picture_words::{picture_help, picture_row};
use crate::profile_tool_words::{
    profile_from_pjl_help, profile_from_pjl_row, profile_lint_help, profile_lint_row,
    profile_sheet_help, profile_sheet_row, profile_show_help, profile_show_row,
};
use crate::profile_words::{
    profile_commands_help, profile_commands_row, profile_list_help, profile_list_row,
    profile_new_help, profile_new_row,
};
use crate::rows::{CommandHelp, CommandRow, Count, Need, WordRow};
use crate::survey_words::{survey_help, survey_row};
use crate::text_commands::{
    list_help, list_row, notes_help, notes_row, pages_help, pages_row, pin_help, pin_row,
    plain_help, plain_row,
};
use crate::word::Word;
use clap::Command;
use std::alloc::{AllocError, Global};
use std::convert::AsStr;

const VERSION: &str = "0.1.0";

const EXPLAIN_SHORT_HELP: &str = "Usage:
  pclcheck explain 12
      what the finding of this number, or of a name, means
  pclcheck explain '&lP'
      what is known of a command of printers; 'explain commands' lists them
  pclcheck explain
      what all findings and notes mean

'pclcheck explain --help' tells all.";

const EXPLAIN_EXPLANATION: &str =
    "CODE is a number, or a name in any letter case; the number before it may come, too, and what stands
behind it in brackets, as in '12 Unset(Size)'. For ERROR items it is items.

It may also be a command of printers: as a FAIL names it ('&lP', x09, AA), as it is spelled
('&l#P', HT), as it stands in a job ('&l66p') or as HP's manual calls it. The code commands lists
them, taken or refused.

Exit status:
  0  an explanation was written, or help was asked for
  2  usage error, or no fault, finding, note or command has this code
  3  a write failed, or memory ran out";

const PROGRAM_SHORT_HELP: &str = "Usage: pclcheck <COMMAND>
  check    the verdict on jobs for printers
  survey   all that is refused of jobs, without a verdict
  compare  whether two jobs print the same
  list     each command of a job
  pages    each mark of a job on a printer
  picture  a page of a job, drawn; pdf writes all as a document
  notes    what a job that passes leaves to the printer
  plain    a job in its one spelling
  pin      a job that leaves nothing to the panel
  explain  what a finding means, and what to change
  profile  profiles: list, new, lint, show, sheet, from-pjl
'pclcheck COMMAND -h' tells how a command is used, 'pclcheck --help' all.";

/// The program itself.
const PROGRAM: &CommandRow = &CommandRow {
    name: "pclcheck",
    about: "A preflight checker for PCL 5 print jobs",
    words: &[],
    options: &[FORMAT],
};

/// The row of the program.
fn program_row() -> &'static CommandRow {
    PROGRAM
}

/// What help says of the program.
fn program_help() -> CommandHelp {
    CommandHelp {
        short: PROGRAM_SHORT_HELP,
        explanation: EXPLANATION,
    }
}

/// The words of the command `explain`.
const EXPLAIN: &CommandRow = &CommandRow {
    name: "explain",
    about: "Tells when a fault, finding or note comes, and what to change in the job or the \
        profile",
    words: &[WordRow {
        id: "CODE",
        need: Need::Never,
        count: Count::One,
        help: "The fault, finding, note or command; without it, all but commands",
    }],
    options: &[],
};

/// The row of the command `explain`.
fn explain_row() -> &'static CommandRow {
    EXPLAIN
}

/// What help says of the command `explain`.
fn explain_help() -> CommandHelp {
    CommandHelp {
        short: EXPLAIN_SHORT_HELP,
        explanation: EXPLAIN_EXPLANATION,
    }
}

/// The program or one of its commands, by which its row is found.
#[derive(Clone, Copy)]
pub(crate) enum CommandName {
    Program,
    Check,
    Survey,
    Compare,
    List,
    Pages,
    Picture,
    Pdf,
    Notes,
    Plain,
    Pin,
    Explain,
    Profile,
    ProfileList,
    ProfileNew,
    ProfileLint,
    ProfileShow,
    ProfileSheet,
    ProfileFromPjl,
}

/// The commands that none stands below, in the order in which help lists them.
const BELOW_PROGRAM: &[CommandName] = &[
    CommandName::Check,
    CommandName::Survey,
    CommandName::Compare,
    CommandName::List,
    CommandName::Pages,
    CommandName::Picture,
    CommandName::Pdf,
    CommandName::Notes,
    CommandName::Plain,
    CommandName::Pin,
    CommandName::Explain,
];

/// The commands below `profile`, in the order in which help lists them.
const BELOW_PROFILE: &[CommandName] = &[
    CommandName::ProfileList,
    CommandName::ProfileNew,
    CommandName::ProfileLint,
    CommandName::ProfileShow,
    CommandName::ProfileSheet,
    CommandName::ProfileFromPjl,
];

impl CommandName {
    // A proof takes long over the texts of a constant, and over those of several in one function
    // much longer: each row has a function of its own, where no step follows.
    pub(crate) fn row(self) -> &'static CommandRow {
        match self {
            CommandName::Program => program_row(),
            CommandName::Check => check_row(),
            CommandName::Survey => survey_row(),
            CommandName::Compare => compare_row(),
            CommandName::List => list_row(),
            CommandName::Pages => pages_row(),
            CommandName::Picture => picture_row(),
            CommandName::Pdf => pdf_row(),
            CommandName::Notes => notes_row(),
            CommandName::Plain => plain_row(),
            CommandName::Pin => pin_row(),
            CommandName::Explain => explain_row(),
            CommandName::Profile => profile_commands_row(),
            CommandName::ProfileList => profile_list_row(),
            CommandName::ProfileNew => profile_new_row(),
            CommandName::ProfileLint => profile_lint_row(),
            CommandName::ProfileShow => profile_show_row(),
            CommandName::ProfileSheet => profile_sheet_row(),
            CommandName::ProfileFromPjl => profile_from_pjl_row(),
        }
    }

    /// What help says of the command beside its row.
    pub(crate) fn help(self) -> CommandHelp {
        match self {
            CommandName::Program => program_help(),
            CommandName::Check => check_help(),
            CommandName::Survey => survey_help(),
            CommandName::Compare => compare_help(),
            CommandName::List => list_help(),
            CommandName::Pages => pages_help(),
            CommandName::Picture => picture_help(),
            CommandName::Pdf => pdf_help(),
            CommandName::Notes => notes_help(),
            CommandName::Plain => plain_help(),
            CommandName::Pin => pin_help(),
            CommandName::Explain => explain_help(),
            CommandName::Profile => profile_commands_help(),
            CommandName::ProfileList => profile_list_help(),
            CommandName::ProfileNew => profile_new_help(),
            CommandName::ProfileLint => profile_lint_help(),
            CommandName::ProfileShow => profile_show_help(),
            CommandName::ProfileSheet => profile_sheet_help(),
            CommandName::ProfileFromPjl => profile_from_pjl_help(),
        }
    }

    fn command<'a>(self, alloc: Global) -> Result<Command<'a>, AllocError> {
        self.row().command(alloc, self.help().explanation)
    }
}

/// The command that words are about, of which the first is the program's own name; the program
/// itself where they name none. The option for the form may stand before a command.
pub(crate) fn command_asked(words: &[Word]) -> CommandName {
    let mut asked = CommandName::Program;
    let mut is_passed = true;
    for word in words {
        let text = word.as_str();
        if !is_passed && !text.starts_with("--format") {
            let Some(name) = below(asked, text) else {
                return asked;
            };
            asked = name;
        }
        is_passed = !is_passed && text == "--format";
    }
    asked
}

/// The command below one that a word names.
fn below(name: CommandName, word: &str) -> Option<CommandName> {
    match name {
        CommandName::Program if word == "profile" => Some(CommandName::Profile),
        CommandName::Program => named(BELOW_PROGRAM, word),
        CommandName::Profile => named(BELOW_PROFILE, word),
        _ => None,
    }
}

/// The first of these commands that a word names.
fn named(names: &[CommandName], word: &str) -> Option<CommandName> {
    names.iter().copied().find(|name| name.row().name == word)
}

/// The command line of the program.
pub(crate) fn command<'a>(alloc: Global) -> Result<Command<'a>, AllocError> {
    let command = with_commands(alloc, program(alloc)?, BELOW_PROGRAM)?;
    with_command(command, profile_command(alloc))
}

/// The program without its commands.
fn program<'a>(alloc: Global) -> Result<Command<'a>, AllocError> {
    let program = CommandName::Program.command(alloc)?;
    Ok(program.version(VERSION).subcommand_required(true))
}

/// The command `profile` with those below it.
fn profile_command<'a>(alloc: Global) -> Result<Command<'a>, AllocError> {
    let profile = CommandName::Profile.command(alloc)?;
    with_commands(alloc, profile.subcommand_required(true), BELOW_PROFILE)
}

/// Adds commands to the one that they stand below.
fn with_commands<'a>(
    alloc: Global,
    mut command: Command<'a>,
    names: &[CommandName],
) -> Result<Command<'a>, AllocError> {
    for name in names {
        command = with_command(command, name.command(alloc))?;
    }
    Ok(command)
}

/// A command with one more below it.
fn with_command<'a>(
    command: Command<'a>,
    below: Result<Command<'a>, AllocError>,
) -> Result<Command<'a>, AllocError> {
    command.subcommand(below?)
}
