//! The words of the commands `profile list` and `profile new`, and the command above them.
ghost use Rattle.std.specs.Prelude.{IfOk, IfSome};
ghost use Rattle.requests.specs.Words.{NamesSome};

use crate::profile_tool_words::tool_request;
use crate::rows::{CommandHelp, CommandRow, Count, Need, OptionRow, Value, WordRow};
use crate::texts::texts_of;
use clap::ArgMatches;
use printer_models::{FixedFields, PanelLists};
use requests::{NewProfile, Request};
use std::alloc::{AllocError, Global};

const PROFILE_SHORT_HELP: &str = "Usage: pclcheck profile <COMMAND>
  list      the models of printers, and their papers
  new       a profile of a model
  lint      what is wrong with profiles
  show      what a profile says, for people
  sheet     a job by which a printer is compared with its profile
  from-pjl  a printer's own answer, put into a profile

'pclcheck profile COMMAND -h' tells how a command is used.";

const PROFILE_EXPLANATION: &str = "Examples:
  pclcheck profile list
      the models, by their names, and the papers that each can have
  pclcheck profile new hp-laserjet-4250 > front.profile
      a profile for letter and A4, at a panel that stands as it was delivered
  pclcheck profile new lexmark-ms520 --size a4,a5 --panel free > back.profile
      one for A4 and A5, at a panel where people choose
  pclcheck check job.pcl front.profile back.profile
      a check for both
  pclcheck profile lint front.profile back.profile
      all that is wrong with them, and where they differ
  pclcheck profile show front.profile
      what it says, for people
  pclcheck profile sheet front.profile sheet.pcl
      a job to print, by which the printer is compared with its profile by a ruler
  pclcheck profile from-pjl answer.txt front.profile > front_now.profile
      the panel as the printer itself tells it

Exit status:
  0  what was asked for was written, or help was asked for
  2  usage error, no such model, a paper that is wrong for it, or a profile with faults
  3  a read or a write failed, memory ran out, or the program's own tables and text do not agree";

const LIST_SHORT_HELP: &str = "Usage:
  pclcheck profile list
      a line for each model

'pclcheck profile list --help' tells all.";

const LIST_EXPLANATION: &str = "Output, a line for each model:
  MODEL: TITLE; papers: PAPER..

  MODEL     the name that 'pclcheck profile new' takes
  PAPER     a name that its --size takes

The model 'generic' stands for a printer of PCL 5e that is not in the list.

Exit status:
  0  the models were written, or help was asked for
  2  usage error
  3  a write failed, or memory ran out";

const NEW_SHORT_HELP: &str = "Usage:
  pclcheck profile new MODEL --size a4,letter > front.profile
      a printer whose panel nobody changes
  pclcheck profile new MODEL --panel free --fixed copies,sides > front.profile
      one whose panel people change, but for copies and sides

'pclcheck profile list' names models and papers; 'pclcheck profile new --help'
tells all.";

const NEW_EXPLANATION: &str = "Examples:
  pclcheck profile new hp-laserjet-4250 > front.profile
  pclcheck profile new lexmark-ms520 --size a4,a5 --panel free > back.profile
  pclcheck profile new generic --panel free --fixed copies,sides,tray > shop.profile

MODEL and PAPER are names that 'pclcheck profile list' writes; a PAPER may be in any letter case, and
the first one is the usual one.

No number of the text was measured at a printer. Its comments say what each is from, and what to
check at the printer before a verdict on the profile is trusted.

--panel fixed: each field of the panel has one value, the usual one. The profile promises that the
panel stands so, and that nobody changes it.
--panel free: each field has the values that people choose among, and a job has to set what is open.
--fixed: of a free panel these fields have the one usual value, and nobody changes them.

Exit status:
  0  the text was written, or help was asked for
  2  usage error, no such model, or a paper that is unknown, that the model cannot have or that comes
     twice; standard error names it
  3  a write failed, memory ran out, or the program's own tables and text do not agree";

/// The words of the panels.
const PANELS: &[&str] = &["fixed", "free"];

/// The words of the panel's fields of which a list may have several values.
const FIELDS: &[&str] = &[
    "size",
    "orientation",
    "vmi",
    "font",
    "copies",
    "sides",
    "tray",
];

/// The command `profile`, which others stand below.
const PROFILE_COMMANDS: &CommandRow = &CommandRow {
    name: "profile",
    about: "Makes, checks and shows profiles of printers",
    words: &[],
    options: &[],
};

/// The row of the command `profile`.
pub(crate) fn profile_commands_row() -> &'static CommandRow {
    PROFILE_COMMANDS
}

/// What help says of the command `profile`.
pub(crate) fn profile_commands_help() -> CommandHelp {
    CommandHelp {
        short: PROFILE_SHORT_HELP,
        explanation: PROFILE_EXPLANATION,
    }
}

/// The words of the command `profile list`.
const PROFILE_LIST: &CommandRow = &CommandRow {
    name: "list",
    about: "Lists the models of which there are profiles, and their papers",
    words: &[],
    options: &[],
};

/// The row of the command `profile list`.
pub(crate) fn profile_list_row() -> &'static CommandRow {
    PROFILE_LIST
}

/// What help says of the command `profile list`.
pub(crate) fn profile_list_help() -> CommandHelp {
    CommandHelp {
        short: LIST_SHORT_HELP,
        explanation: LIST_EXPLANATION,
    }
}

/// The words of the command `profile new`.
const PROFILE_NEW: &CommandRow = &CommandRow {
    name: "new",
    about: "Writes the text of a profile of a model",
    words: &[WordRow {
        id: "MODEL",
        need: Need::Always,
        count: Count::One,
        help: "The model of the printer, by its name in 'pclcheck profile list'",
    }],
    options: &[
        OptionRow {
            id: "SIZE",
            short: None,
            long: "size",
            value: Value::List("PAPER,.."),
            excludes: None,
            help: "The papers that are in the printer; without it letter and a4",
        },
        OptionRow {
            id: "PANEL",
            short: None,
            long: "panel",
            value: Value::OneOf {
                words: PANELS,
                usual: Some("fixed"),
            },
            excludes: None,
            help: "Whether people change what the panel has",
        },
        OptionRow {
            id: "FIXED",
            short: None,
            long: "fixed",
            value: Value::ListOf {
                name: "FIELD,..",
                words: FIELDS,
            },
            excludes: None,
            help: "Fields that nobody changes at a panel that is free",
        },
    ],
};

/// The row of the command `profile new`.
pub(crate) fn profile_new_row() -> &'static CommandRow {
    PROFILE_NEW
}

/// What help says of the command `profile new`.
pub(crate) fn profile_new_help() -> CommandHelp {
    CommandHelp {
        short: NEW_SHORT_HELP,
        explanation: NEW_EXPLANATION,
    }
}

/// The request of the words behind `profile`.
pub fn profile_request<'a>(
    alloc: Global,
    found: &ArgMatches<'a>,
) -> Result<Option<Request<'a>>, AllocError>
    ensures { IfOk result (λ request. IfSome request NamesSome) }
{
    if found.subcommand_matches("list").is_some() {
        return Ok(Some(Request::ProfileList));
    }
    match found.subcommand_matches("new") {
        Some(found) => new_request(alloc, found),
        None => tool_request(alloc, found),
    }
}

/// The request of the words behind `profile new`.
fn new_request<'a>(alloc: Global, found: &ArgMatches<'a>) -> Result<Option<Request<'a>>, AllocError>
    ensures { IfOk result (λ request. IfSome request NamesSome) }
{
    let Some(model) = found.get_str("MODEL") else {
        return Ok(None);
    };
    let papers = texts_of(alloc, found, "SIZE")?;
    Ok(Some(Request::ProfileNew(NewProfile {
        model,
        papers,
        lists: lists_of(found),
    })))
}

/// What the panel may have. Where it is fixed, `--fixed` says nothing more.
fn lists_of(found: &ArgMatches<'_>) -> PanelLists {
    match found.get_str("PANEL") {
        Some("free") => free_lists(found.get_strs("FIXED")),
        _ => PanelLists::Fixed,
    }
}

/// What a free panel may have, but for fields of these words.
fn free_lists(words: Option<&[&str]>) -> PanelLists {
    match words {
        Some(words) => PanelLists::FreeBut(fields_of(words)),
        None => PanelLists::Free,
    }
}

/// The fields of words.
fn fields_of(words: &[&str]) -> FixedFields {
    FixedFields {
        size: has_word(words, "size"),
        orientation: has_word(words, "orientation"),
        vmi: has_word(words, "vmi"),
        font: has_word(words, "font"),
        copies: has_word(words, "copies"),
        sides: has_word(words, "sides"),
        tray: has_word(words, "tray"),
    }
}

/// Whether a word is among these.
fn has_word(words: &[&str], word: &str) -> bool {
    words.iter().any(|one| *one == word)
}
