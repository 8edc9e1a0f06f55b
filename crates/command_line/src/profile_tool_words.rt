//! The words of the commands `profile lint`, `show`, `sheet` and `from-pjl`.
ghost use Rattle.std.specs.Prelude.{IfOk, IfSome};
ghost use Rattle.requests.specs.Words.{NamesSome};

use crate::rows::{CommandHelp, CommandRow, Count, Need, WordRow};
use crate::text_commands::{OUT, PROFILE};
use crate::texts::{both_texts, texts_of};
use clap::ArgMatches;
use requests::Request;
use std::alloc::{AllocError, Global};

const LINT_SHORT_HELP: &str = "Usage:
  pclcheck profile lint PROFILE..
      the faults of each, or hints where it has none

'pclcheck profile lint --help' tells all.";

const LINT_EXPLANATION: &str = "Output, a line for each thing that is found:
  PROFILE:LINE: WORDS (CAUSE)  a line of the text is wrong
  PROFILE: WORDS (CAUSE)       the whole is
  PROFILE: hint: WORDS         nothing is wrong, but see whether it is meant so

The first fault of a text is the one that 'ERROR profile N LINE CAUSE' tells. Hints are given where a
text has no fault: on pages and faces that are not those of the tables of 'profile new', on what jobs
hardly ever set, and on the first thing in which two of the profiles differ.

Exit status:
  0  no text has a fault, or help was asked for
  2  a text has faults, or usage error
  3  a text could not be read, a write failed, or memory ran out";

const SHOW_SHORT_HELP: &str = "Usage:
  pclcheck profile show PROFILE
      its panel, its device, its pages and its faces

'pclcheck profile show --help' tells all.";

const SHOW_EXPLANATION: &str =
    "Output, for people: what the panel may have, the device, the pages in millimetres, inches and dots of
1/300 inch, and the faces by typeface and symbol set.

Exit status:
  0  the profile was shown, or help was asked for
  2  usage error, or the profile is refused; 'pclcheck profile lint' tells all that is wrong
  3  the text could not be read, a write failed, or memory ran out";

const SHEET_SHORT_HELP: &str = "Usage:
  pclcheck profile sheet PROFILE OUT
      OUT is a job to print, and to measure with a ruler

'pclcheck profile sheet --help' tells all.";

const SHEET_EXPLANATION: &str =
    "Print OUT on the printer whose profile it is, and lay a ruler on it. The first lines of each page say
what to measure and what it has to be by the profile. Where all lists of the panel have one value, the
first page sets nothing: it shows how the panel stands.

Once the job was made and has passed a check for PROFILE it is written beside OUT, and takes the place
of OUT when it is whole: after an error OUT is as it was. A device or a pipe is written itself. An OUT
that is PROFILE, under whichever path, is refused. The last line on paper is END OF SHEET: a sheet
without it is not whole.

Exit status:
  0  the job was written, or help was asked for
  2  usage error, the profile is refused, or it describes a printer on which the sheet does not pass
  3  the text could not be read, a write failed, or memory ran out";

const FROM_PJL_SHORT_HELP: &str = "Usage:
  pclcheck profile from-pjl ANSWER PROFILE > front.profile
      the profile with what the printer answered
  pclcheck profile from-pjl ANSWER > front.profile
      a profile of the model generic with it

'pclcheck profile from-pjl --help' tells all, and how to ask the printer.";

const FROM_PJL_EXPLANATION: &str =
    "ANSWER is the file with what the printer answers, or - for standard input. To ask it:
  printf '\\033%%-12345X@PJL INFO CONFIG\\r\\n@PJL INFO VARIABLES\\r\\n\\033%%-12345X' \\
      | nc -w 5 PRINTER 9100 > answer.txt

The size, the orientation, copies, sides, tray, VMI, font and line termination that it tells take the
place of those of BASE; without BASE, of those of the model generic. So does duplex, where it tells
the device (INFO CONFIG). What is not understood, and what a profile cannot say, is told on standard
error in the order of its lines, and stands in the comments of the text.

Exit status:
  0  the text was written, or help was asked for
  2  usage error, BASE is refused, ANSWER has no line NAME=VALUE that a printer answers, or one of
     the texts has more than 65536 bytes
  3  a text could not be read, a write failed, or memory ran out";

/// The words of the command `profile lint`.
const PROFILE_LINT: &CommandRow = &CommandRow {
    name: "lint",
    about: "Tells all that is wrong with profiles, and gives hints",
    words: &[WordRow {
        id: "PROFILE",
        need: Need::Always,
        count: Count::Several("PROFILE"),
        help: "A profile: the path of its text, or @A, @B, @C or @D for a built-in sample",
    }],
    options: &[],
};

/// The row of the command `profile lint`.
pub(crate) fn profile_lint_row() -> &'static CommandRow {
    PROFILE_LINT
}

/// What help says of the command `profile lint`.
pub(crate) fn profile_lint_help() -> CommandHelp {
    CommandHelp {
        short: LINT_SHORT_HELP,
        explanation: LINT_EXPLANATION,
    }
}

/// The words of the command `profile show`.
const PROFILE_SHOW: &CommandRow = &CommandRow {
    name: "show",
    about: "Shows a profile to people",
    words: &[PROFILE],
    options: &[],
};

/// The row of the command `profile show`.
pub(crate) fn profile_show_row() -> &'static CommandRow {
    PROFILE_SHOW
}

/// What help says of the command `profile show`.
pub(crate) fn profile_show_help() -> CommandHelp {
    CommandHelp {
        short: SHOW_SHORT_HELP,
        explanation: SHOW_EXPLANATION,
    }
}

/// The words of the command `profile sheet`.
const PROFILE_SHEET: &CommandRow = &CommandRow {
    name: "sheet",
    about: "Writes a job to print, by which a printer is compared with its profile",
    words: &[PROFILE, OUT],
    options: &[],
};

/// The row of the command `profile sheet`.
pub(crate) fn profile_sheet_row() -> &'static CommandRow {
    PROFILE_SHEET
}

/// What help says of the command `profile sheet`.
pub(crate) fn profile_sheet_help() -> CommandHelp {
    CommandHelp {
        short: SHEET_SHORT_HELP,
        explanation: SHEET_EXPLANATION,
    }
}

/// The words of the command `profile from-pjl`.
const PROFILE_FROM_PJL: &CommandRow = &CommandRow {
    name: "from-pjl",
    about: "Writes the text of a profile after a printer's own answer",
    words: &[
        WordRow {
            id: "ANSWER",
            need: Need::Always,
            count: Count::One,
            help: "The path of the printer's answer, or - for standard input",
        },
        WordRow {
            id: "BASE",
            need: Need::Never,
            count: Count::One,
            help: "The profile that the answer is put into: its path, or @A, @B, @C or @D",
        },
    ],
    options: &[],
};

/// The row of the command `profile from-pjl`.
pub(crate) fn profile_from_pjl_row() -> &'static CommandRow {
    PROFILE_FROM_PJL
}

/// What help says of the command `profile from-pjl`.
pub(crate) fn profile_from_pjl_help() -> CommandHelp {
    CommandHelp {
        short: FROM_PJL_SHORT_HELP,
        explanation: FROM_PJL_EXPLANATION,
    }
}

/// The request of the words behind `profile`, where they name one of these commands.
pub fn tool_request<'a>(
    alloc: Global,
    found: &ArgMatches<'a>,
) -> Result<Option<Request<'a>>, AllocError>
    ensures { IfOk result (λ request. IfSome request NamesSome) }
{
    if let Some(found) = found.subcommand_matches("lint") {
        let profiles = texts_of(alloc, found, "PROFILE")?;
        return Ok(Some(Request::ProfileLint { profiles }));
    }
    Ok(text_tool_request(found))
}

/// The same for the commands that take single words.
fn text_tool_request<'a>(found: &ArgMatches<'a>) -> Option<Request<'a>>
    ensures { IfSome result NamesSome }
{
    if let Some(found) = found.subcommand_matches("show") {
        let profile = found.get_str("PROFILE")?;
        return Some(Request::ProfileShow { profile });
    }
    if let Some(found) = found.subcommand_matches("sheet") {
        let (profile, out) = both_texts(found, "PROFILE", "OUT")?;
        return Some(Request::ProfileSheet { profile, out });
    }
    let found = found.subcommand_matches("from-pjl")?;
    Some(Request::ProfileFromPjl {
        answer: found.get_str("ANSWER")?,
        base: found.get_str("BASE"),
    })
}
