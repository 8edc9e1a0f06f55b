//! The commands that write a text of a job: `list`, `pages`, `notes`, `plain` and `pin`.
ghost use Rattle.std.specs.Prelude.{IfOk, IfSome};
ghost use Rattle.requests.specs.Words.{NamesSome};

use crate::panel_words::{ChoiceFault, choices_of};
use crate::rows::{CommandHelp, CommandRow, Count, Need, OptionRow, Value, WordRow};
use crate::texts::both_texts;
use clap::ArgMatches;
use requests::Request;
use std::alloc::Global;

const LIST_SHORT_HELP: &str = "Usage:
  pclcheck list JOB
      a line for each command: its byte, and how it is spelled

What stands behind a FAULT is not read.
'pclcheck list --help' tells all.";

const LIST_EXPLANATION: &str = "Output, a line for each item:
  PLACE SPELLING           the number of bytes before the item, and its canonical spelling, in which
                           each byte that shows nothing, and the backslash, is \\x and two digits
  PLACE FAULT NUMBER NAME  the last line, where the bytes are wrong, or are what pclcheck does not
                           check; what stands behind it is not read

Exit status:
  0  the bytes are items to their end, or help was asked for
  1  the bytes are wrong, or are not checked, as the last line tells
  2  usage error
  3  a read or a write failed, memory ran out, or no end after 2^40 reads";

const PAGES_SHORT_HELP: &str = "Usage:
  pclcheck pages JOB PROFILE
      a line for each mark, and for the end of each page

'pclcheck pages --help' tells all.";

const PAGES_EXPLANATION: &str =
    "Output, a line for each mark, and one for the end of each page; lengths and places are ticks of
1/36576000000 inch, and places run right and down from the upper left corner of the page:
  glyph CODE SET PITCH HEIGHT STYLE WEIGHT TYPEFACE Y LEFT TOP RIGHT BOTTOM
  rect FILL ID LEFT TOP RIGHT BOTTOM
  row RESOLUTION X Y HEX
  line WIDTH X Y X Y
  page N size=N orientation=N sides=N tray=N copies=N
  FAIL at=N profile=N FINDING    the last line, where the job fails

  SET       the symbol set, as ESC ( names it
  PITCH     in characters an inch, and HEIGHT in points
  Y         of a glyph: where its baseline lies
  FILL      0 black, 1 white, 2 a shade of ID percent, 3 the pattern ID
  HEX       the bytes of a row of RESOLUTION pixels an inch, eight pixels each; a set bit is black

Exit status:
  0  the job is printed to its end, or help was asked for
  1  the job fails, as the last line tells
  2  usage error, or the profile is refused
  3  a read or a write failed, memory ran out, or no end after 2^40 reads";

const NOTES_SHORT_HELP: &str = "Usage:
  pclcheck notes JOB PROFILE
      a line for each note: its byte, its number and its name
  pclcheck check -p PROFILE --notes --format words JOB..
      the notes of many jobs, below their verdicts

'pclcheck notes --help' tells all.";

const NOTES_EXPLANATION: &str =
    "A note tells what a job that passes leaves to the printer, or to the jobs before and behind it. Each
is told once, where it holds first, for the first value that the profile lists of each field. Where
macros carry out more than a million items, 112 tells it, and what follows is not looked at.

Output, a line for each note; explain tells more of its number and its name:
  AT NUMBER NAME
  FAIL at=N profile=N FINDING    the last line, where the job fails; behind it there is no note

Exit status:
  0  there is no note, or help was asked for
  1  there are notes, or the job fails, as the last line tells
  2  usage error, or the profile is refused
  3  a read or a write failed, memory ran out, or no end after 2^40 reads";

const PLAIN_SHORT_HELP: &str = "Usage:
  pclcheck plain JOB OUT
      OUT is the job in its one spelling

What stands behind a FAIL is not written.
'pclcheck plain --help' tells all.";

const PLAIN_EXPLANATION: &str =
    "Once JOB is open its text is written beside OUT, and takes the place of OUT when it is whole: after
an error OUT is as it was. A device or a pipe is written itself. An OUT that is JOB, under whichever
path, is refused. Jobs that differ in spelling alone give the same bytes.

Output, where the bytes are wrong, or are what pclcheck does not check; OUT then has the items before
that place:
  FAIL at=N profile=0 FINDING

Exit status:
  0  all of the job was written, or help was asked for
  1  the bytes are wrong, or are not checked
  2  usage error
  3  a read or a write failed, memory ran out, or no end after 2^40 reads";

const PIN_SHORT_HELP: &str = "Usage:
  pclcheck pin JOB PROFILE OUT
      OUT sets the first value of each field that the job leaves to the panel
  pclcheck pin JOB PROFILE OUT --panel size=26,tray=1
      OUT sets these values

What stands behind a FAIL is not written.
'pclcheck pin --help' tells all.";

const PIN_EXPLANATION: &str =
    "What is written prints from every panel setting of the printer as JOB does from one of them: the
first value that the profile lists of each field, or the value that --panel names. It sets these
values itself, so its macros may be longer than those of JOB and need more of the printer's macro
memory: check what was written.

The fields are size, orientation, vmi, font, copies, sides, tray and lineterm, each with a value that
the profile lists, as in --panel size=26,vmi=6,lineterm=2. Size and orientation take names, too, as in
--panel size=a4,orientation=landscape.

Once JOB is open the text is written beside OUT, and takes the place of OUT when it is whole: after an
error OUT is as it was. A device or a pipe is written itself. An OUT that is JOB or PROFILE, under
whichever path, is refused.

Output, where the bytes are wrong, or are what pclcheck does not check, or where an item cannot be
pinned; OUT then has what is due before that place:
  FAIL at=N profile=0 FINDING
  FAIL at=N profile=1 35 Unpinnable

Exit status:
  0  all of the job was written, or help was asked for
  1  the bytes are wrong, or are not checked, or an item cannot be pinned
  2  usage error, a value that the profile does not list, or the profile is refused
  3  a read or a write failed, memory ran out, or no end after 2^40 reads";

/// The word JOB, which each command but `explain` takes.
pub(crate) const JOB: WordRow = WordRow {
    id: "JOB",
    need: Need::Always,
    count: Count::One,
    help: "The path of the print job",
};

/// The word PROFILE of the commands for one printer.
pub(crate) const PROFILE: WordRow = WordRow {
    id: "PROFILE",
    need: Need::Always,
    count: Count::One,
    help: "The printer: the path of its profile, or @A, @B, @C or @D for a built-in sample",
};

/// The word OUT of the commands that write a job.
pub(crate) const OUT: WordRow = WordRow {
    id: "OUT",
    need: Need::Always,
    count: Count::One,
    help: "The path of the file to write, or - for standard output",
};

/// The words of the command `list`.
const LIST: &CommandRow = &CommandRow {
    name: "list",
    about: "Lists the items of a job: each command, control code and byte of text",
    words: &[JOB],
    options: &[],
};

/// The row of the command `list`.
pub(crate) fn list_row() -> &'static CommandRow {
    LIST
}

/// What help says of the command `list`.
pub(crate) fn list_help() -> CommandHelp {
    CommandHelp {
        short: LIST_SHORT_HELP,
        explanation: LIST_EXPLANATION,
    }
}

/// The words of the command `pages`.
const PAGES: &CommandRow = &CommandRow {
    name: "pages",
    about: "Writes what a job marks on its pages, from the first panel setting of a printer",
    words: &[JOB, PROFILE],
    options: &[],
};

/// The row of the command `pages`.
pub(crate) fn pages_row() -> &'static CommandRow {
    PAGES
}

/// What help says of the command `pages`.
pub(crate) fn pages_help() -> CommandHelp {
    CommandHelp {
        short: PAGES_SHORT_HELP,
        explanation: PAGES_EXPLANATION,
    }
}

/// The words of the command `notes`.
const NOTES: &CommandRow = &CommandRow {
    name: "notes",
    about: "Tells what a job leaves to a printer, though it passes",
    words: &[JOB, PROFILE],
    options: &[],
};

/// The row of the command `notes`.
pub(crate) fn notes_row() -> &'static CommandRow {
    NOTES
}

/// What help says of the command `notes`.
pub(crate) fn notes_help() -> CommandHelp {
    CommandHelp {
        short: NOTES_SHORT_HELP,
        explanation: NOTES_EXPLANATION,
    }
}

/// The words of the command `plain`.
const PLAIN: &CommandRow = &CommandRow {
    name: "plain",
    about: "Writes a job again, with each item in its canonical spelling",
    words: &[JOB, OUT],
    options: &[],
};

/// The row of the command `plain`.
pub(crate) fn plain_row() -> &'static CommandRow {
    PLAIN
}

/// What help says of the command `plain`.
pub(crate) fn plain_help() -> CommandHelp {
    CommandHelp {
        short: PLAIN_SHORT_HELP,
        explanation: PLAIN_EXPLANATION,
    }
}

/// The words of the command `pin`.
const PIN: &CommandRow = &CommandRow {
    name: "pin",
    about: "Writes a job again, pinned to one panel setting of a printer",
    words: &[JOB, PROFILE, OUT],
    options: &[OptionRow {
        id: "PANEL",
        short: None,
        long: "panel",
        value: Value::Text("FIELD=VALUE,.."),
        excludes: None,
        help: "Pins to these values of the panel; each field that is not named has its first value",
    }],
};

/// The row of the command `pin`.
pub(crate) fn pin_row() -> &'static CommandRow {
    PIN
}

/// What help says of the command `pin`.
pub(crate) fn pin_help() -> CommandHelp {
    CommandHelp {
        short: PIN_SHORT_HELP,
        explanation: PIN_EXPLANATION,
    }
}

/// The request of the words behind `pin`.
pub fn pin_request<'a>(
    alloc: Global,
    found: &ArgMatches<'a>,
) -> Result<Option<Request<'a>>, ChoiceFault<'a>>
    ensures { IfOk result (λ request. IfSome request NamesSome) }
{
    let Some((job, profile)) = both_texts(found, "JOB", "PROFILE") else {
        return Ok(None);
    };
    let Some(out) = found.get_str("OUT") else {
        return Ok(None);
    };
    let choices = choices_of(alloc, found)?;
    Ok(Some(Request::Pin {
        job,
        profile,
        choices,
        out,
    }))
}

/// What the words ask for, where they name `list`, `pages`, `notes` or `plain`.
pub fn text_request<'a>(matches: &ArgMatches<'a>) -> Option<Request<'a>>
    ensures { IfSome result NamesSome }
{
    if let Some(found) = matches.subcommand_matches("list") {
        let job = found.get_str("JOB")?;
        return Some(Request::List { job });
    }
    if let Some(found) = matches.subcommand_matches("pages") {
        let (job, profile) = both_texts(found, "JOB", "PROFILE")?;
        return Some(Request::Pages { job, profile });
    }
    if let Some(found) = matches.subcommand_matches("notes") {
        let (job, profile) = both_texts(found, "JOB", "PROFILE")?;
        return Some(Request::Notes { job, profile });
    }
    let found = matches.subcommand_matches("plain")?;
    let (job, out) = both_texts(found, "JOB", "OUT")?;
    Some(Request::Plain { job, out })
}
