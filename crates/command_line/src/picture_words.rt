//! The words of the command `picture`.
ghost use Rattle.std.specs.Prelude.{IfOk, IfSome};
ghost use Rattle.requests.specs.Words.{NamesSome};

use crate::panel_words::{ChoiceFault, choices_of};
use crate::rows::{CommandHelp, CommandRow, OptionRow, Value};
use crate::text_commands::{JOB, PROFILE};
use crate::texts::both_texts;
use clap::ArgMatches;
use requests::{DrawnPages, Request, Selection};
use std::alloc::Global;

const PICTURE_SHORT_HELP: &str = "Usage:
  pclcheck picture JOB PROFILE > page.svg
      the first page, or with --page N another
  pclcheck picture JOB PROFILE --all > job.html
      all pages

'pclcheck picture --help' tells all.";

const PICTURE_EXPLANATION: &str =
    "Output: a page as SVG, or with --all a document of HTML with each page below one another and the
verdict on top; it needs nothing from elsewhere, and prints a sheet a page. A page shows its sheet
with rulers in millimetres and inches, the logical page (dashed), the printable area (thin), and
each mark in its place; a unit is 1/7200 inch. The title of a mark, which a browser shows at the
pointer, says what it is, the byte of its item, and its upper left corner in millimetres.

The page on which the job fails stands as far as it came, in gray, and upon it in red the character
or the rectangle that fails, and the printable area, the logical page, the right margin or the
picture frame that is left, with their measures; for other marks, and where there is none, a cross is
where the cursor was before the item that failed. Below the sheet stands the sentence of
'check --format words'. A page before it is drawn whole, and so is a job that fails by another panel
setting or a second printer alone, as 12 and 33 do: check tells it.

The panel is at the first value that the profile lists of each field, or at the value that --panel
names, as in --panel size=26,vmi=6,lineterm=2; size and orientation take names, too, as a4 and
landscape.

JOB is read twice, so it has to be a file. Of a page that it does not have standard error is told.

Exit status:
  0  the page or the pages were drawn whole, or help was asked for
  1  the job fails on them, or does not have the page
  2  usage error, a value that the profile does not list, or the profile is refused
  3  a read or a write failed, memory ran out, or no end after 2^40 reads";

/// The words of the command `picture`.
const PICTURE: &CommandRow = &CommandRow {
    name: "picture",
    about: "Draws a page of a job, from one panel setting of a printer",
    words: &[JOB, PROFILE],
    options: &[
        OptionRow {
            id: "PAGE",
            short: None,
            long: "page",
            value: Value::Number("N", 1),
            excludes: None,
            help: "The page to draw, from 1; without it the first",
        },
        OptionRow {
            id: "ALL",
            short: None,
            long: "all",
            value: Value::Nothing,
            excludes: Some("PAGE"),
            help: "Draws each page, in one document",
        },
        OptionRow {
            id: "BOXES",
            short: None,
            long: "boxes",
            value: Value::Nothing,
            excludes: None,
            help: "Draws the box of each character, too",
        },
        OptionRow {
            id: "PANEL",
            short: None,
            long: "panel",
            value: Value::Text("FIELD=VALUE,.."),
            excludes: None,
            help: "Draws from these values of the panel; each field that is not named has its \
                first value",
        },
    ],
};

/// The row of the command `picture`.
pub(crate) fn picture_row() -> &'static CommandRow {
    PICTURE
}

/// What help says of the command `picture`.
pub(crate) fn picture_help() -> CommandHelp {
    CommandHelp {
        short: PICTURE_SHORT_HELP,
        explanation: PICTURE_EXPLANATION,
    }
}

/// Which pages are drawn.
fn drawn_pages(found: &ArgMatches<'_>) -> DrawnPages {
    if found.get_flag("ALL") {
        return DrawnPages::All;
    }
    DrawnPages::One(found.get_one::<u64>("PAGE").unwrap_or(1))
}

/// What is drawn.
fn selection(found: &ArgMatches<'_>) -> Selection {
    Selection {
        pages: drawn_pages(found),
        has_boxes: found.get_flag("BOXES"),
    }
}

/// The request of the words behind `picture`.
pub fn picture_request<'a>(
    alloc: Global,
    found: &ArgMatches<'a>,
) -> Result<Option<Request<'a>>, ChoiceFault<'a>>
    ensures { IfOk result (λ request. IfSome request NamesSome) }
{
    let Some((job, profile)) = both_texts(found, "JOB", "PROFILE") else {
        return Ok(None);
    };
    let choices = choices_of(alloc, found)?;
    Ok(Some(Request::Picture {
        job,
        profile,
        choices,
        selection: selection(found),
    }))
}
