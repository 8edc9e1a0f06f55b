//! The words of the command `pdf`.
ghost use Rattle.std.specs.Prelude.{IfOk, IfSome};
ghost use Rattle.requests.specs.Words.{NamesSome};

use crate::panel_words::{ChoiceFault, choices_of};
use crate::rows::{CommandHelp, CommandRow, OptionRow, Value};
use crate::text_commands::{JOB, OUT, PROFILE};
use crate::texts::both_texts;
use clap::ArgMatches;
use requests::{DrawnPages, Request, Selection};
use std::alloc::Global;

const PDF_SHORT_HELP: &str = "Usage:
  pclcheck pdf JOB PROFILE OUT
      OUT is a PDF document of all pages, or with --page N of one
  pclcheck pdf JOB PROFILE OUT --proof
      with the edges of pages, and with the verdict at their feet

'pclcheck pdf --help' tells all.";

const PDF_EXPLANATION: &str =
    "OUT is a PDF document of each page at its size, with each mark of 'pages' in its place: characters
as text, which can be searched and copied, in Courier as wide and as high as the face; rectangles,
lines, and rows of rasters as images. Of a character that Courier does not have its box is drawn.
The label of a page tells its number, copies, sides and tray, and the document's title and subject are
JOB and the printer.

The page on which the job fails is the last, as far as it came, with a cross in red where the cursor
was before the item that failed, and at its foot a sentence.

JOB is read twice, so it has to be a file. Of a job that does not have the page of --page, or has
none, standard error is told, and OUT is as it was.

The panel is at the first value that the profile lists of each field, or at the value that --panel
names, as in --panel size=26,vmi=6,lineterm=2; size and orientation take names, too, as a4 and
landscape.

Once JOB is open the document is written beside OUT, and takes the place of OUT when it is whole:
after an error OUT is as it was. A device or a pipe is written itself. An OUT that is JOB or PROFILE,
under whichever path, is refused.

Output, where the job fails on these pages:
  FAIL at=N profile=N FINDING

Exit status:
  0  the document was written, or help was asked for
  1  the job fails on these pages, or does not have the page
  2  usage error, a value that the profile does not list, or the profile is refused
  3  a read or a write failed, memory ran out, or no end after 2^40 reads";

/// The words of the command `pdf`.
const PDF: &CommandRow = &CommandRow {
    name: "pdf",
    about: "Writes the pages of a job as a PDF document, from one panel setting of a printer",
    words: &[JOB, PROFILE, OUT],
    options: &[
        OptionRow {
            id: "PAGE",
            short: None,
            long: "page",
            value: Value::Number("N", 1),
            excludes: None,
            help: "The page to write, from 1; without it all",
        },
        OptionRow {
            id: "PROOF",
            short: None,
            long: "proof",
            value: Value::Nothing,
            excludes: None,
            help: "Draws the logical page, the printable area, and at the foot of each page its \
                number and the verdict",
        },
        OptionRow {
            id: "PANEL",
            short: None,
            long: "panel",
            value: Value::Text("FIELD=VALUE,.."),
            excludes: None,
            help: "Writes from these values of the panel; each field that is not named has its \
                first value",
        },
    ],
};

/// The row of the command `pdf`.
pub(crate) fn pdf_row() -> &'static CommandRow {
    PDF
}

/// What help says of the command `pdf`.
pub(crate) fn pdf_help() -> CommandHelp {
    CommandHelp {
        short: PDF_SHORT_HELP,
        explanation: PDF_EXPLANATION,
    }
}

/// Which pages are written.
fn selection(found: &ArgMatches<'_>) -> Selection {
    let pages = match found.get_one::<u64>("PAGE") {
        None => DrawnPages::All,
        Some(number) => DrawnPages::One(number),
    };
    Selection {
        pages,
        has_boxes: false,
    }
}

/// The request of the words behind `pdf`.
pub fn pdf_request<'a>(
    alloc: Global,
    found: &ArgMatches<'a>,
) -> Result<Option<Request<'a>>, ChoiceFault<'a>>
    ensures { IfOk result (λ request. IfSome request NamesSome) }
{
    let Some((job, profile)) = both_texts(found, "JOB", "PROFILE") else {
        return Ok(None);
    };
    let Some(out) = found.get_str("OUT") else {
        return Ok(None);
    };
    let choices = choices_of(alloc, found)?;
    Ok(Some(Request::Pdf {
        job,
        profile,
        choices,
        selection: selection(found),
        is_proof: found.get_flag("PROOF"),
        out,
    }))
}
