//! The words of the command `compare`.
ghost use Rattle.std.specs.Prelude.{IfOk, IfSome};
ghost use Rattle.requests.specs.Comparisons.{NamesCompared, NamesJobs};
ghost use Rattle.requests.specs.Words.{NamesSome};

use crate::form_words::{SURVEY_FORMS, form_asked};
use crate::nearness_words::{ALL, ANY_ORDER, MOST, WITHIN, extent_of, nearness_of};
use crate::panel_words::ChoiceFault;
use crate::rows::{CommandHelp, CommandRow, Count, Need, OptionRow, Value, WordRow};
use crate::texts::{are_none, both_texts, texts_of};
use clap::ArgMatches;
use requests::{CompareWords, ComparedJobs, Form, Request};
use std::alloc::{AllocError, Global};

const SHORT_HELP: &str = "Usage:
  pclcheck compare OLD NEW PROFILE..
      whether NEW prints what OLD does, or the first difference
  pclcheck compare --all OLD NEW PROFILE..
      all differences
  pclcheck compare --golden DIR -p PROFILE NEW..
      each job with the one of its name in DIR

'pclcheck compare --help' tells all.";

const EXPLANATION: &str =
    "It tells whether NEW prints what OLD does: the same marks at the same places in the same order, on
pages that end with the same size, orientation, sides, tray and copies. Each printer stands at the
first value that its profile lists of each field; check tries the others, too. How the commands are
spelled, and by which of them a mark comes to its place, does not matter.

  --any-order      the marks of a page may be made in any order: on paper the same, but that where
                   white and another mark overlap the other one may lie on top, which is told as
                   covered otherwise
  --within LENGTH  marks are the same whose edges lie off by that at most, each for itself: on paper
                   nothing is shifted, wider or higher by more, but white may cover what it did not.
                   Pens have to be as wide. In mm or in, as 0.1mm and 0.004in; 0mm is as without
                   this option

Output, one line:
  SAME pages=N marks=N
  DIFFERS page=N mark=N old=N new=N printer=NAME CHANGE    the first difference, on the first printer
                                                           that has one
  FAIL at=N printer=NAME FINDING JOB                       JOB fails there with these values; what
                                                           fails in OLD comes first

  page=, mark=  the page, and the mark on it in OLD, both from 1: of what only NEW has, that in NEW;
                of the end of a page the mark behind its last one, which is 1 of a blank page
  old=, new=    the byte of the command in OLD and in NEW that makes the mark or ends the page; where
                a job makes nothing more, its length
  CHANGE        moved: the mark stands elsewhere, and is else the same; changed: another one stands
                there; only in OLD, only in NEW: the other one lacks the mark, or the page, whose end
                is then told so, too; page ends otherwise: by one of its five values; covered
                otherwise: NEW makes the mark and an earlier one that it overlaps in the other order,
                and one is white

With --all a line for each difference on that printer, page by page. Marks that only one job has are
left out, as few as possible, up to where both go on alike: at most 64 together, or else 4096 of one
job alone. So a mark more in NEW is told as only in NEW. Without --all the one line is on the first
two marks that are not the same, and may call them moved or changed; with --within, --any-order or
--picture it is the first line of --all. Of more than --most differences:
  MORE pages=N  more are left out, and so many pages differ

With --golden DIR each word is a NEW, and its OLD the file of the same name in DIR. Its lines end
with NEW, but where OLD fails or cannot be read with OLD. A job that cannot be read has a line as in
check, and the others are compared; a name that is no UTF-8 text is a usage error.

With --picture OUT, not beside --golden, the first page that differs is drawn into the file OUT as
an SVG, with --all each page of that printer, 100 at most, as an HTML document: gray what both have,
red what OLD has alone, green what NEW has alone, and beside it the differences, 55 in the SVG and
1000 a page in the document at most. OUT takes its place when it is whole, and is as it was where no
page differs.

With --format words each line is a sentence, with --format json an object; those of a FAIL have no
page, command or place on the sheet, which check tells. Both jobs are read side by side, once for
each printer: for several printers they have to be files. --any-order, --within, --all and --picture
hold a page of each, of 1048576 marks at most.

Exit status, of many jobs the greatest of theirs:
  0  both print the same, or help was asked for
  1  they differ, or one fails
  2  usage error, or a profile or a fleet is refused
  3  a read or a write failed, memory ran out, a page has too many marks, or no end after 2^40 reads";

/// The words of the command `compare`.
const COMPARE: &CommandRow = &CommandRow {
    name: "compare",
    about: "Tells whether two jobs print the same, or how they differ",
    words: &[
        WordRow {
            id: "OLD",
            need: Need::Always,
            count: Count::One,
            help: "The path of a print job, or - for standard input",
        },
        WordRow {
            id: "NEW",
            need: Need::Unless(&["GOLDEN"]),
            count: Count::One,
            help: "The path of the job that is to print the same",
        },
        WordRow {
            id: "PROFILE",
            need: Need::Unless(&["PRINTER", "FLEET", "GOLDEN"]),
            count: Count::Several("PROFILE"),
            help: "The printers: paths of profiles, or samples @A to @D; with --golden further jobs",
        },
    ],
    options: &[
        OptionRow {
            id: "PRINTER",
            short: Some('p'),
            long: "printer",
            value: Value::EachText("PROFILE"),
            excludes: None,
            help: "A printer, behind those of PROFILE. May come often",
        },
        OptionRow {
            id: "FLEET",
            short: Some('f'),
            long: "fleet",
            value: Value::EachText("FILE"),
            excludes: None,
            help: "A text with a profile a line; as -p, and behind those of -p",
        },
        ANY_ORDER,
        WITHIN,
        ALL,
        MOST,
        OptionRow {
            id: "GOLDEN",
            short: None,
            long: "golden",
            value: Value::Folder("DIR"),
            excludes: None,
            help: "Compares each word with the file of its name in DIR; printers come by -p and -f",
        },
        OptionRow {
            id: "PICTURE",
            short: None,
            long: "picture",
            value: Value::Text("OUT"),
            excludes: Some("GOLDEN"),
            help: "Draws the first page that differs into OUT, with --all each of them",
        },
        OptionRow {
            id: "FORM",
            short: None,
            long: "format",
            value: Value::OneOf {
                words: SURVEY_FORMS,
                usual: None,
            },
            excludes: None,
            help: "A line, a sentence or an object of JSON",
        },
    ],
};

/// The row of the command `compare`.
pub(crate) fn compare_row() -> &'static CommandRow {
    COMPARE
}

/// What help says of the command `compare`.
pub(crate) fn compare_help() -> CommandHelp {
    CommandHelp {
        short: SHORT_HELP,
        explanation: EXPLANATION,
    }
}

/// The request of the words behind `compare`, in the usual form where they ask for none; nothing
/// where they name no printer.
pub fn compare_request<'a>(
    alloc: Global,
    usual: Form,
    found: &ArgMatches<'a>,
) -> Result<Option<Request<'a>>, ChoiceFault<'a>>
    ensures { IfOk result (λ request. IfSome request NamesSome) }
{
    Ok(read_compared(alloc, usual, found)?.map(Request::Compare))
}

/// What the words name; nothing where that is no printer.
fn read_compared<'a>(
    alloc: Global,
    usual: Form,
    found: &ArgMatches<'a>,
) -> Result<Option<CompareWords<'a>>, ChoiceFault<'a>>
    ensures { IfOk result (λ words. IfSome words NamesCompared) }
{
    match found.get_str("GOLDEN") {
        Some(folder) => read_golden(alloc, usual, found, folder),
        None => read_pair(alloc, usual, found),
    }
}

/// Two jobs, and printers behind them.
fn read_pair<'a>(
    alloc: Global,
    usual: Form,
    found: &ArgMatches<'a>,
) -> Result<Option<CompareWords<'a>>, ChoiceFault<'a>>
    ensures { IfOk result (λ words. IfSome words NamesCompared) }
{
    let Some((old_job, new_job)) = both_texts(found, "OLD", "NEW") else {
        return Ok(None);
    };
    let mut printers = texts_of(alloc, found, "PROFILE")?;
    printers.extend_from_slice(found.get_strs("PRINTER").unwrap_or(&[]))?;
    let jobs = ComparedJobs::Pair { old_job, new_job };
    read_beside(alloc, usual, found, jobs, printers)
}

/// The path of the picture. Standard output, which has the lines, is none.
fn picture_of<'a>(found: &ArgMatches<'a>) -> Result<Option<&'a str>, ChoiceFault<'a>> {
    let picture = found.get_str("PICTURE");
    if matches!(picture, Some("-")) {
        return Err(ChoiceFault::PictureOnOutput);
    }
    Ok(picture)
}

/// Jobs that are compared with those of their names in a folder, and printers of options alone.
fn read_golden<'a>(
    alloc: Global,
    usual: Form,
    found: &ArgMatches<'a>,
    folder: &'a str,
) -> Result<Option<CompareWords<'a>>, ChoiceFault<'a>>
    ensures { IfOk result (λ words. IfSome words NamesCompared) }
{
    let jobs = words_of(alloc, found)?;
    if jobs.is_empty() {
        return Ok(None);
    }
    let printers = texts_of(alloc, found, "PRINTER")?;
    let jobs = ComparedJobs::Golden { folder, jobs };
    let words = read_beside(alloc, usual, found, jobs, printers)?;
    match words {
        Some(words) => Ok(Some(words)),
        None => Err(ChoiceFault::NoPrinter),
    }
}

/// What words name beside these jobs and these printers; nothing where they name no printer.
fn read_beside<'a>(
    alloc: Global,
    usual: Form,
    found: &ArgMatches<'a>,
    jobs: ComparedJobs<'a>,
    printers: Vec<&'a str>,
) -> Result<Option<CompareWords<'a>>, ChoiceFault<'a>>
    requires { NamesJobs jobs }
    ensures { IfOk result (λ words. IfSome words NamesCompared) }
{
    let (nearness, extent) = (nearness_of(found)?, extent_of(found)?);
    let picture = picture_of(found)?;
    let fleets = texts_of(alloc, found, "FLEET")?;
    if are_none(printers.as_slice(), fleets.as_slice()) {
        return Ok(None);
    }
    Ok(Some(CompareWords {
        jobs,
        printers,
        fleets,
        form: form_asked(found).unwrap_or(usual),
        nearness,
        extent,
        picture,
    }))
}

/// All words, in their order.
fn words_of<'a>(alloc: Global, found: &ArgMatches<'a>) -> Result<Vec<&'a str>, AllocError> {
    let mut words = Vec::new(alloc);
    if let Some(word) = found.get_str("OLD") {
        words.push(word)?;
    }
    if let Some(word) = found.get_str("NEW") {
        words.push(word)?;
    }
    words.extend_from_slice(found.get_strs("PROFILE").unwrap_or(&[]))?;
    Ok(words)
}
