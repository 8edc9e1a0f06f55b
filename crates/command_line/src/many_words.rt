//! The words of a check of many jobs.
ghost use Rattle.std.specs.Prelude.{◌≢◌, ◌++◌, [], IfOk, IfSome};
ghost use Rattle.requests.specs.ManyWords.{NamesPrinter};

use crate::form_words::{FORMS, form_asked};
use crate::rows::{OptionRow, Value};
use crate::texts::{are_none, texts_of};
use crate::word::{Word, bytes_of};
use clap::ArgMatches;
use requests::{Form, ManyWords};
use std::alloc::{AllocError, Global};

/// How a job may count that pclcheck cannot judge.
const COUNTS: &[&str] = &["fail", "pass"];

/// The options of a check of many jobs.
pub(crate) const MANY_OPTIONS: &[OptionRow] = &[
    OptionRow {
        id: "PRINTER",
        short: Some('p'),
        long: "printer",
        value: Value::EachText("PROFILE"),
        excludes: None,
        help: "A printer; with it every word is a job. May come often",
    },
    OptionRow {
        id: "FLEET",
        short: Some('f'),
        long: "fleet",
        value: Value::EachText("FILE"),
        excludes: None,
        help: "A text with a profile a line; as -p, and behind those of -p",
    },
    OptionRow {
        id: "NAMES",
        short: None,
        long: "files0-from",
        value: Value::Text("FILE"),
        excludes: Some("JOB"),
        help: "The paths of the jobs, each ended by a zero byte; - is standard input",
    },
    OptionRow {
        id: "EMPTY",
        short: None,
        long: "allow-empty",
        value: Value::Nothing,
        excludes: None,
        help: "A list of paths that has none is no error",
    },
    OptionRow {
        id: "MOST",
        short: None,
        long: "most-items",
        value: Value::Number("N", 0),
        excludes: None,
        help: "Gives a job up whose macros carry out more than so many items",
    },
    OptionRow {
        id: "EACH",
        short: None,
        long: "each",
        value: Value::Nothing,
        excludes: None,
        help: "A line for each printer, with its own verdict",
    },
    OptionRow {
        id: "NOTES",
        short: None,
        long: "notes",
        value: Value::Nothing,
        excludes: None,
        help: "Tells below each PASS what the job leaves to the printer; reads it twice",
    },
    OptionRow {
        id: "FORM",
        short: None,
        long: "format",
        value: Value::OneOf {
            words: FORMS,
            usual: None,
        },
        excludes: None,
        help: "What is told of a job: a line, a sentence, an object of JSON, or a row of a page of HTML",
    },
    OptionRow {
        id: "EXPLAIN",
        short: None,
        long: "explain",
        value: Value::Nothing,
        excludes: None,
        help: "Tells of each FAIL and note what 'pclcheck explain' tells of its number",
    },
    OptionRow {
        id: "ZERO",
        short: None,
        long: "exit-zero",
        value: Value::Nothing,
        excludes: None,
        help: "Ends with 0 where a job fails, too",
    },
    OptionRow {
        id: "COUNT",
        short: None,
        long: "unchecked",
        value: Value::OneOf {
            words: COUNTS,
            usual: None,
        },
        excludes: None,
        help: "How a job counts that pclcheck cannot judge",
    },
    OptionRow {
        id: "PDF",
        short: None,
        long: "pdf",
        value: Value::Folder("DIR"),
        excludes: None,
        help: "Writes the pages of each job as a PDF document into a folder that is there",
    },
];

/// Whether the words ask for more than one job for all of its printers together; so does a usual
/// form that is not a line.
pub(crate) fn asks_for_many(usual: Form, found: &ArgMatches<'_>) -> bool {
    names_printers(found)
        || usual != Form::Line
        || has_value_of_many(found)
        || has_flag_of_many(found)
}

/// Whether an option with a value comes that asks for it.
fn has_value_of_many(found: &ArgMatches<'_>) -> bool {
    found.contains_id("FORM")
        || found.contains_id("MOST")
        || found.contains_id("COUNT")
        || found.contains_id("PDF")
}

/// Whether an option without a value comes that asks for it.
fn has_flag_of_many(found: &ArgMatches<'_>) -> bool {
    found.get_flag("EACH")
        || found.get_flag("EMPTY")
        || found.get_flag("NOTES")
        || found.get_flag("EXPLAIN")
        || found.get_flag("ZERO")
}

/// Whether printers come by options, so that every word is a job.
fn names_printers(found: &ArgMatches<'_>) -> bool {
    found.contains_id("PRINTER") || found.contains_id("FLEET")
}

/// What words ask for that ask for many, or nothing where they name no printer.
pub(crate) fn read_many<'a>(
    alloc: Global,
    given: &'a [Word],
    usual: Form,
    found: &ArgMatches<'a>,
) -> Result<Option<ManyWords<'a>>, AllocError>
    ensures { IfOk result (λ many. IfSome many NamesPrinter) }
{
    let jobs = jobs_of(alloc, given, found)?;
    let printers = printers_of(alloc, found)?;
    let fleets = texts_of(alloc, found, "FLEET")?;
    if are_none(printers.as_slice(), fleets.as_slice()) {
        return Ok(None);
    }
    Ok(Some(many_words(usual, found, jobs, printers, fleets)))
}

/// The jobs that words name.
fn jobs_of<'a>(
    alloc: Global,
    given: &'a [Word],
    found: &ArgMatches<'a>,
) -> Result<Vec<&'a [u8]>, AllocError> {
    let mut jobs = Vec::new(alloc);
    if let Some(job) = found.get_str("JOB") {
        jobs.push(bytes_of(given, job))?;
    }
    if names_printers(found) {
        push_jobs(&mut jobs, given, found.get_strs("PROFILE").unwrap_or(&[]))?;
    }
    Ok(jobs)
}

/// The printers that words name.
fn printers_of<'a>(alloc: Global, found: &ArgMatches<'a>) -> Result<Vec<&'a str>, AllocError> {
    let id = if names_printers(found) {
        "PRINTER"
    } else {
        "PROFILE"
    };
    texts_of(alloc, found, id)
}

/// What words ask for of these jobs, for these printers and those of these fleets.
fn many_words<'a>(
    usual: Form,
    found: &ArgMatches<'a>,
    jobs: Vec<&'a [u8]>,
    printers: Vec<&'a str>,
    fleets: Vec<&'a str>,
) -> ManyWords<'a>
    requires { printers.items ++ fleets.items ≢ [] }
    ensures { NamesPrinter result }
{
    ManyWords {
        jobs,
        names_from: found.get_str("NAMES"),
        allows_empty: found.get_flag("EMPTY"),
        printers,
        fleets,
        most_items: found.get_one::<u64>("MOST"),
        is_each: found.get_flag("EACH"),
        tells_notes: found.get_flag("NOTES"),
        exit_zero: found.get_flag("ZERO"),
        passes_unchecked: counts_as_pass(found.get_str("COUNT")),
        form: form_asked(found).unwrap_or(usual),
        explains: found.get_flag("EXPLAIN"),
        documents: found.get_str("PDF"),
    }
}

/// Whether a job that pclcheck cannot judge counts as one that passes.
fn counts_as_pass(word: Option<&str>) -> bool {
    matches!(word, Some("pass"))
}

/// Appends the jobs that texts name.
fn push_jobs<'a>(
    jobs: &mut Vec<&'a [u8]>,
    given: &'a [Word],
    texts: &[&'a str],
) -> Result<(), AllocError> {
    for text in texts {
        jobs.push(bytes_of(given, text))?;
    }
    Ok(())
}
