//! The object of a job, in a check of many: a line of JSON.
ghost use Rattle.std.specs.Prelude.{◌≡◌, ◌++◌, IfOk, OnOk, option_map};
ghost use Rattle.many_jobs.specs.JobObjects.{
  error_name,
  job_object,
  report_members,
  with_answer,
  with_character,
  with_command,
  with_command_name,
  with_cursor,
  with_error,
  with_explanation,
  with_fail,
  with_field,
  with_font,
  with_kind,
  with_missing_font,
  with_page,
  with_pass,
  with_printer,
};
ghost use Rattle.many_jobs.specs.JsonObject.{members_of};
ghost use Rattle.job_reports.specs.RefusedNames.{refused_name, value_key};
ghost use Rattle.job_reports.specs.Reports.{number_told, verdict_told};

use crate::json_object::Object;
use device_profile::FontRequest;
use job_reports::{
    Kind, Report, kind_of, push_command_words, push_font_commands, push_refused_name,
};
use judgement::{FailingItem, MissingFont, SheetSpot};
use line_words::{bare_name, push_escaped, push_field_words};
use page_env::Finding;
use shown_bytes::push_millimetres;
use std::alloc::{AllocError, Allocator, Global};
use streams::Error;
use verdict::{Reason, Verdict};

/// Appends the object of a job: its name, what came of it, for which printer, and this explanation,
/// where there is one.
pub fn push_job_object<A: Allocator + Copy>(
    alloc: A,
    memory: Global,
    line: &mut Vec<u8, A>,
    report: &Report<'_, '_, A>,
    explanation: &str,
) -> Result<(), AllocError>
    ensures { OnOk result (line.new.items
        ≡ line.old.items ++ job_object explanation.now report.now) }
{
    let object = report_object(alloc, memory, report, explanation)?;
    let text = object.into_text()?;
    line.extend_from_slice(text.as_bytes())?;
    line.push(b'\n')?;
    Ok(())
}

/// What is told of a job.
fn report_object<A: Allocator + Copy>(
    alloc: A,
    memory: Global,
    report: &Report<'_, '_, A>,
    explanation: &str,
) -> Result<Object, AllocError>
    ensures { IfOk result (λ object. members_of object
        ≡ report_members explanation.now report.now) }
{
    let mut object = Object::new(memory);
    object.put_name("job", report.job)?;
    put_printer(&mut object, report)?;
    put_answer(alloc, &mut object, report, explanation)?;
    Ok(object)
}

/// Puts the name of the printer that this is about.
fn put_printer<A: Allocator>(
    object: &mut Object,
    report: &Report<'_, '_, A>,
) -> Result<(), AllocError>
    ensures { OnOk result (members_of object.new ≡ with_printer report.now.names
        (number_told report.now.is_each (verdict_told report.now.answer)) (members_of object.old)) }
{
    if report.number_told() == 0 {
        return Ok(());
    }
    object.put_name("printer", report.printer_name())
}

/// Puts what came of a job.
fn put_answer<A: Allocator + Copy>(
    alloc: A,
    object: &mut Object,
    report: &Report<'_, '_, A>,
    explanation: &str,
) -> Result<(), AllocError>
    ensures { OnOk result (members_of object.new ≡ with_answer explanation.now report.now
        (verdict_told report.now.answer) (members_of object.old)) }
{
    match report.verdict() {
        Ok(Verdict::Pass { pages, marks }) => put_pass(object, pages, marks),
        Ok(
            Verdict::Fail {
                place,
                profile,
                finding,
            },
        ) => {
            put_fail(alloc, object, place, profile, finding)?;
            put_kind(object, kind_of(finding, report.failing_item()))?;
            put_page(object, report.page())?;
            put_cursor(alloc, object, report.cursor())?;
            put_missing_font(alloc, object, report.font())?;
            put_character(alloc, object, finding)?;
            put_command(alloc, object, report.failing_item())?;
            put_command_name(alloc, object, report.failing_item(), finding)?;
            put_explanation(object, explanation)
        }
        Err(error) => put_error(object, error, report.cause),
    }
}

fn put_pass(object: &mut Object, pages: u64, marks: u64) -> Result<(), AllocError>
    ensures { OnOk result (members_of object.new ≡ with_pass pages marks (members_of object.old)) }
{
    object.put_text("verdict", "PASS")?;
    object.put_number("pages", pages)?;
    object.put_number("marks", marks)
}

/// Puts where a job fails, for which profile, and why.
fn put_fail<A: Allocator>(
    alloc: A,
    object: &mut Object,
    place: u64,
    profile: u64,
    finding: Reason,
) -> Result<(), AllocError>
    ensures { OnOk result (members_of object.new
        ≡ with_fail place profile finding (members_of object.old)) }
{
    object.put_text("verdict", "FAIL")?;
    object.put_number("at", place)?;
    object.put_number("profile", profile)?;
    object.put_number("code", u64::from(finding.number()))?;
    object.put_words("finding", bare_name(finding))?;
    put_field(alloc, object, finding)
}

/// Puts what stands in brackets behind the name of a finding, where there is such.
fn put_field<A: Allocator>(alloc: A, object: &mut Object, finding: Reason) -> Result<(), AllocError>
    ensures { OnOk result (members_of object.new ≡ with_field finding (members_of object.old)) }
{
    let mut words = Vec::new(alloc);
    push_field_words(&mut words, finding)?;
    if words.is_empty() {
        return Ok(());
    }
    object.put_words("field", words.as_slice())
}

/// Puts who says no.
fn put_kind(object: &mut Object, kind: Kind) -> Result<(), AllocError>
    ensures { OnOk result (members_of object.new ≡ with_kind kind (members_of object.old)) }
{
    object.put_text("kind", kind.name())
}

/// Puts the page that is open where a job fails, if that is known.
fn put_page(object: &mut Object, page: Option<u64>) -> Result<(), AllocError>
    ensures { OnOk result (members_of object.new ≡ with_page page (members_of object.old)) }
{
    match page {
        Some(page) => object.put_number("page", page),
        None => Ok(()),
    }
}

/// Puts where the cursor stood, if that is known.
fn put_cursor<A: Allocator>(
    alloc: A,
    object: &mut Object,
    cursor: Option<SheetSpot>,
) -> Result<(), AllocError>
    ensures { OnOk result (members_of object.new ≡ with_cursor cursor (members_of object.old)) }
{
    match cursor {
        Some(spot) => {
            let mut words = Vec::new(alloc);
            push_millimetres(&mut words, spot.x)?;
            object.put_words("x_mm", words.as_slice())?;
            words.clear();
            push_millimetres(&mut words, spot.y)?;
            object.put_words("y_mm", words.as_slice())
        }
        None => Ok(()),
    }
}

/// Puts the font that no face answers, and what selects the nearest, where a font is missing.
fn put_missing_font<A: Allocator>(
    alloc: A,
    object: &mut Object,
    font: Option<MissingFont>,
) -> Result<(), AllocError>
    ensures { OnOk result (members_of object.new ≡
        with_missing_font font (members_of object.old)) }
{
    match font {
        Some(font) => {
            let mut words = Vec::new(alloc);
            put_font(object, "asked", Some(font.asked), &mut words)?;
            put_font(object, "nearest", font.nearest, &mut words)
        }
        None => Ok(()),
    }
}

/// Puts the commands that ask for a font, if there is one, which are written here.
fn put_font<A: Allocator>(
    object: &mut Object,
    key: &str,
    font: Option<FontRequest>,
    words: &mut Vec<u8, A>,
) -> Result<(), AllocError>
    ensures { OnOk result (members_of object.new ≡
        with_font key.now font (members_of object.old)) }
{
    match font {
        Some(font) => {
            words.clear();
            push_font_commands(words, &font)?;
            object.put_words(key, words.as_slice())
        }
        None => Ok(()),
    }
}

/// Puts the character that a face lacks, where that is what is wrong.
fn put_character<A: Allocator>(
    alloc: A,
    object: &mut Object,
    finding: Reason,
) -> Result<(), AllocError>
    ensures { OnOk result (members_of object.new ≡
        with_character finding (members_of object.old)) }
{
    match finding {
        Reason::Finding(Finding::NoGlyph(code)) => {
            let mut words = Vec::new(alloc);
            push_escaped(&mut words, &[code])?;
            object.put_words("character", words.as_slice())
        }
        _ => Ok(()),
    }
}

/// Puts the item that a job fails at, where there is one.
fn put_command<A: Allocator + Copy>(
    alloc: A,
    object: &mut Object,
    failing_item: Option<FailingItem>,
) -> Result<(), AllocError>
    ensures { OnOk result (members_of object.new ≡ with_command failing_item
        (members_of object.old)) }
{
    match failing_item {
        Some(failing_item) => {
            let mut words = Vec::new(alloc);
            push_command_words(alloc, &mut words, failing_item)?;
            object.put_words("command", words.as_slice())
        }
        None => Ok(()),
    }
}

/// Puts what HP's manual calls what is not checked, where it has a name for it.
fn put_command_name<A: Allocator + Copy>(
    alloc: A,
    object: &mut Object,
    failing_item: Option<FailingItem>,
    finding: Reason,
) -> Result<(), AllocError>
    ensures { OnOk result (members_of object.new ≡ with_command_name
        (refused_name (value_key failing_item) finding) (members_of object.old)) }
{
    let mut name = Vec::new(alloc);
    push_refused_name(alloc, &mut name, failing_item, finding)?;
    if name.is_empty() {
        return Ok(());
    }
    object.put_words("command_name", name.as_slice())
}

/// Puts an explanation, where there is one.
pub fn put_explanation(object: &mut Object, explanation: &str) -> Result<(), AllocError>
    ensures { OnOk result (members_of object.new
        ≡ with_explanation explanation.now (members_of object.old)) }
{
    if explanation.is_empty() {
        return Ok(());
    }
    object.put_text("explanation", explanation)
}

/// Puts why a job has no verdict.
fn put_error(object: &mut Object, error: Error, cause: Option<&[u8]>) -> Result<(), AllocError>
    ensures { OnOk result (members_of object.new ≡ with_error error
        (option_map (λ words. words.now) cause.entry) (members_of object.old)) }
{
    object.put_text("verdict", "ERROR")?;
    object.put_text("error", error_name(error))?;
    match cause {
        Some(words) => object.put_name("cause", words),
        None => Ok(()),
    }
}

fn error_name(error: Error) -> &'static str
    ensures { result.now ≡ error_name error }
{
    match error {
        Error::Memory => "memory",
        Error::Read => "read",
        Error::Write => "write",
        Error::Turns => "turns",
        Error::NoProfile => "no profile",
        Error::Items => "items",
    }
}
