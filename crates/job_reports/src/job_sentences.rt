//! The sentence of a job, in a check of many.
ghost use Rattle.std.specs.Prelude.{◌≡◌, ◌++◌, OnOk, option_map};
ghost use Rattle.job_reports.specs.JobSentences.{
  left_phrase,
  top_phrase,
};
ghost use Rattle.job_reports.specs.JobSentences.{
  IsOfParts,
  IsSentence,
  answer_phrase,
  at_command,
  begins_character,
  cause_phrase,
  error_phrase,
  fails_where,
  few_words,
  first_of,
  font_behind,
  font_phrase,
  for_each,
  for_printer,
  from_character,
  is_bad_value,
  job_claim,
  job_sentence,
  lacked,
  last_of,
  named_first,
  on_page,
  on_sheet,
  place_phrase,
  reason_phrase,
  refusal,
  subject,
  verdict_phrase,
  what_fails,
};
ghost use Rattle.job_reports.specs.RefusedNames.{value_key};
ghost use Rattle.job_reports.specs.Reports.{Reported, number_told, verdict_told};

use crate::command_words::{push_command_words, push_font_commands};
use crate::kind::{Kind, kind_of};
use crate::left_out::{LeftOut, left_out_of, value_words};
use crate::refused_names::push_called;
use crate::reports::Report;
use device_profile::FontRequest;
use judgement::{FailingItem, MissingFont, SheetSpot};
use line_words::{push_escaped, push_named, push_reason, short_reason};
use page_env::Finding;
use requests::error_words;
use shown_bytes::{push_millimetres, push_shown, push_shown_text};
use std::alloc::{AllocError, Allocator};
use streams::Error;
use verdict::{Reason, Verdict};

/// Appends the sentence of a job: its name, what came of it, and for which printer.
pub fn push_job_sentence<A: Allocator + Copy>(
    alloc: A,
    line: &mut Vec<u8, A>,
    report: &Report<'_, '_, A>,
) -> Result<(), AllocError>
    ensures { OnOk result (line.new.items ≡ line.old.items ++ job_sentence report.now) }
{
    push_named_first(alloc, line, report.job)?;
    push_answer(alloc, line, report)?;
    line.extend_from_slice(b"\n")
}

/// Appends the name of what a sentence is about; of a long one the end, which tells more.
pub fn push_named_first<A: Allocator, B: Allocator>(
    alloc: B,
    line: &mut Vec<u8, A>,
    name: &[u8],
) -> Result<(), AllocError>
    ensures { OnOk result (line.new.items ≡ line.old.items ++ named_first name.now) }
{
    let mut shown = Vec::new(alloc);
    push_shown_text(&mut shown, name)?;
    push_last_of(line, 500, shown.as_slice())?;
    line.extend_from_slice(b": ")
}

/// Appends what came of a job.
fn push_answer<A: Allocator + Copy>(
    alloc: A,
    line: &mut Vec<u8, A>,
    report: &Report<'_, '_, A>,
) -> Result<(), AllocError>
    ensures { OnOk result (line.new.items ≡ line.old.items ++
        answer_phrase report.now (verdict_told report.now.answer)) }
{
    match report.verdict() {
        Ok(verdict) => {
            push_claim(line, report)?;
            let at = Place {
                page: report.page(),
                cursor: report.cursor(),
                font: report.font(),
                failing_item: report.failing_item(),
            };
            push_verdict(alloc, line, at, verdict)
        }
        Err(error) => push_error(alloc, line, error, report),
    }
}

// ---- a verdict

/// Appends who says what of a job.
fn push_claim<A: Allocator>(
    line: &mut Vec<u8, A>,
    report: &Report<'_, '_, A>,
) -> Result<(), AllocError>
    ensures { OnOk result (line.new.items ≡ line.old.items ++ job_claim report.now) }
{
    match report.verdict() {
        Ok(Verdict::Pass { .. }) => {
            push_subject(line, report)?;
            line.extend_from_slice(b" prints this job")
        }
        Ok(Verdict::Fail { finding, .. }) => {
            push_refusal(line, report, kind_of(finding, report.failing_item()))
        }
        Err(_) => Ok(()),
    }
}

/// Appends who says no.
fn push_refusal<A: Allocator>(
    line: &mut Vec<u8, A>,
    report: &Report<'_, '_, A>,
    kind: Kind,
) -> Result<(), AllocError>
    ensures { OnOk result (line.new.items ≡ line.old.items ++ refusal kind
        (subject report.now.names
        (number_told report.now.is_each (verdict_told report.now.answer)))
        (for_each report.now.is_each report.now.names)) }
{
    match kind {
        Kind::Unchecked => {
            line.extend_from_slice(b"pclcheck cannot judge this job")?;
            push_for_each(line, report)
        }
        Kind::Wrong => {
            line.extend_from_slice(b"this job is wrong")?;
            push_for_each(line, report)
        }
        Kind::Printer | Kind::Panel | Kind::Differs => {
            push_subject(line, report)?;
            line.extend_from_slice(b" refuses this job")
        }
    }
}

/// Appends the printer that this is about, where each has a sentence of its own.
fn push_for_each<A: Allocator>(
    line: &mut Vec<u8, A>,
    report: &Report<'_, '_, A>,
) -> Result<(), AllocError>
    ensures { OnOk result (line.new.items ≡ line.old.items ++
        for_each report.now.is_each report.now.names) }
{
    if !report.printers.is_each() {
        return Ok(());
    }
    line.extend_from_slice(b" for ")?;
    line.extend_from_slice(report.printers.first_name())
}

/// Appends whose verdict this is: the printer's that it is about, or each one's.
fn push_subject<A: Allocator>(
    line: &mut Vec<u8, A>,
    report: &Report<'_, '_, A>,
) -> Result<(), AllocError>
    ensures { OnOk result (line.new.items ≡ line.old.items ++ subject report.now.names
        (number_told report.now.is_each (verdict_told report.now.answer))) }
{
    if report.number_told() == 0 {
        return line.extend_from_slice(b"each printer");
    }
    line.extend_from_slice(report.printer_name())
}

/// Where a job fails.
#[derive(Clone, Copy)]
struct Place {
    page: Option<u64>,
    cursor: Option<SheetSpot>,
    font: Option<MissingFont>,
    failing_item: Option<FailingItem>,
}

/// Appends what stands behind the claim.
fn push_verdict<A: Allocator + Copy>(
    alloc: A,
    line: &mut Vec<u8, A>,
    at: Place,
    verdict: Verdict,
) -> Result<(), AllocError>
    ensures { OnOk result (line.new.items ≡ line.old.items ++
        verdict_phrase (fails_where at.page at.cursor at.font at.failing_item) verdict) }
{
    match verdict {
        Verdict::Pass { pages, marks } => {
            push_named(line, b" (pages=", pages)?;
            push_named(line, b" marks=", marks)?;
            line.extend_from_slice(b")")
        }
        Verdict::Fail { place, finding, .. } => {
            push_place(line, place, at)?;
            push_what_fails(alloc, line, at.failing_item, finding)?;
            push_reason_phrase(line, left_out_of(at.failing_item), at.font, finding)
        }
    }
}

/// Appends the byte at which a job fails, and what is known of its place on paper.
fn push_place<A: Allocator>(line: &mut Vec<u8, A>, place: u64, at: Place) -> Result<(), AllocError>
    ensures { OnOk result (line.new.items ≡ line.old.items ++
        place_phrase place at.page at.cursor) }
{
    push_named(line, b" at byte ", place)?;
    push_on_page(line, at.page)?;
    push_on_sheet(line, at.cursor)
}

/// Appends the page that is open where a job fails, if that is known.
fn push_on_page<A: Allocator>(line: &mut Vec<u8, A>, page: Option<u64>) -> Result<(), AllocError>
    ensures { OnOk result (line.new.items ≡ line.old.items ++ on_page page) }
{
    match page {
        Some(page) => push_named(line, b" on page ", page),
        None => Ok(()),
    }
}

/// Appends how far a place is from the left edge of the sheet, in ticks.
#[tactic(auto, unfolding(crate::specs::JobSentences::left_phrase))]
fn push_left<A: Allocator>(line: &mut Vec<u8, A>, x: i64) -> Result<(), AllocError>
    ensures { OnOk result (line.new.items ≡ line.old.items ++ left_phrase x) }
{
    line.extend_from_slice(b", ")?;
    push_millimetres(line, x)?;
    line.extend_from_slice(b" mm from the left")
}

/// Appends how far a place is from the upper edge of the sheet, in ticks.
#[tactic(auto, unfolding(crate::specs::JobSentences::top_phrase))]
fn push_top<A: Allocator>(line: &mut Vec<u8, A>, y: i64) -> Result<(), AllocError>
    ensures { OnOk result (line.new.items ≡ line.old.items ++ top_phrase y) }
{
    line.extend_from_slice(b" and ")?;
    push_millimetres(line, y)?;
    line.extend_from_slice(b" mm from the top")
}

/// Appends where the cursor stood on the sheet, if that is known.
fn push_on_sheet<A: Allocator>(
    line: &mut Vec<u8, A>,
    cursor: Option<SheetSpot>,
) -> Result<(), AllocError>
    ensures { OnOk result (line.new.items ≡ line.old.items ++ on_sheet cursor) }
{
    match cursor {
        Some(spot) => {
            push_left(line, spot.x)?;
            push_top(line, spot.y)
        }
        None => Ok(()),
    }
}

/// Appends the item that a job fails at, and what HP's manual calls what is not checked.
fn push_what_fails<A: Allocator + Copy>(
    alloc: A,
    line: &mut Vec<u8, A>,
    failing_item: Option<FailingItem>,
    reason: Reason,
) -> Result<(), AllocError>
    ensures { OnOk result (line.new.items ≡ line.old.items ++
        what_fails (at_command failing_item) (value_key failing_item) reason) }
{
    push_at_command(alloc, line, failing_item)?;
    push_called(alloc, line, failing_item, reason)
}

/// Appends the item that a job fails at, where there is one.
fn push_at_command<A: Allocator + Copy>(
    alloc: A,
    line: &mut Vec<u8, A>,
    failing_item: Option<FailingItem>,
) -> Result<(), AllocError>
    ensures { OnOk result (line.new.items ≡ line.old.items ++ at_command failing_item) }
{
    match failing_item {
        Some(failing_item) => {
            line.extend_from_slice(b", ")?;
            push_command_words(alloc, line, failing_item)
        }
        None => Ok(()),
    }
}

/// Appends what is wrong, in words and as a line has it.
fn push_reason_phrase<A: Allocator>(
    line: &mut Vec<u8, A>,
    left_out: Option<LeftOut>,
    font: Option<MissingFont>,
    reason: Reason,
) -> Result<(), AllocError>
    ensures { OnOk result (line.new.items ≡ line.old.items ++
        reason_phrase left_out font reason) }
{
    line.extend_from_slice(b": ")?;
    line.extend_from_slice(few_words(left_out, reason))?;
    push_lacked(line, font, reason)?;
    line.extend_from_slice(b" (")?;
    push_reason(line, reason)?;
    line.extend_from_slice(b")")
}

/// Why a job fails, in a few words.
fn few_words(left_out: Option<LeftOut>, reason: Reason) -> &'static [u8]
    ensures { result.now ≡ few_words left_out reason }
{
    if is_bad_value(reason) {
        value_words(left_out)
    } else {
        short_reason(reason)
    }
}

/// Appends the commands that ask for a font, if there is one, behind these words.
fn push_font_behind<A: Allocator>(
    line: &mut Vec<u8, A>,
    words: &[u8],
    font: Option<FontRequest>,
) -> Result<(), AllocError>
    ensures { OnOk result (line.new.items ≡ line.old.items ++ font_behind words.now font) }
{
    match font {
        Some(font) => {
            line.extend_from_slice(words)?;
            push_font_commands(line, &font)
        }
        None => Ok(()),
    }
}

/// Appends the font that is asked for, and what selects the nearest face, if that is known.
fn push_missing_font<A: Allocator>(
    line: &mut Vec<u8, A>,
    font: Option<MissingFont>,
) -> Result<(), AllocError>
    ensures { OnOk result (line.new.items ≡ line.old.items ++ font_phrase font) }
{
    match font {
        Some(font) => {
            push_font_behind(line, b", ", Some(font.asked))?;
            push_font_behind(line, b"; the nearest is ", font.nearest)
        }
        None => Ok(()),
    }
}

/// Appends the font that no face answers, or the character that a face lacks, where that is what is
/// wrong.
fn push_lacked<A: Allocator>(
    line: &mut Vec<u8, A>,
    font: Option<MissingFont>,
    reason: Reason,
) -> Result<(), AllocError>
    ensures { OnOk result (line.new.items ≡ line.old.items ++ lacked font reason) }
{
    match reason {
        Reason::Finding(Finding::NoFont) => push_missing_font(line, font),
        Reason::Finding(Finding::NoGlyph(code)) => {
            line.push(b' ')?;
            push_escaped(line, &[code])
        }
        _ => Ok(()),
    }
}

/// Whether an item has a value that it does not take.
fn is_bad_value(reason: Reason) -> bool
    ensures { result ≡ is_bad_value reason }
{
    matches!(reason, Reason::Finding(Finding::BadValue))
}

// ---- no verdict

/// Appends why a job has no verdict.
fn push_error<A: Allocator + Copy>(
    alloc: A,
    line: &mut Vec<u8, A>,
    error: Error,
    report: &Report<'_, '_, A>,
) -> Result<(), AllocError>
    requires { verdict_told report.now.answer ≡ Err error }
    ensures { OnOk result (line.new.items ≡ line.old.items ++
        answer_phrase report.now (Err error)) }
{
    line.extend_from_slice(error_phrase(error))?;
    push_for_printer(line, report)?;
    push_cause_phrase(alloc, line, report.cause)?;
    line.extend_from_slice(b" (")?;
    line.extend_from_slice(error_words(error))?;
    line.extend_from_slice(b")")
}

fn error_phrase(error: Error) -> &'static [u8]
    ensures { result.now ≡ error_phrase error }
{
    match error {
        Error::Memory => b"there is no memory to check this job",
        Error::Read => b"this job cannot be read",
        Error::Write => b"nothing can be written",
        Error::Turns => b"this job does not end",
        Error::NoProfile => b"there is no printer",
        Error::Items => b"macros pass the limit of --most-items",
    }
}

/// Appends the printer that this is about, where it is about one.
fn push_for_printer<A: Allocator>(
    line: &mut Vec<u8, A>,
    report: &Report<'_, '_, A>,
) -> Result<(), AllocError>
    ensures { OnOk result (line.new.items ≡ line.old.items ++ for_printer report.now.names
        (number_told report.now.is_each (verdict_told report.now.answer))) }
{
    if report.number_told() == 0 {
        return Ok(());
    }
    line.extend_from_slice(b" for ")?;
    line.extend_from_slice(report.printer_name())
}

/// Appends what the system says of a read that failed, and not more of it than a sentence has room
/// for.
pub fn push_cause_phrase<A: Allocator + Copy>(
    alloc: A,
    line: &mut Vec<u8, A>,
    cause: Option<&[u8]>,
) -> Result<(), AllocError>
    ensures { OnOk result (line.new.items ≡ line.old.items ++
        cause_phrase (option_map (λ words. words.now) cause.entry)) }
{
    match cause {
        Some(words) => {
            let mut shown = Vec::new(alloc);
            push_shown(&mut shown, words)?;
            line.extend_from_slice(b": ")?;
            push_first_of(line, 200, shown.as_slice())
        }
        None => Ok(()),
    }
}

// ---- what is long, in part

/// Appends a text; of one that is longer than this the end, from a character on that is whole.
fn push_last_of<A: Allocator>(
    line: &mut Vec<u8, A>,
    most: usize,
    text: &[u8],
) -> Result<(), AllocError>
    ensures { OnOk result (line.new.items ≡ line.old.items ++ last_of most text.now) }
{
    if text.len() <= most {
        return line.extend_from_slice(text);
    }
    line.extend_from_slice(b"...")?;
    line.extend_from_slice(from_character(&text[text.len() - most..]))
}

/// A text from the first byte on that begins a character.
fn from_character(text: &[u8]) -> &[u8]
    ensures { result.now ≡ from_character text.now }
{
    for (start, byte) in text.iter().enumerate() {
        if begins_character(*byte) {
            return &text[start..];
        }
    }
    &[]
}

/// Whether a byte is the first of a character of UTF-8.
fn begins_character(byte: u8) -> bool
    ensures { result ≡ begins_character byte }
{
    byte < 128 || 192 <= byte
}

/// Appends a text; of one that is longer than this the beginning.
fn push_first_of<A: Allocator>(
    line: &mut Vec<u8, A>,
    most: usize,
    text: &[u8],
) -> Result<(), AllocError>
    ensures { OnOk result (line.new.items ≡ line.old.items ++ first_of most text.now) }
{
    if text.len() <= most {
        return line.extend_from_slice(text);
    }
    line.extend_from_slice(&text[..most])?;
    line.extend_from_slice(b"...")
}

// ---- how long a sentence is

/// A sentence has at most 1,200 bytes, of which none but the last is a control code. Names of
/// printers have at most 32, and a long name of a job or of a cause stands in part.
pub fn sentences_are_short()
    ensures { (report : Reported) → IsOfParts report → IsSentence (job_sentence report) }
{}
