//! The head of a job's row: its verdict, its sentence, and where it fails.
ghost use Rattle.std.specs.Prelude.{◌≡◌, ◌++◌, OnOk};
ghost use Rattle.job_rows.specs.Heads.{badges, details_start, explanation_part, fail_badges};
ghost use Rattle.job_rows.specs.Heads.{note_part, page_badge, printer_part, row_head, row_start};
ghost use Rattle.job_rows.specs.Heads.{sentence_part, summary_start, verdict_class, verdict_name};
ghost use Rattle.job_reports.specs.Reports.{number_told, verdict_told};

use crate::escapes::push_html;
use job_reports::{Kind, Report, kind_of, push_job_sentence};
use line_words::push_named;
use std::alloc::{AllocError, Allocator};
use streams::Error;
use verdict::Verdict;

/// Appends the head of a row, with this explanation, where there is one.
pub(crate) fn push_row_head<A: Allocator + Copy>(
    alloc: A,
    text: &mut Vec<u8, A>,
    report: &Report<'_, '_, A>,
    explanation: &str,
) -> Result<(), AllocError>
    ensures { OnOk result (text.new.items ≡ text.old.items ++
        row_head explanation.now report.now) }
{
    push_row_start(text, report)?;
    push_sentence(alloc, text, report)?;
    push_badges(text, report)?;
    text.extend_from_slice(b"</summary>\n")?;
    push_explanation(text, explanation.as_bytes())
}

/// By which the style and the filter tell rows apart.
fn verdict_class(answer: Result<Verdict, Error>) -> &'static [u8]
    ensures { result.now ≡ verdict_class answer }
{
    match answer {
        Ok(Verdict::Pass { .. }) => b"pass",
        Ok(Verdict::Fail { .. }) => b"fail",
        Err(_) => b"error",
    }
}

fn verdict_name(answer: Result<Verdict, Error>) -> &'static [u8]
    ensures { result.now ≡ verdict_name answer }
{
    match answer {
        Ok(Verdict::Pass { .. }) => b"PASS",
        Ok(Verdict::Fail { .. }) => b"FAIL",
        Err(_) => b"ERROR",
    }
}

/// Appends what can be opened, and its verdict.
fn push_row_start<A: Allocator>(
    text: &mut Vec<u8, A>,
    report: &Report<'_, '_, A>,
) -> Result<(), AllocError>
    ensures { OnOk result (text.new.items ≡ text.old.items ++ row_start report.now) }
{
    push_details_start(text, report)?;
    push_summary_start(text, report.verdict())
}

/// Appends how what can be opened begins.
#[tactic(auto, unfolding(crate::specs::Heads::details_start))]
fn push_details_start<A: Allocator>(
    text: &mut Vec<u8, A>,
    report: &Report<'_, '_, A>,
) -> Result<(), AllocError>
    ensures { OnOk result (text.new.items ≡ text.old.items ++ details_start report.now) }
{
    text.extend_from_slice(b"<details class=\"")?;
    text.extend_from_slice(verdict_class(report.verdict()))?;
    text.extend_from_slice(b"\" data-printer=\"")?;
    push_printer(text, report)?;
    text.extend_from_slice(b"\">\n")
}

/// Appends the verdict.
#[tactic(auto, unfolding(crate::specs::Heads::summary_start))]
fn push_summary_start<A: Allocator>(
    text: &mut Vec<u8, A>,
    answer: Result<Verdict, Error>,
) -> Result<(), AllocError>
    ensures { OnOk result (text.new.items ≡ text.old.items ++ summary_start answer) }
{
    text.extend_from_slice(b"<summary><b>")?;
    text.extend_from_slice(verdict_name(answer))?;
    text.extend_from_slice(b"</b> ")
}

/// Appends the name of the printer that this is about, where it is about one alone.
fn push_printer<A: Allocator>(
    text: &mut Vec<u8, A>,
    report: &Report<'_, '_, A>,
) -> Result<(), AllocError>
    ensures { OnOk result (text.new.items ≡ text.old.items ++ printer_part report.now.names
        (number_told report.now.is_each (verdict_told report.now.answer))) }
{
    if report.number_told() == 0 {
        return Ok(());
    }
    push_html(text, report.printer_name())
}

/// Appends the sentence of a job.
#[tactic(auto, unfolding(crate::specs::Heads::sentence_part))]
fn push_sentence<A: Allocator + Copy>(
    alloc: A,
    text: &mut Vec<u8, A>,
    report: &Report<'_, '_, A>,
) -> Result<(), AllocError>
    ensures { OnOk result (text.new.items ≡ text.old.items ++ sentence_part report.now) }
{
    let mut sentence = Vec::new(alloc);
    push_job_sentence(alloc, &mut sentence, report)?;
    text.extend_from_slice(b"<span>")?;
    push_html(text, sentence.as_slice())?;
    text.extend_from_slice(b"</span>")
}

// ---- badges

/// Appends how many pages a job has, or where it fails.
fn push_badges<A: Allocator>(
    text: &mut Vec<u8, A>,
    report: &Report<'_, '_, A>,
) -> Result<(), AllocError>
    ensures { OnOk result (text.new.items ≡ text.old.items ++
        badges report.now (verdict_told report.now.answer)) }
{
    match report.verdict() {
        Ok(Verdict::Pass { pages, .. }) => {
            push_named(text, b" <i>pages ", pages)?;
            text.extend_from_slice(b"</i>")
        }
        Ok(Verdict::Fail { place, finding, .. }) => {
            let kind = kind_of(finding, report.failing_item());
            push_fail_badges(text, kind, report.page(), place)
        }
        Err(_) => Ok(()),
    }
}

/// Appends who says no, the page that is open there, and the byte.
#[tactic(auto, unfolding(crate::specs::Heads::fail_badges))]
fn push_fail_badges<A: Allocator>(
    text: &mut Vec<u8, A>,
    kind: Kind,
    page: Option<u64>,
    place: u64,
) -> Result<(), AllocError>
    ensures { OnOk result (text.new.items ≡ text.old.items ++ fail_badges kind page place) }
{
    text.extend_from_slice(b" <i>")?;
    text.extend_from_slice(kind.name().as_bytes())?;
    text.extend_from_slice(b"</i>")?;
    push_page_badge(text, page)?;
    push_named(text, b" <i>byte ", place)?;
    text.extend_from_slice(b"</i>")
}

/// Appends the page, where it is known.
#[tactic(auto, unfolding(crate::specs::Heads::page_badge))]
fn push_page_badge<A: Allocator>(text: &mut Vec<u8, A>, page: Option<u64>) -> Result<(), AllocError>
    ensures { OnOk result (text.new.items ≡ text.old.items ++ page_badge page) }
{
    match page {
        Some(page) => {
            push_named(text, b" <i>page ", page)?;
            text.extend_from_slice(b"</i>")
        }
        None => Ok(()),
    }
}

// ---- what stands open

/// Appends an explanation, where there is one.
#[tactic(auto, unfolding(crate::specs::Heads::explanation_part))]
fn push_explanation<A: Allocator>(
    text: &mut Vec<u8, A>,
    explanation: &[u8],
) -> Result<(), AllocError>
    ensures { OnOk result (text.new.items ≡ text.old.items ++ explanation_part explanation.now) }
{
    if explanation.is_empty() {
        return Ok(());
    }
    text.extend_from_slice(b"<pre>")?;
    push_html(text, explanation)?;
    text.extend_from_slice(b"</pre>\n")
}

/// Appends the sentence of a note, with this explanation, where there is one.
#[tactic(auto, unfolding(crate::specs::Heads::note_part))]
pub fn push_note<A: Allocator>(
    text: &mut Vec<u8, A>,
    sentence: &[u8],
    explanation: &str,
) -> Result<(), AllocError>
    ensures { OnOk result (text.new.items ≡ text.old.items ++
        note_part explanation.now sentence.now) }
{
    text.extend_from_slice(b"<p>")?;
    push_html(text, sentence)?;
    text.extend_from_slice(b"</p>\n")?;
    push_explanation(text, explanation.as_bytes())
}
