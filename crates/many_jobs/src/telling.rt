//! How it is told what came of a job.
ghost use Rattle.std.specs.Prelude.{◌≡◌, ◌++◌, OnOk, map};
ghost use Rattle.job_reports.specs.Reports.{verdict_told};
ghost use Rattle.job_rows.specs.Rows.{row_text};
ghost use Rattle.many_jobs.specs.Asked.{told_by};
ghost use Rattle.many_jobs.specs.Telling.{explained, is_html, no_parts, report_text};

use crate::job_objects::push_job_object;
use job_reports::{Report, push_job_line, push_job_sentence};
use job_rows::{RowParts, push_row};
use meanings::explain::explained_by;
use std::alloc::{AllocError, Allocator, Global};
use streams::Error;
use verdict::Verdict;

/// The form of what is told of a job.
#[derive(Clone, Copy)]
pub enum Format {
    /// A line of words and numbers.
    Line,
    /// A sentence.
    Words,
    /// An object of JSON on a line, which is put together in this memory.
    Json(Global),
    /// A row of a document of HTML.
    Html,
}

impl Format {
    /// Whether all is told in one document, a row a job.
    pub(crate) fn is_html(self) -> bool
        ensures { result ≡ is_html self }
    {
        match self {
            Format::Line => false,
            Format::Words => false,
            Format::Json(_) => false,
            Format::Html => true,
        }
    }
}

/// How it is told what came of jobs.
#[derive(Clone, Copy)]
pub struct Telling<'t> {
    pub format: Format,
    /// The explanations of which a FAIL and a note get their own.
    pub explanations: &'t [&'t str],
    /// A FAIL counts as a PASS.
    pub exit_zero: bool,
    /// So does one by which pclcheck alone says no.
    pub passes_unchecked: bool,
    /// The jobs that can be read only once: a document has no page of them.
    pub read_once: &'t [&'t [u8]],
    /// The folder that has a document of the pages of each other job.
    pub documents: Option<&'t str>,
}

/// Appends what is told of a job, and below a line or a sentence, or in a row, the explanation of
/// what is wrong.
pub fn push_report<A: Allocator + Copy>(
    alloc: A,
    line: &mut Vec<u8, A>,
    report: &Report<'_, '_, A>,
    telling: &Telling<'_>,
) -> Result<(), AllocError>
    ensures { OnOk result (line.new.items ≡ line.old.items ++
        report_text (told_by telling.now) report.now) }
{
    let below = explained(telling.explanations, report.verdict());
    match telling.format {
        Format::Line => push_job_line(line, report)?,
        Format::Words => push_job_sentence(alloc, line, report)?,
        Format::Json(memory) => return push_job_object(alloc, memory, line, report, below),
        Format::Html => {
            let none = no_parts();
            return push_row(alloc, line, report, below, &none);
        }
    }
    line.extend_from_slice(below.as_bytes())
}

/// Appends the row of a job of which further readings told this, with the explanation of what is
/// wrong.
pub(crate) fn push_told_row<A: Allocator + Copy>(
    alloc: A,
    line: &mut Vec<u8, A>,
    report: &Report<'_, '_, A>,
    telling: &Telling<'_>,
    parts: &RowParts<'_, A>,
) -> Result<(), AllocError>
    ensures { OnOk result (line.new.items ≡ line.old.items ++ row_text
        (explained (told_by telling.now).explanations (verdict_told report.now.answer))
        report.now parts.now) }
{
    let below = explained(telling.explanations, report.verdict());
    push_row(alloc, line, report, below, parts)
}

/// Nothing is told of a job by further readings.
fn no_parts<A: Allocator>() -> RowParts<'static, A>
    ensures { result ≡ no_parts }
{
    RowParts {
        notes: None,
        near: None,
        page: None,
        is_once: false,
        document: None,
    }
}

/// What these explanations say of what is wrong with a job.
fn explained<'t>(explanations: &[&'t str], answer: Result<Verdict, Error>) -> &'t str
    ensures { result.now ≡ explained (map (λ text. text.now) explanations.now) answer }
{
    match answer {
        Ok(Verdict::Fail { finding, .. }) => explained_by(finding.number(), explanations),
        Ok(Verdict::Pass { .. }) | Err(_) => "",
    }
}
