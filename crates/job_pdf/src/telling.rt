//! What the document says of the job.
ghost use Rattle.std.specs.Prelude.{◌≡◌, ◌++◌, IfOk, None, OnOk, Some};
ghost use Rattle.job_reports.specs.JobSentences.{fails_at};
ghost use Rattle.job_pdf.specs.Plan.{plan_of};
ghost use Rattle.job_pdf.specs.Telling.{sentence, told_failure, told_whole, what_prints};
ghost use Rattle.job_pdf.specs.Telling.{without_line_end};

use crate::wanted::WantedPages;
use job_reports::{Report, push_job_sentence, push_named_first};
use judgement::Judgement;
use requests::DrawnPages;
use shown_bytes::push_number;
use std::alloc::{AllocError, Allocator};
use verdict::{Failure, Verdict};

/// A line without its end.
fn without_line_end(line: &[u8]) -> &[u8]
    ensures { result.now ≡ without_line_end line.now }
{
    match line {
        [front @ .., b'\n'] => front,
        _ => line,
    }
}

/// The sentence on a verdict on the page of this number, as a line.
fn sentence_line<A: Allocator + Copy>(
    alloc: A,
    wanted: &WantedPages<'_, A>,
    page: u64,
    verdict: Verdict,
) -> Result<Vec<u8, A>, AllocError>
    ensures { IfOk result (λ line. line.items ≡ sentence wanted.now.job.now wanted.now.printers.now
        (fails_at (Some page) None) verdict) }
{
    let mut line = Vec::new(alloc);
    let report = Report {
        printers: wanted.printers,
        job: wanted.job,
        answer: Ok(Judgement {
            verdict,
            failing_item: None,
            page: Some(page),
            cursor: None,
            font: None,
        }),
        cause: None,
    };
    push_job_sentence(alloc, &mut line, &report)?;
    Ok(line)
}

/// That the job fails so on the page of this number.
pub(crate) fn told_failure<A: Allocator + Copy>(
    alloc: A,
    wanted: &WantedPages<'_, A>,
    page: u64,
    failure: Failure,
) -> Result<Vec<u8, A>, AllocError>
    ensures { IfOk result (λ told. told.items ≡ told_failure (plan_of wanted.now) page failure) }
{
    let line = sentence_line(alloc, wanted, page, failure.verdict())?;
    let mut told = Vec::new(alloc);
    told.extend_from_slice(without_line_end(line.as_slice()))?;
    Ok(told)
}

/// Appends what is printed, where nothing is wrong with it.
fn push_what_prints<A: Allocator>(
    text: &mut Vec<u8, A>,
    pages: DrawnPages,
) -> Result<(), AllocError>
    ensures { OnOk result (text.new.items ≡ text.old.items ++ what_prints pages) }
{
    match pages {
        DrawnPages::All => text.extend_from_slice(b"this job"),
        DrawnPages::One(number) => {
            text.extend_from_slice(b"page ")?;
            push_number(text, number)
        }
    }
}

/// That these pages print.
pub(crate) fn told_whole<A: Allocator + Copy>(
    alloc: A,
    wanted: &WantedPages<'_, A>,
) -> Result<Vec<u8, A>, AllocError>
    ensures { IfOk result (λ told. told.items ≡ told_whole (plan_of wanted.now)) }
{
    let mut told = Vec::new(alloc);
    push_named_first(alloc, &mut told, wanted.job)?;
    told.extend_from_slice(wanted.printers.first_name())?;
    told.extend_from_slice(b" prints ")?;
    push_what_prints(&mut told, wanted.selection.pages)?;
    told.extend_from_slice(b" from this panel")?;
    Ok(told)
}
