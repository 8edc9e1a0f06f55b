//! The row of a job.
ghost use Rattle.std.specs.Prelude.{◌≡◌, ◌++◌, OnOk};
ghost use Rattle.job_rows.specs.Rows.{row_body, row_text};

use crate::bodies::{push_near, push_notes, push_once, push_page};
use crate::heads::push_row_head;
use crate::links::{JobDocument, push_link};
use job_reports::Report;
use std::alloc::{AllocError, Allocator};
use std::marker::Model;
use streams::Error;
use verdict::Verdict;

/// What further readings of a job told, where there were some.
#[derive(Drop)]
pub struct RowParts<'d, A: Allocator> {
    /// Its notes, as `push_note` appends them.
    pub notes: Option<Result<Vec<u8, A>, Error>>,
    /// The items near the place at which it fails, as a list has them.
    pub near: Option<Result<Vec<u8, A>, Error>>,
    /// The picture of a page.
    pub page: Option<Result<Vec<u8, A>, Error>>,
    /// The job can be read only once.
    pub is_once: bool,
    /// Where its document is.
    pub document: Option<JobDocument<'d>>,
}

impl<'d, A: Allocator> Model for RowParts<'d, A> {
    ghost use Rattle.std.specs.Prelude.{option_map};
    ghost use Rattle.job_rows.specs.Kept.{kept_part};
    ghost use Rattle.job_rows.specs.Links.{told_of};
    ghost use Rattle.job_rows.specs.Rows.{PartsTold};

    ghost Value = { PartsTold };

    ghost view = { λ parts. record {
      notes = kept_part (λ text. text.items) parts.notes;
      near = kept_part (λ text. text.items) parts.near;
      page = kept_part (λ text. text.items) parts.page;
      is_once = parts.is_once;
      document = option_map told_of parts.document;
    } };
}

/// Appends the row of a job: its verdict, its sentence, of what kind it is and where; and what it
/// opens to, with this explanation, where there is one.
#[tactic(auto, unfolding(crate::specs::Rows::row_text))]
pub fn push_row<A: Allocator + Copy>(
    alloc: A,
    text: &mut Vec<u8, A>,
    report: &Report<'_, '_, A>,
    explanation: &str,
    parts: &RowParts<'_, A>,
) -> Result<(), AllocError>
    ensures { OnOk result (text.new.items ≡ text.old.items ++
        row_text explanation.now report.now parts.now) }
{
    push_row_head(alloc, text, report, explanation)?;
    push_row_body(alloc, text, report.verdict(), parts)?;
    text.extend_from_slice(b"</details>\n")
}

/// Appends what a row opens to.
#[tactic(auto, unfolding(crate::specs::Rows::row_body))]
fn push_row_body<A: Allocator + Copy>(
    alloc: A,
    text: &mut Vec<u8, A>,
    answer: Result<Verdict, Error>,
    parts: &RowParts<'_, A>,
) -> Result<(), AllocError>
    ensures { OnOk result (text.new.items ≡ text.old.items ++ row_body answer parts.now) }
{
    push_notes(text, &parts.notes)?;
    push_near(text, &parts.near)?;
    push_page(alloc, text, answer, &parts.page)?;
    push_once(text, parts.is_once)?;
    push_link(text, answer, &parts.document)
}
