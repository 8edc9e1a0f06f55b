//! What a call tells of a job beside its sentence: a row of numbers.
ghost use Rattle.std.specs.Prelude.{◌≡◌};
ghost use Rattle.web_module.specs.Judgements.{judgement_row, kind_number, placed_number};
ghost use Rattle.web_module.specs.Judgements.{told_kind};

use foreign_calls::verdict_row;
use job_reports::{Kind, kind_of};
use judgement::{FailingItem, Judgement, SheetSpot};
use verdict::Verdict;

/// What came of a check, and where.
#[repr(C)]
#[derive(Clone, Copy, Debug, PartialEq, Eq)]
pub struct JudgementRow {
    /// Of a job that passes the number of its pages, and 0 of any other.
    pub pages: u64,
    /// Of a job that passes the number of its marks, and 0 of any other.
    pub marks: u64,
    /// Where the job fails, in bytes from its start.
    pub place: u64,
    /// The number of the printer that it fails for, from 1; 0 for a fault of its bytes.
    pub printer: u64,
    /// The page on which it fails, from 1; 0 where it does not.
    pub page: u64,
    /// Where the cursor stood, in ticks from the left edge of the sheet; 0 where that is not told.
    pub x: i64,
    /// The same from the upper edge.
    pub y: i64,
    /// The number of the fault or finding by which it fails; 0 where it does not.
    pub number: u32,
    /// Who says no: 1 pclcheck, which does not check this, 2 each printer, 3 this printer, 4
    /// nobody, but a panel decides, 5 nobody, but two printers differ; 0 where the job passes.
    pub kind: u32,
    /// 1 where it is told where the cursor stood, else 0.
    pub is_placed: u32,
}

/// A judgement in numbers.
pub(crate) fn judgement_row(judgement: Judgement) -> JudgementRow
    ensures { result ≡ judgement_row judgement }
{
    let row = verdict_row(judgement.verdict, judgement.page);
    let spot = judgement.cursor.unwrap_or(SheetSpot { x: 0, y: 0 });
    JudgementRow {
        pages: row.pages,
        marks: row.marks,
        place: row.place,
        printer: row.printer,
        page: row.page,
        x: spot.x,
        y: spot.y,
        number: row.number,
        kind: told_kind(judgement.verdict, judgement.failing_item),
        is_placed: placed_number(judgement.cursor),
    }
}

/// 1 where a place of the cursor is told, else 0.
fn placed_number(cursor: Option<SheetSpot>) -> u32
    ensures { result ≡ placed_number cursor }
{
    match cursor {
        Some(_) => 1,
        None => 0,
    }
}

/// The number of who says no to a job.
fn told_kind(verdict: Verdict, failing_item: Option<FailingItem>) -> u32
    ensures { result ≡ told_kind verdict failing_item }
{
    match verdict {
        Verdict::Pass { .. } => 0,
        Verdict::Fail { finding, .. } => kind_number(kind_of(finding, failing_item)),
    }
}

/// The number of a kind.
fn kind_number(kind: Kind) -> u32
    ensures { result ≡ kind_number kind }
{
    match kind {
        Kind::Unchecked => 1,
        Kind::Wrong => 2,
        Kind::Printer => 3,
        Kind::Panel => 4,
        Kind::Differs => 5,
    }
}
