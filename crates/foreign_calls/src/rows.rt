//! What crosses to C beside texts: rows of numbers.
ghost use Rattle.std.specs.Prelude.{◌≡◌};
ghost use Rattle.foreign_calls.specs.Answers.{outcome_row, page_number, verdict_row};

use renderings::Outcome;
use verdict::Verdict;

/// What came of a job. C calls it `struct pclcheck_verdict`.
#[repr(C)]
#[derive(Clone, Copy, Debug, PartialEq, Eq)]
pub struct VerdictRow {
    /// Of a job that passes a check the number of its pages, and 0 of any other.
    pub pages: u64,
    /// Of a job that passes a check the number of its marks, and 0 of any other.
    pub marks: u64,
    /// Where the job fails, in bytes from its start.
    pub place: u64,
    /// The number of the printer that it fails for, from 1; 0 for a fault of its bytes.
    pub printer: u64,
    /// The page that is open where a job fails a check, from 1; 0 of any other.
    pub page: u64,
    /// The number of the fault or finding by which it fails; 0 where it does not.
    pub number: u32,
}

/// The text of a profile that is refused. C calls it `struct pclcheck_refusal`.
#[repr(C)]
#[derive(Clone, Copy, Debug, PartialEq, Eq)]
pub struct Refusal {
    /// The number of the profile in its fleet, from 1.
    pub number: u64,
    /// The line that is wrong, from 1; 0 for the text as a whole.
    pub line: u64,
    /// What is wrong: 1 Version, 2 Unknown, 3 Repeated, 4 Range, 5 Missing, 6 NoGeometry.
    pub cause: u32,
}

/// A value that is chosen at a panel. C calls it `struct pclcheck_panel_value`.
#[repr(C)]
#[derive(Clone, Copy, Debug, PartialEq, Eq)]
pub struct PanelValue {
    /// 1 size, 2 orientation, 3 vmi, 4 font, 5 copies, 6 sides, 7 tray, 8 lineterm.
    pub field: u32,
    /// The VMI in ten-thousandths of 1/48 inch; any other as its command numbers it.
    pub value: u32,
}

/// A verdict in numbers, with the page that is told with it.
pub fn verdict_row(verdict: Verdict, page: Option<u64>) -> VerdictRow
    ensures { result ≡ verdict_row verdict page }
{
    let page = page_number(page);
    match verdict {
        Verdict::Pass { pages, marks } => VerdictRow {
            pages,
            marks,
            place: 0,
            printer: 0,
            page,
            number: 0,
        },
        Verdict::Fail {
            place,
            profile,
            finding,
        } => VerdictRow {
            pages: 0,
            marks: 0,
            place,
            printer: profile,
            page,
            number: u32::from(finding.number()),
        },
    }
}

/// The number of a page, or 0.
fn page_number(page: Option<u64>) -> u64
    ensures { result ≡ page_number page }
{
    match page {
        None => 0,
        Some(number) => number,
    }
}

/// What came of the writing of a text, in numbers. No page is told.
pub(crate) fn outcome_row(outcome: Outcome) -> VerdictRow
    ensures { result ≡ outcome_row outcome }
{
    match outcome {
        Outcome::Done => verdict_row(Verdict::Pass { pages: 0, marks: 0 }, None),
        Outcome::Fail {
            place,
            profile,
            finding,
        } => {
            let verdict = Verdict::Fail {
                place,
                profile,
                finding,
            };
            verdict_row(verdict, None)
        }
    }
}
