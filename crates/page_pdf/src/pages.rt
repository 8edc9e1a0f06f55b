//! What stands round the marks of a page: its setting, its foot, and where a job fails.
ghost use Rattle.std.specs.Prelude.{◌≡◌, ◌≤◌, ◌^◌, ◌++◌, OnOk};
ghost use Rattle.page_pdf.specs.Pages.{
  above_foot,
  due_foot,
  due_outlines,
  due_verdict,
  failed_text,
  failure_text,
  foot_place,
  foot_text,
  logical_text,
  outlines_text,
  page_end,
  page_start,
  printable_text,
  sentence_place,
  sentence_size,
  sentence_text,
};

use crate::figures::{push_box, push_figure, push_length, push_points, push_ticks};
use crate::hexes::push_letters;
use crate::mark_parts::MarkPart;
use crate::page_parts::PagePart;
use device_profile::Geometry;
use page_env::SheetPlace;
use page_picture::{letter_size, printable_box};
use shown_bytes::push_number;
use std::alloc::{AllocError, Allocator};

/// How far above the foot of a page a sentence stands: a third of an inch, in ticks.
const RISE: i64 = 12_192_000_000;

// ---- before the marks

/// Appends what stands before the marks of a page.
pub(crate) fn push_page_start<A: Allocator>(
    text: &mut Vec<u8, A>,
    page: &Geometry,
    is_proof: bool,
) -> Result<(), AllocError>
    ensures { OnOk result (text.new.items ≡ text.old.items ++ page_start page.now is_proof) }
{
    text.extend_from_slice(PagePart::Start.bytes())?;
    push_due_outlines(text, page, is_proof)
}

/// Appends the logical page and the printable area.
#[tactic(auto, unfolding(crate::specs::Pages::outlines_text))]
fn push_outlines<A: Allocator>(text: &mut Vec<u8, A>, page: &Geometry) -> Result<(), AllocError>
    ensures { OnOk result (text.new.items ≡ text.old.items ++ outlines_text page.now) }
{
    push_logical(text, page)?;
    push_printable(text, page)
}

/// Appends these, where they are asked for.
fn push_due_outlines<A: Allocator>(
    text: &mut Vec<u8, A>,
    page: &Geometry,
    is_proof: bool,
) -> Result<(), AllocError>
    ensures { OnOk result (text.new.items ≡ text.old.items ++ due_outlines page.now is_proof) }
{
    if !is_proof {
        return Ok(());
    }
    push_outlines(text, page)
}

/// Appends the logical page, dashed.
#[tactic(auto, unfolding(crate::specs::Pages::logical_text))]
fn push_logical<A: Allocator>(text: &mut Vec<u8, A>, page: &Geometry) -> Result<(), AllocError>
    ensures { OnOk result (text.new.items ≡ text.old.items ++ logical_text page.now) }
{
    text.extend_from_slice(PagePart::Logical.bytes())?;
    push_length(text, page.logical_left)?;
    push_length(text, page.logical_top)?;
    push_length(text, page.logical_width)?;
    push_length(text, page.logical_height)?;
    text.extend_from_slice(MarkPart::Rectangle.bytes())?;
    text.extend_from_slice(MarkPart::BoxEnd.bytes())
}

/// Appends the printable area, thin.
#[tactic(auto, unfolding(crate::specs::Pages::printable_text))]
fn push_printable<A: Allocator>(text: &mut Vec<u8, A>, page: &Geometry) -> Result<(), AllocError>
    ensures { OnOk result (text.new.items ≡ text.old.items ++ printable_text page.now) }
{
    text.extend_from_slice(PagePart::Printable.bytes())?;
    push_box(text, &printable_box(page))?;
    text.extend_from_slice(MarkPart::Rectangle.bytes())?;
    text.extend_from_slice(MarkPart::BoxEnd.bytes())
}

// ---- behind them

/// Appends the verdict, unless the page tells it elsewhere.
fn push_due_verdict<A: Allocator>(text: &mut Vec<u8, A>, is_told: bool) -> Result<(), AllocError>
    ensures { OnOk result (text.new.items ≡ text.old.items ++ due_verdict is_told) }
{
    if is_told {
        return Ok(());
    }
    text.extend_from_slice(PagePart::Verdict.bytes())
}

/// Appends where the foot of a page is.
#[tactic(auto, unfolding(crate::specs::Pages::foot_place))]
fn push_foot_place<A: Allocator>(text: &mut Vec<u8, A>, page: &Geometry) -> Result<(), AllocError>
    ensures { OnOk result (text.new.items ≡ text.old.items ++ foot_place page.now) }
{
    text.extend_from_slice(PagePart::Foot.bytes())?;
    push_points(text, page.page_height)?;
    text.extend_from_slice(PagePart::FootPlace.bytes())
}

/// Appends the foot: the verdict, and the number of the page.
#[tactic(auto, unfolding(crate::specs::Pages::foot_text))]
fn push_foot<A: Allocator>(
    text: &mut Vec<u8, A>,
    page: &Geometry,
    number: u64,
    is_told: bool,
) -> Result<(), AllocError>
    ensures { OnOk result
        (text.new.items ≡ text.old.items ++ foot_text page.now number is_told) }
{
    push_foot_place(text, page)?;
    push_due_verdict(text, is_told)?;
    text.extend_from_slice(PagePart::FootNumber.bytes())?;
    push_number(text, number)?;
    text.extend_from_slice(PagePart::FootEnd.bytes())
}

/// Appends the foot, where it is asked for.
fn push_due_foot<A: Allocator>(
    text: &mut Vec<u8, A>,
    page: &Geometry,
    number: u64,
    is_proof: bool,
    is_told: bool,
) -> Result<(), AllocError>
    ensures { OnOk result
        (text.new.items ≡ text.old.items ++ due_foot page.now number is_proof is_told) }
{
    if !is_proof {
        return Ok(());
    }
    push_foot(text, page, number, is_told)
}

/// Appends what stands behind the marks of the page of this number, which may tell the verdict
/// elsewhere.
#[tactic(auto, unfolding(crate::specs::Pages::page_end))]
pub(crate) fn push_page_end<A: Allocator>(
    text: &mut Vec<u8, A>,
    page: &Geometry,
    number: u64,
    is_proof: bool,
    is_told: bool,
) -> Result<(), AllocError>
    ensures { OnOk result
        (text.new.items ≡ text.old.items ++ page_end page.now number is_proof is_told) }
{
    text.extend_from_slice(PagePart::End.bytes())?;
    push_due_foot(text, page, number, is_proof, is_told)
}

// ---- where a job fails

/// Appends a cross at a place on the page.
#[tactic(auto, unfolding(crate::specs::Pages::failure_text))]
fn push_cross<A: Allocator>(text: &mut Vec<u8, A>, spot: SheetPlace) -> Result<(), AllocError>
    ensures { OnOk result (text.new.items ≡ text.old.items ++ failure_text spot.x spot.y) }
{
    text.extend_from_slice(PagePart::Failure.bytes())?;
    push_ticks(text, spot.x)?;
    push_ticks(text, spot.y)?;
    text.extend_from_slice(PagePart::FailureEnd.bytes())
}

/// How large the letters of a sentence of so many are.
fn sentence_size(page: &Geometry, count: usize) -> i64
    requires { count ≤ 2 ^ 63 }
    ensures { result ≡ sentence_size page.now count }
{
    letter_size(page.page_width, count + 3)
}

/// A third of an inch above the foot of a page, in ticks.
fn above_foot(page: &Geometry) -> i64
    ensures { result ≡ above_foot page.now }
{
    page.page_height.ticks() - RISE
}

/// Appends how large the letters of a sentence of so many are, and where the first stands.
#[tactic(auto, unfolding(crate::specs::Pages::sentence_place))]
fn push_sentence_place<A: Allocator>(
    text: &mut Vec<u8, A>,
    page: &Geometry,
    count: usize,
) -> Result<(), AllocError>
    requires { count ≤ 2 ^ 63 }
    ensures { OnOk result (text.new.items ≡ text.old.items ++ sentence_place page.now count) }
{
    push_figure(text, sentence_size(page, count))?;
    text.extend_from_slice(PagePart::SentenceHeight.bytes())?;
    push_figure(text, sentence_size(page, count))?;
    push_figure(text, sentence_size(page, count))?;
    push_ticks(text, above_foot(page))
}

/// Appends a sentence at the foot of a page.
#[tactic(auto, unfolding(crate::specs::Pages::sentence_text))]
fn push_sentence<A: Allocator>(
    text: &mut Vec<u8, A>,
    page: &Geometry,
    sentence: &[u8],
) -> Result<(), AllocError>
    ensures { OnOk result
        (text.new.items ≡ text.old.items ++ sentence_text page.now sentence.now) }
{
    text.extend_from_slice(PagePart::Sentence.bytes())?;
    push_sentence_place(text, page, sentence.len())?;
    text.extend_from_slice(PagePart::SentenceText.bytes())?;
    push_letters(text, sentence)?;
    text.extend_from_slice(PagePart::SentenceEnd.bytes())
}

/// Appends why a job fails: a cross where the cursor stood, and the sentence.
pub(crate) fn push_failed<A: Allocator>(
    text: &mut Vec<u8, A>,
    page: &Geometry,
    spot: SheetPlace,
    sentence: &[u8],
) -> Result<(), AllocError>
    ensures { OnOk result
        (text.new.items ≡ text.old.items ++ failed_text page.now spot.x spot.y sentence.now) }
{
    push_cross(text, spot)?;
    push_sentence(text, page, sentence)
}
