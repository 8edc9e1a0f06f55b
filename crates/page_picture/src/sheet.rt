//! What stands round the marks of a page: its sheet, where a job fails, and the sentence on that.
ghost use Rattle.std.specs.Prelude.{◌≡◌, ◌++◌, OnOk};
ghost use Rattle.page_picture.specs.Sheet.{
  below_page,
  crossed_patterns,
  diagonal_patterns,
  document_end,
  document_start,
  due_patterns,
  failure_picture,
  foot_picture,
  head_picture,
  letter_size,
  logical_picture,
  middle,
  page_number,
  pattern,
  patterns,
  picture_height,
  picture_start,
  printable_box,
  printable_picture,
  sentence_attributes,
  sentence_picture,
  sheet_picture,
  side_attributes,
  side_units,
  straight_patterns,
};

use crate::attributes::{
    Attribute, push_attribute, push_box, push_length_attribute, push_ticks_attribute,
};
use crate::figures::{hundredths, push_inches, push_pair};
use crate::rulers::push_rulers;
use crate::sheet_parts::SheetPart;
use crate::texts::push_sentence_text;
use device_profile::Geometry;
use page_env::Bounds;
use shown_bytes::push_number;
use std::alloc::{AllocError, Allocator};
use tick_length::{Length, TICKS_PER_HALF_INCH};

/// How much higher a picture is where a sentence stands below the sheet: half an inch, in ticks.
const STRIP: i64 = TICKS_PER_HALF_INCH as i64;

/// How far below the sheet the sentence stands: a third of an inch, in ticks.
const DROP: i64 = 12_192_000_000;

/// The largest letters of a sentence: of 10 points, in hundredths of a unit.
const LARGEST_LETTERS: u64 = 100_000;

/// Appends what stands before the marks of a page: its size, the patterns, and the page with rulers
/// at two edges. Where a sentence is to follow, the picture has room for it below the sheet. A
/// document has the patterns once, since their names stand for one thing there.
pub fn push_head<A: Allocator>(
    text: &mut Vec<u8, A>,
    page: &Geometry,
    has_sentence: bool,
    has_patterns: bool,
) -> Result<(), AllocError>
    ensures { OnOk result
        (text.new.items ≡ text.old.items ++ head_picture page.now has_sentence has_patterns) }
{
    push_start(text, page, has_sentence)?;
    push_due_patterns(text, has_patterns)?;
    push_sheet(text, page)?;
    push_rulers(text, page)?;
    push_logical(text, page)?;
    push_printable(text, page)
}

/// How high the picture of a page is, in ticks.
#[tactic(auto, unfolding(crate::specs::Sheet::picture_height))]
fn picture_height(page: &Geometry, has_sentence: bool) -> i64
    ensures { result ≡ picture_height page.now has_sentence }
{
    let strip = if has_sentence { STRIP } else { 0 };
    page.page_height.ticks() + strip
}

/// Appends the sides of the picture of a page in inches.
#[tactic(auto, unfolding(crate::specs::Sheet::side_attributes))]
fn push_sides<A: Allocator>(
    text: &mut Vec<u8, A>,
    page: &Geometry,
    has_sentence: bool,
) -> Result<(), AllocError>
    ensures { OnOk result
        (text.new.items ≡ text.old.items ++ side_attributes page.now has_sentence) }
{
    push_inches(text, page.page_width.ticks())?;
    text.extend_from_slice(SheetPart::PictureHeight.bytes())?;
    push_inches(text, picture_height(page, has_sentence))
}

/// Appends the same in units.
#[tactic(auto, unfolding(crate::specs::Sheet::side_units))]
fn push_side_units<A: Allocator>(
    text: &mut Vec<u8, A>,
    page: &Geometry,
    has_sentence: bool,
) -> Result<(), AllocError>
    ensures { OnOk result
        (text.new.items ≡ text.old.items ++ side_units page.now has_sentence) }
{
    let height = picture_height(page, has_sentence);
    push_pair(text, page.page_width.ticks(), height)
}

/// Appends the start of the picture of a page, with its sides.
#[tactic(auto, unfolding(crate::specs::Sheet::picture_start))]
fn push_start<A: Allocator>(
    text: &mut Vec<u8, A>,
    page: &Geometry,
    has_sentence: bool,
) -> Result<(), AllocError>
    ensures { OnOk result
        (text.new.items ≡ text.old.items ++ picture_start page.now has_sentence) }
{
    text.extend_from_slice(SheetPart::PictureStart.bytes())?;
    push_sides(text, page, has_sentence)?;
    text.extend_from_slice(SheetPart::PictureView.bytes())?;
    push_side_units(text, page, has_sentence)?;
    text.extend_from_slice(SheetPart::PictureFont.bytes())
}

/// Appends a pattern of this number: a square of lines, which is repeated.
#[tactic(auto, unfolding(crate::specs::Sheet::pattern))]
fn push_pattern<A: Allocator>(
    text: &mut Vec<u8, A>,
    number: u64,
    lines: SheetPart,
) -> Result<(), AllocError>
    ensures { OnOk result (text.new.items ≡ text.old.items ++ pattern number lines) }
{
    text.extend_from_slice(SheetPart::PatternStart.bytes())?;
    push_number(text, number)?;
    text.extend_from_slice(SheetPart::PatternSides.bytes())?;
    text.extend_from_slice(lines.bytes())?;
    text.extend_from_slice(SheetPart::PatternEnd.bytes())
}

/// Appends horizontal and vertical lines.
#[tactic(auto, unfolding(crate::specs::Sheet::straight_patterns))]
fn push_straight_patterns<A: Allocator>(text: &mut Vec<u8, A>) -> Result<(), AllocError>
    ensures { OnOk result (text.new.items ≡ text.old.items ++ straight_patterns) }
{
    push_pattern(text, 1, SheetPart::Horizontal)?;
    push_pattern(text, 2, SheetPart::Vertical)
}

/// Appends both diagonals.
#[tactic(auto, unfolding(crate::specs::Sheet::diagonal_patterns))]
fn push_diagonal_patterns<A: Allocator>(text: &mut Vec<u8, A>) -> Result<(), AllocError>
    ensures { OnOk result (text.new.items ≡ text.old.items ++ diagonal_patterns) }
{
    push_pattern(text, 3, SheetPart::Rising)?;
    push_pattern(text, 4, SheetPart::Falling)
}

/// Appends both crosses.
#[tactic(auto, unfolding(crate::specs::Sheet::crossed_patterns))]
fn push_crossed_patterns<A: Allocator>(text: &mut Vec<u8, A>) -> Result<(), AllocError>
    ensures { OnOk result (text.new.items ≡ text.old.items ++ crossed_patterns) }
{
    push_pattern(text, 5, SheetPart::Cross)?;
    push_pattern(text, 6, SheetPart::DiagonalCross)
}

/// Appends the patterns.
#[tactic(auto, unfolding(crate::specs::Sheet::patterns))]
fn push_patterns<A: Allocator>(text: &mut Vec<u8, A>) -> Result<(), AllocError>
    ensures { OnOk result (text.new.items ≡ text.old.items ++ patterns) }
{
    text.extend_from_slice(SheetPart::PatternsStart.bytes())?;
    push_straight_patterns(text)?;
    push_diagonal_patterns(text)?;
    push_crossed_patterns(text)?;
    text.extend_from_slice(SheetPart::PatternsEnd.bytes())
}

/// Appends the patterns where they are to stand.
fn push_due_patterns<A: Allocator>(
    text: &mut Vec<u8, A>,
    has_patterns: bool,
) -> Result<(), AllocError>
    ensures { OnOk result (text.new.items ≡ text.old.items ++ due_patterns has_patterns) }
{
    if !has_patterns {
        return Ok(());
    }
    push_patterns(text)
}

// ---- the page

#[tactic(auto, unfolding(crate::specs::Sheet::sheet_picture))]
fn push_sheet<A: Allocator>(text: &mut Vec<u8, A>, page: &Geometry) -> Result<(), AllocError>
    ensures { OnOk result (text.new.items ≡ text.old.items ++ sheet_picture page.now) }
{
    text.extend_from_slice(SheetPart::SheetStart.bytes())?;
    push_length_attribute(text, Attribute::Width, page.page_width)?;
    push_length_attribute(text, Attribute::Height, page.page_height)?;
    text.extend_from_slice(SheetPart::SheetEnd.bytes())
}

/// Appends the logical page, dashed.
#[tactic(auto, unfolding(crate::specs::Sheet::logical_picture))]
fn push_logical<A: Allocator>(text: &mut Vec<u8, A>, page: &Geometry) -> Result<(), AllocError>
    ensures { OnOk result (text.new.items ≡ text.old.items ++ logical_picture page.now) }
{
    text.extend_from_slice(SheetPart::LogicalStart.bytes())?;
    push_length_attribute(text, Attribute::X, page.logical_left)?;
    push_length_attribute(text, Attribute::Y, page.logical_top)?;
    push_length_attribute(text, Attribute::Width, page.logical_width)?;
    push_length_attribute(text, Attribute::Height, page.logical_height)?;
    text.extend_from_slice(SheetPart::LogicalEnd.bytes())
}

/// The printable area as a box.
pub fn printable_box(page: &Geometry) -> Bounds
    ensures { result ≡ printable_box page.now }
{
    Bounds {
        left: page.printable_left,
        top: page.printable_top,
        right: page.printable_right,
        bottom: page.printable_bottom,
    }
}

/// Appends the printable area, thin.
#[tactic(auto, unfolding(crate::specs::Sheet::printable_picture))]
fn push_printable<A: Allocator>(text: &mut Vec<u8, A>, page: &Geometry) -> Result<(), AllocError>
    ensures { OnOk result (text.new.items ≡ text.old.items ++ printable_picture page.now) }
{
    text.extend_from_slice(SheetPart::PrintableStart.bytes())?;
    push_box(text, &printable_box(page))?;
    text.extend_from_slice(SheetPart::PrintableEnd.bytes())
}

// ---- where a job fails

/// Appends a cross at a place on the page, in ticks from its upper left corner.
#[tactic(auto, unfolding(crate::specs::Sheet::failure_picture))]
pub fn push_failure<A: Allocator>(text: &mut Vec<u8, A>, x: i64, y: i64) -> Result<(), AllocError>
    ensures { OnOk result (text.new.items ≡ text.old.items ++ failure_picture x y) }
{
    text.extend_from_slice(SheetPart::FailureStart.bytes())?;
    push_pair(text, x, y)?;
    text.extend_from_slice(SheetPart::FailureEnd.bytes())
}

/// How large the letters of a sentence of so many are, in hundredths of a unit, to go into a width.
pub fn letter_size(width: Length, count: usize) -> i64
    ensures { result ≡ letter_size width count }
{
    let room = hundredths(width.ticks()).unsigned_abs() * 5;
    let widest = u128::from(room) / (3 * (count as u128 + 1));
    LARGEST_LETTERS.min(widest as u64) as i64
}

/// The middle of a width or a height, in hundredths of a unit.
pub(crate) fn middle(width: Length) -> i64
    ensures { result ≡ middle width }
{
    (hundredths(width.ticks()).unsigned_abs() / 2) as i64
}

/// A third of an inch below the foot of a page, in ticks.
fn below_page(page: &Geometry) -> i64
    ensures { result ≡ below_page page.now }
{
    page.page_height.ticks() + DROP
}

/// Appends where a sentence of so many letters stands, and how large they are.
#[tactic(auto, unfolding(crate::specs::Sheet::sentence_attributes))]
fn push_sentence_attributes<A: Allocator>(
    text: &mut Vec<u8, A>,
    page: &Geometry,
    count: usize,
) -> Result<(), AllocError>
    ensures { OnOk result
        (text.new.items ≡ text.old.items ++ sentence_attributes page.now count) }
{
    push_attribute(text, Attribute::X, middle(page.page_width))?;
    push_ticks_attribute(text, Attribute::Y, below_page(page))?;
    push_attribute(
        text,
        Attribute::FontSize,
        letter_size(page.page_width, count),
    )
}

/// Appends a sentence below the sheet.
#[tactic(auto, unfolding(crate::specs::Sheet::sentence_picture))]
pub fn push_sentence<A: Allocator>(
    text: &mut Vec<u8, A>,
    page: &Geometry,
    sentence: &[u8],
) -> Result<(), AllocError>
    ensures { OnOk result
        (text.new.items ≡ text.old.items ++ sentence_picture page.now sentence.now) }
{
    text.extend_from_slice(SheetPart::SentenceStart.bytes())?;
    push_sentence_attributes(text, page, sentence.len())?;
    text.extend_from_slice(SheetPart::SentenceFill.bytes())?;
    push_sentence_text(text, sentence)?;
    text.extend_from_slice(SheetPart::SentenceEnd.bytes())
}

/// Appends what stands behind the marks.
pub fn push_foot<A: Allocator>(text: &mut Vec<u8, A>) -> Result<(), AllocError>
    ensures { OnOk result (text.new.items ≡ text.old.items ++ foot_picture) }
{
    text.extend_from_slice(SheetPart::PictureEnd.bytes())
}

// ---- several pictures in one document

/// Appends what stands before several pictures in an HTML document: its head, a verdict, and what
/// stands for what.
#[tactic(auto, unfolding(crate::specs::Sheet::document_start))]
pub fn push_document_start<A: Allocator>(
    text: &mut Vec<u8, A>,
    verdict: &[u8],
) -> Result<(), AllocError>
    ensures { OnOk result (text.new.items ≡ text.old.items ++ document_start verdict.now) }
{
    text.extend_from_slice(SheetPart::DocumentStart.bytes())?;
    push_sentence_text(text, verdict)?;
    text.extend_from_slice(SheetPart::DocumentLegend.bytes())
}

/// Appends the number of a page, above its picture.
#[tactic(auto, unfolding(crate::specs::Sheet::page_number))]
pub fn push_page_number<A: Allocator>(text: &mut Vec<u8, A>, number: u64) -> Result<(), AllocError>
    ensures { OnOk result (text.new.items ≡ text.old.items ++ page_number number) }
{
    text.extend_from_slice(SheetPart::PageNumber.bytes())?;
    push_number(text, number)?;
    text.extend_from_slice(SheetPart::PageNumberEnd.bytes())
}

/// Appends what stands behind them.
pub fn push_document_end<A: Allocator>(text: &mut Vec<u8, A>) -> Result<(), AllocError>
    ensures { OnOk result (text.new.items ≡ text.old.items ++ document_end) }
{
    text.extend_from_slice(SheetPart::DocumentEnd.bytes())
}
