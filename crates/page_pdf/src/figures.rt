//! Numbers as they mark a page, each with a space behind it.
ghost use Rattle.std.specs.Prelude.{◌≡◌, ◌≤◌, ◌^◌, ◌++◌, OnOk, decimal};
ghost use Rattle.page_pdf.specs.Figures.{
  box_figures,
  box_width,
  code_digits,
  figure,
  height_figure,
  length_figure,
  letter_width,
  points,
};

use itoa::Buffer;
use page_env::Bounds;
use page_picture::{hundredths, push_units, span};
use shown_bytes::{hex_byte, push_with_four_decimals, push_with_hundredths};
use std::alloc::{AllocError, Allocator};
use tick_length::Length;

/// Appends a number that may be larger than 64 bits.
pub(crate) fn push_count<A: Allocator>(text: &mut Vec<u8, A>, count: u128) -> Result<(), AllocError>
    ensures { OnOk result (text.new.items ≡ text.old.items ++ decimal count) }
{
    let mut digits = Buffer::new();
    text.extend_from_slice(digits.format(count).as_bytes())
}

/// Appends so many hundredths of a unit.
#[tactic(auto, unfolding(crate::specs::Figures::figure))]
pub(crate) fn push_figure<A: Allocator>(text: &mut Vec<u8, A>, n: i64) -> Result<(), AllocError>
    ensures { OnOk result (text.new.items ≡ text.old.items ++ figure n) }
{
    push_units(text, n)?;
    text.push(b' ')?;
    Ok(())
}

/// Appends so many ticks.
pub(crate) fn push_ticks<A: Allocator>(text: &mut Vec<u8, A>, ticks: i64) -> Result<(), AllocError>
    ensures { OnOk result (text.new.items ≡ text.old.items ++ length_figure ticks) }
{
    push_figure(text, hundredths(ticks))
}

/// Appends a length, or a place on the page.
pub(crate) fn push_length<A: Allocator>(
    text: &mut Vec<u8, A>,
    length: Length,
) -> Result<(), AllocError>
    ensures { OnOk result (text.new.items ≡ text.old.items ++ length_figure length) }
{
    push_ticks(text, length.ticks())
}

/// Appends a box by its upper left corner, and by how far its other edges lie from there.
#[tactic(auto, unfolding(crate::specs::Figures::box_figures))]
pub(crate) fn push_box<A: Allocator>(
    text: &mut Vec<u8, A>,
    bounds: &Bounds,
) -> Result<(), AllocError>
    ensures { OnOk result (text.new.items ≡ text.old.items ++ box_figures bounds.now) }
{
    push_length(text, bounds.left)?;
    push_length(text, bounds.top)?;
    push_figure(text, span(bounds.left, bounds.right))?;
    push_figure(text, span(bounds.top, bounds.bottom))
}

/// Appends a height of so many ten-thousandths of a point, each of which is a hundredth of a unit.
#[tactic(auto, unfolding(crate::specs::Figures::height_figure))]
pub(crate) fn push_height<A: Allocator>(
    text: &mut Vec<u8, A>,
    height: u32,
) -> Result<(), AllocError>
    ensures { OnOk result (text.new.items ≡ text.old.items ++ height_figure height) }
{
    push_with_hundredths(text, u64::from(height))?;
    text.push(b' ')?;
    Ok(())
}

/// Appends a side of a page in points.
#[tactic(auto, unfolding(crate::specs::Figures::points))]
pub(crate) fn push_points<A: Allocator>(
    text: &mut Vec<u8, A>,
    length: Length,
) -> Result<(), AllocError>
    ensures { OnOk result (text.new.items ≡ text.old.items ++ points length) }
{
    push_with_four_decimals(text, hundredths(length.ticks()).unsigned_abs())
}

/// How many hundredths of a unit lie between the edges of a box.
pub(crate) fn box_width(bounds: &Bounds) -> u64
    ensures value { result ≡ box_width bounds.now }
    ensures small { result ≤ 2 ^ 48 }
{
    let (left, right) = (
        hundredths(bounds.left.ticks()),
        hundredths(bounds.right.ticks()),
    );
    right.unsigned_abs().saturating_sub(left.unsigned_abs())
}

/// How many hundredths of a unit letters are wide that come to such a box.
pub(crate) fn letter_width(bounds: &Bounds) -> i64
    ensures { result ≡ letter_width bounds.now }
{
    (box_width(bounds) * 5 / 3) as i64
}

/// Appends the code of a letter by two digits.
#[tactic(auto, unfolding(crate::specs::Figures::code_digits))]
pub(crate) fn push_code<A: Allocator>(text: &mut Vec<u8, A>, code: u8) -> Result<(), AllocError>
    ensures { OnOk result (text.new.items ≡ text.old.items ++ code_digits code) }
{
    text.extend_from_slice(&hex_byte(code))
}
