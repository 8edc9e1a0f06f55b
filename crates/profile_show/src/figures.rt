//! Numbers and lengths as they stand in a text.
ghost use Rattle.std.specs.Prelude.{◌≡◌, ◌+◌, ◌++◌, ◌<◌, ◌≤◌, ◌^◌, OnOk};
ghost use Rattle.profile_show.specs.Figures.{
  counted,
  in_7200ths,
  length_in,
  parts_of,
  sides_in,
  signed_amount,
  unit_name,
};

use shown_bytes::{push_amount, push_minus, push_number, push_with_hundredths, push_with_tenth};
use std::alloc::{AllocError, Allocator};
use tick_length::{Length, TICKS_PER_7200TH, TICKS_PER_TENTH_MILLIMETRE};

/// What a length is told in.
#[derive(Clone, Copy)]
pub(crate) enum LengthUnit {
    /// Millimetres, with one decimal.
    Millimetres,
    /// Inches, with three decimals at the most.
    Inches,
    /// Dots of 1/300 inch, with two decimals where they are not whole.
    Dots,
}

/// How many ticks 1/1000 inch has.
const TICKS_PER_THOUSANDTH_INCH: u64 = 36_576_000;

/// How many ticks a hundredth of a dot has, which is 1/300 inch.
const TICKS_PER_HUNDREDTH_DOT: u64 = 1_219_200;

/// Appends a value of so many ten-thousandths, which may be less than 0.
#[tactic(auto, unfolding(crate::specs::Figures::signed_amount))]
pub(crate) fn push_signed_amount<A: Allocator>(
    text: &mut Vec<u8, A>,
    n: i32,
) -> Result<(), AllocError>
    ensures { OnOk result (text.new.items ≡ text.old.items ++ signed_amount n) }
{
    push_minus(text, n)?;
    push_amount(text, u64::from(n.unsigned_abs()))
}

/// Appends how many there are of something, as `1 level` or `2 levels`.
pub(crate) fn push_counted<A: Allocator>(
    text: &mut Vec<u8, A>,
    n: u64,
    thing: &[u8],
) -> Result<(), AllocError>
    ensures { OnOk result (text.new.items ≡ text.old.items ++ counted n thing.now) }
{
    push_number(text, n)?;
    text.extend_from_slice(b" ")?;
    text.extend_from_slice(thing)?;
    if n == 1 {
        return Ok(());
    }
    text.extend_from_slice(b"s")
}

/// How many parts of so many ticks a length has, rounded.
fn parts_of(ticks: u64, length: Length) -> u64
    requires some { 0 < ticks }
    requires few { ticks < 2 ^ 32 }
    ensures value { result ≡ parts_of ticks length }
    ensures small { result ≤ 2 ^ 60 + 2 ^ 31 }
{
    (length.ticks().unsigned_abs() + ticks / 2) / ticks
}

/// Appends a length in 1/7200 inch.
pub(crate) fn push_7200ths<A: Allocator>(
    text: &mut Vec<u8, A>,
    length: Length,
) -> Result<(), AllocError>
    ensures { OnOk result (text.new.items ≡ text.old.items ++ in_7200ths length) }
{
    push_number(text, parts_of(TICKS_PER_7200TH, length))
}

/// Appends a length.
#[tactic(auto, unfolding(crate::specs::Figures::length_in))]
pub(crate) fn push_length<A: Allocator>(
    text: &mut Vec<u8, A>,
    unit: LengthUnit,
    length: Length,
) -> Result<(), AllocError>
    ensures { OnOk result (text.new.items ≡ text.old.items ++ length_in unit length) }
{
    match unit {
        LengthUnit::Millimetres => {
            push_with_tenth(text, parts_of(TICKS_PER_TENTH_MILLIMETRE, length))
        }
        LengthUnit::Inches => push_amount(text, 10 * parts_of(TICKS_PER_THOUSANDTH_INCH, length)),
        LengthUnit::Dots => push_with_hundredths(text, parts_of(TICKS_PER_HUNDREDTH_DOT, length)),
    }
}

fn unit_name(unit: LengthUnit) -> &'static [u8]
    ensures { result.now ≡ unit_name unit }
{
    match unit {
        LengthUnit::Millimetres => b"mm",
        LengthUnit::Inches => b"in",
        LengthUnit::Dots => b"dots",
    }
}

/// Appends width and height, as `8.5 x 11 in`.
#[tactic(auto, unfolding(crate::specs::Figures::sides_in))]
pub(crate) fn push_sides<A: Allocator>(
    text: &mut Vec<u8, A>,
    unit: LengthUnit,
    width: Length,
    height: Length,
) -> Result<(), AllocError>
    ensures { OnOk result (text.new.items ≡ text.old.items ++ sides_in unit width height) }
{
    push_length(text, unit, width)?;
    text.extend_from_slice(b" x ")?;
    push_length(text, unit, height)?;
    text.extend_from_slice(b" ")?;
    text.extend_from_slice(unit_name(unit))
}
