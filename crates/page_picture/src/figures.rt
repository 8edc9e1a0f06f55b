//! Numbers and lengths as they stand in a picture, whose unit is 1/7200 inch.
ghost use Rattle.std.specs.Prelude.{◌≡◌, ◌≤◌, ◌<◌, ◌++◌, ◌^◌, OnOk, unsigned_abs};
ghost use Rattle.page_picture.specs.Figures.{
  hundredths,
  inches,
  length_units,
  millionths,
  pair_units,
  units,
};

use shown_bytes::{push_with_millionths, push_with_signed_hundredths};
use std::alloc::{AllocError, Allocator};

/// How many ticks a hundredth of a unit has.
const TICKS_PER_HUNDREDTH: u64 = 50_800;

/// How many ticks a millionth of an inch has.
const TICKS_PER_MILLIONTH_INCH: u64 = 36_576;

// ---- units

/// How many hundredths of a unit so many ticks are, rounded down.
pub fn hundredths(ticks: i64) -> i64
    ensures value { result ≡ hundredths ticks }
    ensures small { unsigned_abs result ≤ 2 ^ 48 }
{
    if ticks < 0 {
        -1 - ((ticks.unsigned_abs() - 1) / TICKS_PER_HUNDREDTH) as i64
    } else {
        (ticks.unsigned_abs() / TICKS_PER_HUNDREDTH) as i64
    }
}

/// Appends so many hundredths of a unit.
pub fn push_units<A: Allocator>(text: &mut Vec<u8, A>, n: i64) -> Result<(), AllocError>
    ensures { OnOk result (text.new.items ≡ text.old.items ++ units n) }
{
    push_with_signed_hundredths(text, n)
}

/// Appends so many ticks in units.
pub fn push_length_units<A: Allocator>(text: &mut Vec<u8, A>, ticks: i64) -> Result<(), AllocError>
    ensures { OnOk result (text.new.items ≡ text.old.items ++ length_units ticks) }
{
    push_units(text, hundredths(ticks))
}

/// Appends a place on the page, or two sides, in units.
#[tactic(auto, unfolding(crate::specs::Figures::pair_units))]
pub(crate) fn push_pair<A: Allocator>(
    text: &mut Vec<u8, A>,
    x: i64,
    y: i64,
) -> Result<(), AllocError>
    ensures { OnOk result (text.new.items ≡ text.old.items ++ pair_units x y) }
{
    push_length_units(text, x)?;
    text.extend_from_slice(b" ")?;
    push_length_units(text, y)
}

// ---- inches

/// How many millionths of an inch so many ticks are, rounded.
fn millionths(ticks: i64) -> u64
    ensures { result ≡ millionths ticks }
{
    (ticks.unsigned_abs() + TICKS_PER_MILLIONTH_INCH / 2) / TICKS_PER_MILLIONTH_INCH
}

/// Appends so many ticks in inches.
pub(crate) fn push_inches<A: Allocator>(text: &mut Vec<u8, A>, ticks: i64) -> Result<(), AllocError>
    ensures { OnOk result (text.new.items ≡ text.old.items ++ inches ticks) }
{
    push_with_millionths(text, millionths(ticks))
}
