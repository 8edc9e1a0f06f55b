//! Lengths in millimetres, as they stand in texts.
//!
//! An error means that the allocator refused a request.
ghost use Rattle.std.specs.Prelude.{◌≡◌, ◌++◌, OnOk};
ghost use Rattle.shown_bytes.specs.Lengths.{
  millimetre_hundredths,
  millimetres,
  signed_hundredths,
};

use crate::decimals::push_with_hundredths;
use std::alloc::{AllocError, Allocator};

/// How many ticks a hundredth of a millimetre has.
const TICKS_PER_HUNDREDTH_MILLIMETRE: u64 = 14_400_000;

/// Appends a number of so many hundredths, with two decimals where it is not whole.
#[tactic(auto, unfolding(crate::specs::Lengths::signed_hundredths))]
pub fn push_with_signed_hundredths<A: Allocator>(
    text: &mut Vec<u8, A>,
    n: i64,
) -> Result<(), AllocError>
    ensures { OnOk result (text.new.items ≡ text.old.items ++ signed_hundredths n) }
{
    if n < 0 {
        text.push(b'-')?;
    }
    push_with_hundredths(text, n.unsigned_abs())
}

/// How many hundredths of a millimetre so many ticks are, rounded down.
fn millimetre_hundredths(ticks: i64) -> i64
    ensures { result ≡ millimetre_hundredths ticks }
{
    if ticks < 0 {
        -1 - ((ticks.unsigned_abs() - 1) / TICKS_PER_HUNDREDTH_MILLIMETRE) as i64
    } else {
        (ticks.unsigned_abs() / TICKS_PER_HUNDREDTH_MILLIMETRE) as i64
    }
}

/// Appends so many ticks in millimetres.
#[tactic(auto, unfolding(crate::specs::Lengths::millimetres))]
pub fn push_millimetres<A: Allocator>(text: &mut Vec<u8, A>, ticks: i64) -> Result<(), AllocError>
    ensures { OnOk result (text.new.items ≡ text.old.items ++ millimetres ticks) }
{
    push_with_signed_hundredths(text, millimetre_hundredths(ticks))
}
