//! Numbers as they stand in the sheet, in its commands and in print.
ghost use Rattle.std.specs.Prelude.{◌≡◌, ◌++◌, ◌≤◌, ◌^◌, OnOk};
ghost use Rattle.test_sheet.specs.Figures.{amount, millimetres, signed_amount};

use crate::dots::tenths_of_millimetres;
use shown_bytes::{push_minus, push_with_four_decimals, push_with_hundredths, push_with_tenth};
use std::alloc::{AllocError, Allocator};

/// Appends so many ten-thousandths, with two or four decimals where that is no whole number.
#[tactic(auto, unfolding(crate::specs::Figures::amount))]
pub(crate) fn push_amount<A: Allocator>(text: &mut Vec<u8, A>, n: u32) -> Result<(), AllocError>
    ensures { OnOk result (text.new.items ≡ text.old.items ++ amount n) }
{
    if n % 100 == 0 {
        push_with_hundredths(text, u64::from(n / 100))
    } else {
        push_with_four_decimals(text, u64::from(n))
    }
}

/// Appends so many ten-thousandths, which may be less than 0.
#[tactic(auto, unfolding(crate::specs::Figures::signed_amount))]
pub(crate) fn push_signed_amount<A: Allocator>(
    text: &mut Vec<u8, A>,
    n: i32,
) -> Result<(), AllocError>
    ensures { OnOk result (text.new.items ≡ text.old.items ++ signed_amount n) }
{
    push_minus(text, n)?;
    push_amount(text, n.unsigned_abs())
}

/// Appends so many ticks in millimetres, with one decimal.
#[tactic(auto, unfolding(crate::specs::Figures::millimetres))]
pub(crate) fn push_millimetres<A: Allocator>(
    text: &mut Vec<u8, A>,
    ticks: u64,
) -> Result<(), AllocError>
    requires { ticks ≤ 2 ^ 62 }
    ensures { OnOk result (text.new.items ≡ text.old.items ++ millimetres ticks) }
{
    push_with_tenth(text, tenths_of_millimetres(ticks))
}
