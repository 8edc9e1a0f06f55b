//! Numbers with a letter behind them, as symbol sets are named.
//!
//! An error means that the allocator refused a request.
ghost use Rattle.std.specs.Prelude.{◌≡◌, ◌++◌, OnOk};
ghost use Rattle.shown_bytes.specs.Lettered.{lettered};

use crate::decimals::push_amount;
use std::alloc::{AllocError, Allocator};

/// Appends a number of so many ten-thousandths, with the decimals that it needs, and a letter.
#[tactic(auto, unfolding(crate::specs::Lettered::lettered))]
pub fn push_lettered<A: Allocator>(
    text: &mut Vec<u8, A>,
    n: u32,
    letter: u8,
) -> Result<(), AllocError>
    ensures { OnOk result (text.new.items ≡ text.old.items ++ lettered n letter) }
{
    push_amount(text, u64::from(n))?;
    text.push(letter)?;
    Ok(())
}
