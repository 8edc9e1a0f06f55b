//! Numbers with decimals, as they stand in texts.
//!
//! An error means that the allocator refused a request.
ghost use Rattle.std.specs.Prelude.{◌≡◌, ◌≤◌, ◌++◌, ◌∷◌, [], ℕ, OnOk, length};
ghost use Rattle.shown_bytes.specs.Decimals.{
  amount,
  digit,
  four_decimals,
  minus,
  with_four_decimals,
  with_hundredths,
  with_millionths,
  with_point,
  with_tenth,
  without_zeros,
};

use crate::numbers::push_number;
use std::alloc::{AllocError, Allocator};

/// The last digit of a number.
#[inline(always)]
pub fn digit(n: u64) -> u8
    ensures { result ≡ digit n }
{
    b'0' + (n % 10) as u8
}

/// Appends the minus of a number that is less than 0, and nothing for any other.
#[tactic(auto, unfolding(crate::specs::Decimals::minus))]
pub fn push_minus<A: Allocator>(text: &mut Vec<u8, A>, n: i32) -> Result<(), AllocError>
    ensures { OnOk result (text.new.items ≡ text.old.items ++ minus n) }
{
    if n < 0 {
        return text.extend_from_slice(b"-");
    }
    Ok(())
}

// ---- as many decimals as are named

/// Appends a number of so many tenths, with one decimal.
pub fn push_with_tenth<A: Allocator>(text: &mut Vec<u8, A>, n: u64) -> Result<(), AllocError>
    ensures { OnOk result (text.new.items ≡ text.old.items ++ with_tenth n) }
{
    push_number(text, n / 10)?;
    text.extend_from_slice(&[b'.', digit(n)])
}

/// Appends a number of so many hundredths, with two decimals where it is not whole.
pub fn push_with_hundredths<A: Allocator>(text: &mut Vec<u8, A>, n: u64) -> Result<(), AllocError>
    ensures { OnOk result (text.new.items ≡ text.old.items ++ with_hundredths n) }
{
    push_number(text, n / 100)?;
    if n % 100 == 0 {
        return Ok(());
    }
    text.extend_from_slice(&[b'.', digit(n / 10), digit(n)])
}

/// A point and the four decimals of so many ten-thousandths.
#[inline(always)]
pub fn point_and_decimals(n: u64) -> [u8; 5]
    ensures { result ≡ 46 ∷ four_decimals n }
{
    [
        b'.',
        digit(n / 1_000),
        digit(n / 100),
        digit(n / 10),
        digit(n),
    ]
}

/// Appends a number of so many ten-thousandths, with four decimals where it is not whole.
pub fn push_with_four_decimals<A: Allocator>(
    text: &mut Vec<u8, A>,
    n: u64,
) -> Result<(), AllocError>
    ensures { OnOk result (text.new.items ≡ text.old.items ++ with_four_decimals n) }
{
    push_number(text, n / 10_000)?;
    if n % 10_000 == 0 {
        return Ok(());
    }
    text.extend_from_slice(&point_and_decimals(n))
}

// ---- no more decimals than are needed

/// What is shown of a point and four decimals: no zeros at the end, and no point that is last.
#[inline(always)]
pub fn shown_decimals(text: &[u8; 5]) -> &[u8]
    ensures within { length result.now ≤ 5 }
    ensures shown { (a b c d : ℕ) → text.now ≡ 46 ∷ a ∷ b ∷ c ∷ d ∷ [] →
        result.now ≡ with_point (without_zeros (a ∷ b ∷ c ∷ d ∷ [])) }
{
    let [_, tenth, hundredth, thousandth, last] = *text;
    if last != b'0' {
        text
    } else if thousandth != b'0' {
        &text[..4]
    } else if hundredth != b'0' {
        &text[..3]
    } else if tenth != b'0' {
        &text[..2]
    } else {
        &text[..0]
    }
}

/// Appends a point and the decimals that a number of so many ten-thousandths needs, if any.
fn push_decimals<A: Allocator>(text: &mut Vec<u8, A>, n: u64) -> Result<(), AllocError>
    ensures { OnOk result (text.new.items ≡
        text.old.items ++ with_point (without_zeros (four_decimals n))) }
{
    text.extend_from_slice(shown_decimals(&point_and_decimals(n)))
}

/// Appends a number of so many ten-thousandths, with the decimals that it needs.
#[tactic(auto, unfolding(crate::specs::Decimals::amount))]
pub fn push_amount<A: Allocator>(text: &mut Vec<u8, A>, n: u64) -> Result<(), AllocError>
    ensures { OnOk result (text.new.items ≡ text.old.items ++ amount n) }
{
    push_number(text, n / 10_000)?;
    push_decimals(text, n)
}

/// Appends a number of so many millionths, with the decimals that it needs.
#[tactic(auto, unfolding(crate::specs::Decimals::with_millionths))]
pub fn push_with_millionths<A: Allocator>(text: &mut Vec<u8, A>, n: u64) -> Result<(), AllocError>
    ensures { OnOk result (text.new.items ≡ text.old.items ++ with_millionths n) }
{
    if n % 100 == 0 {
        return push_amount(text, n / 100);
    }
    push_number(text, n / 1_000_000)?;
    text.extend_from_slice(&point_and_decimals(n / 100))?;
    text.push(digit(n / 10))?;
    if n % 10 == 0 {
        return Ok(());
    }
    text.push(digit(n))?;
    Ok(())
}
