//! Numbers and bytes as they stand in lines of text.
ghost use Rattle.std.specs.Prelude.{◌≡◌, ◌++◌, OnOk, decimal, flat_map};
ghost use Rattle.line_words.specs.Figures.{escaped_byte, length_word, named, number_word};
ghost use Rattle.line_words.specs.Figures.{signed_word, value_word};
ghost use Rattle.shown_bytes.specs.Decimals.{amount};
ghost use Rattle.shown_bytes.specs.Shown.{hex_byte};

use itoa::Buffer;
use pcl_spelling::spell_magnitude;
use shown_bytes::{hex_byte, push_minus, push_number, push_shown_from};
use std::alloc::{AllocError, Allocator};
use tick_length::Length;

/// Appends a number behind its name.
pub fn push_named<A: Allocator>(
    text: &mut Vec<u8, A>,
    name: &[u8],
    number: u64,
) -> Result<(), AllocError>
    ensures { OnOk result (text.new.items ≡ text.old.items ++ named name.now number) }
{
    text.extend_from_slice(name)?;
    push_number(text, number)
}

/// Appends a space and a number.
pub fn push_number_word<A: Allocator>(text: &mut Vec<u8, A>, number: u64) -> Result<(), AllocError>
    ensures { OnOk result (text.new.items ≡ text.old.items ++ number_word number) }
{
    text.push(b' ')?;
    push_number(text, number)
}

/// Appends a space and a number of ticks.
pub fn push_ticks_word<A: Allocator>(text: &mut Vec<u8, A>, ticks: i64) -> Result<(), AllocError>
    ensures { OnOk result (text.new.items ≡ text.old.items ++ length_word ticks) }
{
    let mut digits = Buffer::new();
    text.push(b' ')?;
    text.extend_from_slice(digits.format(ticks).as_bytes())
}

/// Appends a space and a length in ticks.
pub fn push_length_word<A: Allocator>(
    text: &mut Vec<u8, A>,
    length: Length,
) -> Result<(), AllocError>
    ensures { OnOk result (text.new.items ≡ text.old.items ++ length_word length) }
{
    push_ticks_word(text, length.ticks())
}

/// Appends a value of so many ten-thousandths.
#[tactic(auto, unfolding(shown_bytes::specs::Decimals::amount))]
fn push_value<A: Allocator>(text: &mut Vec<u8, A>, n: u32) -> Result<(), AllocError>
    ensures { OnOk result (text.new.items ≡ text.old.items ++ amount n) }
{
    spell_magnitude(n, text)
}

/// Appends a space and a value of so many ten-thousandths.
#[tactic(auto, unfolding(crate::specs::Figures::value_word))]
pub fn push_value_word<A: Allocator>(text: &mut Vec<u8, A>, n: u32) -> Result<(), AllocError>
    ensures { OnOk result (text.new.items ≡ text.old.items ++ value_word n) }
{
    text.push(b' ')?;
    push_value(text, n)
}

/// Appends a space and a value of so many ten-thousandths, which may be less than 0.
#[tactic(auto, unfolding(crate::specs::Figures::signed_word))]
pub fn push_signed_word<A: Allocator>(text: &mut Vec<u8, A>, n: i32) -> Result<(), AllocError>
    ensures { OnOk result (text.new.items ≡ text.old.items ++ signed_word n) }
{
    text.push(b' ')?;
    push_minus(text, n)?;
    push_value(text, n.unsigned_abs())
}

/// Appends bytes as two hexadecimal digits each.
pub fn push_hex<A: Allocator>(text: &mut Vec<u8, A>, bytes: &[u8]) -> Result<(), AllocError>
    ensures { OnOk result (text.new.items ≡ text.old.items ++ flat_map hex_byte bytes.now) }
{
    for byte in bytes {
        text.extend_from_slice(&hex_byte(*byte))?;
    }
    Ok(())
}

/// Appends bytes, and those that show nothing, and blanks and backslashes, by their digits.
pub fn push_escaped<A: Allocator>(text: &mut Vec<u8, A>, bytes: &[u8]) -> Result<(), AllocError>
    ensures { OnOk result (text.new.items ≡ text.old.items ++ flat_map escaped_byte bytes.now) }
{
    push_shown_from(text, b'!', bytes)
}
