//! Names as the texts of a document.
ghost use Rattle.std.specs.Prelude.{◌≡◌, ◌++◌, OnOk, flat_map};
ghost use Rattle.std.specs.List.{list_any};
ghost use Rattle.std.specs.Str.{chars};
ghost use Rattle.page_pdf.specs.Titles.{
  character_units,
  is_wide,
  number_digits,
  pair_digits,
  plain_number,
  title_codes,
  unicode_digits,
  unit_digits,
  wide_codes,
};

use crate::figures::push_code;
use crate::hexes::push_letters;
use std::alloc::{AllocError, Allocator};

/// Appends a name: of letters of ASCII by their codes, and one with other letters by Unicode, where
/// it is UTF-8 text.
pub(crate) fn push_title<A: Allocator>(text: &mut Vec<u8, A>, name: &[u8]) -> Result<(), AllocError>
    ensures { OnOk result (text.new.items ≡ text.old.items ++ title_codes name.now) }
{
    if has_wide(name) {
        return push_wide(text, name);
    }
    push_letters(text, name)
}

/// Whether a name has a byte of no letter of ASCII.
fn has_wide(name: &[u8]) -> bool
    ensures { result ≡ list_any is_wide name.now }
{
    name.iter().any(|byte| is_wide(*byte))
}

fn is_wide(byte: u8) -> bool
    ensures { result ≡ is_wide byte }
{
    127 < byte
}

/// Appends a name that has one.
fn push_wide<A: Allocator>(text: &mut Vec<u8, A>, name: &[u8]) -> Result<(), AllocError>
    ensures { OnOk result (text.new.items ≡ text.old.items ++ wide_codes name.now) }
{
    match str::from_utf8(name) {
        Ok(told) => push_unicode(text, told),
        Err(_) => push_letters(text, name),
    }
}

/// Appends a text by Unicode, behind the mark that tells it.
#[tactic(auto, unfolding(crate::specs::Titles::unicode_digits))]
fn push_unicode<A: Allocator>(text: &mut Vec<u8, A>, told: &str) -> Result<(), AllocError>
    ensures { OnOk result (text.new.items ≡ text.old.items ++ unicode_digits told.now) }
{
    push_unit(text, 0xfeff)?;
    push_characters(text, told)
}

fn push_characters<A: Allocator>(text: &mut Vec<u8, A>, told: &str) -> Result<(), AllocError>
    ensures { OnOk result (text.new.items ≡
        text.old.items ++ flat_map character_units (chars told.now)) }
{
    for character in told.chars() {
        push_character(text, character)?;
    }
    Ok(())
}

fn push_character<A: Allocator>(text: &mut Vec<u8, A>, character: char) -> Result<(), AllocError>
    ensures { OnOk result (text.new.items ≡ text.old.items ++ character_units character) }
{
    push_number(text, plain_number(character as u32))
}

/// The number of a character, and that of a question mark for a control character of ASCII.
fn plain_number(number: u32) -> u32
    ensures { result ≡ plain_number number }
{
    if number < 32 || number == 127 {
        63
    } else {
        number
    }
}

/// Appends the character of a number by its units of UTF-16.
fn push_number<A: Allocator>(text: &mut Vec<u8, A>, number: u32) -> Result<(), AllocError>
    ensures { OnOk result (text.new.items ≡ text.old.items ++ number_digits number) }
{
    if number < 0x1_0000 {
        push_unit(text, number)
    } else {
        push_pair(text, number - 0x1_0000)
    }
}

/// Appends the two units of a character that stands so far behind the first 65,536.
#[tactic(auto, unfolding(crate::specs::Titles::pair_digits))]
fn push_pair<A: Allocator>(text: &mut Vec<u8, A>, over: u32) -> Result<(), AllocError>
    ensures { OnOk result (text.new.items ≡ text.old.items ++ pair_digits over) }
{
    push_unit(text, 0xd800 + over / 1024)?;
    push_unit(text, 0xdc00 + over % 1024)
}

/// Appends a unit by four digits.
#[tactic(auto, unfolding(crate::specs::Titles::unit_digits))]
fn push_unit<A: Allocator>(text: &mut Vec<u8, A>, unit: u32) -> Result<(), AllocError>
    ensures { OnOk result (text.new.items ≡ text.old.items ++ unit_digits unit) }
{
    push_code(text, (unit / 256 % 256) as u8)?;
    push_code(text, (unit % 256) as u8)
}
