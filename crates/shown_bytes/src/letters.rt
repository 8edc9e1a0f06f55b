//! Names as they stand in sentences.
//!
//! An error means that the allocator refused a request.
ghost use Rattle.std.specs.Prelude.{◌≡◌, ◌++◌, OnOk, flat_map};
ghost use Rattle.std.specs.Str.{chars};
ghost use Rattle.shown_bytes.specs.Shown.{is_between, is_letter, shown_letter, shown_text, steers};

use crate::shown::push_shown;
use std::alloc::{AllocError, Allocator};

/// Appends a name with its letters of UTF-8 as they are. Control characters, what steers a
/// terminal, and backslashes stand by the digits of their bytes, as `push_shown` has them; so do
/// all bytes of a name that is no UTF-8 text.
pub fn push_shown_text<A: Allocator>(out: &mut Vec<u8, A>, name: &[u8]) -> Result<(), AllocError>
    ensures { OnOk result (out.new.items ≡ out.old.items ++ shown_text name.now) }
{
    match str::from_utf8(name) {
        Ok(text) => push_letters(out, text),
        Err(_) => push_shown(out, name),
    }
}

/// Appends each character of a text.
fn push_letters<A: Allocator>(out: &mut Vec<u8, A>, text: &str) -> Result<(), AllocError>
    ensures { OnOk result (out.new.items ≡
        out.old.items ++ flat_map shown_letter (chars text.now)) }
{
    for letter in text.chars() {
        push_letter(out, letter)?;
    }
    Ok(())
}

/// Appends a character as itself, or by the digits of its bytes.
fn push_letter<A: Allocator>(out: &mut Vec<u8, A>, letter: char) -> Result<(), AllocError>
    ensures { OnOk result (out.new.items ≡ out.old.items ++ shown_letter letter) }
{
    let mut bytes = [0u8; 4];
    let spelling = letter.encode_utf8(&mut bytes).as_bytes();
    if is_letter(letter as u32) {
        out.extend_from_slice(spelling)
    } else {
        push_shown(out, spelling)
    }
}

/// Whether the character of this number shows as itself, and is none of ASCII.
fn is_letter(number: u32) -> bool
    ensures { result ≡ is_letter number }
{
    number >= 160 && !steers(number)
}

/// Whether the character of this number ends a line or turns the direction of a text.
fn steers(number: u32) -> bool
    ensures { result ≡ steers number }
{
    is_between(0x200e, 0x200f, number)
        || is_between(0x2028, 0x202e, number)
        || is_between(0x2066, 0x2069, number)
}

fn is_between(first: u32, last: u32, number: u32) -> bool
    ensures { result ≡ is_between first last number }
{
    first <= number && number <= last
}
