//! Sentences and names as codes of letters.
ghost use Rattle.std.specs.Prelude.{◌≡◌, ◌++◌, OnOk};
ghost use Rattle.page_pdf.specs.Hexes.{letter_code, letter_codes, plain_byte};

use crate::figures::push_code;
use std::alloc::{AllocError, Allocator};

/// A byte that shows, and a question mark for any other.
fn plain_byte(byte: u8) -> u8
    ensures { result ≡ plain_byte byte }
{
    if 32 <= byte && byte <= 126 {
        byte
    } else {
        b'?'
    }
}

/// Appends the code of a byte of it.
#[tactic(auto, unfolding(crate::specs::Hexes::letter_code))]
fn push_letter<A: Allocator>(text: &mut Vec<u8, A>, byte: u8) -> Result<(), AllocError>
    ensures { OnOk result (text.new.items ≡ text.old.items ++ letter_code byte) }
{
    push_code(text, plain_byte(byte))
}

/// Appends the codes of a sentence, or of a name.
pub(crate) fn push_letters<A: Allocator>(
    text: &mut Vec<u8, A>,
    bytes: &[u8],
) -> Result<(), AllocError>
    ensures { OnOk result (text.new.items ≡ text.old.items ++ letter_codes bytes.now) }
{
    for byte in bytes {
        push_letter(text, *byte)?;
    }
    Ok(())
}
