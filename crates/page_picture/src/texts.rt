//! Characters as they stand in a text of XML.
ghost use Rattle.std.specs.Prelude.{◌≡◌, ◌++◌, OnOk};
ghost use Rattle.page_picture.specs.Texts.{byte_text, character_text, reference, sentence_text};

use shown_bytes::push_number;
use std::alloc::{AllocError, Allocator};

/// Appends a character: as itself in ASCII but for `&`, `<` and `>`, and else by its number.
#[tactic(auto, unfolding(crate::specs::Texts::character_text))]
pub(crate) fn push_character<A: Allocator>(
    text: &mut Vec<u8, A>,
    character: u16,
) -> Result<(), AllocError>
    ensures { OnOk result (text.new.items ≡ text.old.items ++ character_text character) }
{
    match character {
        38 => text.extend_from_slice(b"&amp;"),
        60 => text.extend_from_slice(b"&lt;"),
        62 => text.extend_from_slice(b"&gt;"),
        0..=126 => text.extend_from_slice(&[character as u8]),
        _ => push_reference(text, character),
    }
}

/// Appends a character by its number.
#[tactic(auto, unfolding(crate::specs::Texts::reference))]
fn push_reference<A: Allocator>(text: &mut Vec<u8, A>, character: u16) -> Result<(), AllocError>
    ensures { OnOk result (text.new.items ≡ text.old.items ++ reference character) }
{
    text.extend_from_slice(b"&#")?;
    push_number(text, u64::from(character))?;
    text.extend_from_slice(b";")
}

/// Appends a byte of a sentence, which is UTF-8 text; for one that shows nothing the replacement
/// character.
fn push_byte<A: Allocator>(text: &mut Vec<u8, A>, byte: u8) -> Result<(), AllocError>
    ensures { OnOk result (text.new.items ≡ text.old.items ++ byte_text byte) }
{
    if 128 <= byte {
        text.push(byte)?;
        return Ok(());
    }
    if 32 <= byte && byte <= 126 {
        push_character(text, u16::from(byte))
    } else {
        text.extend_from_slice(b"&#65533;")
    }
}

/// Appends a sentence.
pub fn push_sentence_text<A: Allocator>(
    text: &mut Vec<u8, A>,
    sentence: &[u8],
) -> Result<(), AllocError>
    ensures { OnOk result (text.new.items ≡ text.old.items ++ sentence_text sentence.now) }
{
    for byte in sentence {
        push_byte(text, *byte)?;
    }
    Ok(())
}
