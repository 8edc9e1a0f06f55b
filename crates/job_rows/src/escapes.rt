//! Bytes as they stand in a text of HTML.
//!
//! An error means that the allocator refused a request; so in each file of this crate.
ghost use Rattle.std.specs.Prelude.{◌≡◌, ◌++◌, ℕ, List, OnOk, true};
ghost use Rattle.job_rows.specs.Escapes.{are_inert, html_byte, html_text, is_between, is_kept};
ghost use Rattle.job_rows.specs.Escapes.{kept_byte};

use std::alloc::{AllocError, Allocator};

/// Appends a text of UTF-8, whatever it holds: nothing of it begins or ends a tag, an attribute or
/// a reference. For a byte that shows nothing, but the end of a line, the replacement character
/// stands.
pub(crate) fn push_html<A: Allocator>(out: &mut Vec<u8, A>, text: &[u8]) -> Result<(), AllocError>
    ensures { OnOk result (out.new.items ≡ out.old.items ++ html_text text.now) }
{
    for byte in text {
        push_html_byte(out, *byte)?;
    }
    Ok(())
}

/// Appends a byte of such a text.
#[tactic(auto, unfolding(crate::specs::Escapes::html_byte))]
fn push_html_byte<A: Allocator>(out: &mut Vec<u8, A>, byte: u8) -> Result<(), AllocError>
    ensures { OnOk result (out.new.items ≡ out.old.items ++ html_byte byte) }
{
    match byte {
        34 => out.extend_from_slice(b"&quot;"),
        38 => out.extend_from_slice(b"&amp;"),
        39 => out.extend_from_slice(b"&#39;"),
        60 => out.extend_from_slice(b"&lt;"),
        62 => out.extend_from_slice(b"&gt;"),
        _ => push_kept(out, byte),
    }
}

/// Appends a byte that is none of the signs of HTML, or the replacement character.
fn push_kept<A: Allocator>(out: &mut Vec<u8, A>, byte: u8) -> Result<(), AllocError>
    ensures { OnOk result (out.new.items ≡ out.old.items ++ kept_byte byte) }
{
    if is_kept(byte) {
        out.extend_from_slice(&[byte])
    } else {
        out.extend_from_slice(b"&#65533;")
    }
}

/// Whether a byte stands as it is: the end of a line, what shows in ASCII, and bytes of letters
/// behind ASCII.
fn is_kept(byte: u8) -> bool
    ensures { result ≡ is_kept byte }
{
    byte == 10 || is_between(32, 126, byte) || 128 <= byte
}

/// Whatever a text holds, in a document it has neither a quote nor `<` nor `>`.
pub fn texts_are_inert()
    ensures { (text : List ℕ) → are_inert (html_text text) ≡ true }
{}

pub(crate) fn is_between(first: u8, last: u8, byte: u8) -> bool
    ensures { result ≡ is_between first last byte }
{
    first <= byte && byte <= last
}
