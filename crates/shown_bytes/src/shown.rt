//! Bytes of files as they stand in lines for a terminal.
ghost use Rattle.std.specs.Prelude.{◌≡◌, ◌<◌, ◌++◌, OnOk, flat_map};
ghost use Rattle.shown_bytes.specs.Shown.{hex_byte, hex_digit, shown, shown_from};

use std::alloc::{AllocError, Allocator};

/// A digit to base 16, in small letters.
fn hex_digit(digit: u8) -> u8
    requires { digit < 16 }
    ensures { result ≡ hex_digit digit }
{
    if digit < 10 {
        b'0' + digit
    } else {
        b'a' + (digit - 10)
    }
}

/// A byte by two digits to base 16.
pub fn hex_byte(byte: u8) -> [u8; 2]
    ensures { result ≡ hex_byte byte }
{
    [hex_digit(byte / 16), hex_digit(byte % 16)]
}

/// Appends a byte as itself from `first` on; one that shows nothing, or a backslash, as `\x` and
/// two hexadecimal digits.
#[inline(always)]
fn push_byte_from<A: Allocator>(out: &mut Vec<u8, A>, first: u8, byte: u8) -> Result<(), AllocError>
    ensures { OnOk result (out.new.items ≡ out.old.items ++ shown_from first byte) }
{
    if first <= byte && byte <= 126 && byte != b'\\' {
        out.push(byte)?;
        return Ok(());
    }
    out.extend_from_slice(b"\\x")?;
    out.extend_from_slice(&hex_byte(byte))
}

/// Appends bytes, each as itself from `first` on, and those that show nothing, and backslashes, by
/// their digits.
///
/// An error means that the allocator refused a request.
// Inlined, so that the first byte that shows is a number in the loop of each caller.
#[inline(always)]
pub fn push_shown_from<A: Allocator>(
    out: &mut Vec<u8, A>,
    first: u8,
    bytes: &[u8],
) -> Result<(), AllocError>
    ensures { OnOk result (out.new.items ≡ out.old.items ++ flat_map (shown_from first) bytes.now) }
{
    for byte in bytes {
        push_byte_from(out, first, *byte)?;
    }
    Ok(())
}

/// Appends bytes of a name or a line, and those that show nothing, and backslashes, by their
/// digits.
///
/// An error means that the allocator refused a request.
pub fn push_shown<A: Allocator>(out: &mut Vec<u8, A>, bytes: &[u8]) -> Result<(), AllocError>
    ensures { OnOk result (out.new.items ≡ out.old.items ++ shown bytes.now) }
{
    push_shown_from(out, b' ', bytes)
}
