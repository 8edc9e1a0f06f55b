//! Lines of files as they are quoted, and words between others.
ghost use Rattle.std.specs.Prelude.{◌≡◌, ◌++◌, decimal, take, OnOk};
ghost use Rattle.profile_lint.specs.Shown.{dots_behind, line_at, quoted};

use device_profile::next_line;
use shown_bytes::{push_number, push_shown};
use std::alloc::{AllocError, Allocator};

/// So many bytes of a line are quoted at the most.
const MOST_QUOTED: usize = 40;

/// The part of a line that is quoted.
fn quoted_part(line: &[u8]) -> &[u8]
    ensures { result.now ≡ take 40 line.now }
{
    if line.len() > MOST_QUOTED {
        &line[..MOST_QUOTED]
    } else {
        line
    }
}

/// Dots, where a line has more bytes than are quoted.
fn dots_behind(line: &[u8]) -> &'static [u8]
    ensures { result.now ≡ dots_behind line.now }
{
    if line.len() > MOST_QUOTED { b".." } else { b"" }
}

/// Appends a line between quotes.
#[tactic(auto, unfolding(crate::specs::Shown::quoted))]
pub(crate) fn push_quoted<A: Allocator>(out: &mut Vec<u8, A>, line: &[u8]) -> Result<(), AllocError>
    ensures { OnOk result (out.new.items ≡ out.old.items ++ quoted line.now) }
{
    out.extend_from_slice(b"'")?;
    push_shown(out, quoted_part(line))?;
    out.extend_from_slice(dots_behind(line))?;
    out.extend_from_slice(b"'")
}

/// The line of a number, which counts from 1, without its end; it is empty where there is none.
pub(crate) fn line_at(text: &[u8], number: u64) -> &[u8]
    ensures { result.now ≡ line_at text.now number }
{
    let mut rest = text;
    let mut left = number;
    while let Some((line, after)) = next_line(rest) {
        if left <= 1 {
            return line;
        }
        left -= 1;
        rest = after;
    }
    &[]
}

/// Appends a number between words.
pub(crate) fn push_number_in<A: Allocator>(
    out: &mut Vec<u8, A>,
    before: &[u8],
    number: u32,
    behind: &[u8],
) -> Result<(), AllocError>
    ensures { OnOk result
        (out.new.items ≡ out.old.items ++ (before.now ++ decimal number ++ behind.now)) }
{
    out.extend_from_slice(before)?;
    push_number(out, u64::from(number))?;
    out.extend_from_slice(behind)
}

/// Appends two numbers between words.
pub(crate) fn push_numbers_in<A: Allocator>(
    out: &mut Vec<u8, A>,
    before: &[u8],
    first: u32,
    between: &[u8],
    second: u32,
    behind: &[u8],
) -> Result<(), AllocError>
    ensures { OnOk result
        (out.new.items ≡ out.old.items ++
        (before.now ++ decimal first ++ between.now ++ decimal second ++ behind.now)) }
{
    push_number_in(out, before, first, between)?;
    push_number(out, u64::from(second))?;
    out.extend_from_slice(behind)
}

/// Appends a word between others, and what follows.
pub(crate) fn push_word_in<A: Allocator>(
    out: &mut Vec<u8, A>,
    before: &[u8],
    word: &[u8],
    behind: &[u8],
    last: &[u8],
) -> Result<(), AllocError>
    ensures { OnOk result
        (out.new.items ≡ out.old.items ++ (before.now ++ word.now ++ behind.now ++ last.now)) }
{
    out.extend_from_slice(before)?;
    out.extend_from_slice(word)?;
    out.extend_from_slice(behind)?;
    out.extend_from_slice(last)
}
