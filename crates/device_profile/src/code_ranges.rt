//! The codes that a face prints, as a profile's text lists them.
ghost use Rattle.std.specs.Prelude.{◌≡◌, ◌<◌, ◌==◌, ◌∷◌, [], length, IfOk, IfSome, Some, None};
ghost use Rattle.std.specs.Prelude.{option_map, if◌then◌else◌};
ghost use Rattle.std.specs.List.{slice_split};
ghost use Rattle.std.specs.Option.{option_and_then, option_map_or};
ghost use Rattle.device_profile.specs.FaceLine.{codes_of, range_of};
ghost use Rattle.device_profile.specs.Faces.{is_range_from};

use crate::font::CodeRange;
use crate::scan::{number, place_of};
use std::alloc::{AllocError, Allocator};

const FIRST_CODE: u64 = 33;

const LAST_CODE: u64 = 255;

/// The ranges that a word lists between commas, where each begins behind the one before.
pub(crate) fn code_ranges<A: Allocator>(
    alloc: A,
    word: &[u8],
) -> Result<Option<Vec<CodeRange, A>>, AllocError>
    ensures { IfOk result (λ ranges. option_map (λ r. r.items) ranges ≡ codes_of word.now) }
{
    let mut ranges = Vec::new(alloc);
    let mut least = FIRST_CODE;
    let mut rest = Some(word);
    while let Some(parts) = rest {
        let (part, after) = first_part(parts, b',');
        let Some(range) = range_from(least, part) else {
            return Ok(None);
        };
        ranges.push(range)?;
        least = u64::from(range.last) + 1;
        rest = after;
    }
    Ok(Some(ranges))
}

/// The range that a word gives, where it begins at a code or behind it.
fn range_from(least: u64, word: &[u8]) -> Option<CodeRange>
    ensures { result ≡ option_and_then (λ range. if is_range_from least range then Some range
        else None) (range_of word.now) }
{
    let (first, rest) = first_part(word, b'-');
    let (last, more) = first_part(rest?, b'-');
    if more.is_some() {
        return None;
    }
    let (first, last) = (number(first)?, number(last)?);
    if least <= first && first <= last && last <= LAST_CODE {
        Some(CodeRange {
            first: first as u8,
            last: last as u8,
        })
    } else {
        None
    }
}

/// What stands before the first such byte, and what stands behind it; or all, where there is no
/// such byte.
fn first_part(text: &[u8], byte: u8) -> (&[u8], Option<&[u8]>)
    ensures parts { slice_split (λ b. b == byte) text.now
        ≡ result.0.now ∷ option_map_or (λ rest. slice_split (λ b. b == byte) rest.now) result.1 [] }
    ensures shorter { IfSome result.1 (λ rest. length rest.now < length text.now) }
{
    let end = place_of(text, byte);
    if end == text.len() {
        (text, None)
    } else {
        (&text[..end], Some(&text[end + 1..]))
    }
}
