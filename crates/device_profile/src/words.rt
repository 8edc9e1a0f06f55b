//! The words of a line by their places, and numbers within bounds.
ghost use Rattle.std.specs.Prelude.{◌≡◌, [], drop, get_or};
ghost use Rattle.device_profile.specs.Words.{number_of, words_of};
ghost use Rattle.device_profile.specs.FaceLine.{between};

use crate::scan::{next_word, number};

/// The word at a place, counted from 0, or an empty one where the line has no more words.
pub(crate) fn nth_word(line: &[u8], n: usize) -> &[u8]
    ensures { result.now ≡ get_or (words_of line.now) n [] }
{
    match next_word(line) {
        Some((word, _)) if n == 0 => word,
        Some((_, rest)) => nth_word(rest, n - 1),
        None => &[],
    }
}

/// The line behind its first word.
pub(crate) fn after_word(line: &[u8]) -> &[u8]
    ensures { words_of result.now ≡ drop 1 (words_of line.now) }
{
    match next_word(line) {
        Some((_, rest)) => rest,
        None => &[],
    }
}

/// The number that a word is, where it is from the least to the most.
pub(crate) fn number_between(word: &[u8], least: u32, most: u32) -> Option<u32>
    ensures { result ≡ between least most (number_of word.now) }
{
    match number(word) {
        Some(n) if u64::from(least) <= n && n <= u64::from(most) => Some(n as u32),
        _ => None,
    }
}
