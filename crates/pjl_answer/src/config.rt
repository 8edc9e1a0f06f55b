//! What an answer to `@PJL INFO CONFIG` tells of the device.
ghost use Rattle.std.specs.Prelude.{◌≡◌};
ghost use Rattle.pjl_answer.specs.Config.{device_duplex, has_line, has_no_duplex, has_words};
ghost use Rattle.pjl_answer.specs.Config.{is_config};

use crate::entry::is_given;
use crate::line::{before_byte, is_indented, trimmed};
use crate::variable::Variable;
use device_profile::next_line;

/// Whether a line has these words alone.
fn has_words(line: &[u8], words: &[u8]) -> bool
    ensures { result ≡ has_words words.now line.now }
{
    !is_indented(line) && trimmed(before_byte(line, b'[')) == words
}

/// Whether a line of an answer has these words alone.
fn has_line(answer: &[u8], words: &[u8]) -> bool
    ensures { result ≡ has_line answer.now words.now }
{
    let mut rest = answer;
    while let Some((line, after)) = next_line(rest) {
        if has_words(line, words) {
            return true;
        }
        rest = after;
    }
    false
}

/// Whether an answer tells the device.
pub(crate) fn is_config(answer: &[u8]) -> bool
    ensures { result ≡ is_config answer.now }
{
    has_line(answer, b"@PJL INFO CONFIG")
}

/// Whether the device can print on both sides, where an answer tells the device.
pub(crate) fn device_duplex(answer: &[u8]) -> Option<bool>
    ensures { result ≡ device_duplex answer.now }
{
    if !is_config(answer) {
        return None;
    }
    Some(has_line(answer, b"DUPLEX") || is_given(answer, Variable::Duplex))
}

/// Whether it is told that it cannot.
pub(crate) fn has_no_duplex(answer: &[u8]) -> bool
    ensures { result ≡ has_no_duplex answer.now }
{
    match device_duplex(answer) {
        Some(has_duplex) => !has_duplex,
        None => false,
    }
}
