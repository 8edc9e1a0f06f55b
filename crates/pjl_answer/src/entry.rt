//! The variables and their values in a printer's answer.
ghost use Rattle.std.specs.Prelude.{◌≡◌, Some, None, MatchOption, option_map};
ghost use Rattle.std.specs.List.{list_all, list_any};
ghost use Rattle.pjl_answer.specs.Answer.{entry_of, is_answer, is_given, is_text, odd_line};
ghost use Rattle.pjl_answer.specs.Answer.{value_of};

use crate::line::value_in_line;
use crate::variable::{VARIABLES, Variable};
use device_profile::next_line;

/// The number of the first line that gives a variable, counted from 1, and the value.
#[tactic(auto, unfolding(crate::specs::Answer::entry_of))]
pub(crate) fn entry_of(answer: &[u8], variable: Variable) -> Option<(u64, &[u8])>
    ensures { MatchOption result (entry_of answer.now variable ≡ None)
        (λ entry. entry_of answer.now variable ≡ Some (entry.0, entry.1.now)) }
{
    let mut number = 1;
    let mut rest = answer;
    while let Some((line, after)) = next_line(rest) {
        if let Some(value) = value_in_line(variable, line) {
            return Some((number, value));
        }
        number += 1;
        rest = after;
    }
    None
}

/// The value of a variable.
pub(crate) fn value_of(answer: &[u8], variable: Variable) -> Option<&[u8]>
    ensures { option_map (λ value. value.now) result ≡ value_of answer.now variable }
{
    match entry_of(answer, variable) {
        Some((_, value)) => Some(value),
        None => None,
    }
}

/// Whether an answer gives a variable.
pub(crate) fn is_given(answer: &[u8], variable: Variable) -> bool
    ensures { result ≡ is_given answer.now variable }
{
    entry_of(answer, variable).is_some()
}

/// Whether these bytes are an answer: they give some variable that is read.
pub fn is_answer(answer: &[u8]) -> bool
    ensures { result ≡ is_answer answer.now }
{
    gives_one_of(answer, &VARIABLES)
}

/// Whether an answer gives one of these variables.
fn gives_one_of(answer: &[u8], variables: &[Variable]) -> bool
    ensures { result ≡ list_any (is_given answer.now) variables.now }
{
    variables.iter().any(|variable| is_given(answer, *variable))
}

/// Whether a byte is one of text: it is printable, or white space.
fn is_text(byte: u8) -> bool
    ensures { result ≡ is_text byte }
{
    32 <= byte && byte <= 126 || byte.is_ascii_whitespace()
}

/// Whether each byte of a line is one of text.
fn is_line_of_text(line: &[u8]) -> bool
    ensures { result ≡ list_all is_text line.now }
{
    line.iter().all(|byte| is_text(*byte))
}

/// The number of the first line with a byte that is not one of text, counted from 1; or 1, where
/// there is none.
pub fn odd_line(answer: &[u8]) -> u64
    ensures { result ≡ odd_line answer.now }
{
    let mut number = 1;
    let mut rest = answer;
    while let Some((line, after)) = next_line(rest) {
        if !is_line_of_text(line) {
            return number;
        }
        number += 1;
        rest = after;
    }
    1
}
