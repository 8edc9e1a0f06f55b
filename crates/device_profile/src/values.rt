//! The values that a line of a profile's text gives.
ghost use Rattle.std.specs.Prelude.{◌≡◌, ◌≢◌, ◌∷◌, [], ℕ, List, length, IfOk, IsTrue, MatchOption};
ghost use Rattle.std.specs.Prelude.{MatchResult, SomeIff, Ok, Err, if◌then◌else◌};
ghost use Rattle.std.specs.List.{filter_map, list_all};
ghost use Rattle.device_profile.specs.LineFault.{IsCauseOf};
ghost use Rattle.device_profile.specs.declared.fault.Cause.TheVariants.{Range};
ghost use Rattle.device_profile.specs.Values.{value_of, is_between, is_value, are_values};
ghost use Rattle.device_profile.specs.Values.{has_repeat, values_on_line, number_on_line, is_name};
ghost use Rattle.device_profile.specs.Words.{words_of};

use crate::fault::{Cause, LineFault};
use crate::field::Field;
use crate::scan::{amount, next_word, number};
use std::alloc::{AllocError, Allocator};

/// The number that a word is in a field.
fn value(field: Field, word: &[u8]) -> Option<u128>
    ensures { result ≡ value_of field word.now }
{
    if field.has_decimals() {
        amount(word)
    } else {
        number(word).map(u128::from)
    }
}

/// The numbers among the words of a line.
fn numbers_of<A: Allocator>(
    alloc: A,
    field: Field,
    words: &[u8],
) -> Result<Vec<u128, A>, AllocError>
    ensures { IfOk result (λ numbers. numbers.items ≡
        filter_map (value_of field) (words_of words.now)) }
{
    let mut numbers = Vec::new(alloc);
    let mut rest = words;
    while let Some((word, after)) = next_word(rest) {
        if let Some(number) = value(field, word) {
            numbers.push(number)?;
        }
        rest = after;
    }
    Ok(numbers)
}

/// How many words a line has.
pub(crate) fn count_words(line: &[u8]) -> usize
    ensures { result ≡ length (words_of line.now) }
{
    let mut count = 0;
    let mut rest = line;
    while let Some((_, after)) = next_word(rest) {
        count += 1;
        rest = after;
    }
    count
}

/// Whether some number stands twice.
fn has_repeat(numbers: &[u128]) -> bool
    ensures { result ≡ has_repeat numbers.now }
{
    for (i, number) in numbers.iter().enumerate() {
        if numbers[i + 1..].contains(number) {
            return true;
        }
    }
    false
}

/// The least and the greatest value of a field.
fn bounds(field: Field) -> (u32, u32)
    ensures { (value : ℕ) → is_value field value ≡ is_between result.0 result.1 value }
{
    match field {
        Field::Size => (1, 999),
        Field::Orientation => (0, 3),
        Field::Vmi => (0, 3_350_000),
        Field::Font | Field::Tray => (1, 255),
        Field::Copies => (1, 32_767),
        Field::Sides => (0, 2),
        Field::LineTerm => (0, 3),
    }
}

/// A number as a value of a field, where the field may have it.
fn field_value(field: Field, number: u128) -> Option<u32>
    ensures { SomeIff result (IsTrue (is_value field number)) number }
{
    let (least, most) = bounds(field);
    let value = u32::try_from(number).ok()?;
    (least..=most).contains(&value).then_some(value)
}

const MOST_VALUES: usize = 16;

/// The numbers as 1 to 16 values of a field.
fn field_values<A: Allocator>(
    alloc: A,
    field: Field,
    numbers: &[u128],
) -> Result<Vec<u32, A>, LineFault>
    ensures { MatchResult result
        (λ values. IsTrue (are_values field numbers.now) × (values.items ≡ numbers.now))
        (IsCauseOf (if are_values field numbers.now then Ok numbers.now else Err Range)) }
{
    if !is_count(numbers.len()) {
        return Err(LineFault::Wrong(Cause::Range));
    }
    each_value(alloc, field, numbers)
}

/// Whether a field may have so many values.
fn is_count(count: usize) -> bool
    ensures { result ≡ is_between 1 16 count }
{
    (1..=MOST_VALUES).contains(&count)
}

/// The numbers as values of a field.
fn each_value<A: Allocator>(
    alloc: A,
    field: Field,
    numbers: &[u128],
) -> Result<Vec<u32, A>, LineFault>
    ensures { MatchResult result
        (λ values. IsTrue (list_all (is_value field) numbers.now) × (values.items ≡ numbers.now))
        (IsCauseOf (if list_all (is_value field) numbers.now then Ok numbers.now else Err Range)) }
{
    let mut values = Vec::new(alloc);
    for number in numbers {
        let Some(value) = field_value(field, *number) else {
            return Err(LineFault::Wrong(Cause::Range));
        };
        values.push(value)?;
    }
    Ok(values)
}

/// The values that the words behind a key list for a field.
#[tactic(auto, unfolding(crate::specs::Values::values_on_line))]
pub(crate) fn values_on_line<A: Allocator + Copy>(
    alloc: A,
    field: Field,
    words: &[u8],
) -> Result<Vec<u32, A>, LineFault>
    ensures { MatchResult result
        (λ values. values_on_line field (words_of words.now) ≡ Ok values.items)
        (IsCauseOf (values_on_line field (words_of words.now))) }
{
    let numbers = numbers_of(alloc, field, words)?;
    if has_repeat(&numbers) {
        return Err(LineFault::Wrong(Cause::Repeated));
    }
    if numbers.len() != count_words(words) {
        return Err(LineFault::Wrong(Cause::Range));
    }
    field_values(alloc, field, &numbers)
}

/// The only word of a line.
fn only_word(line: &[u8]) -> Option<&[u8]>
    ensures { MatchOption result
        ((word : List ℕ) → words_of line.now ≢ word ∷ [])
        (λ word. words_of line.now ≡ word.now ∷ []) }
{
    let (word, rest) = next_word(line)?;
    next_word(rest).is_none().then_some(word)
}

/// The one number behind a key, up to the most.
#[tactic(auto, using(crate::proofs::ValueFacts::no_number), unfolding(crate::specs::Values::number_on_line))]
pub(crate) fn number_on_line(most: u32, words: &[u8]) -> Option<u32>
    ensures { result ≡ number_on_line most (words_of words.now) }
{
    let number = number(only_word(words)?)?;
    if number <= u64::from(most) {
        Some(number as u32)
    } else {
        None
    }
}

/// Whether each byte is printable and no space.
fn is_graphic(word: &[u8]) -> bool
    ensures { result ≡ list_all (is_between 33 126) word.now }
{
    word.iter().all(|byte| byte.is_ascii_graphic())
}

const LONGEST_NAME: usize = 32;

/// Whether the words behind `name` are a name: one word of 1 to 32 printable bytes.
#[tactic(auto, using(crate::proofs::ValueFacts::no_name), unfolding(crate::specs::Values::is_name))]
pub(crate) fn is_name(words: &[u8]) -> bool
    ensures { result ≡ is_name (words_of words.now) }
{
    let Some(word) = only_word(words) else {
        return false;
    };
    word.len() <= LONGEST_NAME && is_graphic(word)
}
