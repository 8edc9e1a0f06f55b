//! What the words of `--panel` choose.

use clap::ArgMatches;
use device_profile::Field;
use printer_models::Paper;
use requests::Choice;
use std::alloc::{AllocError, Global};
use thiserror::Error;

/// Why the words of options ask for nothing.
#[derive(Clone, Copy, Debug, Drop, Error)]
pub enum ChoiceFault<'a> {
    #[error("--panel: '{0}' is not of the form FIELD=VALUE")]
    Form(&'a str),
    #[error("--panel: there is no field '{0}'; the fields are size, orientation, vmi, font, copies, sides, tray and lineterm")]
    Field(&'a str),
    #[error("--panel: '{0}' has no whole number, or for vmi none with up to four decimals; size and orientation take names as well, as a4 and landscape, and 'pclcheck profile show' has the numbers")]
    Value(&'a str),
    #[error("--panel: '{0}' chooses for a field that was chosen for")]
    Repeated(&'a str),
    #[error("--within: '{0}' is no length in mm or in with up to four decimals, as 0.1mm or 0.004in")]
    Length(&'a str),
    #[error("--most: it limits what --all tells, which was not asked for")]
    MostAlone,
    #[error("--picture: '-' is standard output, which has what differs in words; name a file")]
    PictureOnOutput,
    #[error("--golden: each word behind it is a job; printers come by -p and -f")]
    NoPrinter,
    #[error("out of memory")]
    Memory(#[from(alloc)] AllocError),
}

/// The choices that the option `--panel` names.
pub(crate) fn choices_of<'a>(
    alloc: Global,
    found: &ArgMatches<'a>,
) -> Result<Vec<Choice>, ChoiceFault<'a>> {
    match found.get_str("PANEL") {
        Some(words) => read_choices(alloc, words),
        None => Ok(Vec::new(alloc)),
    }
}

/// The choices that words name, as `size=26,vmi=7.5` does.
fn read_choices<'a>(alloc: Global, words: &'a str) -> Result<Vec<Choice>, ChoiceFault<'a>> {
    let mut choices: Vec<Choice> = Vec::new(alloc);
    for word in words.split(',') {
        let choice = choice_of(word)?;
        if choices.iter().any(|earlier| earlier.field == choice.field) {
            return Err(ChoiceFault::Repeated(word));
        }
        choices.push(choice)?;
    }
    Ok(choices)
}

/// The choice that a word names, as `size=26` does.
fn choice_of(word: &str) -> Result<Choice, ChoiceFault<'_>> {
    let Some((name, value)) = word.split_once('=') else {
        return Err(ChoiceFault::Form(word));
    };
    let Some(field) = field_of(name) else {
        return Err(ChoiceFault::Field(name));
    };
    let Some(value) = value_of(field, value) else {
        return Err(ChoiceFault::Value(word));
    };
    Ok(Choice { field, value })
}

fn field_of(name: &str) -> Option<Field> {
    Field::ALL
        .iter()
        .copied()
        .find(|field| field.key() == name.as_bytes())
}

/// The value of a field by its name, or as a profile's text has it.
fn value_of(field: Field, word: &str) -> Option<u32> {
    match field {
        Field::Size => size_of(word),
        Field::Orientation => orientation_of(word),
        _ if field.has_decimals() => ten_thousandths_of(word),
        _ => digits_of(word),
    }
}

/// The size of a paper, by the name that `profile list` has or by its number.
fn size_of(word: &str) -> Option<u32> {
    match Paper::named(word) {
        Some(paper) => Some(paper.code()),
        None => digits_of(word),
    }
}

/// The orientation of a name in any letter case, as `profile show` has it with a hyphen for the
/// blank, or of a number.
fn orientation_of(word: &str) -> Option<u32> {
    if word.eq_ignore_ascii_case("portrait") {
        Some(0)
    } else if word.eq_ignore_ascii_case("landscape") {
        Some(1)
    } else if word.eq_ignore_ascii_case("reverse-portrait") {
        Some(2)
    } else if word.eq_ignore_ascii_case("reverse-landscape") {
        Some(3)
    } else {
        digits_of(word)
    }
}

/// The ten-thousandths of a number with up to four decimals.
pub(crate) fn ten_thousandths_of(word: &str) -> Option<u32> {
    let Some((whole, decimals)) = word.split_once('.') else {
        return digits_of(word)?.checked_mul(10_000);
    };
    let whole = digits_of(whole)?.checked_mul(10_000)?;
    whole.checked_add(decimals_of(decimals)?)
}

/// What a digit counts that is the last of so many decimals, the first decimal at 0.
const SCALES: [u32; 4] = [1000, 100, 10, 1];

/// The ten-thousandths that one to four decimals are.
fn decimals_of(word: &str) -> Option<u32> {
    let scale = SCALES.get(word.len().checked_sub(1)?)?;
    digits_of(word)?.checked_mul(*scale)
}

/// The number that digits are.
fn digits_of(word: &str) -> Option<u32> {
    if word.as_bytes().iter().all(u8::is_ascii_digit) {
        word.parse().ok()
    } else {
        None
    }
}
