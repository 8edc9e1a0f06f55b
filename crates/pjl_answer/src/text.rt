//! The text of a profile with what a printer's answer tells.
ghost use Rattle.std.specs.Prelude.{◌≡◌, ◌++◌, ◌∷◌, [], find, flat_map, option_map, unwrap_or};
ghost use Rattle.std.specs.Prelude.{IfOk, OnOk};
ghost use Rattle.std.specs.Str.{bytes_eq};
ghost use Rattle.std.specs.Str.Lines.{lines};
ghost use Rattle.device_profile.specs.Field.{field_key};
ghost use Rattle.device_profile.specs.Text.{words_of_line};
ghost use Rattle.pjl_answer.specs.Text.{added_line, answered_text, behind_comments};
ghost use Rattle.pjl_answer.specs.Text.{behind_warnings, device_line, duplex_words, field_line};
ghost use Rattle.pjl_answer.specs.Text.{field_of, field_on, first_line, head_with};
ghost use Rattle.pjl_answer.specs.Text.{is_duplex_line, is_warning, line_after, origin};
ghost use Rattle.pjl_answer.specs.Text.{told_line, value_word, version};
ghost use Rattle.pjl_answer.specs.Told.{values_in};
ghost use Rattle.pjl_answer.specs.Warning.{warnings};

use crate::config::device_duplex;
use crate::told_values::told;
use crate::values::ToldValues;
use crate::warning::Warning;
use crate::warning_text::push_warning_lines;
use device_profile::{FORMAT_NAME, Field, Format, Profile, format_of, next_line, next_word};
use shown_bytes::{push_number, push_with_four_decimals};
use std::alloc::{AllocError, Allocator};

/// The first of these fields whose line begins with a word.
fn first_field(fields: &[Field], word: &[u8]) -> Option<Field>
    ensures { result ≡ find (λ field. bytes_eq (field_key field) word.now) fields.now }
{
    fields.iter().copied().find(|field| field.key() == word)
}

/// The field whose line begins with a word.
#[tactic(auto, unfolding(crate::specs::Text::field_of))]
fn field_of(word: &[u8]) -> Option<Field>
    ensures { result ≡ field_of word.now }
{
    first_field(&Field::ALL, word)
}

/// The field of a line; a comment, whose first byte is `#`, has none.
fn field_on(line: &[u8]) -> Option<Field>
    ensures { result ≡ field_on (words_of_line line.now) }
{
    if let [b'#', ..] = line {
        return None;
    }
    let (word, _) = next_word(line)?;
    field_of(word)
}

/// Appends a value of a field.
fn push_value<A: Allocator>(
    text: &mut Vec<u8, A>,
    field: Field,
    value: u32,
) -> Result<(), AllocError>
    ensures { OnOk result (text.new.items ≡ text.old.items ++ value_word field value) }
{
    if field.has_decimals() {
        push_with_four_decimals(text, u64::from(value))
    } else {
        push_number(text, u64::from(value))
    }
}

/// Appends the line of a field, without its end.
fn push_field<A: Allocator>(
    text: &mut Vec<u8, A>,
    field: Field,
    values: ToldValues,
) -> Result<(), AllocError>
    ensures { OnOk result
        (text.new.items ≡ text.old.items ++ field_line field (values_in values)) }
{
    text.extend_from_slice(field.key())?;
    match values {
        ToldValues::One(value) => push_word(text, field, value),
        ToldValues::Two(first, second) => {
            push_word(text, field, first)?;
            push_word(text, field, second)
        }
    }
}

/// Appends a value of a field behind a space.
fn push_word<A: Allocator>(
    text: &mut Vec<u8, A>,
    field: Field,
    value: u32,
) -> Result<(), AllocError>
    ensures { OnOk result (text.new.items ≡ text.old.items ++ (32 ∷ value_word field value)) }
{
    text.push(b' ')?;
    push_value(text, field, value)
}

/// The field of a line, and what an answer tells for it.
fn told_on<B: Allocator>(
    base: &Profile<B>,
    answer: &[u8],
    line: &[u8],
) -> Option<(Field, ToldValues)>
    ensures { option_map (λ on. field_line on.0 (values_in on.1)) result
        ≡ told_line base.now answer.now line.now }
{
    let field = field_on(line)?;
    let values = told(base, answer, field)?;
    Some((field, values))
}

/// Whether a line says whether the device has duplex.
fn is_duplex_line(line: &[u8]) -> bool
    ensures { result ≡ is_duplex_line (words_of_line line.now) }
{
    if let [b'#', ..] = line {
        return false;
    }
    match next_word(line) {
        Some((word, _)) => word == b"duplex".as_slice(),
        None => false,
    }
}

/// Whether the device has duplex, where a line says it and an answer tells it.
fn duplex_on(answer: &[u8], line: &[u8]) -> Option<bool>
    ensures { option_map duplex_words result ≡ device_line answer.now line.now }
{
    if is_duplex_line(line) {
        device_duplex(answer)
    } else {
        None
    }
}

/// The line that says whether the device has duplex.
fn duplex_words(has_duplex: bool) -> &'static str
    ensures { result.now ≡ duplex_words has_duplex }
{
    if has_duplex { "duplex 1" } else { "duplex 0" }
}

/// Appends a line of the device: as it was, or as an answer tells it.
fn push_device_line<A: Allocator>(
    text: &mut Vec<u8, A>,
    answer: &[u8],
    line: &[u8],
) -> Result<(), AllocError>
    ensures { OnOk result (text.new.items
        ≡ text.old.items ++ unwrap_or (device_line answer.now line.now) line.now) }
{
    match duplex_on(answer, line) {
        Some(has_duplex) => text.extend_from_slice(duplex_words(has_duplex).as_bytes()),
        None => text.extend_from_slice(line),
    }
}

/// Appends a line of a profile's text: as it was, or as an answer tells it.
fn push_line<A: Allocator, B: Allocator>(
    text: &mut Vec<u8, A>,
    base: &Profile<B>,
    answer: &[u8],
    line: &[u8],
) -> Result<(), AllocError>
    ensures { OnOk result
        (text.new.items ≡ text.old.items ++ line_after base.now answer.now line.now) }
{
    match told_on(base, answer, line) {
        Some((field, values)) => push_field(text, field, values)?,
        None => push_device_line(text, answer, line)?,
    }
    text.extend_from_slice(b"\n")
}

/// Appends the lines of a text.
fn push_lines<A: Allocator, B: Allocator>(
    text: &mut Vec<u8, A>,
    base: &Profile<B>,
    answer: &[u8],
    old: &[u8],
) -> Result<(), AllocError>
    ensures { OnOk result (text.new.items
        ≡ text.old.items ++ flat_map (line_after base.now answer.now) (lines old.now)) }
{
    let mut rest = old;
    while let Some((line, after)) = next_line(rest) {
        push_line(text, base, answer, line)?;
        rest = after;
    }
    Ok(())
}

/// The version that the text is of; one that has a line termination is of the second.
fn version(format: Format, line_termination: Option<ToldValues>) -> &'static str
    ensures { result.now ≡ version format (option_map values_in line_termination) }
{
    match (format, line_termination) {
        (Format::One, None) => "1",
        (Format::One, Some(_)) | (Format::Two, _) => "2",
    }
}

/// Appends the first line.
fn push_first_line<A: Allocator>(
    text: &mut Vec<u8, A>,
    format: Format,
    line_termination: Option<ToldValues>,
) -> Result<(), AllocError>
    ensures { OnOk result (text.new.items
        ≡ text.old.items ++ first_line format (option_map values_in line_termination)) }
{
    text.extend_from_slice(FORMAT_NAME)?;
    text.extend_from_slice(b" ")?;
    text.extend_from_slice(version(format, line_termination).as_bytes())?;
    text.extend_from_slice(b"\n")
}

/// Appends a line for line termination, which a text of the first version has not.
fn push_added_line<A: Allocator>(
    text: &mut Vec<u8, A>,
    format: Format,
    values: Option<ToldValues>,
) -> Result<(), AllocError>
    ensures { OnOk result (text.new.items
        ≡ text.old.items ++ added_line format (option_map values_in values)) }
{
    match (format, values) {
        (Format::One, Some(values)) => {
            push_field(text, Field::LineTerm, values)?;
            text.extend_from_slice(b"\n")
        }
        (Format::One, None) | (Format::Two, _) => Ok(()),
    }
}

/// What the comments say first.
const ORIGIN: &[u8] = b"# With a printer's answer to '@PJL INFO', by 'pclcheck profile from-pjl'. \
    Lines are the answer's.";

/// What begins the comment of a warning.
const WARNING_START: &[u8] = b"# line ";

/// Whether a line is the comment of a warning.
#[tactic(auto, unfolding(crate::specs::Text::warning_start))]
fn is_warning(line: &[u8]) -> bool
    ensures { result ≡ is_warning line.now }
{
    line.starts_with(WARNING_START)
}

/// The text behind the comments of warnings that begin it.
fn behind_warnings(text: &[u8]) -> &[u8]
    ensures { lines result.now ≡ behind_warnings (lines text.now) }
{
    let mut rest = text;
    while let Some((line, after)) = next_line(rest) {
        if !is_warning(line) {
            return rest;
        }
        rest = after;
    }
    rest
}

/// Whether a line is what comments say first.
#[tactic(auto, unfolding(crate::specs::Text::origin))]
fn is_origin(line: &[u8]) -> bool
    ensures { result ≡ bytes_eq line.now origin }
{
    line == ORIGIN
}

/// The text without the comments of an earlier answer, where these begin it.
fn behind_comments(text: &[u8]) -> &[u8]
    ensures { lines result.now ≡ behind_comments (lines text.now) }
{
    let Some((line, more)) = next_line(text) else {
        return text;
    };
    if is_origin(line) {
        behind_warnings(more)
    } else {
        text
    }
}

/// Appends what the comments say first.
#[tactic(auto, unfolding(crate::specs::Text::origin))]
fn push_origin<A: Allocator>(text: &mut Vec<u8, A>) -> Result<(), AllocError>
    ensures { OnOk result (text.new.items ≡ text.old.items ++ origin ++ 10 ∷ []) }
{
    text.extend_from_slice(ORIGIN)?;
    text.extend_from_slice(b"\n")
}

/// Appends the first line, the comments with these warnings, and the line that is added.
fn push_head<A: Allocator>(
    text: &mut Vec<u8, A>,
    answer: &[u8],
    all: &[Warning],
    format: Format,
    line_termination: Option<ToldValues>,
) -> Result<(), AllocError>
    ensures { OnOk result (text.new.items ≡ text.old.items
        ++ head_with format (option_map values_in line_termination) answer.now all.now) }
{
    push_first_line(text, format, line_termination)?;
    push_origin(text)?;
    push_warning_lines(text, b"# ", answer, all)?;
    push_added_line(text, format, line_termination)
}

/// The text of a profile with what an answer tells, whose warnings are these.
#[tactic(auto, unfolding(crate::specs::Text::answered_text))]
pub(crate) fn text_with<A: Allocator, B: Allocator>(
    alloc: A,
    base: &Profile<B>,
    answer: &[u8],
    all: &[Warning],
    old: &[u8],
) -> Result<Vec<u8, A>, AllocError>
    requires { all.now ≡ warnings base.now answer.now }
    ensures { IfOk result (λ text. text.items ≡ answered_text base.now answer.now old.now) }
{
    let mut text = Vec::new(alloc);
    if let Some((first, rest)) = next_line(old) {
        let format = format_of(first).unwrap_or(Format::One);
        let line_termination = told(base, answer, Field::LineTerm);
        push_head(&mut text, answer, all, format, line_termination)?;
        push_lines(&mut text, base, answer, behind_comments(rest))?;
    }
    Ok(text)
}
