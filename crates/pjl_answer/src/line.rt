//! What a line of a printer's answer gives.
ghost use Rattle.std.specs.Prelude.{◌≡◌, ◌==◌, ◌∷◌, ◌<◌, ◌≤◌, [], IfSome, drop, length, option_map};
ghost use Rattle.std.specs.List.{position_or_len, slice_split};
ghost use Rattle.std.specs.Option.{option_map_or};
ghost use Rattle.pjl_answer.specs.Answer.{after_byte, before_byte, has_byte, is_indented};
ghost use Rattle.pjl_answer.specs.Answer.{is_line_of, is_of_pcl, name_of, trimmed, unquoted};
ghost use Rattle.pjl_answer.specs.Answer.{value_at, value_in, value_in_line};

use crate::variable::Variable;

/// The place of the first such byte, or the length where there is none.
fn place_of(text: &[u8], byte: u8) -> usize
    ensures place { result ≡ position_or_len (λ b. b == byte) text.now }
    ensures within { result ≤ length text.now }
{
    for (i, b) in text.iter().enumerate() {
        if *b == byte {
            return i;
        }
    }
    text.len()
}

/// What stands before the first such byte, or all where there is none.
pub(crate) fn before_byte(text: &[u8], byte: u8) -> &[u8]
    ensures { result.now ≡ before_byte byte text.now }
{
    &text[..place_of(text, byte)]
}

/// What stands behind the first such byte.
fn after_byte(text: &[u8], byte: u8) -> &[u8]
    ensures { result.now ≡ after_byte byte text.now }
{
    let place = place_of(text, byte);
    if place == text.len() {
        &[]
    } else {
        &text[place + 1..]
    }
}

/// Whether a text has such a byte.
fn has_byte(text: &[u8], byte: u8) -> bool
    ensures { result ≡ has_byte byte text.now }
{
    place_of(text, byte) < text.len()
}

/// A text without the white space at its start and at its end.
pub(crate) fn trimmed(text: &[u8]) -> &[u8]
    ensures { result.now ≡ trimmed text.now }
{
    text.trim_ascii()
}

/// Whether `LPARM`, a colon and `PCL` stand before a name.
fn is_of_pcl(name: &[u8]) -> bool
    ensures { result ≡ is_of_pcl name.now }
{
    trimmed(before_byte(name, b':')) == b"LPARM".as_slice()
        && trimmed(after_byte(name, b':')).starts_with(b"PCL ")
}

/// A text behind its first four bytes.
fn behind_four(text: &[u8]) -> &[u8]
    ensures { result.now ≡ drop 4 text.now }
{
    match text {
        [_, _, _, _, rest @ ..] => rest,
        _ => &[],
    }
}

/// A name without them.
#[tactic(auto, unfolding(crate::specs::Answer::name_of))]
fn name_of(name: &[u8]) -> &[u8]
    ensures { result.now ≡ name_of name.now }
{
    if is_of_pcl(name) {
        trimmed(behind_four(trimmed(after_byte(name, b':'))))
    } else {
        trimmed(name)
    }
}

/// A value without the quotes that it may stand in.
fn unquoted(text: &[u8]) -> &[u8]
    ensures { result.now ≡ unquoted text.now }
{
    match text {
        [b'"', quoted @ ..] => before_byte(quoted, b'"'),
        _ => text,
    }
}

/// The value at the front of what stands behind `=`.
#[tactic(auto, unfolding(crate::specs::Answer::value_at))]
fn value_at(text: &[u8]) -> &[u8]
    ensures { result.now ≡ value_at text.now }
{
    unquoted(trimmed(before_byte(text, b'[')))
}

/// Whether a line begins with a tab or a space.
pub(crate) fn is_indented(line: &[u8]) -> bool
    ensures { result ≡ is_indented line.now }
{
    match line {
        [b'\t' | b' ', ..] => true,
        _ => false,
    }
}

/// Whether a line gives a variable.
fn is_line_of(variable: Variable, line: &[u8]) -> bool
    ensures { result ≡ is_line_of variable line.now }
{
    !is_indented(line)
        && has_byte(line, b'=')
        && name_of(before_byte(line, b'=')) == variable.word().as_bytes()
}

/// The value that a line gives a variable.
#[tactic(auto, unfolding(crate::specs::Answer::value_in))]
fn value_in(variable: Variable, line: &[u8]) -> Option<&[u8]>
    ensures { option_map (λ value. value.now) result ≡ value_in variable line.now }
{
    if is_line_of(variable, line) {
        Some(value_at(after_byte(line, b'=')))
    } else {
        None
    }
}

/// What stands before the first form feed, and what stands behind it; or all, where there is none.
fn first_part(line: &[u8]) -> (&[u8], Option<&[u8]>)
    ensures parts { slice_split (λ b. b == 12) line.now
        ≡ result.0.now ∷ option_map_or (λ rest. slice_split (λ b. b == 12) rest.now) result.1 [] }
    ensures shorter { IfSome result.1 (λ rest. length rest.now < length line.now) }
{
    let end = place_of(line, b'\x0c');
    if end == line.len() {
        (line, None)
    } else {
        (&line[..end], Some(&line[end + 1..]))
    }
}

/// The value that a line gives a variable in the first of its parts that does.
#[tactic(auto, using(crate::proofs::Parts::first_gives, crate::proofs::Parts::others_give), unfolding(crate::specs::Answer::value_in_line))]
pub(crate) fn value_in_line(variable: Variable, line: &[u8]) -> Option<&[u8]>
    ensures { option_map (λ value. value.now) result ≡ value_in_line variable line.now }
{
    let (part, rest) = first_part(line);
    if let Some(value) = value_in(variable, part) {
        return Some(value);
    }
    value_in_line(variable, rest?)
}
