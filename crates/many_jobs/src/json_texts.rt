//! Names and words as texts of JSON.
ghost use Rattle.std.specs.Prelude.{◌≡◌, IfOk, flat_map, string_bytes};
ghost use Rattle.std.specs.Str.{IsAscii};
ghost use Rattle.many_jobs.specs.JsonTexts.{backslash_doubled, name_text, words_text};
ghost use Rattle.shown_bytes.specs.Shown.{shown};

use shown_bytes::push_shown;
use std::alloc::{AllocError, Global};

/// A name as a text of JSON has it.
pub fn name_text(memory: Global, name: &[u8]) -> Result<String, AllocError>
    ensures { IfOk result (λ text. string_bytes text ≡ name_text name.now) }
{
    match str::from_utf8(name) {
        Ok(text) => with_backslashes_doubled(memory, text),
        Err(_) => shown_text(memory, name),
    }
}

/// Words of the program as a text of JSON has them.
pub fn words_text(memory: Global, words: &[u8]) -> Result<String, AllocError>
    ensures { IfOk result (λ text. string_bytes text ≡ words_text words.now) }
{
    match str::from_utf8(words) {
        Ok(text) => String::from_str(memory, text),
        Err(_) => shown_text(memory, words),
    }
}

/// A text with each backslash doubled.
fn with_backslashes_doubled(memory: Global, text: &str) -> Result<String, AllocError>
    ensures { IfOk result (λ doubled. string_bytes doubled ≡ flat_map backslash_doubled text.now) }
{
    let mut doubled = String::new(memory);
    for character in text.chars() {
        if character == '\\' {
            doubled.push('\\')?;
        }
        doubled.push(character)?;
    }
    Ok(doubled)
}

/// A name in which bytes that show nothing, and backslashes, stand by their digits.
fn shown_text(memory: Global, name: &[u8]) -> Result<String, AllocError>
    ensures { IfOk result (λ text. string_bytes text ≡ shown name.now) }
{
    let mut words = Vec::new(memory);
    push_shown(&mut words, name)?;
    Ok(text_of(words))
}

/// Bytes of ASCII as a text.
fn text_of(words: Vec<u8>) -> String
    requires { IsAscii words.items }
    ensures { string_bytes result ≡ words.items }
{
    match String::from_utf8(words) {
        Ok(text) => text,
        Err(_) => unreachable!(),
    }
}
