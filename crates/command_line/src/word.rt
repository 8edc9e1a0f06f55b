//! The words that the program is started with, which need not be text.

use shown_bytes::push_shown;
use std::alloc::{AllocError, Global};
use std::convert::AsStr;

/// A word that the program is started with.
#[derive(Drop)]
pub struct Word {
    /// The word, or where it is no UTF-8 text a text that stands for it.
    reading: String,
    /// The bytes that `reading` stands for.
    bytes: Option<Vec<u8>>,
}

impl Word {
    /// The word of these bytes.
    ///
    /// An error means that the allocator refused a request.
    pub fn new(alloc: Global, bytes: Vec<u8>) -> Result<Word, AllocError> {
        match String::from_utf8(bytes) {
            Ok(reading) => Ok(Word {
                reading,
                bytes: None,
            }),
            Err(error) => Word::without_text(alloc, error.into_bytes()),
        }
    }

    /// The word of bytes that are no text.
    fn without_text(alloc: Global, bytes: Vec<u8>) -> Result<Word, AllocError> {
        let reading = stand_in(alloc, bytes.as_slice())?;
        Ok(Word {
            reading,
            bytes: Some(bytes),
        })
    }

    /// The bytes for which this text stands.
    fn bytes_behind(&self, text: &str) -> Option<&[u8]> {
        let Some(bytes) = &self.bytes else {
            return None;
        };
        if self.reading.as_str() != text {
            return None;
        }
        Some(bytes.as_slice())
    }
}

impl AsStr for Word {
    ghost use Rattle.std.specs.Prelude.{string_bytes};

    ghost text = { λ word. string_bytes word.reading };

    fn as_str(&self) -> &str {
        self.reading.as_str()
    }
}

/// A text that stands for bytes: as a line shows them, and behind them a zero byte, which no word
/// has that the system gives.
fn stand_in(alloc: Global, bytes: &[u8]) -> Result<String, AllocError> {
    let mut shown = Vec::new(alloc);
    push_shown(&mut shown, bytes)?;
    let mut text = String::new(alloc);
    for byte in shown.as_slice() {
        text.push(char::from(*byte))?;
    }
    text.push('\0')?;
    Ok(text)
}

/// Whether a text stands for a word that is no text.
pub(crate) fn is_stand_in(text: &str) -> bool {
    text.ends_with('\0')
}

/// The first of these texts that stands for a word that is no text.
pub(crate) fn first_stand_in<'a>(texts: &[&'a str]) -> Option<&'a str> {
    for text in texts {
        if is_stand_in(text) {
            return Some(*text);
        }
    }
    None
}

/// What stands for the first word that is no text, behind the program's own name.
pub(crate) fn first_without_text(words: &[Word]) -> Option<&str> {
    for (place, word) in words.iter().enumerate() {
        if place > 0 && word.bytes.is_some() {
            return Some(word.reading.as_str());
        }
    }
    None
}

/// The bytes of the word that a text is, or stands for.
pub(crate) fn bytes_of<'a>(words: &'a [Word], text: &'a str) -> &'a [u8] {
    if is_stand_in(text) {
        for word in words {
            if let Some(bytes) = word.bytes_behind(text) {
                return bytes;
            }
        }
    }
    text.as_bytes()
}

/// A text without the zero bytes of those that stand for words.
pub(crate) fn without_zeros(alloc: Global, text: &str) -> Result<Vec<u8>, AllocError> {
    let mut told = Vec::new(alloc);
    for byte in text.as_bytes() {
        if *byte != 0 {
            told.push(*byte)?;
        }
    }
    Ok(told)
}
