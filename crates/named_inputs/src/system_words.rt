//! What the system says of a failure.

use std::alloc::Allocator;
use std::io;

/// The words of an error, where there is one, and memory for them. The number that std writes
/// behind the system's words is left out.
pub fn system_words<A: Allocator + Copy>(alloc: A, error: Option<io::Error>) -> Option<String<A>> {
    let error = error?;
    let text = format!(in alloc; "{error}").ok()?;
    let (words, _) = text
        .split_once(" (os error ")
        .unwrap_or((text.as_str(), ""));
    let mut told = String::new(alloc);
    told.push_str(words).ok()?;
    Some(told)
}
