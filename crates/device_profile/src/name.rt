//! The name of a printer.
ghost use Rattle.std.specs.Prelude.{◌≡◌, Some, None, MatchOption};
ghost use Rattle.device_profile.specs.Name.{name_by, printer_name};
ghost use Rattle.device_profile.specs.Words.{words_of};

use crate::scan::{next_line, next_word};

/// The name that a profile's text gives its printer, empty where it gives none.
///
/// In a text that `Profile::read` takes it has 1 to 32 bytes, which are 33 to 126.
pub fn printer_name(text: &[u8]) -> &[u8]
    ensures { result.now ≡ printer_name text.now }
{
    let mut rest = text;
    while let Some((line, after)) = next_line(rest) {
        if let Some(name) = name_by(line) {
            return name;
        }
        rest = after;
    }
    &[]
}

/// The name that a line gives, if it is one of the key `name`.
fn name_by(line: &[u8]) -> Option<&[u8]>
    ensures { MatchOption result (name_by (words_of line.now) ≡ None)
        (λ name. name_by (words_of line.now) ≡ Some name.now) }
{
    let (key, rest) = next_word(line)?;
    let (name, _) = next_word(rest)?;
    if key == b"name".as_slice() {
        Some(name)
    } else {
        None
    }
}
