//! Which letters of the faces a character is.
ghost use Rattle.std.specs.Prelude.{◌≡◌};
ghost use Rattle.page_pdf.specs.Codes.{
  code_at,
  face_name,
  hidden_name,
  hidden_name_of,
  letter_of,
  place_of,
  upright_or_italic,
  windows_letter,
};

use device_profile::FontRequest;
use page_picture::{Repertoire, WINDOWS_FROM_128, is_bold, is_italic};

/// Where a character stands in a table.
fn place_of(table: &[u16], character: u16) -> Option<usize>
    ensures { result ≡ place_of table.now character }
{
    table.iter().position(|entry| *entry == character)
}

/// The code of what stands at a place of the table, which has 32.
fn code_at(place: usize) -> Option<u8>
    ensures { result ≡ code_at place }
{
    if place < 32 {
        Some(128 + place as u8)
    } else {
        None
    }
}

/// The code of a character that stands in the table of Windows Latin 1.
#[tactic(auto, unfolding(crate::specs::Codes::windows_letter))]
fn windows_letter(character: u16) -> Option<u8>
    ensures { result ≡ windows_letter character }
{
    code_at(place_of(&WINDOWS_FROM_128, character)?)
}

/// The code of a character, where the faces have it.
#[tactic(auto, unfolding(crate::specs::Codes::letter_of))]
pub(crate) fn letter_of(character: u16) -> Option<u8>
    ensures { result ≡ letter_of character }
{
    if 32 <= character && character <= 126 {
        Some(character as u8)
    } else if 160 <= character && character <= 255 {
        Some(character as u8)
    } else {
        windows_letter(character)
    }
}

/// One of two faces, by posture.
fn upright_or_italic(
    upright: &'static [u8],
    italic: &'static [u8],
    is_italic: bool,
) -> &'static [u8]
    ensures { result.now ≡ upright_or_italic upright.now italic.now is_italic }
{
    if is_italic { italic } else { upright }
}

/// The face by stroke weight and posture.
#[tactic(auto, unfolding(crate::specs::Codes::face_name))]
pub(crate) fn face_name(request: &FontRequest) -> &'static [u8]
    ensures { result.now ≡ face_name request.now }
{
    if is_bold(request.weight) {
        upright_or_italic(b"F2", b"F4", is_italic(request.style))
    } else {
        upright_or_italic(b"F1", b"F3", is_italic(request.style))
    }
}

/// The face of characters of a known set that do not show.
fn hidden_name_of(repertoire: Repertoire) -> &'static [u8]
    ensures { result.now ≡ hidden_name_of repertoire }
{
    match repertoire {
        Repertoire::Pc8 => b"G1",
        Repertoire::Pc850 => b"G2",
        _ => b"G3",
    }
}

/// The face of characters that do not show, by their symbol set.
#[tactic(auto, unfolding(crate::specs::Codes::hidden_name))]
pub(crate) fn hidden_name(repertoire: Option<Repertoire>) -> &'static [u8]
    ensures { result.now ≡ hidden_name repertoire }
{
    match repertoire {
        None => b"G3",
        Some(repertoire) => hidden_name_of(repertoire),
    }
}
