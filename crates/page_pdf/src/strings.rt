//! Letters as strings: those of one face and size that follow one another on a line are one.
ghost use Rattle.std.specs.Prelude.{◌≡◌};
ghost use Rattle.std.specs.Option.{option_and_then};
ghost use Rattle.page_picture.specs.Characters.{character_of};
ghost use Rattle.page_pdf.specs.Codes.{letter_of};
ghost use Rattle.page_pdf.specs.Strings.{
  are_alike,
  are_as_wide,
  face_number,
  goes_behind,
  is_letter,
  is_right_of,
};

use crate::codes::letter_of;
use crate::figures::box_width;
use device_profile::FontRequest;
use page_env::{Bounds, Glyph};
use page_picture::{character_of, is_bold, is_italic};

/// The code of a character in the faces, where they have it.
fn code_of(glyph: &Glyph) -> Option<u8>
    ensures { result ≡ option_and_then letter_of
        (character_of glyph.now.request.symbol_set glyph.now.code) }
{
    letter_of(character_of(glyph.request.symbol_set, glyph.code)?)
}

/// Whether a face has a character.
pub(crate) fn is_letter(glyph: &Glyph) -> bool
    ensures { result ≡ is_letter glyph.now }
{
    code_of(glyph).is_some()
}

/// The number of a face.
fn face_number(request: &FontRequest) -> u8
    ensures { result ≡ face_number request.now }
{
    if is_bold(request.weight) {
        if is_italic(request.style) { 4 } else { 2 }
    } else if is_italic(request.style) {
        3
    } else {
        1
    }
}

/// Whether letters look alike.
fn are_alike(a: &FontRequest, b: &FontRequest) -> bool
    ensures { result ≡ are_alike a.now b.now }
{
    face_number(a) == face_number(b) && a.height == b.height
}

/// Whether letters are of one width, which their size gives exactly.
fn are_as_wide(a: &Bounds, b: &Bounds) -> bool
    ensures { result ≡ are_as_wide a.now b.now }
{
    box_width(a) == box_width(b) && box_width(a) % 3 == 0
}

/// Whether one begins on a line where another ends.
fn is_right_of(last: &Glyph, glyph: &Glyph) -> bool
    ensures { result ≡ is_right_of last.now glyph.now }
{
    last.y.ticks() == glyph.y.ticks() && last.bounds.right.ticks() == glyph.bounds.left.ticks()
}

/// Whether a character goes on with a string whose last letter is another.
pub(crate) fn goes_behind(last: &Glyph, glyph: &Glyph) -> bool
    ensures { result ≡ goes_behind last.now glyph.now }
{
    is_letter(glyph)
        && are_alike(&last.request, &glyph.request)
        && are_as_wide(&last.bounds, &glyph.bounds)
        && is_right_of(last, glyph)
}
