//! Resident faces, and what a job asks of one.
ghost use Rattle.std.specs.Prelude.{◌≡◌, ◌↔◌, ◌<◌, ℕ, get_or, false, IsTrue};
ghost use Rattle.device_profile.specs.Faces.{is_same_request, has_code, is_text_of};

use std::alloc::{Allocator, Global};
use std::marker::Model;
use tick_length::Length;

/// A symbol set, as `ESC (` names it: its number, in ten-thousandths, and its letter.
#[derive(Clone, Copy, Debug, PartialEq, Eq)]
pub struct SymbolSet {
    /// The number, in ten-thousandths.
    pub number: u32,
    /// The termination character, from `A` to `Z` but for `X`.
    pub letter: u8,
}

/// The seven parts by which a font is selected. Numbers are in ten-thousandths. (The manual's "Font
/// Selection by Characteristic".)
#[derive(Clone, Copy, Debug, PartialEq, Eq)]
pub struct FontRequest {
    /// The symbol set, as `ESC (` names it.
    pub symbol_set: SymbolSet,
    /// The spacing, as `ESC (s#P` numbers it: 0 is fixed.
    pub spacing: u32,
    /// The pitch, in characters an inch.
    pub pitch: u32,
    /// The height, in points.
    pub height: u32,
    /// The style, as `ESC (s#S` numbers it.
    pub style: u32,
    /// The stroke weight, as `ESC (s#B` numbers it.
    pub weight: i32,
    /// The typeface, as `ESC (s#T` numbers it.
    pub typeface: u32,
}

/// Codes from the first to the last, both with it.
#[derive(Clone, Copy, PartialEq, Eq)]
pub struct CodeRange {
    /// The first code.
    pub first: u8,
    /// The last code.
    pub last: u8,
}

/// A resident face: what selects it, how its characters lie, and which codes print.
///
/// Clauses see it as a `Face`.
#[derive(Drop)]
pub struct FontRow<A: Allocator = Global> {
    pub(crate) id: u32,
    pub(crate) request: FontRequest,
    pub(crate) advance: Length,
    pub(crate) ascent: Length,
    pub(crate) descent: Length,
    pub(crate) codes: Vec<CodeRange, A>,
    /// For each code whether it prints.
    pub(crate) prints: [bool; 256],
    /// For each code whether it is text of this face: one that prints, from 32 on, or a space.
    pub(crate) text: [bool; 256],
}

impl<A: Allocator> Model for FontRow<A> {
    ghost use Rattle.device_profile.specs.Faces.{Face};

    ghost Value = { Face };

    ghost use Rattle.device_profile.specs.FaceFields.{face_of, IsFace};

    ghost view = { face_of };

    ghost invariant = { IsFace };
}

impl<A: Allocator> FontRow<A> {
    ghost use Rattle.std.specs.Prelude.{◌≡◌, pos, ◌<ℤ◌, ◌≤ℤ◌};
    ghost use Rattle.device_profile.specs.Faces.{has_code, is_text_of};

    /// The number by which the panel names the face.
    pub fn id(&self) -> u32
        ensures { result ≡ self.now.id }
    {
        self.id
    }

    /// What selects the face.
    pub fn request(&self) -> FontRequest
        ensures { result ≡ self.now.request }
    {
        self.request
    }

    /// How far a character moves the cursor.
    pub fn advance(&self) -> Length
        ensures value { result ≡ self.now.advance }
        ensures positive { pos 0 <ℤ result }
    {
        self.advance
    }

    /// How far a character reaches above the baseline.
    pub fn ascent(&self) -> Length
        ensures value { result ≡ self.now.ascent }
        ensures not_negative { pos 0 ≤ℤ result }
    {
        self.ascent
    }

    /// How far a character reaches below the baseline.
    pub fn descent(&self) -> Length
        ensures value { result ≡ self.now.descent }
        ensures not_negative { pos 0 ≤ℤ result }
    {
        self.descent
    }

    /// The codes that print, in ranges.
    pub fn codes(&self) -> &[CodeRange]
        ensures { result.now ≡ self.now.codes }
    {
        &self.codes
    }

    /// Whether a code prints.
    pub fn has_code(&self, code: u8) -> bool
        ensures { result ≡ has_code self.now.codes code }
    {
        self.prints[usize::from(code)]
    }

    /// Whether a byte of text can go in this face: it is a space, or its code prints.
    #[inline]
    pub fn is_text(&self, code: u8) -> bool
        ensures { result ≡ is_text_of self.now.codes code }
    {
        self.text[usize::from(code)]
    }
}

/// Whether the ranges are the same, one by one.
pub fn are_same_ranges(a: &[CodeRange], b: &[CodeRange]) -> bool
    ensures { IsTrue result ↔ (a.now ≡ b.now) }
{
    a == b
}

/// Whether a code is in one of the ranges.
fn is_in(ranges: &[CodeRange], code: u8) -> bool
    ensures { result ≡ has_code ranges.now code }
{
    ranges
        .iter()
        .any(|range| range.first <= code && code <= range.last)
}

/// For each code whether it is in one of the ranges.
pub(crate) fn codes_in(ranges: &[CodeRange]) -> [bool; 256]
    ensures { (code : ℕ) → code < 256 → get_or result code false ≡ has_code ranges.now code }
{
    let mut codes = [false; 256];
    for code in 0..256usize {
        codes[code] = is_in(ranges, code as u8);
    }
    codes
}

/// For each code whether it is a byte of text in a face with these ranges.
pub(crate) fn text_in(ranges: &[CodeRange]) -> [bool; 256]
    ensures { (code : ℕ) → code < 256 → get_or result code false ≡ is_text_of ranges.now code }
{
    let mut codes = [false; 256];
    for code in 0..256usize {
        codes[code] = code >= 32 && (code == 32 || is_in(ranges, code as u8));
    }
    codes
}

/// Whether the two ask for the same in all seven parts.
pub fn is_same_request(a: &FontRequest, b: &FontRequest) -> bool
    ensures { result ≡ is_same_request a.now b.now }
{
    a.symbol_set.number == b.symbol_set.number
        && a.symbol_set.letter == b.symbol_set.letter
        && a.spacing == b.spacing
        && a.pitch == b.pitch
        && a.height == b.height
        && a.style == b.style
        && a.weight == b.weight
        && a.typeface == b.typeface
}
