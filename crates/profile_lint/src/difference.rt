//! What differs first among profiles, on which a job is to look alike.
ghost use Rattle.std.specs.Prelude.{◌≡◌, ◌++◌, OnOk, find, not};
ghost use Rattle.std.specs.Option.{option_copied};
ghost use Rattle.profile_lint.specs.Differences.{are_among, are_fonts_of, difference_line};
ghost use Rattle.profile_lint.specs.Differences.{difference_of, difference_words, face_difference};
ghost use Rattle.profile_lint.specs.Differences.{first_difference, has_other_face, has_other_page};
ghost use Rattle.profile_lint.specs.Differences.{has_same_values, is_same_face, is_same_page};
ghost use Rattle.profile_lint.specs.Differences.{list_difference, offers, offers_font_of};
ghost use Rattle.profile_lint.specs.Differences.{page_difference};

use crate::face_hints::are_same_codes;
use crate::hint::Area;
use crate::hint_line::push_hinted_file;
use crate::key_rules::meaning_of;
use crate::page_hints::is_same_area;
use crate::shown::{push_number_in, push_numbers_in, push_word_in};
use device_profile::{Field, FontRequest, FontRow, Geometry, Key, Profile};
use shown_bytes::push_shown;
use std::alloc::{AllocError, Allocator};

/// What differs in two profiles.
#[derive(Clone, Copy)]
pub enum Difference {
    /// The pages of this size and orientation are not the same.
    Pages { size: u32, orientation: u32 },
    /// The face of this id in the first has other numbers or codes than the face that answers the
    /// same request in the other.
    Faces(u32),
    /// The panels may have other values in a field, of fonts by their requests.
    Lists(Field),
}

/// The first difference among profiles.
#[derive(Clone, Copy)]
pub struct FirstDifference {
    /// How many profiles stand before the one that differs from the first.
    pub other: usize,
    /// What differs first in the two.
    pub difference: Difference,
}

/// The first profile that differs from the very first, and what differs first in the two: pages,
/// then faces, then the values of the panel for size, orientation, VMI, font and tray.
///
/// A size or a face that only one of them has is no difference by itself, nor is the order of
/// values.
pub fn first_difference<A: Allocator>(profiles: &[Profile<A>]) -> Option<FirstDifference>
    ensures { result ≡ first_difference profiles.now }
{
    let [first, others @ ..] = profiles else {
        return None;
    };
    for (index, other) in others.iter().enumerate() {
        if let Some(difference) = difference_of(first, other) {
            return Some(FirstDifference {
                other: index + 1,
                difference,
            });
        }
    }
    None
}

/// What differs first in two profiles.
#[tactic(auto, unfolding(crate::specs::Differences::difference_of))]
fn difference_of<A: Allocator>(a: &Profile<A>, b: &Profile<A>) -> Option<Difference>
    ensures { result ≡ difference_of a.now b.now }
{
    let pages = page_difference(a, b);
    if pages.is_some() {
        return pages;
    }
    let faces = face_difference(a, b);
    if faces.is_some() {
        return faces;
    }
    list_difference(a, b)
}

/// The first page that is not the same.
fn page_difference<A: Allocator>(a: &Profile<A>, b: &Profile<A>) -> Option<Difference>
    ensures { result ≡ page_difference a.now b.now }
{
    let page = other_page(a.geometries(), b)?;
    Some(Difference::Pages {
        size: page.size,
        orientation: page.orientation,
    })
}

/// The first of these pages of which a profile has another.
fn other_page<'p, A: Allocator>(pages: &'p [Geometry], profile: &Profile<A>) -> Option<&'p Geometry>
    ensures { option_copied result ≡ find (has_other_page profile.now) pages.now }
{
    pages.iter().find(|page| has_other_page(profile, page))
}

/// Whether a profile has a page of the same size and orientation, which is not the same.
fn has_other_page<A: Allocator>(profile: &Profile<A>, page: &Geometry) -> bool
    ensures { result ≡ has_other_page profile.now page.now }
{
    match profile.geometry(page.size, page.orientation) {
        Some(other) => !is_same_page(page, other),
        None => false,
    }
}

/// Whether two pages are the same in each area.
fn is_same_page(a: &Geometry, b: &Geometry) -> bool
    ensures { result ≡ is_same_page a.now b.now }
{
    is_same_area(Area::Physical, a, b)
        && is_same_area(Area::Logical, a, b)
        && is_same_area(Area::Printable, a, b)
}

/// The first face that has other numbers or codes.
fn face_difference<A: Allocator>(a: &Profile<A>, b: &Profile<A>) -> Option<Difference>
    ensures { result ≡ face_difference a.now b.now }
{
    let face = other_face(a.faces(), b)?;
    Some(Difference::Faces(face.id()))
}

/// The first of these faces of which a profile has another.
fn other_face<'p, A: Allocator>(
    faces: &'p [FontRow<A>],
    profile: &Profile<A>,
) -> Option<&'p FontRow<A>>
    ensures { option_copied result ≡ find (has_other_face profile.now) faces.now }
{
    faces.iter().find(|face| has_other_face(profile, face))
}

/// Whether a profile has a face of the same request, which is not the same.
fn has_other_face<A: Allocator>(profile: &Profile<A>, face: &FontRow<A>) -> bool
    ensures { result ≡ has_other_face profile.now face.now }
{
    match profile.font(&face.request()) {
        Some(other) => !is_same_face(face, other),
        None => false,
    }
}

/// Whether two faces have the same numbers and codes.
fn is_same_face<A: Allocator>(a: &FontRow<A>, b: &FontRow<A>) -> bool
    ensures { result ≡ is_same_face a.now b.now }
{
    a.advance() == b.advance()
        && a.ascent() == b.ascent()
        && a.descent() == b.descent()
        && are_same_codes(a.codes(), b.codes())
}

/// The fields that are compared.
const COMPARED: [Field; 5] = [
    Field::Size,
    Field::Orientation,
    Field::Vmi,
    Field::Font,
    Field::Tray,
];

/// The first field in which the panels may have other values.
fn list_difference<A: Allocator>(a: &Profile<A>, b: &Profile<A>) -> Option<Difference>
    ensures { result ≡ list_difference a.now b.now }
{
    let field = other_field(a, b, &COMPARED)?;
    Some(Difference::Lists(field))
}

/// The first of these fields in which the panels may have other values.
fn other_field<A: Allocator>(a: &Profile<A>, b: &Profile<A>, fields: &[Field]) -> Option<Field>
    ensures { result ≡ find (λ field. not (has_same_values a.now b.now field)) fields.now }
{
    fields
        .iter()
        .copied()
        .find(|field| !has_same_values(a, b, *field))
}

/// Whether the panels may have the same values in a field.
fn has_same_values<A: Allocator>(a: &Profile<A>, b: &Profile<A>, field: Field) -> bool
    ensures { result ≡ has_same_values a.now b.now field }
{
    match field {
        Field::Font => are_fonts_of(a, b) && are_fonts_of(b, a),
        _ => {
            let (of_a, of_b) = (a.allowed(field), b.allowed(field));
            are_among(of_a, of_b) && are_among(of_b, of_a)
        }
    }
}

/// Whether all of these values are among the others.
fn are_among(values: &[u32], others: &[u32]) -> bool
    ensures { result ≡ are_among values.now others.now }
{
    values.iter().all(|value| others.contains(value))
}

/// Whether the panel of the second may have each font of the panel of the first.
fn are_fonts_of<A: Allocator>(a: &Profile<A>, b: &Profile<A>) -> bool
    ensures { result ≡ are_fonts_of a.now b.now }
{
    a.allowed(Field::Font)
        .iter()
        .all(|font| offers_font_of(a, b, *font))
}

/// Whether the panel of the second may have a font of the panel of the first.
fn offers_font_of<A: Allocator>(a: &Profile<A>, b: &Profile<A>, font: u32) -> bool
    ensures { result ≡ offers_font_of a.now b.now font }
{
    match a.face(font) {
        Some(face) => offers(b, &face.request()),
        None => false,
    }
}

/// Whether the panel may have a font that answers a request.
fn offers<A: Allocator>(profile: &Profile<A>, request: &FontRequest) -> bool
    ensures { result ≡ offers profile.now request.now }
{
    match profile.font(request) {
        Some(face) => profile.allowed(Field::Font).contains(&face.id()),
        None => false,
    }
}

/// Appends the line that tells what differs in the profiles of two files:
/// `FILE and FILE: hint: WORDS`.
///
/// Bytes of the files' names that show nothing stand there as `\xHH`. An error means that the
/// allocator refused a request.
#[tactic(auto, unfolding(crate::specs::Differences::difference_line))]
pub fn push_difference<A: Allocator>(
    out: &mut Vec<u8, A>,
    first: &[u8],
    other: &[u8],
    difference: Difference,
) -> Result<(), AllocError>
    ensures { OnOk result
        (out.new.items ≡ out.old.items ++ difference_line first.now other.now difference) }
{
    push_shown(out, first)?;
    out.extend_from_slice(b" and ")?;
    push_hinted_file(out, other)?;
    push_difference_words(out, difference)?;
    out.extend_from_slice(b"\n")
}

/// Appends what differs.
#[tactic(auto, unfolding(crate::specs::Differences::difference_words))]
fn push_difference_words<A: Allocator>(
    out: &mut Vec<u8, A>,
    difference: Difference,
) -> Result<(), AllocError>
    ensures { OnOk result (out.new.items ≡ out.old.items ++ difference_words difference) }
{
    match difference {
        Difference::Pages { size, orientation } => {
            let before = b"their pages of size ";
            let behind = b" are not the same: jobs may differ (33)";
            push_numbers_in(out, before, size, b" and orientation ", orientation, behind)
        }
        Difference::Faces(face) => {
            let behind = b" of the first has other numbers or codes than the face of that request \
                of the other: letters may differ (33) or be missing (14)";
            push_number_in(out, b"face ", face, behind)
        }
        Difference::Lists(field) => {
            let key = Key::Choice(field);
            let behind = b"' are not the same: ";
            push_word_in(out, b"their lists '", field.key(), behind, meaning_of(key))
        }
    }
}
