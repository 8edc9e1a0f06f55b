//! Whether a text describes the printer of a profile with what an answer tells.
ghost use Rattle.std.specs.Prelude.{◌≡◌, IfOk, IsTrue, Ok};
ghost use Rattle.device_profile.specs.Printer.{values_of};
ghost use Rattle.device_profile.specs.Text.{printer_of_text};
ghost use Rattle.pjl_answer.specs.Told.{values_after, values_in, with_told};
ghost use Rattle.pjl_answer.specs.Same.{HasOtherValues, HasPageValues, IsSameDevice};

use crate::told_values::{duplex_after, told};
use crate::values::ToldValues;
use device_profile::{Field, FontRow, Geometry, Profile, ProfileFault, are_same_ranges};
use std::alloc::{AllocError, Allocator};

/// Whether a text describes the printer of a profile with what an answer tells.
pub(crate) fn describes<A: Allocator + Copy, B: Allocator>(
    alloc: A,
    text: &[u8],
    base: &Profile<B>,
    answer: &[u8],
) -> Result<bool, AllocError>
    ensures { IfOk result (λ is. IsTrue is →
        printer_of_text text.now ≡ Ok (with_told base.now answer.now)) }
{
    match Profile::read(alloc, text) {
        Ok(profile) => Ok(is_told(&profile, base, answer)),
        Err(ProfileFault::Memory) => Err(AllocError),
        Err(ProfileFault::Fault { .. }) => Ok(false),
    }
}

/// Whether a printer is that of a profile with what an answer tells.
#[tactic(auto, using(crate::proofs::SamePrinter::same_printer))]
fn is_told<A: Allocator, B: Allocator>(
    profile: &Profile<A>,
    base: &Profile<B>,
    answer: &[u8],
) -> bool
    ensures { IsTrue result → profile.now ≡ with_told base.now answer.now }
{
    has_page_values(profile, base, answer)
        && has_other_values(profile, base, answer)
        && is_told_device(profile, base, answer)
        && are_same_pages(profile.geometries(), base.geometries())
        && are_same_faces(profile.faces(), base.faces())
}

/// Whether the panel may have what is told for its page, its lines and its font.
fn has_page_values<A: Allocator, B: Allocator>(
    profile: &Profile<A>,
    base: &Profile<B>,
    answer: &[u8],
) -> bool
    ensures { IsTrue result → HasPageValues profile.now (with_told base.now answer.now) }
{
    has_values(profile, base, answer, Field::Size)
        && has_values(profile, base, answer, Field::Orientation)
        && has_values(profile, base, answer, Field::Vmi)
        && has_values(profile, base, answer, Field::Font)
}

/// Whether it may have what is told for the other fields.
fn has_other_values<A: Allocator, B: Allocator>(
    profile: &Profile<A>,
    base: &Profile<B>,
    answer: &[u8],
) -> bool
    ensures { IsTrue result → HasOtherValues profile.now (with_told base.now answer.now) }
{
    has_values(profile, base, answer, Field::Copies)
        && has_values(profile, base, answer, Field::Sides)
        && has_values(profile, base, answer, Field::Tray)
        && has_values(profile, base, answer, Field::LineTerm)
}

/// Whether the panel may have what is told for a field, or what it may have by the profile.
fn has_values<A: Allocator, B: Allocator>(
    profile: &Profile<A>,
    base: &Profile<B>,
    answer: &[u8],
    field: Field,
) -> bool
    ensures { IsTrue result → values_of profile.now field ≡ values_after base.now answer.now field }
{
    match told(base, answer, field) {
        Some(values) => are_values(profile.allowed(field), values),
        None => are_same(profile.allowed(field), base.allowed(field)),
    }
}

/// Whether these are the values that are told.
fn are_values(allowed: &[u32], values: ToldValues) -> bool
    ensures { IsTrue result → allowed.now ≡ values_in values }
{
    match (allowed, values) {
        ([value], ToldValues::One(one)) => *value == one,
        ([value, other], ToldValues::Two(first, second)) => *value == first && *other == second,
        _ => false,
    }
}

/// Whether the numbers are the same, one by one.
fn are_same(a: &[u32], b: &[u32]) -> bool
    ensures { IsTrue result → a.now ≡ b.now }
{
    a == b
}

/// Whether a printer has the trays, levels of macros, memory and limit of items of a profile, and
/// duplex as an answer tells it.
fn is_told_device<A: Allocator, B: Allocator>(
    profile: &Profile<A>,
    base: &Profile<B>,
    answer: &[u8],
) -> bool
    ensures { IsTrue result → IsSameDevice profile.now (with_told base.now answer.now) }
{
    are_same(profile.device_trays(), base.device_trays())
        && profile.has_duplex() == duplex_after(base, answer)
        && profile.depth() == base.depth()
        && profile.memory() == base.memory()
        && profile.most_items() == base.most_items()
}

/// Whether the pages are the same, one by one.
fn are_same_pages(a: &[Geometry], b: &[Geometry]) -> bool
    ensures { IsTrue result → a.now ≡ b.now }
{
    match (a, b) {
        ([], []) => true,
        ([page, a @ ..], [other, b @ ..]) => is_same_page(page, other) && are_same_pages(a, b),
        _ => false,
    }
}

/// Whether two pages are the same.
fn is_same_page(a: &Geometry, b: &Geometry) -> bool
    ensures { IsTrue result → a.now ≡ b.now }
{
    a == b
}

/// Whether the faces are the same, one by one.
fn are_same_faces<A: Allocator, B: Allocator>(a: &[FontRow<A>], b: &[FontRow<B>]) -> bool
    ensures { IsTrue result → a.now ≡ b.now }
{
    match (a, b) {
        ([], []) => true,
        ([face, a @ ..], [other, b @ ..]) => is_same_face(face, other) && are_same_faces(a, b),
        _ => false,
    }
}

/// Whether two faces are the same.
fn is_same_face<A: Allocator, B: Allocator>(a: &FontRow<A>, b: &FontRow<B>) -> bool
    ensures { IsTrue result → a.now ≡ b.now }
{
    a.id() == b.id()
        && a.request() == b.request()
        && a.advance() == b.advance()
        && a.ascent() == b.ascent()
        && a.descent() == b.descent()
        && are_same_ranges(a.codes(), b.codes())
}
