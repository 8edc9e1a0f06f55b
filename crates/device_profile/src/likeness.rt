//! Profiles that are alike but for the device.

ghost use Rattle.std.specs.Prelude.{◌≡◌, IsTrue};

use crate::choices::Choices;
use crate::field::Field;
use crate::font::{FontRow, are_same_ranges};
use crate::geometry::Geometry;
use crate::profile::Profile;
use std::alloc::Allocator;

impl<A: Allocator> Profile<A> {
    ghost use Rattle.std.specs.Prelude.{IsTrue};
    ghost use Rattle.device_profile.specs.Likeness.{IsLike};

    /// Whether the panels, pages, faces and limit of items of another profile are the same, in the
    /// same order. The trays of its device, its duplex, and the depth and memory of its macros are
    /// its own.
    pub fn is_like(&self, other: &Profile<A>) -> bool
        ensures { IsTrue result → IsLike self.now other.now }
    {
        if !self.choices.are_like(&other.choices) {
            return false;
        }
        if !is_same_limit(self.most_items, other.most_items) {
            return false;
        }
        if !are_same_pages(&self.geometries, &other.geometries) {
            return false;
        }
        are_same_faces(&self.faces, &other.faces)
    }
}

impl<A: Allocator> Choices<A> {
    ghost use Rattle.std.specs.Prelude.{◌≡◌, IsTrue};
    ghost use Rattle.device_profile.specs.Choices.{values_in};

    /// Whether others are the same, field by field and in the same order.
    fn are_like(&self, other: &Choices<A>) -> bool
        ensures { IsTrue result → other.now ≡ self.now }
    {
        self.is_same(other, Field::Size)
            && self.is_same(other, Field::Orientation)
            && self.is_same(other, Field::Vmi)
            && self.is_same(other, Field::Font)
            && self.is_same(other, Field::Copies)
            && self.is_same(other, Field::Sides)
            && self.is_same(other, Field::Tray)
            && self.is_same(other, Field::LineTerm)
    }

    /// Whether others have the same values in a field, in the same order.
    fn is_same(&self, other: &Choices<A>, field: Field) -> bool
        ensures { IsTrue result → values_in other.now field ≡ values_in self.now field }
    {
        are_same_values(self.of(field), other.of(field))
    }
}

/// Whether limits are the same.
fn is_same_limit(a: Option<u64>, b: Option<u64>) -> bool
    ensures { IsTrue result → b ≡ a }
{
    match (a, b) {
        (None, None) => true,
        (Some(a), Some(b)) => a == b,
        _ => false,
    }
}

/// Whether values are the same, one by one.
fn are_same_values(a: &[u32], b: &[u32]) -> bool
    ensures { IsTrue result → b.now ≡ a.now }
{
    a == b
}

/// Whether pages are the same, one by one.
fn are_same_pages(a: &[Geometry], b: &[Geometry]) -> bool
    ensures { IsTrue result → b.now ≡ a.now }
{
    a == b
}

/// Whether faces are the same, one by one.
fn are_same_faces<A: Allocator>(a: &[FontRow<A>], b: &[FontRow<A>]) -> bool
    ensures { IsTrue result → b.now ≡ a.now }
{
    if a.len() != b.len() {
        return false;
    }
    for (index, face) in a.iter().enumerate() {
        if !is_same_face(face, &b[index]) {
            return false;
        }
    }
    true
}

/// Whether two faces are the same.
fn is_same_face<A: Allocator>(a: &FontRow<A>, b: &FontRow<A>) -> bool
    ensures { IsTrue result → b.now ≡ a.now }
{
    a.id == b.id
        && a.request == b.request
        && a.advance == b.advance
        && a.ascent == b.ascent
        && a.descent == b.descent
        && are_same_ranges(&a.codes, &b.codes)
}
