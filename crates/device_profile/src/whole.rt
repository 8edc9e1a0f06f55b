//! What all lines of a profile's text give together.
ghost use Rattle.std.specs.Prelude.{◌≡◌, ◌==◌, IsTrue};
ghost use Rattle.std.specs.List.{list_all, list_any};
ghost use Rattle.device_profile.specs.declared.fault.ProfileFault.TheVariants.{Fault};
ghost use Rattle.device_profile.specs.Printer.{has_size, has_orientation, has_row, has_every_pair};
ghost use Rattle.device_profile.specs.Printer.{are_sides};
ghost use Rattle.device_profile.specs.Faces.{has_face};

use crate::draft::Draft;
use crate::fault::{Cause, ProfileFault};
use crate::field::Field;
use crate::font::FontRow;
use crate::geometry::Geometry;
use crate::key::Key;
use crate::profile::Profile;
use crate::rows::{has_face, has_orientation, has_row, has_size};
use std::alloc::Allocator;

impl<A: Allocator> Draft<A> {
    ghost use Rattle.device_profile.specs.Text.{is_complete, has_its_pages, is_duplex};
    ghost use Rattle.device_profile.specs.Text.{has_its_choices, printer_of_draft, printer_of};
    ghost use Rattle.device_profile.specs.Given.{IsGiven};

    /// The profile that all lines give, or what is wrong with the whole.
    pub(crate) fn finish(self) -> Result<Profile<A>, ProfileFault>
        requires { IsGiven self }
        ensures { result ≡ printer_of self }
    {
        if !self.is_complete() {
            return Err(fault_of_whole(Cause::Missing));
        }
        if !self.has_its_pages() {
            return Err(fault_of_whole(Cause::NoGeometry));
        }
        if !self.has_its_choices() {
            return Err(fault_of_whole(Cause::Range));
        }
        Ok(self.into_profile())
    }

    /// Whether each key was given, and a page and a face.
    fn is_complete(&self) -> bool
        ensures { result ≡ is_complete self.now }
    {
        Key::ALL.iter().all(|key| self.has(*key))
    }

    /// Whether each size and each orientation of the panel has a page, and each size of a page has
    /// one in each orientation of a page.
    fn has_its_pages(&self) -> bool
        ensures { result ≡ has_its_pages self.now }
    {
        let rows = self.geometries.as_slice();
        has_each_size(rows, self.choices.of(Field::Size))
            && has_each_orientation(rows, self.choices.of(Field::Orientation))
            && has_every_pair(rows)
    }

    /// Whether the device was said to print on both sides.
    pub fn is_duplex(&self) -> bool
        ensures { result ≡ is_duplex self.now }
    {
        self.duplex.unwrap_or(0) == 1
    }

    /// Whether the device has each face, each tray and the sides that the panel may have.
    fn has_its_choices(&self) -> bool
        ensures { result ≡ has_its_choices self.now }
    {
        has_each_face(self.faces.as_slice(), self.choices.of(Field::Font))
            && has_each_tray(self.device_trays.as_slice(), self.choices.of(Field::Tray))
            && has_each_sides(self.is_duplex(), self.choices.of(Field::Sides))
    }

    /// The profile of what was given.
    fn into_profile(self) -> Profile<A>
        requires given { IsGiven self }
        requires complete { IsTrue (is_complete self) }
        requires pages { IsTrue (has_its_pages self) }
        requires choices { IsTrue (has_its_choices self) }
        ensures { result ≡ printer_of_draft self }
    {
        let has_duplex = self.is_duplex();
        Profile {
            choices: self.choices,
            device_trays: self.device_trays,
            has_duplex,
            depth: self.depth.unwrap_or(0),
            memory: self.memory.unwrap_or(0),
            most_items: None,
            geometries: self.geometries,
            faces: self.faces,
        }
    }
}

fn fault_of_whole(cause: Cause) -> ProfileFault
    ensures { result ≡ Fault 0 cause }
{
    ProfileFault::Fault { line: 0, cause }
}

/// Whether each of these sizes is one of some row.
fn has_each_size(rows: &[Geometry], sizes: &[u32]) -> bool
    ensures { result ≡ list_all (λ size. has_size rows.now size) sizes.now }
{
    sizes.iter().all(|size| has_size(rows, *size))
}

/// Whether each of these orientations is one of some row.
fn has_each_orientation(rows: &[Geometry], orientations: &[u32]) -> bool
    ensures { result ≡ list_all (λ orientation. has_orientation rows.now orientation)
        orientations.now }
{
    orientations
        .iter()
        .all(|orientation| has_orientation(rows, *orientation))
}

/// Whether this size goes with each orientation of a row.
fn goes_with_each(rows: &[Geometry], size: u32) -> bool
    ensures { result ≡ list_all (λ turned. has_row rows.now size turned.orientation) rows.now }
{
    rows.iter().all(|turned| has_row(rows, u64::from(size), u64::from(turned.orientation)))
}

/// Whether each size of a row goes with each orientation of a row.
fn has_every_pair(rows: &[Geometry]) -> bool
    ensures { result ≡ has_every_pair rows.now }
{
    rows.iter().all(|sized| goes_with_each(rows, sized.size))
}

/// Whether each of these fonts is the id of some face.
fn has_each_face<A: Allocator>(faces: &[FontRow<A>], fonts: &[u32]) -> bool
    ensures { result ≡ list_all (λ font. has_face faces.now font) fonts.now }
{
    fonts.iter().all(|font| has_face(faces, u64::from(*font)))
}

/// Whether each of these trays is one of the device.
fn has_each_tray(device_trays: &[u32], trays: &[u32]) -> bool
    ensures { result ≡ list_all (λ tray. list_any (λ held. held == tray) device_trays.now)
        trays.now }
{
    trays.iter().all(|tray| device_trays.contains(tray))
}

/// Whether these sides are one, or both where the device has duplex.
fn are_sides(has_duplex: bool, sides: u32) -> bool
    ensures { result ≡ are_sides has_duplex sides }
{
    sides == 0 || has_duplex && (sides == 1 || sides == 2)
}

/// Whether the device has each of these sides.
fn has_each_sides(has_duplex: bool, all: &[u32]) -> bool
    ensures { result ≡ list_all (are_sides has_duplex) all.now }
{
    all.iter().all(|sides| are_sides(has_duplex, *sides))
}
