//! What a draft has.
ghost use Rattle.std.specs.Prelude.{◌≡◌};

use crate::draft::Draft;
use crate::field::Field;
use crate::font::FontRow;
use crate::geometry::Geometry;
use crate::key::Key;
use std::alloc::Allocator;

impl<A: Allocator> Draft<A> {
    ghost use Rattle.device_profile.specs.Draft.{choice_of};
    ghost use Rattle.device_profile.specs.Text.{is_given};

    /// Whether a key was given: a list has values, and there is a page or a face.
    pub fn has(&self, key: Key) -> bool
        ensures { result ≡ is_given self.now key }
    {
        match key {
            Key::Name => self.is_named,
            Key::Choice(field) => !self.choice(field).is_empty(),
            Key::Trays => !self.device_trays.is_empty(),
            Key::Duplex => self.duplex.is_some(),
            Key::Depth => self.depth.is_some(),
            Key::Memory => self.memory.is_some(),
            Key::Page => !self.geometries.is_empty(),
            Key::Face => !self.faces.is_empty(),
        }
    }

    /// The values that were given for a field; the VMI is in ten-thousandths of 1/48 inch.
    pub fn choice(&self, field: Field) -> &[u32]
        ensures { result.now ≡ choice_of self.now field }
    {
        self.choices.of(field)
    }

    /// The trays of the device, in the order of their line.
    pub fn device_trays(&self) -> &[u32]
        ensures { result.now ≡ self.now.device_trays }
    {
        &self.device_trays
    }

    /// The pages, in the order of their lines.
    pub fn geometries(&self) -> &[Geometry]
        ensures { result.now ≡ self.now.geometries }
    {
        &self.geometries
    }

    /// The faces, in the order of their lines.
    pub fn faces(&self) -> &[FontRow<A>]
        ensures { result.now ≡ self.now.faces }
    {
        &self.faces
    }
}
