//! The values that the panel may have in each field.
use crate::field::Field;
use std::alloc::Allocator;
use std::marker::Model;

/// A list of values for each field of the panel.
///
/// Clauses see the lists alone.
#[derive(Drop)]
pub(crate) struct Choices<A: Allocator> {
    sizes: Vec<u32, A>,
    orientations: Vec<u32, A>,
    vmis: Vec<u32, A>,
    fonts: Vec<u32, A>,
    copies: Vec<u32, A>,
    sides: Vec<u32, A>,
    panel_trays: Vec<u32, A>,
    line_terminations: Vec<u32, A>,
}

impl<A: Allocator> Model for Choices<A> {
    ghost use Rattle.device_profile.specs.Choices.{Choices};

    ghost Value = { Choices };

    ghost use Rattle.device_profile.specs.ChoiceFields.{choices_of_fields};

    ghost view = { choices_of_fields };
}

impl<A: Allocator> Choices<A> {
    ghost use Rattle.std.specs.Prelude.{◌≡◌, ◌<◌, length, slice_index};
    ghost use Rattle.device_profile.specs.Choices.{no_choices, values_in, with_values};

    /// No field has values.
    pub(crate) fn empty(alloc: A) -> Self
    where
        A: Copy,
        ensures { result ≡ no_choices }
    {
        Choices {
            sizes: Vec::new(alloc),
            orientations: Vec::new(alloc),
            vmis: Vec::new(alloc),
            fonts: Vec::new(alloc),
            copies: Vec::new(alloc),
            sides: Vec::new(alloc),
            panel_trays: Vec::new(alloc),
            line_terminations: Vec::new(alloc),
        }
    }

    /// The values of a field.
    #[inline]
    pub(crate) fn of(&self, field: Field) -> &[u32]
        ensures { result.now ≡ values_in self.now field }
    {
        match field {
            Field::Size => self.sizes.as_slice(),
            Field::Orientation => self.orientations.as_slice(),
            Field::Vmi => self.vmis.as_slice(),
            Field::Font => self.fonts.as_slice(),
            Field::Copies => self.copies.as_slice(),
            Field::Sides => self.sides.as_slice(),
            Field::Tray => self.panel_trays.as_slice(),
            Field::LineTerm => self.line_terminations.as_slice(),
        }
    }

    /// The first value of a field that has some.
    pub(crate) fn first(&self, field: Field) -> u32
        requires { 0 < length (values_in self.now field) }
        ensures { result ≡ slice_index (values_in self.now field) 0 }
    {
        self.of(field)[0]
    }

    /// Sets the values of a field.
    pub(crate) fn set(&mut self, field: Field, values: Vec<u32, A>)
        ensures { self.new ≡ with_values self.old field values.items }
    {
        match field {
            Field::Size => self.sizes = values,
            Field::Orientation => self.orientations = values,
            Field::Vmi => self.vmis = values,
            Field::Font => self.fonts = values,
            Field::Copies => self.copies = values,
            Field::Sides => self.sides = values,
            Field::Tray => self.panel_trays = values,
            Field::LineTerm => self.line_terminations = values,
        }
    }
}
