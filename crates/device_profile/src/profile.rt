//! A printer's profile, and what is looked up in it.
ghost use Rattle.std.specs.Prelude.{◌≡◌};
ghost use Rattle.std.specs.Option.{option_copied};
ghost use Rattle.device_profile.specs.Printer.{has_one_value, row_at};

use crate::choices::Choices;
use crate::field::Field;
use crate::font::{FontRequest, FontRow, is_same_request};
use crate::geometry::Geometry;
use crate::panel::Panel;
use crate::rows;
use std::alloc::{Allocator, Global};
use std::marker::Model;
use tick_length::Length;

/// What is known of a printer: the values that its panel may have, its trays, pages and faces, and
/// its limits.
///
/// Clauses see a profile as a `Printer`, which is valid.
#[derive(Drop)]
pub struct Profile<A: Allocator = Global> {
    pub(crate) choices: Choices<A>,
    pub(crate) device_trays: Vec<u32, A>,
    pub(crate) has_duplex: bool,
    pub(crate) depth: u32,
    pub(crate) memory: u32,
    /// How many items the macros of a job may carry out, where that is limited.
    pub(crate) most_items: Option<u64>,
    pub(crate) geometries: Vec<Geometry, A>,
    pub(crate) faces: Vec<FontRow<A>, A>,
}

impl<A: Allocator> Model for Profile<A> {
    ghost use Rattle.device_profile.specs.Printer.{Printer};

    ghost Value = { Printer };

    ghost use Rattle.device_profile.specs.Fields.{printer_of, IsProfile};

    ghost view = { printer_of };

    ghost invariant = { IsProfile };
}

impl<A: Allocator> Profile<A> {
    ghost use Rattle.std.specs.Prelude.{◌≡◌, IsTrue, IfSome, pos, ◌≤ℤ◌};
    ghost use Rattle.device_profile.specs.Printer.{values_of, row_at, geometry_at, has_size};
    ghost use Rattle.device_profile.specs.Printer.{has_orientation, first_panel, has_tray};
    ghost use Rattle.device_profile.specs.Printer.{IsAllowed, HasPages, HasFaces, HasTrays};
    ghost use Rattle.device_profile.specs.Printer.{CanBeSet, has_every_pair, fits_page};
    ghost use Rattle.device_profile.specs.Printer.{has_one_panel};
    ghost use Rattle.std.specs.Option.{option_copied};
    ghost use Rattle.device_profile.specs.Faces.{face_at, face_for, has_metrics};

    /// The page of a size and an orientation.
    pub fn geometry(&self, size: u32, orientation: u32) -> Option<&Geometry>
        ensures row { option_copied result ≡ row_at self.now.geometries size orientation }
        ensures fits { IfSome (row_at self.now.geometries size orientation)
            (λ page. IsTrue (fits_page page)) }
        // Each panel that the printer may have leads to a page.
        ensures allowed { HasPages self.now }
    {
        row_at_pair(self.geometries.as_slice(), size, orientation)
    }

    /// The page of a size and an orientation, or a page of no size.
    // Inlined, so that of a row only what the caller reads is read.
    #[inline(always)]
    #[tactic(auto, unfolding(crate::specs::Printer::geometry_at))]
    pub fn page_geometry(&self, size: u32, orientation: u32) -> Geometry
        ensures { result ≡ geometry_at self.now.geometries size orientation }
    {
        match self.geometry(size, orientation) {
            Some(row) => *row,
            None => Geometry::NO_PAGE,
        }
    }

    /// Whether some page has this size.
    pub fn has_size(&self, size: u32) -> bool
        ensures { result ≡ has_size self.now.geometries size }
    {
        rows::has_size(self.geometries.as_slice(), size)
    }

    /// Whether some page has this orientation.
    pub fn has_orientation(&self, orientation: u32) -> bool
        ensures { result ≡ has_orientation self.now.geometries orientation }
    {
        rows::has_orientation(self.geometries.as_slice(), orientation)
    }

    /// The face of an id, or None where no face has it.
    #[tactic(auto, unfolding(crate::specs::Faces::face_at))]
    pub fn face(&self, id: u32) -> Option<&FontRow<A>>
        ensures face { option_copied result ≡ face_at self.now.faces id }
        ensures metrics { IfSome (face_at self.now.faces id) (λ face. IsTrue (has_metrics face)) }
        // Each panel that the printer may have leads to a face.
        ensures allowed { HasFaces self.now }
        // A job can set what it has, and ask for that face.
        ensures set { CanBeSet self.now }
    {
        self.faces.iter().find(|face| face.id() == id)
    }

    /// The face that a request selects: the one of these seven parts, or None where no face has
    /// them all.
    #[tactic(auto, unfolding(crate::specs::Faces::face_for))]
    pub fn font(&self, request: &FontRequest) -> Option<&FontRow<A>>
        ensures face { option_copied result ≡ face_for self.now.faces request.now }
        ensures metrics { IfSome (face_for self.now.faces request.now)
            (λ face. IsTrue (has_metrics face)) }
    {
        self.faces
            .iter()
            .find(|face| is_same_request(&face.request(), request))
    }

    /// The values that the panel may have in a field, in the profile's order.
    pub fn allowed(&self, field: Field) -> &[u32]
        ensures { result.now ≡ values_of self.now field }
    {
        self.choices.of(field)
    }

    /// Whether the panel may have one value in each field, and so can be in one way alone.
    pub fn has_one_panel(&self) -> bool
        ensures { result ≡ has_one_panel self.now }
    {
        Field::ALL.iter().all(|field| has_one_value(self, *field))
    }

    /// The panel with the first value in each field.
    pub fn first_panel(&self) -> Panel
        ensures value { result ≡ first_panel self.now }
        ensures allowed { IsAllowed self.now result }
        // Each panel that the printer may have has a page, and each size of a page goes with each
        // orientation of a page.
        ensures pages { HasPages self.now }
        ensures pairs { IsTrue (has_every_pair self.now.geometries) }
    {
        Panel {
            size: self.choices.first(Field::Size),
            orientation: self.choices.first(Field::Orientation),
            vmi: self.choices.first(Field::Vmi),
            font: self.choices.first(Field::Font),
            copies: self.choices.first(Field::Copies),
            sides: self.choices.first(Field::Sides),
            tray: self.choices.first(Field::Tray),
            line_termination: self.choices.first(Field::LineTerm),
        }
    }

    /// How many levels of macros may run, one within the other: 0 to 8. (The manual's "Macros".)
    pub fn depth(&self) -> u32
        ensures { result ≡ self.now.depth }
    {
        self.depth
    }

    /// How many bytes the macros may have together, each item in its one spelling: 0 to 1,048,576.
    pub fn memory(&self) -> u32
        ensures { result ≡ self.now.memory }
    {
        self.memory
    }

    /// How many items the macros of a job may carry out, where that is limited. No text limits it.
    pub fn most_items(&self) -> Option<u64>
        ensures { result ≡ self.now.most_items }
    {
        self.most_items
    }

    /// Limits how many items of a job its macros may carry out, or leaves them without a limit.
    pub fn limit_items(&mut self, most: Option<u64>)
        ensures { self.new ≡ record self.old { most_items = most } }
    {
        self.most_items = most;
    }

    /// Whether the device prints on both sides.
    pub fn has_duplex(&self) -> bool
        ensures { result ≡ self.now.has_duplex }
    {
        self.has_duplex
    }

    /// The trays of the device, as `ESC &l#H` numbers them, in the profile's order.
    pub fn device_trays(&self) -> &[u32]
        ensures { result.now ≡ self.now.device_trays }
    {
        &self.device_trays
    }

    /// The pages, in the profile's order.
    pub fn geometries(&self) -> &[Geometry]
        ensures { result.now ≡ self.now.geometries }
    {
        &self.geometries
    }

    /// The faces, in the profile's order.
    pub fn faces(&self) -> &[FontRow<A>]
        ensures { result.now ≡ self.now.faces }
    {
        &self.faces
    }

    /// Whether the device has this tray.
    pub fn has_tray(&self, tray: u32) -> bool
        ensures tray { result ≡ has_tray self.now tray }
        // Each panel that the printer may have has such a tray.
        ensures allowed { HasTrays self.now }
    {
        self.device_trays.contains(&tray)
    }
}

/// Whether the panel may have one value in this field.
fn has_one_value<A: Allocator>(profile: &Profile<A>, field: Field) -> bool
    ensures { result ≡ has_one_value profile.now field }
{
    profile.allowed(field).len() == 1
}

#[tactic(auto, unfolding(crate::specs::Printer::row_at))]
fn row_at_pair(rows: &[Geometry], size: u32, orientation: u32) -> Option<&Geometry>
    ensures { option_copied result ≡ row_at rows.now size orientation }
{
    rows.iter()
        .find(|row| row.size == size && row.orientation == orientation)
}
