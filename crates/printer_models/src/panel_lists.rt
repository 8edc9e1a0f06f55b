//! The values that the panel of a printer may have.
ghost use Rattle.std.specs.Prelude.{◌≡◌, ◌∷◌, [], IfOk, if◌then◌else◌};
ghost use Rattle.printer_models.specs.Panel.{allowed_in, free_values, is_fixed, is_fixed_field};
ghost use Rattle.printer_models.specs.Panel.{panel_values};
ghost use Rattle.printer_models.specs.Model.{facts_of};

use crate::model::Model;
use crate::paper::Paper;
use device_profile::Field;
use std::alloc::{AllocError, Allocator};

/// Fields of a panel that nobody changes.
#[derive(Clone, Copy)]
pub struct FixedFields {
    pub size: bool,
    pub orientation: bool,
    pub vmi: bool,
    pub font: bool,
    pub copies: bool,
    pub sides: bool,
    pub tray: bool,
}

impl FixedFields {
    /// Whether a field is one of these.
    fn has(self, field: Field) -> bool
        ensures { result ≡ is_fixed_field self field }
    {
        match field {
            Field::Size => self.size,
            Field::Orientation => self.orientation,
            Field::Vmi => self.vmi,
            Field::Font => self.font,
            Field::Copies => self.copies,
            Field::Sides => self.sides,
            Field::Tray => self.tray,
            Field::LineTerm => false,
        }
    }
}

/// Whether people use the panel.
#[derive(Clone, Copy)]
pub enum PanelLists {
    /// Nobody does: each list has the one usual value.
    Fixed,
    /// They may choose: each list has what they usually choose among.
    Free,
    /// The same, but in these fields, whose lists have the one usual value.
    FreeBut(FixedFields),
}

impl PanelLists {
    /// Whether nobody changes a field.
    fn is_fixed(self, field: Field) -> bool
        ensures { result ≡ is_fixed self field }
    {
        match self {
            PanelLists::Fixed => true,
            PanelLists::Free => false,
            PanelLists::FreeBut(fixed) => fixed.has(field),
        }
    }
}

/// The values that the panel may have in a field.
pub(crate) fn panel_values<A: Allocator>(
    alloc: A,
    model: Model,
    papers: &[Paper],
    lists: PanelLists,
    field: Field,
) -> Result<Vec<u32, A>, AllocError>
    ensures { IfOk result (λ values. values.items ≡ panel_values model papers.now lists field) }
{
    let mut values = free_values(alloc, model, papers, field)?;
    if !lists.is_fixed(field) {
        return Ok(values);
    }
    values.truncate(1);
    Ok(values)
}

/// What people may choose at the panel in a field.
fn free_values<A: Allocator>(
    alloc: A,
    model: Model,
    papers: &[Paper],
    field: Field,
) -> Result<Vec<u32, A>, AllocError>
    ensures { IfOk result (λ values.
        values.items ≡ free_values (facts_of model) papers.now field) }
{
    match field {
        Field::Size => papers.iter().map(|paper| paper.code()).collect(alloc),
        Field::Orientation => Vec::from_slice(alloc, &[0, 1]),
        Field::Vmi => Vec::from_slice(alloc, &[80_000, 60_000]),
        Field::Font => Vec::from_slice(alloc, &[1, 2]),
        Field::Copies => Vec::from_slice(alloc, &[1]),
        Field::Sides => sides(alloc, model.row().has_duplex),
        Field::Tray => Vec::from_slice(alloc, model.row().panel_trays),
        Field::LineTerm => Vec::from_slice(alloc, &[0]),
    }
}

/// One side, or both where the printer has duplex.
fn sides<A: Allocator>(alloc: A, has_duplex: bool) -> Result<Vec<u32, A>, AllocError>
    ensures { IfOk result (λ values.
        values.items ≡ (if has_duplex then 0 ∷ 1 ∷ 2 ∷ [] else 0 ∷ [])) }
{
    if has_duplex {
        Vec::from_slice(alloc, &[0, 1, 2])
    } else {
        Vec::from_slice(alloc, &[0])
    }
}
