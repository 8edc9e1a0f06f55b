//! Values that are chosen at a panel, by the numbers of its fields.
ghost use Rattle.std.specs.Prelude.{◌≡◌, IfOk};
ghost use Rattle.foreign_calls.specs.Panels.{are_fields, choice_of, choices_of, field_of, is_field};

use crate::rows::PanelValue;
use device_profile::Field;
use requests::Choice;
use std::alloc::{AllocError, Allocator};

/// Whether each value is of a field.
pub(crate) fn are_fields(values: &[PanelValue]) -> bool
    ensures { result ≡ are_fields values.now }
{
    values.iter().all(|value| is_field(*value))
}

/// Whether a value is of a field.
fn is_field(value: PanelValue) -> bool
    ensures { result ≡ is_field value }
{
    0 < value.field && value.field <= 8
}

/// The values as choices.
pub(crate) fn choices_of<A: Allocator + Copy>(
    alloc: A,
    values: &[PanelValue],
) -> Result<Vec<Choice, A>, AllocError>
    ensures { IfOk result (λ choices. choices.items ≡ choices_of values.now) }
{
    let mut choices = Vec::new(alloc);
    for value in values {
        choices.push(choice_of(*value))?;
    }
    Ok(choices)
}

fn choice_of(value: PanelValue) -> Choice
    ensures { result ≡ choice_of value }
{
    Choice {
        field: field_of(value.field),
        value: value.value,
    }
}

/// The field of a number; of one that is none the last.
fn field_of(number: u32) -> Field
    ensures { result ≡ field_of number }
{
    if number == 1 {
        return Field::Size;
    }
    if number == 2 {
        return Field::Orientation;
    }
    if number == 3 {
        return Field::Vmi;
    }
    if number == 4 {
        return Field::Font;
    }
    if number == 5 {
        return Field::Copies;
    }
    if number == 6 {
        return Field::Sides;
    }
    if number == 7 {
        return Field::Tray;
    }
    Field::LineTerm
}
