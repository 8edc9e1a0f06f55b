//! What is shown of the panel.
ghost use Rattle.std.specs.Prelude.{◌≡◌, ◌++◌, OnOk, flat_map};
ghost use Rattle.profile_show.specs.Panel.{
  field_lines,
  font_words,
  other_words,
  panel_lines,
  request_words,
  unset_finding,
  unset_line,
  unset_words,
  value_words,
  values_words,
};

use crate::label::Label;
use crate::words::{
    push_cut, push_numbered, push_orientation, push_set, push_size, push_vmi, sides_name,
    termination_name,
};
use device_profile::{Field, FontRequest, Profile};
use shown_bytes::push_number;
use std::alloc::{AllocError, Allocator};

/// Appends what the panel may have.
#[tactic(auto, unfolding(crate::specs::Panel::panel_lines))]
pub(crate) fn push_panel<A: Allocator, P: Allocator>(
    text: &mut Vec<u8, A>,
    profile: &Profile<P>,
) -> Result<(), AllocError>
    ensures { OnOk result (text.new.items ≡ text.old.items ++ panel_lines profile.now) }
{
    text.extend_from_slice(b"panel:\n")?;
    push_fields(text, profile, &Field::ALL)
}

/// Appends the lines of fields.
fn push_fields<A: Allocator, P: Allocator>(
    text: &mut Vec<u8, A>,
    profile: &Profile<P>,
    fields: &[Field],
) -> Result<(), AllocError>
    ensures { OnOk result
        (text.new.items ≡ text.old.items ++ flat_map (field_lines profile.now) fields.now) }
{
    for field in fields {
        push_field(text, profile, *field)?;
    }
    Ok(())
}

/// Appends the lines of a field.
#[tactic(auto, unfolding(crate::specs::Panel::field_lines))]
fn push_field<A: Allocator, P: Allocator>(
    text: &mut Vec<u8, A>,
    profile: &Profile<P>,
    field: Field,
) -> Result<(), AllocError>
    ensures { OnOk result (text.new.items ≡ text.old.items ++ field_lines profile.now field) }
{
    let values = profile.allowed(field);
    text.extend_from_slice(b"  ")?;
    text.extend_from_slice(field.key())?;
    text.extend_from_slice(b": ")?;
    push_values(text, profile, field, values)?;
    text.extend_from_slice(b"\n")?;
    push_unset(text, field, values)
}

/// Appends the values of a field.
fn push_values<A: Allocator, P: Allocator>(
    text: &mut Vec<u8, A>,
    profile: &Profile<P>,
    field: Field,
    values: &[u32],
) -> Result<(), AllocError>
    ensures { OnOk result (text.new.items ≡
        text.old.items ++ values_words profile.now.faces field values.now) }
{
    let [first, more @ ..] = values else {
        return Ok(());
    };
    push_value(text, profile, field, *first)?;
    push_others(text, profile, field, more)
}

/// Appends other values of a field.
fn push_others<A: Allocator, P: Allocator>(
    text: &mut Vec<u8, A>,
    profile: &Profile<P>,
    field: Field,
    values: &[u32],
) -> Result<(), AllocError>
    ensures { OnOk result (text.new.items ≡
        text.old.items ++ flat_map (other_words profile.now.faces field) values.now) }
{
    for value in values {
        push_other(text, profile, field, *value)?;
    }
    Ok(())
}

/// Appends another value of a field, on a line of its own.
#[tactic(auto, unfolding(crate::specs::Panel::other_words))]
fn push_other<A: Allocator, P: Allocator>(
    text: &mut Vec<u8, A>,
    profile: &Profile<P>,
    field: Field,
    value: u32,
) -> Result<(), AllocError>
    ensures { OnOk result (text.new.items ≡
        text.old.items ++ other_words profile.now.faces field value) }
{
    text.extend_from_slice(b"\n    or ")?;
    push_value(text, profile, field, value)
}

/// Appends what a list of several values means.
fn push_unset<A: Allocator>(
    text: &mut Vec<u8, A>,
    field: Field,
    values: &[u32],
) -> Result<(), AllocError>
    ensures { OnOk result (text.new.items ≡ text.old.items ++ unset_line field values.now) }
{
    if values.len() > 1 {
        push_unset_words(text, field)
    } else {
        Ok(())
    }
}

/// Appends that the job has to set a field.
#[tactic(auto, unfolding(crate::specs::Panel::unset_words))]
fn push_unset_words<A: Allocator>(text: &mut Vec<u8, A>, field: Field) -> Result<(), AllocError>
    ensures { OnOk result (text.new.items ≡ text.old.items ++ unset_words field) }
{
    text.extend_from_slice(Label::Unset.words())?;
    push_unset_finding(text, field)?;
    text.extend_from_slice(b"\n")
}

/// Appends the finding on a job that leaves a field unset.
#[tactic(auto, unfolding(crate::specs::Panel::unset_finding))]
fn push_unset_finding<A: Allocator>(text: &mut Vec<u8, A>, field: Field) -> Result<(), AllocError>
    ensures { OnOk result (text.new.items ≡ text.old.items ++ unset_finding field) }
{
    text.extend_from_slice(b"12 Unset(")?;
    text.extend_from_slice(field.name())?;
    text.extend_from_slice(b")")
}

/// Appends a value of a field.
#[tactic(auto, unfolding(crate::specs::Panel::value_words))]
fn push_value<A: Allocator, P: Allocator>(
    text: &mut Vec<u8, A>,
    profile: &Profile<P>,
    field: Field,
    value: u32,
) -> Result<(), AllocError>
    ensures { OnOk result (text.new.items ≡
        text.old.items ++ value_words profile.now.faces field value) }
{
    match field {
        Field::Size => push_size(text, value),
        Field::Orientation => push_orientation(text, value),
        Field::Vmi => push_vmi(text, value),
        Field::Font => push_font(text, profile, value),
        Field::Copies | Field::Tray => push_number(text, u64::from(value)),
        Field::Sides => push_numbered(text, sides_name(value), value),
        Field::LineTerm => push_numbered(text, termination_name(value), value),
    }
}

/// Appends a face by its id, and what selects it.
#[tactic(auto, unfolding(crate::specs::Panel::font_words))]
fn push_font<A: Allocator, P: Allocator>(
    text: &mut Vec<u8, A>,
    profile: &Profile<P>,
    id: u32,
) -> Result<(), AllocError>
    ensures { OnOk result
        (text.new.items ≡ text.old.items ++ font_words profile.now.faces id) }
{
    text.extend_from_slice(b"face ")?;
    push_number(text, u64::from(id))?;
    match profile.face(id) {
        Some(face) => {
            text.extend_from_slice(b", ")?;
            push_request(text, &face.request())
        }
        None => Ok(()),
    }
}

/// Appends what selects a font.
#[tactic(auto, unfolding(crate::specs::Panel::request_words))]
fn push_request<A: Allocator>(
    text: &mut Vec<u8, A>,
    request: &FontRequest,
) -> Result<(), AllocError>
    ensures { OnOk result (text.new.items ≡ text.old.items ++ request_words request.now) }
{
    push_set(text, request.symbol_set)?;
    text.extend_from_slice(b", ")?;
    push_cut(text, request)
}
