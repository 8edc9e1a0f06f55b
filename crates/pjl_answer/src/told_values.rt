//! What a printer's answer tells of its panel.
ghost use Rattle.std.specs.Prelude.{◌≡◌, ◌≤◌, IfSome, Some, option_map};
ghost use Rattle.std.specs.List.{list_all};
ghost use Rattle.device_profile.specs.declared.field.Field.TheVariants as fields;
ghost use Rattle.device_profile.specs.Printer.{has_orientation, has_size, has_tray, are_sides};
ghost use Rattle.device_profile.specs.Values.{is_value};
ghost use Rattle.pjl_answer.specs.Told.{copies_told, courier_among, font_told, form_lines_told};
ghost use Rattle.pjl_answer.specs.Told.{held_trays, is_courier, is_courier_number, is_own_font};
ghost use Rattle.pjl_answer.specs.Told.{is_vmi_rounded, line_termination_told, one};
ghost use Rattle.pjl_answer.specs.Told.{orientation_told, paper_told};
ghost use Rattle.pjl_answer.specs.Told.{pitch_told, set_told, is_first_number, is_own_source};
ghost use Rattle.pjl_answer.specs.Told.{duplex_after, duplex_told, panel_sides, sides_by};
ghost use Rattle.pjl_answer.specs.Told.{sides_told, text_height_told, told};
ghost use Rattle.pjl_answer.specs.Told.{trays_by, trays_of, trays_told, values_in, vmi_told};
ghost use Rattle.pjl_answer.specs.Values.{kept};
ghost use Rattle.printer_models.specs.Paper.{code_of};

use crate::config::{device_duplex, has_no_duplex};
use crate::entry::value_of;
use crate::form_lines::{is_whole_share, text_height, vmi_by};
use crate::values::{
    ToldValues, binding_of, copies_of, form_lines_of, is_first, is_internal, is_on,
    line_termination_of, mp_trays_of, orientation_of, paper_of,
};
use crate::variable::Variable;
use device_profile::{Field, FontRow, NamedSet, Profile, SymbolSet, amount};
use printer_models::{Paper, Typeface};
use std::alloc::Allocator;

/// The greatest VMI that a panel can have, in ten-thousandths of 1/48 inch.
const MOST_VMI: u64 = 3_350_000;

/// The height of Courier by its pitch: 120 points at one character an inch, both in
/// ten-thousandths.
const HEIGHT_BY_PITCH: u64 = 12_000_000_000;

/// The paper of the panel.
pub(crate) fn paper_told(answer: &[u8]) -> Option<Paper>
    ensures { result ≡ paper_told answer.now }
{
    paper_of(value_of(answer, Variable::Paper)?)
}

/// The orientation.
fn orientation_told(answer: &[u8]) -> Option<u32>
    ensures { result ≡ orientation_told answer.now }
{
    orientation_of(value_of(answer, Variable::Orientation)?)
}

/// How many copies are printed.
fn copies_told(answer: &[u8]) -> Option<u32>
    ensures { result ≡ copies_told answer.now }
{
    copies_of(value_of(answer, Variable::Copies)?)
}

/// The line termination.
fn line_termination_told(answer: &[u8]) -> Option<u32>
    ensures { result ≡ line_termination_told answer.now }
{
    line_termination_of(value_of(answer, Variable::LineTermination)?)
}

/// Whether both sides are printed on.
fn duplex_told(answer: &[u8]) -> Option<bool>
    ensures { result ≡ duplex_told answer.now }
{
    is_on(value_of(answer, Variable::Duplex)?)
}

/// One side, or both by their binding.
fn sides_by(is_duplex: bool, binding: Option<&[u8]>) -> Option<u32>
    ensures { result ≡ sides_by is_duplex (option_map (λ value. value.now) binding.entry) }
{
    if !is_duplex {
        return Some(0);
    }
    match binding {
        Some(value) => binding_of(value),
        None => Some(1),
    }
}

/// The sides that the panel chooses.
fn panel_sides(answer: &[u8]) -> Option<u32>
    ensures { result ≡ panel_sides answer.now }
{
    sides_by(duplex_told(answer)?, value_of(answer, Variable::Binding))
}

/// The sides that are printed on: one where the device cannot do otherwise.
fn sides_told(answer: &[u8]) -> Option<u32>
    ensures { result ≡ sides_told answer.now }
{
    if has_no_duplex(answer) {
        Some(0)
    } else {
        panel_sides(answer)
    }
}

/// The trays that paper may come from, where it is fed by hand or not.
fn trays_by(by_hand: bool, mp_tray: Option<&[u8]>) -> Option<ToldValues>
    ensures { option_map values_in result
        ≡ trays_by by_hand (option_map (λ value. value.now) mp_tray.entry) }
{
    if by_hand {
        return Some(ToldValues::One(2));
    }
    match mp_tray {
        Some(value) => mp_trays_of(value),
        None => Some(ToldValues::One(1)),
    }
}

/// The same, where it may not be told whether it is.
fn trays_of(feed: Option<&[u8]>, mp_tray: Option<&[u8]>) -> Option<ToldValues>
    ensures { option_map values_in result ≡ trays_of
        (option_map (λ value. value.now) feed.entry)
        (option_map (λ value. value.now) mp_tray.entry) }
{
    match feed {
        Some(value) => trays_by(is_on(value)?, mp_tray),
        None => mp_trays_of(mp_tray?),
    }
}

/// The trays that paper may come from.
fn trays_told(answer: &[u8]) -> Option<ToldValues>
    ensures { option_map values_in result ≡ trays_told answer.now }
{
    trays_of(
        value_of(answer, Variable::ManualFeed),
        value_of(answer, Variable::MpTray),
    )
}

/// The height of a page's text, in 7200ths of an inch.
fn text_height_told(answer: &[u8]) -> Option<u32>
    ensures { result ≡ text_height_told answer.now }
{
    let paper = paper_told(answer)?;
    let orientation = orientation_told(answer)?;
    Some(text_height(paper, orientation))
}

/// How many lines a page has.
fn form_lines_told(answer: &[u8]) -> Option<u32>
    ensures value { result ≡ form_lines_told answer.now }
    ensures some { IfSome result (λ lines. 1 ≤ lines) }
{
    form_lines_of(value_of(answer, Variable::FormLines)?)
}

/// A VMI, where a panel can have it.
fn kept_vmi(vmi: u64) -> Option<u32>
    ensures { result ≡ kept (is_value fields.Vmi) (Some vmi) }
{
    if vmi <= MOST_VMI {
        Some(vmi as u32)
    } else {
        None
    }
}

/// The VMI, in ten-thousandths of 1/48 inch.
fn vmi_told(answer: &[u8]) -> Option<u32>
    ensures { result ≡ vmi_told answer.now }
{
    let height = text_height_told(answer)?;
    let lines = form_lines_told(answer)?;
    kept_vmi(vmi_by(height, lines))
}

/// Whether the VMI is rounded: the lines do not share the height in whole 1/48 inch.
pub(crate) fn is_vmi_rounded(answer: &[u8]) -> bool
    ensures { result ≡ is_vmi_rounded answer.now }
{
    match (text_height_told(answer), form_lines_told(answer)) {
        (Some(height), Some(lines)) => !is_whole_share(height, lines),
        _ => false,
    }
}

/// Whether a number is one of the two of Courier, in ten-thousandths.
fn is_courier_number(typeface: u32) -> bool
    ensures { result ≡ is_courier_number typeface }
{
    typeface == Typeface::BaseCourier.value() || typeface == Typeface::Courier.value()
}

/// Whether a face is Courier in this symbol set, at this pitch and 120 points through it, upright
/// and of medium weight.
fn is_courier<A: Allocator>(set: SymbolSet, pitch: u128, face: &FontRow<A>) -> bool
    ensures { result ≡ is_courier set pitch face.now }
{
    let request = face.request();
    request.symbol_set.number == set.number
        && request.symbol_set.letter == set.letter
        && u128::from(request.pitch) == pitch
        && u64::from(request.height) * u64::from(request.pitch) == HEIGHT_BY_PITCH
        && request.style == 0
        && request.weight == 0
        && is_courier_number(request.typeface)
}

/// The id of the first such face.
fn courier_among<A: Allocator>(faces: &[FontRow<A>], set: SymbolSet, pitch: u128) -> Option<u32>
    ensures { result ≡ courier_among faces.now set pitch }
{
    let face = faces.iter().find(|face| is_courier(set, pitch, face))?;
    Some(face.id())
}

/// Whether the panel's font is the first of the printer's own.
fn is_own_font(answer: &[u8]) -> bool
    ensures { result ≡ is_own_font answer.now }
{
    is_own_source(answer) && is_first_number(answer)
}

/// Whether the panel's font is one of the printer's own.
fn is_own_source(answer: &[u8]) -> bool
    ensures { result ≡ is_own_source answer.now }
{
    match value_of(answer, Variable::FontSource) {
        Some(value) => is_internal(value),
        None => false,
    }
}

/// Whether the panel's font is the first of its source.
fn is_first_number(answer: &[u8]) -> bool
    ensures { result ≡ is_first_number answer.now }
{
    match value_of(answer, Variable::FontNumber) {
        Some(value) => is_first(value),
        None => false,
    }
}

/// The symbol set of the panel's font.
fn set_told(answer: &[u8]) -> Option<SymbolSet>
    ensures { result ≡ set_told answer.now }
{
    let set = NamedSet::named(value_of(answer, Variable::SymbolSet)?)?;
    Some(set.symbol_set())
}

/// The pitch of the panel's font, in ten-thousandths.
fn pitch_told(answer: &[u8]) -> Option<u128>
    ensures { result ≡ pitch_told answer.now }
{
    amount(value_of(answer, Variable::Pitch)?)
}

/// The id of the panel's font among these faces.
fn font_told<A: Allocator>(faces: &[FontRow<A>], answer: &[u8]) -> Option<u32>
    ensures { result ≡ font_told faces.now answer.now }
{
    if !is_own_font(answer) {
        return None;
    }
    let set = set_told(answer)?;
    let pitch = pitch_told(answer)?;
    courier_among(faces, set, pitch)
}

/// A size that the profile has pages of.
fn held_size<A: Allocator>(base: &Profile<A>, answer: &[u8]) -> Option<u32>
    ensures { result ≡ kept (has_size base.now.geometries)
        (option_map code_of (paper_told answer.now)) }
{
    let size = paper_told(answer)?.code();
    if base.has_size(size) {
        Some(size)
    } else {
        None
    }
}

/// An orientation that the profile has pages of.
fn held_orientation<A: Allocator>(base: &Profile<A>, answer: &[u8]) -> Option<u32>
    ensures { result ≡ kept (has_orientation base.now.geometries) (orientation_told answer.now) }
{
    let orientation = orientation_told(answer)?;
    if base.has_orientation(orientation) {
        Some(orientation)
    } else {
        None
    }
}

/// Whether the printer can print on both sides: as an answer tells it, or else as the profile has
/// it.
pub(crate) fn duplex_after<A: Allocator>(base: &Profile<A>, answer: &[u8]) -> bool
    ensures { result ≡ duplex_after base.now answer.now }
{
    match device_duplex(answer) {
        Some(has_duplex) => has_duplex,
        None => base.has_duplex(),
    }
}

/// Sides that the printer can print on.
fn held_sides<A: Allocator>(base: &Profile<A>, answer: &[u8]) -> Option<u32>
    ensures { result ≡ kept (are_sides (duplex_after base.now answer.now))
        (sides_told answer.now) }
{
    let sides = sides_told(answer)?;
    let has_duplex = duplex_after(base, answer);
    if sides == 0 || has_duplex && (sides == 1 || sides == 2) {
        Some(sides)
    } else {
        None
    }
}

/// Whether the profile's printer has each of these trays.
fn has_trays<A: Allocator>(base: &Profile<A>, trays: ToldValues) -> bool
    ensures { result ≡ list_all (has_tray base.now) (values_in trays) }
{
    match trays {
        ToldValues::One(tray) => base.has_tray(tray),
        ToldValues::Two(first, second) => base.has_tray(first) && base.has_tray(second),
    }
}

/// Trays that the profile's printer has.
fn held_trays<A: Allocator>(base: &Profile<A>, answer: &[u8]) -> Option<ToldValues>
    ensures { option_map values_in result ≡ held_trays base.now (trays_told answer.now) }
{
    let trays = trays_told(answer)?;
    if has_trays(base, trays) {
        Some(trays)
    } else {
        None
    }
}

/// One value, where there is one.
fn one(value: Option<u32>) -> Option<ToldValues>
    ensures { option_map values_in result ≡ one value }
{
    match value {
        Some(value) => Some(ToldValues::One(value)),
        None => None,
    }
}

/// The values that an answer tells for a field, where the profile's printer can have them: a size
/// and an orientation that it has pages of, the id of one of its faces, trays and sides that it
/// has. The VMI is in ten-thousandths of 1/48 inch.
pub fn told<A: Allocator>(base: &Profile<A>, answer: &[u8], field: Field) -> Option<ToldValues>
    ensures { option_map values_in result ≡ told base.now answer.now field }
{
    match field {
        Field::Size => one(held_size(base, answer)),
        Field::Orientation => one(held_orientation(base, answer)),
        Field::Vmi => one(vmi_told(answer)),
        Field::Font => one(font_told(base.faces(), answer)),
        Field::Copies => one(copies_told(answer)),
        Field::Sides => one(held_sides(base, answer)),
        Field::Tray => held_trays(base, answer),
        Field::LineTerm => one(line_termination_told(answer)),
    }
}
