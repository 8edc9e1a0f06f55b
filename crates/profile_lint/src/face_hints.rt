//! Faces whose numbers do not fit their pitch, or are not those of the table of faces.
ghost use Rattle.std.specs.Prelude.{◌≡◌, ◌++◌, OnOk, find, flat_map};
ghost use Rattle.profile_lint.specs.FaceHints.{advance_by, advance_hints, are_same_codes};
ghost use Rattle.profile_lint.specs.FaceHints.{code_hints, face_hints, fits_pitch, has_cut};
ghost use Rattle.profile_lint.specs.FaceHints.{has_numbers, has_set, number_hints};

use crate::hint::{Hint, units_in};
use device_profile::{CodeRange, FontRequest, FontRow};
use printer_models::{FaceRow, Metrics};
use std::alloc::{AllocError, Allocator};
use tick_length::Length;

/// Appends the hints on faces, beside these rows of the table of faces.
pub(crate) fn push_hints_of_faces<A: Allocator>(
    hints: &mut Vec<Hint, A>,
    faces: &[FontRow<A>],
    rows: &[FaceRow],
) -> Result<(), AllocError>
    ensures { OnOk result
        (hints.new.items ≡ hints.old.items ++ flat_map (face_hints rows.now) faces.now) }
{
    for face in faces {
        push_face_hints(hints, face, rows)?;
    }
    Ok(())
}

/// Appends the hints on a face.
#[tactic(auto, unfolding(crate::specs::FaceHints::face_hints))]
fn push_face_hints<A: Allocator>(
    hints: &mut Vec<Hint, A>,
    face: &FontRow<A>,
    rows: &[FaceRow],
) -> Result<(), AllocError>
    ensures { OnOk result (hints.new.items ≡ hints.old.items ++ face_hints rows.now face.now) }
{
    push_advance_hints(hints, face)?;
    push_number_hints(hints, face, rows)?;
    push_code_hints(hints, face, rows)
}

/// Appends a hint where the advance does not fit the pitch.
#[tactic(auto, unfolding(crate::specs::FaceHints::advance_hints))]
fn push_advance_hints<A: Allocator>(
    hints: &mut Vec<Hint, A>,
    face: &FontRow<A>,
) -> Result<(), AllocError>
    ensures { OnOk result (hints.new.items ≡ hints.old.items ++ advance_hints face.now) }
{
    let pitch = face.request().pitch;
    let advance = units_in(face.advance());
    if fits_pitch(pitch, advance) {
        return Ok(());
    }
    hints.push(Hint::OddAdvance {
        face: face.id(),
        pitch,
        advance,
    })?;
    Ok(())
}

/// One inch in 7200ths, by ten-thousandths of a character an inch.
const INCH: u128 = 72_000_000;

/// Whether an advance, in 1/7200 inch, is 7200 through the pitch, within 1.
fn fits_pitch(pitch: u32, advance: u64) -> bool
    ensures { result ≡ fits_pitch pitch advance }
{
    let pitch = u128::from(pitch);
    let inch = u128::from(advance) * pitch;
    inch <= INCH + pitch && INCH <= inch + pitch
}

/// 7200 through the pitch, to the nearest, in 1/7200 inch.
pub(crate) fn advance_by(pitch: u32) -> u64
    ensures { result ≡ advance_by pitch }
{
    if pitch == 0 {
        return 0;
    }
    let pitch = u64::from(pitch);
    (72_000_000 + pitch / 2) / pitch
}

/// Appends a hint where the table has other numbers for the pitch, the height and the typeface.
#[tactic(auto, unfolding(crate::specs::FaceHints::number_hints))]
fn push_number_hints<A: Allocator>(
    hints: &mut Vec<Hint, A>,
    face: &FontRow<A>,
    rows: &[FaceRow],
) -> Result<(), AllocError>
    ensures { OnOk result (hints.new.items ≡ hints.old.items ++ number_hints rows.now face.now) }
{
    let Some(row) = row_of_cut(rows, &face.request()) else {
        return Ok(());
    };
    if has_numbers(&row.cut.metrics(), face) {
        return Ok(());
    }
    hints.push(Hint::OtherNumbers {
        face: face.id(),
        advance: units_in(face.advance()),
        ascent: units_in(face.ascent()),
        descent: units_in(face.descent()),
        cut: row.cut,
    })?;
    Ok(())
}

/// Appends a hint where the table has other codes for the symbol set.
#[tactic(auto, unfolding(crate::specs::FaceHints::code_hints))]
fn push_code_hints<A: Allocator>(
    hints: &mut Vec<Hint, A>,
    face: &FontRow<A>,
    rows: &[FaceRow],
) -> Result<(), AllocError>
    ensures { OnOk result (hints.new.items ≡ hints.old.items ++ code_hints rows.now face.now) }
{
    let Some(row) = row_of_set(rows, &face.request()) else {
        return Ok(());
    };
    if are_same_codes(face.codes(), row.set.codes()) {
        return Ok(());
    }
    hints.push(Hint::OtherCodes {
        face: face.id(),
        set: row.set,
    })?;
    Ok(())
}

/// The first row of the pitch, the height and the typeface that are asked for.
fn row_of_cut(rows: &[FaceRow], request: &FontRequest) -> Option<FaceRow>
    ensures { result ≡ find (has_cut request.now) rows.now }
{
    rows.iter().copied().find(|row| has_cut(request, *row))
}

/// The first row of these and of the symbol set that is asked for.
fn row_of_set(rows: &[FaceRow], request: &FontRequest) -> Option<FaceRow>
    ensures { result ≡ find (has_set request.now) rows.now }
{
    rows.iter().copied().find(|row| has_set(request, *row))
}

/// Whether a row is of the pitch, the height and the typeface that are asked for.
fn has_cut(request: &FontRequest, row: FaceRow) -> bool
    ensures { result ≡ has_cut request.now row }
{
    let own = row.request();
    own.pitch == request.pitch && own.height == request.height && own.typeface == request.typeface
}

/// Whether a row is of these and of the symbol set that is asked for.
fn has_set(request: &FontRequest, row: FaceRow) -> bool
    ensures { result ≡ has_set request.now row }
{
    let own = row.request().symbol_set;
    has_cut(request, row)
        && own.number == request.symbol_set.number
        && own.letter == request.symbol_set.letter
}

/// Whether a face has these numbers.
fn has_numbers<A: Allocator>(metrics: &Metrics, face: &FontRow<A>) -> bool
    ensures { result ≡ has_numbers metrics.now face.now }
{
    face.advance() == Length::of_7200ths(metrics.advance)
        && face.ascent() == Length::of_7200ths(metrics.ascent)
        && face.descent() == Length::of_7200ths(metrics.descent)
}

/// Whether the ranges are the same one by one.
pub(crate) fn are_same_codes(a: &[CodeRange], b: &[CodeRange]) -> bool
    ensures { result ≡ are_same_codes a.now b.now }
{
    a == b
}
