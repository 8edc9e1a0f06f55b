//! Whether a text describes the printer of a model.
ghost use Rattle.std.specs.Prelude.{◌≡◌, ◌==◌, ◌<◌, ℕ, All, IfOk, IsTrue, option_map};
ghost use Rattle.std.specs.List.{list_any};
ghost use Rattle.std.specs.Option.{option_copied};
ghost use Rattle.device_profile.specs.declared.field.Field.{Field};
ghost use Rattle.device_profile.specs.Faces.{face_at};
ghost use Rattle.device_profile.specs.Printer.{has_tray, row_at, values_of};
ghost use Rattle.printer_models.specs.Describes.{DescribesModel, IsPrinterOf};
ghost use Rattle.printer_models.specs.Face.{face_numbered, face_of, faces_of};
ghost use Rattle.printer_models.specs.Model.{facts_of};
ghost use Rattle.printer_models.specs.Page.{page_at};
ghost use Rattle.printer_models.specs.Panel.{panel_values};

use crate::face::{FaceRow, faces_of};
use crate::model::Model;
use crate::page::{ORIENTATIONS, page_at};
use crate::panel_lists::{PanelLists, panel_values};
use crate::paper::Paper;
use device_profile::{
    Field, FontRow, Geometry, Profile, ProfileFault, are_same_ranges, printer_name,
};
use std::alloc::{AllocError, Allocator};
use tick_length::Length;

/// How many levels of macros may run, one within the other.
pub(crate) const DEPTH: u32 = 2;

/// Sizes are below this.
const SIZES: u32 = 1_000;

/// The ids of faces and the numbers of trays are below this.
const IDS: u32 = 256;

/// Whether a text describes the printer of this model, with these papers and a panel of these
/// lists, under the model's word.
pub(crate) fn describes_model<A: Allocator + Copy>(
    alloc: A,
    text: &[u8],
    model: Model,
    papers: &[Paper],
    lists: PanelLists,
) -> Result<bool, AllocError>
    ensures { IfOk result (λ is. IsTrue is → DescribesModel model papers.now lists text.now) }
{
    let profile = match Profile::read(alloc, text) {
        Ok(profile) => profile,
        Err(ProfileFault::Memory) => return Err(AllocError),
        Err(ProfileFault::Fault { .. }) => return Ok(false),
    };
    if printer_name(text) != model.row().word.as_bytes() {
        return Ok(false);
    }
    is_printer_of(alloc, &profile, model, papers, lists)
}

/// Whether a printer is the one of this model, with these papers and a panel of these lists.
fn is_printer_of<A: Allocator + Copy>(
    alloc: A,
    profile: &Profile<A>,
    model: Model,
    papers: &[Paper],
    lists: PanelLists,
) -> Result<bool, AllocError>
    ensures { IfOk result (λ is. IsTrue is → IsPrinterOf model papers.now lists profile.now) }
{
    let row = model.row();
    let faces = faces_of(alloc, row.generation)?;
    let has_values = has_values(alloc, profile, model, papers, lists)?;
    Ok(
        has_values
            && has_trays(profile, row.device_trays)
            && has_pages(profile, papers)
            && has_faces(profile, &faces)
            && profile.has_duplex() == row.has_duplex
            && profile.depth() == DEPTH
            && profile.memory() == row.memory,
    )
}

/// Whether the panel may have what it may have on the model.
fn has_values<A: Allocator + Copy>(
    alloc: A,
    profile: &Profile<A>,
    model: Model,
    papers: &[Paper],
    lists: PanelLists,
) -> Result<bool, AllocError>
    ensures { IfOk result (λ has. IsTrue has → ((field : Field) →
        values_of profile.now field ≡ panel_values model papers.now lists field)) }
{
    has_values_in(alloc, profile, model, papers, lists, &Field::ALL)
}

/// The same in these fields.
fn has_values_in<A: Allocator + Copy>(
    alloc: A,
    profile: &Profile<A>,
    model: Model,
    papers: &[Paper],
    lists: PanelLists,
    fields: &[Field],
) -> Result<bool, AllocError>
    ensures { IfOk result (λ has. IsTrue has → All (λ field.
        values_of profile.now field ≡ panel_values model papers.now lists field) fields.now) }
{
    for field in fields {
        let has = has_values_of(alloc, profile, model, papers, lists, *field)?;
        if !has {
            return Ok(false);
        }
    }
    Ok(true)
}

/// The same in one field.
fn has_values_of<A: Allocator + Copy>(
    alloc: A,
    profile: &Profile<A>,
    model: Model,
    papers: &[Paper],
    lists: PanelLists,
    field: Field,
) -> Result<bool, AllocError>
    ensures { IfOk result (λ has. IsTrue has →
        values_of profile.now field ≡ panel_values model papers.now lists field) }
{
    let values = panel_values(alloc, model, papers, lists, field)?;
    Ok(are_same(profile.allowed(field), &values))
}

/// Whether the numbers are the same, one by one.
fn are_same(a: &[u32], b: &[u32]) -> bool
    ensures { IsTrue result → a.now ≡ b.now }
{
    a == b
}

/// Whether the device has these trays and no others.
fn has_trays<A: Allocator>(profile: &Profile<A>, trays: &[u32]) -> bool
    ensures { IsTrue result → ((tray : ℕ) → tray < 256 →
        has_tray profile.now tray ≡ list_any (λ held. held == tray) trays.now) }
{
    for tray in 0..IDS {
        if profile.has_tray(tray) != trays.contains(&tray) {
            return false;
        }
    }
    true
}

/// Whether the pages are those of these papers.
fn has_pages<A: Allocator>(profile: &Profile<A>, papers: &[Paper]) -> bool
    ensures { IsTrue result → ((size orientation : ℕ) → size < 1_000 → orientation < 4 →
        row_at profile.now.geometries size orientation ≡ page_at papers.now size orientation) }
{
    for size in 0..SIZES {
        if !has_pages_of_size(profile, papers, size) {
            return false;
        }
    }
    true
}

/// Whether the pages of a size are those of these papers.
fn has_pages_of_size<A: Allocator>(profile: &Profile<A>, papers: &[Paper], size: u32) -> bool
    ensures { IsTrue result → ((orientation : ℕ) → orientation < 4 →
        row_at profile.now.geometries size orientation ≡ page_at papers.now size orientation) }
{
    for orientation in 0..ORIENTATIONS {
        let page = page_at(papers, size, orientation);
        if !is_same_page(profile.geometry(size, orientation), page) {
            return false;
        }
    }
    true
}

/// Whether the two are the same page, or there is neither.
fn is_same_page(page: Option<&Geometry>, wanted: Option<Geometry>) -> bool
    ensures { IsTrue result → option_copied page.entry ≡ wanted }
{
    match (page, wanted) {
        (Some(page), Some(wanted)) => is_page(page, &wanted),
        (None, None) => true,
        _ => false,
    }
}

/// Whether a page is the one that is wanted.
fn is_page(page: &Geometry, wanted: &Geometry) -> bool
    ensures { IsTrue result → page.now ≡ wanted.now }
{
    page == wanted
}

/// Whether the faces are those of these rows, by their ids.
fn has_faces<A: Allocator>(profile: &Profile<A>, rows: &[FaceRow]) -> bool
    ensures { IsTrue result → ((id : ℕ) → id < 256 →
        face_at profile.now.faces id ≡ face_numbered rows.now id) }
{
    for id in 0..IDS {
        if !is_face_of(profile.face(id), id, row_numbered(rows, id)) {
            return false;
        }
    }
    true
}

/// The row of an id, which counts from 1.
fn row_numbered(rows: &[FaceRow], id: u32) -> Option<FaceRow>
    ensures { option_map (face_of id) result ≡ face_numbered rows.now id }
{
    match id {
        0 => None,
        _ => rows.get(id as usize - 1).copied(),
    }
}

/// Whether the face is that of a row, or there is neither.
fn is_face_of<A: Allocator>(face: Option<&FontRow<A>>, id: u32, row: Option<FaceRow>) -> bool
    ensures { IsTrue result → option_copied face.entry ≡ option_map (face_of id) row }
{
    match (face, row) {
        (Some(face), Some(row)) => is_face(face, id, row),
        (None, None) => true,
        _ => false,
    }
}

/// Whether the face is that of an id and a row.
fn is_face<A: Allocator>(face: &FontRow<A>, id: u32, row: FaceRow) -> bool
    ensures { IsTrue result → face.now ≡ face_of id row }
{
    let metrics = row.cut.metrics();
    face.id() == id
        && face.request() == row.request()
        && face.advance() == Length::of_7200ths(metrics.advance)
        && face.ascent() == Length::of_7200ths(metrics.ascent)
        && face.descent() == Length::of_7200ths(metrics.descent)
        && are_same_ranges(face.codes(), row.set.codes())
}
