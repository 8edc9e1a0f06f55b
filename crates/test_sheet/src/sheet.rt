//! The job with which a person compares a printer and its profile.
ghost use Rattle.std.specs.Prelude.{◌≡◌, ◌++◌, OnOk, IfOk};
ghost use Rattle.test_sheet.specs.Sheet.{own_part, set_part, sheet, sheet_in};

use crate::commands::push_sheet_settings;
use crate::face_pages::push_face_pages;
use crate::measured_page::push_measured_pages;
use crate::own_page::push_own_page;
use device_profile::{Field, FontRow, Panel, Profile};
use std::alloc::{AllocError, Allocator};

/// A PCL job for a printer of this name and profile: pages with rules, columns, lines and faces,
/// and with words that say how they have to lie where the profile is right.
///
/// Where the panel can be in one way alone, it begins with a page that sets nothing. Then come a
/// page in portrait and one in landscape for each size that the panel may have, and pages with a
/// line for each face, under the first value in each field of the panel. Bytes of the name and of
/// words that their face does not print are spaces, and what finds no room in the printable part
/// of the logical page is cut or left out.
#[tactic(auto, unfolding(crate::specs::Sheet::sheet))]
pub fn sheet_job<A: Allocator + Copy, P: Allocator>(
    alloc: A,
    name: &[u8],
    profile: &Profile<P>,
) -> Result<Vec<u8, A>, AllocError>
    ensures { IfOk result (λ job. job.items ≡ sheet name.now profile.now) }
{
    let panel = profile.first_panel();
    let mut job = Vec::new(alloc);
    if let Some(face) = profile.face(panel.font) {
        push_sheet_in(&mut job, alloc, name, profile, &panel, face)?;
    }
    Ok(job)
}

/// Appends the sheet under a panel whose font is this face.
#[tactic(auto, unfolding(crate::specs::Sheet::sheet_in))]
fn push_sheet_in<A: Allocator + Copy, P: Allocator>(
    text: &mut Vec<u8, A>,
    alloc: A,
    name: &[u8],
    profile: &Profile<P>,
    panel: &Panel,
    face: &FontRow<P>,
) -> Result<(), AllocError>
    ensures { OnOk result (text.new.items ≡
        text.old.items ++ sheet_in name.now profile.now panel.now face.now) }
{
    text.extend_from_slice(b"\x1bE")?;
    push_own_part(text, alloc, name, profile, panel, face)?;
    push_set_part(text, alloc, name, profile, panel, face)?;
    text.extend_from_slice(b"\x1bE")
}

/// Appends the page that sets nothing, where the panel can be in one way alone.
#[tactic(auto, unfolding(crate::specs::Sheet::own_part))]
fn push_own_part<A: Allocator + Copy, P: Allocator>(
    text: &mut Vec<u8, A>,
    alloc: A,
    name: &[u8],
    profile: &Profile<P>,
    panel: &Panel,
    face: &FontRow<P>,
) -> Result<(), AllocError>
    ensures { OnOk result (text.new.items ≡
        text.old.items ++ own_part name.now profile.now panel.now face.now) }
{
    if profile.has_one_panel() {
        let page = profile.page_geometry(panel.size, panel.orientation);
        push_own_page(text, alloc, name, &page, face, panel)?;
    }
    Ok(())
}

/// Appends what sets all that the panel has, the pages to measure, and the faces.
#[tactic(auto, unfolding(crate::specs::Sheet::set_part))]
fn push_set_part<A: Allocator + Copy, P: Allocator>(
    text: &mut Vec<u8, A>,
    alloc: A,
    name: &[u8],
    profile: &Profile<P>,
    panel: &Panel,
    face: &FontRow<P>,
) -> Result<(), AllocError>
    ensures { OnOk result (text.new.items ≡
        text.old.items ++ set_part name.now profile.now panel.now face.now) }
{
    text.extend_from_slice(b"\x1b&u300D")?;
    push_sheet_settings(text, panel.tray)?;
    let sizes = profile.allowed(Field::Size);
    push_measured_pages(text, alloc, name, face, sizes, profile.geometries())?;
    let page = profile.page_geometry(panel.size, panel.orientation);
    push_face_pages(text, alloc, &page, face, profile.faces())
}
