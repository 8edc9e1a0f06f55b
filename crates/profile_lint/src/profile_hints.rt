//! Hints on a profile that was read.
ghost use Rattle.std.specs.Prelude.{◌≡◌, ◌++◌, IfOk, OnOk};
ghost use Rattle.profile_lint.specs.Hints.{fixed_hints, hints_of, panel_hints, several_hints};

use crate::face_hints::push_hints_of_faces;
use crate::hint::Hint;
use crate::page_hints::push_hints_of_pages;
use device_profile::{Field, Profile};
use printer_models::{Generation, faces_of};
use std::alloc::{AllocError, Allocator};

/// The hints on a profile: on its pages, its faces and its panel. Each may be wrong.
///
/// An error means that the allocator refused a request.
#[tactic(auto, unfolding(crate::specs::Hints::hints_of))]
pub fn hints<A: Allocator + Copy>(
    alloc: A,
    profile: &Profile<A>,
) -> Result<Vec<Hint, A>, AllocError>
    ensures { IfOk result (λ hints. hints.items ≡ hints_of profile.now) }
{
    let rows = faces_of(alloc, Generation::LaserJet5)?;
    let mut hints = Vec::new(alloc);
    push_hints_of_pages(&mut hints, profile.geometries())?;
    push_hints_of_faces(&mut hints, profile.faces(), &rows)?;
    push_panel_hints(&mut hints, profile)?;
    Ok(hints)
}

/// Appends the hints on the panel.
fn push_panel_hints<A: Allocator>(
    hints: &mut Vec<Hint, A>,
    profile: &Profile<A>,
) -> Result<(), AllocError>
    ensures { OnOk result (hints.new.items ≡ hints.old.items ++ panel_hints profile.now) }
{
    push_several_hints(hints, profile, Field::Copies)?;
    push_several_hints(hints, profile, Field::Sides)?;
    push_several_hints(hints, profile, Field::Tray)?;
    push_fixed_hints(hints, profile)
}

/// Appends a hint where the panel may have several values in a field.
fn push_several_hints<A: Allocator>(
    hints: &mut Vec<Hint, A>,
    profile: &Profile<A>,
    field: Field,
) -> Result<(), AllocError>
    ensures { OnOk result (hints.new.items ≡ hints.old.items ++ several_hints profile.now field) }
{
    if profile.allowed(field).len() > 1 {
        hints.push(Hint::SeveralValues(field))?;
    }
    Ok(())
}

/// Appends a hint where the panel has one value in each field.
fn push_fixed_hints<A: Allocator>(
    hints: &mut Vec<Hint, A>,
    profile: &Profile<A>,
) -> Result<(), AllocError>
    ensures { OnOk result (hints.new.items ≡ hints.old.items ++ fixed_hints profile.now) }
{
    if profile.has_one_panel() {
        hints.push(Hint::FixedPanel)?;
    }
    Ok(())
}
