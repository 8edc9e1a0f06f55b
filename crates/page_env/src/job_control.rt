//! Job control: number of copies, simplex and duplex, unit of measure, reset.
#![tactic(auto, unfolding(crate::specs::Answers::CarriesOut, crate::specs::Answers::Marks))]

ghost use Rattle.std.specs.Prelude.{◌≡◌, ◌==◌, ◌&&◌, true, false, MatchOption};
ghost use Rattle.std.specs.List.{list_any};
ghost use Rattle.tick_length.specs.UnitsPerInch.{units_per_inch};
ghost use Rattle.pcl_items.specs.Items.{amount};
ghost use Rattle.page_env.specs.Numbers.{is_whole_from, whole_of};
ghost use Rattle.page_env.specs.Effect.{checking, Closes};
ghost use Rattle.page_env.specs.JobControl.{set_copies, sides_checks, set_sides, set_units, reset};
ghost use Rattle.page_env.specs.Answers.{CarriesOut, Changes, Steps, Moves};

use crate::cell::Cell;
use crate::change::{Carried, PageChange};
use crate::cursor::Cursor;
use crate::finding::Finding;
use crate::number::{is_whole_between, is_whole_from, whole_of};
use crate::page::Page;
use device_profile::Profile;
use pcl_items::Number;
use std::alloc::Allocator;
use tick_length::UnitsPerInch;

/// `&l#X`: sets the number of copies.
pub(crate) fn set_copies(page: &mut Page, n: Number) -> Result<(), Finding>
    ensures { Steps (λ s. set_copies s (amount n)) page.old page.new result }
{
    if !is_whole_between(1, 32_767, n) {
        return Err(Finding::BadValue);
    }
    page.env.fields.copies = Cell::Known(whole_of(n));
    Ok(())
}

/// `&l#S`: simplex or duplex is to be set once a marked page is closed.
pub(crate) fn choose_sides<A: Allocator>(
    profile: &Profile<A>,
    page: &mut Page,
    n: Number,
) -> Result<Carried, Finding>
    ensures { CarriesOut (λ defaults s. Closes (checking s (sides_checks profile.now (amount n)))
        true (λ t. set_sides t (amount n)))
        page.old page.new result }
{
    if !is_whole_between(0, 2, n) {
        return Err(Finding::BadValue);
    }
    if whole_of(n) > 0 && !profile.has_duplex() {
        return Err(Finding::NotOnDevice);
    }
    Ok(Carried::Closing(PageChange::Sides(n)))
}

/// Sets simplex or duplex.
#[tactic(auto, unfolding(crate::specs::Answers::Changes))]
pub(crate) fn set_sides(page: &mut Page, n: Number)
    ensures { Moves (λ s. set_sides s (amount n)) page.old page.new }
{
    page.env.fields.sides = Cell::Known(whole_of(n));
    page.cursor = Cursor::home();
}

/// The number of PCL units an inch that a value is, if an inch may have so many.
fn units_of(n: Number) -> Option<UnitsPerInch>
    ensures { let is_known = is_whole_from 0 (amount n)
        && list_any (λ units. units == whole_of (amount n)) units_per_inch in
        MatchOption result (is_known ≡ false)
        (λ units. (is_known ≡ true) × (units ≡ whole_of (amount n))) }
{
    if is_whole_from(0, n) {
        UnitsPerInch::new(whole_of(n) as u16)
    } else {
        None
    }
}

/// `&u#D`: sets how many PCL units an inch has.
pub(crate) fn set_units(page: &mut Page, n: Number) -> Result<(), Finding>
    ensures { Steps (λ s. set_units s (amount n)) page.old page.new result }
{
    match units_of(n) {
        None => Err(Finding::BadValue),
        Some(units) => {
            page.env.job.units_per_inch = units;
            Ok(())
        }
    }
}

/// `ESC E`, and the end of the bytes: all is to be as at the start once a marked page is closed.
pub fn reset(page: &Page) -> Result<Carried, Finding>
    ensures { CarriesOut (λ defaults s. reset defaults s) page.now page.now result }
{
    Ok(Carried::Closing(PageChange::Defaults))
}
