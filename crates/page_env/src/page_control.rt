//! Page control: paper source, page size, orientation.
#![tactic(auto, unfolding(crate::specs::Answers::CarriesOut))]

ghost use Rattle.std.specs.Prelude.{◌≡◌, true};
ghost use Rattle.pcl_items.specs.Items.{amount};
ghost use Rattle.page_env.specs.Effect.{checking, Closes};
ghost use Rattle.page_env.specs.PageControl.{source_checks, set_source, size_checks, set_size};
ghost use Rattle.page_env.specs.PageControl.{orientation_checks, set_orientation, without_margins};
ghost use Rattle.page_env.specs.Answers.{CarriesOut, Changes, Moves};

use crate::cell::Cell;
use crate::change::{Carried, PageChange};
use crate::cursor::Cursor;
use crate::finding::Finding;
use crate::frames::{default_frame, set_frame};
use crate::number::{is_whole_between, whole_of};
use crate::page::{Env, JobSettings, Page};
use crate::places::half_inch;
use device_profile::Profile;
use pcl_items::Number;
use std::alloc::Allocator;
use tick_length::Length;

/// `&l#H`: the paper source is to be set once a marked page is closed.
pub(crate) fn choose_source<A: Allocator>(
    profile: &Profile<A>,
    page: &mut Page,
    n: Number,
) -> Result<Carried, Finding>
    ensures { CarriesOut (λ defaults s. Closes (checking s (source_checks profile.now (amount n)))
        true (λ t. set_source t (amount n)))
        page.old page.new result }
{
    if !is_whole_between(0, 255, n) {
        return Err(Finding::BadValue);
    }
    if whole_of(n) > 0 && !profile.has_tray(whole_of(n)) {
        return Err(Finding::NotOnDevice);
    }
    Ok(Carried::Closing(PageChange::Tray(n)))
}

/// Sets the paper source, where the value names one.
#[tactic(auto, unfolding(crate::specs::Answers::Changes))]
pub(crate) fn set_source(page: &mut Page, n: Number)
    ensures { Moves (λ s. set_source s (amount n)) page.old page.new }
{
    if whole_of(n) != 0 {
        page.env.fields.tray = Cell::Known(whole_of(n));
    }
    page.cursor = Cursor::home();
}

/// `&l#A`: the page size is to be set once a marked page is closed.
pub(crate) fn choose_size<A: Allocator>(
    profile: &Profile<A>,
    page: &mut Page,
    n: Number,
) -> Result<Carried, Finding>
    ensures { CarriesOut (λ defaults s. Closes (checking s (size_checks profile.now (amount n)))
        true (λ t. set_size t (amount n)))
        page.old page.new result }
{
    if !is_whole_between(1, 999, n) {
        return Err(Finding::BadValue);
    }
    if !profile.has_size(whole_of(n)) {
        return Err(Finding::NotOnDevice);
    }
    Ok(Carried::Closing(PageChange::Size(n)))
}

/// `&l#O`: the orientation is to be set once a marked page is closed.
pub(crate) fn choose_orientation<A: Allocator>(
    profile: &Profile<A>,
    page: &mut Page,
    n: Number,
) -> Result<Carried, Finding>
    ensures { CarriesOut (λ defaults s. Closes
        (checking s (orientation_checks profile.now (amount n))) true
        (λ t. set_orientation defaults t (amount n)))
        page.old page.new result }
{
    if !is_whole_between(0, 3, n) {
        return Err(Finding::BadValue);
    }
    if !profile.has_orientation(whole_of(n)) {
        return Err(Finding::NotOnDevice);
    }
    Ok(Carried::Closing(PageChange::Orientation(n)))
}

/// Returns all margins to their defaults.
fn clear_all_margins(job: &mut JobSettings)
    ensures { job.new ≡ without_margins job.old }
{
    job.top_margin = half_inch();
    job.bottom_margin = None;
    job.left_margin = Length::ZERO;
    job.right_margin = None;
}

/// Sets the page size, and disables the overlay.
#[tactic(auto, unfolding(crate::specs::Answers::Changes))]
pub(crate) fn set_size(page: &mut Page, n: Number)
    ensures { Moves (λ s. set_size s (amount n)) page.old page.new }
{
    page.env.fields.size = Cell::Known(whole_of(n));
    clear_all_margins(&mut page.env.job);
    set_frame(&mut page.env.job, default_frame());
    page.env.job.overlay = None;
    page.cursor = Cursor::home();
}

/// Sets the orientation, returns VMI and HMI to their user defaults, and disables the overlay.
#[tactic(auto, unfolding(crate::specs::Answers::Changes))]
pub(crate) fn set_orientation(defaults: &Env, page: &mut Page, n: Number)
    ensures { Changes (λ d s. set_orientation d s (amount n)) defaults.now page.old page.new }
{
    page.env.fields.orientation = Cell::Known(whole_of(n));
    page.env.fields.vmi = defaults.fields.vmi;
    clear_all_margins(&mut page.env.job);
    set_frame(&mut page.env.job, default_frame());
    page.env.job.hmi = defaults.job.hmi;
    page.env.job.overlay = None;
    page.cursor = Cursor::home();
}
