//! Rasters: their settings, start and end (the manual's "Raster Graphics").
#![tactic(auto, unfolding(crate::specs::Answers::Marks))]

ghost use Rattle.std.specs.Prelude.{◌≡◌, ◌==◌, not, is_some, ◌&&◌};
ghost use Rattle.pcl_items.specs.Escapes.Commands.{group_of};
ghost use Rattle.pcl_items.specs.Escapes.Value.{Amount};
ghost use Rattle.pcl_items.specs.Items.{Parameterized, amount, view};
ghost use Rattle.page_env.specs.Rasters.{is_of_raster, is_raster_group, begun_by, resolution_of};
ghost use Rattle.page_env.specs.Rasters.{set_resolution, set_raster_width, set_raster_height};
ghost use Rattle.page_env.specs.Rasters.{presentation_of, set_presentation, set_compression};
ghost use Rattle.page_env.specs.Rasters.{is_physical, start_raster, end_raster};
ghost use Rattle.page_env.specs.Settings.{state_at};
ghost use Rattle.device_profile.specs.declared.panel.Panel.{Panel};
ghost use Rattle.page_env.specs.Answers.{CarriesOut, Steps};

use crate::finding::Finding;
use crate::number::{is_whole_between, is_whole_from, whole_of};
use crate::page::{Page, Presentation, Resolution, StartedRaster};
use crate::places::vertical;
use device_profile::Field;
use pcl_items::{Command, Group, Item, Number, SimpleItem};
use tick_length::Length;

/// Whether a group is `*t`, `*r` or `*b`.
fn is_raster_group(group: Group) -> bool
    ensures { result ≡ is_raster_group group }
{
    matches!(group, Group::Resolution | Group::Raster | Group::RasterData)
}

/// Whether a command is of the groups `*t`, `*r` and `*b`.
// A call of its own, so that a group is looked up only where a raster is started.
#[inline(never)]
fn is_raster_command(command: Command) -> bool
    ensures { result ≡ is_raster_group (group_of command) }
{
    is_raster_group(command.group())
}

/// Whether an item is of the groups `*t`, `*r` and `*b`.
#[inline(always)]
pub fn is_of_raster(item: &Item<'_>) -> bool
    ensures { result ≡ is_of_raster (view item.now) }
{
    match item {
        Item::Simple(SimpleItem::Parameterized(command, _)) => is_raster_command(*command),
        Item::WithData(command, _) => is_raster_group(command.group()),
        _ => false,
    }
}

/// Ends the raster as a command begins, unless that is of rasters itself.
#[inline(always)]
pub fn begin_command(page: &mut Page, command: Command)
    ensures { (n : Amount) (panel : Panel) →
        begun_by (Parameterized command n) (state_at panel page.old) ≡ state_at panel page.new }
{
    if page.raster.is_some() && !is_raster_command(command) {
        page.raster = None;
    }
}

/// Ends the raster as an item begins, unless the item is of rasters itself.
#[inline(always)]
pub fn begin_item(page: &mut Page, item: &Item<'_>)
    ensures { (panel : Panel) → begun_by (view item.now) (state_at panel page.old) ≡
        state_at panel page.new }
{
    if page.raster.is_some() && !is_of_raster(item) {
        page.raster = None;
    }
}

/// The resolution of so many pixels an inch.
fn resolution_of(n: Number) -> Option<Resolution>
    ensures { result ≡ resolution_of (amount n) }
{
    if !is_whole_from(0, n) {
        return None;
    }
    match whole_of(n) {
        75 => Some(Resolution::Dots75),
        100 => Some(Resolution::Dots100),
        150 => Some(Resolution::Dots150),
        200 => Some(Resolution::Dots200),
        300 => Some(Resolution::Dots300),
        600 => Some(Resolution::Dots600),
        _ => None,
    }
}

/// `*t#R`: sets how many pixels an inch has.
pub(crate) fn set_resolution(page: &mut Page, n: Number) -> Result<(), Finding>
    ensures { Steps (λ s. set_resolution s (amount n)) page.old page.new result }
{
    let Some(resolution) = resolution_of(n) else {
        return Err(Finding::BadValue);
    };
    if page.raster.is_some() {
        return Err(Finding::RasterLocked);
    }
    page.env.job.raster.resolution = resolution;
    Ok(())
}

/// `*r#S`: sets the width of rasters, in pixels.
pub(crate) fn set_raster_width(page: &mut Page, n: Number) -> Result<(), Finding>
    ensures { Steps (λ s. set_raster_width s (amount n)) page.old page.new result }
{
    if !is_whole_from(1, n) {
        return Err(Finding::BadValue);
    }
    if page.raster.is_some() {
        return Err(Finding::RasterLocked);
    }
    page.env.job.raster.width = Some(whole_of(n));
    Ok(())
}

/// `*r#T`: sets the height of rasters, in rows.
pub(crate) fn set_raster_height(page: &mut Page, n: Number) -> Result<(), Finding>
    ensures { Steps (λ s. set_raster_height s (amount n)) page.old page.new result }
{
    if !is_whole_from(1, n) {
        return Err(Finding::BadValue);
    }
    if page.raster.is_some() {
        return Err(Finding::RasterLocked);
    }
    page.env.job.raster.height = Some(whole_of(n));
    Ok(())
}

/// How a value has rasters lie on the page.
fn presentation_of(n: Number) -> Option<Presentation>
    ensures { result ≡ presentation_of (amount n) }
{
    if is_whole_between(0, 0, n) {
        Some(Presentation::LogicalPage)
    } else if is_whole_between(3, 3, n) {
        Some(Presentation::PhysicalPage)
    } else {
        None
    }
}

/// `*r#F`: sets how rasters lie on the page.
pub(crate) fn set_presentation(page: &mut Page, n: Number) -> Result<(), Finding>
    ensures { Steps (λ s. set_presentation s (amount n)) page.old page.new result }
{
    let Some(presentation) = presentation_of(n) else {
        return Err(Finding::BadValue);
    };
    if page.raster.is_some() {
        return Err(Finding::RasterLocked);
    }
    page.env.job.raster.presentation = presentation;
    Ok(())
}

/// `*b#M`: sets no compression, which is all that there is.
pub(crate) fn set_compression(_page: &mut Page, n: Number) -> Result<(), Finding>
    ensures { Steps (λ s. set_compression s (amount n)) _page.old _page.new result }
{
    if !is_whole_between(0, 0, n) {
        return Err(Finding::BadValue);
    }
    Ok(())
}

/// Whether a raster that lies so would be turned in an orientation.
fn is_rotated(presentation: Presentation, orientation: u32) -> bool
    ensures { result ≡ is_physical presentation && not (orientation == 0) }
{
    presentation == Presentation::PhysicalPage && orientation != 0
}

/// `*r#A`: starts a raster at the left edge of the logical page or at the cursor.
pub(crate) fn start_raster(page: &mut Page, n: Number) -> Result<(), Finding>
    ensures { Steps (λ s. start_raster s (amount n)) page.old page.new result }
{
    if !is_whole_between(0, 1, n) {
        return Err(Finding::BadValue);
    }
    if page.raster.is_some() {
        return Err(Finding::RasterLocked);
    }
    let fields = &page.env.fields;
    let _size = fields.size.known(Field::Size)?;
    let orientation = fields.orientation.known(Field::Orientation)?;
    let y = vertical(page)?;
    if is_rotated(page.env.job.raster.presentation, orientation) {
        return Err(Finding::RotatedRaster);
    }
    if whole_of(n) == 0 {
        page.cursor.x = Length::ZERO;
    }
    page.cursor.y = Some(y);
    page.raster = Some(StartedRaster {
        rows_left: page.env.job.raster.height,
    });
    Ok(())
}

/// `*rB` and `*rC`: end a raster.
pub(crate) fn end_raster(page: &mut Page, n: Number) -> Result<(), Finding>
    ensures { Steps (λ s. end_raster s (amount n)) page.old page.new result }
{
    if !is_whole_between(0, 0, n) {
        return Err(Finding::BadValue);
    }
    page.raster = None;
    Ok(())
}
