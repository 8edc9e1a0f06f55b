//! Cursor positioning and the cursor stack (the manual's "Cursor Positioning").
#![tactic(auto, unfolding(crate::specs::Answers::Marks, crate::specs::Answers::Leads))]

ghost use Rattle.std.specs.Prelude.{cond, Some, []};
ghost use Rattle.pcl_items.specs.Items.{amount};
ghost use Rattle.page_env.specs.Settings.{state_at};
ghost use Rattle.page_env.specs.Effect.{ReadsFields};
ghost use Rattle.page_env.specs.Numbers.{is_absent};
ghost use Rattle.page_env.specs.Places.{ticks_in, vertical_place, geometry_of, page_reads};
ghost use Rattle.page_env.specs.CursorPositioning.{push_cursor, pop_cursor, use_stack, move_across};
ghost use Rattle.page_env.specs.CursorPositioning.{move_from_top, relative_reads, move_x, move_y};
ghost use Rattle.page_env.specs.CursorPositioning.{move_x_decipoints, move_y_decipoints};
ghost use Rattle.page_env.specs.CursorPositioning.{move_columns, move_rows};
ghost use Rattle.page_env.specs.Answers.{CarriesOut, Leads, Steps};

use crate::cursor::Coordinate;
use crate::finding::Finding;
use crate::number::{is_whole_between, whole_of};
use crate::page::Page;
use crate::places::{
    first_line, geometry, geometry_and_column, geometry_and_vmi, size_and_orientation, target,
    target_down, ticks_in, times, vertical, vertical_with,
};
use device_profile::{Field, Geometry, Profile};
use pcl_items::{Number, Sign};
use std::alloc::Allocator;
use tick_length::{Length, Unit};

/// The place to which a move of so many of a unit leads, to the left or right.
#[inline(always)]
fn place_across<A: Allocator>(
    profile: &Profile<A>,
    page: &Page,
    unit: Unit,
    n: Number,
) -> Result<Length, Finding>
    ensures { let by = ticks_in unit n.ten_thousandths in
        Leads (λ x. record page.now { cursor = record page.now.cursor { x = x } })
        (λ s. move_across profile.now s page_reads [] n.sign (Some by)) page.now result }
{
    let geometry = geometry(profile, page)?;
    let here = page.cursor.x.ticks();
    let by = u128::from(ticks_in(unit, n.ten_thousandths));
    match target(n.sign, 0, here, by, geometry.logical_width) {
        None => Err(Finding::OffPage),
        Some(x) => Ok(x),
    }
}

/// `*p#X`: moves the cursor to the left or right, in PCL units.
#[inline(always)]
pub(crate) fn move_x<A: Allocator>(
    profile: &Profile<A>,
    page: &mut Page,
    n: Number,
) -> Result<(), Finding>
    ensures { Steps (λ s. move_x profile.now s (amount n)) page.old page.new result }
{
    let unit = Unit::PclUnit(page.env.job.units_per_inch);
    page.cursor.x = place_across(profile, page, unit, n)?;
    Ok(())
}

/// `&a#H`: moves the cursor to the left or right, in decipoints.
pub(crate) fn move_x_decipoints<A: Allocator>(
    profile: &Profile<A>,
    page: &mut Page,
    n: Number,
) -> Result<(), Finding>
    ensures { Steps (λ s. move_x_decipoints profile.now s (amount n)) page.old page.new result }
{
    page.cursor.x = place_across(profile, page, Unit::Decipoint, n)?;
    Ok(())
}

/// `&a#C`: moves the cursor to the left or right, in columns.
#[inline(always)]
pub(crate) fn move_columns<A: Allocator>(
    profile: &Profile<A>,
    page: &mut Page,
    n: Number,
) -> Result<(), Finding>
    ensures { Steps (λ s. move_columns profile.now s (amount n)) page.old page.new result }
{
    let (geometry, column) = geometry_and_column(profile, page)?;
    let Some(column) = column else {
        return Err(Finding::NoFont);
    };
    let Some(by) = times(column, n.ten_thousandths) else {
        return Err(Finding::Inexact);
    };
    let Some(x) = target(n.sign, 0, page.cursor.x.ticks(), by, geometry.logical_width) else {
        return Err(Finding::OffPage);
    };
    page.cursor.x = x;
    Ok(())
}

/// The page in force, and the vertical place from which a move goes: the top margin where it has no
/// sign, else the cursor.
#[inline(always)]
fn geometry_and_start<A: Allocator>(
    profile: &Profile<A>,
    page: &Page,
    sign: Sign,
) -> Result<(Geometry, Coordinate), Field>
    ensures { ReadsFields page.now.env (relative_reads sign page.now.cursor.y)
        (λ panel. (
          geometry_of profile.now (state_at panel page.now),
          cond (is_absent sign) page.now.env.job.top_margin
              (vertical_place (state_at panel page.now)),
        )) result }
{
    let (size, orientation) = size_and_orientation(page)?;
    let geometry = profile.page_geometry(size, orientation);
    match sign {
        Sign::Absent => {
            let top = Coordinate::from_ticks(page.env.job.top_margin.ticks());
            Ok((geometry, top))
        }
        Sign::Plus | Sign::Minus => {
            let here = vertical(page)?;
            Ok((geometry, here))
        }
    }
}

/// The place to which a move of so many of a unit leads, up or down.
#[inline(always)]
fn place_down<A: Allocator>(
    profile: &Profile<A>,
    page: &Page,
    unit: Unit,
    n: Number,
) -> Result<Coordinate, Finding>
    ensures { let by = ticks_in unit n.ten_thousandths in
        Leads (λ y. record page.now { cursor = record page.now.cursor { y = Some y } })
        (λ s. move_from_top profile.now s n.sign by) page.now result }
{
    let (geometry, from) = geometry_and_start(profile, page, n.sign)?;
    let by = u128::from(ticks_in(unit, n.ten_thousandths));
    match target_down(n.sign, from, from, by, geometry.logical_height) {
        None => Err(Finding::OffPage),
        Some(y) => Ok(y),
    }
}

/// `*p#Y`: moves the cursor up or down, in PCL units.
#[inline(always)]
pub(crate) fn move_y<A: Allocator>(
    profile: &Profile<A>,
    page: &mut Page,
    n: Number,
) -> Result<(), Finding>
    ensures { Steps (λ s. move_y profile.now s (amount n)) page.old page.new result }
{
    let unit = Unit::PclUnit(page.env.job.units_per_inch);
    page.cursor.y = Some(place_down(profile, page, unit, n)?);
    Ok(())
}

/// `&a#V`: moves the cursor up or down, in decipoints.
pub(crate) fn move_y_decipoints<A: Allocator>(
    profile: &Profile<A>,
    page: &mut Page,
    n: Number,
) -> Result<(), Finding>
    ensures { Steps (λ s. move_y_decipoints profile.now s (amount n)) page.old page.new result }
{
    page.cursor.y = Some(place_down(profile, page, Unit::Decipoint, n)?);
    Ok(())
}

/// `&a#R`: moves the cursor up or down, in rows.
pub(crate) fn move_rows<A: Allocator>(
    profile: &Profile<A>,
    page: &mut Page,
    n: Number,
) -> Result<(), Finding>
    ensures { Steps (λ s. move_rows profile.now s (amount n)) page.old page.new result }
{
    let (geometry, vmi) = geometry_and_vmi(profile, page)?;
    let Some(by) = times(ticks_in(Unit::FortyEighthInch, vmi), n.ten_thousandths) else {
        return Err(Finding::Inexact);
    };
    let first = first_line(page.env.job.top_margin, vmi);
    let here = vertical_with(page, vmi);
    let Some(y) = target_down(n.sign, first, here, by, geometry.logical_height) else {
        return Err(Finding::OffPage);
    };
    page.cursor.y = Some(y);
    Ok(())
}

/// `&f0S`: pushes the cursor.
fn push_cursor(page: &mut Page, n: Number) -> Result<(), Finding>
    ensures { Steps (λ s. push_cursor s (amount n)) page.old page.new result }
{
    if !is_whole_between(0, 1, n) {
        return Err(Finding::BadValue);
    }
    if page.stack.is_full() {
        return Err(Finding::StackFull);
    }
    let y = vertical(page)?;
    page.cursor.y = Some(y);
    page.stack.push(page.cursor);
    Ok(())
}

/// `&f1S`: pops the cursor that was pushed last.
fn pop_cursor(page: &mut Page, n: Number) -> Result<(), Finding>
    ensures { Steps (λ s. pop_cursor s (amount n)) page.old page.new result }
{
    if !is_whole_between(0, 1, n) {
        return Err(Finding::BadValue);
    }
    match page.stack.pop() {
        None => Err(Finding::StackEmpty),
        Some(cursor) => {
            page.cursor = cursor;
            Ok(())
        }
    }
}

/// `&f#S`: pushes or pops the cursor.
pub(crate) fn use_stack(page: &mut Page, n: Number) -> Result<(), Finding>
    ensures { Steps (λ s. use_stack s (amount n)) page.old page.new result }
{
    if whole_of(n) == 0 {
        push_cursor(page, n)
    } else {
        pop_cursor(page, n)
    }
}
