//! Moves of the cursor, its stack, and rectangles, one behind another, so that what they take from
//! the page is looked up once.
#![tactic(auto)]

ghost use Rattle.std.specs.Prelude.{◌≡◌, ◌≤◌, ◌^◌, ◌+◌, ◌*◌, ◌/◌, ◌+ℤ◌, ◌≤ℤ◌, pos};
ghost use Rattle.std.specs.Prelude.{◌-ℤ◌, cond, unwrap_or};
ghost use Rattle.std.specs.Prelude.{IfNone, IfSome, IsFalse, IsTrue, Some, ◌==◌, false, true};
ghost use Rattle.tick_length.specs.declared.unit.Unit.TheVariants.{PclUnit};
ghost use Rattle.tick_length.specs.Unit.{ticks_of};
ghost use Rattle.pcl_items.specs.declared.pcl.command.Command.TheVariants.{
  Column,
  CursorStack,
  FillRectangle,
  HorizontalDecipoints,
  HorizontalUnits,
  RectangleHeight,
  RectangleWidth,
  Row,
  VerticalDecipoints,
  VerticalUnits,
};
ghost use Rattle.pcl_items.specs.Escapes.Value.{is_whole};
ghost use Rattle.pcl_items.specs.Items.{amount};
ghost use Rattle.page_env.specs.Forms.{FeedsBy, FormsBy, HasBounds};
ghost use Rattle.page_env.specs.Numbers.{IsWithin, is_whole_between, whole_of};
ghost use Rattle.page_env.specs.Places.{place_between, target_of, times};
ghost use Rattle.page_env.specs.Settings.{half_inch};

use crate::cell::Cell;
use crate::cursor::{Coordinate, Cursor};
use crate::lookup::FormBounds;
use crate::mark::Bounds;
use crate::number::{is_negative, is_whole_between, whole_of};
use crate::page::Page;
use crate::places::{
    SheetPlace, first_line, half_inch, known_geometry, length_between, on_sheet, origin_on,
    ticks_in,
};
use crate::rectangles::{fill_of, is_empty};
use crate::text_lines::area_of;
use device_profile::Profile;
use pcl_items::{Command, Number, Sign};
use std::alloc::Allocator;
use tick_length::{Length, Unit, UnitsPerInch};

/// How many ticks the ten-thousandth of a PCL unit has.
fn ticks_each(units: UnitsPerInch) -> u64
    ensures value { result ≡ ticks_of (PclUnit units) / 10_000 }
    ensures small { result ≤ 2 ^ 18 }
{
    Unit::PclUnit(units).ticks().unsigned_abs() / 10_000
}

/// What moves and rectangles take, if the page is known whatever the panel and no raster is
/// started.
#[inline(always)]
pub fn form_bounds<A: Allocator>(profile: &Profile<A>, page: &Page) -> Option<FormBounds>
    ensures { IfSome result (λ bounds. HasBounds profile.now page.now bounds) }
{
    if page.raster.is_some() {
        return None;
    }
    let Some((geometry, _)) = known_geometry(profile, page) else {
        return None;
    };
    Some(FormBounds {
        width: geometry.logical_width,
        height: geometry.logical_height,
        origin: origin_on(geometry),
        area: area_of(geometry),
        top: page.env.job.top_margin,
        unit: ticks_each(page.env.job.units_per_inch),
    })
}

/// So many PCL units, in ticks.
#[inline(always)]
fn units_on(bounds: &FormBounds, n: Number) -> u64
    ensures value { result ≡ bounds.now.unit * n.ten_thousandths }
    ensures small { result ≤ 2 ^ 60 }
{
    bounds.unit * u64::from(n.ten_thousandths)
}

/// Where a move by so many ticks leads, if that is on the logical page.
// As `target` finds it, but in 64 bits.
#[inline(always)]
fn target_by(
    sign: Sign,
    zero: Coordinate,
    here: Coordinate,
    by: u64,
    limit: Length,
) -> Option<Length>
    requires { by ≤ 2 ^ 60 }
    ensures { result ≡ place_between (pos 0) limit (target_of sign zero here (pos by)) }
{
    let by = by as i64;
    match sign {
        Sign::Absent => length_between(Length::ZERO, limit, zero.ticks() + by),
        Sign::Plus => length_between(Length::ZERO, limit, here.ticks() + by),
        Sign::Minus => length_between(Length::ZERO, limit, here.ticks() - by),
    }
}

/// Where a move to the left or right leads, if that is on the logical page.
#[inline(always)]
fn across(bounds: &FormBounds, page: &Page, sign: Sign, by: u64) -> Option<Length>
    requires { by ≤ 2 ^ 60 }
    ensures { result ≡ place_between (pos 0) bounds.now.width
        (target_of sign (pos 0) page.now.cursor.x (pos by)) }
{
    let here = Coordinate::from_ticks(page.cursor.x.ticks());
    target_by(sign, Coordinate::from_ticks(0), here, by, bounds.width)
}

/// Where a move up or down leads, if that is on the logical page.
#[inline(always)]
fn down(bounds: &FormBounds, here: Coordinate, sign: Sign, by: u64) -> Option<Coordinate>
    requires { by ≤ 2 ^ 60 }
    ensures { result ≡ place_between (pos 0) bounds.now.height
        (target_of sign bounds.now.top here (pos by)) }
{
    let top = Coordinate::from_ticks(bounds.top.ticks());
    down_from(bounds, top, here, sign, by)
}

/// Where one leads that goes without a sign from this place, if that is on the logical page.
#[inline(always)]
fn down_from(
    bounds: &FormBounds,
    zero: Coordinate,
    here: Coordinate,
    sign: Sign,
    by: u64,
) -> Option<Coordinate>
    requires { by ≤ 2 ^ 60 }
    ensures { result ≡ place_between (pos 0) bounds.now.height (target_of sign zero here (pos by)) }
{
    let y = target_by(sign, zero, here, by, bounds.height)?;
    Some(Coordinate::from_ticks(y.ticks()))
}

/// `*p#X`, where it goes.
#[inline(always)]
fn move_x_on(bounds: &FormBounds, page: &mut Page, n: Number) -> Option<u64>
    ensures goes { FormsBy bounds.now HorizontalUnits (amount n) page.old page.new result }
    ensures same { IfNone result (page.new ≡ page.old) }
{
    let by = units_on(bounds, n);
    let x = across(bounds, page, n.sign, by)?;
    page.cursor.x = x;
    Some(0)
}

/// `*p#Y`, where it goes and the cursor is not at home.
#[inline(always)]
fn move_y_on(bounds: &FormBounds, page: &mut Page, n: Number) -> Option<u64>
    ensures goes { FormsBy bounds.now VerticalUnits (amount n) page.old page.new result }
    ensures same { IfNone result (page.new ≡ page.old) }
{
    let here = page.cursor.y?;
    let by = units_on(bounds, n);
    let y = down(bounds, here, n.sign, by)?;
    page.cursor.y = Some(y);
    Some(0)
}

/// `&a#H`, where it goes.
#[inline(always)]
fn move_x_decipoints_on(bounds: &FormBounds, page: &mut Page, n: Number) -> Option<u64>
    ensures goes { FormsBy bounds.now HorizontalDecipoints (amount n) page.old page.new result }
    ensures same { IfNone result (page.new ≡ page.old) }
{
    let by = ticks_in(Unit::Decipoint, n.ten_thousandths);
    let x = across(bounds, page, n.sign, by)?;
    page.cursor.x = x;
    Some(0)
}

/// `&a#V`, where it goes and the cursor is not at home.
#[inline(always)]
fn move_y_decipoints_on(bounds: &FormBounds, page: &mut Page, n: Number) -> Option<u64>
    ensures goes { FormsBy bounds.now VerticalDecipoints (amount n) page.old page.new result }
    ensures same { IfNone result (page.new ≡ page.old) }
{
    let here = page.cursor.y?;
    let by = ticks_in(Unit::Decipoint, n.ten_thousandths);
    let y = down(bounds, here, n.sign, by)?;
    page.cursor.y = Some(y);
    Some(0)
}

/// The most ticks by which a move leads that is judged in 64 bits.
const MOST_TICKS: u64 = 1 << 60;

/// So many columns or rows, in ticks, where these are whole and few enough for 64 bits.
// As `times` finds it, but without a division of whole values, as most are.
#[inline(always)]
fn times_on(length: u64, n: Number) -> Option<u64>
    ensures value { IfSome result (λ ticks. times length n.ten_thousandths ≡ Some ticks) }
    ensures small { IfSome result (λ ticks. ticks ≤ 2 ^ 60) }
{
    let ticks = whole_or_parts(length, n)?;
    if ticks > MOST_TICKS {
        return None;
    }
    Some(ticks)
}

/// The same of any magnitude.
#[inline(always)]
fn whole_or_parts(length: u64, n: Number) -> Option<u64>
    ensures { IfSome result (λ ticks. times length n.ten_thousandths ≡ Some ticks) }
{
    if n.is_whole() {
        times_whole(length, n)
    } else {
        times_parts(length, n)
    }
}

/// The same of a value without decimals.
#[inline(always)]
fn times_whole(length: u64, n: Number) -> Option<u64>
    requires { is_whole (amount n) ≡ true }
    ensures { IfSome result (λ ticks. times length n.ten_thousandths ≡ Some ticks) }
{
    let Some(ticks) = length.checked_mul(u64::from(n.whole_part())) else {
        return None;
    };
    Some(ticks)
}

/// The same of a value with decimals.
#[inline(always)]
#[tactic(auto, unfolding(crate::specs::Places::times))]
fn times_parts(length: u64, n: Number) -> Option<u64>
    ensures { IfSome result (λ ticks. times length n.ten_thousandths ≡ Some ticks) }
{
    let Some(product) = length.checked_mul(u64::from(n.ten_thousandths)) else {
        return None;
    };
    if product % 10_000 != 0 {
        return None;
    }
    Some(product / 10_000)
}

/// `&a#C`, where it goes and an HMI is set.
#[inline(always)]
fn move_columns_on(bounds: &FormBounds, page: &mut Page, n: Number) -> Option<u64>
    ensures goes { FormsBy bounds.now Column (amount n) page.old page.new result }
    ensures same { IfNone result (page.new ≡ page.old) }
{
    let hmi = page.env.job.hmi?;
    let column = ticks_in(Unit::HundredTwentiethInch, hmi);
    let by = times_on(column, n)?;
    let x = across(bounds, page, n.sign, by)?;
    page.cursor.x = x;
    Some(0)
}

/// `&a#R`, where it goes, the VMI is known and the cursor is not at home.
#[inline(always)]
fn move_rows_on(bounds: &FormBounds, page: &mut Page, n: Number) -> Option<u64>
    ensures goes { FormsBy bounds.now Row (amount n) page.old page.new result }
    ensures same { IfNone result (page.new ≡ page.old) }
{
    let Cell::Known(vmi) = page.env.fields.vmi else {
        return None;
    };
    let here = page.cursor.y?;
    let line = ticks_in(Unit::FortyEighthInch, vmi);
    let by = times_on(line, n)?;
    let first = first_line(page.env.job.top_margin, vmi);
    let y = down_from(bounds, first, here, n.sign, by)?;
    page.cursor.y = Some(y);
    Some(0)
}

/// `&f0S`, where it goes and the cursor is not at home.
#[inline(always)]
fn push_on(bounds: &FormBounds, page: &mut Page, n: Number) -> Option<u64>
    requires whole { is_whole_between 0 1 (amount n) ≡ true }
    requires push { whole_of (amount n) ≡ 0 }
    ensures goes { FormsBy bounds.now CursorStack (amount n) page.old page.new result }
    ensures same { IfNone result (page.new ≡ page.old) }
{
    let here = page.cursor.y?;
    if page.stack.is_full() {
        return None;
    }
    page.stack.push(Cursor {
        x: page.cursor.x,
        y: Some(here),
    });
    Some(0)
}

/// `&f1S`, where it goes.
#[inline(always)]
fn pop_on(bounds: &FormBounds, page: &mut Page, n: Number) -> Option<u64>
    requires whole { is_whole_between 0 1 (amount n) ≡ true }
    requires pop { (whole_of (amount n) == 0) ≡ false }
    ensures goes { FormsBy bounds.now CursorStack (amount n) page.old page.new result }
    ensures same { IfNone result (page.new ≡ page.old) }
{
    let Some(cursor) = page.stack.pop() else {
        return None;
    };
    page.cursor = cursor;
    Some(0)
}

/// `&f#S`, where it goes, and the cursor is not at home where it is pushed.
#[inline(always)]
fn use_stack_on(bounds: &FormBounds, page: &mut Page, n: Number) -> Option<u64>
    ensures goes { FormsBy bounds.now CursorStack (amount n) page.old page.new result }
    ensures same { IfNone result (page.new ≡ page.old) }
{
    if !is_whole_between(0, 1, n) {
        return None;
    }
    if whole_of(n) == 0 {
        push_on(bounds, page, n)
    } else {
        pop_on(bounds, page, n)
    }
}

/// How far down a feed may lead, in ticks.
// As `feed_limit` finds it.
#[inline(always)]
fn foot_on(bounds: &FormBounds, page: &Page) -> i64
    ensures high { result ≤ℤ pos (2 ^ 60) }
    ensures value { result ≡ cond page.now.env.job.skips_perforation
        (unwrap_or page.now.env.job.bottom_margin (bounds.now.height -ℤ half_inch))
        bounds.now.height }
{
    if !page.env.job.skips_perforation {
        return bounds.height.ticks();
    }
    match page.env.job.bottom_margin {
        Some(bottom) => bottom.ticks(),
        None => bounds.height.ticks() - half_inch().ticks(),
    }
}

/// Feeds half a line (`ESC =`), where it is known that this goes and the cursor is not at home, and
/// tells whether it did.
#[inline(always)]
pub fn feed_half_line_on(bounds: &FormBounds, page: &mut Page) -> bool
    ensures goes { IsTrue result → FeedsBy bounds.now page.old page.new }
    ensures same { IsFalse result → page.new ≡ page.old }
{
    let Cell::Known(vmi) = page.env.fields.vmi else {
        return false;
    };
    let Some(here) = page.cursor.y else {
        return false;
    };
    let by = ticks_in(Unit::FortyEighthInch, vmi) / 2;
    let y = here.ticks() + by as i64;
    if foot_on(bounds, page) < y {
        return false;
    }
    page.cursor.y = Some(Coordinate::from_ticks(y));
    true
}

/// `*c#A`, where it goes.
#[inline(always)]
fn set_width_on(bounds: &FormBounds, page: &mut Page, n: Number) -> Option<u64>
    ensures goes { FormsBy bounds.now RectangleWidth (amount n) page.old page.new result }
    ensures same { IfNone result (page.new ≡ page.old) }
{
    if is_negative(n) {
        return None;
    }
    page.env.job.rectangle_width = length_of(units_on(bounds, n));
    Some(0)
}

/// `*c#B`, where it goes.
#[inline(always)]
fn set_height_on(bounds: &FormBounds, page: &mut Page, n: Number) -> Option<u64>
    ensures goes { FormsBy bounds.now RectangleHeight (amount n) page.old page.new result }
    ensures same { IfNone result (page.new ≡ page.old) }
{
    if is_negative(n) {
        return None;
    }
    page.env.job.rectangle_height = length_of(units_on(bounds, n));
    Some(0)
}

/// So many ticks, which a length may have.
#[inline(always)]
fn length_of(ticks: u64) -> Length
    requires { ticks ≤ 2 ^ 60 }
    ensures { result ≡ pos ticks }
{
    Length::of_ticks(ticks as i64)
}

/// Whether a place is not before a bound.
#[inline(always)]
fn begins_behind(low: Length, start: i64) -> bool
    ensures { IsTrue result → low ≤ℤ start }
{
    low.ticks() <= start
}

/// Whether a stretch does not end behind a bound.
#[inline(always)]
fn ends_before(start: i64, length: Length, high: Length) -> bool
    requires { IsWithin (2 ^ 61 + 2 ^ 51) start }
    ensures { IsTrue result → (start +ℤ length) ≤ℤ high }
{
    start + length.ticks() <= high.ticks()
}

/// Whether a rectangle of this size, which is not negative, lies within an area.
// So one of its edges is judged on each side, and not both.
#[inline(always)]
fn lies_on(area: &Bounds, corner: SheetPlace, width: Length, height: Length) -> bool
    ensures { IsTrue result → (area.now.left ≤ℤ corner.x) × (area.now.top ≤ℤ corner.y)
        × ((corner.x +ℤ width) ≤ℤ area.now.right) × ((corner.y +ℤ height) ≤ℤ area.now.bottom) }
{
    if !begins_behind(area.left, corner.x) {
        return false;
    }
    if !begins_behind(area.top, corner.y) {
        return false;
    }
    if !ends_before(corner.x, width, area.right) {
        return false;
    }
    ends_before(corner.y, height, area.bottom)
}

/// `*c#P`, where it goes and the cursor is not at home.
#[inline(always)]
fn fill_on(bounds: &FormBounds, page: &mut Page, n: Number) -> Option<u64>
    ensures goes { FormsBy bounds.now FillRectangle (amount n) page.old page.new result }
    ensures same { IfNone result (page.new ≡ page.old) }
{
    if fill_of(&page.env.job, n).is_none() {
        return None;
    }
    if is_empty(&page.env.job) {
        return None;
    }
    let y = page.cursor.y?;
    let corner = on_sheet(bounds.origin, page.cursor.x, y);
    let (width, height) = (page.env.job.rectangle_width, page.env.job.rectangle_height);
    if !lies_on(&bounds.area, corner, width, height) {
        return None;
    }
    page.marked = true;
    Some(1)
}

/// Whether a command may be one of these.
// Asked first, so that the page is not looked up for others.
#[inline(always)]
pub fn is_of_forms(command: Command) -> bool {
    matches!(
        command,
        Command::HorizontalUnits
            | Command::VerticalUnits
            | Command::HorizontalDecipoints
            | Command::VerticalDecipoints
            | Command::Column
            | Command::Row
            | Command::CursorStack
            | Command::RectangleWidth
            | Command::RectangleHeight
            | Command::FillRectangle
    )
}

/// Carries out a command that moves the cursor, uses its stack or makes a rectangle, by what it
/// takes from the page, where it is known that it goes, and tells how many marks it made.
#[inline(always)]
pub fn form_on(bounds: &FormBounds, page: &mut Page, command: Command, n: Number) -> Option<u64>
    ensures goes { FormsBy bounds.now command (amount n) page.old page.new result }
    ensures same { IfNone result (page.new ≡ page.old) }
{
    match command {
        Command::HorizontalUnits => move_x_on(bounds, page, n),
        Command::VerticalUnits => move_y_on(bounds, page, n),
        Command::HorizontalDecipoints => move_x_decipoints_on(bounds, page, n),
        Command::VerticalDecipoints => move_y_decipoints_on(bounds, page, n),
        Command::Column => move_columns_on(bounds, page, n),
        Command::Row => move_rows_on(bounds, page, n),
        Command::CursorStack => use_stack_on(bounds, page, n),
        Command::RectangleWidth => set_width_on(bounds, page, n),
        Command::RectangleHeight => set_height_on(bounds, page, n),
        Command::FillRectangle => fill_on(bounds, page, n),
        _ => None,
    }
}
