//! The pen of an HP-GL/2 frame (the manual's "The Vector Group" and "The Line and Fill Attributes
//! Group").
#![tactic(auto, unfolding(crate::specs::Answers::Marks))]

ghost use Rattle.std.specs.Prelude.{◌≡◌, ◌≤◌, ◌+◌, ◌*◌, ◌^◌, pos, cond, ◌&&◌, ◌+ℤ◌, ◌-ℤ◌, Some};
ghost use Rattle.std.specs.Prelude.{None, MatchResult};
ghost use Rattle.std.specs.Int.{int_min, int_max};
ghost use Rattle.page_env.specs.Numbers.{IsWithin};
ghost use Rattle.page_env.specs.Settings.{default_pen};
ghost use Rattle.page_env.specs.Mark.{lines_of, line_bounds, is_inside};
ghost use Rattle.page_env.specs.Places.{is_between};
ghost use Rattle.page_env.specs.Effect.{first_finding};
ghost use Rattle.page_env.specs.Frames.{frame_on, is_in_frame};
ghost use Rattle.page_env.specs.Pens.{place_of, initialize, select_pen, set_pen_width, set_pen};
ghost use Rattle.page_env.specs.Pens.{line_between, is_too_far, stays_in_frame, line_checks, draw};
ghost use Rattle.page_env.specs.Pens.{lower_pen, motion_step, reached, pen_target, carry_pen};
ghost use Rattle.page_env.specs.Pens.{move_pen};
ghost use Rattle.page_env.specs.Answers.{Steps, Marks};

use crate::cursor::Coordinate;
use crate::finding::Finding;
use crate::frames::{Frame, foot_of, frame_on, origin};
use crate::mark::PenLine;
use crate::page::{JobSettings, Page, Pen, PenCoordinate, PenPlace};
use crate::places::{Origin, geometry_and_origin, length_at, length_in, lies_between, ticks_in};
use crate::target::Target;
use device_profile::{Geometry, Profile};
use pcl_items::{Coordinates, Magnitude, Motion, Setting};
use std::alloc::Allocator;
use tick_length::{Length, TICKS_PER_PLOTTER_UNIT, Unit};

/// How far a plotter unit goes, 0.025 mm, in ticks.
const PLOTTER_UNIT: i64 = TICKS_PER_PLOTTER_UNIT as i64;

/// How far the pen may be from the origin along an axis: 8,388,607 plotter units.
pub(crate) const FURTHEST: u64 = 8_388_607 * TICKS_PER_PLOTTER_UNIT;

/// The pen as `IN` leaves it.
pub(crate) fn initial_pen() -> Pen
    ensures { result ≡ default_pen }
{
    Pen {
        number: 0,
        is_down: false,
        is_relative: false,
        width: 3_500,
        place: origin(),
    }
}

/// `IN`: initializes the pen.
pub(crate) fn initialize(page: &mut Page) -> Result<(), Finding>
    ensures { Steps initialize page.old page.new result }
{
    page.env.job.pen = initial_pen();
    Ok(())
}

/// `SP`: selects a pen.
fn select_pen(page: &mut Page, n: Magnitude) -> Result<(), Finding>
    ensures { Steps (λ s. select_pen s n.ten_thousandths) page.old page.new result }
{
    match n.ten_thousandths {
        0 => page.env.job.pen.number = 0,
        10_000 => page.env.job.pen.number = 1,
        _ => return Err(Finding::BadValue),
    }
    Ok(())
}

/// `PW`: sets the width of lines, in millimetres.
fn set_pen_width(page: &mut Page, n: Magnitude) -> Result<(), Finding>
    ensures { Steps (λ s. set_pen_width s n.ten_thousandths) page.old page.new result }
{
    if n.ten_thousandths == 0 {
        return Err(Finding::BadValue);
    }
    page.env.job.pen.width = n.ten_thousandths;
    Ok(())
}

/// `SP` and `PW`.
pub(crate) fn set_pen(page: &mut Page, setting: Setting, n: Magnitude) -> Result<(), Finding>
    ensures { Steps (λ s. set_pen s setting n.ten_thousandths) page.old page.new result }
{
    match setting {
        Setting::Pen => select_pen(page, n),
        Setting::Width => set_pen_width(page, n),
    }
}

/// Where so many plotter units lead along an axis.
fn reached(is_relative: bool, here: PenCoordinate, units: i32) -> i64
    ensures value { result ≡ reached is_relative here units }
    ensures near { IsWithin (2 ^ 62 + 2 ^ 57) result }
{
    let by = i64::from(units) * PLOTTER_UNIT;
    if is_relative { here.ticks() + by } else { by }
}

/// Where coordinates lead.
pub(crate) fn pen_target(pen: &Pen, to: Coordinates) -> Target
    ensures { place_of result ≡ pen_target pen.now (to.x.units, to.y.units) }
{
    Target {
        x: reached(pen.is_relative, pen.place.x, to.x.units),
        y: reached(pen.is_relative, pen.place.y, to.y.units),
    }
}

/// The place where the pen is.
pub(crate) fn own_place(place: PenPlace) -> Target
    ensures { place_of result ≡ place }
{
    Target {
        x: place.x.ticks(),
        y: place.y.ticks(),
    }
}

/// The pen's place at a target, unless that is too far.
fn place_at(to: Target) -> Option<PenPlace>
    ensures { result ≡ cond (is_too_far (place_of to)) None (Some (place_of to)) }
{
    if FURTHEST < to.x.unsigned_abs() || FURTHEST < to.y.unsigned_abs() {
        return None;
    }
    Some(PenPlace {
        x: PenCoordinate::from_ticks(to.x),
        y: PenCoordinate::from_ticks(to.y),
    })
}

/// Whether a place lies in a frame.
fn is_in_frame(frame: &Frame, place: Target) -> bool
    ensures { result ≡ is_in_frame frame.now (place_of place) }
{
    lies_between(0, frame.width.ticks(), place.x) && lies_between(0, frame.height.ticks(), place.y)
}

/// The pen's place at the end of a line, if both ends lie in a frame and it is not too far.
pub(crate) fn place_within(frame: &Frame, start: Target, end: Target) -> Option<PenPlace>
    ensures { result ≡ cond (stays_in_frame frame.now (place_of start) (place_of end))
        (Some (place_of end)) None }
{
    if is_in_frame(frame, start) && is_in_frame(frame, end) {
        place_at(end)
    } else {
        None
    }
}

/// Half a width below the lower of two places.
fn low_end(a: i64, b: i64, half: u64) -> i64
    requires first { IsWithin (15 * 2 ^ 59) a }
    requires second { IsWithin (15 * 2 ^ 59) b }
    requires half { half ≤ 2 ^ 50 }
    ensures { result ≡ int_min a b -ℤ pos half }
{
    a.min(b) - half as i64
}

/// Half a width above the higher of two places.
fn high_end(a: i64, b: i64, half: u64) -> i64
    requires first { IsWithin (15 * 2 ^ 59) a }
    requires second { IsWithin (15 * 2 ^ 59) b }
    requires half { half ≤ 2 ^ 50 }
    ensures { result ≡ int_max a b +ℤ pos half }
{
    a.max(b) + half as i64
}

/// Whether two places, with half a width about them, lie between two bounds.
fn fit_between(low: i64, high: i64, half: u64, a: i64, b: i64) -> bool
    requires first { IsWithin (15 * 2 ^ 59) a }
    requires second { IsWithin (15 * 2 ^ 59) b }
    requires half { half ≤ 2 ^ 50 }
    ensures { result ≡ (is_between low high (int_min a b -ℤ pos half)
        && is_between low high (int_max a b +ℤ pos half)) }
{
    let least = low_end(a, b, half);
    let most = high_end(a, b, half);
    lies_between(low, high, least) && lies_between(low, high, most)
}

/// Where a place of the pen lies on the sheet, to the right of the left edge of its frame.
fn x_on_sheet(origin: Coordinate, left: Length, x: i64) -> i64
    requires { IsWithin (2 ^ 62 + 2 ^ 57) x }
    ensures value { result ≡ origin +ℤ (left +ℤ x) }
    ensures near { IsWithin (15 * 2 ^ 59) result }
{
    origin.ticks() + (left.ticks() + x)
}

/// Where a place of the pen lies on the sheet, above the foot of its frame.
fn y_on_sheet(origin: Coordinate, foot: i64, y: i64) -> i64
    requires foot { IsWithin (2 ^ 61 + 2 ^ 51) foot }
    requires place { IsWithin (2 ^ 62 + 2 ^ 57) y }
    ensures value { result ≡ origin +ℤ (foot -ℤ y) }
    ensures near { IsWithin (15 * 2 ^ 59) result }
{
    origin.ticks() + (foot - y)
}

/// Both ends of a line along an axis, if they lie so far within two bounds.
// Inlined, as all that judges a line is, so that a line is put together once.
#[inline(always)]
#[tactic(auto, using(crate::proofs::Ends::ends_in_range))]
fn ends_between(low: Length, high: Length, half: u64, a: i64, b: i64) -> Option<(Length, Length)>
    requires first { IsWithin (15 * 2 ^ 59) a }
    requires second { IsWithin (15 * 2 ^ 59) b }
    requires half { half ≤ 2 ^ 50 }
    ensures { result ≡ cond (is_between low high (int_min a b -ℤ pos half)
        && is_between low high (int_max a b +ℤ pos half)) (Some (a, b)) None }
{
    let fit = fit_between(low.ticks(), high.ticks(), half, a, b);
    if fit {
        Some((length_at(i128::from(a)), length_at(i128::from(b))))
    } else {
        None
    }
}

/// A line between two places of a frame, its width in ten-thousandths of a millimetre, if it lies
/// in the printable area.
#[inline(always)]
#[tactic(auto, unfolding(crate::specs::Mark::is_inside))]
pub(crate) fn line_inside(
    geometry: &Geometry,
    origin: Origin,
    frame: &Frame,
    width: u32,
    start: Target,
    end: Target,
) -> Option<PenLine>
    ensures { let line = line_between origin frame.now width (place_of start) (place_of end) in
        result ≡ cond (is_inside geometry.now (line_bounds line)) (Some line) None }
{
    let half = ticks_in(Unit::Millimetre, width) / 2;
    let a = x_on_sheet(origin.x, frame.left, start.x);
    let b = x_on_sheet(origin.x, frame.left, end.x);
    let (low, high) = (geometry.printable_left, geometry.printable_right);
    let (x0, x1) = ends_between(low, high, half, a, b)?;
    let foot = foot_of(frame);
    let a = y_on_sheet(origin.y, foot, start.y);
    let b = y_on_sheet(origin.y, foot, end.y);
    let (low, high) = (geometry.printable_top, geometry.printable_bottom);
    let (y0, y1) = ends_between(low, high, half, a, b)?;
    Some(PenLine {
        width: length_in(Unit::Millimetre, width),
        x0,
        y0,
        x1,
        y1,
    })
}

/// A line from the pen to a place, and the pen's place at its end.
#[inline(always)]
fn judged(
    geometry: &Geometry,
    origin: Origin,
    job: &JobSettings,
    to: Target,
) -> Result<(PenLine, PenPlace), Finding>
    ensures { let frame = frame_on geometry.now job.now.frame in
        let pen = job.now.pen in
        let checks = line_checks geometry.now origin frame pen.width pen.place (place_of to) in
        MatchResult result
        (λ answer. (answer.0 ≡ line_between origin frame pen.width pen.place (place_of to)) ×
        (answer.1 ≡ place_of to) × (first_finding checks ≡ None))
        (λ finding. first_finding checks ≡ Some finding) }
{
    let frame = frame_on(geometry, &job.frame);
    let start = own_place(job.pen.place);
    let Some(line) = line_inside(geometry, origin, &frame, job.pen.width, start, to) else {
        return Err(Finding::NotPrintable);
    };
    let Some(place) = place_within(&frame, start, to) else {
        return Err(Finding::OutsideFrame);
    };
    Ok((line, place))
}

/// Draws a line to a place, with the pen down.
#[inline(always)]
fn draw<A: Allocator>(
    profile: &Profile<A>,
    page: &mut Page,
    to: Target,
) -> Result<Option<PenLine>, Finding>
    ensures { Marks lines_of (λ s. draw profile.now s (place_of to)) page.old page.new result }
{
    if page.env.job.pen.number == 0 {
        return Err(Finding::NoPen);
    }
    let (geometry, origin) = geometry_and_origin(profile, page)?;
    let (line, place) = judged(&geometry, origin, &page.env.job, to)?;
    page.env.job.pen.is_down = true;
    page.env.job.pen.place = place;
    page.marked = true;
    Ok(Some(line))
}

/// Draws a dot where the pen is.
// A call of its own: most lines begin where the last one ended.
#[inline(never)]
fn draw_dot<A: Allocator>(profile: &Profile<A>, page: &mut Page) -> Result<Option<PenLine>, Finding>
    ensures { Marks lines_of (λ s. draw profile.now s s.settings.job.pen.place) page.old page.new
        result }
{
    let here = own_place(page.env.job.pen.place);
    draw(profile, page, here)
}

/// `PD`: lowers the pen. A raised one marks a dot.
fn lower_pen<A: Allocator>(
    profile: &Profile<A>,
    page: &mut Page,
) -> Result<Option<PenLine>, Finding>
    ensures { Marks lines_of (λ s. lower_pen profile.now s) page.old page.new result }
{
    if page.env.job.pen.is_down {
        return Ok(None);
    }
    draw_dot(profile, page)
}

/// The own step of a command that moves the pen. A pen that is lowered marks a dot, unless it is
/// pen 0.
pub fn carry_out_motion<A: Allocator>(
    profile: &Profile<A>,
    page: &mut Page,
    motion: Motion,
) -> Result<Option<PenLine>, Finding>
    ensures { Marks lines_of (λ s. motion_step profile.now s motion) page.old page.new result }
{
    match motion {
        Motion::Down => return lower_pen(profile, page),
        Motion::Up => page.env.job.pen.is_down = false,
        Motion::Absolute => page.env.job.pen.is_relative = false,
        Motion::Relative => page.env.job.pen.is_relative = true,
    }
    Ok(None)
}

/// Moves the raised pen to a place.
fn carry_pen(page: &mut Page, to: Target) -> Result<Option<PenLine>, Finding>
    ensures { Marks lines_of (λ s. carry_pen s (place_of to)) page.old page.new result }
{
    match place_at(to) {
        None => Err(Finding::OutsideFrame),
        Some(place) => {
            page.env.job.pen.place = place;
            Ok(None)
        }
    }
}

/// Moves the pen to a pair of coordinates, behind the own step of its command. With the pen down it
/// draws, unless it is pen 0.
#[inline(always)]
pub fn move_pen<A: Allocator>(
    profile: &Profile<A>,
    page: &mut Page,
    to: Coordinates,
) -> Result<Option<PenLine>, Finding>
    ensures { Marks lines_of (λ s. move_pen profile.now s (to.x.units, to.y.units)) page.old
        page.new result }
{
    let target = pen_target(&page.env.job.pen, to);
    if page.env.job.pen.is_down {
        draw(profile, page, target)
    } else {
        carry_pen(page, target)
    }
}
