//! Moves of the pen in a box, one behind another, so that what they read of the page is read once.
#![tactic(auto)]

ghost use Rattle.std.specs.Prelude.{◌≡◌, ◌≤◌, ◌^◌, ◌==◌, ◌||◌, ℤ, IfNone, IfSome, IsTrue, Some};
ghost use Rattle.std.specs.Prelude.{length, not, true};
ghost use Rattle.pcl_items.specs.declared.frame.Motion.TheVariants.{Down};
ghost use Rattle.pcl_items.specs.Items.{pair};
ghost use Rattle.page_env.specs.declared.mark.PenLine.{PenLine};
ghost use Rattle.page_env.specs.declared.page.PenPlace.{PenPlace};
ghost use Rattle.page_env.specs.Numbers.{IsWithin};
ghost use Rattle.page_env.specs.Pens.{place_of};
ghost use Rattle.page_env.specs.Plot.{lies_within, DrawsTo, DrawsWithin, LinesGo};
ghost use Rattle.page_env.specs.Plot.{dots, led, lines_to, turned};

use crate::frames::{Frame, foot_of, frame_on};
use crate::page::{Page, Pen, PenCoordinate, PenPlace};
use crate::pens::{FURTHEST, line_inside, own_place, pen_target, place_within};
use crate::places::{Origin, known_geometry, lies_between, ticks_in};
use crate::target::Target;
use device_profile::{Geometry, Profile};
use pcl_items::{Coordinates, Motion};
use std::alloc::Allocator;
use tick_length::Unit;

/// A box of the picture frame, in which the pen draws.
#[derive(Clone, Copy)]
pub struct PenBounds {
    /// Its lower left corner.
    pub low: PenPlace,
    /// Its upper right corner.
    pub high: PenPlace,
}

/// A coordinate of a corner, which lies where the pen may be.
fn corner(ticks: i64) -> PenCoordinate {
    PenCoordinate::from_ticks(ticks.clamp(0, FURTHEST as i64))
}

/// The box in which both ends of lines may lie that reach half a width further. Nothing is promised
/// of its sides: its diagonal is judged before a line goes by it.
fn box_for(geometry: &Geometry, origin: &Origin, frame: &Frame, half: i64) -> PenBounds {
    let left = origin.x.ticks().saturating_add(frame.left.ticks());
    let foot = origin.y.ticks().saturating_add(foot_of(frame));
    let low_x = geometry.printable_left.ticks().saturating_add(half);
    let low_y = foot.saturating_add(half);
    let high_x = geometry.printable_right.ticks().saturating_sub(half);
    let high_y = foot.saturating_sub(half);
    let right = high_x.saturating_sub(left).min(frame.width.ticks());
    let upper = high_y.saturating_sub(geometry.printable_top.ticks());
    PenBounds {
        low: PenPlace {
            x: corner(low_x.saturating_sub(left)),
            y: corner(low_y.saturating_sub(geometry.printable_bottom.ticks())),
        },
        high: PenPlace {
            x: corner(right),
            y: corner(upper.min(frame.height.ticks())),
        },
    }
}

/// The lower left corner of a box.
fn low_of(bounds: &PenBounds) -> Target
    ensures { place_of result ≡ bounds.now.low }
{
    own_place(bounds.low)
}

/// The upper right corner of a box.
fn high_of(bounds: &PenBounds) -> Target
    ensures { place_of result ≡ bounds.now.high }
{
    own_place(bounds.high)
}

/// Whether each line between two places of a box goes: its diagonal does.
fn lines_go(
    geometry: &Geometry,
    origin: &Origin,
    frame: &Frame,
    width: u32,
    bounds: &PenBounds,
) -> bool
    ensures { IsTrue result → LinesGo geometry.now origin.now frame.now width bounds.now }
{
    line_inside(
        geometry,
        *origin,
        frame,
        width,
        low_of(bounds),
        high_of(bounds),
    )
    .is_some()
        && place_within(frame, low_of(bounds), high_of(bounds)).is_some()
}

/// Where the pen moves and draws, if it is one that draws and that is known whatever the panel.
pub fn pen_bounds<A: Allocator>(profile: &Profile<A>, page: &Page) -> Option<PenBounds>
    ensures { IfSome result (λ bounds. DrawsWithin profile.now page.now bounds) }
{
    let pen = &page.env.job.pen;
    if page.raster.is_some() || pen.number == 0 {
        return None;
    }
    let Some((geometry, origin)) = known_geometry(profile, page) else {
        return None;
    };
    let frame = frame_on(geometry, &page.env.job.frame);
    let half = (ticks_in(Unit::Millimetre, pen.width) / 2) as i64;
    let bounds = box_for(geometry, &origin, &frame, half);
    if lines_go(geometry, &origin, &frame, pen.width, &bounds)
        && lies_within(&bounds, own_place(pen.place))
    {
        Some(bounds)
    } else {
        None
    }
}

/// Whether a place lies in the box.
#[inline(always)]
fn lies_within(bounds: &PenBounds, place: Target) -> bool
    ensures within { result ≡ lies_within bounds.now (place_of place) }
    ensures near { IsTrue result → IsWithin (2 ^ 62) place.x × IsWithin (2 ^ 62) place.y }
{
    lies_between(bounds.low.x.ticks(), bounds.high.x.ticks(), place.x)
        && lies_between(bounds.low.y.ticks(), bounds.high.y.ticks(), place.y)
}

/// The pen as the own step of a command leaves it.
#[inline(always)]
fn turned(pen: &Pen, motion: Motion) -> Pen
    ensures { result ≡ turned motion pen.now }
{
    let pen = *pen;
    match motion {
        Motion::Up => Pen {
            is_down: false,
            ..pen
        },
        Motion::Down => Pen {
            is_down: true,
            ..pen
        },
        Motion::Absolute => Pen {
            is_relative: false,
            ..pen
        },
        Motion::Relative => Pen {
            is_relative: true,
            ..pen
        },
    }
}

/// Where coordinates lead this pen, or none.
#[inline(always)]
fn target_of(pen: &Pen, to: Option<Coordinates>) -> Target
    ensures { place_of result ≡ led pen.now (pair to) }
{
    match to {
        None => own_place(pen.place),
        Some(to) => pen_target(pen, to),
    }
}

/// The place to which coordinates lead this pen, or none, if that is in the box.
#[inline(always)]
fn led(bounds: &PenBounds, pen: &Pen, to: Option<Coordinates>) -> Option<PenPlace>
    ensures inside { IfSome result (λ place. lies_within bounds.now place ≡ true) }
    ensures place { IfSome result (λ place. place ≡ led pen.now (pair to)) }
{
    let target = target_of(pen, to);
    if !lies_within(bounds, target) {
        return None;
    }
    let x = PenCoordinate::from_ticks(target.x);
    let y = PenCoordinate::from_ticks(target.y);
    Some(PenPlace { x, y })
}

/// How many dots a command marks: one where it lowers the raised pen.
#[inline(always)]
fn dots(pen: &Pen, motion: Motion) -> u64
    ensures count { (line : PenPlace → PenPlace → PenLine) →
        length (dots line motion pen.now) ≡ result }
    ensures few { result ≤ 1 }
{
    match motion {
        Motion::Down => dots_of_down(pen),
        Motion::Up => 0,
        Motion::Absolute => 0,
        Motion::Relative => 0,
    }
}

/// How many of them a lowered pen marks.
#[inline(always)]
fn dots_of_down(pen: &Pen) -> u64
    ensures count { (line : PenPlace → PenPlace → PenLine) →
        length (dots line Down pen.now) ≡ result }
    ensures few { result ≤ 1 }
{
    if pen.is_down { 0 } else { 1 }
}

/// How many lines coordinates mark: one with this pen down.
#[inline(always)]
fn lines_to(pen: &Pen, to: Option<Coordinates>) -> u64
    ensures count { (line : PenPlace → PenPlace → PenLine) →
        length (lines_to line pen.now (pair to)) ≡ result }
    ensures few { result ≤ 1 }
{
    match to {
        None => 0,
        Some(_) => lines_of(pen),
    }
}

/// How many a pair of coordinates marks.
#[inline(always)]
fn lines_of(pen: &Pen) -> u64
    ensures count { (line : PenPlace → PenPlace → PenLine) (to : ℤ × ℤ) →
        length (lines_to line pen.now (Some to)) ≡ result }
    ensures few { result ≤ 1 }
{
    if pen.is_down { 1 } else { 0 }
}

/// Whether a page is marked behind so many marks.
#[inline(always)]
fn is_marked(marks: u64, marked: bool) -> bool
    ensures { result ≡ (not (marks == 0) || marked) }
{
    marks != 0 || marked
}

/// Whether a command finds the pen lowered that it lowers, on a page with a mark, as the further
/// pairs of one do.
#[inline(always)]
fn goes_on_drawing(page: &Page, motion: Motion) -> bool
    ensures lowers { IsTrue result → motion ≡ Down }
    ensures down { IsTrue result → page.now.env.job.pen.is_down ≡ true }
    ensures marked { IsTrue result → page.now.marked ≡ true }
{
    matches!(motion, Motion::Down) && page.env.job.pen.is_down && page.marked
}

/// Carries out a pair of coordinates of such a command. It changes nothing but where the pen is.
#[inline(always)]
fn draw_line(bounds: &PenBounds, page: &mut Page, to: Coordinates) -> Option<u64>
    requires down { page.old.env.job.pen.is_down ≡ true }
    requires marked { page.old.marked ≡ true }
    ensures drawn { IfSome result (λ marks.
        DrawsTo bounds.now Down (Some (to.x.units, to.y.units)) marks page.old page.new) }
    ensures same { IfNone result (page.new ≡ page.old) }
{
    let place = led(bounds, &page.env.job.pen, Some(to))?;
    page.env.job.pen.place = place;
    Some(1)
}

/// Carries out any command that moves the pen, or a further pair of its coordinates, where it leads
/// within the box, and tells how many lines it marked.
#[inline(always)]
fn move_on(
    bounds: &PenBounds,
    page: &mut Page,
    motion: Motion,
    to: Option<Coordinates>,
) -> Option<u64>
    ensures drawn { IfSome result (λ marks.
        DrawsTo bounds.now motion (pair to) marks page.old page.new) }
    ensures same { IfNone result (page.new ≡ page.old) }
{
    let pen = turned(&page.env.job.pen, motion);
    let place = led(bounds, &pen, to)?;
    let marks = dots(&page.env.job.pen, motion) + lines_to(&pen, to);
    let marked = is_marked(marks, page.marked);
    page.env.job.pen = Pen { place, ..pen };
    page.marked = marked;
    Some(marks)
}

/// Carries out a command that moves the pen, or a further pair of its coordinates, where it leads
/// within the box, and tells how many lines it marked. These are not told.
#[inline(always)]
pub fn draw_on(
    bounds: &PenBounds,
    page: &mut Page,
    motion: Motion,
    to: Option<Coordinates>,
) -> Option<u64>
    ensures drawn { IfSome result (λ marks.
        DrawsTo bounds.now motion (pair to) marks page.old page.new) }
    ensures same { IfNone result (page.new ≡ page.old) }
{
    if !goes_on_drawing(page, motion) {
        return move_on(bounds, page, motion, to);
    }
    match to {
        Some(to) => draw_line(bounds, page, to),
        None => move_on(bounds, page, motion, to),
    }
}
