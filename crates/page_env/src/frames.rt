//! HP-GL/2 frames: the picture frame, and where it is entered and left (the manual's "The Picture
//! Frame").
#![tactic(auto, unfolding(crate::specs::Answers::Marks))]

ghost use Rattle.std.specs.Prelude.{◌≡◌, ◌+◌, ◌^◌, ◌+ℤ◌, ◌-ℤ◌, pos, cond, Some, None, Ok, Err};
ghost use Rattle.pcl_items.specs.Items.{amount};
ghost use Rattle.page_env.specs.Settings.{default_frame, origin};
ghost use Rattle.page_env.specs.Numbers.{IsWithin, is_positive};
ghost use Rattle.page_env.specs.Places.{decipoint_ticks};
ghost use Rattle.page_env.specs.Frames.{frame_on, framed, set_frame_anchor, set_frame_width};
ghost use Rattle.page_env.specs.Frames.{set_frame_height, place_in, x_on_page, y_on_page};
ghost use Rattle.page_env.specs.Frames.{is_on_page, enter_at_pen, enter_at_cursor, enter_frame};
ghost use Rattle.page_env.specs.Frames.{leave_at_cursor, leave_at_pen, leave_frame};
ghost use Rattle.page_env.specs.Answers.{Steps};

use crate::cursor::{Coordinate, Cursor};
use crate::finding::Finding;
use crate::number::{is_positive, is_whole_between};
use crate::page::{JobSettings, Page, PenCoordinate, PenPlace, PictureFrame};
use crate::places::{
    geometry, geometry_and_vertical, half_inch, length_between, length_in, vertical,
};
use device_profile::{Geometry, Profile};
use pcl_items::{Handover, Number};
use std::alloc::Allocator;
use tick_length::{Length, Unit};

/// Where a picture frame lies on the logical page.
#[derive(Clone, Copy)]
pub struct Frame {
    pub left: Length,
    pub top: Coordinate,
    pub width: Length,
    /// It may be less than 0 where none is set: the page may have no inch for the margins.
    pub height: Coordinate,
}

/// The lower left corner of the picture frame.
pub(crate) fn origin() -> PenPlace
    ensures { result ≡ origin }
{
    PenPlace {
        x: PenCoordinate::ZERO,
        y: PenCoordinate::ZERO,
    }
}

/// The picture frame where none of its parts is set.
pub(crate) fn default_frame() -> PictureFrame
    ensures { result ≡ default_frame }
{
    PictureFrame {
        left: Length::ZERO,
        top: Coordinate::from_ticks(half_inch().ticks()),
        width: None,
        height: None,
    }
}

/// Where a picture frame lies on a page.
#[inline(always)]
pub fn frame_on(geometry: &Geometry, frame: &PictureFrame) -> Frame
    ensures { result ≡ frame_on geometry.now frame.now }
{
    let width = frame.width.unwrap_or(geometry.logical_width);
    let height = match frame.height {
        Some(height) => height.ticks(),
        None => geometry.logical_height.ticks() - half_inch().ticks() - half_inch().ticks(),
    };
    Frame {
        left: frame.left,
        top: frame.top,
        width,
        height: Coordinate::from_ticks(height),
    }
}

/// Sets the picture frame, and puts the pen at its origin.
pub(crate) fn set_frame(job: &mut JobSettings, frame: PictureFrame)
    ensures { job.new ≡ framed job.old frame }
{
    job.frame = frame;
    job.pen.place = origin();
}

/// `*c#T`: anchors the picture frame at the cursor.
pub(crate) fn set_frame_anchor(page: &mut Page, n: Number) -> Result<(), Finding>
    ensures { Steps (λ s. set_frame_anchor s (amount n)) page.old page.new result }
{
    if !is_whole_between(0, 0, n) {
        return Err(Finding::BadValue);
    }
    let y = vertical(page)?;
    page.cursor.y = Some(y);
    let frame = PictureFrame {
        left: page.cursor.x,
        top: y,
        ..page.env.job.frame
    };
    set_frame(&mut page.env.job, frame);
    Ok(())
}

/// A size of the picture frame, in decipoints.
fn frame_size(n: Number) -> Result<Length, Finding>
    ensures { let size = pos (decipoint_ticks (amount n)) in
        result ≡ cond (is_positive (amount n)) (Ok size) (Err Finding.BadValue) }
{
    if is_positive(n) {
        Ok(length_in(Unit::Decipoint, n.ten_thousandths))
    } else {
        Err(Finding::BadValue)
    }
}

/// `*c#X`: sets the width of the picture frame, in decipoints.
pub(crate) fn set_frame_width(page: &mut Page, n: Number) -> Result<(), Finding>
    ensures { Steps (λ s. set_frame_width s (amount n)) page.old page.new result }
{
    let width = Some(frame_size(n)?);
    let frame = PictureFrame {
        width,
        ..page.env.job.frame
    };
    set_frame(&mut page.env.job, frame);
    Ok(())
}

/// `*c#Y`: sets the height of the picture frame, in decipoints.
pub(crate) fn set_frame_height(page: &mut Page, n: Number) -> Result<(), Finding>
    ensures { Steps (λ s. set_frame_height s (amount n)) page.old page.new result }
{
    let height = Some(frame_size(n)?);
    let frame = PictureFrame {
        height,
        ..page.env.job.frame
    };
    set_frame(&mut page.env.job, frame);
    Ok(())
}

/// How far down the foot of a frame lies on the logical page.
pub(crate) fn foot_of(frame: &Frame) -> i64
    ensures value { result ≡ frame.now.top +ℤ frame.now.height }
    ensures near { IsWithin (2 ^ 61 + 2 ^ 51) result }
{
    frame.top.ticks() + frame.height.ticks()
}

/// How far one place is from another along an axis.
fn distance(from: i64, to: i64) -> PenCoordinate
    requires from { IsWithin (2 ^ 60 + 2 ^ 50) from }
    requires to { IsWithin (2 ^ 61 + 2 ^ 51) to }
    ensures { result ≡ to -ℤ from }
{
    PenCoordinate::from_ticks(to - from)
}

/// A place of the logical page, as the pen sees it.
fn place_in(frame: &Frame, x: Length, y: Coordinate) -> PenPlace
    ensures { result ≡ place_in frame.now x y }
{
    PenPlace {
        x: distance(frame.left.ticks(), x.ticks()),
        y: distance(y.ticks(), foot_of(frame)),
    }
}

/// `%0B`: enters HP-GL/2 mode, with the pen where it was.
fn enter_at_pen(page: &mut Page) -> Result<(), Finding>
    ensures { Steps enter_at_pen page.old page.new result }
{
    page.in_frame = true;
    Ok(())
}

/// `%1B`: enters HP-GL/2 mode, with the pen at the cursor.
fn enter_at_cursor<A: Allocator>(profile: &Profile<A>, page: &mut Page) -> Result<(), Finding>
    ensures { Steps (λ s. enter_at_cursor profile.now s) page.old page.new result }
{
    let (geometry, y) = geometry_and_vertical(profile, page)?;
    let frame = frame_on(&geometry, &page.env.job.frame);
    page.env.job.pen.place = place_in(&frame, page.cursor.x, y);
    page.cursor.y = Some(y);
    page.in_frame = true;
    Ok(())
}

/// `%#B`: enters HP-GL/2 mode.
pub(crate) fn enter_frame<A: Allocator>(
    profile: &Profile<A>,
    page: &mut Page,
    handover: Handover,
) -> Result<(), Finding>
    ensures { Steps (λ s. enter_frame profile.now s handover) page.old page.new result }
{
    match handover {
        Handover::Previous => enter_at_pen(page),
        Handover::Current => enter_at_cursor(profile, page),
    }
}

/// `%0A`: enters PCL mode, with the cursor where it was.
fn leave_at_cursor(page: &mut Page) -> Result<(), Finding>
    ensures { Steps leave_at_cursor page.old page.new result }
{
    page.in_frame = false;
    Ok(())
}

/// Where a place of the pen lies on the logical page, in ticks to the right.
fn x_on_page(frame: &Frame, x: PenCoordinate) -> i64
    ensures { result ≡ x_on_page frame.now x }
{
    frame.left.ticks() + x.ticks()
}

/// Where a place of the pen lies on the logical page, in ticks down.
fn y_on_page(frame: &Frame, y: PenCoordinate) -> i64
    ensures { result ≡ y_on_page frame.now y }
{
    foot_of(frame) - y.ticks()
}

/// Where the pen is on the logical page, if it is there.
fn cursor_at(geometry: &Geometry, frame: &Frame, place: PenPlace) -> Option<Cursor>
    ensures { let x = x_on_page frame.now place.x in
        let y = y_on_page frame.now place.y in
        result ≡ cond (is_on_page geometry.now x y) (Some (record { x = x; y = Some y })) None }
{
    let across = x_on_page(frame, place.x);
    let down = y_on_page(frame, place.y);
    let x = length_between(Length::ZERO, geometry.logical_width, across)?;
    let y = length_between(Length::ZERO, geometry.logical_height, down)?;
    Some(Cursor {
        x,
        y: Some(Coordinate::from_ticks(y.ticks())),
    })
}

/// `%1A`: enters PCL mode, with the cursor where the pen is.
fn leave_at_pen<A: Allocator>(profile: &Profile<A>, page: &mut Page) -> Result<(), Finding>
    ensures { Steps (λ s. leave_at_pen profile.now s) page.old page.new result }
{
    let geometry = geometry(profile, page)?;
    let frame = frame_on(&geometry, &page.env.job.frame);
    match cursor_at(&geometry, &frame, page.env.job.pen.place) {
        None => Err(Finding::OffPage),
        Some(cursor) => {
            page.cursor = cursor;
            page.in_frame = false;
            Ok(())
        }
    }
}

/// `%#A`: enters PCL mode. Outside a frame it does nothing.
pub(crate) fn leave_frame<A: Allocator>(
    profile: &Profile<A>,
    page: &mut Page,
    handover: Handover,
) -> Result<(), Finding>
    ensures { Steps (λ s. leave_frame profile.now s handover) page.old page.new result }
{
    match handover {
        Handover::Previous => leave_at_cursor(page),
        Handover::Current if page.in_frame => leave_at_pen(profile, page),
        Handover::Current => Ok(()),
    }
}
