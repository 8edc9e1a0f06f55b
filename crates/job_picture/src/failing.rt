//! What is known of a page before an item, if that fails on it, and what is drawn of that.
ghost use Rattle.std.specs.Prelude.{◌≡◌, ◌+◌, ◌^◌, ◌+ℤ◌, ◌-ℤ◌, ◌++◌, OnOk, option_map};
ghost use Rattle.pcl_items.specs.Items.{view};
ghost use Rattle.page_env.specs.FontInForce.{face_of};
ghost use Rattle.page_env.specs.Numbers.{IsWithin};
ghost use Rattle.page_env.specs.Places.{cursor_x, cursor_y, origin_on};
ghost use Rattle.page_env.specs.Settings.{state_at};
ghost use Rattle.renderings.specs.Carriers.PageRendering.{any_panel};
ghost use Rattle.job_picture.specs.Failing.{
  character_at,
  character_on,
  frame_outline,
  limit_left,
  logical_outline,
  mark_of,
  mark_of_command,
  mark_or_cross,
  printable_outline,
  rectangle_at,
  rectangle_on,
  spot_of,
  text_outline,
  unmade_mark,
  why_picture,
};

use device_profile::{FontRow, Geometry, Panel, Profile};
use page_env::{Coordinate, Finding, Frame, Page, SheetPlace, cursor_on, frame_on, request_under};
use page_picture::{Limit, Outline, push_failure, push_limit, push_unmade};
use pcl_items::{Command, Item, SimpleItem};
use std::alloc::{AllocError, Allocator};
use tick_length::Length;

/// What is known of a page before an item: where the cursor stands, in ticks from the upper left
/// corner of the sheet, what marks may not leave, and the mark that the item would make.
#[derive(Clone, Copy)]
pub(crate) struct Spot {
    pub x: i64,
    pub y: i64,
    /// The logical page up to the right margin.
    pub text: Outline,
    /// The picture frame.
    pub frame: Outline,
    pub mark: Option<Outline>,
}

// ---- the mark that an item would make

/// So far behind a place.
fn behind(place: i64, by: Length) -> i64
    requires { IsWithin (2 ^ 61 + 2 ^ 51) place }
    ensures { result ≡ place +ℤ by }
{
    place + by.ticks()
}

/// So far before a place.
fn before(place: i64, by: Length) -> i64
    requires { IsWithin (2 ^ 61 + 2 ^ 51) place }
    ensures { result ≡ place -ℤ by }
{
    place - by.ticks()
}

/// Where the cursor stands on the sheet. The panel is known, so no setting is left to it.
fn place_on(paper: &Geometry, page: &Page) -> SheetPlace
    ensures x { result.x ≡ cursor_x (origin_on paper.now) (state_at any_panel page.now) }
    ensures y { result.y ≡ cursor_y (origin_on paper.now) (state_at any_panel page.now) }
{
    cursor_on(paper, page, page.env.fields.vmi.under(0))
}

/// The box of a character of a face at a place.
fn character_on<A: Allocator>(place: SheetPlace, face: &FontRow<A>) -> Outline
    ensures { result ≡ character_on face.now place.x place.y }
{
    Outline {
        left: place.x,
        top: before(place.y, face.ascent()),
        right: behind(place.x, face.advance()),
        bottom: behind(place.y, face.descent()),
    }
}

/// The same at the cursor.
fn character_at<A: Allocator>(paper: &Geometry, page: &Page, face: &FontRow<A>) -> Outline
    ensures { result ≡ character_at paper.now (state_at any_panel page.now) face.now }
{
    character_on(place_on(paper, page), face)
}

/// Any panel, where none is asked for a setting.
fn any_panel() -> Panel
    ensures { result ≡ any_panel }
{
    Panel {
        size: 0,
        orientation: 0,
        vmi: 0,
        font: 0,
        copies: 0,
        sides: 0,
        tray: 0,
        line_termination: 0,
    }
}

/// The box of a character at the cursor, where a face answers the font request.
fn character_mark<A: Allocator>(
    profile: &Profile<A>,
    paper: &Geometry,
    page: &Page,
) -> Option<Outline>
    ensures { result ≡ option_map (character_at paper.now (state_at any_panel page.now))
        (face_of profile.now (state_at any_panel page.now)) }
{
    let request = request_under(profile, page, &any_panel());
    match profile.font(&request) {
        None => None,
        Some(face) => Some(character_at(paper, page, face)),
    }
}

/// The box of a rectangle with its corner at a place.
fn rectangle_on(place: SheetPlace, width: Length, height: Length) -> Outline
    ensures { result ≡ rectangle_on width height place.x place.y }
{
    Outline {
        left: place.x,
        top: place.y,
        right: behind(place.x, width),
        bottom: behind(place.y, height),
    }
}

/// The next rectangle at the cursor.
fn rectangle_at(paper: &Geometry, page: &Page) -> Outline
    ensures { result ≡ rectangle_at paper.now (state_at any_panel page.now) }
{
    let (width, height) = (page.env.job.rectangle_width, page.env.job.rectangle_height);
    rectangle_on(place_on(paper, page), width, height)
}

/// The mark that a command would make at the cursor.
fn mark_of_command(paper: &Geometry, page: &Page, command: Command) -> Option<Outline>
    ensures { result ≡ mark_of_command paper.now (state_at any_panel page.now) command }
{
    match command {
        Command::FillRectangle => Some(rectangle_at(paper, page)),
        _ => None,
    }
}

/// The mark that an item would make at the cursor, where it makes one there.
pub(crate) fn mark_of<A: Allocator>(
    profile: &Profile<A>,
    paper: &Geometry,
    page: &Page,
    item: &Item<'_>,
) -> Option<Outline>
    ensures { result ≡ mark_of profile.now paper.now (state_at any_panel page.now)
        (view item.now) }
{
    match item {
        Item::Text(_) => character_mark(profile, paper, page),
        Item::Simple(SimpleItem::Parameterized(command, _)) => {
            mark_of_command(paper, page, *command)
        }
        _ => None,
    }
}

// ---- the boxes that marks may not leave

fn printable_outline(paper: &Geometry) -> Outline
    ensures { result ≡ printable_outline paper.now }
{
    Outline {
        left: paper.printable_left.ticks(),
        top: paper.printable_top.ticks(),
        right: paper.printable_right.ticks(),
        bottom: paper.printable_bottom.ticks(),
    }
}

/// How far two lengths lead, one behind the other.
fn sum_of_two(first: Length, second: Length) -> i64
    ensures { result ≡ first +ℤ second }
{
    first.ticks() + second.ticks()
}

fn logical_outline(paper: &Geometry) -> Outline
    ensures { result ≡ logical_outline paper.now }
{
    Outline {
        left: paper.logical_left.ticks(),
        top: paper.logical_top.ticks(),
        right: sum_of_two(paper.logical_left, paper.logical_width),
        bottom: sum_of_two(paper.logical_top, paper.logical_height),
    }
}

/// The logical page up to the right margin.
fn text_outline(paper: &Geometry, page: &Page) -> Outline
    ensures { result ≡ text_outline paper.now (state_at any_panel page.now) }
{
    let width = page.env.job.right_margin.unwrap_or(paper.logical_width);
    Outline {
        left: paper.logical_left.ticks(),
        top: paper.logical_top.ticks(),
        right: sum_of_two(paper.logical_left, width),
        bottom: sum_of_two(paper.logical_top, paper.logical_height),
    }
}

/// How far three lengths lead.
fn sum_of_three(first: Length, second: Length, third: Length) -> i64
    ensures { result ≡ (first +ℤ second) +ℤ third }
{
    first.ticks() + second.ticks() + third.ticks()
}

/// How far down a coordinate leads behind a length.
fn down(first: Length, second: Coordinate) -> i64
    ensures { result ≡ first +ℤ second }
{
    first.ticks() + second.ticks()
}

/// How far down two coordinates lead behind a length.
fn further_down(first: Length, second: Coordinate, third: Coordinate) -> i64
    ensures { result ≡ (first +ℤ second) +ℤ third }
{
    first.ticks() + second.ticks() + third.ticks()
}

/// The picture frame on the sheet.
fn frame_outline(paper: &Geometry, frame: &Frame) -> Outline
    ensures { result ≡ frame_outline paper.now frame.now }
{
    Outline {
        left: sum_of_two(paper.logical_left, frame.left),
        top: down(paper.logical_top, frame.top),
        right: sum_of_three(paper.logical_left, frame.left, frame.width),
        bottom: further_down(paper.logical_top, frame.top, frame.height),
    }
}

// ---- before an item

/// Where the cursor stands on a sheet, and what marks may not leave there; with the mark that would
/// be made.
pub(crate) fn spot_of(paper: &Geometry, page: &Page, mark: Option<Outline>) -> Spot
    ensures { result ≡ spot_of paper.now (state_at any_panel page.now) mark }
{
    let place = place_on(paper, page);
    let frame = frame_on(paper, &page.env.job.frame);
    Spot {
        x: place.x,
        y: place.y,
        text: text_outline(paper, page),
        frame: frame_outline(paper, &frame),
        mark,
    }
}

// ---- what is drawn

/// Appends the box that is left, where one is.
fn push_limit_left<A: Allocator>(
    text: &mut Vec<u8, A>,
    paper: &Geometry,
    spot: Spot,
    finding: Finding,
) -> Result<(), AllocError>
    ensures { OnOk result
        (text.new.items ≡ text.old.items ++ limit_left paper.now spot finding) }
{
    match finding {
        Finding::OffPage => push_limit(text, paper, Limit::LogicalPage, &logical_outline(paper)),
        Finding::PastRightMargin => push_limit(text, paper, Limit::RightMargin, &spot.text),
        Finding::NotPrintable => {
            push_limit(text, paper, Limit::PrintableArea, &printable_outline(paper))
        }
        Finding::OutsideFrame => push_limit(text, paper, Limit::PictureFrame, &spot.frame),
        _ => Ok(()),
    }
}

/// The mark that would be made, where that is what is wrong.
fn unmade_mark(finding: Finding, mark: Option<Outline>) -> Option<Outline>
    ensures { result ≡ unmade_mark finding mark }
{
    match finding {
        Finding::NoGlyph(_) => mark,
        Finding::OffPage => mark,
        Finding::PastRightMargin => mark,
        Finding::NotPrintable => mark,
        _ => None,
    }
}

/// Appends that mark, or else a cross where the cursor stood.
#[tactic(auto, unfolding(crate::specs::Failing::mark_or_cross))]
fn push_mark_or_cross<A: Allocator>(
    text: &mut Vec<u8, A>,
    paper: &Geometry,
    spot: Spot,
    mark: Option<Outline>,
) -> Result<(), AllocError>
    ensures { OnOk result
        (text.new.items ≡ text.old.items ++ mark_or_cross paper.now spot mark) }
{
    match mark {
        None => push_failure(text, spot.x, spot.y),
        Some(mark) => push_unmade(text, paper, &mark),
    }
}

/// Appends why a job fails: by a finding, or without one by a fault of the bytes.
pub(crate) fn push_why<A: Allocator>(
    text: &mut Vec<u8, A>,
    paper: &Geometry,
    spot: Spot,
    why: Option<Finding>,
) -> Result<(), AllocError>
    ensures { OnOk result (text.new.items ≡ text.old.items ++ why_picture paper.now spot why) }
{
    let Some(finding) = why else {
        return push_failure(text, spot.x, spot.y);
    };
    push_limit_left(text, paper, spot, finding)?;
    push_mark_or_cross(text, paper, spot, unmade_mark(finding, spot.mark))
}
