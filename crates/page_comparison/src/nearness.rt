//! Whether two marks are near each other.

ghost use Rattle.std.specs.Prelude.{◌≡◌, ◌↔◌, ◌&&◌, ◌==◌, IsTrue};
ghost use Rattle.std.specs.Ordering.{int_eq};
ghost use Rattle.device_profile.specs.Faces.{is_same_request};
ghost use Rattle.page_env.specs.Mark.{pixels_per_inch};
ghost use Rattle.sinks.specs.Same.{are_same_bytes, is_same_fill};
ghost use Rattle.comparison.specs.Nearness.{is_near, is_near_box, is_near_shape};
ghost use Rattle.sinks.specs.Owned.{row_of_owned, shape_of_owned};

use device_profile::is_same_request;
use page_env::{Area, Bounds, Fill, Glyph, PenLine, Resolution};
use sinks::{OwnedMark, OwnedRow};
use std::alloc::Allocator;
use tick_length::Length;

/// Whether two marks are the same but for their edges, which lie within a distance.
pub(crate) fn is_near<A: Allocator>(one: &OwnedMark<A>, other: &OwnedMark<A>, within: u64) -> bool
    ensures { result ≡ is_near_shape within
        (shape_of_owned one.now) (shape_of_owned other.now) }
{
    match (one, other) {
        (OwnedMark::Rect(one), OwnedMark::Rect(other)) => is_near_area(one, other, within),
        (OwnedMark::Glyph(one), OwnedMark::Glyph(other)) => is_near_glyph(one, other, within),
        (OwnedMark::Row(one), OwnedMark::Row(other)) => is_near_row(one, other, within),
        (OwnedMark::Line(one), OwnedMark::Line(other)) => is_near_line(one, other, within),
        _ => false,
    }
}

fn is_near_area(one: &Area, other: &Area, within: u64) -> bool
    ensures { result ≡ is_same_fill one.now.fill other.now.fill
        && is_near_box within one.now.bounds other.now.bounds }
{
    is_same_fill(one.fill, other.fill) && is_near_box(&one.bounds, &other.bounds, within)
}

fn is_near_glyph(one: &Glyph, other: &Glyph, within: u64) -> bool
    ensures { result ≡ (one.now.code == other.now.code)
        && is_same_request one.now.request other.now.request
        && is_near within one.now.y other.now.y
        && is_near_box within one.now.bounds other.now.bounds }
{
    is_same_character(one, other)
        && is_near_length(one.y, other.y, within)
        && is_near_box(&one.bounds, &other.bounds, within)
}

/// Whether two characters have the same code and ask for the same.
fn is_same_character(one: &Glyph, other: &Glyph) -> bool
    ensures { result ≡ (one.now.code == other.now.code)
        && is_same_request one.now.request other.now.request }
{
    one.code == other.code && is_same_request(&one.request, &other.request)
}

fn is_near_row<A: Allocator>(one: &OwnedRow<A>, other: &OwnedRow<A>, within: u64) -> bool
    ensures { let a = row_of_owned one.now in let b = row_of_owned other.now in
        result ≡ (pixels_per_inch a.resolution == pixels_per_inch b.resolution)
        && are_same_bytes a.bytes b.bytes
        && is_near within a.x b.x && is_near within a.y b.y }
{
    has_same_bits(one, other)
        && is_near_place(one.x.ticks(), other.x.ticks(), within)
        && is_near_length(one.y, other.y, within)
}

/// Whether two rows have the same bytes, and as many of their pixels an inch.
fn has_same_bits<A: Allocator>(one: &OwnedRow<A>, other: &OwnedRow<A>) -> bool
    ensures { let a = row_of_owned one.now in let b = row_of_owned other.now in
        result ≡ (pixels_per_inch a.resolution == pixels_per_inch b.resolution)
        && are_same_bytes a.bytes b.bytes }
{
    is_same_resolution(one.resolution, other.resolution)
        && are_same_bytes(one.bytes.as_slice(), other.bytes.as_slice())
}

fn is_near_line(one: &PenLine, other: &PenLine, within: u64) -> bool
    ensures { result ≡ int_eq one.now.width other.now.width
        && is_near within one.now.x0 other.now.x0 && is_near within one.now.y0 other.now.y0
        && is_near within one.now.x1 other.now.x1 && is_near within one.now.y1 other.now.y1 }
{
    begins_near(one, other, within)
        && is_near_length(one.x1, other.x1, within)
        && is_near_length(one.y1, other.y1, within)
}

/// Whether two lines are as wide, and begin within a distance.
fn begins_near(one: &PenLine, other: &PenLine, within: u64) -> bool
    ensures { result ≡ int_eq one.now.width other.now.width
        && is_near within one.now.x0 other.now.x0 && is_near within one.now.y0 other.now.y0 }
{
    is_same_length(one.width, other.width)
        && is_near_length(one.x0, other.x0, within)
        && is_near_length(one.y0, other.y0, within)
}

/// Whether each edge lies within a distance of that of another box.
fn is_near_box(one: &Bounds, other: &Bounds, within: u64) -> bool
    ensures { result ≡ is_near_box within one.now other.now }
{
    is_near_corner(one, other, within)
        && is_near_length(one.right, other.right, within)
        && is_near_length(one.bottom, other.bottom, within)
}

/// The same of the left and the upper edge.
fn is_near_corner(one: &Bounds, other: &Bounds, within: u64) -> bool
    ensures { result ≡ is_near within one.now.left other.now.left
        && is_near within one.now.top other.now.top }
{
    is_near_length(one.left, other.left, within) && is_near_length(one.top, other.top, within)
}

fn is_same_length(one: Length, other: Length) -> bool
    ensures { result ≡ int_eq one other }
{
    one.ticks() == other.ticks()
}

fn is_near_length(one: Length, other: Length, within: u64) -> bool
    ensures { result ≡ is_near within one other }
{
    is_near_place(one.ticks(), other.ticks(), within)
}

/// Whether two places, in ticks, lie within a distance.
fn is_near_place(one: i64, other: i64, within: u64) -> bool
    ensures { result ≡ is_near within one other }
{
    one.abs_diff(other) <= within
}

/// Whether two areas are filled alike.
fn is_same_fill(one: Fill, other: Fill) -> bool
    ensures { result ≡ is_same_fill one other }
{
    match (one, other) {
        (Fill::Solid, Fill::Solid) => true,
        (Fill::Erase, Fill::Erase) => true,
        (Fill::Shade(one), Fill::Shade(other)) => one == other,
        (Fill::Hatch(one), Fill::Hatch(other)) => one == other,
        _ => false,
    }
}

/// Whether two resolutions have as many pixels an inch.
fn is_same_resolution(one: Resolution, other: Resolution) -> bool
    ensures { result ≡ (pixels_per_inch one == pixels_per_inch other) }
{
    pixels_per_inch(one) == pixels_per_inch(other)
}

/// How many pixels an inch has.
fn pixels_per_inch(resolution: Resolution) -> u32
    ensures { result ≡ pixels_per_inch resolution }
{
    match resolution {
        Resolution::Dots75 => 75,
        Resolution::Dots100 => 100,
        Resolution::Dots150 => 150,
        Resolution::Dots200 => 200,
        Resolution::Dots300 => 300,
        Resolution::Dots600 => 600,
    }
}

/// Whether two rows have the same bytes.
fn are_same_bytes(one: &[u8], other: &[u8]) -> bool
    ensures { result ≡ are_same_bytes one.now other.now }
{
    are_equal_bytes(one, other)
}

fn are_equal_bytes(one: &[u8], other: &[u8]) -> bool
    ensures { IsTrue result ↔ (one.now ≡ other.now) }
{
    one == other
}
