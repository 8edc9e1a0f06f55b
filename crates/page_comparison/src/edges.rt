//! The boxes of marks, and whether they overlap.

ghost use Rattle.std.specs.Prelude.{◌≡◌, ◌*◌, ◌<◌, ◌≤◌, ◌^◌, ◌&&◌, ◌+ℤ◌, ◌-ℤ◌, get_or, int_lt};
ghost use Rattle.std.specs.Prelude.{pos};
ghost use Rattle.page_env.specs.Mark.{black_end, pixel_of, white_ahead};
ghost use Rattle.page_comparison.specs.Marks.{
  edges_of,
  edges_of_box,
  edges_of_line,
  edges_of_row,
  greater,
  lesser,
  overlap,
};
ghost use Rattle.sinks.specs.Owned.{row_of_owned, shape_of_owned};

use page_env::{Bounds, PenLine, Resolution};
use sinks::{OwnedMark, OwnedRow};
use std::alloc::Allocator;
use tick_length::Length;

/// A box in page coordinates, in ticks.
#[derive(Clone, Copy)]
pub(crate) struct Edges {
    pub(crate) left: i128,
    pub(crate) top: i128,
    pub(crate) right: i128,
    pub(crate) bottom: i128,
}

/// The box of a mark.
pub(crate) fn edges_of<A: Allocator>(mark: &OwnedMark<A>) -> Edges
    ensures { result ≡ edges_of (shape_of_owned mark.now) }
{
    match mark {
        OwnedMark::Rect(area) => edges_of_box(&area.bounds),
        OwnedMark::Glyph(glyph) => edges_of_box(&glyph.bounds),
        OwnedMark::Row(row) => edges_of_row(row),
        OwnedMark::Line(line) => edges_of_line(line),
    }
}

fn edges_of_box(bounds: &Bounds) -> Edges
    ensures { result ≡ edges_of_box bounds.now }
{
    Edges {
        left: ticks_of(bounds.left),
        top: ticks_of(bounds.top),
        right: ticks_of(bounds.right),
        bottom: ticks_of(bounds.bottom),
    }
}

/// Where an edge lies, in ticks.
fn ticks_of(edge: Length) -> i128
    ensures { result ≡ edge }
{
    i128::from(edge.ticks())
}

/// A row from its first black pixel to its last.
fn edges_of_row<A: Allocator>(row: &OwnedRow<A>) -> Edges
    ensures { result ≡ edges_of_row (row_of_owned row.now) }
{
    let bytes = row.bytes.as_slice();
    let height = u64::from(pixel_of(row.resolution));
    Edges {
        left: black_left(row.x.ticks(), bytes, row.resolution),
        top: ticks_of(row.y),
        right: black_right(row.x.ticks(), bytes, row.resolution),
        bottom: more(row.y.ticks(), height),
    }
}

/// Where the black pixels of a row begin.
fn black_left(left: i64, bytes: &[u8], resolution: Resolution) -> i128
    ensures { result ≡ left +ℤ pos (white_ahead bytes.now * pixel_of resolution) }
{
    let width = width_of(white_ahead(bytes), resolution);
    right_of(left, width)
}

/// Where the black pixels of a row end.
fn black_right(left: i64, bytes: &[u8], resolution: Resolution) -> i128
    ensures { result ≡ left +ℤ pos (black_end bytes.now * pixel_of resolution) }
{
    let width = width_of(black_end(bytes), resolution);
    right_of(left, width)
}

/// How many pixels come before the first black one, where the first byte has one.
fn white_ahead(bytes: &[u8]) -> u128
    ensures value { result ≡ white_ahead bytes.now }
    ensures small { result ≤ 8 }
{
    u128::from(first_byte(bytes).leading_zeros())
}

/// The first byte, or 0 where there is none.
fn first_byte(bytes: &[u8]) -> u8
    ensures { result ≡ get_or bytes.now 0 0 }
{
    match bytes {
        [byte, ..] => *byte,
        [] => 0,
    }
}

/// How many pixels there are up to the last black one, where the last byte has one.
fn black_end(bytes: &[u8]) -> u128
    ensures value { result ≡ black_end bytes.now }
    ensures small { result < 2 ^ 67 }
{
    match bytes {
        [] => 0,
        [.., last] => 8 * bytes.len() as u128 - u128::from(last.trailing_zeros()),
    }
}

/// Where a row of this width ends.
fn right_of(left: i64, width: u128) -> i128
    requires { width < 2 ^ 100 }
    ensures { result ≡ left +ℤ pos width }
{
    i128::from(left) + width as i128
}

/// So much further.
fn more(place: i64, by: u64) -> i128
    ensures { result ≡ place +ℤ pos by }
{
    i128::from(place) + i128::from(by)
}

/// How far so many pixels go.
fn width_of(pixels: u128, resolution: Resolution) -> u128
    requires { pixels < 2 ^ 67 }
    ensures value { result ≡ pixels * pixel_of resolution }
    ensures small { result < 2 ^ 100 }
{
    match resolution {
        Resolution::Dots75 => pixels * 487_680_000,
        Resolution::Dots100 => pixels * 365_760_000,
        Resolution::Dots150 => pixels * 243_840_000,
        Resolution::Dots200 => pixels * 182_880_000,
        Resolution::Dots300 => pixels * 121_920_000,
        Resolution::Dots600 => pixels * 60_960_000,
    }
}

/// The box of the ends of a line, widened by half its width.
fn edges_of_line(line: &PenLine) -> Edges
    ensures { result ≡ edges_of_line line.now }
{
    let half = line.width.ticks().unsigned_abs() / 2;
    let (x0, y0) = (line.x0.ticks(), line.y0.ticks());
    let (x1, y1) = (line.x1.ticks(), line.y1.ticks());
    edges_within(x0, y0, x1, y1, half)
}

/// The box of two places, widened by so much.
fn edges_within(x0: i64, y0: i64, x1: i64, y1: i64, by: u64) -> Edges
    ensures { result ≡ record {
      left = lesser x0 x1 -ℤ pos by;
      top = lesser y0 y1 -ℤ pos by;
      right = greater x0 x1 +ℤ pos by;
      bottom = greater y0 y1 +ℤ pos by;
    } }
{
    Edges {
        left: below(x0, x1, by),
        top: below(y0, y1, by),
        right: beyond(x0, x1, by),
        bottom: beyond(y0, y1, by),
    }
}

/// So much less far than the nearer place.
fn below(one: i64, other: i64, by: u64) -> i128
    ensures { result ≡ lesser one other -ℤ pos by }
{
    i128::from(lesser(one, other)) - i128::from(by)
}

/// So much further than the further place.
fn beyond(one: i64, other: i64, by: u64) -> i128
    ensures { result ≡ greater one other +ℤ pos by }
{
    more(greater(one, other), by)
}

fn lesser(one: i64, other: i64) -> i64
    ensures { result ≡ lesser one other }
{
    if one <= other { one } else { other }
}

fn greater(one: i64, other: i64) -> i64
    ensures { result ≡ greater one other }
{
    if one <= other { other } else { one }
}

/// How far a pixel goes, in ticks.
fn pixel_of(resolution: Resolution) -> u32
    ensures { result ≡ pixel_of resolution }
{
    match resolution {
        Resolution::Dots75 => 487_680_000,
        Resolution::Dots100 => 365_760_000,
        Resolution::Dots150 => 243_840_000,
        Resolution::Dots200 => 182_880_000,
        Resolution::Dots300 => 121_920_000,
        Resolution::Dots600 => 60_960_000,
    }
}

/// Whether two boxes overlap; those that only touch do not.
pub(crate) fn overlap(one: &Edges, other: &Edges) -> bool
    ensures { result ≡ overlap one.now other.now }
{
    is_across(one, other) && one.top < other.bottom && other.top < one.bottom
}

/// Whether two boxes overlap from left to right.
fn is_across(one: &Edges, other: &Edges) -> bool
    ensures { result ≡ int_lt one.now.left other.now.right
        && int_lt other.now.left one.now.right }
{
    one.left < other.right && other.left < one.right
}
