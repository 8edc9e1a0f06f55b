//! Rows of rasters, and rows that are skipped (the manual's "Raster Graphics").
#![tactic(auto, unfolding(crate::specs::Answers::Marks))]

ghost use Rattle.std.specs.Prelude.{◌≡◌, ◌≤◌, ◌<◌, ◌+◌, ◌*◌, ◌^◌, length, reverse, take, cond};
ghost use Rattle.std.specs.Prelude.{is_some, IfSome, pos, neg_ℤ, ◌+ℤ◌, ◌≤ℤ◌, ◌&&◌, int_lt, Some};
ghost use Rattle.std.specs.Prelude.{None, MatchResult};
ghost use Rattle.std.specs.Int.{leading_zeros, w16};
ghost use Rattle.std.specs.List.{position, position_or_len};
ghost use Rattle.std.specs.Option.{option_map};
ghost use Rattle.pcl_items.specs.Items.{amount};
ghost use Rattle.page_env.specs.Numbers.{IsWithin};
ghost use Rattle.page_env.specs.Mark.{pixel_of, white_ahead, black_end, row_bounds, row_of};
ghost use Rattle.page_env.specs.Mark.{shapes_of, is_inside};
ghost use Rattle.page_env.specs.Places.{is_between};
ghost use Rattle.page_env.specs.Rasters.{passes_height, raster_behind, place_behind, skip_rows};
ghost use Rattle.page_env.specs.Rasters.{up_to_black, is_black, blank_ahead, has_black};
ghost use Rattle.page_env.specs.Rasters.{passes_width, row_from, row_checks, place_checks};
ghost use Rattle.page_env.specs.Rasters.{marks_of, print_row};
ghost use Rattle.page_env.specs.Effect.{first_finding};
ghost use Rattle.page_env.specs.Answers.{Steps, Marks};

use crate::cursor::Coordinate;
use crate::finding::Finding;
use crate::mark::{Mark, RasterRow};
use crate::mask::first_set;
use crate::number::{is_whole_between, whole_of};
use crate::page::{Page, RasterSettings, Resolution, StartedRaster};
use crate::places::{
    SheetPlace, geometry_and_vertical, geometry_origin_and_vertical, length_at, lies_between,
    on_sheet, span_between,
};
use device_profile::{Geometry, Profile};
use pcl_items::Number;
use std::alloc::Allocator;
use std::simd::prelude::*;
use tick_length::Length;

/// How far a pixel goes at each resolution, in the order of `Resolution`, in ticks.
// A table: LLVM would decide a `match` once more for each product.
const PIXELS: [u32; 6] = [
    487_680_000,
    365_760_000,
    243_840_000,
    182_880_000,
    121_920_000,
    60_960_000,
];

/// How far a pixel goes, in ticks.
fn pixel_of(resolution: Resolution) -> u32
    ensures { result ≡ pixel_of resolution }
{
    PIXELS[resolution as usize]
}

/// The raster behind so many rows, unless they are more than its height has left.
fn raster_behind(rows: u32, raster: StartedRaster) -> Option<StartedRaster>
    ensures { result ≡ cond (passes_height rows raster) None (Some (raster_behind rows raster)) }
{
    match raster.rows_left {
        None => Some(raster),
        Some(left) if left < rows => None,
        Some(left) => Some(StartedRaster {
            rows_left: Some(left - rows),
        }),
    }
}

/// How far down the place so many rows below another lies, in ticks.
#[inline(always)]
fn rows_below(y: Coordinate, rows: u32, resolution: Resolution) -> i64
    ensures value { result ≡ y +ℤ pos (rows * pixel_of resolution) }
    ensures low { neg_ℤ (pos (2 ^ 60 + 2 ^ 50)) ≤ℤ result }
{
    let by = u64::from(rows) * u64::from(pixel_of(resolution));
    y.ticks() + by as i64
}

/// The place so many rows below another, unless it lies past a limit.
fn place_behind(
    y: Coordinate,
    rows: u32,
    resolution: Resolution,
    limit: Length,
) -> Option<Coordinate>
    ensures { let place = y +ℤ pos (rows * pixel_of resolution) in
        result ≡ cond (int_lt limit place) None (Some place) }
{
    let place = rows_below(y, rows, resolution);
    if limit.ticks() < place {
        return None;
    }
    Some(Coordinate::from_ticks(place))
}

/// `*b#Y`: leaves so many rows white.
pub(crate) fn skip_rows<A: Allocator>(
    profile: &Profile<A>,
    page: &mut Page,
    n: Number,
) -> Result<(), Finding>
    ensures { Steps (λ s. skip_rows profile.now s (amount n)) page.old page.new result }
{
    if !is_whole_between(0, 32_767, n) {
        return Err(Finding::BadValue);
    }
    let Some(raster) = page.raster else {
        return Err(Finding::RasterNotStarted);
    };
    let Some(behind) = raster_behind(whole_of(n), raster) else {
        return Err(Finding::RasterTooBig);
    };
    let (geometry, y) = geometry_and_vertical(profile, page)?;
    let resolution = page.env.job.raster.resolution;
    match place_behind(y, whole_of(n), resolution, geometry.logical_height) {
        None => Err(Finding::OffPage),
        Some(y) => {
            page.cursor.y = Some(y);
            page.raster = Some(behind);
            Ok(())
        }
    }
}

/// So many bytes are looked at at once.
const LANES: usize = 16;

/// How many of the first lanes of bytes come before the first with a black pixel.
#[inline(always)]
fn blank_lanes(bytes: &[u8]) -> usize
    requires { LANES ≤ length bytes.now }
    ensures value { result ≡ position_or_len is_black (take LANES bytes.now) }
    ensures short { result ≤ LANES }
{
    let black = u8x16::from_slice(bytes).simd_ne(u8x16::splat(0));
    first_set(black.to_bitmask(), LANES)
}

/// How many lanes come behind the highest bit that is set.
#[inline(always)]
fn lanes_behind(mask: u64) -> usize
    requires { mask < 2 ^ LANES }
    ensures { result ≡ leading_zeros w16 mask }
{
    (mask as u16).leading_zeros() as usize
}

/// How many of the first lanes of bytes come behind the last of them with a black pixel.
#[inline(always)]
fn blank_lanes_behind(bytes: &[u8]) -> usize
    requires { LANES ≤ length bytes.now }
    ensures value { result ≡ position_or_len is_black (reverse (take LANES bytes.now)) }
    ensures short { result ≤ LANES }
{
    let black = u8x16::from_slice(bytes).simd_ne(u8x16::splat(0));
    lanes_behind(black.to_bitmask())
}

/// How many of a few bytes come behind the last one with a black pixel, if there is one.
fn few_blank_behind(bytes: &[u8]) -> Option<usize>
    ensures value { result ≡ position is_black (reverse bytes.now) }
    ensures short { IfSome result (λ behind. behind < length bytes.now) }
{
    bytes.iter().rev().position(|byte| *byte != 0)
}

/// How many bytes come behind the last one with a black pixel, if there is one.
#[inline(always)]
fn blank_behind(bytes: &[u8]) -> Option<usize>
    ensures value { result ≡ position is_black (reverse bytes.now) }
    ensures short { IfSome result (λ behind. behind < length bytes.now) }
{
    let mut behind = 0;
    while bytes.len() - behind >= LANES {
        let blank = blank_lanes_behind(&bytes[bytes.len() - behind - LANES..]);
        behind += blank;
        if blank < LANES {
            return Some(behind);
        }
    }
    match few_blank_behind(&bytes[..bytes.len() - behind]) {
        None => None,
        Some(few) => Some(behind + few),
    }
}

/// The bytes of a row up to its last one with a black pixel.
#[inline(always)]
#[tactic(auto, unfolding(crate::specs::Rasters::up_to_black))]
fn up_to_black(bytes: &[u8]) -> &[u8]
    ensures value { result.now ≡ up_to_black bytes.now }
    ensures short { length result.now ≤ length bytes.now }
{
    // Most drivers leave off what is white at the end of a row.
    if let [.., last] = bytes {
        if *last != 0 {
            return bytes;
        }
    }
    match blank_behind(bytes) {
        None => &[],
        Some(behind) => &bytes[..bytes.len() - behind],
    }
}

/// How many of a few bytes come before the first one with a black pixel, if there is one.
fn few_blank_ahead(bytes: &[u8]) -> Option<usize>
    ensures value { result ≡ position is_black bytes.now }
    ensures short { IfSome result (λ ahead. ahead < length bytes.now) }
{
    bytes.iter().position(|byte| *byte != 0)
}

/// How many bytes come before the first one with a black pixel, if there is one.
#[inline(always)]
fn blank_ahead(bytes: &[u8]) -> Option<usize>
    ensures { result ≡ cond (has_black bytes.now) (Some (blank_ahead bytes.now)) None }
{
    let mut ahead = 0;
    while bytes.len() - ahead >= LANES {
        let blank = blank_lanes(&bytes[ahead..]);
        ahead += blank;
        if blank < LANES {
            return Some(ahead);
        }
    }
    match few_blank_ahead(&bytes[ahead..]) {
        None => None,
        Some(few) => Some(ahead + few),
    }
}

/// How many pixels there are up to the last black one, where the last byte has one.
fn black_end(bytes: &[u8]) -> u32
    requires { length bytes.now ≤ 32767 }
    ensures value { result ≡ black_end bytes.now }
    ensures small { result ≤ 262136 }
{
    match bytes {
        [] => 0,
        [.., last] => 8 * bytes.len() as u32 - last.trailing_zeros(),
    }
}

/// Whether the last black pixel lies at or past the width.
fn passes_width(raster: &RasterSettings, bytes: &[u8]) -> bool
    requires { length bytes.now ≤ 32767 }
    ensures { result ≡ passes_width raster.now bytes.now }
{
    match raster.width {
        None => false,
        Some(width) => width < black_end(bytes),
    }
}

/// How many pixels come before the first black one, where the first byte has one.
fn white_ahead(bytes: &[u8]) -> u32
    requires { 0 < length bytes.now }
    ensures value { result ≡ white_ahead bytes.now }
    ensures small { result ≤ 8 }
{
    bytes[0].leading_zeros()
}

/// How far so many pixels go.
fn width_of(pixels: u32, resolution: Resolution) -> Length
    requires { pixels ≤ 262136 }
    ensures { result ≡ pos (pixels * pixel_of resolution) }
{
    length_at(i128::from(u64::from(pixels) * u64::from(pixel_of(resolution))))
}

/// Where the first byte with a black pixel begins, where so many come before it.
fn first_byte(place: SheetPlace, blank: usize, resolution: Resolution) -> i64
    requires { blank ≤ 32767 }
    ensures value { result ≡ place.x +ℤ pos (8 * blank * pixel_of resolution) }
    ensures near { IsWithin (2 ^ 62) result }
{
    let ahead = width_of(8 * blank as u32, resolution);
    place.x + ahead.ticks()
}

/// The place so many pixels behind another, in ticks.
fn pixels_behind(x: i64, pixels: u32, resolution: Resolution) -> i64
    requires place { IsWithin (2 ^ 62) x }
    requires pixels { pixels ≤ 262136 }
    ensures { result ≡ x +ℤ pos (pixels * pixel_of resolution) }
{
    x + width_of(pixels, resolution).ticks()
}

/// Whether the place so many pixels behind another lies between two bounds.
fn pixel_lies_between(
    x: i64,
    pixels: u32,
    resolution: Resolution,
    low: Length,
    high: Length,
) -> bool
    requires place { IsWithin (2 ^ 62) x }
    requires pixels { pixels ≤ 262136 }
    ensures { result ≡ is_between low high (x +ℤ pos (pixels * pixel_of resolution)) }
{
    let place = pixels_behind(x, pixels, resolution);
    lies_between(low.ticks(), high.ticks(), place)
}

/// Where a row begins, if its first black pixel, which so many white ones come before, lies between
/// two bounds.
fn row_start(
    left: i64,
    white: u32,
    resolution: Resolution,
    low: Length,
    high: Length,
) -> Option<Coordinate>
    requires left { IsWithin (2 ^ 62) left }
    requires white { white ≤ 8 }
    ensures { result ≡ cond (is_between low high (left +ℤ pos (white * pixel_of resolution)))
        (Some left) None }
{
    let fits = pixel_lies_between(left, white, resolution, low, high);
    if fits {
        Some(Coordinate::from_ticks(left))
    } else {
        None
    }
}

/// The upper edge of a row at a place of the sheet, if the row lies between two bounds.
#[inline(always)]
fn row_top(place: SheetPlace, resolution: Resolution, low: Length, high: Length) -> Option<Length>
    ensures { let edge = place.y in
        result ≡ cond (is_between low high edge
        && is_between low high (edge +ℤ pos (pixel_of resolution))) (Some edge) None }
{
    let pixel = width_of(1, resolution);
    let (edge, _) = span_between(place.y, pixel, low, high)?;
    Some(edge)
}

/// A row from a place of the sheet, if its black pixels lie within the printable area. It ends with
/// a byte with a black pixel, and so many bytes come before the first one.
// Inlined, as `judged` is, which alone calls it.
#[inline(always)]
#[tactic(auto, unfolding(crate::specs::Mark::is_inside))]
fn row_inside<'a>(
    geometry: &Geometry,
    resolution: Resolution,
    place: SheetPlace,
    black: &'a [u8],
    blank: usize,
) -> Option<RasterRow<'a>>
    requires blank { blank ≡ blank_ahead black.now }
    requires some { blank < length black.now }
    requires short { length black.now ≤ 32767 }
    ensures { let row = row_from resolution place.x place.y black.now in
        option_map row_of result ≡ cond (is_inside geometry.now (row_bounds row)) (Some row) None }
{
    let bytes = &black[blank..];
    let left = first_byte(place, blank, resolution);
    let (low, high) = (geometry.printable_left, geometry.printable_right);
    let x = row_start(left, white_ahead(bytes), resolution, low, high)?;
    if !pixel_lies_between(left, black_end(bytes), resolution, low, high) {
        return None;
    }
    let (low, high) = (geometry.printable_top, geometry.printable_bottom);
    let y = row_top(place, resolution, low, high)?;
    Some(RasterRow {
        resolution,
        x,
        y,
        bytes,
    })
}

/// The raster behind a row, unless the row has no place in it.
fn row_behind(page: &Page, black: &[u8]) -> Result<StartedRaster, Finding>
    requires { length black.now ≤ 32767 }
    ensures { let checks = row_checks page.now.env.job.raster page.now.raster black.now in
        MatchResult result
        (λ behind. (option_map (raster_behind 1) page.now.raster ≡ Some behind) ×
        (first_finding checks ≡ None))
        (λ finding. first_finding checks ≡ Some finding) }
{
    let Some(raster) = page.raster else {
        return Err(Finding::RasterNotStarted);
    };
    let Some(behind) = raster_behind(1, raster) else {
        return Err(Finding::RasterTooBig);
    };
    if passes_width(&page.env.job.raster, black) {
        return Err(Finding::RasterTooBig);
    }
    Ok(behind)
}

/// A row at a place of the sheet, where the cursor has this vertical place, and the place below it.
/// There is no row where no byte has a black pixel.
// Inlined: left to LLVM it is a call of its own where a row is printed for many kinds of sinks.
#[inline(always)]
fn judged<'a>(
    geometry: &Geometry,
    resolution: Resolution,
    y: Coordinate,
    place: SheetPlace,
    black: &'a [u8],
) -> Result<(Coordinate, Option<Mark<'a>>), Finding>
    requires { length black.now ≤ 32767 }
    ensures { let row = row_from resolution place.x place.y black.now in
        let checks = place_checks geometry.now y black.now row in
        MatchResult result
        (λ answer. (answer.0 ≡ place_behind resolution y 1) ×
        (shapes_of answer.1 ≡ marks_of black.now row) × (is_some answer.1 ≡ has_black black.now) ×
        (first_finding checks ≡ None))
        (λ finding. first_finding checks ≡ Some finding) }
{
    let Some(below) = place_behind(y, 1, resolution, geometry.logical_height) else {
        return Err(Finding::OffPage);
    };
    let Some(blank) = blank_ahead(black) else {
        return Ok((below, None));
    };
    let Some(row) = row_inside(geometry, resolution, place, black, blank) else {
        return Err(Finding::NotPrintable);
    };
    Ok((below, Some(Mark::Row(row))))
}

/// `*b#W`: one row of a raster at the cursor, which moves a pixel down. A row without a black pixel
/// makes no mark.
// Inlined, so that the mark is put together for nobody who only counts it.
#[inline(always)]
pub fn print_row<'a, A: Allocator>(
    profile: &Profile<A>,
    page: &mut Page,
    bytes: &'a [u8],
) -> Result<Option<Mark<'a>>, Finding>
    requires { length bytes.now ≤ 32767 }
    ensures { Marks shapes_of (λ s. print_row profile.now s bytes.now) page.old page.new result }
{
    let black = up_to_black(bytes);
    let behind = row_behind(page, black)?;
    let (geometry, origin, y) = geometry_origin_and_vertical(profile, page)?;
    let place = on_sheet(origin, page.cursor.x, y);
    let resolution = page.env.job.raster.resolution;
    let (below, row) = match judged(&geometry, resolution, y, place, black) {
        Err(finding) => return Err(finding),
        Ok(answer) => answer,
    };
    page.cursor.y = Some(below);
    page.raster = Some(behind);
    page.marked = row.is_some() || page.marked;
    Ok(row)
}
