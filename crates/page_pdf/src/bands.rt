//! Rows of rasters as images: those of one resolution that lie right below one another are one.
ghost use Rattle.std.specs.Prelude.{◌≡◌, ◌+◌, ◌*◌, ◌/◌, ◌%◌, ◌≤◌, ◌^◌, ◌++◌, pos, replicate, OnOk};
ghost use Rattle.page_env.specs.Mark.{pixel_of, row_of};
ghost use Rattle.page_pdf.specs.Bands.{
  band_counts,
  band_of,
  band_place,
  band_text,
  bottom_of,
  byte_of,
  bytes_ahead,
  bytes_behind,
  frame_left,
  frame_width,
  framed,
  goes_below,
  has_room,
  is_in_frame,
  pixel_units,
};

use crate::figures::{push_count, push_ticks};
use crate::mark_parts::MarkPart;
use device_profile::Geometry;
use page_env::{RasterRow, Resolution};
use std::alloc::{AllocError, Allocator};
use tick_length::Length;

/// How many bytes of pixels an image of more than one row has at most.
const ROOM: usize = 262_144;

/// Rows of a raster of one resolution that lie right below one another.
#[derive(Clone, Copy)]
pub(crate) struct Band {
    pub resolution: Resolution,
    /// Where their frame begins, in ticks from the left edge of the sheet.
    pub left: u32,
    /// How many bytes of pixels it is wide.
    pub width: usize,
    /// Where the upper edge of the last row lies.
    pub last: Length,
    /// How many rows there are.
    pub count: u64,
}

// ---- the frame of a row

/// How far a pixel goes, in ticks.
fn pixel_of(resolution: Resolution) -> u32
    ensures value { result ≡ pixel_of resolution }
    ensures some { 1 ≤ result }
    ensures few { result ≤ 487_680_000 }
{
    match resolution {
        Resolution::Dots75 => 487_680_000,
        Resolution::Dots100 => 365_760_000,
        Resolution::Dots150 => 243_840_000,
        Resolution::Dots200 => 182_880_000,
        Resolution::Dots300 => 121_920_000,
        Resolution::Dots600 => 60_960_000,
    }
}

/// How far the pixels of a byte go, in ticks.
fn byte_of(resolution: Resolution) -> u64
    ensures value { result ≡ byte_of resolution }
    ensures some { 1 ≤ result }
    ensures few { result ≤ 2 ^ 32 }
{
    8 * u64::from(pixel_of(resolution))
}

/// How many bytes that go so far lie within so many ticks.
fn bytes_in(ticks: u64, byte: u64) -> u64
    requires { 1 ≤ byte }
    ensures value { result ≡ ticks / byte }
    ensures few { result ≤ ticks }
{
    ticks / byte
}

/// How many ticks are left behind these bytes.
fn left_of(ticks: u64, byte: u64) -> u32
    requires some { 1 ≤ byte }
    requires few { byte ≤ 2 ^ 32 }
    ensures { result ≡ ticks % byte }
{
    (ticks % byte) as u32
}

/// How many bytes of the frame come before a row.
fn bytes_ahead(row: &RasterRow<'_>) -> usize
    ensures value { result ≡ bytes_ahead (row_of row.now) }
    ensures few { result ≤ 2 ^ 61 }
{
    bytes_in(row.x.ticks().unsigned_abs(), byte_of(row.resolution)) as usize
}

/// Where the frame of a row begins, in ticks.
fn frame_left(row: &RasterRow<'_>) -> u32
    ensures { result ≡ frame_left (row_of row.now) }
{
    left_of(row.x.ticks().unsigned_abs(), byte_of(row.resolution))
}

/// How many bytes of pixels go over the width of a sheet.
pub(crate) fn frame_width(paper: &Geometry, resolution: Resolution) -> usize
    ensures value { result ≡ frame_width paper.now resolution }
    ensures few { result ≤ 2 ^ 61 }
{
    (bytes_in(paper.page_width.ticks().unsigned_abs(), byte_of(resolution)) + 1) as usize
}

/// How many bytes of a frame come behind so many.
fn bytes_behind(width: usize, ahead: usize, count: usize) -> usize
    ensures value { result ≡ bytes_behind width ahead count }
    ensures few { result ≤ width }
{
    width.saturating_sub(ahead).saturating_sub(count)
}

/// Appends so many bytes without a black pixel.
fn push_blanks<A: Allocator>(pixels: &mut Vec<u8, A>, count: usize) -> Result<(), AllocError>
    requires { count ≤ 2 ^ 61 }
    ensures { OnOk result (pixels.new.items ≡ pixels.old.items ++ replicate count 0) }
{
    pixels.resize(pixels.len() + count, 0)
}

/// Appends a row in a frame so many bytes wide.
#[tactic(auto, unfolding(crate::specs::Bands::framed))]
pub(crate) fn push_framed<A: Allocator>(
    pixels: &mut Vec<u8, A>,
    width: usize,
    row: &RasterRow<'_>,
) -> Result<(), AllocError>
    requires { width ≤ 2 ^ 61 }
    ensures { OnOk result (pixels.new.items ≡ pixels.old.items ++ framed width (row_of row.now)) }
{
    let ahead = bytes_ahead(row);
    push_blanks(pixels, ahead)?;
    pixels.extend_from_slice(row.bytes)?;
    push_blanks(pixels, bytes_behind(width, ahead, row.bytes.len()))
}

// ---- a band

/// The band whose last row is this one, of so many.
pub(crate) fn band_of(paper: &Geometry, row: &RasterRow<'_>, count: u64) -> Band
    ensures { result ≡ band_of paper.now (row_of row.now) count }
{
    Band {
        resolution: row.resolution,
        left: frame_left(row),
        width: frame_width(paper, row.resolution),
        last: row.y,
        count,
    }
}

/// Where the lower edge of a band lies, in ticks.
fn bottom_of(band: &Band) -> i64
    ensures { result ≡ bottom_of band.now }
{
    band.last.ticks() + i64::from(pixel_of(band.resolution))
}

/// How many units a pixel is wide, and high.
fn pixel_units(resolution: Resolution) -> u128
    ensures units { result ≡ pixel_units resolution }
    ensures few { result ≤ 96 }
{
    match resolution {
        Resolution::Dots75 => 96,
        Resolution::Dots100 => 72,
        Resolution::Dots150 => 48,
        Resolution::Dots200 => 36,
        Resolution::Dots300 => 24,
        Resolution::Dots600 => 12,
    }
}

/// Whether a row has the frame of a band.
fn is_in_frame(paper: &Geometry, band: &Band, row: &RasterRow<'_>) -> bool
    ensures { result ≡ is_in_frame paper.now band.now (row_of row.now) }
{
    pixel_units(row.resolution) == pixel_units(band.resolution)
        && frame_left(row) == band.left
        && frame_width(paper, row.resolution) == band.width
}

/// Whether there is room for a row behind so many bytes.
fn has_room(band: &Band, kept: usize) -> bool
    ensures { result ≡ has_room band.now kept }
{
    band.width <= ROOM.saturating_sub(kept)
}

/// Whether a row goes on with a band of so many bytes: it lies right below it.
pub(crate) fn goes_below(paper: &Geometry, band: &Band, kept: usize, row: &RasterRow<'_>) -> bool
    ensures { result ≡ goes_below paper.now band.now kept (row_of row.now) }
{
    is_in_frame(paper, band, row) && row.y.ticks() == bottom_of(band) && has_room(band, kept)
}

// ---- its text

/// How many pixels so many bytes have: eight each.
fn pixel_count(width: usize) -> u128
    ensures value { result ≡ 8 * width }
    ensures few { result ≤ 2 ^ 67 }
{
    8 * width as u128
}

/// How many units so many pixels go, of which each goes so many.
fn units_of(pixels: u128, pixel: u128) -> u128
    requires few { pixels ≤ 2 ^ 67 }
    requires small { pixel ≤ 96 }
    ensures { result ≡ pixels * pixel }
{
    pixels * pixel
}

/// Where the frame of a band begins, in ticks.
fn left_edge(band: &Band) -> i64
    ensures { result ≡ pos band.now.left }
{
    i64::from(band.left)
}

/// Appends how large a band is, and where its lower left corner stands.
#[tactic(auto, unfolding(crate::specs::Bands::band_place))]
fn push_band_place<A: Allocator>(text: &mut Vec<u8, A>, band: &Band) -> Result<(), AllocError>
    ensures { OnOk result (text.new.items ≡ text.old.items ++ band_place band.now) }
{
    let pixel = pixel_units(band.resolution);
    push_count(text, units_of(pixel_count(band.width), pixel))?;
    text.extend_from_slice(MarkPart::BandHeight.bytes())?;
    push_count(text, units_of(u128::from(band.count), pixel))?;
    text.extend_from_slice(MarkPart::BandPlace.bytes())?;
    push_ticks(text, left_edge(band))?;
    push_ticks(text, bottom_of(band))
}

/// Appends how many pixels a row has, and how many rows there are.
#[tactic(auto, unfolding(crate::specs::Bands::band_counts))]
fn push_band_counts<A: Allocator>(text: &mut Vec<u8, A>, band: &Band) -> Result<(), AllocError>
    ensures { OnOk result (text.new.items ≡ text.old.items ++ band_counts band.now) }
{
    text.extend_from_slice(MarkPart::BandPixels.bytes())?;
    push_count(text, pixel_count(band.width))?;
    text.extend_from_slice(MarkPart::BandRows.bytes())?;
    push_count(text, u128::from(band.count))?;
    text.extend_from_slice(MarkPart::BandData.bytes())
}

/// Appends a band as an image of these pixels.
#[tactic(auto, unfolding(crate::specs::Bands::band_text))]
pub(crate) fn push_band<A: Allocator>(
    text: &mut Vec<u8, A>,
    band: &Band,
    pixels: &[u8],
) -> Result<(), AllocError>
    ensures { OnOk result (text.new.items ≡ text.old.items ++ band_text band.now pixels.now) }
{
    text.extend_from_slice(MarkPart::BandStart.bytes())?;
    push_band_place(text, band)?;
    push_band_counts(text, band)?;
    text.extend_from_slice(pixels)?;
    text.extend_from_slice(MarkPart::BandEnd.bytes())
}
