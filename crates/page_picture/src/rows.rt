//! The runs of black pixels of a row of a raster.
ghost use Rattle.std.specs.Prelude.{◌≡◌, ◌<◌, ◌*◌, ◌-◌, ◌++◌, OnOk, decimal, length};
ghost use Rattle.page_picture.specs.Rows.{
  begins_run,
  black_from,
  is_black,
  run_at,
  run_text,
  runs_text,
};

use itoa::Buffer;
use std::alloc::{AllocError, Allocator};

/// How many pixels a row has: eight a byte.
fn pixel_count(bytes: &[u8]) -> u128
    ensures { result ≡ 8 * length bytes.now }
{
    8 * bytes.len() as u128
}

/// Whether a pixel is black: each byte has eight, the high bit first.
fn is_black(bytes: &[u8], pixel: u128) -> bool
    requires { pixel < 8 * length bytes.now }
    ensures { result ≡ is_black bytes.now pixel }
{
    let byte = bytes[(pixel / 8) as usize];
    (byte >> (7 - (pixel % 8) as u32)) % 2 == 1
}

/// How many pixels are black from one on.
#[tactic(auto, using(crate::proofs::Runs::one_more))]
fn black_from(bytes: &[u8], start: u128) -> u128
    ensures { result ≡ black_from bytes.now start (8 * length bytes.now - start) }
{
    let mut count = 0;
    for pixel in start..pixel_count(bytes) {
        if !is_black(bytes, pixel) {
            return count;
        }
        count += 1;
    }
    count
}

/// Whether a run begins at a pixel: it is black, and first or behind a white one.
#[tactic(auto, unfolding(crate::specs::Rows::begins_run))]
fn begins_run(bytes: &[u8], pixel: u128) -> bool
    requires { pixel < 8 * length bytes.now }
    ensures { result ≡ begins_run bytes.now pixel }
{
    is_black(bytes, pixel) && (pixel == 0 || !is_black(bytes, pixel - 1))
}

/// Appends a number.
fn push_pixels<A: Allocator>(text: &mut Vec<u8, A>, pixels: u128) -> Result<(), AllocError>
    ensures { OnOk result (text.new.items ≡ text.old.items ++ decimal pixels) }
{
    let mut digits = Buffer::new();
    text.extend_from_slice(digits.format(pixels).as_bytes())
}

/// Appends so many pixels from one on, as a rectangle.
#[tactic(auto, unfolding(crate::specs::Rows::run_text))]
fn push_run<A: Allocator>(text: &mut Vec<u8, A>, pixel: u128, count: u128) -> Result<(), AllocError>
    ensures { OnOk result (text.new.items ≡ text.old.items ++ run_text pixel count) }
{
    text.push(b'M')?;
    push_pixels(text, pixel)?;
    text.extend_from_slice(b" 0h")?;
    push_pixels(text, count)?;
    text.extend_from_slice(b"v1h-")?;
    push_pixels(text, count)?;
    text.push(b'z')?;
    Ok(())
}

/// Appends the run that begins at a pixel, where one does.
#[tactic(auto, unfolding(crate::specs::Rows::run_at))]
fn push_run_at<A: Allocator>(
    text: &mut Vec<u8, A>,
    bytes: &[u8],
    pixel: u128,
) -> Result<(), AllocError>
    requires { pixel < 8 * length bytes.now }
    ensures { OnOk result (text.new.items ≡ text.old.items ++ run_at bytes.now pixel) }
{
    if !begins_run(bytes, pixel) {
        return Ok(());
    }
    push_run(text, pixel, black_from(bytes, pixel))
}

/// Appends the runs of a row, from left to right.
#[tactic(auto, using(crate::proofs::Runs::runs_more))]
pub(crate) fn push_runs<A: Allocator>(text: &mut Vec<u8, A>, bytes: &[u8]) -> Result<(), AllocError>
    ensures { OnOk result (text.new.items ≡ text.old.items ++ runs_text bytes.now) }
{
    for pixel in 0..pixel_count(bytes) {
        push_run_at(text, bytes, pixel)?;
    }
    Ok(())
}
