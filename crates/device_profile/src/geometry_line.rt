//! A line with a page.
ghost use Rattle.std.specs.Prelude.{◌≡◌, ◌+ℤ◌, int_le};
ghost use Rattle.device_profile.specs.GeometryLine.{geometry_on_line, repeats_pair, row_numbers_of};
ghost use Rattle.device_profile.specs.GeometryLine.{row_of_numbers, row_of_words};
ghost use Rattle.device_profile.specs.Printer.{has_row, fits_logical_page, fits_printable_area};
ghost use Rattle.device_profile.specs.Words.{words_of};

use crate::fault::Cause;
use crate::geometry::Geometry;
use crate::rows::has_row;
use crate::scan::{next_word, number};
use crate::words::number_between;
use tick_length::{Length, TICKS_PER_INCH};

const MOST_ROWS: usize = 64;

/// The least height of a logical page, in ticks: an inch.
const LEAST_HEIGHT: i64 = TICKS_PER_INCH as i64;

/// The row that the words behind `geometry` give, beside the rows that were given before.
#[tactic(auto, unfolding(crate::specs::GeometryLine::geometry_on_line))]
pub(crate) fn geometry_on_line(rows: &[Geometry], words: &[u8]) -> Result<Geometry, Cause>
    ensures { result ≡ geometry_on_line rows.now (words_of words.now) }
{
    if repeats_pair(rows, words) {
        return Err(Cause::Repeated);
    }
    match row_of_words(words) {
        Some(row) if rows.len() < MOST_ROWS => Ok(row),
        _ => Err(Cause::Range),
    }
}

/// Whether a line begins with the size and the orientation of a row.
fn repeats_pair(rows: &[Geometry], words: &[u8]) -> bool
    ensures { result ≡ repeats_pair rows.now (words_of words.now) }
{
    let Some((size, rest)) = next_word(words) else {
        return false;
    };
    let Some((orientation, _)) = next_word(rest) else {
        return false;
    };
    match (number(size), number(orientation)) {
        (Some(size), Some(orientation)) => has_row(rows, size, orientation),
        _ => false,
    }
}

fn row_of_words(words: &[u8]) -> Option<Geometry>
    ensures { result ≡ row_of_words (words_of words.now) }
{
    row_of_numbers(&row_numbers(words)?)
}

/// 100 inches.
const MOST_7200THS: u32 = 720_000;

/// The twelve numbers of a line, where each is at most 720000.
fn row_numbers(words: &[u8]) -> Option<[u32; 12]>
    ensures { result ≡ row_numbers_of (words_of words.now) }
{
    let mut numbers = [0; 12];
    let mut rest = words;
    for i in 0..12 {
        let (word, after) = next_word(rest)?;
        numbers[i] = number_between(word, 0, MOST_7200THS)?;
        rest = after;
    }
    match next_word(rest) {
        Some(_) => None,
        None => Some(numbers),
    }
}

const MOST_SIZE: u32 = 999;

const MOST_ORIENTATION: u32 = 3;

/// The row that twelve numbers give, where the size and the orientation are such and both areas lie
/// in the page.
fn row_of_numbers(numbers: &[u32; 12]) -> Option<Geometry>
    ensures { result ≡ row_of_numbers numbers.now }
{
    let row = Geometry::from_row(numbers);
    let is_page = 1 <= row.size && row.size <= MOST_SIZE && row.orientation <= MOST_ORIENTATION;
    if is_page && fits_logical_page(&row) && fits_printable_area(&row) {
        Some(row)
    } else {
        None
    }
}

/// Whether the logical page lies in the page and is an inch high or more.
fn fits_logical_page(row: &Geometry) -> bool
    ensures { result ≡ fits_logical_page row.now }
{
    Length::ZERO <= row.logical_left
        && Length::ZERO <= row.logical_top
        && Length::ZERO <= row.logical_width
        && ends_within(row.logical_left, row.logical_width, row.page_width)
        && ends_within(row.logical_top, row.logical_height, row.page_height)
        && LEAST_HEIGHT <= row.logical_height.ticks()
}

/// Whether what begins at a place and has a size ends at another place or before it.
fn ends_within(start: Length, size: Length, end: Length) -> bool
    ensures { result ≡ int_le (start +ℤ size) end }
{
    start.ticks() + size.ticks() <= end.ticks()
}

/// Whether the printable area lies in the page and is not empty.
fn fits_printable_area(row: &Geometry) -> bool
    ensures { result ≡ fits_printable_area row.now }
{
    Length::ZERO <= row.printable_left
        && row.printable_left < row.printable_right
        && row.printable_right <= row.page_width
        && Length::ZERO <= row.printable_top
        && row.printable_top < row.printable_bottom
        && row.printable_bottom <= row.page_height
}
