//! The lines of marks and of the ends of pages.
ghost use Rattle.std.specs.Prelude.{◌≡◌, ◌++◌, OnOk};
ghost use Rattle.page_env.specs.Mark.{Rectangle, Character, Row, Line, pixels_per_inch, row_of};
ghost use Rattle.page_env.specs.Mark.{shape_of};
ghost use Rattle.line_words.specs.Figures.{named};
ghost use Rattle.line_words.specs.MarkLines.{bounds_words, fill_words, font_words, mark_line};
ghost use Rattle.line_words.specs.MarkLines.{mark_words, page_line};

use crate::figures::{
    push_hex, push_length_word, push_named, push_number_word, push_signed_word, push_ticks_word,
    push_value_word,
};
use device_profile::FontRequest;
use page_env::{Area, Bounds, Fill, Glyph, Mark, PageEnd, PenLine, RasterRow, Resolution};
use shown_bytes::push_lettered;
use std::alloc::{AllocError, Allocator};

/// Appends the line of a mark.
pub fn push_mark<A: Allocator>(text: &mut Vec<u8, A>, mark: &Mark<'_>) -> Result<(), AllocError>
    ensures { OnOk result (text.new.items ≡ text.old.items ++ mark_line (shape_of mark.now)) }
{
    push_words(text, mark)?;
    text.extend_from_slice(b"\n")
}

/// Appends the words of a mark.
fn push_words<A: Allocator>(text: &mut Vec<u8, A>, mark: &Mark<'_>) -> Result<(), AllocError>
    ensures { OnOk result (text.new.items ≡ text.old.items ++ mark_words (shape_of mark.now)) }
{
    match mark {
        Mark::Rect(area) => push_area(text, area),
        Mark::Glyph(glyph) => push_glyph(text, glyph),
        Mark::Row(row) => push_row(text, row),
        Mark::Line(line) => push_line(text, line),
    }
}

fn push_area<A: Allocator>(text: &mut Vec<u8, A>, area: &Area) -> Result<(), AllocError>
    ensures { OnOk result (text.new.items ≡ text.old.items ++ mark_words (Rectangle area.now)) }
{
    text.extend_from_slice(b"rect")?;
    push_fill(text, area.fill)?;
    push_bounds(text, &area.bounds)
}

fn push_glyph<A: Allocator>(text: &mut Vec<u8, A>, glyph: &Glyph) -> Result<(), AllocError>
    ensures { OnOk result (text.new.items ≡ text.old.items ++ mark_words (Character glyph.now)) }
{
    text.extend_from_slice(b"glyph")?;
    push_number_word(text, u64::from(glyph.code))?;
    push_font(text, &glyph.request)?;
    push_length_word(text, glyph.y)?;
    push_bounds(text, &glyph.bounds)
}

fn push_row<A: Allocator>(text: &mut Vec<u8, A>, row: &RasterRow<'_>) -> Result<(), AllocError>
    ensures { OnOk result (text.new.items ≡ text.old.items ++ mark_words (Row (row_of row.now))) }
{
    text.extend_from_slice(b"row")?;
    push_number_word(text, pixels_per_inch(row.resolution))?;
    push_ticks_word(text, row.x.ticks())?;
    push_length_word(text, row.y)?;
    text.push(b' ')?;
    push_hex(text, row.bytes)
}

fn push_line<A: Allocator>(text: &mut Vec<u8, A>, line: &PenLine) -> Result<(), AllocError>
    ensures { OnOk result (text.new.items ≡ text.old.items ++ mark_words (Line line.now)) }
{
    text.extend_from_slice(b"line")?;
    push_length_word(text, line.width)?;
    push_length_word(text, line.x0)?;
    push_length_word(text, line.y0)?;
    push_length_word(text, line.x1)?;
    push_length_word(text, line.y1)
}

/// Appends what selects a font.
#[tactic(auto, unfolding(crate::specs::MarkLines::font_words))]
fn push_font<A: Allocator>(text: &mut Vec<u8, A>, font: &FontRequest) -> Result<(), AllocError>
    ensures { OnOk result (text.new.items ≡ text.old.items ++ font_words font.now) }
{
    text.push(b' ')?;
    push_lettered(text, font.symbol_set.number, font.symbol_set.letter)?;
    push_value_word(text, font.pitch)?;
    push_value_word(text, font.height)?;
    push_value_word(text, font.style)?;
    push_signed_word(text, font.weight)?;
    push_value_word(text, font.typeface)
}

/// Appends the four edges of a box.
#[tactic(auto, unfolding(crate::specs::MarkLines::bounds_words))]
fn push_bounds<A: Allocator>(text: &mut Vec<u8, A>, bounds: &Bounds) -> Result<(), AllocError>
    ensures { OnOk result (text.new.items ≡ text.old.items ++ bounds_words bounds.now) }
{
    push_length_word(text, bounds.left)?;
    push_length_word(text, bounds.top)?;
    push_length_word(text, bounds.right)?;
    push_length_word(text, bounds.bottom)
}

/// Appends with what an area is filled.
fn push_fill<A: Allocator>(text: &mut Vec<u8, A>, fill: Fill) -> Result<(), AllocError>
    ensures { OnOk result (text.new.items ≡ text.old.items ++ fill_words fill) }
{
    match fill {
        Fill::Solid => text.extend_from_slice(b" 0 0"),
        Fill::Erase => text.extend_from_slice(b" 1 0"),
        Fill::Shade(percent) => {
            text.extend_from_slice(b" 2")?;
            push_number_word(text, u64::from(percent))
        }
        Fill::Hatch(pattern) => {
            text.extend_from_slice(b" 3")?;
            push_number_word(text, u64::from(pattern))
        }
    }
}

fn pixels_per_inch(resolution: Resolution) -> u64
    ensures { result ≡ pixels_per_inch resolution }
{
    match resolution {
        Resolution::Dots75 => 75,
        Resolution::Dots100 => 100,
        Resolution::Dots150 => 150,
        Resolution::Dots200 => 200,
        Resolution::Dots300 => 300,
        Resolution::Dots600 => 600,
    }
}

/// Appends the line of the end of the page of this number.
pub fn push_page<A: Allocator>(
    text: &mut Vec<u8, A>,
    number: u64,
    page: PageEnd,
) -> Result<(), AllocError>
    ensures { OnOk result (text.new.items ≡ text.old.items ++ page_line number page) }
{
    text.extend_from_slice(b"page")?;
    push_number_word(text, number)?;
    push_value_named(text, b" size=", page.size)?;
    push_value_named(text, b" orientation=", page.orientation)?;
    push_value_named(text, b" sides=", page.sides)?;
    push_value_named(text, b" tray=", page.tray)?;
    push_value_named(text, b" copies=", page.copies)?;
    text.extend_from_slice(b"\n")
}

/// Appends a value behind its name.
fn push_value_named<A: Allocator>(
    text: &mut Vec<u8, A>,
    name: &[u8],
    value: u32,
) -> Result<(), AllocError>
    ensures { OnOk result (text.new.items ≡ text.old.items ++ named name.now value) }
{
    push_named(text, name, u64::from(value))
}
