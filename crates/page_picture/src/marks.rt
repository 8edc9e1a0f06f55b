//! The elements of marks.
ghost use Rattle.std.specs.Prelude.{◌≡◌, ◌/◌, ◌++◌, OnOk};
ghost use Rattle.page_env.specs.Mark.{pixels_per_inch, row_of, shape_of};
ghost use Rattle.page_picture.specs.Marks.{
  area_picture,
  box_picture,
  character_picture,
  density,
  due_box,
  face_attributes,
  fill_attributes,
  glyph_picture,
  is_bold,
  is_italic,
  line_attributes,
  line_picture,
  mark_picture,
  row_picture,
  row_place,
  runs_picture,
  text_attributes,
  text_picture,
  unknown_picture,
};

use crate::attributes::{Attribute, push_attribute, push_box, push_length_attribute, span};
use crate::characters::character_of;
use crate::figures::push_pair;
use crate::mark_parts::MarkPart;
use crate::rows::push_runs;
use crate::texts::push_character;
use crate::titles::{push_character_title, push_row_title, push_shape_title};
use device_profile::FontRequest;
use page_env::{Area, Fill, Glyph, Mark, PenLine, RasterRow, Resolution};
use shown_bytes::push_number;
use std::alloc::{AllocError, Allocator};

/// Appends the elements of a mark, whose item has so many bytes before it: of a character its box,
/// too, where it is to have one.
pub fn push_mark<A: Allocator>(
    text: &mut Vec<u8, A>,
    mark: &Mark<'_>,
    has_boxes: bool,
    place: u64,
) -> Result<(), AllocError>
    ensures { OnOk result
        (text.new.items ≡ text.old.items ++ mark_picture (shape_of mark.now) has_boxes place) }
{
    match mark {
        Mark::Rect(area) => push_area(text, area, place),
        Mark::Glyph(glyph) => push_glyph(text, glyph, has_boxes, place),
        Mark::Row(row) => push_row(text, row, place),
        Mark::Line(line) => push_line(text, line, place),
    }
}

// ---- rectangles

#[tactic(auto, unfolding(crate::specs::Marks::area_picture))]
fn push_area<A: Allocator>(text: &mut Vec<u8, A>, area: &Area, place: u64) -> Result<(), AllocError>
    ensures { OnOk result (text.new.items ≡ text.old.items ++ area_picture area.now place) }
{
    text.extend_from_slice(MarkPart::AreaStart.bytes())?;
    push_box(text, &area.bounds)?;
    push_fill(text, area.fill)?;
    push_shape_title(
        text,
        MarkPart::RectangleTitle,
        place,
        area.bounds.left,
        area.bounds.top,
    )?;
    text.extend_from_slice(MarkPart::RectangleEnd.bytes())
}

/// Appends with what a rectangle is filled.
#[tactic(auto, unfolding(crate::specs::Marks::fill_attributes))]
fn push_fill<A: Allocator>(text: &mut Vec<u8, A>, fill: Fill) -> Result<(), AllocError>
    ensures { OnOk result (text.new.items ≡ text.old.items ++ fill_attributes fill) }
{
    match fill {
        Fill::Solid => text.extend_from_slice(MarkPart::Black.bytes()),
        Fill::Erase => text.extend_from_slice(MarkPart::White.bytes()),
        Fill::Shade(percent) => {
            text.extend_from_slice(MarkPart::Shade.bytes())?;
            text.extend_from_slice(density(percent))?;
            text.extend_from_slice(MarkPart::ShadeEnd.bytes())
        }
        Fill::Hatch(pattern) => {
            text.extend_from_slice(MarkPart::Pattern.bytes())?;
            push_number(text, u64::from(pattern))?;
            text.extend_from_slice(MarkPart::PatternEnd.bytes())
        }
    }
}

/// How dense a shade is: a printer has eight, each for a group of percents.
#[tactic(auto, unfolding(crate::specs::Marks::density))]
fn density(percent: u8) -> &'static [u8]
    ensures { result.now ≡ density percent }
{
    match percent {
        0..=2 => b".02",
        3..=10 => b".1",
        11..=20 => b".15",
        21..=35 => b".3",
        36..=55 => b".45",
        56..=80 => b".7",
        81..=99 => b".9",
        _ => b"1",
    }
}

// ---- characters

#[tactic(auto, unfolding(crate::specs::Marks::glyph_picture))]
fn push_glyph<A: Allocator>(
    text: &mut Vec<u8, A>,
    glyph: &Glyph,
    has_boxes: bool,
    place: u64,
) -> Result<(), AllocError>
    ensures { OnOk result
        (text.new.items ≡ text.old.items ++ glyph_picture glyph.now has_boxes place) }
{
    let character = character_of(glyph.request.symbol_set, glyph.code);
    push_character_of(text, glyph, has_boxes, place, character)
}

/// Appends a character that has this text, if it is known.
#[tactic(auto, unfolding(crate::specs::Marks::character_picture))]
fn push_character_of<A: Allocator>(
    text: &mut Vec<u8, A>,
    glyph: &Glyph,
    has_boxes: bool,
    place: u64,
    character: Option<u16>,
) -> Result<(), AllocError>
    ensures { OnOk result (text.new.items ≡ text.old.items
        ++ character_picture glyph.now has_boxes place character) }
{
    let Some(character) = character else {
        return push_unknown(text, glyph, place);
    };
    push_due_box(text, glyph, has_boxes)?;
    push_text_of(text, glyph, place, character)
}

/// Appends the box of a character in place of its text, which is not known.
#[tactic(auto, unfolding(crate::specs::Marks::unknown_picture))]
fn push_unknown<A: Allocator>(
    text: &mut Vec<u8, A>,
    glyph: &Glyph,
    place: u64,
) -> Result<(), AllocError>
    ensures { OnOk result (text.new.items ≡ text.old.items ++ unknown_picture glyph.now place) }
{
    text.extend_from_slice(MarkPart::BoxStart.bytes())?;
    push_box(text, &glyph.bounds)?;
    text.extend_from_slice(MarkPart::UnknownBox.bytes())?;
    push_character_title(text, glyph, place)?;
    text.extend_from_slice(MarkPart::RectangleEnd.bytes())
}

/// Appends the box of a character, where boxes are asked for.
fn push_due_box<A: Allocator>(
    text: &mut Vec<u8, A>,
    glyph: &Glyph,
    has_boxes: bool,
) -> Result<(), AllocError>
    ensures { OnOk result (text.new.items ≡ text.old.items ++ due_box glyph.now has_boxes) }
{
    if !has_boxes {
        return Ok(());
    }
    push_box_of(text, glyph)
}

/// Appends the box of a character.
#[tactic(auto, unfolding(crate::specs::Marks::box_picture))]
fn push_box_of<A: Allocator>(text: &mut Vec<u8, A>, glyph: &Glyph) -> Result<(), AllocError>
    ensures { OnOk result (text.new.items ≡ text.old.items ++ box_picture glyph.now) }
{
    text.extend_from_slice(MarkPart::BoxStart.bytes())?;
    push_box(text, &glyph.bounds)?;
    text.extend_from_slice(MarkPart::BoxEnd.bytes())
}

/// Appends where the text of a character stands, and how large it is.
#[tactic(auto, unfolding(crate::specs::Marks::text_attributes))]
fn push_text_attributes<A: Allocator>(
    text: &mut Vec<u8, A>,
    glyph: &Glyph,
) -> Result<(), AllocError>
    ensures { OnOk result (text.new.items ≡ text.old.items ++ text_attributes glyph.now) }
{
    push_length_attribute(text, Attribute::X, glyph.bounds.left)?;
    push_length_attribute(text, Attribute::Y, glyph.y)?;
    // A ten-thousandth of a point is a hundredth of a unit.
    push_attribute(text, Attribute::FontSize, i64::from(glyph.request.height))?;
    let width = span(glyph.bounds.left, glyph.bounds.right);
    push_attribute(text, Attribute::TextLength, width)
}

/// Whether a stroke weight is semi bold or bolder.
pub fn is_bold(weight: i32) -> bool
    ensures { result ≡ is_bold weight }
{
    weight >= 10_000
}

/// Whether a style has an italic posture, which is what four leaves over of it.
pub fn is_italic(style: u32) -> bool
    ensures { result ≡ is_italic style }
{
    style / 10_000 % 4 > 0
}

/// Appends how the face of a character looks.
#[tactic(auto, unfolding(crate::specs::Marks::face_attributes))]
fn push_face_attributes<A: Allocator>(
    text: &mut Vec<u8, A>,
    request: &FontRequest,
) -> Result<(), AllocError>
    ensures { OnOk result (text.new.items ≡ text.old.items ++ face_attributes request.now) }
{
    if is_bold(request.weight) {
        text.extend_from_slice(MarkPart::Bold.bytes())?;
    }
    if is_italic(request.style) {
        text.extend_from_slice(MarkPart::Italic.bytes())?;
    }
    Ok(())
}

/// Appends the text of a character.
#[tactic(auto, unfolding(crate::specs::Marks::text_picture))]
fn push_text_of<A: Allocator>(
    text: &mut Vec<u8, A>,
    glyph: &Glyph,
    place: u64,
    character: u16,
) -> Result<(), AllocError>
    ensures { OnOk result
        (text.new.items ≡ text.old.items ++ text_picture glyph.now place character) }
{
    text.extend_from_slice(MarkPart::GlyphStart.bytes())?;
    push_text_attributes(text, glyph)?;
    push_face_attributes(text, &glyph.request)?;
    text.extend_from_slice(MarkPart::GlyphText.bytes())?;
    push_character_title(text, glyph, place)?;
    push_character(text, character)?;
    text.extend_from_slice(MarkPart::TextEnd.bytes())
}

// ---- rows of rasters

/// How many units a pixel goes, of 7200 in an inch.
fn pixel_units(resolution: Resolution) -> u64
    ensures { result ≡ 7200 / pixels_per_inch resolution }
{
    match resolution {
        Resolution::Dots75 => 96,
        Resolution::Dots100 => 72,
        Resolution::Dots150 => 48,
        Resolution::Dots200 => 36,
        Resolution::Dots300 => 24,
        Resolution::Dots600 => 12,
    }
}

/// Appends where paths stand whose unit is a pixel, and how large that is.
#[tactic(auto, unfolding(crate::specs::Marks::row_place))]
fn push_row_place<A: Allocator>(
    text: &mut Vec<u8, A>,
    row: &RasterRow<'_>,
) -> Result<(), AllocError>
    ensures { OnOk result (text.new.items ≡ text.old.items ++ row_place (row_of row.now)) }
{
    push_pair(text, row.x.ticks(), row.y.ticks())?;
    text.extend_from_slice(MarkPart::RowScale.bytes())?;
    push_number(text, pixel_units(row.resolution))
}

/// Appends the runs of a row: smoothed, and upon them sharp.
#[tactic(auto, unfolding(crate::specs::Marks::runs_picture))]
fn push_runs_twice<A: Allocator>(text: &mut Vec<u8, A>, bytes: &[u8]) -> Result<(), AllocError>
    ensures { OnOk result (text.new.items ≡ text.old.items ++ runs_picture bytes.now) }
{
    text.extend_from_slice(MarkPart::RowRuns.bytes())?;
    push_runs(text, bytes)?;
    text.extend_from_slice(MarkPart::RowAgain.bytes())?;
    push_runs(text, bytes)?;
    text.extend_from_slice(MarkPart::RowEnd.bytes())
}

#[tactic(auto, unfolding(crate::specs::Marks::row_picture))]
fn push_row<A: Allocator>(
    text: &mut Vec<u8, A>,
    row: &RasterRow<'_>,
    place: u64,
) -> Result<(), AllocError>
    ensures { OnOk result (text.new.items ≡ text.old.items ++ row_picture (row_of row.now) place) }
{
    text.extend_from_slice(MarkPart::RowStart.bytes())?;
    push_row_place(text, row)?;
    text.extend_from_slice(MarkPart::RowPlaceEnd.bytes())?;
    push_row_title(text, MarkPart::RowTitle, place, row.x, row.y)?;
    push_runs_twice(text, row.bytes)
}

// ---- lines of a pen

/// Appends where a line begins and ends, and how wide it is.
#[tactic(auto, unfolding(crate::specs::Marks::line_attributes))]
fn push_line_attributes<A: Allocator>(
    text: &mut Vec<u8, A>,
    line: &PenLine,
) -> Result<(), AllocError>
    ensures { OnOk result (text.new.items ≡ text.old.items ++ line_attributes line.now) }
{
    push_length_attribute(text, Attribute::X1, line.x0)?;
    push_length_attribute(text, Attribute::Y1, line.y0)?;
    push_length_attribute(text, Attribute::X2, line.x1)?;
    push_length_attribute(text, Attribute::Y2, line.y1)?;
    push_length_attribute(text, Attribute::StrokeWidth, line.width)
}

#[tactic(auto, unfolding(crate::specs::Marks::line_picture))]
fn push_line<A: Allocator>(
    text: &mut Vec<u8, A>,
    line: &PenLine,
    place: u64,
) -> Result<(), AllocError>
    ensures { OnOk result (text.new.items ≡ text.old.items ++ line_picture line.now place) }
{
    text.extend_from_slice(MarkPart::LineStart.bytes())?;
    push_line_attributes(text, line)?;
    text.extend_from_slice(MarkPart::LineLook.bytes())?;
    push_shape_title(text, MarkPart::LineTitle, place, line.x0, line.y0)?;
    text.extend_from_slice(MarkPart::LineEnd.bytes())
}
