//! The titles of marks, which a browser shows where one points at a mark.
ghost use Rattle.std.specs.Prelude.{◌≡◌, ◌++◌, OnOk};
ghost use Rattle.page_picture.specs.Titles.{character_title, title, title_distance, title_end};
ghost use Rattle.page_picture.specs.Titles.{title_place, title_spot};

use crate::mark_parts::MarkPart;
use page_env::{Coordinate, Glyph};
use shown_bytes::{push_millimetres, push_number};
use std::alloc::{AllocError, Allocator};
use tick_length::Length;

/// Appends that so many bytes stand before an item.
#[tactic(auto, unfolding(crate::specs::Titles::title_place))]
fn push_title_place<A: Allocator>(text: &mut Vec<u8, A>, place: u64) -> Result<(), AllocError>
    ensures { OnOk result (text.new.items ≡ text.old.items ++ title_place place) }
{
    text.extend_from_slice(MarkPart::TitlePlace.bytes())?;
    push_number(text, place)
}

/// Appends how far a mark lies from an edge of the sheet.
#[tactic(auto, unfolding(crate::specs::Titles::title_distance))]
fn push_title_distance<A: Allocator>(
    text: &mut Vec<u8, A>,
    name: MarkPart,
    ticks: i64,
) -> Result<(), AllocError>
    ensures { OnOk result (text.new.items ≡ text.old.items ++ title_distance name ticks) }
{
    text.extend_from_slice(name.bytes())?;
    push_millimetres(text, ticks)
}

/// Appends a place in ticks from the left and the upper edge of the sheet.
#[tactic(auto, unfolding(crate::specs::Titles::title_spot))]
fn push_title_spot<A: Allocator>(text: &mut Vec<u8, A>, x: i64, y: i64) -> Result<(), AllocError>
    ensures { OnOk result (text.new.items ≡ text.old.items ++ title_spot x y) }
{
    push_title_distance(text, MarkPart::TitleX, x)?;
    push_title_distance(text, MarkPart::TitleY, y)
}

/// Appends where a mark stands: the number of bytes before its item, and its place.
#[tactic(auto, unfolding(crate::specs::Titles::title_end))]
fn push_title_end<A: Allocator>(
    text: &mut Vec<u8, A>,
    place: u64,
    x: i64,
    y: i64,
) -> Result<(), AllocError>
    ensures { OnOk result (text.new.items ≡ text.old.items ++ title_end place x y) }
{
    push_title_place(text, place)?;
    push_title_spot(text, x, y)?;
    text.extend_from_slice(MarkPart::TitleEnd.bytes())
}

/// Appends the title of a mark that has this name.
#[tactic(auto, unfolding(crate::specs::Titles::title))]
fn push_title<A: Allocator>(
    text: &mut Vec<u8, A>,
    name: MarkPart,
    place: u64,
    x: i64,
    y: i64,
) -> Result<(), AllocError>
    ensures { OnOk result (text.new.items ≡ text.old.items ++ title name place x y) }
{
    text.extend_from_slice(name.bytes())?;
    push_title_end(text, place, x, y)
}

/// Appends the title of a rectangle or a line of this name.
pub(crate) fn push_shape_title<A: Allocator>(
    text: &mut Vec<u8, A>,
    name: MarkPart,
    place: u64,
    x: Length,
    y: Length,
) -> Result<(), AllocError>
    ensures { OnOk result (text.new.items ≡ text.old.items ++ title name place x y) }
{
    push_title(text, name, place, x.ticks(), y.ticks())
}

/// Appends the title of a row of pixels, which has this name.
pub(crate) fn push_row_title<A: Allocator>(
    text: &mut Vec<u8, A>,
    name: MarkPart,
    place: u64,
    x: Coordinate,
    y: Length,
) -> Result<(), AllocError>
    ensures { OnOk result (text.new.items ≡ text.old.items ++ title name place x y) }
{
    push_title(text, name, place, x.ticks(), y.ticks())
}

/// Appends the title of a character.
#[tactic(auto, unfolding(crate::specs::Titles::character_title))]
pub(crate) fn push_character_title<A: Allocator>(
    text: &mut Vec<u8, A>,
    glyph: &Glyph,
    place: u64,
) -> Result<(), AllocError>
    ensures { OnOk result (text.new.items ≡ text.old.items ++ character_title glyph.now place) }
{
    text.extend_from_slice(MarkPart::CharacterTitle.bytes())?;
    push_number(text, u64::from(glyph.code))?;
    push_title_end(
        text,
        place,
        glyph.bounds.left.ticks(),
        glyph.bounds.top.ticks(),
    )
}
