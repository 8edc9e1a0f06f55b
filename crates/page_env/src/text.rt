//! Text, and transparent print data (the manual's "Fonts").
#![tactic(auto, unfolding(crate::specs::Answers::Marks))]

ghost use Rattle.std.specs.Prelude.{◌≡◌, ◌+◌, ◌^◌, pos, ◌+ℤ◌, ◌-ℤ◌, ◌≤ℤ◌, cond, unwrap_or, int_lt};
ghost use Rattle.std.specs.Prelude.{true, false, None, Some, MatchResult};
ghost use Rattle.page_env.specs.Settings.{state_at};
ghost use Rattle.page_env.specs.Numbers.{IsWithin};
ghost use Rattle.page_env.specs.Mark.{is_inside};
ghost use Rattle.page_env.specs.Effect.{ReadsFields, first_finding};
ghost use Rattle.page_env.specs.FontInForce.{font_reads, request_of};
ghost use Rattle.page_env.specs.Places.{place_between, column_with, column_of, column_reads};
ghost use Rattle.page_env.specs.Places.{geometry_of, origin_of, vertical_place};
ghost use Rattle.page_env.specs.Text.{edge_checks, character_checks, character_box, text_reads};
ghost use Rattle.page_env.specs.Text.{space, transparent_space, character, print_byte};
ghost use Rattle.page_env.specs.Text.{print_transparent};
ghost use Rattle.page_env.specs.Answers.{Prints};

use crate::cursor::{Coordinate, Cursor};
use crate::finding::Finding;
use crate::font_in_force::font_request;
use crate::mark::{Bounds, Glyph};
use crate::page::{JobSettings, Page};
use crate::places::{
    Origin, SheetPlace, column, column_width, geometry_and_vertical, geometry_origin_and_vertical,
    length_at, length_between, on_sheet, right_margin, span_between,
};
use device_profile::{Field, FontRequest, FontRow, Geometry, Profile};
use std::alloc::Allocator;
use tick_length::Length;

/// The page in force, the vertical place of the cursor, and how far columns are apart.
#[tactic(auto, unfolding(crate::specs::Text::text_reads))]
fn space_place<A: Allocator>(
    profile: &Profile<A>,
    page: &Page,
) -> Result<(Geometry, Coordinate, Option<u64>), Field>
    ensures { ReadsFields page.now.env (text_reads page.now.cursor.y
        (column_reads page.now.env.job))
        (λ panel. (
          geometry_of profile.now (state_at panel page.now),
          vertical_place (state_at panel page.now),
          column_of profile.now (state_at panel page.now),
        ))
        result }
{
    let (geometry, y) = geometry_and_vertical(profile, page)?;
    let column = column(profile, page)?;
    Ok((geometry, y, column))
}

/// The page in force, where it begins on the sheet, the vertical place of the cursor, and the font
/// request.
#[inline(always)]
#[tactic(auto, unfolding(crate::specs::Text::text_reads))]
fn character_place<A: Allocator>(
    profile: &Profile<A>,
    page: &Page,
) -> Result<(Geometry, Origin, Coordinate, FontRequest), Field>
    ensures { ReadsFields page.now.env (text_reads page.now.cursor.y
        (font_reads page.now.env.job.font))
        (λ panel. let state = state_at panel page.now in (
          geometry_of profile.now state,
          origin_of profile.now state,
          vertical_place state,
          request_of profile.now state,
        )) result }
{
    let (geometry, origin, y) = geometry_origin_and_vertical(profile, page)?;
    let request = font_request(profile, page)?;
    Ok((geometry, origin, y, request))
}

/// A place so many ticks behind another, unless that is past a limit.
fn up_to(limit: Length, x: Length, by: u64, finding: Finding) -> Result<Length, Finding>
    ensures { MatchResult result
        (λ place. (place ≡ x +ℤ pos by) × (int_lt limit (x +ℤ pos by) ≡ false))
        (λ found. (found ≡ finding) × (int_lt limit (x +ℤ pos by) ≡ true)) }
{
    let place = i128::from(x.ticks()) + i128::from(by);
    if place > i128::from(limit.ticks()) {
        Err(finding)
    } else {
        Ok(length_at(place))
    }
}

/// Where the cursor stands behind a character of this width, unless it may not go there.
fn behind(right: Length, width: Length, x: Length, column: u64) -> Result<Length, Finding>
    ensures { let place = x +ℤ pos column in MatchResult result
        (λ after. (after ≡ place) × (first_finding (edge_checks right width x place) ≡ None))
        (λ finding. first_finding (edge_checks right width x place) ≡ Some finding) }
{
    if x < right {
        up_to(right, x, column, Finding::PastRightMargin)
    } else {
        up_to(width, x, column, Finding::OffPage)
    }
}

/// A place so far above another, if it lies between two bounds.
fn above(place: i64, by: Length, low: Length, high: Length) -> Option<Length>
    requires { IsWithin (2 ^ 61 + 2 ^ 51) place }
    ensures { result ≡ place_between low high (place -ℤ by) }
{
    length_between(low, high, place - by.ticks())
}

/// A place so far below another, if it lies between two bounds.
fn below(place: i64, by: Length, low: Length, high: Length) -> Option<Length>
    requires { IsWithin (2 ^ 61 + 2 ^ 51) place }
    ensures { result ≡ place_between low high (place +ℤ by) }
{
    length_between(low, high, place + by.ticks())
}

/// The box of a character with its reference point at a place of the sheet, if it lies within the
/// printable area.
#[tactic(auto, unfolding(crate::specs::Mark::is_inside))]
fn box_inside<A: Allocator>(
    geometry: &Geometry,
    face: &FontRow<A>,
    place: SheetPlace,
) -> Option<Bounds>
    ensures { let box = character_box face.now place.x place.y in
        result ≡ cond (is_inside geometry.now box) (Some box) None }
{
    let (low, high) = (geometry.printable_left, geometry.printable_right);
    let (left, right) = span_between(place.x, face.advance(), low, high)?;
    let (low, high) = (geometry.printable_top, geometry.printable_bottom);
    let top = above(place.y, face.ascent(), low, high)?;
    let bottom = below(place.y, face.descent(), low, high)?;
    Some(Bounds {
        left,
        top,
        right,
        bottom,
    })
}

/// The baseline of a character that reaches so far above and below it.
fn baseline(top: Length, bottom: Length, ascent: Length, descent: Length) -> Length
    requires above { pos 0 ≤ℤ ascent }
    requires below { pos 0 ≤ℤ descent }
    requires between { top +ℤ ascent ≡ bottom -ℤ descent }
    ensures { result ≡ top +ℤ ascent }
{
    length_at(i128::from(top.ticks()) + i128::from(ascent.ticks()))
}

/// A character of a face with its reference point at a place of the sheet, if it lies within the
/// printable area.
// Inlined, so that nothing is put together that the caller takes apart.
#[inline(always)]
pub(crate) fn glyph_inside<A: Allocator>(
    geometry: &Geometry,
    face: &FontRow<A>,
    place: SheetPlace,
    code: u8,
    request: FontRequest,
) -> Option<Glyph>
    ensures { let box = character_box face.now place.x place.y in
        result ≡ cond (is_inside geometry.now box)
        (Some (record { code = code; request = request; y = place.y; bounds = box })) None }
{
    match box_inside(geometry, face, place) {
        None => None,
        Some(bounds) => {
            let y = baseline(bounds.top, bounds.bottom, face.ascent(), face.descent());
            Some(Glyph {
                code,
                request,
                y,
                bounds,
            })
        }
    }
}

/// A character of a face at the cursor, which stands at this place of the sheet, and where the
/// cursor stands behind it.
fn judged<A: Allocator>(
    geometry: &Geometry,
    face: &FontRow<A>,
    page: &Page,
    place: SheetPlace,
    code: u8,
    request: FontRequest,
) -> Result<(Length, Glyph), Finding>
    ensures { let x = page.now.cursor.x in
        let right = unwrap_or page.now.env.job.right_margin geometry.now.logical_width in
        let behind = x +ℤ pos (column_with page.now.env.job.hmi face.now) in
        let box = character_box face.now place.x place.y in
        let checks = character_checks geometry.now face.now code right x behind box in
        MatchResult result
        (λ answer. (answer ≡ (
          behind,
          record {
            code = code;
            request = request;
            y = place.y;
            bounds = box;
          },
        )) × (first_finding checks ≡ None))
        (λ finding. first_finding checks ≡ Some finding) }
{
    if !face.has_code(code) {
        return Err(Finding::NoGlyph(code));
    }
    let right = right_margin(&page.env.job, geometry);
    let column = column_width(&page.env.job, face);
    match behind(right, geometry.logical_width, page.cursor.x, column) {
        Err(finding) => Err(finding),
        Ok(after) => match glyph_inside(geometry, face, place, code, request) {
            None => Err(Finding::NotPrintable),
            Some(glyph) => Ok((after, glyph)),
        },
    }
}

/// Prints a character that is no space.
fn print_character<A: Allocator>(
    profile: &Profile<A>,
    page: &mut Page,
    code: u8,
) -> Result<Option<Glyph>, Finding>
    ensures { Prints (λ s. character profile.now s code) page.old page.new result }
{
    let (geometry, origin, y, request) = character_place(profile, page)?;
    let Some(face) = profile.font(&request) else {
        return Err(Finding::NoFont);
    };
    let place = on_sheet(origin, page.cursor.x, y);
    let (x, glyph) = judged(&geometry, face, page, place, code, request)?;
    page.cursor = Cursor { x, y: Some(y) };
    page.marked = true;
    Ok(Some(glyph))
}

/// Moves the cursor a column ahead.
fn print_space<A: Allocator>(
    profile: &Profile<A>,
    page: &mut Page,
) -> Result<Option<Glyph>, Finding>
    ensures { Prints (λ s. space profile.now s) page.old page.new result }
{
    let (geometry, y, column) = space_place(profile, page)?;
    let Some(column) = column else {
        return Err(Finding::NoFont);
    };
    let right = right_margin(&page.env.job, &geometry);
    let x = behind(right, geometry.logical_width, page.cursor.x, column)?;
    page.cursor = Cursor { x, y: Some(y) };
    Ok(None)
}

/// Moves the cursor a column ahead, where a face answers the font request.
fn print_transparent_space<A: Allocator>(
    profile: &Profile<A>,
    page: &mut Page,
) -> Result<Option<Glyph>, Finding>
    ensures { Prints (λ s. transparent_space profile.now s) page.old page.new result }
{
    let (geometry, _, y, request) = character_place(profile, page)?;
    let Some(face) = profile.font(&request) else {
        return Err(Finding::NoFont);
    };
    let right = right_margin(&page.env.job, &geometry);
    let column = column_width(&page.env.job, face);
    let x = behind(right, geometry.logical_width, page.cursor.x, column)?;
    page.cursor = Cursor { x, y: Some(y) };
    Ok(None)
}

/// Prints a byte of text. A space makes no mark.
pub fn print_byte<A: Allocator>(
    profile: &Profile<A>,
    page: &mut Page,
    code: u8,
) -> Result<Option<Glyph>, Finding>
    ensures { Prints (λ s. print_byte profile.now s code) page.old page.new result }
{
    if code == b' ' {
        print_space(profile, page)
    } else {
        print_character(profile, page, code)
    }
}

/// Prints a byte of transparent print data (`&p#X`), whatever its code. A space makes no mark.
pub fn print_transparent<A: Allocator>(
    profile: &Profile<A>,
    page: &mut Page,
    code: u8,
) -> Result<Option<Glyph>, Finding>
    ensures { Prints (λ s. print_transparent profile.now s code) page.old page.new result }
{
    if code == b' ' {
        print_transparent_space(profile, page)
    } else {
        print_character(profile, page, code)
    }
}
