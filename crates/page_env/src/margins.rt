//! Margins: top margin, text length, perforation skip, left and right margin, and their clearing.
#![tactic(auto, unfolding(crate::specs::Answers::Marks))]

ghost use Rattle.std.specs.Prelude.{◌≡◌, ◌≤◌, ◌^◌, pos, ◌+◌, ◌*◌, ◌+ℤ◌, int_lt, ◌||◌, ◌==◌, not};
ghost use Rattle.std.specs.Prelude.{cond, Some, None, unwrap_or};
ghost use Rattle.pcl_items.specs.Items.{amount};
ghost use Rattle.page_env.specs.Places.{ticks_in};
ghost use Rattle.page_env.specs.Margins.{is_same, set_perforation_skip, set_top_margin};
ghost use Rattle.page_env.specs.Margins.{set_text_length, set_left_margin, set_right_margin};
ghost use Rattle.page_env.specs.Margins.{clear_margins};
ghost use Rattle.page_env.specs.Answers.{CarriesOut, Steps};

use crate::finding::Finding;
use crate::number::{is_whole_between, is_whole_from, whole_of};
use crate::page::{JobSettings, Page};
use crate::places::{
    geometry_and_column, geometry_and_vmi, half_inch, length_at, place_between, right_margin,
    ticks_in,
};
use device_profile::{Geometry, Profile};
use pcl_items::Number;
use std::alloc::Allocator;
use tick_length::{Length, Unit};

/// The place so many lines, each of so many ticks, below a place.
fn below(place: Length, line: u64, lines: u32) -> i128
    requires { line ≤ 2 ^ 50 }
    ensures { result ≡ place +ℤ pos (line * lines) }
{
    i128::from(place.ticks()) + i128::from(line) * i128::from(lines)
}

/// A margin so many lines of this VMI below a place, unless it is to be ignored.
fn margin_below(place: Length, vmi: u32, lines: u32, foot: Length) -> Option<Length>
    ensures { let margin = place +ℤ pos (ticks_in Unit.FortyEighthInch vmi * lines) in
        result ≡ cond ((vmi == 0) || int_lt foot margin) None (Some margin) }
{
    if vmi == 0 {
        return None;
    }
    let line = ticks_in(Unit::FortyEighthInch, vmi);
    place_between(place, foot, below(place, line, lines))
}

/// `&l#E`: sets the top margin, in lines from the upper edge of the logical page.
pub(crate) fn set_top_margin<A: Allocator>(
    profile: &Profile<A>,
    page: &mut Page,
    n: Number,
) -> Result<(), Finding>
    ensures { Steps (λ s. set_top_margin profile.now s (amount n)) page.old page.new result }
{
    if !is_whole_from(0, n) {
        return Err(Finding::BadValue);
    }
    let (geometry, vmi) = geometry_and_vmi(profile, page)?;
    match margin_below(Length::ZERO, vmi, whole_of(n), geometry.logical_height) {
        None => Err(Finding::MarginIgnored),
        Some(top) => {
            page.env.job.top_margin = top;
            page.env.job.bottom_margin = None;
            Ok(())
        }
    }
}

/// `&l#F`: sets the bottom margin, in lines below the top margin.
pub(crate) fn set_text_length<A: Allocator>(
    profile: &Profile<A>,
    page: &mut Page,
    n: Number,
) -> Result<(), Finding>
    ensures { Steps (λ s. set_text_length profile.now s (amount n)) page.old page.new result }
{
    if !is_whole_from(1, n) {
        return Err(Finding::BadValue);
    }
    let (geometry, vmi) = geometry_and_vmi(profile, page)?;
    match margin_below(
        page.env.job.top_margin,
        vmi,
        whole_of(n),
        geometry.logical_height,
    ) {
        None => Err(Finding::MarginIgnored),
        Some(bottom) => {
            page.env.job.bottom_margin = Some(bottom);
            Ok(())
        }
    }
}

/// Whether the two are the same.
fn is_same(a: bool, b: bool) -> bool
    ensures { result ≡ is_same a b }
{
    if a { b } else { !b }
}

/// `&l#L`: sets the perforation skip. A change returns the top and the bottom margin to their
/// defaults.
pub(crate) fn set_perforation_skip(page: &mut Page, n: Number) -> Result<(), Finding>
    ensures { Steps (λ s. set_perforation_skip s (amount n)) page.old page.new result }
{
    if !is_whole_between(0, 1, n) {
        return Err(Finding::BadValue);
    }
    let skips = whole_of(n) == 1;
    let changes = !is_same(skips, page.env.job.skips_perforation);
    page.env.job.skips_perforation = skips;
    if changes {
        page.env.job.top_margin = half_inch();
        page.env.job.bottom_margin = None;
    }
    Ok(())
}

/// The left margin behind so many columns, unless it is to be ignored.
fn left_margin_behind(
    job: &JobSettings,
    geometry: &Geometry,
    column: u64,
    columns: u32,
) -> Option<Length>
    ensures { let left = pos (column * columns) in
        result ≡ cond (int_lt geometry.now.logical_width left
        || not (int_lt left (unwrap_or job.now.right_margin geometry.now.logical_width))) None
        (Some left) }
{
    let left = i128::from(column) * i128::from(columns);
    let right = right_margin(job, geometry);
    if i128::from(geometry.logical_width.ticks()) < left || i128::from(right.ticks()) <= left {
        None
    } else {
        Some(length_at(left))
    }
}

/// The right margin behind so many columns and one more, unless it is to be ignored.
fn right_margin_behind(
    job: &JobSettings,
    geometry: &Geometry,
    column: u64,
    columns: u32,
) -> Option<Length>
    ensures { let right = pos (column * (columns + 1)) in
        result ≡ cond (int_lt geometry.now.logical_width right
        || not (int_lt job.now.left_margin right)) None (Some right) }
{
    let right = i128::from(column) * (i128::from(columns) + 1);
    let left = job.left_margin;
    if i128::from(geometry.logical_width.ticks()) < right || right <= i128::from(left.ticks()) {
        None
    } else {
        Some(length_at(right))
    }
}

/// A place, or the left margin where the place is left of it.
fn at_least(x: Length, left: Length) -> Length
    ensures { result ≡ cond (int_lt x left) left x }
{
    if x < left { left } else { x }
}

/// A place, or the right margin where the place is right of it.
fn at_most(x: Length, right: Length) -> Length
    ensures { result ≡ cond (int_lt right x) right x }
{
    if right < x { right } else { x }
}

/// `&a#L`: sets the left margin, in columns. A cursor left of it moves to it.
pub(crate) fn set_left_margin<A: Allocator>(
    profile: &Profile<A>,
    page: &mut Page,
    n: Number,
) -> Result<(), Finding>
    ensures { Steps (λ s. set_left_margin profile.now s (amount n)) page.old page.new result }
{
    if !is_whole_from(0, n) {
        return Err(Finding::BadValue);
    }
    let (geometry, column) = geometry_and_column(profile, page)?;
    let Some(column) = column else {
        return Err(Finding::NoFont);
    };
    let Some(left) = left_margin_behind(&page.env.job, &geometry, column, whole_of(n)) else {
        return Err(Finding::MarginIgnored);
    };
    page.env.job.left_margin = left;
    page.cursor.x = at_least(page.cursor.x, left);
    Ok(())
}

/// `&a#M`: sets the right margin, to the right edge of a column. A cursor right of it moves to it.
pub(crate) fn set_right_margin<A: Allocator>(
    profile: &Profile<A>,
    page: &mut Page,
    n: Number,
) -> Result<(), Finding>
    ensures { Steps (λ s. set_right_margin profile.now s (amount n)) page.old page.new result }
{
    if !is_whole_from(0, n) {
        return Err(Finding::BadValue);
    }
    let (geometry, column) = geometry_and_column(profile, page)?;
    let Some(column) = column else {
        return Err(Finding::NoFont);
    };
    let Some(right) = right_margin_behind(&page.env.job, &geometry, column, whole_of(n)) else {
        return Err(Finding::MarginIgnored);
    };
    page.env.job.right_margin = Some(right);
    page.cursor.x = at_most(page.cursor.x, right);
    Ok(())
}

/// `ESC 9`: clears the horizontal margins.
pub(crate) fn clear_margins(page: &mut Page) -> Result<(), Finding>
    ensures { Steps (λ s. clear_margins s) page.old page.new result }
{
    page.env.job.left_margin = Length::ZERO;
    page.env.job.right_margin = None;
    Ok(())
}
