//! Lines of text: bytes that go one after another, text and the ends of its lines, so that what
//! they read is read once.

ghost use Rattle.std.specs.Prelude.{◌≡◌, ◌↔◌, ◌≤◌, ◌+◌, ◌*◌, ◌^◌, ℕ, List, [], ◌∷◌, Some, pos};
ghost use Rattle.std.specs.Prelude.{true, ◌+ℤ◌, ◌-ℤ◌, ◌≤ℤ◌, cond, length, take, unwrap_or};
ghost use Rattle.std.specs.Prelude.{None, IfSome, IsTrue, ◌%◌, count_ones};
ghost use Rattle.tick_length.specs.Length.{IsInRange};
ghost use Rattle.device_profile.specs.declared.font.CodeRange.{CodeRange};
ghost use Rattle.device_profile.specs.Faces.{is_text_of};
ghost use Rattle.device_profile.specs.Printer.{Printer};
ghost use Rattle.device_profile.specs.declared.panel.Panel.{Panel};
ghost use Rattle.page_env.specs.Settings.{half_inch, state_at};
ghost use Rattle.page_env.specs.Effect.{first_unset};
ghost use Rattle.page_env.specs.FontInForce.{font_reads, request_of};
ghost use Rattle.page_env.specs.Motion.{line_termination, line_termination_reads};
ghost use Rattle.page_env.specs.Places.{geometry_of, line_of, origin_of};
ghost use Rattle.page_env.specs.TextLines.{CanGoIn, GoAs, StandsAt, a_line_down, box_at};
ghost use Rattle.page_env.specs.TextLines.{glyph_count, inked_count, page_behind_all, place_behind};
ghost use Rattle.page_env.specs.TextMeasure.{AllHaveRoom, AreLinesFrom, HasLine, HasMeasure};
ghost use Rattle.page_env.specs.TextMeasure.{HaveColumns, area_of, edge_from, lies_in};

use crate::cursor::{Coordinate, Cursor};
use crate::font_in_force::font_request;
use crate::mark::Bounds;
use crate::mask::first_set;
use crate::motion::{LineTermination, feed_limit, line_termination};
use crate::page::Page;
use crate::places::{
    Origin, after, before, both_lie_between, column_width, known_geometry, length_at, length_in,
    on_sheet, right_margin,
};
use device_profile::{CodeRange, Field, FontRequest, FontRow, Geometry, Profile, are_same_ranges};
use std::alloc::Allocator;
use std::marker::Model;
use std::simd::prelude::*;
use tick_length::{Length, Unit};

/// How text looks on a page, and where its bytes lead.
#[derive(Clone, Copy, PartialEq, Eq)]
pub struct TextAppearance {
    pub request: FontRequest,
    /// Where the logical page begins on the sheet.
    pub origin: Origin,
    /// How far a character reaches from its reference point, to the right, up and down.
    pub advance: Length,
    pub ascent: Length,
    pub descent: Length,
    /// How far a column is from the next, in ticks.
    pub column: u64,
    /// The left margin.
    pub left: Length,
    /// How far a line is from the next.
    pub line: Length,
    pub termination: LineTermination,
}

/// What text must not pass.
#[derive(Clone, Copy, PartialEq, Eq)]
pub struct TextBounds {
    /// The printable area.
    pub area: Bounds,
    /// The right edge of the logical page, and the right margin.
    pub width: Length,
    pub right: Length,
    /// How far down a line feed may lead.
    pub foot: Coordinate,
    /// Whether it is known what CR and LF do.
    pub ends_lines: bool,
}

/// A place of the logical page.
#[derive(Clone, Copy, PartialEq, Eq)]
pub struct TextPlace {
    pub x: Length,
    pub y: Coordinate,
}

/// What lines of text take from the settings in force.
#[derive(Drop)]
pub struct TextMeasure<'p, A: Allocator> {
    look: TextAppearance,
    face: &'p FontRow<A>,
    bounds: TextBounds,
}

impl<'p, A: Allocator> Model for TextMeasure<'p, A> {
    ghost use Rattle.std.specs.Prelude.{pos, ◌≤ℤ◌};
    ghost use Rattle.page_env.specs.TextMeasure.{TextMeasure};

    ghost Value = { TextMeasure };

    ghost view = { λ m. record { look = m.look; codes = m.face.now.codes; bounds = m.bounds } };

    ghost invariant = { λ m. (pos 0 ≤ℤ m.look.advance) × (pos 0 ≤ℤ m.look.line) };
}

/// The first bytes that go from a place: how many, how many of them make a mark, and where they
/// lead.
#[derive(Clone, Copy)]
pub struct TextLines {
    pub count: usize,
    pub glyphs: u64,
    pub end: TextPlace,
}

/// What CR and LF do, and how far a line is from the next, if these are known.
#[derive(Clone, Copy)]
struct LineEnds {
    termination: LineTermination,
    line: Length,
    are_known: bool,
}

/// What the ends of lines take from the settings.
#[inline(always)]
fn line_ends(page: &Page) -> LineEnds
    ensures known { IsTrue result.are_known → (panel : Panel) → let s = state_at panel page.now in
        (first_unset s.settings line_termination_reads ≡ None)
        × (first_unset s.settings (Field.Vmi ∷ []) ≡ None)
        × (line_termination s ≡ result.termination) × (pos (line_of s) ≡ result.line) }
    ensures down { pos 0 ≤ℤ result.line }
{
    let (Ok(termination), Ok(vmi)) = (
        line_termination(page),
        page.env.fields.vmi.known(Field::Vmi),
    ) else {
        let termination = LineTermination {
            feeds_at_return: false,
            returns_at_feed: false,
        };
        return LineEnds {
            termination,
            line: Length::ZERO,
            are_known: false,
        };
    };
    LineEnds {
        termination,
        line: length_in(Unit::FortyEighthInch, vmi),
        are_known: true,
    }
}

/// The page in force, lent, where it begins on the sheet, and the font request, if these are known
/// whatever the panel.
#[inline(always)]
fn page_and_request<'p, A: Allocator>(
    profile: &'p Profile<A>,
    page: &Page,
) -> Option<(&'p Geometry, Origin, FontRequest)>
    ensures { IfSome result (λ known. (panel : Panel) → let state = state_at panel page.now in
        (first_unset state.settings (Field.Size ∷ Field.Orientation
        ∷ font_reads page.now.env.job.font) ≡ None)
        × (geometry_of profile.now state ≡ known.0.now) × (origin_of profile.now state ≡ known.1)
        × (request_of profile.now state ≡ known.2)) }
{
    let Some((geometry, origin)) = known_geometry(profile, page) else {
        return None;
    };
    let Ok(request) = font_request(profile, page) else {
        return None;
    };
    Some((geometry, origin, request))
}

/// The printable area of a page.
pub(crate) fn area_of(geometry: &Geometry) -> Bounds
    ensures { result ≡ area_of geometry.now }
{
    Bounds {
        left: geometry.printable_left,
        top: geometry.printable_top,
        right: geometry.printable_right,
        bottom: geometry.printable_bottom,
    }
}

/// What text must not pass on a page, where its line ends are known or not.
#[inline(always)]
fn text_bounds(page: &Page, geometry: &Geometry, ends_lines: bool) -> TextBounds
    ensures area { result.area ≡ area_of geometry.now }
    ensures width { result.width ≡ geometry.now.logical_width }
    ensures right { result.right ≡
        unwrap_or page.now.env.job.right_margin geometry.now.logical_width }
    ensures foot { result.foot ≡ cond page.now.env.job.skips_perforation
        (unwrap_or page.now.env.job.bottom_margin (geometry.now.logical_height -ℤ half_inch))
        geometry.now.logical_height }
    ensures ends_lines { result.ends_lines ≡ ends_lines }
{
    TextBounds {
        area: area_of(geometry),
        width: geometry.logical_width,
        right: right_margin(&page.env.job, geometry),
        foot: Coordinate::from_ticks(feed_limit(page, geometry)),
        ends_lines,
    }
}

/// What lines of text take from the settings, where it is known whatever the panel, a face answers
/// the font request and no raster is started.
#[inline(always)]
pub fn line_measure<'p, A: Allocator>(
    profile: &'p Profile<A>,
    page: &Page,
) -> Option<TextMeasure<'p, A>>
    ensures { IfSome result (λ measure. HasMeasure profile.now page.now measure) }
{
    if page.raster.is_some() {
        return None;
    }
    let Some((geometry, origin, request)) = page_and_request(profile, page) else {
        return None;
    };
    let face = profile.font(&request)?;
    let ends = line_ends(page);
    let look = TextAppearance {
        request,
        origin,
        advance: face.advance(),
        ascent: face.ascent(),
        descent: face.descent(),
        column: column_width(&page.env.job, face),
        left: page.env.job.left_margin,
        line: ends.line,
        termination: ends.termination,
    };
    let bounds = text_bounds(page, geometry, ends.are_known);
    Some(TextMeasure { look, face, bounds })
}

/// Where lines of text begin, unless the cursor is at home.
#[inline(always)]
pub fn text_place(page: &Page) -> Option<TextPlace>
    ensures { IfSome result (λ place. StandsAt page.now place) }
{
    let y = page.cursor.y?;
    Some(TextPlace {
        x: page.cursor.x,
        y,
    })
}

/// What lines of text take from the settings, and where they begin, where both are known.
#[inline(always)]
pub fn text_measure<'p, A: Allocator>(
    profile: &'p Profile<A>,
    page: &Page,
) -> Option<(TextMeasure<'p, A>, TextPlace)>
    ensures { IfSome result (λ known. HasMeasure profile.now page.now known.0
        × StandsAt page.now known.1) }
{
    let place = text_place(page)?;
    let measure = line_measure(profile, page)?;
    Some((measure, place))
}

/// Whether characters look the same, and lead to the same places.
fn is_same_look(a: &TextAppearance, b: &TextAppearance) -> bool
    ensures { IsTrue result ↔ (a.now ≡ b.now) }
{
    *a == *b
}

/// Whether bounds are the same.
fn are_same_bounds(a: &TextBounds, b: &TextBounds) -> bool
    ensures { IsTrue result ↔ (a.now ≡ b.now) }
{
    *a == *b
}

// ---- columns

/// How many columns lie between two places.
fn columns_between(column: u64, from: Length, to: Length) -> u64
    ensures columns { (n : ℕ) → 1 ≤ n → n ≤ result → (from +ℤ pos (n * column)) ≤ℤ to }
    ensures in_range { IsInRange from × IsInRange to }
{
    let (from, to) = (from.ticks(), to.ticks());
    if to < from {
        0
    } else if column == 0 {
        u64::MAX
    } else {
        to.abs_diff(from) / column
    }
}

/// The edge that text from a place must not pass.
fn edge_from<A: Allocator>(measure: &TextMeasure<'_, A>, x: Length) -> Length
    ensures { result ≡ edge_from measure.now x }
{
    if x < measure.bounds.right {
        measure.bounds.right
    } else {
        measure.bounds.width
    }
}

/// The last place on the logical page where a character ends in the printable area.
fn last_place<A: Allocator>(measure: &TextMeasure<'_, A>) -> Option<Length>
    ensures value { IfSome result (λ last. last ≡
        (measure.now.bounds.area.right -ℤ measure.now.look.origin.x) -ℤ measure.now.look.advance) }
    ensures ahead { pos 0 ≤ℤ measure.now.look.advance }
{
    let right = measure.bounds.area.right.ticks() - measure.look.origin.x.ticks();
    Length::from_ticks(right - measure.look.advance.ticks())
}

/// How many columns from a place end at an edge and begin up to a last place.
fn columns_up_to(column: u64, x: Length, edge: Length, last: Length) -> u64
    requires { x ≤ℤ last }
    ensures columns { (n : ℕ) → 1 ≤ n → n ≤ result → ((x +ℤ pos (n * column)) ≤ℤ edge) ×
        ((x +ℤ pos (n * column)) ≤ℤ (last +ℤ pos column)) }
    ensures in_range { IsInRange x × IsInRange edge }
{
    let ended = columns_between(column, x, edge);
    let others = columns_between(column, x, last);
    ended.min(others.saturating_add(1))
}

/// Columns that are wider are counted by a division.
const WIDEST_COLUMN: u64 = 1 << 50;

/// Whether so many columns from a place end at an edge and begin up to a last place.
// It asks without a division, since mostly nothing is near an edge.
#[inline(always)]
fn fit_columns(column: u64, x: Length, count: usize, edge: Length, last: Length) -> bool
    requires { count ≤ 255 }
    ensures columns { IsTrue result → ((x +ℤ pos (count * column)) ≤ℤ edge) ×
        ((x +ℤ pos (count * column)) ≤ℤ (last +ℤ pos column)) }
    ensures in_range { IsInRange x × IsInRange edge }
{
    if column > WIDEST_COLUMN {
        return false;
    }
    let by = count as u64 * column;
    let end = x.ticks() + by as i64;
    end <= edge.ticks() && end - column as i64 <= last.ticks()
}

/// How many of so many columns there are from a place, where a character at the place lies within
/// the printable area.
#[inline(always)]
fn columns_ahead<A: Allocator>(
    measure: &TextMeasure<'_, A>,
    place: &TextPlace,
    most: usize,
) -> usize
    requires most { most ≤ 255 }
    requires inside { lies_in measure.now.bounds.area (box_at measure.now.look place.now) ≡ true }
    ensures most { result ≤ most }
    ensures columns { HaveColumns measure.now place.now result }
{
    let Some(last) = last_place(measure) else {
        return 0;
    };
    let (column, edge) = (measure.look.column, edge_from(measure, place.x));
    if fit_columns(column, place.x, most, edge, last) {
        most
    } else {
        most.min(columns_up_to(column, place.x, edge, last) as usize)
    }
}

// ---- bytes that can go in a face

/// So many bytes are in a run at most, so that a byte counts its marks.
const MOST_AT_ONCE: usize = 255;

/// So many bytes are looked at at once.
const LANES: usize = 32;

/// So many first bytes, of which so many are no spaces.
#[derive(Clone, Copy)]
struct TextCount {
    all: usize,
    inked: u64,
}

/// How many of so many lowest bits are set.
#[inline(always)]
fn ones_below(mask: u64, bits: usize) -> u64
    requires { bits ≤ 32 }
    ensures { result ≡ count_ones (mask % (2 ^ bits)) }
{
    let below = mask % (1 << bits);
    u64::from(below.count_ones())
}

/// How many of the first 32 bytes come before the first that is neither a space nor in a range.
#[inline(always)]
fn text_of_range(range: CodeRange, bytes: &[u8]) -> TextCount
    requires text { 32 ≤ range.first }
    requires some { range.first ≤ range.last }
    requires room { LANES ≤ length bytes.now }
    ensures short { result.all ≤ LANES }
    ensures known { (others : List CodeRange) →
        CanGoIn (range ∷ others) (take result.all bytes.now) }
    ensures inked { result.inked ≡ inked_count (take result.all bytes.now) }
{
    let lanes = u8x32::from_slice(bytes);
    // What comes before the first wraps past the last.
    let from_first = lanes - u8x32::splat(range.first);
    let outside = from_first.simd_gt(u8x32::splat(range.last - range.first));
    let inked = lanes.simd_ne(u8x32::splat(b' '));
    let others = outside & inked;
    let all = first_set(others.to_bitmask(), LANES);
    let inked = ones_below(inked.to_bitmask(), all);
    TextCount { all, inked }
}

/// How many of the first bytes are spaces or in the first range of a face's codes, as most text is,
/// counted in lanes.
#[inline(always)]
fn text_of_first_range<A: Allocator>(face: &FontRow<A>, bytes: &[u8]) -> TextCount
    ensures short { result.all ≤ length bytes.now }
    ensures known { CanGoIn face.now.codes (take result.all bytes.now) }
    ensures inked { result.inked ≡ inked_count (take result.all bytes.now) }
{
    let mut known = TextCount { all: 0, inked: 0 };
    let [range, ..] = face.codes() else {
        return known;
    };
    let range = *range;
    if range.first < b' ' || range.last < range.first {
        return known;
    }
    for _ in 0..MOST_AT_ONCE / LANES {
        let rest = &bytes[known.all..];
        if rest.len() < LANES {
            return known;
        }
        let count = text_of_range(range, rest);
        known.all += count.all;
        known.inked += count.inked;
        if count.all < LANES {
            return known;
        }
    }
    known
}

/// How many of the first bytes can go in a face, looked up one by one.
#[inline(always)]
fn text_by_code<A: Allocator>(face: &FontRow<A>, bytes: &[u8]) -> TextCount
    ensures short { result.all ≤ length bytes.now }
    ensures known { CanGoIn face.now.codes (take result.all bytes.now) }
    ensures inked { result.inked ≡ inked_count (take result.all bytes.now) }
{
    let mut inked = 0;
    for (all, code) in bytes.iter().enumerate() {
        if !face.is_text(*code) {
            return TextCount { all, inked };
        }
        inked += u64::from(*code != b' ');
    }
    TextCount {
        all: bytes.len(),
        inked,
    }
}

/// How many of the first bytes can go in a face.
// A function of its own, so that its loops keep all in registers.
#[inline(never)]
fn text_of_face<A: Allocator>(face: &FontRow<A>, bytes: &[u8]) -> TextCount
    ensures short { result.all ≤ length bytes.now }
    ensures known { CanGoIn face.now.codes (take result.all bytes.now) }
    ensures inked { result.inked ≡ inked_count (take result.all bytes.now) }
{
    let known = text_of_first_range(face, bytes);
    let others = text_by_code(face, &bytes[known.all..]);
    TextCount {
        all: known.all + others.all,
        inked: known.inked + others.inked,
    }
}

/// How many of the bytes are no spaces.
// A call of its own: text is mostly counted before, where it is looked at.
#[inline(never)]
fn inked_count(bytes: &[u8]) -> u8
    requires { length bytes.now ≤ 255 }
    ensures { result ≡ inked_count bytes.now }
{
    let mut count: u8 = 0;
    for code in bytes {
        count += u8::from(*code != b' ');
    }
    count
}

// ---- lines

/// Whether a character with its reference point at a place lies within an area.
#[inline(always)]
fn fits_in(look: &TextAppearance, area: &Bounds, place: TextPlace) -> bool
    ensures { result ≡ lies_in area.now (box_at look.now place) }
{
    let at = on_sheet(look.origin, place.x, place.y);
    let right = after(at.x, look.advance);
    let (top, bottom) = (before(at.y, look.ascent), after(at.y, look.descent));
    both_lie_between(area.left, area.right, at.x, right)
        && both_lie_between(area.top, area.bottom, top, bottom)
}

/// A place so many columns behind another.
fn columns_behind(x: Length, column: u64, columns: usize) -> Length
    requires { IsInRange x → IsInRange (x +ℤ pos (columns * column)) }
    ensures { result ≡ x +ℤ pos (columns * column) }
{
    let from = i128::from(x.ticks());
    let by = columns as u64 * column;
    length_at(from + i128::from(by))
}

/// How many of the first bytes are no spaces, where that is known of so many of them.
#[inline(always)]
fn inked_of(bytes: &[u8], known: TextCount) -> u64
    requires few { length bytes.now ≤ 255 }
    requires known { length bytes.now ≡ known.all → known.inked ≡ inked_count bytes.now }
    ensures { result ≡ inked_count bytes.now }
{
    if bytes.len() == known.all {
        known.inked
    } else {
        u64::from(inked_count(bytes))
    }
}

/// Bytes of text from a place, of which so many are no spaces, and which have columns and can go in
/// the face.
#[inline(always)]
fn run_of<A: Allocator>(
    measure: &TextMeasure<'_, A>,
    place: TextPlace,
    bytes: &[u8],
    inked: u64,
) -> TextLines
    requires inked { inked ≡ inked_count bytes.now }
    requires columns { HaveColumns measure.now place (length bytes.now) }
    requires in_face { CanGoIn measure.now.codes bytes.now }
    ensures count { result.count ≡ length bytes.now }
    ensures room { AllHaveRoom measure.now place bytes.now }
    ensures end { result.end ≡ place_behind measure.now.look bytes.now place }
    ensures glyphs { result.glyphs ≡ glyph_count bytes.now }
{
    let x = columns_behind(place.x, measure.look.column, bytes.len());
    TextLines {
        count: bytes.len(),
        glyphs: inked,
        end: TextPlace { x, y: place.y },
    }
}

/// Whether a character at a place lies within the printable area.
#[inline(always)]
fn has_character<A: Allocator>(measure: &TextMeasure<'_, A>, place: TextPlace) -> bool
    ensures { result ≡ lies_in measure.now.bounds.area (box_at measure.now.look place) }
{
    fits_in(&measure.look, &measure.bounds.area, place)
}

/// The first bytes of text that have room from a place, if it is known that one has.
#[inline(always)]
fn run_ahead<A: Allocator>(
    measure: &TextMeasure<'_, A>,
    place: TextPlace,
    bytes: &[u8],
) -> Option<TextLines>
    ensures some { IfSome result (λ lines. 1 ≤ lines.count) }
    ensures lines { IfSome result (λ lines. AreLinesFrom measure.now place bytes.now lines) }
{
    if !has_character(measure, place) {
        return None;
    }
    let most = bytes.len().min(MOST_AT_ONCE);
    let text = text_of_face(measure.face, &bytes[..most]);
    let count = columns_ahead(measure, &place, text.all);
    if count == 0 {
        return None;
    }
    let run = &bytes[..count];
    let inked = inked_of(run, text);
    Some(run_of(measure, place, run, inked))
}

/// The place a line further down, unless that is past the foot.
#[inline(always)]
fn line_down<A: Allocator>(measure: &TextMeasure<'_, A>, place: TextPlace) -> Option<TextPlace>
    ensures place { IfSome result (λ below. below ≡ a_line_down measure.now.look place) }
    ensures line { IfSome result (λ below. HasLine measure.now place) }
{
    let y = place.y.ticks() + measure.look.line.ticks();
    if y > measure.bounds.foot.ticks() {
        return None;
    }
    Some(TextPlace {
        x: place.x,
        y: Coordinate::from_ticks(y),
    })
}

/// A carriage return at a place, if it is known that it has room.
#[inline(always)]
fn return_ahead<A: Allocator>(measure: &TextMeasure<'_, A>, place: TextPlace) -> Option<TextLines>
    ensures some { IfSome result (λ lines. lines.count ≡ 1) }
    ensures lines { (rest : List ℕ) →
        IfSome result (λ lines. AreLinesFrom measure.now place (13 ∷ rest) lines) }
{
    if !measure.bounds.ends_lines {
        return None;
    }
    let left = TextPlace {
        x: measure.look.left,
        y: place.y,
    };
    let end = if measure.look.termination.feeds_at_return {
        line_down(measure, left)?
    } else {
        left
    };
    Some(TextLines {
        count: 1,
        glyphs: 0,
        end,
    })
}

/// A line feed at a place, if it is known that it has room.
#[inline(always)]
fn feed_ahead<A: Allocator>(measure: &TextMeasure<'_, A>, place: TextPlace) -> Option<TextLines>
    ensures some { IfSome result (λ lines. lines.count ≡ 1) }
    ensures lines { (rest : List ℕ) →
        IfSome result (λ lines. AreLinesFrom measure.now place (10 ∷ rest) lines) }
{
    if !measure.bounds.ends_lines {
        return None;
    }
    let x = if measure.look.termination.returns_at_feed {
        measure.look.left
    } else {
        place.x
    };
    let end = line_down(measure, TextPlace { x, y: place.y })?;
    Some(TextLines {
        count: 1,
        glyphs: 0,
        end,
    })
}

/// A carriage return and a line feed at a place, or the first of them alone, as far as it is known
/// that they have room.
#[inline(always)]
fn return_and_feed_ahead<A: Allocator>(
    measure: &TextMeasure<'_, A>,
    place: TextPlace,
) -> Option<TextLines>
    ensures some { IfSome result (λ lines. 1 ≤ lines.count) }
    ensures lines { (rest : List ℕ) →
        IfSome result (λ lines. AreLinesFrom measure.now place (13 ∷ 10 ∷ rest) lines) }
{
    let first = return_ahead(measure, place)?;
    let Some(second) = feed_ahead(measure, first.end) else {
        return Some(first);
    };
    Some(TextLines {
        count: 2,
        glyphs: 0,
        end: second.end,
    })
}

/// A carriage return and a line feed, or the first of them alone, where the bytes begin with both.
#[inline(always)]
fn line_end_ahead<A: Allocator>(
    measure: &TextMeasure<'_, A>,
    place: TextPlace,
    bytes: &[u8],
) -> Option<TextLines>
    ensures some { IfSome result (λ lines. 1 ≤ lines.count) }
    ensures lines { IfSome result (λ lines. AreLinesFrom measure.now place bytes.now lines) }
{
    match bytes {
        [b'\r', b'\n', ..] => return_and_feed_ahead(measure, place),
        _ => None,
    }
}

/// A run of text, and the end of its line, as far as it is known that they have room.
#[inline(always)]
fn line_ahead<A: Allocator>(
    measure: &TextMeasure<'_, A>,
    place: TextPlace,
    bytes: &[u8],
) -> Option<TextLines>
    ensures some { IfSome result (λ lines. 1 ≤ lines.count) }
    ensures lines { IfSome result (λ lines. AreLinesFrom measure.now place bytes.now lines) }
{
    let text = run_ahead(measure, place, bytes)?;
    let Some(end) = line_end_ahead(measure, text.end, &bytes[text.count..]) else {
        return Some(text);
    };
    Some(TextLines {
        count: text.count + end.count,
        glyphs: text.glyphs + end.glyphs,
        end: end.end,
    })
}

/// The first bytes that have room from a place: a run of text, or the end of a line.
#[inline(always)]
fn next_lines<A: Allocator>(
    measure: &TextMeasure<'_, A>,
    place: TextPlace,
    bytes: &[u8],
) -> Option<TextLines>
    ensures some { IfSome result (λ lines. 1 ≤ lines.count) }
    ensures lines { IfSome result (λ lines. AreLinesFrom measure.now place bytes.now lines) }
{
    match bytes {
        [b' '..=255, ..] => line_ahead(measure, place, bytes),
        [b'\r', b'\n', ..] => return_and_feed_ahead(measure, place),
        [b'\r', ..] => return_ahead(measure, place),
        [b'\n', ..] => feed_ahead(measure, place),
        _ => None,
    }
}

impl<A: Allocator> TextMeasure<'_, A> {
    ghost use Rattle.std.specs.Prelude.{◌≤◌, IfSome, length};
    ghost use Rattle.page_env.specs.TextMeasure.{AllHaveRoom, AreLinesFrom};

    /// The first bytes that go one after another from a place, as many as it is known of.
    ///
    /// It tells nothing of the byte behind them: carried out by itself it may go, or have a
    /// finding.
    // Inlined, so that a measure that is only asked for this is never put together.
    #[inline(always)]
    pub fn lines_ahead(&self, from: TextPlace, bytes: &[u8]) -> TextLines
        ensures { AreLinesFrom self.now from bytes.now result }
    {
        let mut lines = TextLines {
            count: 0,
            glyphs: 0,
            end: from,
        };
        while let Some(next) = next_lines(self, lines.end, &bytes[lines.count..]) {
            lines.count += next.count;
            lines.glyphs += next.glyphs;
            lines.end = next.end;
        }
        lines
    }

    /// How many of the first bytes that have room elsewhere have room here, too, if all of them
    /// look the same.
    pub fn alike<B: Allocator>(
        &self,
        other: &TextMeasure<'_, B>,
        from: TextPlace,
        bytes: &[u8],
    ) -> Option<usize>
        requires { AllHaveRoom other.now from bytes.now }
        ensures look { IfSome result (λ count. self.now.look ≡ other.now.look) }
        ensures short { IfSome result (λ count. count ≤ length bytes.now) }
        ensures room { IfSome result (λ count. AllHaveRoom self.now from (take count bytes.now)) }
    {
        if !is_same_look(&self.look, &other.look) {
            return None;
        }
        if are_same_bounds(&self.bounds, &other.bounds)
            && are_same_ranges(self.face.codes(), other.face.codes())
        {
            return Some(bytes.len());
        }
        Some(self.lines_ahead(from, bytes).count)
    }
}

/// Moves the cursor over bytes that go.
pub fn pass_lines(page: &mut Page, lines: &TextLines)
    ensures { (printer : Printer) (look : TextAppearance) (from : TextPlace) (bytes : List ℕ) →
        GoAs printer page.old look from bytes lines.now →
        page.new ≡ page_behind_all look from bytes page.old }
{
    page.cursor = Cursor {
        x: lines.end.x,
        y: Some(lines.end.y),
    };
    page.marked = lines.glyphs != 0 || page.marked;
}
