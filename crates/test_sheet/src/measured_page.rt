//! A page to which a ruler is laid.
ghost use Rattle.std.specs.Prelude.{◌≡◌, ◌++◌, ◌≤◌, ◌<◌, ◌^◌, OnOk, IfOk, flat_map};
ghost use Rattle.test_sheet.specs.Lines.{baseline, words_on};
ghost use Rattle.test_sheet.specs.Marks.{words_at};
ghost use Rattle.test_sheet.specs.MeasuredPage.{bottom_distance, column_count, column_digits};
ghost use Rattle.test_sheet.specs.MeasuredPage.{column_lines, column_tens, column_words};
ghost use Rattle.test_sheet.specs.MeasuredPage.{edge_lines, edge_rules, edge_words, has_ten_lines};
ghost use Rattle.test_sheet.specs.MeasuredPage.{inside_words, is_measured, left_distance};
ghost use Rattle.test_sheet.specs.MeasuredPage.{measured_page, measured_pages, measured_part};
ghost use Rattle.test_sheet.specs.MeasuredPage.{page_head, page_words, paper_words, right_distance};
ghost use Rattle.test_sheet.specs.MeasuredPage.{size_words, spaced_line, ten_lines, ten_rules};
ghost use Rattle.test_sheet.specs.MeasuredPage.{tens_digit, top_distance};

use crate::area::{Area, area_of};
use crate::commands::{push_font_request, push_move_across, push_move_to, push_page_request};
use crate::dots::{DOT, nearest_dots, ticks_of};
use crate::figures::push_millimetres;
use crate::lines::{baseline, indent, line_top, push_words_on};
use crate::marks::{columns_from, fits_at, push_rule_at, push_words_at, push_words_from};
use crate::own_page::{NUMBERS, numbered};
use crate::parts::{Part, push_parts};
use device_profile::{FontRow, Geometry};
use shown_bytes::digit;
use std::alloc::{AllocError, Allocator};

/// Appends rules of two dots along the four edges of the area.
#[tactic(auto, unfolding(crate::specs::MeasuredPage::edge_rules))]
fn push_edge_rules<A: Allocator>(text: &mut Vec<u8, A>, area: Area) -> Result<(), AllocError>
    ensures { OnOk result (text.new.items ≡ text.old.items ++ edge_rules area) }
{
    let left = u32::from(area.left);
    let top = u32::from(area.top);
    let right = u32::from(area.right);
    let bottom = u32::from(area.bottom);
    let width = right.saturating_sub(left);
    let height = bottom.saturating_sub(top);
    push_rule_at(text, area, left, top, width, 2)?;
    push_rule_at(text, area, left, bottom.saturating_sub(2), width, 2)?;
    push_rule_at(text, area, left, top, 2, height)?;
    push_rule_at(text, area, right.saturating_sub(2), top, 2, height)
}

/// How far the rule at the top is from the paper's edge, in ticks.
fn top_distance(page: &Geometry) -> u64
    ensures value { result ≡ top_distance page.now }
    ensures in_range { result ≤ 2 ^ 62 }
{
    ticks_of(page.logical_top) + u64::from(area_of(page).top) * DOT
}

/// How far the rule at the bottom is from the paper's edge, in ticks.
fn bottom_distance(page: &Geometry) -> u64
    ensures value { result ≡ bottom_distance page.now }
    ensures in_range { result ≤ 2 ^ 62 }
{
    let bottom = ticks_of(page.logical_top) + u64::from(area_of(page).bottom) * DOT;
    ticks_of(page.page_height).saturating_sub(bottom)
}

/// How far the rule at the left is from the paper's edge, in ticks.
fn left_distance(page: &Geometry) -> u64
    ensures value { result ≡ left_distance page.now }
    ensures in_range { result ≤ 2 ^ 62 }
{
    ticks_of(page.logical_left) + u64::from(area_of(page).left) * DOT
}

/// How far the rule at the right is from the paper's edge, in ticks.
fn right_distance(page: &Geometry) -> u64
    ensures value { result ≡ right_distance page.now }
    ensures in_range { result ≤ 2 ^ 62 }
{
    let right = ticks_of(page.logical_left) + u64::from(area_of(page).right) * DOT;
    ticks_of(page.page_width).saturating_sub(right)
}

/// The size and the orientation of a page, in words.
#[tactic(auto, unfolding(crate::specs::MeasuredPage::size_words))]
fn size_words<A: Allocator>(alloc: A, page: &Geometry) -> Result<Vec<u8, A>, AllocError>
    ensures { IfOk result (λ words. words.items ≡ size_words page.now) }
{
    let mut words = Vec::new(alloc);
    push_parts(
        &mut words,
        &[
            Part::Words(b"Size "),
            Part::Number(page.size),
            Part::Words(b", orientation "),
            Part::Number(page.orientation),
        ],
    )?;
    Ok(words)
}

/// How wide and high the paper is, in words.
#[tactic(auto, unfolding(crate::specs::MeasuredPage::paper_words))]
fn paper_words<A: Allocator>(alloc: A, page: &Geometry) -> Result<Vec<u8, A>, AllocError>
    ensures { IfOk result (λ words. words.items ≡ paper_words page.now) }
{
    let mut words = Vec::new(alloc);
    push_parts(
        &mut words,
        &[
            Part::Words(b"Paper "),
            Part::Millimetres(page.page_width),
            Part::Words(b" by "),
            Part::Millimetres(page.page_height),
            Part::Words(b" mm"),
        ],
    )?;
    Ok(words)
}

/// A rule, by its edge, and how far it is from the paper's edge, in words.
#[tactic(auto, unfolding(crate::specs::MeasuredPage::edge_words))]
fn edge_words<A: Allocator>(alloc: A, edge: &[u8], distance: u64) -> Result<Vec<u8, A>, AllocError>
    requires { distance ≤ 2 ^ 62 }
    ensures { IfOk result (λ words. words.items ≡ edge_words edge.now distance) }
{
    let mut words = Vec::from_slice(alloc, edge)?;
    words.extend_from_slice(b" rule ")?;
    push_inside(&mut words, distance)?;
    Ok(words)
}

/// Appends how far a rule is from the paper's edge.
#[tactic(auto, unfolding(crate::specs::MeasuredPage::inside_words))]
fn push_inside<A: Allocator>(words: &mut Vec<u8, A>, distance: u64) -> Result<(), AllocError>
    requires { distance ≤ 2 ^ 62 }
    ensures { OnOk result (words.new.items ≡ words.old.items ++ inside_words distance) }
{
    push_millimetres(words, distance)?;
    push_parts(
        words,
        &[
            Part::Words(b" mm, "),
            Part::LongNumber(nearest_dots(distance)),
            Part::Words(b" dots inside"),
        ],
    )
}

/// Appends how far the four rules are from the paper's edges.
#[tactic(auto, unfolding(crate::specs::MeasuredPage::edge_lines))]
fn push_edge_lines<A: Allocator + Copy, P: Allocator>(
    text: &mut Vec<u8, A>,
    alloc: A,
    area: Area,
    face: &FontRow<P>,
    page: &Geometry,
) -> Result<(), AllocError>
    ensures { OnOk result
        (text.new.items ≡ text.old.items ++ edge_lines area face.now page.now) }
{
    push_edge_line(text, alloc, area, face, 3, b"Top", top_distance(page))?;
    push_edge_line(text, alloc, area, face, 4, b"Bottom", bottom_distance(page))?;
    push_edge_line(text, alloc, area, face, 5, b"Left", left_distance(page))?;
    push_edge_line(text, alloc, area, face, 6, b"Right", right_distance(page))
}

/// Appends, on a line, how far a rule is from the paper's edge.
fn push_edge_line<A: Allocator + Copy, P: Allocator>(
    text: &mut Vec<u8, A>,
    alloc: A,
    area: Area,
    face: &FontRow<P>,
    line: u8,
    edge: &[u8],
    distance: u64,
) -> Result<(), AllocError>
    requires { distance ≤ 2 ^ 62 }
    ensures { OnOk result (text.new.items ≡
        text.old.items ++ words_on area face.now line (edge_words edge.now distance)) }
{
    let words = edge_words(alloc, edge, distance)?;
    push_words_on(text, area, face, line, &words)
}

/// The last digit of each column's number, from 1 on.
fn column_digits<A: Allocator>(alloc: A, columns: usize) -> Result<Vec<u8, A>, AllocError>
    requires { columns ≤ 999 }
    ensures { IfOk result (λ digits. digits.items ≡ column_digits columns) }
{
    let mut digits = Vec::new(alloc);
    for column in 0..columns {
        digits.push(digit(column as u64 + 1))?;
    }
    Ok(digits)
}

/// The number of tens, at each tenth column.
fn tens_digit(column: u64) -> u8
    ensures { result ≡ tens_digit column }
{
    if column % 10 == 0 {
        digit(column / 10)
    } else {
        b' '
    }
}

/// The number of tens at each tenth column.
fn column_tens<A: Allocator>(alloc: A, columns: usize) -> Result<Vec<u8, A>, AllocError>
    requires { columns ≤ 999 }
    ensures { IfOk result (λ tens. tens.items ≡ column_tens columns) }
{
    let mut tens = Vec::new(alloc);
    for column in 0..columns {
        tens.push(tens_digit(column as u64 + 1))?;
    }
    Ok(tens)
}

/// How many columns there are, and how many to the inch, in words.
#[tactic(auto, unfolding(crate::specs::MeasuredPage::column_words))]
fn column_words<A: Allocator, P: Allocator>(
    alloc: A,
    face: &FontRow<P>,
    columns: usize,
) -> Result<Vec<u8, A>, AllocError>
    ensures { IfOk result (λ words. words.items ≡ column_words face.now columns) }
{
    let mut words = Vec::new(alloc);
    push_parts(
        &mut words,
        &[
            Part::LongNumber(columns as u64),
            Part::Words(b" columns, "),
            Part::Amount(face.request().pitch),
            Part::Words(b" to the inch"),
        ],
    )?;
    Ok(words)
}

/// Appends a ruler of columns from edge to edge of the area.
#[tactic(auto, unfolding(crate::specs::MeasuredPage::column_lines))]
fn push_column_lines<A: Allocator + Copy, P: Allocator>(
    text: &mut Vec<u8, A>,
    alloc: A,
    area: Area,
    face: &FontRow<P>,
) -> Result<(), AllocError>
    ensures { OnOk result (text.new.items ≡ text.old.items ++ column_lines area face.now) }
{
    let columns = columns_from(area, face, u32::from(area.left));
    push_from_left(text, area, face, 7, &column_tens(alloc, columns)?)?;
    push_from_left(text, area, face, 8, &column_digits(alloc, columns)?)?;
    push_words_on(text, area, face, 9, &column_words(alloc, face, columns)?)
}

/// Appends words on a line, from the left edge of the area.
fn push_from_left<A: Allocator, P: Allocator>(
    text: &mut Vec<u8, A>,
    area: Area,
    face: &FontRow<P>,
    line: u8,
    words: &[u8],
) -> Result<(), AllocError>
    ensures { OnOk result (text.new.items ≡ text.old.items
        ++ words_at area face.now area.left (baseline area face.now line) words.now) }
{
    push_words_at(
        text,
        area,
        face,
        u32::from(area.left),
        baseline(area, face, line),
        words,
    )
}

/// Appends lines of these numbers, each one line down from the one before.
fn push_spaced_lines<A: Allocator + Copy, P: Allocator>(
    text: &mut Vec<u8, A>,
    alloc: A,
    area: Area,
    face: &FontRow<P>,
    numbers: &[u8],
) -> Result<(), AllocError>
    ensures { OnOk result (text.new.items ≡
        text.old.items ++ flat_map (spaced_line area face.now) numbers.now) }
{
    for number in numbers {
        push_spaced_line(text, alloc, area, face, *number)?;
    }
    Ok(())
}

/// Appends a line one line down from the one before.
#[tactic(auto, unfolding(crate::specs::MeasuredPage::spaced_line))]
fn push_spaced_line<A: Allocator + Copy, P: Allocator>(
    text: &mut Vec<u8, A>,
    alloc: A,
    area: Area,
    face: &FontRow<P>,
    number: u8,
) -> Result<(), AllocError>
    ensures { OnOk result
        (text.new.items ≡ text.old.items ++ spaced_line area face.now number) }
{
    text.extend_from_slice(b"\x1b&a+1R")?;
    push_move_across(text, indent(area))?;
    let words = numbered(alloc, number)?;
    push_words_from(text, area, face, indent(area), &words)
}

/// Appends two rules that are 500 dots apart, from a place down, and how far that is.
#[tactic(auto, unfolding(crate::specs::MeasuredPage::ten_rules))]
fn push_ten_rules<A: Allocator, P: Allocator>(
    text: &mut Vec<u8, A>,
    area: Area,
    face: &FontRow<P>,
    y: u32,
) -> Result<(), AllocError>
    requires { y < 2 ^ 25 }
    ensures { OnOk result (text.new.items ≡ text.old.items ++ ten_rules area face.now y) }
{
    let x = indent(area);
    push_rule_at(text, area, x, y, 300, 2)?;
    push_rule_at(text, area, x, y + 500, 300, 2)?;
    push_words_at(text, area, face, x + 330, y + 40, b"Rule to rule 42.3 mm")
}

/// Whether there is room for ten lines between them.
#[tactic(auto, unfolding(crate::specs::MeasuredPage::has_ten_lines))]
fn has_ten_lines<P: Allocator>(area: Area, face: &FontRow<P>, y: u32) -> bool
    requires { y < 2 ^ 25 }
    ensures { result ≡ has_ten_lines area face.now y }
{
    let x = indent(area);
    fits_at(area, face, x, y + 40)
        && fits_at(area, face, x, y + 490)
        && y + 502 <= u32::from(area.bottom)
}

/// Appends ten lines between two rules that are 500 dots apart, from a place down, where there is
/// room for them.
#[tactic(auto, unfolding(crate::specs::MeasuredPage::ten_lines))]
fn push_ten_lines<A: Allocator + Copy, P: Allocator>(
    text: &mut Vec<u8, A>,
    alloc: A,
    area: Area,
    face: &FontRow<P>,
    y: u32,
) -> Result<(), AllocError>
    requires { y < 2 ^ 25 }
    ensures { OnOk result (text.new.items ≡ text.old.items ++ ten_lines area face.now y) }
{
    if has_ten_lines(area, face, y) {
        push_ten_rules(text, area, face, y)?;
        push_move_to(text, indent(area), y.saturating_sub(10))?;
        push_spaced_lines(text, alloc, area, face, &NUMBERS)?;
    }
    Ok(())
}

/// Appends the settings of the page, its rules, and what it is.
#[tactic(auto, unfolding(crate::specs::MeasuredPage::page_head))]
fn push_page_head<A: Allocator + Copy, P: Allocator>(
    text: &mut Vec<u8, A>,
    alloc: A,
    name: &[u8],
    face: &FontRow<P>,
    page: &Geometry,
) -> Result<(), AllocError>
    ensures { OnOk result
        (text.new.items ≡ text.old.items ++ page_head name.now face.now page.now) }
{
    let area = area_of(page);
    push_page_request(text, page.size, page.orientation)?;
    push_font_request(text, &face.request())?;
    push_edge_rules(text, area)?;
    push_words_on(text, area, face, 0, name)?;
    push_page_words(text, alloc, area, face, page)
}

/// Appends the lines that tell which page it is, and how large.
#[tactic(auto, unfolding(crate::specs::MeasuredPage::page_words))]
fn push_page_words<A: Allocator + Copy, P: Allocator>(
    text: &mut Vec<u8, A>,
    alloc: A,
    area: Area,
    face: &FontRow<P>,
    page: &Geometry,
) -> Result<(), AllocError>
    ensures { OnOk result
        (text.new.items ≡ text.old.items ++ page_words area face.now page.now) }
{
    push_words_on(text, area, face, 1, &size_words(alloc, page)?)?;
    push_words_on(text, area, face, 2, &paper_words(alloc, page)?)
}

/// Appends the page, with the printer's name.
#[tactic(auto, unfolding(crate::specs::MeasuredPage::measured_page))]
fn push_measured_page<A: Allocator + Copy, P: Allocator>(
    text: &mut Vec<u8, A>,
    alloc: A,
    name: &[u8],
    face: &FontRow<P>,
    page: &Geometry,
) -> Result<(), AllocError>
    ensures { OnOk result
        (text.new.items ≡ text.old.items ++ measured_page name.now face.now page.now) }
{
    push_page_head(text, alloc, name, face, page)?;
    let area = area_of(page);
    push_edge_lines(text, alloc, area, face, page)?;
    push_column_lines(text, alloc, area, face)?;
    push_ten_lines(text, alloc, area, face, line_top(area, face, 10))?;
    text.extend_from_slice(b"\x0c")
}

/// Whether a page is of one of these sizes, in portrait or landscape.
fn is_measured(sizes: &[u32], page: &Geometry) -> bool
    ensures { result ≡ is_measured sizes.now page.now }
{
    sizes.contains(&page.size) && page.orientation <= 1
}

/// Appends a page, where it is of one of these sizes, in portrait or landscape.
#[tactic(auto, unfolding(crate::specs::MeasuredPage::measured_part))]
fn push_measured_part<A: Allocator + Copy, P: Allocator>(
    text: &mut Vec<u8, A>,
    alloc: A,
    name: &[u8],
    face: &FontRow<P>,
    sizes: &[u32],
    page: &Geometry,
) -> Result<(), AllocError>
    ensures { OnOk result (text.new.items ≡
        text.old.items ++ measured_part name.now face.now sizes.now page.now) }
{
    if is_measured(sizes, page) {
        push_measured_page(text, alloc, name, face, page)
    } else {
        Ok(())
    }
}

/// Appends the pages of these sizes, in portrait and landscape.
#[tactic(auto, unfolding(crate::specs::MeasuredPage::measured_pages))]
pub(crate) fn push_measured_pages<A: Allocator + Copy, P: Allocator>(
    text: &mut Vec<u8, A>,
    alloc: A,
    name: &[u8],
    face: &FontRow<P>,
    sizes: &[u32],
    pages: &[Geometry],
) -> Result<(), AllocError>
    ensures { OnOk result (text.new.items ≡
        text.old.items ++ measured_pages name.now face.now sizes.now pages.now) }
{
    for page in pages {
        push_measured_part(text, alloc, name, face, sizes, page)?;
    }
    Ok(())
}
