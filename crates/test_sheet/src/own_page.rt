//! The page that sets nothing: it shows what the panel has.
ghost use Rattle.std.specs.Prelude.{◌≡◌, ◌++◌, ◌≤◌, ◌^◌, OnOk, IfOk, flat_map, replicate};
ghost use Rattle.test_sheet.specs.OwnPage.{baseline_behind, blank_columns, first_baseline};
ghost use Rattle.test_sheet.specs.OwnPage.{has_own_lines, last_baseline, line_end, numbered};
ghost use Rattle.test_sheet.specs.OwnPage.{numbered_line, own_line, own_lines, own_page, own_words};

use crate::area::{Area, area_of};
use crate::dots::{DOT, ticks_of};
use crate::marks::{advance_of, columns_from, push_first};
use crate::parts::{Part, push_parts};
use device_profile::{FontRow, Geometry, Panel};
use std::alloc::{AllocError, Allocator};
use tick_length::TICKS_PER_HALF_INCH;

/// 3/4 of a ten-thousandth of 1/48 inch, in ticks.
const FIRST_LINE_PER_VMI: u64 = 57_150;

/// A ten-thousandth of 1/48 inch, in ticks.
const TICKS_PER_VMI: u64 = 76_200;

/// The most columns that are left blank.
const MOST_COLUMNS: u64 = 999;

/// The numbers of ten lines.
pub(crate) const NUMBERS: [u8; 10] = [1, 2, 3, 4, 5, 6, 7, 8, 9, 10];

/// The first baseline under a VMI, in ticks.
fn first_baseline(vmi: u32) -> u64
    ensures { result ≡ first_baseline vmi }
{
    TICKS_PER_HALF_INCH + u64::from(vmi) * FIRST_LINE_PER_VMI
}

/// The baseline behind the fourteen lines of the page, in ticks.
fn baseline_behind(vmi: u32) -> u64
    ensures { result ≡ baseline_behind vmi }
{
    first_baseline(vmi) + 14 * (u64::from(vmi) * TICKS_PER_VMI)
}

/// The last baseline that there may be, in ticks.
fn last_baseline(page: &Geometry) -> u64
    ensures value { result ≡ last_baseline page.now }
    ensures in_range { result ≤ 2 ^ 60 }
{
    ticks_of(page.logical_height).saturating_sub(TICKS_PER_HALF_INCH)
}

/// Whether the lines of the page go on one page, and lines of the face, from the first baseline to
/// the last, lie in the area.
#[tactic(auto, unfolding(crate::specs::OwnPage::has_own_lines))]
fn has_own_lines<P: Allocator>(page: &Geometry, area: Area, face: &FontRow<P>, vmi: u32) -> bool
    ensures { result ≡ has_own_lines page.now area face.now vmi }
{
    let first = first_baseline(vmi);
    let last = last_baseline(page);
    u64::from(area.top) * DOT + ticks_of(face.ascent()) <= first
        && baseline_behind(vmi) <= last
        && last + ticks_of(face.descent()) <= u64::from(area.bottom) * DOT
}

/// What ends a line and begins the next under a line termination.
fn line_end(termination: u32) -> &'static [u8]
    ensures { result.now ≡ line_end termination }
{
    match termination {
        0 => b"\r\n",
        2 => b"\n",
        _ => b"\r",
    }
}

/// How many columns at the left are not in the area.
#[tactic(auto, unfolding(crate::specs::OwnPage::blank_columns))]
fn blank_columns<P: Allocator>(area: Area, face: &FontRow<P>) -> usize
    ensures { result ≡ blank_columns area face.now }
{
    let dots = u64::from(area.left) * DOT;
    dots.div_ceil(advance_of(face)).min(MOST_COLUMNS) as usize
}

/// Appends so many spaces.
fn push_spaces<A: Allocator>(text: &mut Vec<u8, A>, count: usize) -> Result<(), AllocError>
    ensures { OnOk result (text.new.items ≡ text.old.items ++ replicate count 32) }
{
    for _column in 0..count {
        text.push(b' ')?;
    }
    Ok(())
}

/// Appends words behind the blank columns, and what ends the line.
#[tactic(auto, unfolding(crate::specs::OwnPage::own_line))]
fn push_own_line<A: Allocator, P: Allocator>(
    text: &mut Vec<u8, A>,
    area: Area,
    face: &FontRow<P>,
    termination: u32,
    words: &[u8],
) -> Result<(), AllocError>
    ensures { OnOk result
        (text.new.items ≡ text.old.items ++ own_line area face.now termination words.now) }
{
    let blank = blank_columns(area, face);
    push_spaces(text, blank)?;
    let count = columns_from(area, face, 0).saturating_sub(blank);
    push_first(text, face, count, words)?;
    text.extend_from_slice(line_end(termination))
}

/// A line's number in words.
pub(crate) fn numbered<A: Allocator>(alloc: A, number: u8) -> Result<Vec<u8, A>, AllocError>
    ensures { IfOk result (λ words. words.items ≡ numbered number) }
{
    let mut words = Vec::new(alloc);
    let number = u32::from(number);
    push_parts(&mut words, &[Part::Words(b"Line "), Part::Number(number)])?;
    Ok(words)
}

/// Appends lines of these numbers.
fn push_numbered_lines<A: Allocator + Copy, P: Allocator>(
    text: &mut Vec<u8, A>,
    alloc: A,
    area: Area,
    face: &FontRow<P>,
    termination: u32,
    numbers: &[u8],
) -> Result<(), AllocError>
    ensures { OnOk result (text.new.items ≡ text.old.items
        ++ flat_map (numbered_line area face.now termination) numbers.now) }
{
    for number in numbers {
        push_numbered_line(text, alloc, area, face, termination, *number)?;
    }
    Ok(())
}

/// Appends a line of its number.
#[tactic(auto, unfolding(crate::specs::OwnPage::numbered_line))]
fn push_numbered_line<A: Allocator + Copy, P: Allocator>(
    text: &mut Vec<u8, A>,
    alloc: A,
    area: Area,
    face: &FontRow<P>,
    termination: u32,
    number: u8,
) -> Result<(), AllocError>
    ensures { OnOk result
        (text.new.items ≡ text.old.items ++ numbered_line area face.now termination number) }
{
    push_own_line(text, area, face, termination, &numbered(alloc, number)?)
}

/// Appends lines that tell what the page is.
#[tactic(auto, unfolding(crate::specs::OwnPage::own_words))]
fn push_own_words<A: Allocator, P: Allocator>(
    text: &mut Vec<u8, A>,
    name: &[u8],
    area: Area,
    face: &FontRow<P>,
    termination: u32,
) -> Result<(), AllocError>
    ensures { OnOk result (text.new.items ≡
        text.old.items ++ own_words name.now area face.now termination) }
{
    let nothing = b"This page sets nothing: its paper,";
    push_own_line(text, area, face, termination, nothing)?;
    let panel = b"font and lines are the panel's.";
    push_own_line(text, area, face, termination, panel)?;
    push_own_line(text, area, face, termination, name)
}

/// Appends the lines of the page, and its end.
#[tactic(auto, unfolding(crate::specs::OwnPage::own_lines))]
fn push_own_lines<A: Allocator + Copy, P: Allocator>(
    text: &mut Vec<u8, A>,
    alloc: A,
    name: &[u8],
    area: Area,
    face: &FontRow<P>,
    termination: u32,
) -> Result<(), AllocError>
    ensures { OnOk result (text.new.items ≡
        text.old.items ++ own_lines name.now area face.now termination) }
{
    push_own_words(text, name, area, face, termination)?;
    push_own_line(text, area, face, termination, b"Ten lines:")?;
    push_numbered_lines(text, alloc, area, face, termination, &NUMBERS)?;
    text.extend_from_slice(b"\x0c")
}

/// Appends the page that sets nothing under this panel, whose page and face these are, where its
/// lines lie in the area.
#[tactic(auto, unfolding(crate::specs::OwnPage::own_page))]
pub(crate) fn push_own_page<A: Allocator + Copy, P: Allocator>(
    text: &mut Vec<u8, A>,
    alloc: A,
    name: &[u8],
    page: &Geometry,
    face: &FontRow<P>,
    panel: &Panel,
) -> Result<(), AllocError>
    ensures { OnOk result
        (text.new.items ≡ text.old.items ++ own_page name.now page.now face.now panel.now) }
{
    let area = area_of(page);
    if has_own_lines(page, area, face, panel.vmi) {
        push_own_lines(text, alloc, name, area, face, panel.line_termination)?;
    }
    Ok(())
}
