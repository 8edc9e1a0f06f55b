//! Marks at places of a page, cut to the area where they may lie.
ghost use Rattle.std.specs.Prelude.{◌≡◌, ◌+◌, ◌++◌, ◌<◌, ◌≤◌, ◌^◌, OnOk, map, take, unsigned_abs};
ghost use Rattle.test_sheet.specs.Marks.{columns_from, fits_at, rule_at, rule_between, shown};
ghost use Rattle.test_sheet.specs.Marks.{words_at, words_from};

use crate::area::Area;
use crate::commands::{push_move_to, push_rectangle};
use crate::dots::{DOT, ticks_of};
use device_profile::FontRow;
use std::alloc::{AllocError, Allocator};

/// Appends a rule with its upper left corner at a place.
#[tactic(auto, unfolding(crate::specs::Marks::rule_at))]
pub(crate) fn push_rule_at<A: Allocator>(
    text: &mut Vec<u8, A>,
    area: Area,
    x: u32,
    y: u32,
    width: u32,
    height: u32,
) -> Result<(), AllocError>
    requires right { x + width < 2 ^ 32 }
    requires bottom { y + height < 2 ^ 32 }
    ensures { OnOk result (text.new.items ≡ text.old.items ++ rule_at area x y width height) }
{
    let left = u32::from(area.left).max(x);
    let top = u32::from(area.top).max(y);
    let right = u32::from(area.right).min(x + width);
    let bottom = u32::from(area.bottom).min(y + height);
    push_rule_between(text, left, top, right, bottom)
}

/// Appends a rule from the first column and row to the last, where there is something between them.
fn push_rule_between<A: Allocator>(
    text: &mut Vec<u8, A>,
    left: u32,
    top: u32,
    right: u32,
    bottom: u32,
) -> Result<(), AllocError>
    ensures { OnOk result (text.new.items ≡ text.old.items ++ rule_between left top right bottom) }
{
    if left < right && top < bottom {
        push_move_to(text, left, top)?;
        push_rectangle(text, right - left, bottom - top)?;
    }
    Ok(())
}

/// How far a character of a face moves the cursor, in ticks.
pub(crate) fn advance_of<P: Allocator>(face: &FontRow<P>) -> u64
    ensures value { result ≡ unsigned_abs face.now.advance }
    ensures positive { 0 < result }
{
    ticks_of(face.advance())
}

/// How many columns of a face there are from a place to the area's right edge.
#[tactic(auto, unfolding(crate::specs::Marks::columns_from))]
pub(crate) fn columns_from<P: Allocator>(area: Area, face: &FontRow<P>, x: u32) -> usize
    ensures value { result ≡ columns_from area face.now x }
    ensures few { result ≤ 999 }
{
    let dots = u64::from(area.right).saturating_sub(u64::from(x));
    (dots * DOT / advance_of(face)).min(999) as usize
}

/// Appends bytes: each where the face prints it, and else a space.
pub(crate) fn push_shown<A: Allocator, P: Allocator>(
    text: &mut Vec<u8, A>,
    face: &FontRow<P>,
    bytes: &[u8],
) -> Result<(), AllocError>
    ensures { OnOk result (text.new.items ≡ text.old.items ++ map (shown face.now) bytes.now) }
{
    for byte in bytes {
        text.push(if face.has_code(*byte) { *byte } else { b' ' })?;
    }
    Ok(())
}

/// Appends at most so many words.
pub(crate) fn push_first<A: Allocator, P: Allocator>(
    text: &mut Vec<u8, A>,
    face: &FontRow<P>,
    count: usize,
    words: &[u8],
) -> Result<(), AllocError>
    ensures { OnOk result
        (text.new.items ≡ text.old.items ++ map (shown face.now) (take count words.now)) }
{
    push_shown(text, face, &words[..count.min(words.len())])
}

/// Appends as many bytes of words as there are columns from a place.
#[tactic(auto, unfolding(crate::specs::Marks::words_from))]
pub(crate) fn push_words_from<A: Allocator, P: Allocator>(
    text: &mut Vec<u8, A>,
    area: Area,
    face: &FontRow<P>,
    x: u32,
    words: &[u8],
) -> Result<(), AllocError>
    ensures { OnOk result
        (text.new.items ≡ text.old.items ++ words_from area face.now x words.now) }
{
    push_first(text, face, columns_from(area, face, x), words)
}

/// Whether words may begin at a place: it lies in the area, and their characters in its height.
#[tactic(auto, unfolding(crate::specs::Marks::fits_at))]
pub(crate) fn fits_at<P: Allocator>(area: Area, face: &FontRow<P>, x: u32, y: u32) -> bool
    ensures { result ≡ fits_at area face.now x y }
{
    let baseline = u64::from(y) * DOT;
    u32::from(area.left) <= x
        && x <= u32::from(area.right)
        && u64::from(area.top) * DOT + ticks_of(face.ascent()) <= baseline
        && baseline + ticks_of(face.descent()) <= u64::from(area.bottom) * DOT
}

/// Appends words with their baseline at a place.
#[tactic(auto, unfolding(crate::specs::Marks::words_at))]
pub(crate) fn push_words_at<A: Allocator, P: Allocator>(
    text: &mut Vec<u8, A>,
    area: Area,
    face: &FontRow<P>,
    x: u32,
    y: u32,
    words: &[u8],
) -> Result<(), AllocError>
    ensures { OnOk result
        (text.new.items ≡ text.old.items ++ words_at area face.now x y words.now) }
{
    if fits_at(area, face, x, y) {
        push_move_to(text, x, y)?;
        push_words_from(text, area, face, x, words)?;
    }
    Ok(())
}
