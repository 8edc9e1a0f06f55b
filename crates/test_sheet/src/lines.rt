//! Lines of words, from the top of a page down.
ghost use Rattle.std.specs.Prelude.{◌≡◌, ◌++◌, ◌<◌, ◌^◌, OnOk};
ghost use Rattle.test_sheet.specs.Lines.{baseline, indent, line_height, line_top, words_on};

use crate::area::Area;
use crate::dots::{dots_over, ticks_of};
use crate::marks::push_words_at;
use device_profile::FontRow;
use std::alloc::{AllocError, Allocator};

/// How far lines of a face are apart, in dots: 1/6 inch, or as high as its characters.
pub(crate) fn line_height<P: Allocator>(face: &FontRow<P>) -> u16
    ensures { result ≡ line_height face.now }
{
    dots_over(ticks_of(face.ascent()) + ticks_of(face.descent())).max(50)
}

/// The top of a line, of which the first is 0.
#[tactic(auto, unfolding(crate::specs::Lines::line_top))]
pub(crate) fn line_top<P: Allocator>(area: Area, face: &FontRow<P>, line: u8) -> u32
    ensures value { result ≡ line_top area face.now line }
    ensures small { result < 2 ^ 25 }
{
    u32::from(area.top) + 10 + u32::from(line) * u32::from(line_height(face))
}

/// The baseline of a line.
#[tactic(auto, unfolding(crate::specs::Lines::baseline))]
pub(crate) fn baseline<P: Allocator>(area: Area, face: &FontRow<P>, line: u8) -> u32
    ensures { result ≡ baseline area face.now line }
{
    line_top(area, face, line) + u32::from(dots_over(ticks_of(face.ascent())))
}

/// Where lines begin, clear of a rule at the left.
pub(crate) fn indent(area: Area) -> u32
    ensures value { result ≡ indent area }
    ensures small { result < 2 ^ 17 }
{
    u32::from(area.left) + 30
}

/// Appends words on a line.
#[tactic(auto, unfolding(crate::specs::Lines::words_on))]
pub(crate) fn push_words_on<A: Allocator, P: Allocator>(
    text: &mut Vec<u8, A>,
    area: Area,
    face: &FontRow<P>,
    line: u8,
    words: &[u8],
) -> Result<(), AllocError>
    ensures { OnOk result
        (text.new.items ≡ text.old.items ++ words_on area face.now line words.now) }
{
    let y = baseline(area, face, line);
    push_words_at(text, area, face, indent(area), y, words)
}
