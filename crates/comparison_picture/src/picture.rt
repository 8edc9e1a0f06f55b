//! The SVG of a page on which two jobs differ, with the list of what differs beside it.
ghost use Rattle.std.specs.Prelude.{◌≡◌, ◌++◌, OnOk};
ghost use Rattle.shown_bytes.specs.Lengths.{signed_hundredths};
ghost use Rattle.comparison_picture.specs.DrawnPages.{compared_page};
ghost use Rattle.comparison_picture.specs.Picture.{
  difference_picture,
  list_part,
  list_start,
  page_sheet,
  picture_sides,
  picture_start,
  picture_view,
  pixels,
  style_part,
};

use crate::drawn_page::DrawnPage;
use crate::fixed_parts::{push_filters, push_style};
use crate::lists::{ListForm, push_list};
use crate::sheets::{push_apart, push_common_sheet};
use device_profile::Geometry;
use page_picture::{push_foot, push_sentence};
use shown_bytes::{push_number, push_with_signed_hundredths};
use std::alloc::{AllocError, Allocator};
use tick_length::Length;

/// Beside a page so many differences are listed.
const MOST_LINES: usize = 55;

/// How many ticks a hundredth of a pixel has, of which an inch has 96.
const TICKS_PER_PIXEL_HUNDREDTH: u64 = 3_810_000;

/// How much wider the picture is than the page, in hundredths of a pixel: five inches.
const BESIDE: u16 = 48_000;

/// How much higher it is: half an inch, for the sentence.
const BELOW: u16 = 4_800;

/// Appends the SVG of a page, with this sentence below it, which tells what comes of both jobs.
#[tactic(auto, unfolding(crate::specs::Picture::difference_picture))]
pub fn push_picture<A: Allocator + Copy, B: Allocator>(
    alloc: A,
    text: &mut Vec<u8, A>,
    page: &DrawnPage<'_, B>,
    sentence: &[u8],
) -> Result<(), AllocError>
    ensures { OnOk result (text.new.items ≡ text.old.items
        ++ difference_picture (compared_page page.now) sentence.now) }
{
    push_picture_start(text, &page.paper)?;
    push_style_part(text)?;
    push_page_sheet(alloc, text, page, sentence)?;
    push_list_part(text, page)?;
    text.extend_from_slice(b"</svg>\n")
}

// ---- its sides

/// So many ticks in hundredths of a pixel, and so many of these more.
fn pixels(side: Length, more: u16) -> i64
    ensures { result ≡ pixels side more }
{
    (side.ticks().unsigned_abs() / TICKS_PER_PIXEL_HUNDREDTH + u64::from(more)) as i64
}

/// Appends the sides of the picture in pixels.
#[tactic(auto, unfolding(crate::specs::Picture::picture_sides))]
fn push_sides<A: Allocator>(text: &mut Vec<u8, A>, paper: &Geometry) -> Result<(), AllocError>
    ensures { OnOk result (text.new.items ≡ text.old.items ++ picture_sides paper.now) }
{
    push_with_signed_hundredths(text, pixels(paper.page_width, BESIDE))?;
    text.extend_from_slice(b"\" height=\"")?;
    push_with_signed_hundredths(text, pixels(paper.page_height, BELOW))
}

/// Appends the same once more, to which places refer.
#[tactic(auto, unfolding(crate::specs::Picture::picture_view))]
fn push_view<A: Allocator>(text: &mut Vec<u8, A>, paper: &Geometry) -> Result<(), AllocError>
    ensures { OnOk result (text.new.items ≡ text.old.items ++ picture_view paper.now) }
{
    push_with_signed_hundredths(text, pixels(paper.page_width, BESIDE))?;
    text.extend_from_slice(b" ")?;
    push_with_signed_hundredths(text, pixels(paper.page_height, BELOW))
}

#[tactic(auto, unfolding(crate::specs::Picture::picture_start))]
fn push_picture_start<A: Allocator>(
    text: &mut Vec<u8, A>,
    paper: &Geometry,
) -> Result<(), AllocError>
    ensures { OnOk result (text.new.items ≡ text.old.items ++ picture_start paper.now) }
{
    text.extend_from_slice(b"<svg xmlns=\"http://www.w3.org/2000/svg\" width=\"")?;
    push_sides(text, paper)?;
    text.extend_from_slice(b"\" viewBox=\"0 0 ")?;
    push_view(text, paper)?;
    text.extend_from_slice(b"\">\n")
}

// ---- the page

/// Appends how the marks of OLD and of NEW look.
#[tactic(auto, unfolding(crate::specs::Picture::style_part))]
fn push_style_part<A: Allocator>(text: &mut Vec<u8, A>) -> Result<(), AllocError>
    ensures { OnOk result (text.new.items ≡ text.old.items ++ style_part) }
{
    text.extend_from_slice(b"<style>\n")?;
    push_style(text)?;
    text.extend_from_slice(b"</style>\n")?;
    push_filters(text)
}

/// Appends the page, which is a picture of its own, with the sentence below it.
#[tactic(auto, unfolding(crate::specs::Picture::page_sheet))]
fn push_page_sheet<A: Allocator + Copy, B: Allocator>(
    alloc: A,
    text: &mut Vec<u8, A>,
    page: &DrawnPage<'_, B>,
    sentence: &[u8],
) -> Result<(), AllocError>
    ensures { OnOk result (text.new.items ≡ text.old.items
        ++ page_sheet (compared_page page.now) sentence.now) }
{
    push_common_sheet(alloc, text, page, true, true)?;
    push_apart(alloc, text, page)?;
    push_sentence(text, &page.paper, sentence)?;
    push_foot(text)
}

// ---- the list

/// Appends what stands above the list, to the right of the page.
#[tactic(auto, unfolding(crate::specs::Picture::list_start))]
fn push_list_start<A: Allocator>(
    text: &mut Vec<u8, A>,
    paper: &Geometry,
    number: u64,
) -> Result<(), AllocError>
    ensures { OnOk result (text.new.items ≡ text.old.items ++ list_start paper.now number) }
{
    text.extend_from_slice(b"<text transform=\"translate(")?;
    push_list_left(text, paper)?;
    text.extend_from_slice(
        b")\" y=\"8\" font-family=\"sans-serif\" font-size=\"12\">\
        <tspan x=\"10\" dy=\"17\" font-weight=\"bold\">Page ",
    )?;
    push_number(text, number)?;
    text.extend_from_slice(
        b"</tspan><tspan class=\"old\" x=\"150\">OLD</tspan>\
        <tspan class=\"new\" x=\"310\">NEW</tspan>\n",
    )
}

/// Appends how far to the right the list begins.
fn push_list_left<A: Allocator>(text: &mut Vec<u8, A>, paper: &Geometry) -> Result<(), AllocError>
    ensures { OnOk result (text.new.items ≡ text.old.items
        ++ signed_hundredths (pixels paper.now.page_width 0)) }
{
    push_with_signed_hundredths(text, pixels(paper.page_width, 0))
}

/// Appends the list.
#[tactic(auto, unfolding(crate::specs::Picture::list_part))]
fn push_list_part<A: Allocator, B: Allocator>(
    text: &mut Vec<u8, A>,
    page: &DrawnPage<'_, B>,
) -> Result<(), AllocError>
    ensures { OnOk result
        (text.new.items ≡ text.old.items ++ list_part (compared_page page.now)) }
{
    push_list_start(text, &page.paper, page.number)?;
    push_list(
        text,
        ListForm::Lines,
        MOST_LINES,
        page.differences.as_slice(),
    )?;
    text.extend_from_slice(b"</text>\n")
}
