//! Pages with a line for each face.
ghost use Rattle.std.specs.Prelude.{◌≡◌, ◌++◌, ◌≤◌, ◌<◌, OnOk, IfOk, flat_map};
ghost use Rattle.test_sheet.specs.Lines.{indent};
ghost use Rattle.test_sheet.specs.Marks.{words_at};
ghost use Rattle.test_sheet.specs.FacePages.{cut_words, ends_of, face_entries};
ghost use Rattle.test_sheet.specs.FacePages.{face_entry, face_line, face_pages, face_words};
ghost use Rattle.test_sheet.specs.FacePages.{faces_on, heading, last_line, line_of, look_words};
ghost use Rattle.test_sheet.specs.FacePages.{sample_words};

use crate::area::{Area, area_of};
use crate::commands::{push_font_request, push_page_request};
use crate::lines::{baseline, indent, line_height, push_words_on};
use crate::marks::push_words_at;
use crate::parts::{Part, push_parts};
use device_profile::{CodeRange, FontRequest, FontRow, Geometry};
use shown_bytes::push_number;
use std::alloc::{AllocError, Allocator};

/// How many faces go on a page, below its heading and above the last line.
#[tactic(auto, unfolding(crate::specs::FacePages::faces_on))]
fn faces_on<P: Allocator>(area: Area, first: &FontRow<P>) -> usize
    ensures value { result ≡ faces_on area first.now }
    ensures some { 0 < result }
    ensures few { result ≤ 98 }
{
    let height = u32::from(area.bottom).saturating_sub(u32::from(area.top) + 12);
    let lines = height / u32::from(line_height(first));
    lines.saturating_sub(2).min(98).max(1) as usize
}

/// The line of a face on its page, by how many faces come before it.
fn line_of(count: usize, index: usize) -> u8
    requires some { 0 < count }
    requires few { count ≤ 98 }
    ensures { result ≡ line_of count index }
{
    1 + (index % count) as u8
}

/// A face in words: its id, and what selects it.
#[tactic(auto, unfolding(crate::specs::FacePages::face_words))]
fn face_words<A: Allocator, P: Allocator>(
    alloc: A,
    face: &FontRow<P>,
) -> Result<Vec<u8, A>, AllocError>
    ensures { IfOk result (λ words. words.items ≡ face_words face.now) }
{
    let mut words = Vec::new(alloc);
    push_number(&mut words, u64::from(face.id()))?;
    push_cut_words(&mut words, &face.request())?;
    push_look_words(&mut words, &face.request())?;
    Ok(words)
}

/// Appends the symbol set of a font, its pitch and its height, each behind a space.
#[tactic(auto, unfolding(crate::specs::FacePages::cut_words))]
fn push_cut_words<A: Allocator>(
    words: &mut Vec<u8, A>,
    request: &FontRequest,
) -> Result<(), AllocError>
    ensures { OnOk result (words.new.items ≡ words.old.items ++ cut_words request.now) }
{
    push_parts(
        words,
        &[
            Part::Words(b" "),
            Part::Set(request.symbol_set),
            Part::Words(b" "),
            Part::Amount(request.pitch),
            Part::Words(b" "),
            Part::Amount(request.height),
        ],
    )
}

/// Appends what else selects a font, each part behind a space.
#[tactic(auto, unfolding(crate::specs::FacePages::look_words))]
fn push_look_words<A: Allocator>(
    words: &mut Vec<u8, A>,
    request: &FontRequest,
) -> Result<(), AllocError>
    ensures { OnOk result (words.new.items ≡ words.old.items ++ look_words request.now) }
{
    push_parts(
        words,
        &[
            Part::Words(b" "),
            Part::Amount(request.style),
            Part::Words(b" "),
            Part::SignedAmount(request.weight),
            Part::Words(b" "),
            Part::Amount(request.typeface),
        ],
    )
}

/// Appends the ends of ranges of codes.
fn push_ends<A: Allocator>(words: &mut Vec<u8, A>, ranges: &[CodeRange]) -> Result<(), AllocError>
    ensures { OnOk result
        (words.new.items ≡ words.old.items ++ flat_map ends_of ranges.now) }
{
    for range in ranges {
        push_ends_of(words, *range)?;
    }
    Ok(())
}

/// Appends the ends of a range of codes.
#[tactic(auto, unfolding(crate::specs::FacePages::ends_of))]
fn push_ends_of<A: Allocator>(words: &mut Vec<u8, A>, range: CodeRange) -> Result<(), AllocError>
    ensures { OnOk result (words.new.items ≡ words.old.items ++ ends_of range) }
{
    words.extend_from_slice(&[range.first, range.last])
}

/// Letters and figures, and the ends of the ranges of a face's codes.
#[tactic(auto, unfolding(crate::specs::FacePages::sample_words))]
fn sample_words<A: Allocator, P: Allocator>(
    alloc: A,
    face: &FontRow<P>,
) -> Result<Vec<u8, A>, AllocError>
    ensures { IfOk result (λ words. words.items ≡ sample_words face.now) }
{
    let mut words = Vec::from_slice(alloc, b"ABCxyz019 ")?;
    push_ends(&mut words, face.codes())?;
    Ok(words)
}

/// Appends a face's words in the first face at the left, and letters of its own at the right.
#[tactic(auto, unfolding(crate::specs::FacePages::face_line))]
fn push_face_line<A: Allocator + Copy, P: Allocator>(
    text: &mut Vec<u8, A>,
    alloc: A,
    area: Area,
    first: &FontRow<P>,
    line: u8,
    face: &FontRow<P>,
) -> Result<(), AllocError>
    ensures { OnOk result
        (text.new.items ≡ text.old.items ++ face_line area first.now line face.now) }
{
    push_words_on(
        text,
        area.left_half(),
        first,
        line,
        &face_words(alloc, face)?,
    )?;
    push_font_request(text, &face.request())?;
    push_sample(
        text,
        alloc,
        area.right_half(),
        face,
        baseline(area, first, line),
    )?;
    push_font_request(text, &first.request())
}

/// Appends letters of a face with this baseline, where lines of the area begin.
fn push_sample<A: Allocator + Copy, P: Allocator>(
    text: &mut Vec<u8, A>,
    alloc: A,
    area: Area,
    face: &FontRow<P>,
    y: u32,
) -> Result<(), AllocError>
    ensures { OnOk result (text.new.items ≡
        text.old.items ++ words_at area face.now (indent area) y (sample_words face.now)) }
{
    let sample = sample_words(alloc, face)?;
    push_words_at(text, area, face, indent(area), y, &sample)
}

/// Appends what begins a page, by how many faces come before it.
fn push_heading<A: Allocator, P: Allocator>(
    text: &mut Vec<u8, A>,
    area: Area,
    first: &FontRow<P>,
    index: usize,
) -> Result<(), AllocError>
    ensures { OnOk result (text.new.items ≡ text.old.items ++ heading area first.now index) }
{
    if index > 0 {
        text.push(b'\x0c')?;
    }
    let words = b"Face, set, pitch, height, style, weight, typeface";
    push_words_on(text, area, first, 0, words)
}

/// Appends the line of a face, behind a heading where it is the first of its page.
#[tactic(auto, unfolding(crate::specs::FacePages::face_entry))]
fn push_face_entry<A: Allocator + Copy, P: Allocator>(
    text: &mut Vec<u8, A>,
    alloc: A,
    area: Area,
    first: &FontRow<P>,
    index: usize,
    face: &FontRow<P>,
) -> Result<(), AllocError>
    ensures { OnOk result
        (text.new.items ≡ text.old.items ++ face_entry area first.now index face.now) }
{
    let count = faces_on(area, first);
    if index % count == 0 {
        push_heading(text, area, first, index)?;
    }
    push_face_line(text, alloc, area, first, line_of(count, index), face)
}

/// Appends the lines of faces.
fn push_face_entries<A: Allocator + Copy, P: Allocator>(
    text: &mut Vec<u8, A>,
    alloc: A,
    area: Area,
    first: &FontRow<P>,
    faces: &[FontRow<P>],
) -> Result<(), AllocError>
    ensures { OnOk result
        (text.new.items ≡ text.old.items ++ face_entries area first.now faces.now) }
{
    for (index, face) in faces.iter().enumerate() {
        push_face_entry(text, alloc, area, first, index, face)?;
    }
    Ok(())
}

/// Appends the last line of the sheet, at the foot of its page.
fn push_last_line<A: Allocator, P: Allocator>(
    text: &mut Vec<u8, A>,
    area: Area,
    first: &FontRow<P>,
) -> Result<(), AllocError>
    ensures { OnOk result (text.new.items ≡ text.old.items ++ last_line area first.now) }
{
    let line = 1 + faces_on(area, first) as u8;
    push_words_on(text, area, first, line, b"END OF SHEET")
}

/// Appends the pages with a line for each face, of which this is the first, and the last line.
#[tactic(auto, unfolding(crate::specs::FacePages::face_pages))]
pub(crate) fn push_face_pages<A: Allocator + Copy, P: Allocator>(
    text: &mut Vec<u8, A>,
    alloc: A,
    page: &Geometry,
    first: &FontRow<P>,
    faces: &[FontRow<P>],
) -> Result<(), AllocError>
    ensures { OnOk result
        (text.new.items ≡ text.old.items ++ face_pages page.now first.now faces.now) }
{
    push_page_request(text, page.size, page.orientation)?;
    push_font_request(text, &first.request())?;
    let area = area_of(page);
    push_face_entries(text, alloc, area, first, faces)?;
    push_last_line(text, area, first)
}
