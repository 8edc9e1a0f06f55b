//! Making the text of a model's profile.

use crate::comparison::DEPTH;
use crate::face::{CharacterSet, FaceRow, Generation, Typeface, faces_of};
use crate::model::{Model, ModelRow};
use crate::page::{ORIENTATIONS, page_numbers};
use crate::panel_lists::{PanelLists, panel_values};
use crate::paper::Paper;
use device_profile::{CodeRange, FORMAT_NAME, Field, Key};
use shown_bytes::{push_amount, push_lettered, push_number};
use std::alloc::{AllocError, Allocator};

/// The text of the profile of a model, with these papers and a panel of these lists.
pub(crate) fn profile_text<A: Allocator + Copy>(
    alloc: A,
    model: Model,
    papers: &[Paper],
    lists: PanelLists,
) -> Result<Vec<u8, A>, AllocError> {
    let row = model.row();
    let mut text = Vec::new(alloc);
    push_comments(&mut text, row, lists)?;
    push_panel(&mut text, alloc, model, papers, lists)?;
    push_device(&mut text, row)?;
    for paper in papers {
        push_pages(&mut text, *paper)?;
    }
    push_faces(&mut text, alloc, row.generation)?;
    // Last, so that no front of the text is one of a profile.
    push_list(&mut text, Key::Depth, &[DEPTH])?;
    Ok(text)
}

/// What a profile is from, up to what tells the papers.
const ORIGIN: &str = "\
# DRAFT: no number of it was measured at a printer.
#
# What it is from:
#   geometry: the table of pages of HP's PCL 5 manual, written from memory. One rule gives it: a
#   page is its paper in whole dots of 1/300 inch, A4 as 2480 x 3507. The logical page is as high
#   as the paper and lies 75 dots inside both side edges, 71 on metric paper, in landscape 60 and
#   59. The printable area lies 50 dots inside each edge.
#   face: what is usual from the LaserJet 4 on. A letter's box is 7200/pitch wide, 3/4 of the
#   letter's size high and 1/4 deep: give it alike in all profiles, or their letters differ (33).
";

/// What is to be checked, up to the trays.
const CHECKS: &str = ".
#
# What to check at the printer, and how:
#   Print the configuration page, the menu map and the PCL font list at its panel, or ask it
#   '@PJL INFO VARIABLES'. The language has to be PCL or automatic; CR is not added to LF; edge to
#   edge and A4 for letter are off.
#   geometry: print text of 80 columns, 10 to the inch, on A4 in portrait. 77 fit; where more do,
#   the panel has 'wide A4' on, and the A4 rows are wrong. Lay a ruler on rules that begin at the
#   edges: the outer 1/6 inch stays white.
#   face: compare symbol sets, pitches and heights with the font list; take out what it lacks.
#   vmi: measure ten lines of a page that sets nothing: 8 is 10/6 inch, 6 is 10/8 inch (on letter
#   paper 60 and 80 form lines).
#   duplex: whether this very printer has it. depth: the manual allows two levels. memory: a
#   guess.
#   tray: it stands for what the printer takes by itself; give it alike in all profiles of a
#   fleet. Where the panel takes the MP tray first, set it to the cassette, or list both.
#   trays: ";

/// What a fixed panel means.
const FIXED: &str = "\
#
# Each list from size to tray has one value: it promises that the panel stands so, and that nobody
#   changes it. Where people do, 'pclcheck profile new --panel free' lists what they may choose.
";

/// What a free panel means.
const FREE: &str = "\
#
# The lists from size to tray have what people may choose, the usual value first. A job has to set
#   what a list leaves open. Take out what nobody chooses at this printer.
";

/// What a panel means that is free but in some fields.
const FREE_BUT: &str = "\
#
# Of the lists from size to tray those of several values have what people may choose, the usual
#   value first, and a job has to set what they leave open. Those of one value promise that the
#   panel stands so, and that nobody changes it.
";

/// Appends the first line and the comments.
fn push_comments<A: Allocator>(
    text: &mut Vec<u8, A>,
    row: &ModelRow,
    lists: PanelLists,
) -> Result<(), AllocError> {
    text.extend_from_slice(FORMAT_NAME)?;
    push_all(
        text,
        &[
            " 1\n# ",
            row.title,
            ", by 'pclcheck profile new ",
            row.word,
            "'.\n",
            ORIGIN,
            "#   which papers it can have: ",
            row.papers_from,
            CHECKS,
            row.tray_words,
            ".\n",
            meaning_of(lists),
        ],
    )
}

/// What a panel of these lists means.
fn meaning_of(lists: PanelLists) -> &'static str {
    match lists {
        PanelLists::Fixed => FIXED,
        PanelLists::Free => FREE,
        PanelLists::FreeBut(_) => FREE_BUT,
    }
}

/// Appends the lists of the panel.
fn push_panel<A: Allocator + Copy>(
    text: &mut Vec<u8, A>,
    alloc: A,
    model: Model,
    papers: &[Paper],
    lists: PanelLists,
) -> Result<(), AllocError> {
    let name = Part::Words(model.row().word);
    push_parts(
        text,
        &[
            Part::Key(Key::Name),
            Part::Words(" "),
            name,
            Part::Words("\n"),
        ],
    )?;
    for field in Field::ALL {
        push_field(text, alloc, model, papers, lists, field)?;
    }
    Ok(())
}

/// Appends the list of a field; version 1 of the text has none for line termination.
fn push_field<A: Allocator + Copy>(
    text: &mut Vec<u8, A>,
    alloc: A,
    model: Model,
    papers: &[Paper],
    lists: PanelLists,
    field: Field,
) -> Result<(), AllocError> {
    if field == Field::LineTerm {
        return Ok(());
    }
    let values = panel_values(alloc, model, papers, lists, field)?;
    push_values(text, field, &values)
}

/// Appends the line of a field: its key and its values.
fn push_values<A: Allocator>(
    text: &mut Vec<u8, A>,
    field: Field,
    values: &[u32],
) -> Result<(), AllocError> {
    text.extend_from_slice(field.key())?;
    for value in values {
        let part = if field.has_decimals() {
            Part::Amount(*value)
        } else {
            Part::Value(*value)
        };
        push_part(text, &part)?;
    }
    push(text, "\n")
}

/// Appends a line of a key and whole numbers.
fn push_list<A: Allocator>(
    text: &mut Vec<u8, A>,
    key: Key,
    values: &[u32],
) -> Result<(), AllocError> {
    text.extend_from_slice(key.word())?;
    push_numbers(text, values)?;
    push(text, "\n")
}

/// Appends whole numbers, each behind a space.
fn push_numbers<A: Allocator>(text: &mut Vec<u8, A>, numbers: &[u32]) -> Result<(), AllocError> {
    for number in numbers {
        push_number_word(text, *number)?;
    }
    Ok(())
}

/// Appends the lines on the device.
fn push_device<A: Allocator>(text: &mut Vec<u8, A>, row: &ModelRow) -> Result<(), AllocError> {
    push_list(text, Key::Trays, row.device_trays)?;
    push_list(text, Key::Duplex, &[u32::from(row.has_duplex)])?;
    push_list(text, Key::Memory, &[row.memory])
}

/// Appends the pages of a paper.
fn push_pages<A: Allocator>(text: &mut Vec<u8, A>, paper: Paper) -> Result<(), AllocError> {
    push_parts(
        text,
        &[
            Part::Words("# "),
            Part::Words(paper.word()),
            Part::Words("\n"),
        ],
    )?;
    for orientation in 0..ORIENTATIONS {
        push_list(text, Key::Page, &page_numbers(paper, orientation))?;
    }
    Ok(())
}

/// Appends the faces.
fn push_faces<A: Allocator + Copy>(
    text: &mut Vec<u8, A>,
    alloc: A,
    generation: Generation,
) -> Result<(), AllocError> {
    push_designs(text)?;
    let faces = faces_of(alloc, generation)?;
    for (index, face) in faces.iter().enumerate() {
        push_face(text, index + 1, *face)?;
    }
    Ok(())
}

/// Appends the comment that names the designs.
fn push_designs<A: Allocator>(text: &mut Vec<u8, A>) -> Result<(), AllocError> {
    let letter_gothic = Some(Typeface::BaseLetterGothic);
    push_design(text, "# ", Typeface::BaseCourier, Some(Typeface::Courier))?;
    push_design(text, ", ", Typeface::LinePrinter, None)?;
    push_design(text, " and ", Typeface::LetterGothic, letter_gothic)?;
    push(text, "\n")
}

/// Appends a design with its number, and the other number that it may have.
fn push_design<A: Allocator>(
    text: &mut Vec<u8, A>,
    before: &'static str,
    typeface: Typeface,
    other: Option<Typeface>,
) -> Result<(), AllocError> {
    let number = Part::Number(u64::from(typeface.number()));
    push_parts(
        text,
        &[
            Part::Words(before),
            Part::Words(typeface.name()),
            Part::Words(" ("),
            number,
        ],
    )?;
    if let Some(other) = other {
        push_parts(
            text,
            &[Part::Words(", "), Part::Number(u64::from(other.number()))],
        )?;
    }
    push(text, ")")
}

/// Appends the line of a face.
fn push_face<A: Allocator>(
    text: &mut Vec<u8, A>,
    id: usize,
    face: FaceRow,
) -> Result<(), AllocError> {
    let metrics = face.cut.metrics();
    push_parts(
        text,
        &[
            Part::Key(Key::Face),
            Part::Words(" "),
            Part::Number(id as u64),
            Part::Set(face.set),
            Part::Amount(metrics.pitch),
            Part::Amount(metrics.height),
            Part::Value(u32::from(face.look.style())),
            Part::Value(u32::from(face.look.weight())),
            Part::Value(u32::from(face.typeface.number())),
            Part::Value(metrics.advance),
            Part::Value(metrics.ascent),
            Part::Value(metrics.descent),
            Part::Codes(face.set),
            Part::Words("\n"),
        ],
    )
}

/// A part of a line.
#[derive(Clone, Copy)]
enum Part<'a> {
    Words(&'a str),
    Key(Key),
    Number(u64),
    /// A number behind a space.
    Value(u32),
    /// So many ten-thousandths behind a space.
    Amount(u32),
    /// A symbol set behind a space.
    Set(CharacterSet),
    /// The codes that print in a set, behind a space.
    Codes(CharacterSet),
}

/// Appends parts, one behind the other.
fn push_parts<A: Allocator>(text: &mut Vec<u8, A>, parts: &[Part<'_>]) -> Result<(), AllocError> {
    for part in parts {
        push_part(text, part)?;
    }
    Ok(())
}

/// Appends a part.
fn push_part<A: Allocator>(text: &mut Vec<u8, A>, part: &Part<'_>) -> Result<(), AllocError> {
    match part {
        Part::Words(words) => push(text, words),
        Part::Key(key) => text.extend_from_slice(key.word()),
        Part::Number(number) => push_number(text, *number),
        Part::Value(number) => push_number_word(text, *number),
        Part::Amount(amount) => push_amount_word(text, *amount),
        Part::Set(set) => push_set(text, *set),
        Part::Codes(set) => push_codes(text, *set),
    }
}

/// Appends a symbol set behind a space.
fn push_set<A: Allocator>(text: &mut Vec<u8, A>, set: CharacterSet) -> Result<(), AllocError> {
    let symbol_set = set.symbol_set();
    text.push(b' ')?;
    push_lettered(text, symbol_set.number, symbol_set.letter)
}

/// Appends the codes that print in a set, behind a space.
fn push_codes<A: Allocator>(text: &mut Vec<u8, A>, set: CharacterSet) -> Result<(), AllocError> {
    for (index, range) in set.codes().iter().enumerate() {
        text.push(if index == 0 { b' ' } else { b',' })?;
        push_range(text, *range)?;
    }
    Ok(())
}

/// Appends the first code of a range and the last.
fn push_range<A: Allocator>(text: &mut Vec<u8, A>, range: CodeRange) -> Result<(), AllocError> {
    push_number(text, u64::from(range.first))?;
    text.push(b'-')?;
    push_number(text, u64::from(range.last))
}

/// Appends a number behind a space.
fn push_number_word<A: Allocator>(text: &mut Vec<u8, A>, number: u32) -> Result<(), AllocError> {
    text.push(b' ')?;
    push_number(text, u64::from(number))
}

/// Appends so many ten-thousandths behind a space.
fn push_amount_word<A: Allocator>(text: &mut Vec<u8, A>, amount: u32) -> Result<(), AllocError> {
    text.push(b' ')?;
    push_amount(text, u64::from(amount))
}

/// Appends words.
fn push<A: Allocator>(text: &mut Vec<u8, A>, words: &str) -> Result<(), AllocError> {
    text.extend_from_slice(words.as_bytes())
}

/// Appends words, one behind the other.
fn push_all<A: Allocator>(text: &mut Vec<u8, A>, all: &[&str]) -> Result<(), AllocError> {
    for words in all {
        push(text, words)?;
    }
    Ok(())
}
