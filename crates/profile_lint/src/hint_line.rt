//! The line that is written for a hint.
ghost use Rattle.std.specs.Prelude.{◌≡◌, ◌++◌, OnOk, codes, decimal, flat_map};
ghost use Rattle.printer_models.specs.Face.{metrics_of};
ghost use Rattle.shown_bytes.specs.Shown.{shown};
ghost use Rattle.profile_lint.specs.HintLines.{advance_hint_words, area_hint_words, area_name};
ghost use Rattle.profile_lint.specs.HintLines.{area_words, code_hint_words, differ_words};
ghost use Rattle.profile_lint.specs.HintLines.{hint_line, hint_words, lack_words};
ghost use Rattle.profile_lint.specs.HintLines.{length_names, length_word, more_range_words};
ghost use Rattle.profile_lint.specs.HintLines.{number_hint_words, numbers_of, numbers_words};
ghost use Rattle.profile_lint.specs.HintLines.{own_words, page_place, paper_words, range_words};
ghost use Rattle.profile_lint.specs.HintLines.{ranges_words, several_words, table_words};

use crate::face_hints::advance_by;
use crate::hint::{Area, Hint, units_in};
use crate::key_rules::command_of;
use crate::shown::{push_number_in, push_numbers_in, push_word_in};
use device_profile::{CodeRange, Field, Geometry};
use printer_models::{CharacterSet, Cut, Paper, page_of};
use shown_bytes::{push_number, push_shown};
use std::alloc::{AllocError, Allocator};
use tick_length::Length;

/// Appends the line that tells a hint on the profile of a file: `FILE: hint: WORDS`.
///
/// Bytes of the file's name that show nothing stand there as `\xHH`. An error means that the
/// allocator refused a request.
#[tactic(auto, unfolding(crate::specs::HintLines::hint_line))]
pub fn push_hint<A: Allocator>(
    out: &mut Vec<u8, A>,
    file: &[u8],
    hint: Hint,
) -> Result<(), AllocError>
    ensures { OnOk result (out.new.items ≡ out.old.items ++ hint_line file.now hint) }
{
    push_hinted_file(out, file)?;
    push_hint_words(out, hint)?;
    out.extend_from_slice(b"\n")
}

/// Appends the name of a file, before a hint on it.
pub(crate) fn push_hinted_file<A: Allocator>(
    out: &mut Vec<u8, A>,
    file: &[u8],
) -> Result<(), AllocError>
    ensures { OnOk result
        (out.new.items ≡ out.old.items ++ (shown file.now ++ codes ": hint: ")) }
{
    push_shown(out, file)?;
    out.extend_from_slice(b": hint: ")
}

/// Appends what is unusual.
fn push_hint_words<A: Allocator>(out: &mut Vec<u8, A>, hint: Hint) -> Result<(), AllocError>
    ensures { OnOk result (out.new.items ≡ out.old.items ++ hint_words hint) }
{
    match hint {
        Hint::OtherArea { area, page, paper } => push_area_hint(out, area, &page, paper),
        Hint::OddAdvance {
            face,
            pitch,
            advance,
        } => push_advance_hint(out, face, pitch, advance),
        Hint::OtherNumbers {
            face,
            advance,
            ascent,
            descent,
            cut,
        } => {
            let own = Numbers {
                advance,
                ascent,
                descent,
            };
            push_number_hint(out, face, own, numbers_of(cut))
        }
        Hint::OtherCodes { face, set } => push_code_hint(out, face, set),
        Hint::SeveralValues(field) => {
            push_several_values(out, field)?;
            out.extend_from_slice(b", and hardly any does")
        }
        Hint::FixedPanel => out.extend_from_slice(
            b"each list has one value, which promises that nobody uses the panel",
        ),
    }
}

/// Appends an area of a page, and what the table of papers has for it.
fn push_area_hint<A: Allocator>(
    out: &mut Vec<u8, A>,
    area: Area,
    page: &Geometry,
    paper: Paper,
) -> Result<(), AllocError>
    ensures { OnOk result (out.new.items ≡ out.old.items ++ area_hint_words area page.now paper) }
{
    push_own_words(out, area, page)?;
    push_table_words(out, area, &page_of(paper, page.orientation), paper)
}

/// Appends what an area of a page is.
#[tactic(auto, unfolding(crate::specs::HintLines::own_words))]
fn push_own_words<A: Allocator>(
    out: &mut Vec<u8, A>,
    area: Area,
    page: &Geometry,
) -> Result<(), AllocError>
    ensures { OnOk result (out.new.items ≡ out.old.items ++ own_words area page.now) }
{
    push_page_place(out, page)?;
    out.extend_from_slice(area_name(area))?;
    out.extend_from_slice(b" is")?;
    push_area_words(out, area, page)?;
    out.extend_from_slice(b", but")
}

/// Appends what the table has for an area of a page of this paper.
#[tactic(auto, unfolding(crate::specs::HintLines::table_words))]
fn push_table_words<A: Allocator>(
    out: &mut Vec<u8, A>,
    area: Area,
    page: &Geometry,
    paper: Paper,
) -> Result<(), AllocError>
    ensures { OnOk result (out.new.items ≡ out.old.items ++ table_words area page.now paper) }
{
    push_area_words(out, area, page)?;
    push_paper_words(out, area, paper)?;
    out.extend_from_slice(b" in 1/7200 inch)")
}

/// Appends which page a hint is on.
#[tactic(auto, unfolding(crate::specs::HintLines::page_place))]
fn push_page_place<A: Allocator>(out: &mut Vec<u8, A>, page: &Geometry) -> Result<(), AllocError>
    ensures { OnOk result (out.new.items ≡ out.old.items ++ page_place page.now) }
{
    push_numbers_in(
        out,
        b"geometry ",
        page.size,
        b" ",
        page.orientation,
        b": the ",
    )
}

/// The name of an area.
fn area_name(area: Area) -> &'static [u8]
    ensures { result.now ≡ area_name area }
{
    match area {
        Area::Physical => b"physical page",
        Area::Logical => b"logical page",
        Area::Printable => b"printable area",
    }
}

/// What the lengths of an area are.
fn length_names(area: Area) -> &'static [u8]
    ensures { result.now ≡ length_names area }
{
    match area {
        Area::Physical => b"width and height",
        Area::Logical => b"left, top, width and height",
        Area::Printable => b"left, top, right and bottom",
    }
}

/// Appends the lengths of an area.
#[tactic(auto, unfolding(crate::specs::HintLines::area_words))]
fn push_area_words<A: Allocator>(
    out: &mut Vec<u8, A>,
    area: Area,
    page: &Geometry,
) -> Result<(), AllocError>
    ensures { OnOk result (out.new.items ≡ out.old.items ++ area_words area page.now) }
{
    match area {
        Area::Physical => push_lengths(out, &[page.page_width, page.page_height]),
        Area::Logical => push_lengths(
            out,
            &[
                page.logical_left,
                page.logical_top,
                page.logical_width,
                page.logical_height,
            ],
        ),
        Area::Printable => push_lengths(
            out,
            &[
                page.printable_left,
                page.printable_top,
                page.printable_right,
                page.printable_bottom,
            ],
        ),
    }
}

/// Appends lengths in whole 7200ths of an inch, each behind a space.
fn push_lengths<A: Allocator>(out: &mut Vec<u8, A>, lengths: &[Length]) -> Result<(), AllocError>
    ensures { OnOk result (out.new.items ≡ out.old.items ++ flat_map length_word lengths.now) }
{
    for length in lengths {
        push_length_word(out, *length)?;
    }
    Ok(())
}

/// Appends a length in whole 7200ths of an inch, behind a space.
#[tactic(auto, unfolding(crate::specs::HintLines::length_word))]
fn push_length_word<A: Allocator>(out: &mut Vec<u8, A>, length: Length) -> Result<(), AllocError>
    ensures { OnOk result (out.new.items ≡ out.old.items ++ length_word length) }
{
    out.push(b' ')?;
    push_number(out, units_in(length))
}

/// Appends of which paper the table has other lengths, and what these are.
#[tactic(auto, unfolding(crate::specs::HintLines::paper_words))]
fn push_paper_words<A: Allocator>(
    out: &mut Vec<u8, A>,
    area: Area,
    paper: Paper,
) -> Result<(), AllocError>
    ensures { OnOk result (out.new.items ≡ out.old.items ++ paper_words area paper) }
{
    let behind = b" paper in the table of papers (";
    push_word_in(
        out,
        b" on ",
        paper.word().as_bytes(),
        behind,
        length_names(area),
    )
}

/// Appends an advance, and what it is by the pitch.
fn push_advance_hint<A: Allocator>(
    out: &mut Vec<u8, A>,
    face: u32,
    pitch: u32,
    advance: u64,
) -> Result<(), AllocError>
    ensures { OnOk result
        (out.new.items ≡ out.old.items ++ advance_hint_words face pitch advance) }
{
    push_number_in(out, b"face ", face, b": a character advances by ")?;
    push_advance(out, advance, b", but by its pitch it is ")?;
    push_advance(out, advance_by(pitch), b" in 1/7200 inch")
}

/// Appends an advance, and what follows.
fn push_advance<A: Allocator>(
    out: &mut Vec<u8, A>,
    advance: u64,
    behind: &[u8],
) -> Result<(), AllocError>
    ensures { OnOk result
        (out.new.items ≡ out.old.items ++ (decimal advance ++ behind.now)) }
{
    push_number(out, advance)?;
    out.extend_from_slice(behind)
}

/// Appends why it matters that a face is not that of the table.
#[tactic(auto, unfolding(crate::specs::HintLines::differ_words))]
fn push_differ<A: Allocator>(out: &mut Vec<u8, A>) -> Result<(), AllocError>
    ensures { OnOk result (out.new.items ≡ out.old.items ++ differ_words) }
{
    out.extend_from_slice(
        b" for its pitch, height and typeface in the table of faces: its letters will differ (33) \
        from those of profiles that 'profile new' writes",
    )
}

/// Appends why it matters that the codes of a face are not those of the table.
#[tactic(auto, unfolding(crate::specs::HintLines::lack_words))]
fn push_lack<A: Allocator>(out: &mut Vec<u8, A>) -> Result<(), AllocError>
    ensures { OnOk result (out.new.items ≡ out.old.items ++ lack_words) }
{
    out.extend_from_slice(
        b" of its symbol set in the table of faces: a job with a letter that it lacks fails (14)",
    )
}

/// How the characters of a face lie, in 1/7200 inch.
#[derive(Clone, Copy)]
struct Numbers {
    advance: u64,
    ascent: u64,
    descent: u64,
}

/// The numbers of a cut.
fn numbers_of(cut: Cut) -> Numbers
    ensures { result ≡ numbers_of (metrics_of cut) }
{
    let metrics = cut.metrics();
    Numbers {
        advance: u64::from(metrics.advance),
        ascent: u64::from(metrics.ascent),
        descent: u64::from(metrics.descent),
    }
}

/// Appends the numbers of a face, and those that the table of faces has.
fn push_number_hint<A: Allocator>(
    out: &mut Vec<u8, A>,
    face: u32,
    own: Numbers,
    wanted: Numbers,
) -> Result<(), AllocError>
    ensures { OnOk result
        (out.new.items ≡ out.old.items ++ number_hint_words face own wanted) }
{
    push_number_in(out, b"face ", face, b": advance, ascent and descent are ")?;
    push_numbers(out, own)?;
    out.extend_from_slice(b", but ")?;
    push_numbers(out, wanted)?;
    push_differ(out)
}

/// Appends how characters lie.
#[tactic(auto, unfolding(crate::specs::HintLines::numbers_words))]
fn push_numbers<A: Allocator>(out: &mut Vec<u8, A>, numbers: Numbers) -> Result<(), AllocError>
    ensures { OnOk result (out.new.items ≡ out.old.items ++ numbers_words numbers) }
{
    push_number(out, numbers.advance)?;
    out.extend_from_slice(b" ")?;
    push_number(out, numbers.ascent)?;
    out.extend_from_slice(b" ")?;
    push_number(out, numbers.descent)
}

/// Appends that the table of faces has other codes for a symbol set.
fn push_code_hint<A: Allocator>(
    out: &mut Vec<u8, A>,
    face: u32,
    set: CharacterSet,
) -> Result<(), AllocError>
    ensures { OnOk result (out.new.items ≡ out.old.items ++ code_hint_words face set) }
{
    push_number_in(out, b"face ", face, b": its codes are not the ")?;
    push_ranges(out, set.codes())?;
    push_lack(out)
}

/// Appends ranges of codes, with commas between.
#[tactic(auto, unfolding(crate::specs::HintLines::ranges_words))]
fn push_ranges<A: Allocator>(out: &mut Vec<u8, A>, ranges: &[CodeRange]) -> Result<(), AllocError>
    ensures { OnOk result (out.new.items ≡ out.old.items ++ ranges_words ranges.now) }
{
    match ranges {
        [] => Ok(()),
        [range, more @ ..] => {
            push_range(out, *range)?;
            push_more_ranges(out, more)
        }
    }
}

/// Appends ranges of codes, each behind a comma.
fn push_more_ranges<A: Allocator>(
    out: &mut Vec<u8, A>,
    ranges: &[CodeRange],
) -> Result<(), AllocError>
    ensures { OnOk result
        (out.new.items ≡ out.old.items ++ flat_map more_range_words ranges.now) }
{
    for range in ranges {
        push_more_range(out, *range)?;
    }
    Ok(())
}

/// Appends a range of codes behind a comma.
#[tactic(auto, unfolding(crate::specs::HintLines::more_range_words))]
fn push_more_range<A: Allocator>(out: &mut Vec<u8, A>, range: CodeRange) -> Result<(), AllocError>
    ensures { OnOk result (out.new.items ≡ out.old.items ++ more_range_words range) }
{
    out.push(b',')?;
    push_range(out, range)
}

/// Appends a range of codes.
#[tactic(auto, unfolding(crate::specs::HintLines::range_words))]
fn push_range<A: Allocator>(out: &mut Vec<u8, A>, range: CodeRange) -> Result<(), AllocError>
    ensures { OnOk result (out.new.items ≡ out.old.items ++ range_words range) }
{
    push_number(out, u64::from(range.first))?;
    out.extend_from_slice(b"-")?;
    push_number(out, u64::from(range.last))
}

/// Appends that a field has several values.
#[tactic(auto, unfolding(crate::specs::HintLines::several_words))]
fn push_several_values<A: Allocator>(out: &mut Vec<u8, A>, field: Field) -> Result<(), AllocError>
    ensures { OnOk result (out.new.items ≡ out.old.items ++ several_words field) }
{
    let behind = b"' has several values: each job has to send ";
    push_word_in(out, b"'", field.key(), behind, command_of(field))
}
