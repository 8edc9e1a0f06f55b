//! The words for the numbers of a profile.
ghost use Rattle.std.specs.Prelude.{◌≡◌, ◌++◌, OnOk};
ghost use Rattle.profile_show.specs.Words.{
  behind_space,
  cut_words,
  design_words,
  letter_size,
  lines_an_inch,
  numbered,
  orientation_name,
  orientation_words,
  paper_of,
  set_name,
  set_words,
  sides_name,
  size_words,
  style_words,
  termination_name,
  typeface_of,
  typeface_words,
  vmi_words,
  weight_words,
};

use crate::figures::{push_counted, push_signed_amount};
use device_profile::{FontRequest, NamedSet, SymbolSet};
use printer_models::{PAPERS, Paper, TYPEFACES, Typeface};
use shown_bytes::{push_amount, push_lettered, push_number};
use std::alloc::{AllocError, Allocator};

/// Appends a name, and its number in brackets.
pub(crate) fn push_numbered<A: Allocator>(
    text: &mut Vec<u8, A>,
    name: &[u8],
    number: u32,
) -> Result<(), AllocError>
    ensures { OnOk result (text.new.items ≡ text.old.items ++ numbered name.now number) }
{
    text.extend_from_slice(name)?;
    text.extend_from_slice(b" (")?;
    push_number(text, u64::from(number))?;
    text.extend_from_slice(b")")
}

/// The paper of a size.
#[tactic(auto, unfolding(crate::specs::Words::paper_of))]
fn paper_of(size: u32) -> Option<Paper>
    ensures { result ≡ paper_of size }
{
    PAPERS.iter().copied().find(|paper| paper.code() == size)
}

/// Appends a size by the name of its paper, where it has one.
#[tactic(auto, unfolding(crate::specs::Words::size_words))]
pub(crate) fn push_size<A: Allocator>(text: &mut Vec<u8, A>, size: u32) -> Result<(), AllocError>
    ensures { OnOk result (text.new.items ≡ text.old.items ++ size_words size) }
{
    match paper_of(size) {
        Some(paper) => push_numbered(text, paper.word().as_bytes(), size),
        None => {
            text.extend_from_slice(b"paper ")?;
            push_number(text, u64::from(size))
        }
    }
}

fn orientation_name(orientation: u32) -> &'static [u8]
    ensures { result.now ≡ orientation_name orientation }
{
    match orientation {
        0 => b"portrait",
        1 => b"landscape",
        2 => b"reverse portrait",
        _ => b"reverse landscape",
    }
}

/// Appends an orientation by its name.
pub(crate) fn push_orientation<A: Allocator>(
    text: &mut Vec<u8, A>,
    orientation: u32,
) -> Result<(), AllocError>
    ensures { OnOk result (text.new.items ≡ text.old.items ++ orientation_words orientation) }
{
    push_numbered(text, orientation_name(orientation), orientation)
}

/// What a VMI of 48/48 inch counts.
const INCH: u32 = 480_000;

/// Appends how many lines an inch has, where that is a whole number.
fn push_lines_an_inch<A: Allocator>(text: &mut Vec<u8, A>, vmi: u32) -> Result<(), AllocError>
    ensures { OnOk result (text.new.items ≡ text.old.items ++ lines_an_inch vmi) }
{
    if vmi == 0 || INCH % vmi != 0 {
        return Ok(());
    }
    text.extend_from_slice(b" (")?;
    push_counted(text, u64::from(INCH / vmi), b"line")?;
    text.extend_from_slice(b" an inch)")
}

/// Appends a VMI, in 1/48 inch.
pub(crate) fn push_vmi<A: Allocator>(text: &mut Vec<u8, A>, vmi: u32) -> Result<(), AllocError>
    ensures { OnOk result (text.new.items ≡ text.old.items ++ vmi_words vmi) }
{
    push_amount(text, u64::from(vmi))?;
    text.extend_from_slice(b"/48 inch")?;
    push_lines_an_inch(text, vmi)
}

/// The manual's words for the sides that are printed on.
pub(crate) fn sides_name(sides: u32) -> &'static [u8]
    ensures { result.now ≡ sides_name sides }
{
    match sides {
        0 => b"one side",
        1 => b"both sides, bound at the long edge",
        _ => b"both sides, bound at the short edge",
    }
}

/// What the printer makes of each control code, in the words of the manual's "Line Termination".
pub(crate) fn termination_name(termination: u32) -> &'static [u8]
    ensures { result.now ≡ termination_name termination }
{
    match termination {
        0 => b"CR=CR, LF=LF, FF=FF",
        1 => b"CR=CR+LF, LF=LF, FF=FF",
        2 => b"CR=CR, LF=CR+LF, FF=CR+FF",
        _ => b"CR=CR+LF, LF=CR+LF, FF=CR+FF",
    }
}

/// Appends a name behind a space, where there is one.
#[tactic(auto, unfolding(crate::specs::Words::behind_space))]
fn push_behind_space<A: Allocator>(text: &mut Vec<u8, A>, name: &[u8]) -> Result<(), AllocError>
    ensures { OnOk result (text.new.items ≡ text.old.items ++ behind_space name.now) }
{
    if name.is_empty() {
        return Ok(());
    }
    text.push(b' ')?;
    text.extend_from_slice(name)
}

/// Appends the name of a symbol set behind a space, where it has one.
#[tactic(auto, unfolding(crate::specs::Words::set_name))]
fn push_set_name<A: Allocator>(text: &mut Vec<u8, A>, set: SymbolSet) -> Result<(), AllocError>
    ensures { OnOk result (text.new.items ≡ text.old.items ++ set_name set) }
{
    match NamedSet::of(set) {
        Some(named) => push_behind_space(text, named.name()),
        None => Ok(()),
    }
}

/// Appends a symbol set by its number and letter, and its name.
#[tactic(auto, unfolding(crate::specs::Words::set_words))]
pub(crate) fn push_set<A: Allocator>(
    text: &mut Vec<u8, A>,
    set: SymbolSet,
) -> Result<(), AllocError>
    ensures { OnOk result (text.new.items ≡ text.old.items ++ set_words set) }
{
    push_lettered(text, set.number, set.letter)?;
    push_set_name(text, set)
}

/// The design of a number, in ten-thousandths.
#[tactic(auto, unfolding(crate::specs::Words::typeface_of))]
fn typeface_of(number: u32) -> Option<Typeface>
    ensures { result ≡ typeface_of number }
{
    TYPEFACES
        .iter()
        .copied()
        .find(|typeface| typeface.value() == number)
}

/// Appends a typeface by the name of its design, where it has one.
#[tactic(auto, unfolding(crate::specs::Words::typeface_words))]
fn push_typeface<A: Allocator>(text: &mut Vec<u8, A>, number: u32) -> Result<(), AllocError>
    ensures { OnOk result (text.new.items ≡ text.old.items ++ typeface_words number) }
{
    match typeface_of(number) {
        Some(known) => push_numbered(text, known.name().as_bytes(), u32::from(known.number())),
        None => {
            text.extend_from_slice(b"typeface ")?;
            push_amount(text, u64::from(number))
        }
    }
}

#[tactic(auto, unfolding(crate::specs::Words::style_words))]
fn push_style<A: Allocator>(text: &mut Vec<u8, A>, style: u32) -> Result<(), AllocError>
    ensures { OnOk result (text.new.items ≡ text.old.items ++ style_words style) }
{
    match style {
        0 => text.extend_from_slice(b"upright"),
        10_000 => text.extend_from_slice(b"italic"),
        _ => {
            text.extend_from_slice(b"style ")?;
            push_amount(text, u64::from(style))
        }
    }
}

#[tactic(auto, unfolding(crate::specs::Words::weight_words))]
fn push_weight<A: Allocator>(text: &mut Vec<u8, A>, weight: i32) -> Result<(), AllocError>
    ensures { OnOk result (text.new.items ≡ text.old.items ++ weight_words weight) }
{
    match weight {
        0 => text.extend_from_slice(b"medium"),
        30_000 => text.extend_from_slice(b"bold"),
        _ => {
            text.extend_from_slice(b"weight ")?;
            push_signed_amount(text, weight)
        }
    }
}

/// Appends all that selects a font but its symbol set.
#[tactic(auto, unfolding(crate::specs::Words::cut_words))]
pub(crate) fn push_cut<A: Allocator>(
    text: &mut Vec<u8, A>,
    request: &FontRequest,
) -> Result<(), AllocError>
    ensures { OnOk result (text.new.items ≡ text.old.items ++ cut_words request.now) }
{
    push_design(text, request)?;
    text.extend_from_slice(b", ")?;
    push_letter_size(text, request)
}

/// Appends the design of the letters.
#[tactic(auto, unfolding(crate::specs::Words::design_words))]
fn push_design<A: Allocator>(text: &mut Vec<u8, A>, request: &FontRequest) -> Result<(), AllocError>
    ensures { OnOk result (text.new.items ≡ text.old.items ++ design_words request.now) }
{
    push_typeface(text, request.typeface)?;
    text.extend_from_slice(b", ")?;
    push_style(text, request.style)?;
    text.extend_from_slice(b", ")?;
    push_weight(text, request.weight)
}

/// Appends how large the letters are.
#[tactic(auto, unfolding(crate::specs::Words::letter_size))]
fn push_letter_size<A: Allocator>(
    text: &mut Vec<u8, A>,
    request: &FontRequest,
) -> Result<(), AllocError>
    ensures { OnOk result (text.new.items ≡ text.old.items ++ letter_size request.now) }
{
    push_amount(text, u64::from(request.pitch))?;
    text.extend_from_slice(b" an inch, ")?;
    push_amount(text, u64::from(request.height))?;
    text.extend_from_slice(b" points")
}
