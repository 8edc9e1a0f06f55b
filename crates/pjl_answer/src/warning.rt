//! What a user is warned of in a printer's answer.
ghost use Rattle.std.specs.Prelude.{◌≡◌, ◌++◌, find, IfOk, OnOk};
ghost use Rattle.std.specs.List.{filter_map};
ghost use Rattle.std.specs.Option.{option_to_list};
ghost use Rattle.pjl_answer.specs.Warning.{blame, by_line, field_warning, is_before, is_wrong};
ghost use Rattle.pjl_answer.specs.Warning.{line_of, note_if, note_of, placed, switch_note};
ghost use Rattle.pjl_answer.specs.Warning.{value_warning, variables_of, warning, warnings};
ghost use Rattle.pjl_answer.specs.Answer.{is_given};

use crate::entry::{entry_of, is_given, value_of};
use crate::told_values::{is_vmi_rounded, told};
use crate::values::is_understood;
use crate::variable::{VARIABLES, Variable};
use device_profile::{Field, Profile};
use std::alloc::{AllocError, Allocator};

/// What is to be known of a variable's value.
#[derive(Clone, Copy)]
pub enum PjlNote {
    /// The value is not known, and the profile keeps its list.
    NotUnderstood,
    /// The profile has no pages, face, trays or sides that go with the value, or the answer does
    /// not tell all that is needed; the profile keeps its list.
    NotHeld,
    /// The vertical motion index is rounded.
    MeasureLines,
    /// A4 is printed with 80 columns.
    WideA4,
    /// The printable area is larger than the profile's.
    EdgeToEdge,
    /// A4 is printed on letter paper, and letter on A4.
    A4WithLetter,
    /// LF is carried out as CR and LF, and FF is not changed.
    AppendsReturn,
    /// The value of a switch is neither YES nor NO.
    UnknownSwitch,
    /// The panel is not locked.
    FreePanel,
    /// The printer's language is neither PCL nor chosen by the job.
    OtherLanguage,
    /// This is all memory, of which macros may take a part.
    WholeMemory,
}

/// A variable of an answer, and what is to be known of its value.
#[derive(Clone, Copy)]
pub struct Warning {
    pub variable: Variable,
    pub note: PjlNote,
}

impl Warning {
    fn new(variable: Variable, note: PjlNote) -> Warning
        ensures { result ≡ warning variable note }
    {
        Warning { variable, note }
    }
}

const FONT_VARIABLES: &[Variable] = &[
    Variable::FontSource,
    Variable::FontNumber,
    Variable::SymbolSet,
    Variable::Pitch,
];

/// The variables that tell of a field.
fn variables_of(field: Field) -> &'static [Variable]
    ensures { result.now ≡ variables_of field }
{
    match field {
        Field::Size => &[Variable::Paper],
        Field::Orientation => &[Variable::Orientation],
        Field::Vmi => &[Variable::FormLines],
        Field::Font => FONT_VARIABLES,
        Field::Copies => &[Variable::Copies],
        Field::Sides => &[Variable::Duplex, Variable::Binding],
        Field::Tray => &[Variable::ManualFeed, Variable::MpTray],
        Field::LineTerm => &[Variable::LineTermination],
    }
}

/// Whether a variable is given, and its value is not known.
fn is_wrong(answer: &[u8], variable: Variable) -> bool
    ensures { result ≡ is_wrong answer.now variable }
{
    match value_of(answer, variable) {
        Some(value) => !is_understood(variable, value),
        None => false,
    }
}

/// The first of these variables whose value is not known.
fn first_wrong(answer: &[u8], variables: &[Variable]) -> Option<Variable>
    ensures { result ≡ find (is_wrong answer.now) variables.now }
{
    variables
        .iter()
        .copied()
        .find(|variable| is_wrong(answer, *variable))
}

/// The first of these variables that is given.
fn first_given(answer: &[u8], variables: &[Variable]) -> Option<Variable>
    ensures { result ≡ find (is_given answer.now) variables.now }
{
    variables
        .iter()
        .copied()
        .find(|variable| is_given(answer, *variable))
}

/// Of a field's variables the first whose value is not known, else the first that is given.
fn blame(answer: &[u8], field: Field) -> Option<Warning>
    ensures { result ≡ blame answer.now field }
{
    let variables = variables_of(field);
    match first_wrong(answer, variables) {
        Some(variable) => Some(Warning::new(variable, PjlNote::NotUnderstood)),
        None => Some(Warning::new(first_given(answer, variables)?, PjlNote::NotHeld)),
    }
}

/// What is warned of where a field is given, and not told.
fn field_warning<A: Allocator>(base: &Profile<A>, answer: &[u8], field: Field) -> Option<Warning>
    ensures { result ≡ field_warning base.now answer.now field }
{
    match told(base, answer, field) {
        Some(_) => None,
        None => blame(answer, field),
    }
}

/// The note, where it holds.
fn note_if(note: PjlNote, holds: bool) -> Option<PjlNote>
    ensures { result ≡ note_if note holds }
{
    if holds { Some(note) } else { None }
}

/// What is to be known of a switch that is on, or that is neither on nor off.
fn switch_note(note: PjlNote, value: &[u8]) -> Option<PjlNote>
    ensures { result ≡ switch_note note value.now }
{
    if value == b"YES".as_slice() {
        Some(note)
    } else {
        note_if(PjlNote::UnknownSwitch, value != b"NO".as_slice())
    }
}

/// What is to be known of a value.
fn note_of(answer: &[u8], variable: Variable, value: &[u8]) -> Option<PjlNote>
    ensures { result ≡ note_of answer.now variable value.now }
{
    match variable {
        Variable::FormLines => note_if(PjlNote::MeasureLines, is_vmi_rounded(answer)),
        Variable::WideA4 => switch_note(PjlNote::WideA4, value),
        Variable::EdgeToEdge => switch_note(PjlNote::EdgeToEdge, value),
        Variable::OverrideA4WithLetter => switch_note(PjlNote::A4WithLetter, value),
        Variable::AppendCrToLf => switch_note(PjlNote::AppendsReturn, value),
        Variable::PanelLock => note_if(
            PjlNote::FreePanel,
            value == b"OFF".as_slice() || value == b"NONE".as_slice(),
        ),
        Variable::Personality => note_if(
            PjlNote::OtherLanguage,
            !(value == b"AUTO".as_slice() || value == b"PCL".as_slice()),
        ),
        Variable::Memory => Some(PjlNote::WholeMemory),
        Variable::Paper
        | Variable::Orientation
        | Variable::FontSource
        | Variable::FontNumber
        | Variable::SymbolSet
        | Variable::Pitch
        | Variable::Copies
        | Variable::Duplex
        | Variable::Binding
        | Variable::ManualFeed
        | Variable::MpTray
        | Variable::LineTermination => None,
    }
}

/// What is warned of in the value of a variable.
fn value_warning(answer: &[u8], variable: Variable) -> Option<Warning>
    ensures { result ≡ value_warning answer.now variable }
{
    let note = note_of(answer, variable, value_of(answer, variable)?)?;
    Some(Warning::new(variable, note))
}

/// All warnings of an answer, for the profile that it is put into: of fields that are given and
/// not told, and of values, in the order of the answer's lines.
///
/// An error means that the allocator refused a request.
pub fn warnings<A: Allocator + Copy, B: Allocator>(
    alloc: A,
    base: &Profile<B>,
    answer: &[u8],
) -> Result<Vec<Warning, A>, AllocError>
    ensures { IfOk result (λ all. all.items ≡ warnings base.now answer.now) }
{
    let mut found = Vec::new(alloc);
    push_field_warnings(&mut found, base, answer, &Field::ALL)?;
    push_value_warnings(&mut found, answer, &VARIABLES)?;
    let all = in_order(alloc, answer, &found)?;
    Ok(all)
}

/// The number of the line that gives a warning's variable; 0 where none does.
fn line_of(answer: &[u8], it: Warning) -> u64
    ensures { result ≡ line_of answer.now it }
{
    match entry_of(answer, it.variable) {
        Some((line, _)) => line,
        None => 0,
    }
}

/// Whether the line of a warning stands before that of another.
fn is_before(answer: &[u8], a: Warning, b: Warning) -> bool
    ensures { result ≡ is_before answer.now a b }
{
    line_of(answer, a) < line_of(answer, b)
}

/// Warnings in the order of their lines; those of one line stay as they stand.
fn in_order<A: Allocator + Copy>(
    alloc: A,
    answer: &[u8],
    found: &[Warning],
) -> Result<Vec<Warning, A>, AllocError>
    ensures { IfOk result (λ all. all.items ≡ by_line answer.now found.now) }
{
    match found {
        [] => Ok(Vec::new(alloc)),
        [it, more @ ..] => {
            let others = in_order(alloc, answer, more)?;
            let mut all = Vec::new(alloc);
            push_placed(&mut all, answer, *it, others.as_slice())?;
            Ok(all)
        }
    }
}

/// Appends others with one more, which stands behind those of lines before its own.
fn push_placed<A: Allocator>(
    all: &mut Vec<Warning, A>,
    answer: &[u8],
    it: Warning,
    others: &[Warning],
) -> Result<(), AllocError>
    ensures { OnOk result (all.new.items
        ≡ all.old.items ++ placed answer.now it others.now) }
{
    match others {
        [] => {
            all.push(it)?;
            Ok(())
        }
        [other, more @ ..] if is_before(answer, *other, it) => {
            all.push(*other)?;
            push_placed(all, answer, it, more)
        }
        _ => {
            all.push(it)?;
            all.extend_from_slice(others)
        }
    }
}

/// Appends a warning, where there is one.
fn push_some<A: Allocator>(
    all: &mut Vec<Warning, A>,
    warning: Option<Warning>,
) -> Result<(), AllocError>
    ensures { OnOk result (all.new.items ≡ all.old.items ++ option_to_list warning) }
{
    if let Some(warning) = warning {
        all.push(warning)?;
    }
    Ok(())
}

/// Appends the warnings of these fields.
fn push_field_warnings<A: Allocator, B: Allocator>(
    all: &mut Vec<Warning, A>,
    base: &Profile<B>,
    answer: &[u8],
    fields: &[Field],
) -> Result<(), AllocError>
    ensures { OnOk result (all.new.items
        ≡ all.old.items ++ filter_map (field_warning base.now answer.now) fields.now) }
{
    for field in fields {
        push_some(all, field_warning(base, answer, *field))?;
    }
    Ok(())
}

/// Appends the warnings of the values of these variables.
fn push_value_warnings<A: Allocator>(
    all: &mut Vec<Warning, A>,
    answer: &[u8],
    variables: &[Variable],
) -> Result<(), AllocError>
    ensures { OnOk result (all.new.items
        ≡ all.old.items ++ filter_map (value_warning answer.now) variables.now) }
{
    for variable in variables {
        push_some(all, value_warning(answer, *variable))?;
    }
    Ok(())
}
