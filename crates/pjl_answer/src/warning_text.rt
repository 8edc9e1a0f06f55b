//! The lines in which a user is warned.
ghost use Rattle.std.specs.Prelude.{◌≡◌, ◌++◌, OnOk};
ghost use Rattle.pjl_answer.specs.Warning.{note_words, shown_value, variable_at, warning_at};
ghost use Rattle.pjl_answer.specs.Warning.{warning_line, warning_lines, warning_words};

use crate::entry::entry_of;
use crate::variable::Variable;
use crate::warning::{PjlNote, Warning};
use shown_bytes::{push_number, push_shown};
use std::alloc::{AllocError, Allocator};

impl PjlNote {
    /// The note in words.
    fn words(self) -> &'static str
        ensures { result.now ≡ note_words self }
    {
        match self {
            PjlNote::NotUnderstood => "not understood; the profile keeps its list",
            PjlNote::NotHeld =>
                "the profile has nothing that goes with it, or the answer lacks a line that it needs; it keeps its list",
            PjlNote::MeasureLines => "the line spacing is reckoned from it; measure ten lines",
            PjlNote::WideA4 => "the A4 pages have to be those of 80 columns",
            PjlNote::EdgeToEdge => "the printable area is larger than the pages say",
            PjlNote::A4WithLetter => "A4 may come out on letter paper, and letter on A4",
            PjlNote::AppendsReturn => "CR is added to LF; no profile can say that",
            PjlNote::UnknownSwitch => "not understood; see at the printer whether it is on",
            PjlNote::FreePanel => {
                "anyone can change the panel; each list promises that nobody does"
            }
            PjlNote::OtherLanguage => "the printer may not read a job as PCL",
            PjlNote::WholeMemory => "bytes in all; what macros may take is not told",
        }
    }
}

/// Of a value at most so many bytes are shown.
const MOST_SHOWN: usize = 16;

/// Appends what is shown of a value.
fn push_shown_value<A: Allocator>(text: &mut Vec<u8, A>, value: &[u8]) -> Result<(), AllocError>
    ensures { OnOk result (text.new.items ≡ text.old.items ++ shown_value value.now) }
{
    if value.len() <= MOST_SHOWN {
        return push_shown(text, value);
    }
    push_shown(text, &value[..MOST_SHOWN])?;
    text.extend_from_slice(b"..")
}

/// Appends the number of a line of the answer, and the variable that it gives.
#[tactic(auto, unfolding(crate::specs::Warning::variable_at))]
fn push_variable_at<A: Allocator>(
    text: &mut Vec<u8, A>,
    variable: Variable,
    line: u64,
) -> Result<(), AllocError>
    ensures { OnOk result (text.new.items ≡ text.old.items ++ variable_at variable line) }
{
    text.extend_from_slice(b"line ")?;
    push_number(text, line)?;
    text.extend_from_slice(b": ")?;
    text.extend_from_slice(variable.word().as_bytes())
}

/// Appends a warning of a value that stands in the line of this number.
#[tactic(auto, unfolding(crate::specs::Warning::warning_at))]
fn push_warning_at<A: Allocator>(
    text: &mut Vec<u8, A>,
    warning: Warning,
    line: u64,
    value: &[u8],
) -> Result<(), AllocError>
    ensures { OnOk result
        (text.new.items ≡ text.old.items ++ warning_at warning (line, value.now)) }
{
    push_variable_at(text, warning.variable, line)?;
    text.extend_from_slice(b"=")?;
    push_shown_value(text, value)?;
    text.extend_from_slice(b": ")?;
    text.extend_from_slice(warning.note.words().as_bytes())
}

/// Appends a warning of an answer.
fn push_warning<A: Allocator>(
    text: &mut Vec<u8, A>,
    answer: &[u8],
    warning: Warning,
) -> Result<(), AllocError>
    ensures { OnOk result
        (text.new.items ≡ text.old.items ++ warning_words answer.now warning) }
{
    match entry_of(answer, warning.variable) {
        Some((line, value)) => push_warning_at(text, warning, line, value),
        None => Ok(()),
    }
}

/// Appends the line of a warning, behind what it begins with.
fn push_warning_line<A: Allocator>(
    text: &mut Vec<u8, A>,
    start: &[u8],
    answer: &[u8],
    warning: Warning,
) -> Result<(), AllocError>
    ensures { OnOk result
        (text.new.items ≡ text.old.items ++ warning_line start.now answer.now warning) }
{
    text.extend_from_slice(start)?;
    push_warning(text, answer, warning)?;
    text.extend_from_slice(b"\n")
}

/// Appends the lines of warnings, each behind what it begins with.
pub(crate) fn push_warning_lines<A: Allocator>(
    text: &mut Vec<u8, A>,
    start: &[u8],
    answer: &[u8],
    all: &[Warning],
) -> Result<(), AllocError>
    ensures { OnOk result
        (text.new.items ≡ text.old.items ++ warning_lines start.now answer.now all.now) }
{
    for warning in all {
        push_warning_line(text, start, answer, *warning)?;
    }
    Ok(())
}
