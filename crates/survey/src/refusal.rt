//! What the language refuses, and where.

ghost use Rattle.std.specs.Prelude.{◌≡◌};
ghost use Rattle.verdict.specs.Numbers.{cause_number};
ghost use Rattle.survey.specs.declared.refusal.Spelled.TheVariants.{
  Control,
  Grouped,
  Instruction,
  Line,
  Sequence,
  Ungrouped,
};
ghost use Rattle.survey.specs.Refusals.{is_same, is_same_spelling};

use pcl_items::{LexCause, Place};
use verdict::Reason;

/// How the bytes are spelled that are refused, but for numbers, data and texts.
#[derive(Clone, Copy)]
pub enum Spelled {
    /// A control code.
    Control(u8),
    /// ESC and a character.
    Sequence(u8),
    /// ESC, an introducer, a group character, a value field, and a termination character, which
    /// stands here for the parameter character, too.
    Grouped(u8, u8, u8),
    /// The same without a group character.
    Ungrouped(u8, u8),
    /// ESC, and bytes behind it that come to no such end.
    Unended,
    /// An instruction of HP-GL/2, by its letters as capitals.
    Instruction(u8, u8),
    /// Bytes between the instructions of a frame.
    FrameBytes,
    /// A line of the job language, by the number of its words among those of lines that are named.
    Line(usize),
    /// The end of the job, within what stands there.
    End,
}

/// Bytes that are refused, why, and the number of bytes before them.
#[derive(Clone, Copy)]
pub struct Refusal {
    pub cause: LexCause,
    pub spelled: Spelled,
    pub place: Place,
}

impl Refusal {
    /// Whether they are spelled alike and refused for the same kind of fault.
    pub fn is_same(self, other: Refusal) -> bool
        ensures { result ≡ is_same self other }
    {
        number_of(self.cause) == number_of(other.cause)
            && is_same_spelling(self.spelled, other.spelled)
    }
}

/// The number of a fault.
fn number_of(cause: LexCause) -> u8
    ensures { result ≡ cause_number cause }
{
    Reason::Fault(cause).number()
}

fn is_same_spelling(one: Spelled, other: Spelled) -> bool
    ensures { result ≡ is_same_spelling one other }
{
    match one {
        Spelled::Control(code) => is_control(code, other),
        Spelled::Sequence(character) => is_sequence(character, other),
        Spelled::Grouped(introducer, group, letter) => {
            is_grouped(introducer, group, letter, other)
        }
        Spelled::Ungrouped(introducer, letter) => is_ungrouped(introducer, letter, other),
        Spelled::Unended => matches!(other, Spelled::Unended),
        Spelled::Instruction(first, second) => is_instruction(first, second, other),
        Spelled::FrameBytes => matches!(other, Spelled::FrameBytes),
        Spelled::Line(number) => is_line(number, other),
        Spelled::End => matches!(other, Spelled::End),
    }
}

fn is_control(code: u8, other: Spelled) -> bool
    ensures { result ≡ is_same_spelling (Control code) other }
{
    match other {
        Spelled::Control(own) => code == own,
        _ => false,
    }
}

fn is_sequence(character: u8, other: Spelled) -> bool
    ensures { result ≡ is_same_spelling (Sequence character) other }
{
    match other {
        Spelled::Sequence(own) => character == own,
        _ => false,
    }
}

fn is_grouped(introducer: u8, group: u8, letter: u8, other: Spelled) -> bool
    ensures { result ≡ is_same_spelling (Grouped introducer group letter) other }
{
    match other {
        Spelled::Grouped(a, b, c) => introducer == a && group == b && letter == c,
        _ => false,
    }
}

fn is_ungrouped(introducer: u8, letter: u8, other: Spelled) -> bool
    ensures { result ≡ is_same_spelling (Ungrouped introducer letter) other }
{
    match other {
        Spelled::Ungrouped(a, b) => introducer == a && letter == b,
        _ => false,
    }
}

fn is_instruction(first: u8, second: u8, other: Spelled) -> bool
    ensures { result ≡ is_same_spelling (Instruction first second) other }
{
    match other {
        Spelled::Instruction(a, b) => first == a && second == b,
        _ => false,
    }
}

fn is_line(number: usize, other: Spelled) -> bool
    ensures { result ≡ is_same_spelling (Line number) other }
{
    match other {
        Spelled::Line(own) => number == own,
        _ => false,
    }
}
