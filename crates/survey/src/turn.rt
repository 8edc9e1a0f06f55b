//! What comes of a fault: what is told at once, and what is passed over next.

ghost use Rattle.std.specs.Prelude.{◌≡◌, ◌≤◌};
ghost use Rattle.pcl_lexer.specs.Lexing.Contexts.{counted};
ghost use Rattle.pcl_lexer.specs.Lexing.FirstView.{context_view, numbers_view};
ghost use Rattle.survey.specs.Turns.{
  by_cause,
  fault_turn,
  in_frame,
  in_lines,
  in_page,
  in_parameters,
  in_sequence,
  letters_before,
  passing_at,
};

use crate::named_line::NamedLine;
use crate::part::{Count, Home, Onto, Part, Passing, Turn};
use crate::pass::{ends, goes_on};
use crate::refusal::{Refusal, Spelled};
use pcl_items::{Group, LexCause, Mnemonic, Name, Place};
use pcl_lexer::{Context, Numbers};

/// What comes of a fault behind this, where so many bytes stand before the byte at which it is
/// seen.
pub fn fault_turn(context: Context, cause: LexCause, place: Place, byte: u8) -> Turn
    requires { counted (context_view context) ≤ place }
    ensures { result ≡ fault_turn (context_view context) cause place byte }
{
    match context {
        Context::Pcl => in_page(cause, place, byte),
        Context::Sequence(group) => in_sequence(group, cause, place),
        Context::Frame => in_frame(cause, place, byte),
        Context::Letters(mnemonic, _) => {
            in_parameters(mnemonic.letters(), cause, context.item_place(place))
        }
        Context::Numbered(numbers, _, _) => {
            in_parameters(letters_before(numbers), cause, context.item_place(place))
        }
        Context::Pjl => in_lines(cause, place, byte),
    }
}

fn passing_at(cause: LexCause, home: Home, begun: Place) -> Passing
    ensures { result ≡ passing_at cause home begun }
{
    Passing { cause, home, begun }
}

/// In mode PCL: an escape sequence, or a control code.
fn in_page(cause: LexCause, place: Place, byte: u8) -> Turn
    ensures { result ≡ in_page cause place byte }
{
    let passing = passing_at(cause, Home::Page, place);
    match byte {
        b'\x1b' => goes_on(Part::Escape(passing)),
        _ => ends(passing, Spelled::Control(byte), Onto::Page),
    }
}

/// Where a line of the job language may stand.
fn in_lines(cause: LexCause, place: Place, byte: u8) -> Turn
    ensures { result ≡ in_lines cause place byte }
{
    match byte {
        b'@' => {
            let passing = passing_at(cause, Home::Page, place);
            goes_on(Part::Line(passing, 0, NamedLine::none()))
        }
        _ => in_page(cause, place, byte),
    }
}

/// In a combined sequence of a group, at the value field of a command.
fn in_sequence(group: Group, cause: LexCause, place: Place) -> Turn
    ensures { result ≡ in_sequence group cause place }
{
    let passing = passing_at(cause, Home::Page, place);
    let (introducer, character) = (group.introducer(), group.character());
    let part = Part::Grouped(passing, introducer, character, Count::none());
    Turn {
        is_taken: false,
        told: None,
        onto: Onto::Part(part),
    }
}

/// Between the instructions of a frame: an escape sequence, an instruction, or other bytes.
fn in_frame(cause: LexCause, place: Place, byte: u8) -> Turn
    ensures { result ≡ in_frame cause place byte }
{
    let passing = passing_at(cause, Home::Frame, place);
    match byte {
        b'\x1b' => goes_on(Part::Escape(passing)),
        _ => by_cause(cause, passing),
    }
}

/// The cause has the letters of an instruction, where one stands there.
fn by_cause(cause: LexCause, passing: Passing) -> Turn
    ensures { result ≡ by_cause cause passing }
{
    match cause {
        LexCause::NotInProfile(Name::Pair(first, second)) => {
            let onto = Onto::Part(Part::Second(first, second));
            ends(passing, Spelled::Instruction(first, second), onto)
        }
        _ => ends(passing, Spelled::FrameBytes, Onto::Part(Part::Numbers)),
    }
}

/// Within the numbers of an instruction of these letters.
fn in_parameters(letters: (u8, u8), cause: LexCause, begun: Place) -> Turn
    ensures { result ≡ in_parameters letters cause begun }
{
    let (first, second) = letters;
    let told = Refusal {
        cause,
        spelled: Spelled::Instruction(first, second),
        place: begun,
    };
    Turn {
        is_taken: false,
        told: Some(told),
        onto: Onto::Part(Part::Numbers),
    }
}

/// The letters of the instruction of these numbers.
fn letters_before(numbers: Numbers) -> (u8, u8)
    ensures { result ≡ letters_before (numbers_view numbers) }
{
    match numbers {
        Numbers::Single(setting, _) => Mnemonic::Sets(setting).letters(),
        Numbers::Odd(motion, _) => Mnemonic::Moves(motion).letters(),
        Numbers::Even(motion) => Mnemonic::Moves(motion).letters(),
    }
}
