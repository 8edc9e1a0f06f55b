//! One step of a survey, over a window of the job.

ghost use Rattle.std.specs.Prelude.{◌≡◌, ◌+◌, ◌≤◌, ◌^◌, Bool, get_or, length};
ghost use Rattle.pcl_lexer.specs.Lexing.Contexts.{counted};
ghost use Rattle.pcl_lexer.specs.Lexing.FirstView.{context_view};
ghost use Rattle.survey.specs.Survey.{Passes, Reads, at_end, cut_at, ends_so, standing_of};
ghost use Rattle.survey.specs.Carriers.Steps.{IsStep, counted_in, standing_view, waiting_at};

use crate::part::{Onto, Part};
use crate::pass::{pass, told_of};
use crate::refusal::{Refusal, Spelled};
use crate::turn::fault_turn;
use pcl_items::{LexCause, Place};
use pcl_lexer::{Ahead, Context, First, next_ahead};

/// Where a survey stands.
#[derive(Clone, Copy)]
pub enum Standing {
    /// The language is read behind this.
    Reads(Context),
    /// Bytes that it refused are passed over.
    Passes(Part),
}

/// What one step comes to.
#[derive(Clone, Copy)]
pub struct Step {
    /// So many bytes of the window are behind it.
    pub at: usize,
    pub standing: Standing,
    pub told: Option<Refusal>,
    /// The bytes of the window decide nothing more.
    pub waits: bool,
}

impl Step {
    /// Nothing more, behind so many bytes.
    fn waiting(at: usize, standing: Standing) -> Step
        ensures { result ≡ waiting_at at standing }
    {
        Step {
            at,
            standing,
            told: None,
            waits: true,
        }
    }
}

impl Standing {
    /// Where it goes on.
    pub fn of(onto: Onto) -> Standing
        ensures { standing_view result ≡ standing_of onto }
    {
        match onto {
            Onto::Page => Standing::Reads(Context::Pcl),
            Onto::Group(group) => Standing::Reads(Context::Sequence(group)),
            Onto::Frame => Standing::Reads(Context::Frame),
            Onto::Lines => Standing::Reads(Context::Pjl),
            Onto::Part(part) => Standing::Passes(part),
        }
    }

    /// What is told at the end of the job, where so many bytes stand before those that are left,
    /// which decide nothing more.
    pub fn at_end(self, place: Place, bytes: &[u8]) -> Option<Refusal>
        requires { counted_in (standing_view self) ≤ place }
        ensures { result ≡ at_end (standing_view self) place bytes.now }
    {
        match self {
            Standing::Reads(context) => {
                ends_so(
                    context.cause_at_end(bytes.is_empty()),
                    context.item_place(place),
                )
            }
            Standing::Passes(part) => cut_at(part, place),
        }
    }
}

/// What is told of the end of the job, where it is a fault.
fn ends_so(cause: Option<LexCause>, place: Place) -> Option<Refusal>
    ensures { result ≡ ends_so cause place }
{
    match cause {
        None => None,
        Some(cause) => Some(Refusal {
            cause,
            spelled: Spelled::End,
            place,
        }),
    }
}

/// What is told at the end of the job of bytes that are passed over: of a sequence that it has no
/// end, of a line the words that it has, and of data that they are cut off.
fn cut_at(part: Part, place: Place) -> Option<Refusal>
    ensures { result ≡ cut_at part place }
{
    match part {
        Part::Escape(passing)
        | Part::Introduced(passing, _)
        | Part::Grouped(passing, _, _, _)
        | Part::Ungrouped(passing, _) => Some(told_of(passing, Spelled::Unended)),
        Part::Data(_, _) | Part::Inner(_, _, _, _) => { ends_so(Some(LexCause::Truncated), place) }
        Part::Second(_, _)
        | Part::Numbers
        | Part::Quoted
        | Part::Character
        | Part::Label
        | Part::Packed => ends_so(Some(LexCause::EndInFrame), place),
        Part::Line(passing, _, line) => Some(told_of(passing, Spelled::Line(line.number()))),
        Part::Foreign(_) => None,
    }
}

/// The next step behind so many bytes of the window, which are all that come or not. So many bytes
/// of the job stand before the window.
pub fn step_at(whole: bool, standing: Standing, dropped: u64, start: usize, window: &[u8]) -> Step
    requires inside { start ≤ length window.now }
    requires small { dropped + length window.now ≤ 2 ^ 62 }
    requires counts { counted_in (standing_view standing) ≤ dropped + start }
    ensures { IsStep whole (standing_view standing) dropped start window.now result }
{
    match standing {
        Standing::Reads(context) => read_at(whole, context, dropped, start, window),
        Standing::Passes(part) => pass_at(part, dropped, start, window),
    }
}

/// An item, or a fault and what comes of it.
fn read_at(whole: bool, context: Context, dropped: u64, start: usize, window: &[u8]) -> Step
    requires inside { start ≤ length window.now }
    requires small { dropped + length window.now ≤ 2 ^ 62 }
    requires counts { counted (context_view context) ≤ dropped + start }
    ensures { IsStep whole (Reads (context_view context)) dropped start window.now result }
{
    let Ahead {
        start,
        context,
        first,
    } = next_ahead(whole, context, start, window);
    match first {
        First::Begins(len, _, next) => Step {
            at: start + len,
            standing: Standing::Reads(next),
            told: None,
            waits: false,
        },
        First::Faulty(cause) => {
            let byte = first_byte(&window[start..]);
            let next = fault_turn(context, cause, dropped + start as u64, byte);
            Step {
                at: start + next.taken(),
                standing: Standing::of(next.onto),
                told: next.told,
                waits: false,
            }
        }
        First::Open => Step::waiting(start, Standing::Reads(context)),
        // It passes over nothing.
        First::Passes(_, _) => Step::waiting(start, Standing::Reads(context)),
    }
}

/// A byte that is passed over, if there is one.
fn pass_at(part: Part, dropped: u64, start: usize, window: &[u8]) -> Step
    requires inside { start ≤ length window.now }
    requires small { dropped + length window.now ≤ 2 ^ 62 }
    ensures { (whole : Bool) → IsStep whole (Passes part) dropped start window.now result }
{
    if start == window.len() {
        return Step::waiting(start, Standing::Passes(part));
    }
    let next = pass(part, dropped + start as u64, window[start]);
    Step {
        at: start + next.taken(),
        standing: Standing::of(next.onto),
        told: next.told,
        waits: false,
    }
}

/// The first byte, or 0 where there is none.
fn first_byte(bytes: &[u8]) -> u8
    ensures { result ≡ get_or bytes.now 0 0 }
{
    match bytes {
        [byte, ..] => *byte,
        [] => 0,
    }
}
