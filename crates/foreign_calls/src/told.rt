//! A text that a call hands out.
ghost use Rattle.std.specs.Prelude.{◌≡◌};
ghost use Rattle.foreign_calls.specs.Answers.{IsHanded, refusal_by, row_by};

use crate::room::put;
use crate::rows::{Refusal, VerdictRow, outcome_row};
use crate::why::Why;
use renderings::Outcome;
use std::alloc::Allocator;
use std::marker::Model;

/// A text, and what came of the job that it is of.
#[derive(Drop)]
pub struct Told<A: Allocator> {
    pub row: VerdictRow,
    pub text: Vec<u8, A>,
}

impl<A: Allocator> Model for Told<A> {
    ghost use Rattle.foreign_calls.specs.Answers.{Told};

    ghost Value = { Told };

    ghost view = { λ told. record { row = told.row; text = told.text.items } };
}

impl<A: Allocator> Told<A> {
    /// A text, of which no number is told.
    pub fn of_text(text: Vec<u8, A>) -> Told<A>
        ensures { result.text ≡ text.items }
    {
        Told {
            row: outcome_row(Outcome::Done),
            text,
        }
    }
}

/// Puts a text into a room, where there is one, and answers the number of the call.
pub fn hand_out<A: Allocator>(
    told: &Result<Told<A>, Why>,
    room: &mut [u8],
    needed: &mut usize,
) -> u32
    ensures { IsHanded told.now result room.old room.new needed.old needed.new }
{
    match told {
        Ok(told) => put(told.text.as_slice(), room, needed),
        Err(why) => why.number(),
    }
}

/// Tells what came of the job, where there is a text.
pub fn leave_row<A: Allocator>(told: &Result<Told<A>, Why>, row: &mut VerdictRow)
    ensures { row.new ≡ row_by row.old told.now }
{
    match told {
        Ok(told) => *row = told.row,
        Err(_) => {}
    }
}

/// Tells of a profile that is refused, where that is why there is no text.
pub fn leave_refusal<A: Allocator>(told: &Result<Told<A>, Why>, refusal: &mut Refusal)
    ensures { refusal.new ≡ refusal_by refusal.old told.now }
{
    match told {
        Ok(_) => {}
        Err(why) => why.tell(refusal),
    }
}
