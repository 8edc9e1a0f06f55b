//! The texts of a job that need no printer.
ghost use Rattle.std.specs.Prelude.{◌≡◌, IfErr, IfOk};
ghost use Rattle.renderings.specs.Expected.{list_rendering, plain_rendering};
ghost use Rattle.foreign_calls.specs.Answers.{IsStop};
ghost use Rattle.foreign_calls.specs.Texts.{IsWritten};

use crate::rows::outcome_row;
use crate::told::Told;
use crate::why::Why;
use named_inputs::{KeptText, kept_error};
use renderings::{list_job, plain_job};
use std::alloc::Allocator;
use streams::Latched;

/// A line for each item of a job, and a last one for a fault of its bytes.
pub fn list<A: Allocator + Copy>(alloc: A, job: &[u8]) -> Result<Told<A>, Why>
    ensures written { IfOk result (IsWritten list_rendering job.now) }
    ensures stops { IfErr result IsStop }
{
    let mut source = Latched::new(job);
    let mut text = KeptText::new(alloc);
    match list_job(alloc, &mut source, &mut text) {
        Ok(outcome) => Ok(Told {
            row: outcome_row(outcome),
            text: text.into_bytes(),
        }),
        Err(error) => Err(Why::Stopped(kept_error(error))),
    }
}

/// The items of a job, each in its canonical spelling, up to a fault of its bytes.
pub fn plain<A: Allocator + Copy>(alloc: A, job: &[u8]) -> Result<Told<A>, Why>
    ensures written { IfOk result (IsWritten plain_rendering job.now) }
    ensures stops { IfErr result IsStop }
{
    let mut source = Latched::new(job);
    let mut text = KeptText::new(alloc);
    match plain_job(alloc, &mut source, &mut text) {
        Ok(outcome) => Ok(Told {
            row: outcome_row(outcome),
            text: text.into_bytes(),
        }),
        Err(error) => Err(Why::Stopped(kept_error(error))),
    }
}
