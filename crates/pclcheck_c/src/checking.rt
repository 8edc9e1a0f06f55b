//! Checks of a job for a fleet.
ghost use Rattle.std.specs.Prelude.{IfErr, IfOk};
ghost use Rattle.foreign_calls.specs.Answers.{IsStop};
ghost use Rattle.foreign_calls.specs.Checked.{Checks, IsSentenceOf, IsTextOf};
ghost use Rattle.pclcheck_c.specs.Fleets.{asked};

use crate::fleet::Fleet;
use foreign_calls::{Told, VerdictRow, Why};
use judgement::Judgement;
use std::alloc::Global;
use streams::Error;

/// Checks a job for the printers that are asked for, and tells the verdict.
pub(crate) fn check(
    alloc: Global,
    fleet: &Fleet,
    printer: usize,
    job: &[u8],
    row: &mut VerdictRow,
) -> u32
    ensures { Checks (asked fleet.now printer).fleet job.now result row.old row.new }
{
    let group = fleet.asked(printer);
    foreign_calls::check(alloc, &group, job, row)
}

/// The sentence on a job of this name for the printers that are asked for.
pub(crate) fn tell(
    alloc: Global,
    fleet: &Fleet,
    printer: usize,
    name: &[u8],
    job: &[u8],
) -> Result<Told<Global>, Why>
    ensures sentence { IfOk result (IsSentenceOf (asked fleet.now printer) name.now job.now) }
    ensures stops { IfErr result IsStop }
{
    let group = fleet.asked(printer);
    foreign_calls::tell(alloc, &group, name, job)
}

/// The sentence by an answer on a job of this name.
pub(crate) fn text_of(
    alloc: Global,
    fleet: &Fleet,
    printer: usize,
    name: &[u8],
    answer: Result<Judgement, Error>,
) -> Result<Told<Global>, Why>
    ensures text { IfOk result (IsTextOf (asked fleet.now printer) name.now answer) }
    ensures stops { IfErr result IsStop }
{
    let group = fleet.asked(printer);
    foreign_calls::text_of(alloc, &group, name, answer)
}
