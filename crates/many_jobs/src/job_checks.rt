//! A check of many jobs, which writes a line for each.
ghost use Rattle.std.specs.Prelude.{◌≡◌, ◌≢◌, ◌∷◌, [], IfErr, IfOk, IsFalse, flat_map, map};
ghost use Rattle.streams.specs.Errors.{is_err_of_write};
ghost use Rattle.many_jobs.specs.Asked.{told_by};
ghost use Rattle.job_reports.specs.Groups.{group_at};
ghost use Rattle.many_jobs.specs.JobChecks.{IsErrorOfLine, IsRightAnswer, TellsAll, TellsFront};
ghost use Rattle.many_jobs.specs.JobChecks.{due_of, keyed, work};

use crate::ending::Ending;
use crate::job_noting::{note_printer, tell_notes};
use crate::job_row::tell_row;
use crate::telling::Telling;
use crate::told_lines::tell_line;
use job_reports::PrinterGroup;
use judgement::Judgement;
use named_inputs::Jobs;
use preflight::check_job_within;
use std::alloc::Allocator;
use streams::{Error, Outlet, Source};

/// Checks jobs one after another for each group of the printers, and writes a line for each.
///
/// An error is `Write` where a write failed, or `Memory` where there was none for a line.
pub fn check_jobs<'n, J: Jobs<'n>, O: Outlet, A: Allocator + Copy>(
    alloc: A,
    jobs: &mut J,
    names: &[&'n [u8]],
    printers: &PrinterGroup<'_, A>,
    telling: &Telling<'_>,
    stdout: &mut O,
) -> Result<Ending, Error>
    requires stdout { IsFalse (O.state stdout.old).failed }
    requires some { printers.now.fleet ≢ [] }
    ensures told { IfOk result (λ ending. TellsAll printers.now (told_by telling.now)
        (flat_map (due_of printers.now) (map (λ name. name.now) names.now)) (J.start jobs.old)
        ending (work (O.state stdout.old) (J.ended jobs.old))
        (work (O.state stdout.new) (J.ended jobs.new))) }
    ensures front { IfErr result (λ _. TellsFront printers.now (told_by telling.now)
        (J.start jobs.old)
        (flat_map (due_of printers.now) (map (λ name. name.now) names.now))
        (work (O.state stdout.old) (J.ended jobs.old))
        (work (O.state stdout.new) (J.ended jobs.new))) }
    ensures errors { IfErr result IsErrorOfLine }
    ensures write { (O.state stdout.new).failed ≡ is_err_of_write result }
{
    let mut ending = Ending::Passes;
    for name in names {
        let told = tell_job(alloc, jobs, name, printers, telling, stdout)?;
        ending = ending.worse(told);
    }
    Ok(ending)
}

/// Checks a job for each group of the printers.
fn tell_job<'n, J: Jobs<'n>, O: Outlet, A: Allocator + Copy>(
    alloc: A,
    jobs: &mut J,
    name: &'n [u8],
    printers: &PrinterGroup<'_, A>,
    telling: &Telling<'_>,
    stdout: &mut O,
) -> Result<Ending, Error>
    requires stdout { IsFalse (O.state stdout.old).failed }
    requires some { printers.now.fleet ≢ [] }
    ensures told { IfOk result (λ ending. TellsAll printers.now (told_by telling.now)
        (due_of printers.now name.now) (J.start jobs.old)
        ending (work (O.state stdout.old) (J.ended jobs.old))
        (work (O.state stdout.new) (J.ended jobs.new))) }
    ensures front { IfErr result (λ _. TellsFront printers.now (told_by telling.now)
        (J.start jobs.old) (due_of printers.now name.now)
        (work (O.state stdout.old) (J.ended jobs.old))
        (work (O.state stdout.new) (J.ended jobs.new))) }
    ensures start { J.start jobs.new ≡ J.start jobs.old }
    ensures errors { IfErr result IsErrorOfLine }
    ensures write { (O.state stdout.new).failed ≡ is_err_of_write result }
{
    let mut ending = Ending::Passes;
    for number in 0..printers.count() {
        let told = tell_group(alloc, jobs, name, printers, number, telling, stdout)?;
        ending = ending.worse(told);
    }
    Ok(ending)
}

/// Checks a job for the group of this number, from 0, and writes its line, and below it the notes
/// where they are told, or in a document its row. For these the job is read again.
fn tell_group<'n, J: Jobs<'n>, O: Outlet, A: Allocator + Copy>(
    alloc: A,
    jobs: &mut J,
    name: &'n [u8],
    printers: &PrinterGroup<'_, A>,
    number: usize,
    telling: &Telling<'_>,
    stdout: &mut O,
) -> Result<Ending, Error>
    requires stdout { IsFalse (O.state stdout.old).failed }
    requires some { (group_at printers.now number).fleet ≢ [] }
    ensures told { IfOk result (λ ending. TellsAll printers.now (told_by telling.now)
        (keyed name.now number ∷ []) (J.start jobs.old)
        ending (work (O.state stdout.old) (J.ended jobs.old))
        (work (O.state stdout.new) (J.ended jobs.new))) }
    ensures front { IfErr result (λ _. TellsFront printers.now (told_by telling.now)
        (J.start jobs.old) (keyed name.now number ∷ [])
        (work (O.state stdout.old) (J.ended jobs.old))
        (work (O.state stdout.new) (J.ended jobs.new))) }
    ensures start { J.start jobs.new ≡ J.start jobs.old }
    ensures errors { IfErr result IsErrorOfLine }
    ensures write { (O.state stdout.new).failed ≡ is_err_of_write result }
{
    let group = printers.part(number);
    let mut job = jobs.job(name);
    let answer = check_group(alloc, &mut job, &group);
    let error = job.error();
    jobs.end(name, job);
    if telling.format.is_html() {
        return tell_row(alloc, jobs, name, &group, answer, error, telling, stdout);
    }
    tell_line(alloc, &group, name, answer, error, telling, stdout)?;
    let ending = Ending::of(telling, answer);
    match note_printer(answer, group.note_printers()) {
        None => Ok(ending),
        Some(printer) => {
            let noted = tell_notes(alloc, jobs, name, &group, printer, telling, stdout)?;
            Ok(ending.worse(noted))
        }
    }
}

/// Checks a job for a group of printers.
fn check_group<S: Source, A: Allocator + Copy>(
    alloc: A,
    job: &mut S,
    group: &PrinterGroup<'_, A>,
) -> Result<Judgement, Error>
    requires job { IsFalse (S.state job.old).failed }
    requires some { group.now.fleet ≢ [] }
    ensures { IsRightAnswer group.now.fleet (S.state job.old) (S.state job.new) result }
{
    check_job_within(alloc, job, group.profiles())
}
