//! The notes of a job that passes, in a check of many jobs.
ghost use Rattle.std.specs.Prelude.{◌≡◌, IfErr, IfOk, IsFalse};
ghost use Rattle.std.specs.Option.{option_copied};
ghost use Rattle.streams.specs.Errors.{is_err_of_write};
ghost use Rattle.streams.specs.Outlet.{Adds};
ghost use Rattle.many_jobs.specs.Asked.{told_by};
ghost use Rattle.many_jobs.specs.JobChecks.{AddsTold, CutsNotes, CutsTold, TellsNotes, work};
ghost use Rattle.job_rows.specs.Kept.{kept_text};
ghost use Rattle.many_jobs.specs.JobNoting.{AreRightNotes, Noted, ending_of_notes};
ghost use Rattle.many_jobs.specs.JobNoting.{note_printer, notes_text};
ghost use Rattle.many_jobs.specs.NoteReports.{subject_of, told_note};
ghost use Rattle.job_reports.specs.Reports.{verdict_told};

use crate::ending::Ending;
use crate::note_reports::NoteReport;
use crate::telling::Telling;
use crate::told_lines::tell_line;
use device_profile::Profile;
use job_reports::PrinterGroup;
use judgement::Judgement;
use named_inputs::{Jobs, KeptText, kept_error};
use notes::notes_of;
use renderings::Outcome;
use std::alloc::Allocator;
use std::io;
use streams::{Error, Outlet, Source, write_text};
use verdict::Verdict;

/// The printer that notes are told for: the first of these, where the job passes.
pub fn note_printer<A: Allocator>(
    answer: Result<Judgement, Error>,
    printers: &[Profile<A>],
) -> Option<&Profile<A>>
    ensures { option_copied result ≡ note_printer (verdict_told answer) printers.now }
{
    match answer {
        Ok(judgement) => match judgement.verdict {
            Verdict::Pass { .. } => printers.first(),
            Verdict::Fail { .. } => None,
        },
        Err(_) => None,
    }
}

/// Reads a job once more, and writes its notes for a printer, the first of its group. Where they
/// cannot be had a line tells why.
///
/// An error is `Write` where a write failed, or `Memory` where there was none for that line.
pub fn tell_notes<'n, J: Jobs<'n>, O: Outlet, A: Allocator + Copy>(
    alloc: A,
    jobs: &mut J,
    name: &'n [u8],
    group: &PrinterGroup<'_, A>,
    printer: &Profile<A>,
    telling: &Telling<'_>,
    stdout: &mut O,
) -> Result<Ending, Error>
    requires { IsFalse (O.state stdout.old).failed }
    ensures told { IfOk result (λ ending. (noted : Noted) × (ending ≡ ending_of_notes noted.notes)
        × TellsNotes group.now (told_by telling.now) printer.now
        (J.start jobs.old name.now) name.now
        (work (O.state stdout.old) (J.ended jobs.old))
        (work (O.state stdout.new) (J.ended jobs.new))
        (Adds (O.state stdout.old) (O.state stdout.new)) noted) }
    ensures cut { IfErr result (λ error. CutsNotes error group.now (told_by telling.now)
        printer.now (J.start jobs.old name.now) name.now
        (work (O.state stdout.old) (J.ended jobs.old))
        (work (O.state stdout.new) (J.ended jobs.new))) }
    ensures start { J.start jobs.new ≡ J.start jobs.old }
    ensures write { (O.state stdout.new).failed ≡ is_err_of_write result }
{
    let mut job = jobs.job(name);
    let notes = read_notes(alloc, &mut job, name, group, printer, telling);
    let error = cause_of(&notes, job.error());
    jobs.end(name, job);
    write_notes(alloc, notes, error, name, group, telling, stdout)
}

/// The notes of a job that passes on a printer, the first of its group.
///
/// An error is `Read` where a read failed, or where the job does not pass any more, since it was
/// another at the first reading; `Memory` where the allocator refused a request, or `Turns` after
/// 2^40 reads without an end.
pub(crate) fn read_notes<'t, S: Source, A: Allocator + Copy>(
    alloc: A,
    job: &mut S,
    name: &'t [u8],
    group: &'t PrinterGroup<'t, A>,
    printer: &Profile<A>,
    telling: &Telling<'t>,
) -> Result<Vec<u8, A>, Error>
    requires { IsFalse (S.state job.old).failed }
    ensures { AreRightNotes (told_note (told_by telling.now) (subject_of group.now name.now))
        printer.now (S.state job.old) (S.state job.new)
        (kept_text (λ text. text.items) result) }
{
    let report = NoteReport {
        alloc,
        job: name,
        printer: group.first_name(),
        format: telling.format,
        explanations: telling.explanations,
    };
    let panel = printer.first_panel();
    let mut text = KeptText::new(alloc);
    match notes_of(alloc, &report, job, printer, &panel, &mut text) {
        Ok(Outcome::Done) => Ok(text.into_bytes()),
        Ok(Outcome::Fail { .. }) => Err(Error::Read),
        Err(error) => Err(kept_error(error)),
    }
}

/// Why a read failed: what the system says, or that the job was another where it says nothing.
fn cause_of<A: Allocator>(
    notes: &Result<Vec<u8, A>, Error>,
    error: Option<io::Error>,
) -> Option<io::Error> {
    match (notes, error) {
        (Err(Error::Read), None) => Some(io::Error::other(
            "it was another job when it was read again for its notes",
        )),
        (_, error) => error,
    }
}

/// Writes notes, or the line of the error for which there are none, and tells how they count.
fn write_notes<'t, O: Outlet, A: Allocator + Copy>(
    alloc: A,
    notes: Result<Vec<u8, A>, Error>,
    error: Option<io::Error>,
    name: &'t [u8],
    group: &'t PrinterGroup<'t, A>,
    telling: &Telling<'_>,
    stdout: &mut O,
) -> Result<Ending, Error>
    requires { IsFalse (O.state stdout.old).failed }
    ensures told { IfOk result (λ ending. (ending ≡ ending_of_notes
        (kept_text (λ text. text.items) notes)) × AddsTold
        (notes_text (told_by telling.now) group.now name.now
        (kept_text (λ text. text.items) notes))
        (O.state stdout.old) (O.state stdout.new)) }
    ensures cut { IfErr result (λ error. CutsTold error
        (notes_text (told_by telling.now) group.now name.now
        (kept_text (λ text. text.items) notes))
        (O.state stdout.old) (O.state stdout.new)) }
    ensures write { (O.state stdout.new).failed ≡ is_err_of_write result }
{
    match notes {
        Ok(text) => {
            write_text(stdout, text.as_slice())?;
            Ok(Ending::Passes)
        }
        Err(stop) => {
            tell_line(alloc, group, name, Err(stop), error, telling, stdout)?;
            Ok(Ending::HasNoVerdict)
        }
    }
}
