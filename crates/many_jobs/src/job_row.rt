//! The row of a job, in a document of many jobs: for it the job is read again.
ghost use Rattle.std.specs.Prelude.{◌≡◌, ◌-◌, IfErr, IfOk, IsFalse, List, OnOk, Option, map};
ghost use Rattle.std.specs.Prelude.{option_map, slice_get, ℕ};
ghost use Rattle.std.specs.Option.{option_copied};
ghost use Rattle.streams.specs.Errors.{is_err_of_write};
ghost use Rattle.job_rows.specs.Kept.{kept_part};
ghost use Rattle.job_rows.specs.Links.{told_of};
ghost use Rattle.job_reports.specs.Reports.{verdict_told};
ghost use Rattle.many_jobs.specs.Asked.{told_by};
ghost use Rattle.many_jobs.specs.JobChecks.{AddsRow, AddsTold, CutsRow, CutsTold, work};
ghost use Rattle.many_jobs.specs.JobNoting.{AreRightNotes, note_printer};
ghost use Rattle.many_jobs.specs.JobRow.{Rereads, RereadsNotes, document_of, drawn_by, has_name};
ghost use Rattle.many_jobs.specs.JobRow.{is_among, is_read_once, near_of_job, page_of_job};
ghost use Rattle.many_jobs.specs.JobRow.{page_shown};
ghost use Rattle.many_jobs.specs.JobRow.{place_shown, printer_shown, row_with};
ghost use Rattle.many_jobs.specs.NoteReports.{subject_of, told_note};

use crate::ending::Ending;
use crate::job_noting::{note_printer, read_notes};
use crate::kept_readings::{read_near, read_page};
use crate::telling::{Telling, push_told_row};
use device_profile::Profile;
use job_reports::{PrinterGroup, Report};
use job_rows::{JobDocument, RowParts};
use judgement::Judgement;
use named_inputs::system_words::system_words;
use named_inputs::{Jobs, is_input};
use std::alloc::{AllocError, Allocator};
use std::io;
use streams::{Error, Outlet, write_text};
use verdict::Verdict;

/// Writes the row of a job of which this came, with what the system says of an error.
///
/// For the row the job is read again: for its notes where they are told, and unless it can be read
/// only once for the items near the place at which it fails and for the picture of a page. An error
/// is `Write` where a write failed, or `Memory` where there was none for the row.
pub(crate) fn tell_row<'n, J: Jobs<'n>, O: Outlet, A: Allocator + Copy>(
    alloc: A,
    jobs: &mut J,
    name: &'n [u8],
    group: &PrinterGroup<'_, A>,
    answer: Result<Judgement, Error>,
    error: Option<io::Error>,
    telling: &Telling<'_>,
    stdout: &mut O,
) -> Result<Ending, Error>
    requires { IsFalse (O.state stdout.old).failed }
    ensures told { IfOk result (AddsRow group.now (told_by telling.now)
        (J.start jobs.old name.now) name.now answer
        (work (O.state stdout.old) (J.ended jobs.old))
        (work (O.state stdout.new) (J.ended jobs.new))) }
    ensures cut { IfErr result (λ error. CutsRow error group.now (told_by telling.now)
        (J.start jobs.old name.now) name.now answer
        (work (O.state stdout.old) (J.ended jobs.old))
        (work (O.state stdout.new) (J.ended jobs.new))) }
    ensures start { J.start jobs.new ≡ J.start jobs.old }
    ensures write { (O.state stdout.new).failed ≡ is_err_of_write result }
{
    let notes = reread_notes(alloc, jobs, name, group, answer, telling);
    let near = reread_near(alloc, jobs, name, answer, telling);
    let page = reread_page(alloc, jobs, name, group, answer, telling);
    let once = is_read_once(telling, name);
    let document = document_of(telling, name);
    let judged = Ending::of(telling, answer);
    let noted = Ending::of_notes(&notes);
    let parts = RowParts {
        notes,
        near,
        page,
        is_once: once,
        document,
    };
    write_row(alloc, group, name, answer, error, telling, &parts, stdout)?;
    Ok(judged.worse(noted))
}

/// Writes the row of a job, with what the system says of an error, where it can be had.
fn write_row<'t, O: Outlet, A: Allocator + Copy>(
    alloc: A,
    group: &'t PrinterGroup<'t, A>,
    name: &'t [u8],
    answer: Result<Judgement, Error>,
    error: Option<io::Error>,
    telling: &Telling<'_>,
    parts: &RowParts<'_, A>,
    stdout: &mut O,
) -> Result<(), Error>
    requires { IsFalse (O.state stdout.old).failed }
    ensures told { OnOk result (AddsTold
        (λ cause. row_with (told_by telling.now) group.now name.now answer cause parts.now)
        (O.state stdout.old) (O.state stdout.new)) }
    ensures cut { IfErr result (λ error. CutsTold error
        (λ cause. row_with (told_by telling.now) group.now name.now answer cause parts.now)
        (O.state stdout.old) (O.state stdout.new)) }
    ensures write { (O.state stdout.new).failed ≡ is_err_of_write result }
{
    let row = row_of_job(alloc, group, name, answer, error, telling, parts)?;
    write_text(stdout, row.as_slice())
}

/// The row of a job, with what the system says of an error, where it can be had.
fn row_of_job<'t, A: Allocator + Copy>(
    alloc: A,
    group: &'t PrinterGroup<'t, A>,
    name: &'t [u8],
    answer: Result<Judgement, Error>,
    error: Option<io::Error>,
    telling: &Telling<'_>,
    parts: &RowParts<'_, A>,
) -> Result<Vec<u8, A>, AllocError>
    ensures { IfOk result (λ row. (cause : Option (List ℕ)) × (row.items ≡
        row_with (told_by telling.now) group.now name.now answer cause parts.now)) }
{
    let words = system_words(alloc, error);
    let cause = words.as_ref().map(|words| words.as_bytes());
    let report = Report {
        printers: group,
        job: name,
        answer,
        cause,
    };
    let mut row = Vec::new(alloc);
    push_told_row(alloc, &mut row, &report, telling, parts)?;
    Ok(row)
}

// ---- further readings

/// Reads a job once more for its notes, where they are told.
fn reread_notes<'n, J: Jobs<'n>, A: Allocator + Copy>(
    alloc: A,
    jobs: &mut J,
    name: &'n [u8],
    group: &PrinterGroup<'_, A>,
    answer: Result<Judgement, Error>,
    telling: &Telling<'_>,
) -> Option<Result<Vec<u8, A>, Error>>
    ensures read { RereadsNotes (λ printer after notes. AreRightNotes
        (told_note (told_by telling.now) (subject_of group.now name.now))
        printer (J.start jobs.old name.now) after notes)
        name.now (note_printer (verdict_told answer) group.now.note_printers)
        (kept_part (λ text. text.items) result)
        (J.ended jobs.old) (J.ended jobs.new) }
    ensures start { J.start jobs.new ≡ J.start jobs.old }
{
    match note_printer(answer, group.note_printers()) {
        None => None,
        Some(printer) => {
            let mut job = jobs.job(name);
            let notes = read_notes(alloc, &mut job, name, group, printer, telling);
            jobs.end(name, job);
            Some(notes)
        }
    }
}

/// Reads a job once more for the items near the place at which it fails.
fn reread_near<'n, J: Jobs<'n>, A: Allocator + Copy>(
    alloc: A,
    jobs: &mut J,
    name: &'n [u8],
    answer: Result<Judgement, Error>,
    telling: &Telling<'_>,
) -> Option<Result<Vec<u8, A>, Error>>
    ensures read { Rereads (near_of_job (told_by telling.now) name.now answer)
        (J.start jobs.old name.now) name.now (kept_part (λ text. text.items) result)
        (J.ended jobs.old) (J.ended jobs.new) }
    ensures start { J.start jobs.new ≡ J.start jobs.old }
{
    if is_read_once(telling, name) {
        return None;
    }
    match place_shown(answer) {
        None => None,
        Some(place) => {
            let mut job = jobs.job(name);
            let near = read_near(alloc, &mut job, place);
            jobs.end(name, job);
            Some(near)
        }
    }
}

/// Reads a job once more for the picture of a page.
fn reread_page<'n, J: Jobs<'n>, A: Allocator + Copy>(
    alloc: A,
    jobs: &mut J,
    name: &'n [u8],
    group: &PrinterGroup<'_, A>,
    answer: Result<Judgement, Error>,
    telling: &Telling<'_>,
) -> Option<Result<Vec<u8, A>, Error>>
    ensures read { Rereads (page_of_job (told_by telling.now) group.now name.now answer)
        (J.start jobs.old name.now) name.now (kept_part (λ text. text.items) result)
        (J.ended jobs.old) (J.ended jobs.new) }
    ensures start { J.start jobs.new ≡ J.start jobs.old }
{
    if is_read_once(telling, name) {
        return None;
    }
    match page_shown(answer) {
        None => None,
        Some(page) => reread_page_of(alloc, jobs, name, group, answer, page),
    }
}

/// Reads a job once more for the picture of this page, where there is a printer that it is drawn
/// for.
fn reread_page_of<'n, J: Jobs<'n>, A: Allocator + Copy>(
    alloc: A,
    jobs: &mut J,
    name: &'n [u8],
    group: &PrinterGroup<'_, A>,
    answer: Result<Judgement, Error>,
    page: u64,
) -> Option<Result<Vec<u8, A>, Error>>
    ensures read { Rereads
        (drawn_by (Some page) (printer_shown (verdict_told answer) group.now.fleet))
        (J.start jobs.old name.now) name.now (kept_part (λ text. text.items) result)
        (J.ended jobs.old) (J.ended jobs.new) }
    ensures start { J.start jobs.new ≡ J.start jobs.old }
{
    match printer_shown(answer, group.profiles()) {
        None => None,
        Some(printer) => {
            let mut job = jobs.job(name);
            let picture = read_page(alloc, &mut job, printer, page);
            jobs.end(name, job);
            Some(picture)
        }
    }
}

/// The place at which a job fails.
fn place_shown(answer: Result<Judgement, Error>) -> Option<u64>
    ensures { result ≡ place_shown (verdict_told answer) }
{
    match answer {
        Ok(judgement) => match judgement.verdict {
            Verdict::Fail { place, .. } => Some(place),
            Verdict::Pass { .. } => None,
        },
        Err(_) => None,
    }
}

/// The first page of a job that passes, and else the one that is open where it fails.
fn page_shown(answer: Result<Judgement, Error>) -> Option<u64>
    ensures { result ≡ page_shown answer }
{
    match answer {
        Ok(judgement) => match judgement.verdict {
            Verdict::Pass { .. } => Some(1),
            Verdict::Fail { .. } => judgement.page,
        },
        Err(_) => None,
    }
}

/// The printer for which a job fails, and else the first of these.
fn printer_shown<A: Allocator>(
    answer: Result<Judgement, Error>,
    printers: &[Profile<A>],
) -> Option<&Profile<A>>
    ensures { option_copied result ≡ printer_shown (verdict_told answer) printers.now }
{
    match answer {
        Ok(judgement) => match judgement.verdict {
            Verdict::Pass { .. } => printers.first(),
            Verdict::Fail { profile, .. } => printer_of(profile, printers),
        },
        Err(_) => printers.first(),
    }
}

/// The printer of this number, from 1.
fn printer_of<A: Allocator>(number: u64, printers: &[Profile<A>]) -> Option<&Profile<A>>
    ensures { option_copied result ≡ slice_get printers.now (number - 1) }
{
    printers.get(number.saturating_sub(1) as usize)
}

// ---- jobs that can be read only once

/// Whether a job is standard input, or one of those that can be read only once.
pub fn is_read_once(telling: &Telling<'_>, job: &[u8]) -> bool
    ensures { result ≡ is_read_once (told_by telling.now) job.now }
{
    is_input(job) || is_among(telling.read_once, job)
}

/// Where the document of a job is, if it has one.
fn document_of<'d>(telling: &Telling<'d>, job: &'d [u8]) -> Option<JobDocument<'d>>
    ensures { option_map told_of result ≡ document_of (told_by telling.now) job.now }
{
    if is_read_once(telling, job) {
        return None;
    }
    match telling.documents {
        None => None,
        Some(folder) => Some(JobDocument { folder, job }),
    }
}

/// Whether a job is one of these.
fn is_among(names: &[&[u8]], job: &[u8]) -> bool
    ensures { result ≡ is_among (map (λ name. name.now) names.now) job.now }
{
    for name in names {
        if has_name(job, name) {
            return true;
        }
    }
    false
}

/// Whether a job has this name.
fn has_name(job: &[u8], name: &[u8]) -> bool
    ensures { result ≡ has_name job.now name.now }
{
    name == job
}
