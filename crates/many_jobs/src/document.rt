//! The lines of many jobs, with what a document has round them.
ghost use Rattle.std.specs.Prelude.{◌≡◌, ◌≢◌, [], IfErr, IfOk, IsFalse, OnOk, flat_map, map};
ghost use Rattle.streams.specs.Errors.{is_err_of_write};
ghost use Rattle.streams.specs.Outlet.{Adds};
ghost use Rattle.job_rows.specs.Document.{document_end, document_start};
ghost use Rattle.many_jobs.specs.Asked.{told_by};
ghost use Rattle.many_jobs.specs.Document.{CutsText, TellsDocument, TellsDocumentFront};
ghost use Rattle.many_jobs.specs.Document.{end_text, start_text};
ghost use Rattle.many_jobs.specs.JobChecks.{IsErrorOfLine, due_of, work};

use crate::ending::Ending;
use crate::job_checks::check_jobs;
use crate::telling::{Format, Telling};
use job_reports::PrinterGroup;
use job_rows::{push_document_end, push_document_start};
use named_inputs::Jobs;
use std::alloc::{AllocError, Allocator};
use streams::{Error, Outlet, write_text};

/// Checks jobs one after another for each group of the printers, and writes a line for each, in a
/// document where the form has one.
///
/// An error is `Write` where a write failed, or `Memory` where there was none for a text.
pub(crate) fn tell_document<'n, J: Jobs<'n>, O: Outlet, A: Allocator + Copy>(
    alloc: A,
    jobs: &mut J,
    names: &[&'n [u8]],
    printers: &PrinterGroup<'_, A>,
    telling: &Telling<'_>,
    stdout: &mut O,
) -> Result<Ending, Error>
    requires stdout { IsFalse (O.state stdout.old).failed }
    requires some { printers.now.fleet ≢ [] }
    ensures told { IfOk result (λ ending. TellsDocument printers.now (told_by telling.now)
        (flat_map (due_of printers.now) (map (λ name. name.now) names.now)) (J.start jobs.old)
        ending (work (O.state stdout.old) (J.ended jobs.old))
        (work (O.state stdout.new) (J.ended jobs.new))) }
    ensures front { IfErr result (λ _. TellsDocumentFront printers.now (told_by telling.now)
        (J.start jobs.old)
        (flat_map (due_of printers.now) (map (λ name. name.now) names.now))
        (work (O.state stdout.old) (J.ended jobs.old))
        (work (O.state stdout.new) (J.ended jobs.new))) }
    ensures errors { IfErr result IsErrorOfLine }
    ensures write { (O.state stdout.new).failed ≡ is_err_of_write result }
{
    begin_document(alloc, printers, telling.format, stdout)?;
    let ending = check_jobs(alloc, jobs, names, printers, telling, stdout)?;
    end_document(alloc, telling.format, stdout)?;
    Ok(ending)
}

/// Writes what stands before all lines.
fn begin_document<O: Outlet, A: Allocator + Copy>(
    alloc: A,
    printers: &PrinterGroup<'_, A>,
    format: Format,
    stdout: &mut O,
) -> Result<(), Error>
    requires { IsFalse (O.state stdout.old).failed }
    ensures told { OnOk result (Adds (O.state stdout.old) (O.state stdout.new)
        (start_text format printers.now.names)) }
    ensures cut { IfErr result (λ error. CutsText error (start_text format printers.now.names)
        (O.state stdout.old) (O.state stdout.new)) }
    ensures write { (O.state stdout.new).failed ≡ is_err_of_write result }
{
    if format.is_html() {
        return write_start(alloc, printers, stdout);
    }
    Ok(())
}

/// Writes how a document begins.
fn write_start<O: Outlet, A: Allocator + Copy>(
    alloc: A,
    printers: &PrinterGroup<'_, A>,
    stdout: &mut O,
) -> Result<(), Error>
    requires { IsFalse (O.state stdout.old).failed }
    ensures told { OnOk result (Adds (O.state stdout.old) (O.state stdout.new)
        (document_start printers.now.names)) }
    ensures cut { IfErr result (λ error. CutsText error (document_start printers.now.names)
        (O.state stdout.old) (O.state stdout.new)) }
    ensures write { (O.state stdout.new).failed ≡ is_err_of_write result }
{
    let text = start_of(alloc, printers)?;
    write_text(stdout, text.as_slice())
}

/// How a document begins.
fn start_of<A: Allocator + Copy>(
    alloc: A,
    printers: &PrinterGroup<'_, A>,
) -> Result<Vec<u8, A>, AllocError>
    ensures { IfOk result (λ text. text.items ≡ document_start printers.now.names) }
{
    let mut text = Vec::new(alloc);
    push_document_start(&mut text, printers.names())?;
    Ok(text)
}

/// Writes what stands behind all lines.
fn end_document<O: Outlet, A: Allocator + Copy>(
    alloc: A,
    format: Format,
    stdout: &mut O,
) -> Result<(), Error>
    requires { IsFalse (O.state stdout.old).failed }
    ensures told { OnOk result
        (Adds (O.state stdout.old) (O.state stdout.new) (end_text format)) }
    ensures cut { IfErr result (λ error. CutsText error (end_text format)
        (O.state stdout.old) (O.state stdout.new)) }
    ensures write { (O.state stdout.new).failed ≡ is_err_of_write result }
{
    if format.is_html() {
        return write_end(alloc, stdout);
    }
    Ok(())
}

/// Writes how a document ends.
fn write_end<O: Outlet, A: Allocator + Copy>(alloc: A, stdout: &mut O) -> Result<(), Error>
    requires { IsFalse (O.state stdout.old).failed }
    ensures told { OnOk result
        (Adds (O.state stdout.old) (O.state stdout.new) document_end) }
    ensures cut { IfErr result (λ error. CutsText error document_end
        (O.state stdout.old) (O.state stdout.new)) }
    ensures write { (O.state stdout.new).failed ≡ is_err_of_write result }
{
    let text = end_of(alloc)?;
    write_text(stdout, text.as_slice())
}

/// How a document ends.
fn end_of<A: Allocator + Copy>(alloc: A) -> Result<Vec<u8, A>, AllocError>
    ensures { IfOk result (λ text. text.items ≡ document_end) }
{
    let mut text = Vec::new(alloc);
    push_document_end(&mut text)?;
    Ok(text)
}
