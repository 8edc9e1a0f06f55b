//! How OUT ends, behind the command that wrote it.
ghost use Rattle.file_requests.specs.Outs.{EndsDocument, EndsOut};

use pdf_command::PdfEnd;
use requests::Status;
use std::io::Print;
use std::rt::Files;
use streams::{Error, FileOutlet};

/// Puts OUT in its place where the command came to its end, so that its text is whole; else OUT is
/// as it was. Answers how the program then ends.
pub(crate) fn end_out<R: Files + Print>(answer: Status, out: &mut FileOutlet<'_, R>) -> Status
    ensures { EndsOut answer result out.old.outlet out.new }
{
    match out.end(answer.is_complete()) {
        Ok(()) => answer,
        Err(_) => Status::Stopped(Error::Write),
    }
}

/// Puts OUT in its place where it has all of a document; else OUT is as it was. Answers how the
/// program then ends.
pub(crate) fn end_document<R: Files + Print>(end: PdfEnd, out: &mut FileOutlet<'_, R>) -> Status
    ensures { EndsDocument end result out.old.outlet out.new }
{
    match out.end(end.is_whole()) {
        Ok(()) => end.status,
        Err(_) => Status::Stopped(Error::Write),
    }
}
