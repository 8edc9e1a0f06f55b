//! What the bytes of an OUT go to.

use crate::beside::Beside;
use crate::place::Place;
use std::io::{Print, Printer, Write};
use std::rt::Files;
use std::{fs, io};

/// What the bytes of an OUT go to.
#[derive(Drop)]
pub enum OutWriter<'a, R: Files> {
    File(R::File),
    Output(Printer<'a, R>),
}

impl<R: Files + Print> Write for OutWriter<'_, R> {
    fn write(&mut self, buf: &[u8]) -> io::Result<usize> {
        match self {
            OutWriter::File(file) => file.write(buf),
            OutWriter::Output(output) => output.write(buf),
        }
    }

    fn flush(&mut self) -> io::Result<()> {
        Ok(())
    }
}

/// Whether a word OUT names standard output.
pub(crate) fn is_output(path: &str) -> bool {
    path == "-"
}

/// Creates what is written for a path: a file beside the one that the path leads to, or else what
/// stands at the path itself, or standard output.
pub(crate) fn create_out<'a, R: Files + Print + AllocGlobal>(
    files: &'a R,
    path: &str,
) -> io::Result<(OutWriter<'a, R>, Option<Beside>)> {
    if is_output(path) {
        return Ok((OutWriter::Output(io::writer(files)), None));
    }
    let Some(place) = Place::of(files, path)? else {
        let file = fs::create(files, path)?;
        return Ok((OutWriter::File(file), None));
    };
    let Place { target, mode } = place;
    let (file, beside) = Beside::create(files, target, mode)?;
    Ok((OutWriter::File(file), Some(beside)))
}
