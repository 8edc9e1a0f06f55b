//! A file as a source.
ghost use Rattle.std.specs.Prelude.{◌≡◌, IsFalse, IsTrue, OnOk, is_err};
ghost use Rattle.streams.specs.Files.{no_source};

use crate::file_id::FileId;
use crate::given::Given;
use crate::latched::Latched;
use crate::opened::Opened;
use crate::opening::Open;
use crate::source::Source;
use std::fs::OpenFile;
use std::marker::Model;
use std::rt::Files;
use std::{fs, io};

/// A file that is opened at its first read, or by `open` before it, so that what is wrong with the
/// words before it is told before it is touched.
#[derive(Drop)]
pub struct FileSource<'a, R: Files> {
    files: &'a R,
    path: &'a str,
    opened: Opened<R::File>,
    file: Option<FileId>,
}

impl<'a, R: Files> Model for FileSource<'a, R> {
    ghost use Rattle.streams.specs.Files.{FileSourceState, is_open, source_of};

    ghost Value = { FileSourceState };

    ghost view = { λ file. record {
      source = source_of file.opened;
      is_open = is_open file.opened;
      file = file.file;
      path = file.path.now;
    } };
}

impl<'a, R: Files> FileSource<'a, R> {
    /// The file at a path, of which nothing is read yet.
    pub fn new(files: &'a R, path: &'a str) -> FileSource<'a, R>
        ensures source { result.source ≡ no_source }
        ensures path { result.path ≡ path.now }
    {
        FileSource {
            files,
            path,
            opened: Opened::NotYet,
            file: None,
        }
    }

    /// What its reads gave.
    pub fn into_given(self) -> Given
        ensures { result.pieces ≡ self.entry.source.given }
    {
        match self.opened {
            Opened::Done(file) => file.into_given(),
            Opened::NotYet | Opened::Failed(_) => Given::new(),
        }
    }

    /// Opens the file, where it is not open yet.
    fn open_once(&mut self) -> io::Result<()>
        requires { IsFalse self.old.source.failed }
        ensures opened { OnOk result (IsTrue self.new.is_open) }
        ensures state { self.new.source ≡ record self.old.source { failed = is_err result } }
    {
        if !matches!(self.opened, Opened::NotYet) {
            return Ok(());
        }
        match fs::open(self.files, self.path) {
            Ok(file) => {
                self.file = file.metadata().ok().as_ref().and_then(FileId::of);
                self.opened = Opened::Done(Latched::new(file));
                Ok(())
            }
            Err(error) => {
                self.opened = Opened::Failed(error);
                Err(error)
            }
        }
    }
}

impl<R: Files> Source for FileSource<'_, R> {
    ghost state = { λ file. file.source };

    fn read(&mut self, buf: &mut [u8]) -> io::Result<usize> {
        self.open_once()?;
        match &mut self.opened {
            Opened::Done(file) => file.read(buf),
            Opened::NotYet | Opened::Failed(_) => unreachable!(),
        }
    }

    fn has_failed(&self) -> bool {
        match &self.opened {
            Opened::Done(file) => file.has_failed(),
            Opened::NotYet => false,
            Opened::Failed(_) => true,
        }
    }

    fn error(&self) -> Option<io::Error> {
        match &self.opened {
            Opened::Done(file) => file.error(),
            Opened::NotYet => None,
            Opened::Failed(error) => Some(*error),
        }
    }
}

impl<R: Files> Open for FileSource<'_, R> {
    ghost opens = { λ _ file. IsTrue file.is_open };

    ghost file = { λ file. file.file };

    fn open(&mut self) -> io::Result<()> {
        self.open_once()
    }

    fn file(&self) -> Option<FileId> {
        self.file
    }
}
