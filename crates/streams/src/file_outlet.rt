//! A file as an outlet.
ghost use Rattle.std.specs.Prelude.{◌≡◌, IsFalse, IsTrue, OnErr, OnOk, true};
ghost use Rattle.std.specs.List.{concat};
ghost use Rattle.streams.specs.Errors.{is_refused};
ghost use Rattle.streams.specs.Files.{no_outlet};

use crate::beside::Beside;
use crate::error::{CreateError, Error};
use crate::file_id::FileId;
use crate::given::Given;
use crate::latched::Latched;
use crate::opened::Opened;
use crate::opening::Create;
use crate::out_writer::{OutWriter, create_out, is_output};
use crate::outlet::Outlet;
use std::io::Print;
use std::marker::Model;
use std::rt::Files;
use std::{fs, io};

/// A file that is written beside the one that its path leads to, and takes its place at the end.
/// What is no plain file is written itself, and so is standard output, which `-` names.
///
/// It is created by `create`, so that nothing is there while its job is not open.
#[derive(Drop)]
pub struct FileOutlet<'a, R: Files> {
    files: &'a R,
    path: &'a str,
    created: Opened<OutWriter<'a, R>>,
    /// The file that is written in place of the one that the path leads to, where there is one.
    beside: Option<Beside>,
    is_put: bool,
}

impl<'a, R: Files> Model for FileOutlet<'a, R> {
    ghost use Rattle.streams.specs.Files.{FileOutletState, is_open, outlet_of};

    ghost Value = { FileOutletState };

    ghost view = { λ file. record {
      outlet = outlet_of file.created;
      is_created = is_open file.created;
      is_put = file.is_put;
      path = file.path.now;
    } };
}

impl<'a, R: Files> FileOutlet<'a, R> {
    /// The file at a path, which is not created yet.
    pub fn new(files: &'a R, path: &'a str) -> FileOutlet<'a, R>
        ensures outlet { result.outlet ≡ no_outlet }
        ensures path { result.path ≡ path.now }
    {
        FileOutlet {
            files,
            path,
            created: Opened::NotYet,
            beside: None,
            is_put: false,
        }
    }

    /// Whether what was written stands in its place.
    pub fn is_put(&self) -> bool
        ensures { result ≡ self.now.is_put }
    {
        self.is_put
    }

    /// What its writes took.
    pub fn into_taken(self) -> Given
        ensures { concat result.pieces ≡ self.entry.outlet.taken }
    {
        let FileOutlet { created, .. } = self;
        match created {
            Opened::Done(file) => file.into_taken(),
            Opened::NotYet | Opened::Failed(_) => Given::new(),
        }
    }

    /// Removes what stands beside the file at the path.
    fn remove_rest(&self) {
        if let Some(beside) = &self.beside {
            beside.remove(self.files);
        }
    }

    /// Latches a failure of what comes behind the writes.
    fn fail(&mut self)
        ensures outlet { self.new.outlet ≡ record self.old.outlet { failed = true } }
    {
        match &mut self.created {
            Opened::Done(file) => file.fail(),
            Opened::NotYet => {
                let error = io::Error::from(io::ErrorKind::NotFound);
                self.created = Opened::Failed(error);
            }
            Opened::Failed(_) => {}
        }
    }
}

impl<R: Files + Print> FileOutlet<'_, R> {
    /// Ends the writes. A text that is whole takes the place of the file that the path leads to;
    /// else, and where it cannot, it is removed, and that file is as it was.
    ///
    /// An error is `Write`: a write had failed, or the text cannot be put in its place.
    pub fn end(&mut self, is_whole: bool) -> Result<(), Error>
        ensures sound { OnOk result (IsTrue is_whole → IsFalse self.old.outlet.failed) }
        ensures ended { OnOk result ((self.new.outlet ≡ self.old.outlet)
            × (self.new.is_put ≡ is_whole)) }
        ensures failed { OnErr result (IsTrue is_whole
            × (self.new.outlet ≡ record self.old.outlet { failed = true })
            × IsFalse self.new.is_put) }
    {
        if !is_whole {
            self.remove_rest();
            self.is_put = false;
            return Ok(());
        }
        if self.take_place() {
            self.is_put = true;
            return Ok(());
        }
        self.remove_rest();
        self.fail();
        self.is_put = false;
        Err(Error::Write)
    }

    /// Puts what was written in its place, and answers whether it stands there.
    fn take_place(&self) -> bool
        ensures { IsTrue result → IsFalse self.now.outlet.failed }
    {
        if self.has_failed() {
            return false;
        }
        match &self.beside {
            Some(beside) => beside.take_place(self.files).is_ok(),
            None => true,
        }
    }
}

impl<R: Files + Print + AllocGlobal> FileOutlet<'_, R> {
    /// Creates the file, where it is not created yet.
    fn create_once(&mut self) -> Result<(), CreateError>
        requires { IsFalse self.old.outlet.failed }
        ensures created { OnOk result (IsTrue self.new.is_created) }
        ensures state { self.new.outlet ≡ record
            self.old.outlet { failed = is_refused result } }
    {
        if !matches!(self.created, Opened::NotYet) {
            return Ok(());
        }
        match create_out(self.files, self.path) {
            Ok((writer, beside)) => {
                self.created = Opened::Done(Latched::new(writer));
                self.beside = beside;
                Ok(())
            }
            Err(error) if error.kind() == io::ErrorKind::OutOfMemory => Err(CreateError::NoMemory),
            Err(error) => {
                self.created = Opened::Failed(error);
                Err(CreateError::Refused)
            }
        }
    }
}

impl<R: Files + Print> Outlet for FileOutlet<'_, R> {
    ghost state = { λ file. file.outlet };

    /// Without a file that was created it is an error.
    fn write(&mut self, piece: &[u8]) -> io::Result<usize> {
        match &mut self.created {
            Opened::Done(file) => file.write(piece),
            Opened::NotYet | Opened::Failed(_) => {
                let error = io::Error::from(io::ErrorKind::NotFound);
                self.created = Opened::Failed(error);
                Err(error)
            }
        }
    }

    fn has_failed(&self) -> bool {
        match &self.created {
            Opened::Done(file) => file.has_failed(),
            Opened::NotYet => false,
            Opened::Failed(_) => true,
        }
    }
}

impl<R: Files + Print + AllocGlobal> Create for FileOutlet<'_, R> {
    ghost creates = { λ _ file. IsTrue file.is_created };

    fn create(&mut self) -> Result<(), CreateError> {
        self.create_once()
    }

    fn leads_to(&self, file: FileId) -> bool {
        if is_output(self.path) {
            return is_at(self.files, "/dev/stdout", file);
        }
        is_at(self.files, self.path, file)
    }
}

/// Whether a path leads to this file.
fn is_at<R: Files>(files: &R, path: &str, file: FileId) -> bool {
    match fs::metadata(files, path) {
        Ok(metadata) => FileId::of(&metadata) == Some(file),
        Err(_) => false,
    }
}
