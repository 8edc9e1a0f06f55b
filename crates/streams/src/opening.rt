//! Sources that are opened, and outlets that are created, apart from what is read and written.
ghost use Rattle.std.specs.Prelude.{◌≡◌, IsFalse, None, OnOk, Option, is_err};
ghost use Rattle.streams.specs.Errors.{is_refused};
ghost use Rattle.streams.specs.declared.file_id.FileId.{FileId};

use crate::error::CreateError;
use crate::file_id::FileId;
use crate::latched::Latched;
use crate::outlet::Outlet;
use crate::source::Source;
use std::io;
use std::io::{Read, Write};

/// A source that can be opened before its first read.
pub trait Open: Source {
    // How it was before it was opened, and how it is behind that.
    ghost opens: { Self → Self → Type 0 };

    // The file that was opened, where it is one that a write would change.
    ghost file: { Self → Option FileId };

    /// Opens the source, of which nothing is read yet.
    fn open(&mut self) -> io::Result<()>
        requires { IsFalse (Self.state self.old).failed }
        ensures opened { OnOk result (opens self.old self.new) }
        ensures state { Self.state self.new ≡ record
            (Self.state self.old) { failed = is_err result } };

    /// The file that was opened, where it is one that a write would change.
    fn file(&self) -> Option<FileId>
        ensures { result ≡ file self.now };
}

/// An outlet that can be created before its first write.
pub trait Create: Outlet {
    // How it was before it was created, and how it is behind that.
    ghost creates: { Self → Self → Type 0 };

    /// Creates the outlet, to which nothing is written yet. Want of memory is no failure of it.
    fn create(&mut self) -> Result<(), CreateError>
        requires { IsFalse (Self.state self.old).failed }
        ensures created { OnOk result (creates self.old self.new) }
        ensures state { Self.state self.new ≡ record
            (Self.state self.old) { failed = is_refused result } };

    /// Whether this file is what would be written, once the outlet is created. No clause can say
    /// what stands at a path.
    fn leads_to(&self, file: FileId) -> bool;
}

impl<T: Read> Open for Latched<T> {
    ghost opens = { λ old new. new ≡ old };

    ghost file = { λ _. None };

    /// A reader is open from the start.
    fn open(&mut self) -> io::Result<()> {
        Ok(())
    }

    fn file(&self) -> Option<FileId> {
        None
    }
}

impl<T: Write> Create for Latched<T> {
    ghost creates = { λ old new. new ≡ old };

    /// A writer is there from the start.
    fn create(&mut self) -> Result<(), CreateError> {
        Ok(())
    }

    fn leads_to(&self, _file: FileId) -> bool {
        false
    }
}
