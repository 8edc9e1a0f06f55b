//! The files that were read and written, with the paths that they were asked for at. Only proofs
//! read this: it takes no memory, and nothing is done for it at run time.
ghost use Rattle.std.specs.Prelude.{◌≡◌, List, [], ◌∷◌, ◌++◌, map, option_map, is_some};
ghost use Rattle.std.specs.Prelude.{IfOk, IsFalse, IsTrue, OnErr};
ghost use Rattle.std.specs.Borrow.{ftrue};
ghost use Rattle.streams.specs.Used.{FileUse, NotEntered, SameFile, TextsAt, look_of, read_at};
ghost use Rattle.streams.specs.Used.{read_of_job, use_of, written_at};

use crate::ended::Ended;
use crate::file_at::{OutletAt, SourceAt};
use crate::file_id::is_same_file;
use crate::given::Given;
use crate::outlet::Outlet;
use crate::source::Source;
use std::alloc::AllocError;
use std::io::Print;
use std::marker::Model;
use std::rt::Files;
use std::{fs, io};

/// What a file had come to when no more was read of it or written to it.
#[derive(Drop)]
pub struct FileEnd<'a> {
    pub path: &'a str,
    /// A look found that a folder is not entered, or that this other path leads to the same file.
    pub is_look: bool,
    pub other: Option<&'a str>,
    pub is_written: bool,
    /// These are texts under words, and no path.
    pub are_texts: bool,
    pub words: Given,
    /// What its reads gave, or the texts.
    pub given: Given,
    /// What its writes took.
    pub taken: Given,
    pub has_failed: bool,
    /// What its writes took was put in its place.
    pub is_put: bool,
}

/// The uses of files that have ended so far. A clause reads them as `uses`.
#[derive(Drop)]
pub struct FileUses {
    pub ghost uses: { List FileUse },
}

impl Model for FileUses {
    ghost also_owns = { λ _. ftrue };
}

impl FileUses {
    fn new() -> FileUses
        ensures { result.uses ≡ [] }
    {
        FileUses {}
    }

    #[inline(always)]
    fn and(&self, _file: &FileEnd<'_>) -> FileUses
        ensures { result.uses ≡ self.now.uses ++ use_of _file.now ∷ [] }
    {
        FileUses {}
    }

    #[inline(always)]
    fn and_jobs(&self, _ended: &Ended) -> FileUses
        ensures { result.uses ≡ self.now.uses ++ map read_of_job _ended.now.jobs }
    {
        FileUses {}
    }
}

/// The files that were read and written so far, in the order in which that ended. A clause sees it
/// as the list of them. Nothing but `read`, `written`, `texts`, `jobs`, `enter` and `is_same_file`
/// adds one.
#[derive(Drop)]
pub struct FilesUsed {
    so_far: FileUses,
}

impl Model for FilesUsed {
    ghost use Rattle.std.specs.Prelude.{List};
    ghost use Rattle.streams.specs.Used.{FileUse};

    ghost Value = { List FileUse };

    ghost view = { λ used. used.so_far.uses };
}

impl FilesUsed {
    /// No file was read or written yet.
    pub fn new() -> FilesUsed
        ensures { result ≡ [] }
    {
        FilesUsed {
            so_far: FileUses::new(),
        }
    }

    /// And then the texts under these words, of which no more is read: they gave this.
    pub fn texts(&mut self, words: Given, given: Given, has_failed: bool)
        ensures { self.new ≡ self.old ++ TextsAt words.pieces given.pieces has_failed ∷ [] }
    {
        let taken = Given::new();
        self.so_far = self.so_far.and(&FileEnd {
            path: "",
            is_look: false,
            other: None,
            is_written: false,
            are_texts: true,
            words,
            given,
            taken,
            has_failed,
            is_put: false,
        });
    }

    /// And then these jobs, each under its name.
    pub fn jobs(&mut self, ended: Ended)
        ensures { self.new ≡ self.old ++ map read_of_job ended.jobs }
    {
        self.so_far = self.so_far.and_jobs(&ended);
    }

    /// And then this one, of which no more is read.
    pub fn read<R: Files>(&mut self, source: SourceAt<'_, R>)
        ensures { self.new ≡ self.old
            ++ read_at source.entry.path.now source.entry.file.source ∷ [] }
    {
        let SourceAt { path, file } = source;
        let has_failed = file.has_failed();
        let given = file.into_given();
        let taken = Given::new();
        self.so_far = self.so_far.and(&FileEnd {
            path,
            is_look: false,
            other: None,
            is_written: false,
            are_texts: false,
            words: Given::new(),
            given,
            taken,
            has_failed,
            is_put: false,
        });
    }

    /// And then this one, to which no more is written.
    pub fn written<R: Files + Print>(&mut self, outlet: OutletAt<'_, R>)
        ensures { self.new ≡ self.old
            ++ written_at outlet.entry.path.now outlet.entry.file.outlet
            outlet.entry.file.is_put ∷ [] }
    {
        let OutletAt { path, file } = outlet;
        let has_failed = file.has_failed();
        let is_put = file.is_put();
        let given = Given::new();
        let taken = file.into_taken();
        self.so_far = self.so_far.and(&FileEnd {
            path,
            is_look: false,
            other: None,
            is_written: true,
            are_texts: false,
            words: Given::new(),
            given,
            taken,
            has_failed,
            is_put,
        });
    }

    /// Looks whether the system enters a folder: none, and nothing more, where it does; else why it
    /// does not, which is told.
    ///
    /// An error is lack of memory, and nothing is told.
    pub fn enter<R: Files + AllocGlobal>(
        &mut self,
        files: &R,
        folder: &str,
    ) -> Result<Option<io::Error>, AllocError>
        ensures told { IfOk result (λ fault. IsTrue (is_some fault) →
            self.new ≡ self.old ++ NotEntered folder.now ∷ []) }
        ensures quiet { IfOk result (λ fault. IsFalse (is_some fault) → self.new ≡ self.old) }
        ensures refused { OnErr result (self.new ≡ self.old) }
    {
        let mut inside = String::new(files.alloc());
        inside.push_str(folder)?;
        inside.push_str("/.")?;
        match fs::metadata(files, inside.as_str()) {
            Ok(_) => Ok(None),
            Err(error) => {
                self.found(folder, None);
                Ok(Some(error))
            }
        }
    }

    /// Looks whether two paths lead to one plain file. Where they do, that is told.
    pub fn is_same_file<R: Files>(&mut self, files: &R, path: &str, other: &str) -> bool
        ensures told { IsTrue result → self.new ≡ self.old ++ SameFile path.now other.now ∷ [] }
        ensures quiet { IsFalse result → self.new ≡ self.old }
    {
        if is_same_file(files, path, other) {
            self.found(path, Some(other));
            return true;
        }
        false
    }

    /// And then what a look has found.
    fn found(&mut self, path: &str, other: Option<&str>)
        ensures { self.new ≡ self.old
            ++ look_of path.now (option_map (λ other. other.now) other.entry) ∷ [] }
    {
        self.so_far = self.so_far.and(&FileEnd {
            path,
            is_look: true,
            other,
            is_written: false,
            are_texts: false,
            words: Given::new(),
            given: Given::new(),
            taken: Given::new(),
            has_failed: false,
            is_put: false,
        });
    }
}
