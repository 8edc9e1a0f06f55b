//! Files beside the paths that they stand at. A path is not lent with its file, so that it is known
//! behind the work on it, too.
ghost use Rattle.std.specs.Prelude.{◌≡◌};
ghost use Rattle.streams.specs.Files.{no_outlet, no_source};

use crate::file_outlet::FileOutlet;
use crate::file_source::FileSource;
use std::rt::Files;

/// A file that is read, and its path.
#[derive(Drop)]
pub struct SourceAt<'a, R: Files> {
    pub path: &'a str,
    pub file: FileSource<'a, R>,
}

impl<'a, R: Files> SourceAt<'a, R> {
    /// The file at a path, of which nothing is read yet.
    pub fn new(files: &'a R, path: &'a str) -> SourceAt<'a, R>
        ensures path { result.path.now ≡ path.now }
        ensures file { result.file.source ≡ no_source }
        ensures opens { result.file.path ≡ path.now }
    {
        SourceAt {
            path,
            file: FileSource::new(files, path),
        }
    }
}

/// A file that is written, and its path.
#[derive(Drop)]
pub struct OutletAt<'a, R: Files> {
    pub path: &'a str,
    pub file: FileOutlet<'a, R>,
}

impl<'a, R: Files> OutletAt<'a, R> {
    /// The file at a path, which is not created yet.
    pub fn new(files: &'a R, path: &'a str) -> OutletAt<'a, R>
        ensures path { result.path.now ≡ path.now }
        ensures file { result.file.outlet ≡ no_outlet }
        ensures creates { result.file.path ≡ path.now }
    {
        OutletAt {
            path,
            file: FileOutlet::new(files, path),
        }
    }
}
