//! The file whose place a text takes that is written to a path.

use std::fs::{Metadata, OpenOptions};
use std::os::unix::fs::MetadataExt;
use std::path::Path;
use std::rt::Files;
use std::{fs, io};

/// So many links are followed from a path.
const MOST_LINKS: u32 = 40;

/// Who may read, write and run a file, of the bits of its mode.
const PERMISSIONS: u32 = 0o777;

/// The path of a plain file, and its mode if it is there.
#[derive(Drop)]
pub(crate) struct Place {
    pub(crate) target: String,
    pub(crate) mode: Option<u32>,
}

impl Place {
    /// The file that a path leads to. `None` for a device, a pipe, a folder and a file that is open
    /// as a stream: what stands there is written itself.
    ///
    /// An error is that of the system for a file that could not be written, or `OutOfMemory`.
    pub(crate) fn of<R: Files + AllocGlobal>(files: &R, path: &str) -> io::Result<Option<Place>> {
        let Some(found) = found_at(files, path)? else {
            return Place::of_new(files, path);
        };
        if !found.is_file() {
            return Ok(None);
        }
        let Some(target) = followed(files, path)? else {
            return Ok(None);
        };
        // A file that nobody may write keeps what it has, though its folder would take another one.
        let _file = OpenOptions::new().write(true).open(files, target.as_str())?;
        let mode = Some(found.mode() & PERMISSIONS);
        Ok(Some(Place { target, mode }))
    }

    /// The place of a file that is not there yet.
    fn of_new<R: Files + AllocGlobal>(files: &R, path: &str) -> io::Result<Option<Place>> {
        let Some(target) = followed(files, path)? else {
            return Ok(None);
        };
        if target.as_str().is_empty() || target.as_str().ends_with('/') {
            return Err(io::Error::from(io::ErrorKind::NotFound));
        }
        Ok(Some(Place { target, mode: None }))
    }
}

/// What stands at a path, if there is anything.
fn found_at<R: Files>(files: &R, path: &str) -> io::Result<Option<Metadata>> {
    match fs::metadata(files, path) {
        Ok(found) => Ok(Some(found)),
        Err(error) if error.kind() == io::ErrorKind::NotFound => Ok(None),
        Err(error) => Err(error),
    }
}

/// The path that a path leads to by the links at its end; none where that is an open stream.
fn followed<R: Files + AllocGlobal>(files: &R, path: &str) -> io::Result<Option<String>> {
    let mut at = String::from_str(files.alloc(), path)?;
    for _ in 0..MOST_LINKS {
        if is_stream(at.as_str()) {
            return Ok(None);
        }
        if !is_link(files, at.as_str()) {
            return Ok(Some(at));
        }
        let link = fs::read_link(files, at.as_str())?;
        let next = Path::new(at.as_str()).with_file_name(files.alloc(), link.as_str())?;
        at = next.into_string();
    }
    Err(io::Error::from(io::ErrorKind::FilesystemLoop))
}

/// Whether a path stands for what is open already, as `/dev/stdout` does by its link.
fn is_stream(path: &str) -> bool {
    path.starts_with("/proc/") || path.starts_with("/dev/fd/")
}

fn is_link<R: Files>(files: &R, path: &str) -> bool {
    match fs::symlink_metadata(files, path) {
        Ok(found) => found.is_symlink(),
        Err(_) => false,
    }
}
