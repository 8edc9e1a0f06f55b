//! Which file on this machine a path leads to.

use std::fs;
use std::fs::Metadata;
use std::os::unix::fs::MetadataExt;
use std::rt::Files;

/// A regular file, whichever path leads to it.
#[derive(Clone, Copy, PartialEq, Eq)]
pub struct FileId {
    device: u64,
    inode: u64,
}

impl FileId {
    /// The file that metadata tell of; none for a directory, a device or a pipe, which lose nothing
    /// where they are written.
    pub(crate) fn of(metadata: &Metadata) -> Option<FileId> {
        if !metadata.is_file() {
            return None;
        }
        Some(FileId {
            device: metadata.dev(),
            inode: metadata.ino(),
        })
    }
}

/// Whether two paths lead to one plain file.
pub fn is_same_file<R: Files>(files: &R, path: &str, other: &str) -> bool {
    match (file_at(files, path), file_at(files, other)) {
        (Some(one), Some(two)) => one == two,
        _ => false,
    }
}

/// The plain file that a path leads to, if there is one.
fn file_at<R: Files>(files: &R, path: &str) -> Option<FileId> {
    match fs::metadata(files, path) {
        Ok(found) => FileId::of(&found),
        Err(_) => None,
    }
}
