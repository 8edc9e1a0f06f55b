//! A file that is written beside another one, and takes its place when it is whole.

use std::fs::{OpenFile, OpenOptions, Permissions};
use std::os::unix::fs::{OpenOptionsExt, PermissionsExt};
use std::path::Path;
use std::rt::Files;
use std::{fs, io};

/// So many names are tried for a file that is written beside another one.
const MOST_NAMES: u32 = 1000;

/// Nobody else reads the file before it has the mode of the one whose place it takes.
const PRIVATE: u32 = 0o600;

/// The path of a file that is written, and that of the one whose place it takes.
#[derive(Drop)]
pub(crate) struct Beside {
    path: String,
    target: String,
}

impl Beside {
    /// Creates a file in the folder of the one at `target`, whose mode this is, if it is there.
    pub(crate) fn create<R: Files + AllocGlobal>(
        files: &R,
        target: String,
        mode: Option<u32>,
    ) -> io::Result<(R::File, Beside)> {
        let (file, path) = create_new(files, target.as_str(), mode)?;
        let beside = Beside { path, target };
        if let Err(error) = set_mode(&file, mode) {
            beside.remove(files);
            return Err(error);
        }
        Ok((file, beside))
    }

    /// Puts the file in the place of the other one.
    pub(crate) fn take_place<R: Files>(&self, files: &R) -> io::Result<()> {
        fs::rename(files, self.path.as_str(), self.target.as_str())
    }

    /// Removes the file, where that can be done.
    pub(crate) fn remove<R: Files>(&self, files: &R) {
        let _ = fs::remove_file(files, self.path.as_str());
    }
}

/// Creates a file under a name that no file of the folder has.
fn create_new<R: Files + AllocGlobal>(
    files: &R,
    target: &str,
    mode: Option<u32>,
) -> io::Result<(R::File, String)> {
    let mut options = OpenOptions::new();
    options.write(true).create_new(true);
    if mode.is_some() {
        options.mode(PRIVATE);
    }
    for number in 0..MOST_NAMES {
        let name = format!(in files.alloc(); ".pclcheck-{number}.out")?;
        let path = Path::new(target).with_file_name(files.alloc(), name.as_str())?;
        match options.open(files, path.as_str()) {
            Ok(file) => return Ok((file, path.into_string())),
            Err(error) if error.kind() == io::ErrorKind::AlreadyExists => {}
            Err(error) => return Err(error),
        }
    }
    Err(io::Error::from(io::ErrorKind::AlreadyExists))
}

/// Gives a file this mode, if there is one.
fn set_mode<F: OpenFile>(file: &F, mode: Option<u32>) -> io::Result<()> {
    match mode {
        Some(mode) => file.set_permissions(Permissions::from_mode(mode)),
        None => Ok(()),
    }
}
