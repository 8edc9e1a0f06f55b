//! The file of the names of jobs.
ghost use Rattle.std.specs.Prelude.{◌≡◌, ◌++◌, [], IfErr, IfOk, IsFalse, IsSomeAnd, MatchOption};
ghost use Rattle.std.specs.Prelude.{OnOk, map, option_map};
ghost use Rattle.many_requests.specs.Names.{AreBytesBy, AreBytesOf, AreNamesAt, LeadsTo};
ghost use Rattle.many_requests.specs.Names.{names_in};
ghost use Rattle.job_reports.specs.Refusals.{TellsOfNames};

use job_reports::tell_unread;
use named_inputs::{FileJobs, Jobs, is_input, read_front};
use requests::Status;
use std::alloc::{AllocError, Allocator};
use std::io::Input;
use std::rt::Files;
use streams::{Error, FilesUsed, Outlet, Source, SourceAt};

/// The bytes of the file of names at a path, or none where there is no such file.
pub fn read_names<R: Files + Input + AllocGlobal, E: Outlet>(
    rt: &R,
    path: Option<&str>,
    used: &mut FilesUsed,
    stderr: &mut E,
) -> Result<Vec<u8>, Status>
    requires { IsFalse (E.state stderr.old).failed }
    ensures read { IfOk result (λ names. AreNamesAt
        (option_map (λ path. path.now) path.entry) used.old used.new names.items) }
    ensures quiet { OnOk result (stderr.new ≡ stderr.old) }
    ensures end { IfErr result (λ status. IsSomeAnd path.entry (λ path.
        TellsOfNames path.now status (E.state stderr.old) (E.state stderr.new))) }
{
    let Some(path) = path else {
        return Ok(Vec::new(rt.alloc()));
    };
    read_named(rt, path, used, stderr)
}

/// The bytes of the file of names at a path, or those of standard input.
fn read_named<R: Files + Input + AllocGlobal, E: Outlet>(
    rt: &R,
    path: &str,
    used: &mut FilesUsed,
    stderr: &mut E,
) -> Result<Vec<u8>, Status>
    requires { IsFalse (E.state stderr.old).failed }
    ensures read { IfOk result (λ names. AreBytesOf path.now used.old used.new names.items) }
    ensures quiet { OnOk result (stderr.new ≡ stderr.old) }
    ensures end { IfErr result (λ status. TellsOfNames path.now status
        (E.state stderr.old) (E.state stderr.new)) }
{
    if is_input(path.as_bytes()) {
        let mut input = FileJobs::new(rt).job(path.as_bytes());
        return read_bytes(rt.alloc(), &mut input, path, stderr);
    }
    let mut source = SourceAt::new(rt, path);
    let names = read_bytes(rt.alloc(), &mut source.file, path, stderr);
    used.read(source);
    names
}

/// The bytes of a file of names, which the words name so.
fn read_bytes<S: Source, E: Outlet, A: Allocator + Copy>(
    alloc: A,
    file: &mut S,
    path: &str,
    stderr: &mut E,
) -> Result<Vec<u8, A>, Status>
    requires file { IsFalse (S.state file.old).failed }
    requires stderr { IsFalse (E.state stderr.old).failed }
    ensures read { IfOk result (λ names. AreBytesBy (S.state file.old) (S.state file.new)
        names.items) }
    ensures quiet { OnOk result (stderr.new ≡ stderr.old) }
    ensures end { IfErr result (λ status. TellsOfNames path.now status
        (E.state stderr.old) (E.state stderr.new)) }
{
    match read_front(alloc, file, usize::MAX) {
        Ok(names) => Ok(names),
        Err(Error::Read) => {
            let front = b"ERROR read names ";
            Err(tell_unread(alloc, front, path, file.error(), stderr))
        }
        Err(error) => Err(Status::Stopped(error)),
    }
}

/// Appends the names that a file has, each ended by a zero byte, the last one perhaps by the end.
pub fn push_names<'n>(all: &mut Vec<&'n [u8]>, names: &'n [u8]) -> Result<(), AllocError>
    ensures { OnOk result (map (λ name. name.now) all.new.items ≡
        map (λ name. name.now) all.old.items ++ names_in names.now) }
{
    let mut rest = names;
    while let Some((name, behind)) = cut_name(rest) {
        all.push(name)?;
        rest = behind;
    }
    Ok(())
}

/// The first name, up to its zero byte or to the end, and what stands behind it.
fn cut_name(names: &[u8]) -> Option<(&[u8], &[u8])>
    ensures { MatchOption result (names.now ≡ []) (λ cut. LeadsTo names.now cut.0.now cut.1.now) }
{
    if names.is_empty() {
        return None;
    }
    for (end, byte) in names.iter().enumerate() {
        if *byte == 0 {
            return Some((&names[..end], &names[end + 1..]));
        }
    }
    Some((names, &[]))
}
