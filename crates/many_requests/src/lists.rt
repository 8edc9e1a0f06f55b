//! Lists of names from which there is nothing to check.
ghost use Rattle.std.specs.Prelude.{◌≡◌, IfOk, IsFalse, map, option_map};
ghost use Rattle.many_requests.specs.Lists.{RefusesList, is_of_lines, is_refused_list, list_fault};
ghost use Rattle.many_requests.specs.Lists.{list_line, path_of};

use job_reports::{push_named_first, refuse_words};
use requests::Status;
use std::alloc::{AllocError, Global};
use streams::{Error, Outlet};

/// Whether a list is refused that has these bytes and leads to these jobs: its names stand in
/// lines, or there is no job, and that is not allowed.
pub fn is_refused_list(allows_empty: bool, names: &[u8], jobs: &[&[u8]]) -> bool
    ensures { result ≡ is_refused_list allows_empty names.now (map (λ job. job.now) jobs.now) }
{
    is_of_lines(names) || !allows_empty && jobs.is_empty()
}

/// Whether names stand in lines, and none is ended by a zero byte.
fn is_of_lines(names: &[u8]) -> bool
    ensures { result ≡ is_of_lines names.now }
{
    names.contains(&b'\n') && !names.contains(&0)
}

/// What is wrong with a list of these bytes.
pub fn list_fault(names: &[u8]) -> &'static [u8]
    ensures { result.now ≡ list_fault names.now }
{
    if is_of_lines(names) {
        b"the list has no zero byte; 'find -print0' writes one behind each name\n"
    } else {
        b"the list names no job; --allow-empty lets it pass\n"
    }
}

/// The path of a list; where words alone name jobs there is none.
pub fn path_of(names_from: Option<&str>) -> &[u8]
    ensures { result.now ≡ path_of (option_map (λ path. path.now) names_from.entry) }
{
    match names_from {
        Some(path) => path.as_bytes(),
        None => &[],
    }
}

/// Refuses the list at a path: of that standard error is told.
pub fn refuse_list<E: Outlet>(alloc: Global, path: &[u8], fault: &[u8], stderr: &mut E) -> Status
    requires { IsFalse (E.state stderr.old).failed }
    ensures { RefusesList path.now fault.now result (E.state stderr.old) (E.state stderr.new) }
{
    match list_line(alloc, path, fault) {
        Ok(line) => refuse_words(line.as_slice(), stderr),
        Err(_) => Status::Stopped(Error::Memory),
    }
}

/// The line on such a list.
fn list_line(alloc: Global, path: &[u8], fault: &[u8]) -> Result<Vec<u8>, AllocError>
    ensures { IfOk result (λ line. line.items ≡ list_line path.now fault.now) }
{
    let mut line = Vec::new(alloc);
    line.extend_from_slice(b"error: ")?;
    push_named_first(alloc, &mut line, path)?;
    line.extend_from_slice(fault)?;
    Ok(line)
}
