//! Jobs that are compared with those of their names in a folder, on files.

ghost use Rattle.std.specs.Prelude.{◌≡◌, ◌≢◌, [], Contains, IfNone, IfOk, IfSome, IsFalse, map};
ghost use Rattle.std.specs.Prelude.{string_bytes};
ghost use Rattle.std.specs.List.{list_any};
ghost use Rattle.compare_command.specs.Golden.{golden_for, names_of};
ghost use Rattle.many_requests.specs.GoldenJobs.{LeavesGoldenFiles, LeavesInFolder};
ghost use Rattle.many_requests.specs.GoldenJobs.{RefusesGolden, golden_names, golden_path};
ghost use Rattle.many_requests.specs.GoldenJobs.{golden_with, is_input_of, last_part, names_input};
ghost use Rattle.many_requests.specs.GoldenJobs.{pair_by};

use crate::inputs::READ_FOR_EACH;
use compare_command::{GoldenAsked, JobPair, compare_golden};
use job_reports::{is_pipe, refuse_pipe, refuse_words};
use named_inputs::{FileJobs, FileTexts, is_input};
use requests::Status;
use std::alloc::{AllocError, Global};
use std::io::Input;
use std::path::Path;
use std::rt::Files;
use streams::{Error, FilesUsed, Outlet};

/// What is told of standard input beside a folder.
const INPUT_IN_FOLDER: &[u8] =
    b"error: standard input has no name that a job in DIR could have; --golden compares files\n";

/// A job, and the path of the one in the folder that has its name.
#[derive(Drop)]
pub(crate) struct GoldenJob<'n> {
    pub path: String,
    pub new_name: &'n str,
}

/// These jobs, each with the path of the one in the folder that has its name.
pub(crate) fn golden_jobs<'n>(
    alloc: Global,
    folder: &str,
    jobs: &[&'n str],
) -> Result<Vec<GoldenJob<'n>>, AllocError>
    ensures { IfOk result (λ golden. map golden_names golden.items
        ≡ map (λ job. pair_by folder.now job.now) jobs.now) }
{
    let mut golden = Vec::new(alloc);
    for job in jobs {
        let one = golden_job(alloc, folder, job)?;
        golden.push(one)?;
    }
    Ok(golden)
}

fn golden_job<'n>(alloc: Global, folder: &str, job: &'n str) -> Result<GoldenJob<'n>, AllocError>
    ensures { IfOk result (λ golden. golden_names golden ≡ pair_by folder.now job.now) }
{
    let path = golden_path(alloc, folder, job)?;
    Ok(GoldenJob {
        path,
        new_name: job,
    })
}

/// The path of the job in a folder that has the name of the one at a path.
fn golden_path(alloc: Global, folder: &str, job: &str) -> Result<String, AllocError>
    ensures { IfOk result (λ path. string_bytes path ≡ golden_path folder.now job.now) }
{
    let path = Path::new(folder).join(alloc, last_part(job))?;
    Ok(path.into_string())
}

/// The name of what is at a path; where it has none, nothing.
fn last_part(path: &str) -> &str
    ensures { result.now ≡ last_part path.now }
{
    let found = Path::new(path).file_name();
    match found {
        Some(name) => name,
        None => "",
    }
}

/// The names of both jobs of each.
fn pairs_of<'g, 'n>(
    alloc: Global,
    golden: &'g [GoldenJob<'n>],
) -> Result<Vec<JobPair<'g>>, AllocError>
    ensures { IfOk result (λ pairs. map names_of pairs.items ≡ map golden_names golden.now) }
{
    let mut pairs = Vec::new(alloc);
    for job in golden {
        pairs.push(pair_of(job))?;
    }
    Ok(pairs)
}

fn pair_of<'g, 'n>(job: &'g GoldenJob<'n>) -> JobPair<'g>
    ensures { names_of result ≡ golden_names job.now }
{
    JobPair {
        old_name: job.path.as_str(),
        new_name: job.new_name,
    }
}

/// Compares these jobs with those of their names; else as it is asked.
pub(crate) fn compare_golden_jobs<R: Files + Input + AllocGlobal, O: Outlet, E: Outlet>(
    rt: &R,
    golden: &[GoldenJob<'_>],
    asked: &GoldenAsked<'_, '_>,
    used: &mut FilesUsed,
    stdout: &mut O,
    stderr: &mut E,
) -> Status
    requires stdout { IsFalse (O.state stdout.old).failed }
    requires stderr { IsFalse (E.state stderr.old).failed }
    requires some { asked.now.printers.now ≢ [] }
    ensures { LeavesInFolder (golden_with (map golden_names golden.now) (golden_for asked.now))
        result used.old used.new
        (O.state stdout.old) (O.state stdout.new) (E.state stderr.old) (E.state stderr.new) }
{
    let Ok(pairs) = pairs_of(rt.alloc(), golden) else {
        return Status::Stopped(Error::Memory);
    };
    let asked = GoldenAsked {
        pairs: pairs.as_slice(),
        printers: asked.printers,
        form: asked.form,
        nearness: asked.nearness,
        extent: asked.extent,
    };
    compare_golden_files(rt, &asked, used, stdout, stderr)
}

/// Compares pairs of jobs, unless one would be read again that can be read only once.
fn compare_golden_files<'r, R: Files + Input + AllocGlobal, O: Outlet, E: Outlet>(
    rt: &'r R,
    asked: &GoldenAsked<'_, 'r>,
    used: &mut FilesUsed,
    stdout: &mut O,
    stderr: &mut E,
) -> Status
    requires stdout { IsFalse (O.state stdout.old).failed }
    requires stderr { IsFalse (E.state stderr.old).failed }
    requires some { asked.now.printers.now ≢ [] }
    ensures { LeavesGoldenFiles (golden_for asked.now) result used.old used.new
        (O.state stdout.old) (O.state stdout.new) (E.state stderr.old) (E.state stderr.new) }
{
    if let Some(status) = refuse_golden(rt, asked, stderr) {
        return status;
    }
    let mut jobs = FileJobs::new(rt);
    let mut texts = FileTexts::new(rt);
    let status = compare_golden(rt.alloc(), &mut jobs, &mut texts, asked, stdout, stderr);
    texts.end(used);
    jobs.tell(used);
    status
}

/// Refuses standard input, or a job that is no file and would be read again: of that standard error
/// is told.
fn refuse_golden<R: Files + AllocGlobal, E: Outlet>(
    rt: &R,
    asked: &GoldenAsked<'_, '_>,
    stderr: &mut E,
) -> Option<Status>
    requires { IsFalse (E.state stderr.old).failed }
    ensures once { IfNone result (IsFalse (names_input (golden_for asked.now))) }
    ensures quiet { IfNone result (stderr.new ≡ stderr.old) }
    ensures refused { IfSome result (λ status. RefusesGolden (golden_for asked.now) status
        (E.state stderr.old) (E.state stderr.new)) }
{
    if names_input(asked) {
        return Some(refuse_words(INPUT_IN_FOLDER, stderr));
    }
    if asked.printers.len() <= 1 {
        return None;
    }
    match first_pipe(rt, asked.pairs) {
        Some(name) => Some(refuse_pipe(rt.alloc(), name.as_bytes(), READ_FOR_EACH, stderr)),
        None => None,
    }
}

/// Whether one of the new jobs is standard input.
fn names_input(asked: &GoldenAsked<'_, '_>) -> bool
    ensures { result ≡ names_input (golden_for asked.now) }
{
    has_input(asked.pairs)
}

fn has_input(pairs: &[JobPair<'_>]) -> bool
    ensures { result ≡ list_any (λ pair. is_input_of (names_of pair)) pairs.now }
{
    pairs.iter().any(|pair| is_input_of(*pair))
}

fn is_input_of(pair: JobPair<'_>) -> bool
    ensures { result ≡ is_input_of (names_of pair.entry) }
{
    is_input(pair.new_name.as_bytes())
}

/// The first of the new jobs whose bytes are gone once they are read.
fn first_pipe<'n, R: Files>(rt: &R, pairs: &[JobPair<'n>]) -> Option<&'n str>
    ensures { IfSome result (λ name. Contains
        (map (λ pair. pair.new_name.now) pairs.now) name.now) }
{
    for pair in pairs {
        if is_pipe(rt, pair.new_name.as_bytes()) {
            return Some(pair.new_name);
        }
    }
    None
}
