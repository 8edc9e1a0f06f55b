//! Jobs whose bytes are gone once they are read.
ghost use Rattle.std.specs.Prelude.{◌≡◌, ◌≤◌, Contains, IfNone, IfSome, IsFalse, count_by, length};
ghost use Rattle.std.specs.Prelude.{map, option_map};
ghost use Rattle.many_requests.specs.Inputs.{RefusesInput, is_apart, reads_input_again};
ghost use Rattle.named_inputs.specs.FileJobs.{is_input};
ghost use Rattle.many_jobs.specs.Asked.{asked_for};

use job_reports::{is_pipe, refuse_pipe, refuse_words};
use many_jobs::ManyJobs;
use named_inputs::is_input;
use requests::Status;
use std::rt::Files;
use streams::{Error, Outlet, write_text};

const INPUT_AGAIN: &[u8] =
    b"error: standard input can be read only once, as one job or as the list, without --notes and --each\n";

/// Why a check reads a job again.
const READ_APART: &[u8] = b"--each reads it for each printer, and --notes once more\n";

/// Why a comparison reads a job again.
pub const READ_FOR_EACH: &[u8] = b"compare reads both jobs once for each printer\n";

/// Refuses to read standard input again, or a job that is no file: of that standard error is told.
/// `names_from` is the file of the names of the jobs.
pub fn refuse_inputs<R: Files + AllocGlobal, E: Outlet>(
    rt: &R,
    names_from: Option<&str>,
    many: &ManyJobs<'_, '_>,
    stderr: &mut E,
) -> Option<Status>
    requires { IsFalse (E.state stderr.old).failed }
    ensures once { IfNone result (IsFalse (reads_input_again
        (option_map (λ path. path.now) names_from.entry) (asked_for many.now))) }
    ensures quiet { IfNone result (stderr.new ≡ stderr.old) }
    ensures refused { IfSome result (λ status. RefusesInput
        (option_map (λ path. path.now) names_from.entry) (asked_for many.now) status
        (E.state stderr.old) (E.state stderr.new)) }
{
    if reads_input_again(names_from, many) {
        return Some(refuse_words(INPUT_AGAIN, stderr));
    }
    if !is_apart(many) {
        return None;
    }
    match first_pipe(rt, many.jobs) {
        Some(name) => Some(refuse_pipe(rt.alloc(), name, READ_APART, stderr)),
        None => None,
    }
}

/// Whether standard input would be read more than once, for the names of the jobs or as a job.
fn reads_input_again(names_from: Option<&str>, many: &ManyJobs<'_, '_>) -> bool
    ensures { result ≡ reads_input_again (option_map (λ path. path.now) names_from.entry)
        (asked_for many.now) }
{
    let of_names = usize::from(names_from.is_some_and(|path| is_input(path.as_bytes())));
    let of_jobs = input_count(many.jobs);
    of_names + of_jobs > 1 || is_apart(many) && of_jobs > 0
}

/// How many of these jobs are standard input.
fn input_count(jobs: &[&[u8]]) -> usize
    ensures count { result ≡ count_by is_input (map (λ job. job.now) jobs.now) }
    ensures most { result ≤ length jobs.now }
{
    jobs.iter().filter(|job| is_input(job)).count()
}

/// Whether each job is read more than once.
fn is_apart(many: &ManyJobs<'_, '_>) -> bool
    ensures { result ≡ is_apart (asked_for many.now) }
{
    many.tells_notes || many.is_each && many.printers.len() > 1
}

/// The first job whose bytes are gone once they are read.
fn first_pipe<'n, R: Files>(rt: &R, jobs: &[&'n [u8]]) -> Option<&'n [u8]>
    ensures { IfSome result (λ name. Contains (map (λ name. name.now) jobs.now) name.now) }
{
    for job in jobs {
        if is_pipe(rt, job) {
            return Some(*job);
        }
    }
    None
}
