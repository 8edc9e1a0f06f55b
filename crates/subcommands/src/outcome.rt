//! How the program ends by the work on a text.
ghost use Rattle.std.specs.Prelude.{◌≡◌, IsErrOf, IsFalse, IfErr, IfOk, OnOk};
ghost use Rattle.streams.specs.Errors.{is_err_of_read};
ghost use Rattle.renderings.specs.Outcomes.{fails_with};
ghost use Rattle.subcommands.specs.JobTexts.{LeavesLine};
ghost use Rattle.requests.specs.Status.{is_stop_of_read, is_stop_of_write, IsEndOfText};

use job_reports::line_of_failure;
use renderings::Outcome;
use requests::Status;
use std::alloc::Allocator;
use streams::{Error, Outlet, write_text};
use verdict::Failure;

/// How the program ends by the work on a text: by what stopped it, or by its outcome, for which the
/// line of a failure is written.
pub fn end_by<O: Outlet, A: Allocator + Copy>(
    alloc: A,
    work: Result<Outcome, Error>,
    stdout: &mut O,
) -> Status
    requires { OnOk work (IsFalse (O.state stdout.old).failed) }
    ensures end { IsEndOfText result }
    ensures ok { IfOk work (λ outcome.
        LeavesLine outcome result (O.state stdout.old) (O.state stdout.new)) }
    ensures err { IfErr work (λ error. (result ≡ Status.Stopped error)
        × (stdout.new ≡ stdout.old)) }
    ensures read { is_stop_of_read result ≡ is_err_of_read work }
    ensures write { OnOk work ((O.state stdout.new).failed ≡ is_stop_of_write result) }
    ensures turns { result ≡ Status.Stopped Error.Turns → IsErrOf work Error.Turns }
{
    match work {
        Ok(outcome) => end_by_outcome(alloc, outcome, stdout),
        Err(error) => Status::Stopped(error),
    }
}

/// Writes the line of a failure. Of a job that was gone through to its end there is none.
fn end_by_outcome<O: Outlet, A: Allocator + Copy>(
    alloc: A,
    outcome: Outcome,
    stdout: &mut O,
) -> Status
    requires { IsFalse (O.state stdout.old).failed }
    ensures line { LeavesLine outcome result (O.state stdout.old) (O.state stdout.new) }
    ensures write { (O.state stdout.new).failed ≡ is_stop_of_write result }
{
    match outcome.failure() {
        None => Status::Pass,
        Some(failure) => write_failure(alloc, failure, stdout),
    }
}

fn write_failure<O: Outlet, A: Allocator + Copy>(
    alloc: A,
    failure: Failure,
    stdout: &mut O,
) -> Status
    requires { IsFalse (O.state stdout.old).failed }
    ensures line { LeavesLine (fails_with failure) result
        (O.state stdout.old) (O.state stdout.new) }
    ensures write { (O.state stdout.new).failed ≡ is_stop_of_write result }
{
    let Ok(line) = line_of_failure(alloc, failure) else {
        return Status::Stopped(Error::Memory);
    };
    match write_text(stdout, line.as_slice()) {
        Ok(()) => Status::Fail,
        Err(error) => Status::Stopped(error),
    }
}
