//! The command `check`.
ghost use Rattle.std.specs.Prelude.{◌≡◌, ◌≢◌, ◌+◌, ◌^◌, [], ◌||◌, length, map, IfOk, IfErr};
ghost use Rattle.std.specs.Prelude.{IsErrOf, IsFalse, IsTrue};
ghost use Rattle.streams.specs.Errors.{is_err_of_read, is_err_of_write};
ghost use Rattle.judgement.specs.Verdict.{IsExact, VerdictHolds};
ghost use Rattle.streams.specs.Outlet.{Adds};
ghost use Rattle.subcommands.specs.Check.{texts_by, IsRightFor, Leaves, LeavesAtStop};
ghost use Rattle.job_reports.specs.Right.{IsRightVerdict};
ghost use Rattle.named_inputs.specs.Fleet.{RefusesBy, RefusesFirst, ReachesSome};
ghost use Rattle.named_inputs.specs.Texts.{AsksInOrder};
ghost use Rattle.job_reports.specs.Lines.{verdict_line};
ghost use Rattle.requests.specs.Status.{is_refusal, is_stop_of_read, is_stop_of_write};

use device_profile::Profile;
use job_reports::line_of;
use named_inputs::{ProfileTexts, read_fleet};
use preflight::check_job;
use requests::Status;
use std::alloc::Allocator;
use streams::{Error, Latched, Outlet, Source, write_text};
use verdict::Verdict;

/// The command `check`: one line on standard output, by the verdict on the job for the printers
/// that the words PROFILE name. Each profile is read and judged before the next one, and the job
/// is read after all of them.
pub fn check<S: Source, T: ProfileTexts, O: Outlet, A: Allocator + Copy>(
    alloc: A,
    job: &mut S,
    texts: &mut T,
    profiles: &[&str],
    stdout: &mut O,
) -> Status
    requires job { IsFalse (S.state job.old).failed }
    requires texts { IsFalse (T.failed texts.old) }
    requires stdout { IsFalse (O.state stdout.old).failed }
    requires some { profiles.now ≢ [] }
    ensures line { Leaves result
        (IsRightFor (texts_by (map (λ word. T.text_of texts.old word.now) profiles.now)
        (T.given texts.old) (T.given texts.new)) (S.state job.old) (S.state job.new))
        (O.state stdout.old) (O.state stdout.new) }
    ensures refusal { RefusesFirst (map (λ word. T.text_of texts.old word.now) profiles.now)
        result }
    ensures refused { RefusesBy (T.given texts.old) (T.given texts.new) result }
    ensures named { AsksInOrder (map (λ word. word.now) profiles.now)
        (T.named texts.old) (T.named texts.new) }
    ensures reached { IsTrue (T.failed texts.new) →
        ReachesSome (map (λ word. T.text_of texts.old word.now) profiles.now) }
    ensures unread { IsTrue (is_refusal result || T.failed texts.new) → job.new ≡ job.old }
    ensures read { ((S.state job.new).failed || T.failed texts.new) ≡ is_stop_of_read result }
    ensures write { (O.state stdout.new).failed ≡ is_stop_of_write result }
    ensures turns { result ≡ Status.Stopped Error.Turns →
        length (S.state job.new).given ≡ length (S.state job.old).given + 2 ^ 40 }
{
    let fleet = match read_fleet(alloc, texts, profiles) {
        Ok(fleet) => fleet,
        Err(status) => return status,
    };
    match write_verdict(alloc, job, fleet.as_slice(), stdout) {
        Ok(Verdict::Pass { .. }) => Status::Pass,
        Ok(Verdict::Fail { .. }) => Status::Fail,
        Err(error) => Status::Stopped(error),
    }
}

/// Checks a job for a fleet, and writes the line of the verdict.
fn write_verdict<S: Source, O: Outlet, A: Allocator + Copy>(
    alloc: A,
    job: &mut S,
    fleet: &[Profile<A>],
    stdout: &mut O,
) -> Result<Verdict, Error>
    requires job { IsFalse (S.state job.old).failed }
    requires stdout { IsFalse (O.state stdout.old).failed }
    requires some { fleet.now ≢ [] }
    ensures ok { IfOk result (λ verdict. IsRightVerdict (S.state job.old)
        (S.state job.new) fleet.now verdict
        × Adds (O.state stdout.old) (O.state stdout.new) (verdict_line verdict)) }
    ensures err { IfErr result (λ error. LeavesAtStop error
        (IsRightVerdict (S.state job.old) (S.state job.new) fleet.now)
        (O.state stdout.old) (O.state stdout.new)) }
    ensures read { (S.state job.new).failed ≡ is_err_of_read result }
    ensures write { (O.state stdout.new).failed ≡ is_err_of_write result }
    ensures turns { IsErrOf result Error.Turns →
        length (S.state job.new).given ≡ length (S.state job.old).given + 2 ^ 40 }
{
    let verdict = check_job(alloc, job, fleet)?;
    let line = line_of(alloc, verdict)?;
    write_text(stdout, line.as_slice())?;
    Ok(verdict)
}

/// The verdict on a job that lies in memory, for a fleet.
///
/// The errors are those of `check_job`.
// It stands here, and not where it is called, for a crate that calls `check_job` gets a second
// instance of all that executes a job, beside that of `check`, and both are then slower.
pub fn verdict_on<A: Allocator + Copy>(
    alloc: A,
    job: &[u8],
    fleet: &[Profile<A>],
) -> Result<Verdict, Error>
    ensures exact { IfOk result (IsExact fleet.now job.now) }
    ensures promise { IfOk result (VerdictHolds fleet.now job.now) }
{
    let mut source = Latched::new(job);
    check_job(alloc, &mut source, fleet)
}
