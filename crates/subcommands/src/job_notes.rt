//! The command `notes`.
ghost use Rattle.std.specs.Prelude.{◌≡◌, ◌||◌, ◌++◌, ◌∷◌, [], IfErr, IfOk, IsErrOf, IsFalse, OnOk};
ghost use Rattle.streams.specs.Errors.{is_err_of_read};
ghost use Rattle.subcommands.specs.JobNotes.{EndsNotes, LeavesNotes, outcome_line, status_of_text};
ghost use Rattle.named_inputs.specs.KeptText.{kept_error};
ghost use Rattle.subcommands.specs.JobTexts.{EndsBy, JudgesFirst};
ghost use Rattle.named_inputs.specs.Fleet.{IsNamed};
ghost use Rattle.job_reports.specs.Lines.{verdict_line};
ghost use Rattle.requests.specs.Status.{is_stop_of_read, is_stop_of_write};
ghost use Rattle.verdict.specs.Failing.{failing};

use job_reports::line_of_failure;
use named_inputs::{KeptText, ProfileTexts, kept_error, read_profile};
use notes::{MOST_ITEMS, NoteLine, notes_of};
use renderings::Outcome;
use requests::Status;
use std::alloc::{AllocError, Allocator};
use streams::{Error, Outlet, Source, write_text};
use verdict::Failure;

/// The command `notes`: what the job leaves to the printer that the word PROFILE names, from its
/// first panel, on standard output, where macros may carry out `MOST_ITEMS` items. The profile is
/// read and judged before the job is read.
///
/// What is told is short, since each note is told once: it is written when the job is gone through.
pub fn tell_notes<S: Source, T: ProfileTexts, O: Outlet, A: Allocator + Copy>(
    alloc: A,
    job: &mut S,
    texts: &mut T,
    profile: &str,
    stdout: &mut O,
) -> Status
    requires job { IsFalse (S.state job.old).failed }
    requires texts { IsFalse (T.failed texts.old) }
    requires stdout { IsFalse (O.state stdout.old).failed }
    ensures ends { EndsBy result
        (λ old new. LeavesNotes result
        (IsNamed (T.text_of texts.old profile.now) (T.given texts.old) (T.given texts.new))
        old new (O.state stdout.old) (O.state stdout.new))
        (S.state job.old) (S.state job.new)
        ((S.state job.new).failed || T.failed texts.new) (O.state stdout.new).failed }
    ensures first { JudgesFirst result (T.text_of texts.old profile.now)
        (T.given texts.old) (T.given texts.new) (T.failed texts.new) job.old job.new }
    ensures named { T.named texts.new ≡ T.named texts.old ++ profile.now ∷ [] }
{
    let mut profile = match read_profile(alloc, texts, profile, 1) {
        Ok(profile) => profile,
        Err(status) => return status,
    };
    profile.limit_items(Some(MOST_ITEMS));
    let panel = profile.first_panel();
    let mut text = KeptText::new(alloc);
    let work = notes_of(alloc, &NoteLine, job, &profile, &panel, &mut text);
    end_notes(alloc, work, text, stdout)
}

/// How the program ends by the work on notes, of which this text is kept: by what stopped it, or by
/// the text and the line of a failure behind it, which are written.
#[tactic(auto, using(crate::proofs::JobNotes::kept_read, crate::proofs::JobNotes::kept_write, crate::proofs::JobNotes::kept_turns, crate::proofs::JobNotes::told_no_read, crate::proofs::JobNotes::told_no_turns))]
fn end_notes<O: Outlet, A: Allocator + Copy>(
    alloc: A,
    work: Result<Outcome, Error>,
    text: KeptText<A>,
    stdout: &mut O,
) -> Status
    requires { IsFalse (O.state stdout.old).failed }
    ensures ok { IfOk work (λ outcome. EndsNotes result (text.taken ++ outcome_line outcome)
        (O.state stdout.old) (O.state stdout.new)) }
    ensures err { IfErr work (λ error. (result ≡ Status.Stopped (kept_error error))
        × (stdout.new ≡ stdout.old)) }
    ensures read { is_stop_of_read result ≡ is_err_of_read work }
    ensures write { (O.state stdout.new).failed ≡ is_stop_of_write result }
    ensures turns { result ≡ Status.Stopped Error.Turns → IsErrOf work Error.Turns }
{
    match work {
        Ok(outcome) => write_all(alloc, text.into_bytes(), outcome, stdout),
        Err(error) => Status::Stopped(kept_error(error)),
    }
}

/// The program passes a job of which it has nothing to say.
fn status_of_text(text: &[u8]) -> Status
    ensures { result ≡ status_of_text text.now }
{
    match text {
        [] => Status::Pass,
        _ => Status::Fail,
    }
}

/// Appends the line of a failure. Of a job that was gone through to its end there is none.
fn push_outcome<A: Allocator, B: Allocator>(
    alloc: B,
    text: &mut Vec<u8, A>,
    outcome: Outcome,
) -> Result<(), AllocError>
    ensures { OnOk result (text.new.items ≡ text.old.items ++ outcome_line outcome) }
{
    match outcome.failure() {
        None => Ok(()),
        Some(failure) => push_failure(alloc, text, failure),
    }
}

fn push_failure<A: Allocator, B: Allocator>(
    alloc: B,
    text: &mut Vec<u8, A>,
    failure: Failure,
) -> Result<(), AllocError>
    ensures { OnOk result (text.new.items ≡ text.old.items ++ verdict_line (failing failure)) }
{
    let line = line_of_failure(alloc, failure)?;
    text.extend_from_slice(line.as_slice())
}

/// Writes a text and the line of a failure behind it. The status says whether there is anything.
fn write_all<O: Outlet, A: Allocator + Copy>(
    alloc: A,
    mut text: Vec<u8, A>,
    outcome: Outcome,
    stdout: &mut O,
) -> Status
    requires { IsFalse (O.state stdout.old).failed }
    ensures written { EndsNotes result (text.items ++ outcome_line outcome)
        (O.state stdout.old) (O.state stdout.new) }
    ensures write { (O.state stdout.new).failed ≡ is_stop_of_write result }
{
    if push_outcome(alloc, &mut text, outcome).is_err() {
        return Status::Stopped(Error::Memory);
    }
    match write_text(stdout, text.as_slice()) {
        Ok(()) => status_of_text(text.as_slice()),
        Err(error) => Status::Stopped(error),
    }
}
