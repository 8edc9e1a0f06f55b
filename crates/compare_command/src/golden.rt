//! The command `compare` for many jobs, each with one of its own.

ghost use Rattle.std.specs.Prelude.{◌≡◌, ◌≢◌, [], IfErr, IfOk, IsFalse, IsTrue, List};
ghost use Rattle.std.specs.Prelude.{OnOk, Option, ℕ, map};
ghost use Rattle.compare_command.specs.Compare.{asked_for, telling_of};
ghost use Rattle.compare_command.specs.Golden.{IsCut, IsTold, LeavesGolden, LeavesPairs, TellsPair};
ghost use Rattle.compare_command.specs.Golden.{ending_of, golden_for, names_of, status_at};
ghost use Rattle.compare_command.specs.Golden.{stop_text, worse};
ghost use Rattle.compare_command.specs.Outcomes.{same_counts};
ghost use Rattle.compare_command.specs.Telling.{found_text};
ghost use Rattle.many_jobs.specs.JobChecks.{work};
ghost use Rattle.named_inputs.specs.Texts.{AsksInOrder};
ghost use Rattle.streams.specs.Outlet.{Adds, AddsFront};

use crate::asked::{CompareAsked, GoldenAsked, JobPair};
use crate::command::{Printers, read_printers};
use crate::finding::find;
use crate::found::{Found, manner_of};
use crate::stops::{Stop, name_by};
use crate::telling::{found_text, push_stop};
use named_inputs::{Jobs, ProfileTexts};
use requests::{Status, Trouble};
use sinks::Counts;
use std::alloc::{AllocError, Global};
use streams::{Error, Outlet, write_text};

/// How pairs of jobs count for the exit status.
#[derive(Clone, Copy, Debug, PartialEq, Eq)]
pub(crate) enum Ending {
    /// Both print the same.
    Agrees,
    /// They differ, or one fails.
    Differs,
    /// One has no verdict.
    HasNoVerdict,
}

impl Ending {
    /// How two jobs count that print the same, and so much, or not the same.
    fn of(same: Option<Counts>) -> Ending
        ensures { result ≡ ending_of same }
    {
        match same {
            Some(_) => Ending::Agrees,
            None => Ending::Differs,
        }
    }

    /// The greater one.
    fn worse(self, other: Ending) -> Ending
        ensures { result ≡ worse self other }
    {
        match (self, other) {
            (Ending::HasNoVerdict, _) | (_, Ending::HasNoVerdict) => Ending::HasNoVerdict,
            (Ending::Differs, _) | (_, Ending::Differs) => Ending::Differs,
            (Ending::Agrees, Ending::Agrees) => Ending::Agrees,
        }
    }

    /// How the program ends.
    fn status(self) -> Status
        ensures { result ≡ status_at self }
    {
        match self {
            Ending::Agrees => Status::Pass,
            Ending::Differs => Status::Fail,
            Ending::HasNoVerdict => Status::Told(Trouble::NoVerdict),
        }
    }
}

/// What is told of a pair, and how it counts.
#[derive(Drop)]
struct PairTold {
    text: Vec<u8>,
    ending: Ending,
}

/// The command `compare` for many pairs of jobs: on standard output what comes of each, as soon as
/// it is known, and of a job that cannot be read why.
///
/// All profiles are read and judged before a job is read. Of one that is refused or cannot be read
/// standard error tells.
pub fn compare_golden<'n, J: Jobs<'n>, T: ProfileTexts, O: Outlet, E: Outlet>(
    alloc: Global,
    jobs: &mut J,
    texts: &mut T,
    asked: &GoldenAsked<'_, 'n>,
    stdout: &mut O,
    stderr: &mut E,
) -> Status
    requires texts { IsFalse (T.failed texts.old) }
    requires stdout { IsFalse (O.state stdout.old).failed }
    requires stderr { IsFalse (E.state stderr.old).failed }
    requires some { asked.now.printers.now ≢ [] }
    ensures left { LeavesGolden
        (map (λ word. T.text_of texts.old word.now) asked.now.printers.now)
        (T.given texts.old) (T.given texts.new) (golden_for asked.now) (J.start jobs.old) result
        (work (O.state stdout.old) (J.ended jobs.old))
        (work (O.state stdout.new) (J.ended jobs.new))
        (E.state stderr.old) (E.state stderr.new) }
    ensures named { AsksInOrder (map (λ word. word.now) asked.now.printers.now)
        (T.named texts.old) (T.named texts.new) }
{
    match read_printers(alloc, texts, asked.printers, asked.form, stderr) {
        Ok(printers) => compare_pairs(alloc, jobs, asked, asked.pairs, &printers, stdout),
        Err(status) => status,
    }
}

/// Compares these pairs one after another, and writes what comes of each.
fn compare_pairs<'n, J: Jobs<'n>, O: Outlet>(
    alloc: Global,
    jobs: &mut J,
    asked: &GoldenAsked<'_, 'n>,
    pairs: &[JobPair<'n>],
    printers: &Printers,
    stdout: &mut O,
) -> Status
    requires { IsFalse (O.state stdout.old).failed }
    ensures { LeavesPairs (golden_for asked.now) printers.now.fleet.items
        (map (λ name. name.items) printers.now.names.items) (J.start jobs.old)
        (map names_of pairs.now) Ending.Agrees result
        (work (O.state stdout.old) (J.ended jobs.old))
        (work (O.state stdout.new) (J.ended jobs.new)) }
{
    let mut ending = Ending::Agrees;
    for pair in pairs {
        let pair_asked = asked.of_pair(*pair);
        match tell_pair(alloc, jobs, &pair_asked, printers, stdout) {
            Ok(told) => ending = ending.worse(told),
            Err(error) => return Status::Stopped(error),
        }
    }
    ending.status()
}

/// Compares a pair, and writes what comes of it.
fn tell_pair<'n, J: Jobs<'n>, O: Outlet>(
    alloc: Global,
    jobs: &mut J,
    asked: &CompareAsked<'_, 'n>,
    printers: &Printers,
    stdout: &mut O,
) -> Result<Ending, Error>
    requires { IsFalse (O.state stdout.old).failed }
    ensures told { IfOk result (λ ending. IsTold (asked_for asked.now) printers.now.fleet.items
        (map (λ name. name.items) printers.now.names.items) (J.start jobs.old) ending
        (work (O.state stdout.old) (J.ended jobs.old))
        (work (O.state stdout.new) (J.ended jobs.new))) }
    ensures cut { IfErr result (λ error. IsCut error (asked_for asked.now)
        printers.now.fleet.items (map (λ name. name.items) printers.now.names.items)
        (J.start jobs.old)
        (work (O.state stdout.old) (J.ended jobs.old))
        (work (O.state stdout.new) (J.ended jobs.new))) }
    ensures start { J.start jobs.new ≡ J.start jobs.old }
    ensures working { OnOk result (IsFalse (O.state stdout.new).failed) }
{
    let Ok(told) = told_of_pair(alloc, jobs, asked, printers) else {
        return Err(Error::Memory);
    };
    write_told(told.text.as_slice(), told.ending, stdout)
}

/// Writes the text of a pair that counts so.
fn write_told<O: Outlet>(text: &[u8], ending: Ending, stdout: &mut O) -> Result<Ending, Error>
    requires { IsFalse (O.state stdout.old).failed }
    ensures ending { IfOk result (λ written. written ≡ ending) }
    ensures written { OnOk result (Adds (O.state stdout.old) (O.state stdout.new) text.now) }
    ensures working { OnOk result (IsFalse (O.state stdout.new).failed) }
    ensures error { IfErr result (λ error. error ≡ Error.Write) }
    ensures failed { IfErr result (λ _. IsTrue (O.state stdout.new).failed) }
    ensures front { IfErr result (λ _.
        AddsFront (O.state stdout.old) (O.state stdout.new) text.now) }
{
    match write_text(stdout, text) {
        Ok(()) => Ok(ending),
        Err(_) => Err(Error::Write),
    }
}

/// What is told of a pair.
fn told_of_pair<'n, J: Jobs<'n>>(
    alloc: Global,
    jobs: &mut J,
    asked: &CompareAsked<'_, 'n>,
    printers: &Printers,
) -> Result<PairTold, AllocError>
    ensures told { IfOk result (λ told. TellsPair (asked_for asked.now) printers.now.fleet.items
        (map (λ name. name.items) printers.now.names.items) (J.start jobs.old)
        (J.ended jobs.old) (J.ended jobs.new) told.text.items told.ending) }
    ensures start { J.start jobs.new ≡ J.start jobs.old }
{
    let manner = manner_of(asked.nearness, asked.extent);
    let fleet = printers.fleet.as_slice();
    let names = printers.names.as_slice();
    match find(alloc, jobs, asked, manner, fleet) {
        Ok(found) => told_of_found(alloc, asked, names, &found),
        Err(stop) => told_of_stop(alloc, asked, names, &stop),
    }
}

/// What is told of what was found on printers of these names.
fn told_of_found(
    alloc: Global,
    asked: &CompareAsked<'_, '_>,
    names: &[Vec<u8>],
    found: &Found,
) -> Result<PairTold, AllocError>
    ensures text { IfOk result (λ told. told.text.items ≡ found_text
        (telling_of (asked_for asked.now) (map (λ name. name.items) names.now))
        found.now.number found.now.outcome) }
    ensures ending { IfOk result (λ told. told.ending
        ≡ ending_of (same_counts found.now.outcome)) }
{
    let telling = asked.telling(names);
    let text = found_text(alloc, &telling, found)?;
    let ending = Ending::of(found.outcome.same_counts());
    Ok(PairTold { text, ending })
}

/// What is told of why a pair has no verdict.
fn told_of_stop(
    alloc: Global,
    asked: &CompareAsked<'_, '_>,
    names: &[Vec<u8>],
    stop: &Stop,
) -> Result<PairTold, AllocError>
    ensures text { IfOk result (λ told. (cause : Option (List ℕ)) × (told.text.items ≡ stop_text
        (asked_for asked.now) (map (λ name. name.items) names.now) stop.now.which stop.now.error
        cause)) }
    ensures ending { IfOk result (λ told. told.ending ≡ Ending.HasNoVerdict) }
{
    let name = name_by(asked, stop.which);
    let cause = stop.cause.as_ref().map(|words| words.as_bytes());
    let mut text = Vec::new(alloc);
    push_stop(alloc, &mut text, asked.form, names, name, stop.error, cause)?;
    Ok(PairTold {
        text,
        ending: Ending::HasNoVerdict,
    })
}
