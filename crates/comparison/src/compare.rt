//! Compares two jobs, which are read side by side.

ghost use Rattle.std.specs.Prelude.{◌≡◌, ◌<◌, [], IfErr, IfOk, IfSome, IsFalse, OnOk, Some, false};
ghost use Rattle.std.specs.Prelude.{map, true};
ghost use Rattle.device_profile.specs.Printer.{first_panel};
ghost use Rattle.comparison.specs.Comparison.{IsComparison, made_at};
ghost use Rattle.comparison.specs.Comparing.{EndsCompare, EndsRight, EventCompares, EventsCompare};
ghost use Rattle.comparison.specs.Comparing.{FollowsOn, ItemCompares, NewEndsRight, StepCompares};
ghost use Rattle.comparison.specs.Comparing.{is_unread, still_made};
ghost use Rattle.comparison.specs.Running.{IsErrorOfJob, IsWaiting, RunsOut, failure_of, is_open};
ghost use Rattle.comparison.specs.Running.{work};
ghost use Rattle.comparison.specs.Together.{StandBehind};
ghost use Rattle.sinks.specs.Owned.{event_of};
ghost use Rattle.streams.specs.Pieces.{ByReads};

use crate::difference::{Comparison, Difference, Spot};
use crate::follower::Follower;
use crate::running_job::RunningJob;
use crate::texts::pass_same_lines;
use crate::together::{count_fed, take_of_both};
use device_profile::Profile;
use pcl_items::Place;
use pcl_lexer::one_reading;
use sinks::OwnedEvent;
use std::alloc::Allocator;
use streams::{Error, PIECE, Source};
use verdict::Failure;

/// One of two jobs.
#[derive(Clone, Copy, Debug, PartialEq, Eq)]
pub enum Which {
    Old,
    New,
}

/// Why there is no comparison, and of which job.
#[derive(Clone, Copy, Debug, PartialEq, Eq)]
pub struct Unread {
    pub which: Which,
    /// `Read` where a read of the job failed, `Turns` after 2^40 reads without an end, or `Memory`.
    pub error: Error,
}

/// What comes of two jobs on the printer of this number, from the first panel that its profile
/// lists: whether they print the same, or where they first differ. A failure of the job OLD comes
/// before one of the job NEW, and both before a difference.
///
/// Both are read side by side, so that memory does not grow with them. As long as the same is read
/// of both, one is carried out for both.
pub fn compare_jobs<S: Source, T: Source, A: Allocator + Copy, P: Allocator>(
    alloc: A,
    old_job: &mut S,
    new_job: &mut T,
    profile: &Profile<P>,
    number: u64,
) -> Result<Comparison, Unread>
    requires old_job { IsFalse (S.state old_job.old).failed }
    requires new_job { IsFalse (T.state new_job.old).failed }
    ensures compared { IfOk result (λ comparison.
        ByReads (S.state old_job.old) (S.state old_job.new) (λ one.
        ByReads (T.state new_job.old) (T.state new_job.new) (λ other.
        IsComparison number profile.now (first_panel profile.now) one other comparison))) }
    ensures old_read { (S.state old_job.new).failed ≡ is_unread Which.Old result }
    ensures new_read { (T.state new_job.new).failed ≡ is_unread Which.New result }
    ensures err { IfErr result (λ unread. IsErrorOfJob unread.error) }
{
    one_reading();
    let panel = profile.first_panel();
    let mut first = RunningJob::new(alloc, profile, &panel, number);
    let mut spot = Spot::start();
    let mut follower = go_together(alloc, old_job, new_job, &mut first, &mut spot)?;
    let found = compare_events(old_job, &mut first, new_job, &mut follower, &mut spot)?;
    let mut second = follower.into_job();
    finish(old_job, &mut first, new_job, &mut second, found)
}

/// Carries out the first of two jobs for both, as long as the same is read of both, and counts what
/// both make. The answer is NEW, as it stands where they part, or at the end of both.
fn go_together<'p, S: Source, T: Source, A: Allocator + Copy, P: Allocator>(
    alloc: A,
    old_job: &mut S,
    new_job: &mut T,
    both: &mut RunningJob<'p, A, P>,
    spot: &mut Spot,
) -> Result<Follower<'p, A, P>, Unread>
    requires old_job { IsFalse (S.state old_job.old).failed }
    requires new_job { IsFalse (T.state new_job.old).failed }
    requires none { both.old.events ≡ [] }
    ensures stand { IfOk result (λ second. StandBehind
        (S.state old_job.old) (S.state old_job.new) (T.state new_job.old) (T.state new_job.new)
        both.old both.new spot.old spot.new (Some second)) }
    ensures number { both.new.number ≡ both.old.number }
    ensures new_number { IfOk result (λ second. second.run.number ≡ both.old.number) }
    ensures old_read { (S.state old_job.new).failed ≡ is_unread Which.Old result }
    ensures new_read { (T.state new_job.new).failed ≡ is_unread Which.New result }
    ensures err { IfErr result (λ unread. IsErrorOfJob unread.error) }
{
    'pieces: while both.is_open() {
        let parted = go_on_together(alloc, old_job, new_job, both, spot)?;
        match parted {
            None => {}
            Some(second) => return Ok(second),
        }
    }
    match both.copied(alloc) {
        Ok(second) => Ok(Follower::behind(second)),
        Err(_) => Err(unread_job(Which::New, Error::Memory)),
    }
}

/// Carries out for both what the bytes so far decide, and reads on; answers NEW where they part.
fn go_on_together<'p, S: Source, T: Source, A: Allocator + Copy, P: Allocator>(
    alloc: A,
    old_job: &mut S,
    new_job: &mut T,
    both: &mut RunningJob<'p, A, P>,
    spot: &mut Spot,
) -> Result<Option<Follower<'p, A, P>>, Unread>
    requires old_job { IsFalse (S.state old_job.old).failed }
    requires new_job { IsFalse (T.state new_job.old).failed }
    requires running { is_open both.old.progress ≡ true }
    requires none { both.old.events ≡ [] }
    ensures stand { IfOk result (λ parted. StandBehind
        (S.state old_job.old) (S.state old_job.new) (T.state new_job.old) (T.state new_job.new)
        both.old both.new spot.old spot.new parted) }
    ensures less { OnOk result (work both.new < work both.old) }
    ensures none { OnOk result (both.new.events ≡ []) }
    ensures number { both.new.number ≡ both.old.number }
    ensures new_number { IfOk result (λ parted. IfSome parted (λ second.
        second.run.number ≡ both.old.number)) }
    ensures old_read { (S.state old_job.new).failed ≡ is_unread Which.Old result }
    ensures new_read { (T.state new_job.new).failed ≡ is_unread Which.New result }
    ensures err { IfErr result (λ unread. IsErrorOfJob unread.error) }
{
    match count_fed(both, spot) {
        Ok(true) => read_both(alloc, old_job, new_job, both),
        Ok(false) => Ok(None),
        Err(_) => Err(unread_job(Which::Old, Error::Memory)),
    }
}

/// Reads on in both; answers NEW where they part.
fn read_both<'p, S: Source, T: Source, A: Allocator + Copy, P: Allocator>(
    alloc: A,
    old_job: &mut S,
    new_job: &mut T,
    both: &mut RunningJob<'p, A, P>,
) -> Result<Option<Follower<'p, A, P>>, Unread>
    requires old_job { IsFalse (S.state old_job.old).failed }
    requires new_job { IsFalse (T.state new_job.old).failed }
    requires waits { IsWaiting both.old }
    ensures stand { (spot : Spot) → IfOk result (λ parted. StandBehind
        (S.state old_job.old) (S.state old_job.new) (T.state new_job.old) (T.state new_job.new)
        both.old both.new spot spot parted) }
    ensures less { OnOk result (work both.new < work both.old) }
    ensures none { OnOk result (both.new.events ≡ []) }
    ensures number { both.new.number ≡ both.old.number }
    ensures new_number { IfOk result (λ parted. IfSome parted (λ second.
        second.run.number ≡ both.old.number)) }
    ensures old_read { (S.state old_job.new).failed ≡ is_unread Which.Old result }
    ensures new_read { (T.state new_job.new).failed ≡ is_unread Which.New result }
    ensures err { IfErr result (λ unread. IsErrorOfJob unread.error) }
{
    if !both.may_read() {
        return Err(unread_job(Which::Old, Error::Turns));
    }
    let (mut piece, mut other) = ([0u8; PIECE], [0u8; PIECE]);
    let Ok(count) = old_job.read(&mut piece) else {
        return Err(unread_job(Which::Old, Error::Read));
    };
    let Ok(new_count) = new_job.read(&mut other) else {
        return Err(unread_job(Which::New, Error::Read));
    };
    match take_of_both(alloc, both, &piece[..count], &other[..new_count]) {
        Ok(None) => Ok(None),
        Ok(Some(second)) => Ok(Some(Follower::behind(second))),
        Err(_) => Err(unread_job(Which::Old, Error::Memory)),
    }
}

/// That a job could not be read, and why.
fn unread_job(which: Which, error: Error) -> Unread
    ensures { result ≡ record { which = which; error = error } }
{
    Unread { which, error }
}

/// Carries out the rest of two jobs that were compared up to what was found, which holds where
/// neither fails.
fn finish<S: Source, T: Source, A: Allocator + Copy, P: Allocator>(
    old_job: &mut S,
    first: &mut RunningJob<'_, A, P>,
    new_job: &mut T,
    second: &mut RunningJob<'_, A, P>,
    found: Comparison,
) -> Result<Comparison, Unread>
    requires old_job { IsFalse (S.state old_job.old).failed }
    requires new_job { IsFalse (T.state new_job.old).failed }
    ensures compared { IfOk result (λ comparison. EndsRight
        (S.state old_job.old) (S.state old_job.new) (T.state new_job.old) (T.state new_job.new)
        first.old second.old found comparison) }
    ensures old_read { (S.state old_job.new).failed ≡ is_unread Which.Old result }
    ensures new_read { (T.state new_job.new).failed ≡ is_unread Which.New result }
    ensures err { IfErr result (λ unread. IsErrorOfJob unread.error) }
{
    match failure_of(Which::Old, old_job, first) {
        Ok(Some(failure)) => Ok(Comparison::OldFails(failure)),
        Ok(None) => finish_new(new_job, second, found),
        Err(unread) => Err(unread),
    }
}

/// The same of NEW, where OLD does not fail.
fn finish_new<T: Source, A: Allocator + Copy, P: Allocator>(
    new_job: &mut T,
    second: &mut RunningJob<'_, A, P>,
    found: Comparison,
) -> Result<Comparison, Unread>
    requires { IsFalse (T.state new_job.old).failed }
    ensures compared { IfOk result (λ comparison. NewEndsRight
        (T.state new_job.old) (T.state new_job.new) second.old found comparison) }
    ensures read { (T.state new_job.new).failed ≡ is_unread Which.New result }
    ensures err { IfErr result (λ unread. (unread.which ≡ Which.New)
        × IsErrorOfJob unread.error) }
{
    match failure_of(Which::New, new_job, second) {
        Ok(Some(failure)) => Ok(Comparison::NewFails(failure)),
        Ok(None) => Ok(found),
        Err(unread) => Err(unread),
    }
}

/// Carries out the rest of a job, and answers why it fails, if it does.
fn failure_of<S: Source, A: Allocator + Copy, P: Allocator>(
    which: Which,
    source: &mut S,
    job: &mut RunningJob<'_, A, P>,
) -> Result<Option<Failure>, Unread>
    requires { IsFalse (S.state source.old).failed }
    ensures failure { IfOk result (λ failure. failure ≡ failure_of job.new.progress) }
    ensures run { OnOk result (RunsOut (S.state source.old) (S.state source.new)
        job.old job.new) }
    ensures over { OnOk result (is_open job.new.progress ≡ false) }
    ensures number { job.new.number ≡ job.old.number }
    ensures read { (S.state source.new).failed ≡ is_unread which result }
    ensures err { IfErr result (λ unread. (unread.which ≡ which) × IsErrorOfJob unread.error) }
{
    match job.run_out(source) {
        Ok(()) => Ok(job.failure()),
        Err(error) => Err(Unread { which, error }),
    }
}

/// Compares what two jobs make behind a spot up to which they made the same, up to the first
/// difference or to both ends. What is found holds where neither fails.
fn compare_events<S: Source, T: Source, A: Allocator + Copy, P: Allocator>(
    old_job: &mut S,
    first: &mut RunningJob<'_, A, P>,
    new_job: &mut T,
    second: &mut Follower<'_, A, P>,
    spot: &mut Spot,
) -> Result<Comparison, Unread>
    requires old_job { IsFalse (S.state old_job.old).failed }
    requires new_job { IsFalse (T.state new_job.old).failed }
    ensures compared { IfOk result (λ found. EventsCompare
        (S.state old_job.old) (S.state old_job.new) (T.state new_job.old) (T.state new_job.new)
        first.old first.new spot.old second.old second.new found) }
    ensures old_number { first.new.number ≡ first.old.number }
    ensures new_number { second.new.run.number ≡ second.old.run.number }
    ensures old_read { (S.state old_job.new).failed ≡ is_unread Which.Old result }
    ensures new_read { (T.state new_job.new).failed ≡ is_unread Which.New result }
    ensures err { IfErr result (λ unread. IsErrorOfJob unread.error) }
{
    'steps: while first.is_open() {
        let found = compare_step(old_job, first, new_job, second, spot)?;
        match found {
            None => {}
            Some(difference) => return Ok(Comparison::Differs(difference)),
        }
    }
    compare_ends(first, new_job, second, *spot)
}

/// Takes the next step of OLD, and compares what it makes with what comes of NEW. Lines of text
/// that print the same are one step.
fn compare_step<S: Source, T: Source, A: Allocator + Copy, P: Allocator>(
    old_job: &mut S,
    first: &mut RunningJob<'_, A, P>,
    new_job: &mut T,
    second: &mut Follower<'_, A, P>,
    spot: &mut Spot,
) -> Result<Option<Difference>, Unread>
    requires old_job { IsFalse (S.state old_job.old).failed }
    requires new_job { IsFalse (T.state new_job.old).failed }
    requires running { is_open first.old.progress ≡ true }
    ensures compared { IfOk result (λ found. StepCompares
        (S.state old_job.old) (S.state old_job.new) (T.state new_job.old) (T.state new_job.new)
        first.old first.new spot.old spot.new second.old second.new found) }
    ensures less { OnOk result (work first.new < work first.old) }
    ensures old_number { first.new.number ≡ first.old.number }
    ensures new_number { second.new.run.number ≡ second.old.run.number }
    ensures old_read { (S.state old_job.new).failed ≡ is_unread Which.Old result }
    ensures new_read { (T.state new_job.new).failed ≡ is_unread Which.New result }
    ensures err { IfErr result (λ unread. IsErrorOfJob unread.error) }
{
    come_to_text(first, new_job, second)?;
    compare_here(old_job, first, new_job, second, spot)
}

/// Does so where NEW has come to the text that OLD has next.
fn compare_here<S: Source, T: Source, A: Allocator + Copy, P: Allocator>(
    old_job: &mut S,
    first: &mut RunningJob<'_, A, P>,
    new_job: &mut T,
    second: &mut Follower<'_, A, P>,
    spot: &mut Spot,
) -> Result<Option<Difference>, Unread>
    requires old_job { IsFalse (S.state old_job.old).failed }
    requires new_job { IsFalse (T.state new_job.old).failed }
    requires running { is_open first.old.progress ≡ true }
    ensures compared { IfOk result (λ found. StepCompares
        (S.state old_job.old) (S.state old_job.new) (T.state new_job.old) (T.state new_job.new)
        first.old first.new spot.old spot.new second.old second.new found) }
    ensures less { OnOk result (work first.new < work first.old) }
    ensures old_number { first.new.number ≡ first.old.number }
    ensures new_number { second.new.run.number ≡ second.old.run.number }
    ensures old_read { (S.state old_job.new).failed ≡ is_unread Which.Old result }
    ensures new_read { (T.state new_job.new).failed ≡ is_unread Which.New result }
    ensures err { IfErr result (λ unread. IsErrorOfJob unread.error) }
{
    if pass_same_lines(first, second, spot) {
        return Ok(None);
    }
    compare_next(old_job, first, new_job, second, spot)
}

/// Goes on with NEW to the text that OLD has next, where nothing that NEW made is left to compare.
fn come_to_text<T: Source, A: Allocator + Copy, P: Allocator>(
    first: &RunningJob<'_, A, P>,
    new_job: &mut T,
    second: &mut Follower<'_, A, P>,
) -> Result<(), Unread>
    requires { IsFalse (T.state new_job.old).failed }
    ensures run { OnOk result (FollowsOn (T.state new_job.old) (T.state new_job.new)
        second.old second.new) }
    ensures number { second.new.run.number ≡ second.old.run.number }
    ensures read { (T.state new_job.new).failed ≡ is_unread Which.New result }
    ensures err { IfErr result (λ unread. (unread.which ≡ Which.New)
        × IsErrorOfJob unread.error) }
{
    if !first.has_text_next() {
        return Ok(());
    }
    match second.come_to_text(new_job) {
        Ok(()) => Ok(()),
        Err(error) => Err(Unread {
            which: Which::New,
            error,
        }),
    }
}

/// Takes the next step of OLD, and compares what it makes with what comes of NEW.
fn compare_next<S: Source, T: Source, A: Allocator + Copy, P: Allocator>(
    old_job: &mut S,
    first: &mut RunningJob<'_, A, P>,
    new_job: &mut T,
    second: &mut Follower<'_, A, P>,
    spot: &mut Spot,
) -> Result<Option<Difference>, Unread>
    requires old_job { IsFalse (S.state old_job.old).failed }
    requires new_job { IsFalse (T.state new_job.old).failed }
    requires running { is_open first.old.progress ≡ true }
    ensures compared { IfOk result (λ found. StepCompares
        (S.state old_job.old) (S.state old_job.new) (T.state new_job.old) (T.state new_job.new)
        first.old first.new spot.old spot.new second.old second.new found) }
    ensures less { OnOk result (work first.new < work first.old) }
    ensures old_number { first.new.number ≡ first.old.number }
    ensures new_number { second.new.run.number ≡ second.old.run.number }
    ensures old_read { (S.state old_job.new).failed ≡ is_unread Which.Old result }
    ensures new_read { (T.state new_job.new).failed ≡ is_unread Which.New result }
    ensures err { IfErr result (λ unread. IsErrorOfJob unread.error) }
{
    match first.step(old_job) {
        Ok(()) => compare_made(first.events(), first.place(), new_job, second, spot),
        Err(error) => Err(Unread {
            which: Which::Old,
            error,
        }),
    }
}

/// Compares what an item of OLD at a place made, event by event, with what comes of NEW.
fn compare_made<T: Source, A: Allocator + Copy, P: Allocator>(
    events: &[OwnedEvent<A>],
    place: Place,
    new_job: &mut T,
    second: &mut Follower<'_, A, P>,
    spot: &mut Spot,
) -> Result<Option<Difference>, Unread>
    requires { IsFalse (T.state new_job.old).failed }
    ensures compared { IfOk result (λ found. ItemCompares
        (T.state new_job.old) (T.state new_job.new) spot.old spot.new
        (made_at place (map event_of events.now)) second.old second.new found) }
    ensures number { second.new.run.number ≡ second.old.run.number }
    ensures read { (T.state new_job.new).failed ≡ is_unread Which.New result }
    ensures err { IfErr result (λ unread. (unread.which ≡ Which.New)
        × IsErrorOfJob unread.error) }
{
    for event in events {
        let found = compare_event(event, place, new_job, second, spot)?;
        match found {
            None => {}
            Some(difference) => return Ok(Some(difference)),
        }
    }
    Ok(None)
}

/// Compares an event of OLD, whose item stands at a place, with the next one that comes of NEW.
fn compare_event<T: Source, A: Allocator + Copy, P: Allocator>(
    event: &OwnedEvent<A>,
    place: Place,
    new_job: &mut T,
    second: &mut Follower<'_, A, P>,
    spot: &mut Spot,
) -> Result<Option<Difference>, Unread>
    requires { IsFalse (T.state new_job.old).failed }
    ensures compared { IfOk result (λ found. EventCompares
        (T.state new_job.old) (T.state new_job.new) spot.old spot.new
        (record { place = place; event = event_of event.now }) second.old second.new found) }
    ensures number { second.new.run.number ≡ second.old.run.number }
    ensures read { (T.state new_job.new).failed ≡ is_unread Which.New result }
    ensures err { IfErr result (λ unread. (unread.which ≡ Which.New)
        × IsErrorOfJob unread.error) }
{
    come(new_job, second)?;
    match second.difference(event, place, *spot) {
        Some(difference) => Ok(Some(difference)),
        None => {
            spot.count(event);
            second.pass();
            Ok(None)
        }
    }
}

/// Compares the ends of two jobs, of which OLD has come to its own.
fn compare_ends<T: Source, A: Allocator + Copy, P: Allocator>(
    first: &RunningJob<'_, A, P>,
    new_job: &mut T,
    second: &mut Follower<'_, A, P>,
    spot: Spot,
) -> Result<Comparison, Unread>
    requires working { IsFalse (T.state new_job.old).failed }
    requires over { is_open first.now.progress ≡ false }
    ensures compared { IfOk result (λ found. EndsCompare
        (T.state new_job.old) (T.state new_job.new) first.now spot second.old second.new found) }
    ensures number { second.new.run.number ≡ second.old.run.number }
    ensures read { (T.state new_job.new).failed ≡ is_unread Which.New result }
    ensures err { IfErr result (λ unread. (unread.which ≡ Which.New)
        × IsErrorOfJob unread.error) }
{
    come(new_job, second)?;
    match second.further(first.place(), spot) {
        Some(difference) => Ok(Comparison::Differs(difference)),
        None => Ok(Comparison::Same(spot.counts)),
    }
}

/// Goes on with NEW until there is an event to compare, or it is over.
fn come<T: Source, A: Allocator + Copy, P: Allocator>(
    new_job: &mut T,
    second: &mut Follower<'_, A, P>,
) -> Result<(), Unread>
    requires { IsFalse (T.state new_job.old).failed }
    ensures run { OnOk result (FollowsOn (T.state new_job.old) (T.state new_job.new)
        second.old second.new) }
    ensures came { OnOk result (still_made second.new ≡ [] →
        is_open second.new.run.progress ≡ false) }
    ensures number { second.new.run.number ≡ second.old.run.number }
    ensures read { (T.state new_job.new).failed ≡ is_unread Which.New result }
    ensures err { IfErr result (λ unread. (unread.which ≡ Which.New)
        × IsErrorOfJob unread.error) }
{
    match second.come(new_job) {
        Ok(()) => Ok(()),
        Err(error) => Err(Unread {
            which: Which::New,
            error,
        }),
    }
}
