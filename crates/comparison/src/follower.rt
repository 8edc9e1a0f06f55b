//! A job that follows another one, event by event.

ghost use Rattle.std.specs.Prelude.{◌≡◌, ◌+◌, ◌<◌, [], IfErr, IsFalse, IsTrue, OnOk, false, true};
ghost use Rattle.std.specs.Prelude.{length, option_map};
ghost use Rattle.device_profile.specs.Printer.{IsAllowed};
ghost use Rattle.page_env.specs.declared.text_lines.TextAppearance.{TextAppearance};
ghost use Rattle.comparison.specs.Comparing.{FollowsOn, HasFollowed, IsNextDifference};
ghost use Rattle.comparison.specs.Comparing.{difference_of, further_difference, lacks_next};
ghost use Rattle.comparison.specs.Comparing.{next_of, still_made};
ghost use Rattle.comparison.specs.Running.{IsErrorOfJob, RunsOut, failure_of, is_open, work};
ghost use Rattle.comparison.specs.Texts.{FollowsLines, GoNext};
ghost use Rattle.sinks.specs.Owned.{event_of};
ghost use Rattle.streams.specs.Errors.{is_err_of_read};
ghost use Rattle.streams.specs.Source.{SourceState};

use crate::changes::{change_of, only_in_new, only_in_old};
use crate::difference::{Difference, Spot};
use crate::events::is_same;
use crate::running_job::RunningJob;
use device_profile::{Panel, Profile};
use page_env::{TextLines, TextPlace};
use pcl_items::Place;
use sinks::OwnedEvent;
use std::alloc::Allocator;
use std::marker::Model;
use streams::{Error, Source};
use verdict::Failure;

/// A job that is carried out as far as what it makes is asked for.
#[derive(Drop)]
pub struct Follower<'p, A: Allocator + Copy, P: Allocator> {
    job: RunningJob<'p, A, P>,
    /// So many events of its last item are behind it.
    taken: usize,
}

impl<'p, A: Allocator + Copy, P: Allocator> Model for Follower<'p, A, P> {
    ghost use Rattle.std.specs.Prelude.{◌≤◌, length};
    ghost use Rattle.comparison.specs.Comparing.{Following};

    ghost Value = { Following };

    ghost view = { λ follower. record { run = follower.job; taken = follower.taken } };

    ghost invariant = { λ follower. follower.taken ≤ length follower.job.events };
}

impl<'p, A: Allocator + Copy, P: Allocator> Follower<'p, A, P> {
    /// A job of which nothing is read, on the printer of this number, from this panel.
    pub fn new(alloc: A, profile: &'p Profile<P>, panel: &Panel, number: u64) -> Follower<'p, A, P>
        requires { IsAllowed profile.now panel.now }
        ensures run { (first : SourceState) →
            HasFollowed profile.now panel.now first first [] result }
        ensures number { result.run.number ≡ number }
    {
        let job = RunningJob::new(alloc, profile, panel, number);
        Follower { job, taken: 0 }
    }

    /// A job that goes on from where it stands.
    pub(crate) fn behind(job: RunningJob<'p, A, P>) -> Follower<'p, A, P>
        ensures { result ≡ record { run = job.entry; taken = 0 } }
    {
        Follower { job, taken: 0 }
    }

    /// Where its last item stands.
    pub fn place(&self) -> Place
        ensures { result ≡ self.now.run.place }
    {
        self.job.place()
    }

    /// Whether there is more of the job.
    pub fn is_open(&self) -> bool
        ensures { result ≡ is_open self.now.run.progress }
    {
        self.job.is_open()
    }

    /// Why the job fails, if it was found to fail.
    pub fn failure(&self) -> Option<Failure>
        ensures { result ≡ failure_of self.now.run.progress }
    {
        self.job.failure()
    }

    /// The job.
    pub(crate) fn into_job(self) -> RunningJob<'p, A, P>
        ensures { result ≡ self.entry.run }
    {
        self.job
    }

    /// The job, lent.
    pub(crate) fn job(&self) -> &RunningJob<'p, A, P>
        ensures { result.now ≡ self.now.run }
    {
        &self.job
    }

    /// Carries out the first bytes ahead, which go as lines of text, where nothing is left to
    /// compare. Their marks count as compared.
    pub(crate) fn pass_lines(&mut self, lines: &TextLines)
        requires running { is_open self.old.run.progress ≡ true }
        requires level { still_made self.old ≡ [] }
        requires next { (look : TextAppearance) × (from : TextPlace)
            × GoNext look from lines.now self.old.run }
        ensures passed { FollowsLines lines.now self.old self.new }
        ensures number { self.new.run.number ≡ self.old.run.number }
    {
        self.taken = 0;
        self.job.pass_lines(lines);
    }

    /// Goes on until there is an event that is not behind it, or the job is over.
    ///
    /// The errors are those of a step of a job.
    pub fn come<S: Source>(&mut self, source: &mut S) -> Result<(), Error>
        requires { IsFalse (S.state source.old).failed }
        ensures run { OnOk result (FollowsOn (S.state source.old) (S.state source.new)
            self.old self.new) }
        ensures came { OnOk result (still_made self.new ≡ [] →
            is_open self.new.run.progress ≡ false) }
        ensures number { self.new.run.number ≡ self.old.run.number }
        ensures read { (S.state source.new).failed ≡ is_err_of_read result }
        ensures err { IfErr result IsErrorOfJob }
    {
        'steps: while self.lacks_next() {
            self.go_on(source)?;
        }
        Ok(())
    }

    /// Goes on until text stands next, an event is not behind it, or the job is over.
    ///
    /// The errors are those of a step of a job.
    pub(crate) fn come_to_text<S: Source>(&mut self, source: &mut S) -> Result<(), Error>
        requires { IsFalse (S.state source.old).failed }
        ensures run { OnOk result (FollowsOn (S.state source.old) (S.state source.new)
            self.old self.new) }
        ensures number { self.new.run.number ≡ self.old.run.number }
        ensures read { (S.state source.new).failed ≡ is_err_of_read result }
        ensures err { IfErr result IsErrorOfJob }
    {
        'steps: while self.lacks_text() {
            self.go_on(source)?;
        }
        Ok(())
    }

    /// Whether an event is still to come, the job is not over and no text stands next.
    fn lacks_text(&self) -> bool
        ensures { IsTrue result → lacks_next self.now ≡ true }
    {
        self.lacks_next() && !self.job.has_text_next()
    }

    /// Carries out the rest of the job, whatever it makes.
    ///
    /// The errors are those of a step of a job.
    pub fn run_out<S: Source>(&mut self, source: &mut S) -> Result<(), Error>
        requires { IsFalse (S.state source.old).failed }
        ensures run { OnOk result (RunsOut (S.state source.old) (S.state source.new)
            self.old.run self.new.run) }
        ensures over { OnOk result (is_open self.new.run.progress ≡ false) }
        ensures number { self.new.run.number ≡ self.old.run.number }
        ensures read { (S.state source.new).failed ≡ is_err_of_read result }
        ensures err { IfErr result IsErrorOfJob }
    {
        self.taken = 0;
        self.job.run_out(source)
    }

    /// Whether an event is still to come, and the job is not over.
    pub(crate) fn lacks_next(&self) -> bool
        ensures { result ≡ lacks_next self.now }
    {
        match self.next() {
            Some(_) => false,
            None => self.job.is_open(),
        }
    }

    /// Takes the next step of the job, all of whose events are behind it.
    fn go_on<S: Source>(&mut self, source: &mut S) -> Result<(), Error>
        requires working { IsFalse (S.state source.old).failed }
        requires lacks { lacks_next self.old ≡ true }
        ensures run { OnOk result (FollowsOn (S.state source.old) (S.state source.new)
            self.old self.new) }
        ensures less { OnOk result (work self.new.run < work self.old.run) }
        ensures number { self.new.run.number ≡ self.old.run.number }
        ensures read { (S.state source.new).failed ≡ is_err_of_read result }
        ensures err { IfErr result IsErrorOfJob }
    {
        self.taken = 0;
        self.job.step(source)
    }

    /// The event that is not behind it, where one has come.
    pub fn next(&self) -> Option<&OwnedEvent<A>>
        ensures { option_map (λ event. event_of event.now) result ≡ next_of self.now }
    {
        self.job.events().get(self.taken)
    }

    /// Goes behind the event that has come.
    pub fn pass(&mut self)
        requires { self.old.taken < length self.old.run.events }
        ensures { self.new ≡ record self.old { taken = self.old.taken + 1 } }
    {
        let count = self.job.events().len();
        self.taken = next_place(self.taken, count);
    }

    /// What differs between an event of OLD, whose item stands at a place, and the one that has
    /// come of this job. None: they are the same.
    pub(crate) fn difference(
        &self,
        event: &OwnedEvent<A>,
        place: Place,
        spot: Spot,
    ) -> Option<Difference>
        requires { still_made self.now ≡ [] → is_open self.now.run.progress ≡ false }
        ensures { IsNextDifference spot place (event_of event.now) self.now result }
    {
        let own_place = self.job.place();
        match self.next() {
            Some(next) => difference_of(event, place, next, own_place, spot),
            None => Some(spot.difference(place, own_place, only_in_old(event))),
        }
    }

    /// What this job makes behind all that OLD makes, which ends at a place, where that is
    /// something.
    pub(crate) fn further(&self, end: Place, spot: Spot) -> Option<Difference>
        ensures { result ≡ further_difference spot end self.now }
    {
        match self.next() {
            Some(next) => Some(spot.difference(end, self.job.place(), only_in_new(next))),
            None => None,
        }
    }
}

/// The place behind one of so many.
fn next_place(place: usize, count: usize) -> usize
    requires { place < count }
    ensures { result ≡ place + 1 }
{
    place + 1
}

/// What differs between an event of OLD and one of NEW, whose items stand at these places.
fn difference_of<A: Allocator>(
    of_old: &OwnedEvent<A>,
    old_place: Place,
    of_new: &OwnedEvent<A>,
    new_place: Place,
    spot: Spot,
) -> Option<Difference>
    ensures { result ≡ difference_of spot old_place new_place
        (event_of of_old.now) (event_of of_new.now) }
{
    if is_same(of_old, of_new) {
        return None;
    }
    let change = change_of(of_old, of_new);
    Some(spot.difference(old_place, new_place, change))
}
