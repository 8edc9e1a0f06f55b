//! A survey of a job that comes in pieces.

ghost use Rattle.std.specs.Prelude.{◌≡◌, ◌+◌, ◌-◌, ◌<◌, ◌≤◌, ◌^◌, ◌++◌, drop, length, vec_len};
ghost use Rattle.std.specs.Prelude.{vec_capacity, true, false, Ok, IfErr, IsFalse, OnOk};
ghost use Rattle.streams.specs.Errors.{is_err_of_read};
ghost use Rattle.survey.specs.Carriers.Steps.{due};
ghost use Rattle.survey.specs.Carriers.Surveying.{EndsSurvey, HasRoom};
ghost use Rattle.survey.specs.Carriers.Surveying.{IsSurveyed, Surveyed, SurveysOn, at_start};
ghost use Rattle.survey.specs.Carriers.Surveying.{most_left, with_told};
ghost use Rattle.survey.specs.Survey.{Waits, at_end};
ghost use Rattle.survey.specs.Surveys.{IsErrorOfSurvey, IsTallied};
ghost use Rattle.survey.specs.Tally.{no_refusals};

use crate::refusal::Refusal;
use crate::step::{Standing, step_at};
use crate::table::Table;
use pcl_items::Place;
use pcl_lexer::Context;
use std::alloc::{AllocError, Allocator, Global};
use std::marker::Model;
use streams::{Consumer, Error, Source, read_job};

/// Surveys a job that is fed in pieces, over a bounded window, and counts what is told of it.
#[derive(Drop)]
pub struct Surveyor<A: Allocator = Global> {
    window: Vec<u8, A>,
    // How many bytes of the window are behind it, and how many of the job stood before the window.
    at: usize,
    dropped: u64,
    standing: Standing,
    // The number of the job, from 0.
    job: u64,
    table: Table<A>,
}

impl<A: Allocator> Model for Surveyor<A> {
    ghost use Rattle.std.specs.Prelude.{drop, vec_len, ◌+◌, ◌≤◌, ◌^◌};
    ghost use Rattle.survey.specs.Carriers.Steps.{counted_in, standing_view};
    ghost use Rattle.survey.specs.Carriers.Surveying.{SurveyState, most_held};

    ghost Value = { SurveyState };

    ghost view = { λ s. record {
      rest = drop s.at s.window.items;
      place = s.dropped + s.at;
      standing = standing_view s.standing;
      job = s.job;
      tally = s.table;
    } };

    ghost invariant = { λ s. (s.at ≤ vec_len s.window) × (vec_len s.window ≤ most_held) ×
        (s.dropped + vec_len s.window ≤ 2 ^ 62) ×
        (counted_in (standing_view s.standing) ≤ s.dropped + s.at) };
}

impl<A: Allocator + Copy> Surveyor<A> {
    /// Of no job.
    pub fn new(alloc: A) -> Surveyor<A>
        ensures { result ≡ at_start 0 no_refusals }
    {
        Surveyor {
            window: Vec::new(alloc),
            at: 0,
            dropped: 0,
            standing: Standing::Reads(Context::Pcl),
            job: 0,
            table: Table::new(alloc),
        }
    }
}

impl<A: Allocator> Surveyor<A> {
    /// What was counted.
    pub fn table(&self) -> &Table<A>
        ensures { result.now ≡ self.now.tally }
    {
        &self.table
    }

    /// Begins with the job of this number, of which nothing was fed.
    fn begin(&mut self, job: u64)
        ensures { self.new ≡ at_start job self.old.tally }
    {
        self.window.clear();
        self.at = 0;
        self.dropped = 0;
        self.standing = Standing::Reads(Context::Pcl);
        self.job = job;
    }

    /// The bytes that were fed and are not behind it.
    fn rest(&self) -> &[u8]
        ensures { result.now ≡ self.now.rest }
    {
        &self.window[self.at..]
    }

    /// The number of bytes before these.
    fn place(&self) -> Place
        ensures { result ≡ self.now.place }
    {
        self.dropped + self.at as u64
    }

    /// Takes a further piece, and keeps no byte that is behind it.
    fn feed(&mut self, piece: &[u8]) -> Result<(), AllocError>
        requires short { length self.old.rest ≤ most_left }
        requires piece { length piece.now ≤ 4096 }
        requires total { self.old.place + length self.old.rest + length piece.now ≤ 2 ^ 62 }
        ensures { OnOk result (self.new ≡ record self.old { rest = self.old.rest ++ piece.now }) }
    {
        remove_front(&mut self.window, self.at);
        self.dropped += self.at as u64;
        self.at = 0;
        self.window.extend_from_slice(piece)?;
        Ok(())
    }

    /// Makes a step. False: the bytes that were fed decide nothing more.
    fn step(&mut self, whole: bool) -> Result<bool, AllocError>
        ensures surveyed { OnOk result (Surveyed whole self.old self.new) }
        ensures less { result ≡ Ok true → due self.new.standing self.new.rest
            < due self.old.standing self.old.rest }
        ensures no_more { OnOk result (due self.new.standing self.new.rest
            ≤ due self.old.standing self.old.rest) }
        ensures waits { result ≡ Ok false → Waits whole self.new.standing self.new.rest }
        ensures total { OnOk result (self.new.place + length self.new.rest ≡
            self.old.place + length self.old.rest) }
    {
        let window = self.window.as_slice();
        let step = step_at(whole, self.standing, self.dropped, self.at, window);
        self.at = step.at;
        self.standing = step.standing;
        self.count(step.told)?;
        Ok(!step.waits)
    }

    /// Counts what is told, if anything is.
    fn count(&mut self, told: Option<Refusal>) -> Result<(), AllocError>
        ensures { OnOk result (self.new ≡ with_told told self.old) }
    {
        match told {
            None => Ok(()),
            Some(refusal) => self.table.tell(self.job, refusal),
        }
    }

    /// Goes on as far as the bytes decide that were fed.
    fn go_on(&mut self, whole: bool) -> Result<(), AllocError>
        ensures surveyed { OnOk result (Surveyed whole self.old self.new) }
        ensures waits { OnOk result (Waits whole self.new.standing self.new.rest) }
        ensures total { OnOk result (self.new.place + length self.new.rest ≡
            self.old.place + length self.old.rest) }
    {
        let mut goes = true;
        while goes {
            goes = self.step(whole)?;
        }
        Ok(())
    }

    /// Surveys what is left, where nothing more comes.
    fn finish(&mut self) -> Result<(), AllocError>
        ensures { OnOk result (EndsSurvey self.old self.new) }
    {
        self.go_on(true)?;
        let last = self.told_at_end();
        self.count(last)
    }

    /// What is told at the end of the job, where nothing more comes.
    fn told_at_end(&self) -> Option<Refusal>
        ensures { result ≡ at_end self.now.standing self.now.place self.now.rest }
    {
        self.standing.at_end(self.place(), self.rest())
    }
}

impl<A: Allocator> Consumer<()> for Surveyor<A> {
    ghost use Rattle.streams.specs.declared.error.Error.{Error};
    ghost use Rattle.survey.specs.Carriers.Rooms.{survey_leaves};

    type Answer = ();

    ghost has_room = { λ now more. HasRoom now.0 more };

    ghost goes_on = { λ first bytes now. SurveysOn first.0 bytes now.0 };

    ghost answers = { λ first answer pieces now. IsSurveyed first.0 pieces now.0 };

    ghost stops = { λ first error bytes now. error ≡ Error.Memory };

    fn piece(&mut self, _outlet: &mut (), piece: &[u8]) -> Result<Option<()>, Error> {
        self.feed(piece)?;
        self.go_on(false)?;
        Ok(None)
    }

    fn end(&mut self, _outlet: &mut ()) -> Result<(), Error> {
        self.finish()?;
        Ok(())
    }

    ghost leaves_room = { λ first bytes now room more has goes fits.
        survey_leaves first.0 bytes now.0 room more has goes fits };
}

/// Reads the job of this number to its end, and counts what the language refuses of it.
///
/// An error is `Read` where a read failed, `Turns` after 2^40 reads without an end, or `Memory`.
pub fn survey_job<S: Source, A: Allocator>(
    reader: &mut S,
    job: u64,
    surveyor: &mut Surveyor<A>,
) -> Result<(), Error>
    requires { IsFalse (S.state reader.old).failed }
    ensures told { OnOk result (IsTallied (S.state reader.old) (S.state reader.new) job
        surveyor.old.tally surveyor.new.tally) }
    ensures errors { IfErr result IsErrorOfSurvey }
    ensures read { (S.state reader.new).failed ≡ is_err_of_read result }
{
    surveyor.begin(job);
    read_job(reader, surveyor, &mut ())
}

/// Drops the first bytes.
fn remove_front<A: Allocator>(bytes: &mut Vec<u8, A>, n: usize)
    requires { n ≤ vec_len bytes.old }
    ensures items { bytes.new.items ≡ drop n bytes.old.items }
    ensures len { vec_len bytes.new ≡ vec_len bytes.old - n }
    ensures capacity { vec_capacity bytes.new ≡ vec_capacity bytes.old }
{
    let len = bytes.len();
    bytes.as_mut_slice().copy_within(n..len, 0);
    bytes.truncate(len - n);
}
