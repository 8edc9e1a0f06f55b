//! A check of a job that is fed in pieces.
ghost use Rattle.std.specs.Prelude.{◌≡◌, ◌++◌, ◌<◌, ◌≤◌, ◌+◌, ◌^◌, ◌↔◌, ◌≢◌, ◌⊎◌, ℕ, List, []};
ghost use Rattle.std.specs.Prelude.{length, None, IfOk, IfErr, IsErrOf, Ok, Err, OnOk, false};
ghost use Rattle.pcl_lexer.specs.Lexing.State.{WantsMore};
ghost use Rattle.pcl_lexer.specs.Modes.{mode_of};
ghost use Rattle.device_profile.specs.Printer.{Printer};
ghost use Rattle.streams.specs.declared.error.Error.{Error};
ghost use Rattle.verdict.specs.declared.verdict.Verdict.{Verdict};
ghost use Rattle.preflight.specs.Session.{ChecksOn, HasChecked, HasRoom, IsJudged, IsOutOfMemory};
ghost use Rattle.preflight.specs.Session.{page_told};
ghost use Rattle.preflight.specs.Where.{page_with};
ghost use Rattle.judgement.specs.Verdict.{IsExact, VerdictHolds};
ghost use Rattle.preflight.specs.Judgement.{IsJudgementOn};
ghost use Rattle.preflight.specs.Stood.{LacksFont, IsOfSession, IsSpotOf};
ghost use Rattle.preflight.specs.Carriers.Lockstep.{AreIn, AreRunning, counts_of, machines_of};

use crate::check_state::CheckState;
use crate::checking::Checking;
use crate::laws::fails_say;
use crate::lockstep::Lockstep;
use crate::stood::{cursor_with, font_with};
use crate::told::page_with;
use device_profile::Profile;
use judgement::{FailingItem, MissingFont, SheetSpot};
use pcl_lexer::Lexer;
use std::alloc::Allocator;
use std::marker::Model;
use streams::{Consumer, Error, PIECE};
use verdict::Verdict;

/// All pieces of a job together have at most so many bytes.
const MOST_BYTES: u64 = 1 << 62;

/// A check of a job that is fed in pieces, for a fleet of printers.
///
/// Each item is executed on every printer as soon as the pieces decide it.
#[derive(Drop)]
pub struct Session<'p, A: Allocator + Copy, P: Allocator> {
    pub(crate) checking: Checking<'p, A, P>,
    /// How many bytes were fed.
    pub(crate) total: u64,
}

impl<'p, A: Allocator + Copy, P: Allocator> Model for Session<'p, A, P> {
    ghost use Rattle.std.specs.Prelude.{◌≡◌, ◌≤◌, ◌+◌, ◌^◌, length, None, false};
    ghost use Rattle.pcl_lexer.specs.Lexing.State.{WantsMore};
    ghost use Rattle.pcl_lexer.specs.Modes.{mode_of};
    ghost use Rattle.preflight.specs.declared.check_state.CheckState.TheVariants.{Open};
    ghost use Rattle.preflight.specs.Session.{SessionState};
    ghost use Rattle.preflight.specs.Carriers.Lockstep.{AreIn, AreRunning, counts_of, machines_of};

    ghost Value = { SessionState };

    ghost view = { λ session. record {
      lexer = session.checking.lexer;
      machines = machines_of session.checking.machines;
      counts = counts_of session.checking.machines;
      total = session.total;
      state = session.checking.state;
      failing_item = session.checking.failing_item;
    } };

    ghost invariant = { λ session. session.checking.state ≡ Open →
        (session.checking.lexer.ended ≡ false) × WantsMore session.checking.lexer
        × AreRunning (machines_of session.checking.machines)
        × AreIn (mode_of session.checking.lexer.context) (machines_of session.checking.machines)
        × (session.checking.lexer.place + length session.checking.lexer.rest ≡ session.total)
        × (session.total ≤ 2 ^ 62)
        × (session.checking.failing_item ≡ None) };
}

impl<'p, A: Allocator + Copy, P: Allocator> Session<'p, A, P> {
    ghost use Rattle.preflight.specs.declared.check_state.CheckState.TheVariants as states;

    /// A check to which nothing was fed.
    ///
    /// The error is `NoProfile` for an empty fleet, or `Memory` where the allocator refused a
    /// request.
    pub fn new(alloc: A, fleet: &'p [Profile<P>]) -> Result<Self, Error>
        ensures none { IfOk result (λ session. HasChecked fleet.now [] session) }
        ensures fresh { IfOk result (λ session. ChecksOn session [] session) }
        ensures begun { IfOk result (λ session. (session.state ≡ states.Open)
            × (session.total ≡ 0)) }
        ensures no_profile { IsErrOf result Error.NoProfile ↔ (fleet.now ≡ []) }
        ensures errors { IfErr result (λ error. (error ≡ Error.NoProfile)
            ⊎ (error ≡ Error.Memory)) }
    {
        match fleet {
            [] => Err(Error::NoProfile),
            [first, others @ ..] => {
                let machines = Lockstep::new(alloc, first, others)?;
                Ok(Session {
                    checking: Checking {
                        lexer: Lexer::new(alloc),
                        machines,
                        state: CheckState::Open,
                        failing_item: None,
                    },
                    total: 0,
                })
            }
        }
    }

    /// Takes the next piece of the job, of any length.
    ///
    /// It is the library's surface for other programs, which feed a job themselves. `check_job`
    /// reads one.
    ///
    /// `Turns` means that the pieces would have more than 2^62 bytes together, which is judged
    /// before the piece is looked at, and `Memory` that the allocator refused a request. After an
    /// error the session answers it for good, and once the job fails a piece changes nothing.
    pub fn feed(&mut self, piece: &[u8]) -> Result<(), Error>
        ensures fed { OnOk result ((fleet : List Printer) (bytes : List ℕ) →
            HasChecked fleet bytes self.old → HasChecked fleet (bytes ++ piece.now) self.new) }
        ensures stopped { (error : Error) → (result ≡ Err error) ↔
            (self.new.state ≡ states.Stopped error) }
        ensures after_error { (error : Error) → self.old.state ≡ states.Stopped error →
            self.new ≡ self.old }
        ensures after_verdict { (verdict : Verdict) → self.old.state ≡ states.Judged verdict →
            self.new ≡ self.old }
        ensures turns { self.old.state ≡ states.Open → IsErrOf result Error.Turns ↔
            (2 ^ 62 < self.old.total + length piece.now) }
        ensures errors { self.old.state ≡ states.Open →
            IfErr result (λ error. (error ≡ Error.Turns) ⊎ (error ≡ Error.Memory)) }
        ensures total { self.new.state ≡ states.Open → self.new.total ≡
            self.old.total + length piece.now }
    {
        match self.checking.state {
            CheckState::Open => {}
            CheckState::Judged(_) => return Ok(()),
            CheckState::Stopped(error) => return Err(error),
        }
        if piece.len() as u64 > MOST_BYTES - self.total {
            self.checking.state = CheckState::Stopped(Error::Turns);
            return Err(Error::Turns);
        }
        let mut rest = piece;
        while !rest.is_empty() {
            let count = rest.len().min(PIECE);
            let came = self.piece(&mut (), &rest[..count])?;
            match came {
                None => rest = &rest[count..],
                Some(_) => return Ok(()),
            }
        }
        Ok(())
    }

    /// The item that the job fails at, whatever follows.
    ///
    /// It is None while nothing is wrong, and for a fault of the bytes. After an error it says
    /// nothing.
    pub fn failing_item(&self) -> Option<FailingItem>
        ensures value { result ≡ self.now.failing_item }
        ensures open { self.now.state ≡ states.Open → result ≡ None }
    {
        self.checking.failing_item
    }

    /// The page on which the job fails, whatever follows.
    ///
    /// It is None while nothing is wrong, and after an error.
    pub fn page(&self) -> Option<u64>
        ensures { result ≡ page_told self.now.state self.now.counts }
    {
        match self.checking.state {
            CheckState::Open => None,
            CheckState::Judged(verdict) => page_with(verdict, self.checking.machines.counts()),
            CheckState::Stopped(_) => None,
        }
    }

    /// Where the cursor stood before the item that the job fails at, whatever follows, on the
    /// printer of the failure.
    ///
    /// It is None where the panel decides that, for what is more than one step on the page, for
    /// what is no finding, while nothing is wrong, and after an error.
    pub fn cursor(&self) -> Option<SheetSpot>
        ensures { IsOfSession IsSpotOf self.now.state self.now.failing_item
            self.now.machines result }
    {
        match self.checking.state {
            CheckState::Open => None,
            CheckState::Judged(verdict) => {
                cursor_with(verdict, self.checking.failing_item, &self.checking.machines)
            }
            CheckState::Stopped(_) => None,
        }
    }

    /// The font that the item asked for that the job fails at, whatever follows, where no face of
    /// the printer answers that.
    ///
    /// It is None where `cursor` is, for a panel that decides it and what is more than one step.
    pub fn font(&self) -> Option<MissingFont>
        ensures { IsOfSession LacksFont self.now.state self.now.failing_item self.now.machines
            result }
    {
        match self.checking.state {
            CheckState::Open => None,
            CheckState::Judged(verdict) => {
                font_with(verdict, self.checking.failing_item, &self.checking.machines)
            }
            CheckState::Stopped(_) => None,
        }
    }

    /// The verdict on the job that was fed, whole.
    ///
    /// It is the verdict that `check_job` gives on the same bytes. The error is the one that
    /// stopped the session, or `Memory` where the allocator refuses a request now. Like `feed` it
    /// is for other programs.
    pub fn end(mut self) -> Result<Verdict, Error>
        ensures exact { IfOk result (λ verdict. (fleet : List Printer) (bytes : List ℕ) →
            HasChecked fleet bytes self.entry → IsExact fleet bytes verdict) }
        ensures headline { IfOk result (λ verdict. (fleet : List Printer) (bytes : List ℕ) →
            HasChecked fleet bytes self.entry → VerdictHolds fleet bytes verdict) }
        ensures after_verdict { (verdict : Verdict) → self.entry.state ≡
            states.Judged verdict → result ≡ Ok verdict }
        ensures after_error { (error : Error) → self.entry.state ≡ states.Stopped error →
            result ≡ Err error }
        ensures errors { self.entry.state ≡ states.Open →
            IfErr result (λ error. error ≡ Error.Memory) }
    {
        self.verdict()
    }

    /// The verdict on what was fed, where no piece follows.
    // It only borrows the session, so that the proof of each way out need not free it.
    pub(crate) fn verdict(&mut self) -> Result<Verdict, Error>
        ensures ended { IfOk result (λ verdict. (fleet : List Printer) (bytes : List ℕ) →
            HasChecked fleet bytes self.old →
            IsJudgementOn fleet bytes verdict self.new.failing_item
            (page_with verdict self.new.counts) self.new.machines) }
        ensures judged { (verdict : Verdict) → self.old.state ≡ states.Judged verdict →
            result ≡ Ok verdict }
        ensures kept { (verdict : Verdict) → self.old.state ≡ states.Judged verdict →
            self.new ≡ self.old }
        ensures stopped { (error : Error) → self.old.state ≡ states.Stopped error → result ≡
            Err error }
        ensures errors { self.old.state ≡ states.Open →
            IfErr result (λ error. error ≡ Error.Memory) }
    {
        fails_say();
        match self.checking.state {
            CheckState::Open => Consumer::end(self, &mut ()),
            CheckState::Judged(verdict) => Ok(verdict),
            CheckState::Stopped(error) => Err(error),
        }
    }
}

impl<A: Allocator + Copy, P: Allocator> Consumer<()> for Session<'_, A, P> {
    ghost use Rattle.preflight.specs.Carriers.Rooms.{session_leaves};

    type Answer = Verdict;

    ghost has_room = { λ session more. HasRoom session.0 more };

    ghost goes_on = { λ first bytes now. ChecksOn first.0 bytes now.0 };

    ghost answers = { λ first verdict pieces now. IsJudged first.0 verdict pieces now.0 };

    ghost stops = { λ first error bytes now. IsOutOfMemory first.0 error bytes now.0 };

    fn piece(&mut self, _outlet: &mut (), piece: &[u8]) -> Result<Option<Verdict>, Error> {
        fails_say();
        if self.checking.lexer.feed(piece).is_err() {
            self.checking.state = CheckState::Stopped(Error::Memory);
            return Err(Error::Memory);
        }
        self.total += piece.len() as u64;
        self.checking.execute_decided();
        match self.checking.state {
            CheckState::Open => Ok(None),
            CheckState::Judged(verdict) => Ok(Some(verdict)),
            CheckState::Stopped(error) => Err(error),
        }
    }

    fn end(&mut self, _outlet: &mut ()) -> Result<Verdict, Error> {
        self.checking.finish(self.total);
        match self.checking.state {
            CheckState::Open => unreachable!(),
            CheckState::Judged(verdict) => Ok(verdict),
            CheckState::Stopped(error) => Err(error),
        }
    }

    ghost leaves_room = { λ first bytes now room more has goes fits.
        session_leaves first.0 bytes now.0 room more has goes fits };
}
