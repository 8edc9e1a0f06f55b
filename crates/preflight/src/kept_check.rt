//! A check that is kept between two pieces of a job, and borrows no profile.

ghost use Rattle.std.specs.Prelude.{◌≡◌, ◌++◌, ◌↔◌, ℕ, List, [], IfOk, IsErrOf};
ghost use Rattle.device_profile.specs.Printer.{Printer};
ghost use Rattle.preflight.specs.Carriers.Detached.{IsLeftFor, IsLeftOf, IsUsed, WasFed};
ghost use Rattle.preflight.specs.Carriers.Detached.{attached_session};
ghost use Rattle.preflight.specs.Judgement.{IsAnswer, IsJudgementOn};
ghost use Rattle.preflight.specs.Session.{HasChecked};
ghost use Rattle.preflight.specs.Where.{page_with};

use crate::check_state::CheckState;
use crate::checking::Checking;
use crate::detached::DetachedLockstep;
use crate::session::Session;
use crate::stood::{cursor_with, font_with};
use crate::told::page_with;
use device_profile::Profile;
use judgement::Judgement;
use pcl_lexer::Lexer;
use std::alloc::{AllocError, Allocator};
use std::marker::Model;
use streams::Error;
use verdict::Verdict;

/// A session in which nothing is wrong so far, without its profiles.
#[derive(Drop)]
pub struct DetachedSession<A: Allocator + Copy> {
    lexer: Lexer<A>,
    machines: DetachedLockstep<A>,
    total: u64,
}

impl<A: Allocator + Copy> Model for DetachedSession<A> {
    ghost use Rattle.preflight.specs.Carriers.Detached.{DetachedCheck};

    ghost Value = { DetachedCheck };

    ghost view = { λ session. record {
      lexer = session.lexer;
      machines = session.machines;
      total = session.total;
    } };
}

/// A check between two pieces, for whoever cannot hold what borrows the profiles: each call takes
/// them, and they have to be the ones with which it began.
#[derive(Drop)]
pub enum KeptCheck<A: Allocator + Copy> {
    /// Nothing is wrong so far.
    Open(DetachedSession<A>),
    /// This is the answer, whatever follows; behind the end it is that on the job.
    Judged(Judgement),
    /// An error stopped it, which it answers for good.
    Stopped(Error),
}

impl<A: Allocator + Copy> KeptCheck<A> {
    ghost use Rattle.preflight.specs.Kept.{HasEnded, HasKept, IsGoing, IsOver};

    /// A check to which nothing was fed.
    ///
    /// The error is `NoProfile` for an empty fleet, or `Memory`.
    pub fn new<P: Allocator>(alloc: A, fleet: &[Profile<P>]) -> Result<Self, Error>
        ensures begun { IfOk result (HasKept fleet.now []) }
        ensures no_profile { IsErrOf result Error.NoProfile ↔ (fleet.now ≡ []) }
    {
        let session = Session::new(alloc, fleet)?;
        Ok(session.keep(alloc))
    }

    /// Takes the next piece of the job, of any length. Once it is judged or stopped, a piece
    /// changes nothing.
    pub fn feed<P: Allocator>(self, alloc: A, fleet: &[Profile<P>], piece: &[u8]) -> Self
        requires { IsGoing fleet.now self }
        ensures fed { (bytes : List ℕ) → HasKept fleet.now bytes self →
            HasKept fleet.now (bytes ++ piece.now) result }
        ensures going { IsGoing fleet.now result }
    {
        match self {
            KeptCheck::Open(session) => session.feed(alloc, fleet, piece),
            KeptCheck::Judged(answer) => KeptCheck::Judged(answer),
            KeptCheck::Stopped(error) => KeptCheck::Stopped(error),
        }
    }

    /// Comes to the answer on the job that was fed, whole, unless an error stopped it.
    pub fn end<P: Allocator>(self, alloc: A, fleet: &[Profile<P>]) -> Self
        requires { IsGoing fleet.now self }
        ensures ended { (bytes : List ℕ) → HasKept fleet.now bytes self →
            HasEnded fleet.now bytes result }
        ensures over { IsOver result }
        ensures again { IsOver self → result ≡ self }
    {
        match self {
            KeptCheck::Open(session) => session.end(alloc, fleet),
            KeptCheck::Judged(answer) => KeptCheck::Judged(answer),
            KeptCheck::Stopped(error) => KeptCheck::Stopped(error),
        }
    }
}

impl<A: Allocator + Copy> DetachedSession<A> {
    ghost use Rattle.preflight.specs.Kept.{HasEnded, HasKept, IsGoing, IsOver};

    /// Takes a piece.
    fn feed<P: Allocator>(self, alloc: A, fleet: &[Profile<P>], piece: &[u8]) -> KeptCheck<A>
        requires { IsUsed fleet.now self }
        ensures fed { (bytes : List ℕ) → WasFed fleet.now bytes self →
            HasKept fleet.now (bytes ++ piece.now) result }
        ensures going { IsGoing fleet.now result }
    {
        match self.attach(alloc, fleet) {
            Ok(session) => session.feed_and_keep(alloc, piece),
            Err(error) => KeptCheck::Stopped(error),
        }
    }

    /// Comes to the end.
    fn end<P: Allocator>(self, alloc: A, fleet: &[Profile<P>]) -> KeptCheck<A>
        requires { IsUsed fleet.now self }
        ensures ended { (bytes : List ℕ) → WasFed fleet.now bytes self →
            HasEnded fleet.now bytes result }
        ensures over { IsOver result }
    {
        match self.attach(alloc, fleet) {
            Ok(session) => session.end_and_keep(),
            Err(error) => KeptCheck::Stopped(error),
        }
    }

    /// Borrows the profiles again.
    fn attach<'p, P: Allocator>(
        self,
        alloc: A,
        fleet: &'p [Profile<P>],
    ) -> Result<Session<'p, A, P>, Error>
        requires { IsLeftFor fleet.now self }
        ensures { IfOk result (λ session. session ≡ attached_session fleet.now self) }
    {
        match fleet {
            [] => Err(Error::NoProfile),
            [first, others @ ..] => {
                let machines = self.machines.attach(alloc, first, others)?;
                Ok(Session {
                    checking: Checking {
                        lexer: self.lexer,
                        machines,
                        state: CheckState::Open,
                        failing_item: None,
                    },
                    total: self.total,
                })
            }
        }
    }
}

impl<'p, A: Allocator + Copy, P: Allocator> Session<'p, A, P> {
    ghost use Rattle.preflight.specs.declared.check_state.CheckState.TheVariants as states;
    ghost use Rattle.preflight.specs.Kept.{HasEnded, HasKept, IsOver};

    /// Gives up the profiles, where nothing is wrong so far.
    fn detach(self, alloc: A) -> Result<DetachedSession<A>, AllocError>
        requires { self.state ≡ states.Open }
        ensures { IfOk result (IsLeftOf self.entry) }
    {
        let checking = self.checking;
        let machines = checking.machines.detach(alloc)?;
        Ok(DetachedSession {
            lexer: checking.lexer,
            machines,
            total: self.total,
        })
    }

    /// The same, as a check that is kept, unless memory is refused.
    fn keep_open(self, alloc: A) -> KeptCheck<A>
        requires { self.state ≡ states.Open }
        ensures { (fleet : List Printer) (bytes : List ℕ) → HasChecked fleet bytes self.entry →
            HasKept fleet bytes result }
    {
        match self.detach(alloc) {
            Ok(session) => KeptCheck::Open(session),
            Err(_) => KeptCheck::Stopped(Error::Memory),
        }
    }

    /// Gives up the profiles, with what it came to.
    fn keep(self, alloc: A) -> KeptCheck<A>
        ensures { (fleet : List Printer) (bytes : List ℕ) → HasChecked fleet bytes self.entry →
            HasKept fleet bytes result }
    {
        match self.checking.state {
            CheckState::Open => self.keep_open(alloc),
            CheckState::Judged(verdict) => KeptCheck::Judged(self.judgement(verdict)),
            CheckState::Stopped(error) => KeptCheck::Stopped(error),
        }
    }

    /// Takes a piece, and gives up the profiles.
    fn feed_and_keep(mut self, alloc: A, piece: &[u8]) -> KeptCheck<A>
        ensures { (fleet : List Printer) (bytes : List ℕ) → HasChecked fleet bytes self.entry →
            HasKept fleet (bytes ++ piece.now) result }
    {
        match self.feed(piece) {
            Ok(()) => self.keep(alloc),
            Err(error) => KeptCheck::Stopped(error),
        }
    }

    /// Comes to the end, and gives up the profiles.
    fn end_and_keep(mut self) -> KeptCheck<A>
        ensures ended { (fleet : List Printer) (bytes : List ℕ) →
            HasChecked fleet bytes self.entry → HasEnded fleet bytes result }
        ensures over { IsOver result }
    {
        match self.verdict() {
            Ok(verdict) => KeptCheck::Judged(self.judgement(verdict)),
            Err(error) => KeptCheck::Stopped(error),
        }
    }

    /// The verdict to which it came, and where the job fails.
    fn judgement(&self, verdict: Verdict) -> Judgement
        ensures { (fleet : List Printer) (job : List ℕ) →
            IsJudgementOn fleet job verdict self.now.failing_item
            (page_with verdict self.now.counts) self.now.machines → IsAnswer fleet job result }
    {
        let failing_item = self.checking.failing_item;
        Judgement {
            verdict,
            failing_item,
            page: page_with(verdict, self.checking.machines.counts()),
            cursor: cursor_with(verdict, failing_item, &self.checking.machines),
            font: font_with(verdict, failing_item, &self.checking.machines),
        }
    }
}
