//! How far a check has come.
ghost use Rattle.std.specs.Prelude.{◌≡◌, ◌≢◌, false, IfErr};
ghost use Rattle.streams.specs.declared.error.Error.TheVariants.{Memory};
ghost use Rattle.preflight.specs.declared.check_state.CheckState.TheVariants.{Open};
ghost use Rattle.preflight.specs.CheckState.{StandsAfter, is_open};
ghost use Rattle.verdict.specs.Failing.{failing};

use page_machine::Stop;
use pcl_items::Place;
use streams::Error;
use verdict::{Failure, Verdict};

/// How far a check has come.
///
/// What executes items writes it where it is kept, and answers whether it is still open. So the way
/// of the items that go on hands no failure up.
#[derive(Clone, Copy)]
pub enum CheckState {
    /// Nothing is wrong so far.
    Open,
    /// This is the verdict, whatever follows.
    Judged(Verdict),
    /// An error stopped it, which it answers for good.
    Stopped(Error),
}

impl CheckState {
    /// The job fails, whatever follows. It is not open any more, which is the answer.
    pub fn fail(&mut self, failure: Failure) -> bool
        ensures standing { self.new ≡ CheckState.Judged (failing failure) }
        ensures closed { result ≡ false }
    {
        *self = CheckState::Judged(failure.verdict());
        false
    }

    /// Judges what the machine of this number answered for what stands at this place, where it was
    /// running and the check was open: a finding is the verdict. Tells whether the check is still
    /// open.
    #[inline(always)]
    pub fn judge<F: Drop>(&mut self, place: Place, number: u64, answer: Result<(), Stop<F>>) -> bool
        requires open { self.old ≡ Open }
        requires running { IfErr answer (λ stop. stop ≢ Stop.Stopped) }
        ensures standing { StandsAfter place number answer self.new }
        ensures open { result ≡ is_open self.new }
    {
        match answer {
            Ok(()) => true,
            Err(Stop::Found(finding)) => self.fail(Failure::of_finding(place, number, finding)),
            // A sink of a check refuses an event for want of memory alone.
            Err(Stop::Refused(_)) => self.refuse(),
            Err(Stop::Memory(_)) => self.refuse(),
            Err(Stop::Stopped) => unreachable!(),
        }
    }

    /// The allocator refused a request. It is not open any more, which is the answer.
    fn refuse(&mut self) -> bool
        ensures standing { self.new ≡ CheckState.Stopped Memory }
        ensures closed { result ≡ false }
    {
        *self = CheckState::Stopped(Error::Memory);
        false
    }
}
