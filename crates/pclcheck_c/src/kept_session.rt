//! A check between two pieces of a job, that C holds.
ghost use Rattle.std.specs.Prelude.{◌≡◌, ◌++◌, ◌↔◌, ℕ, List, [], IfErr, IfOk, IsErrOf};
ghost use Rattle.preflight.specs.Kept.{HasEnded, HasKept, IsGoing, IsOver};
ghost use Rattle.foreign_calls.specs.Answers.{IsStop};
ghost use Rattle.foreign_calls.specs.Checked.{IsSentenceOf};
ghost use Rattle.pclcheck_c.specs.Fleets.{asked};
ghost use Rattle.pclcheck_c.specs.Sessions.{Ends, EndsAs, Feeds, answer_of, printers_for};
ghost use Rattle.pclcheck_c.specs.Sessions.{progress_number, within};

use crate::checking::text_of;
use crate::fleet::Fleet;
use foreign_calls::{DONE, JUDGED, Told, VerdictRow, Why, error_number, leave};
use judgement::Judgement;
use preflight::KeptCheck;
use std::alloc::Global;
use std::mem;
use streams::Error;

/// A check between two pieces, for printers of a fleet.
#[derive(Drop)]
pub struct KeptSession {
    /// The number of the printer that was asked for by itself; 0 for all.
    pub printer: usize,
    pub check: KeptCheck<Global>,
}

impl KeptSession {
    /// Takes a piece, and answers how far the check has come.
    pub(crate) fn feed(&mut self, alloc: Global, fleet: &Fleet, piece: &[u8]) -> u32
        requires { IsGoing (printers_for fleet.now self.old) self.old.check }
        ensures { Feeds piece.now result fleet.now self.old self.new }
    {
        // What stands here meanwhile is not looked at.
        let check = mem::replace(&mut self.check, KeptCheck::Stopped(Error::Memory));
        self.check = fed(alloc, fleet, self.printer, check, piece);
        progress_number(&self.check)
    }

    /// Comes to the end, and tells the verdict.
    pub(crate) fn end(&mut self, alloc: Global, fleet: &Fleet, row: &mut VerdictRow) -> u32
        requires { IsGoing (printers_for fleet.now self.old) self.old.check }
        ensures { Ends result row.old row.new fleet.now self.old self.new }
    {
        self.come_to_end(alloc, fleet);
        leave(self.answer(), row)
    }

    /// Comes to the end, and tells the sentence on the job, which has this name.
    pub(crate) fn tell(
        &mut self,
        alloc: Global,
        fleet: &Fleet,
        name: &[u8],
    ) -> Result<Told<Global>, Why>
        requires { IsGoing (printers_for fleet.now self.old) self.old.check }
        ensures ends { EndsAs fleet.now self.old self.new }
        ensures sentence { IfOk result (λ told. (bytes : List ℕ) →
            HasKept (printers_for fleet.now self.old) bytes self.old.check →
            IsSentenceOf (asked fleet.now self.old.printer) name.now bytes told) }
        ensures stops { IfErr result IsStop }
    {
        self.come_to_end(alloc, fleet);
        text_of(alloc, fleet, self.printer, name, self.answer())
    }

    /// Comes to the end of the job, where it has not yet.
    fn come_to_end(&mut self, alloc: Global, fleet: &Fleet)
        requires { IsGoing (printers_for fleet.now self.old) self.old.check }
        ensures { EndsAs fleet.now self.old self.new }
    {
        let check = mem::replace(&mut self.check, KeptCheck::Stopped(Error::Memory));
        self.check = ended(alloc, fleet, self.printer, check);
    }

    /// The answer on the job, of a check that is over.
    fn answer(&self) -> Result<Judgement, Error>
        ensures { result ≡ answer_of self.now.check }
    {
        match &self.check {
            KeptCheck::Open(_) => Err(Error::Write),
            KeptCheck::Judged(answer) => within(*answer),
            KeptCheck::Stopped(error) => Err(*error),
        }
    }
}

/// How far a check has come.
fn progress_number(check: &KeptCheck<Global>) -> u32
    ensures { result ≡ progress_number check.now }
{
    match check {
        KeptCheck::Open(_) => DONE,
        KeptCheck::Judged(_) => JUDGED,
        KeptCheck::Stopped(error) => error_number(*error),
    }
}

/// A session to which nothing was fed, for the printers that are asked for.
pub(crate) fn begun(alloc: Global, fleet: &Fleet, printer: usize) -> Result<Box<KeptSession>, Error>
    ensures right { IfOk result (λ session. (session.value.printer ≡ printer)
        × HasKept (printers_for fleet.now session.value) [] session.value.check) }
    ensures no_printer { IsErrOf result Error.NoProfile ↔ ((asked fleet.now printer).fleet ≡ []) }
{
    let group = fleet.asked(printer);
    match KeptCheck::new(alloc, group.profiles()) {
        Ok(check) => boxed(alloc, KeptSession { printer, check }),
        Err(error) => Err(error),
    }
}

fn boxed(alloc: Global, session: KeptSession) -> Result<Box<KeptSession>, Error>
    ensures right { IfOk result (λ held. held.value ≡ session) }
    ensures memory { IfErr result (λ error. error ≡ Error.Memory) }
{
    match Box::new(alloc, session) {
        Ok(held) => Ok(held),
        Err(_) => Err(Error::Memory),
    }
}

/// An answer, but for one that the limit of items stands behind.
fn within(answer: Judgement) -> Result<Judgement, Error>
    ensures { result ≡ within answer }
{
    if answer.verdict.has_many_items() {
        Err(Error::Items)
    } else {
        Ok(answer)
    }
}

/// A check for printers of a fleet that has taken one more piece.
fn fed(
    alloc: Global,
    fleet: &Fleet,
    printer: usize,
    check: KeptCheck<Global>,
    piece: &[u8],
) -> KeptCheck<Global>
    requires { IsGoing (asked fleet.now printer).fleet check }
    ensures fed { (bytes : List ℕ) → HasKept (asked fleet.now printer).fleet bytes check →
        HasKept (asked fleet.now printer).fleet (bytes ++ piece.now) result }
    ensures going { IsGoing (asked fleet.now printer).fleet result }
{
    let group = fleet.asked(printer);
    check.feed(alloc, group.profiles(), piece)
}

/// A check for printers of a fleet that has come to its end.
fn ended(
    alloc: Global,
    fleet: &Fleet,
    printer: usize,
    check: KeptCheck<Global>,
) -> KeptCheck<Global>
    requires { IsGoing (asked fleet.now printer).fleet check }
    ensures ended { (bytes : List ℕ) → HasKept (asked fleet.now printer).fleet bytes check →
        HasEnded (asked fleet.now printer).fleet bytes result }
    ensures over { IsOver result }
    ensures again { IsOver check → result ≡ check }
{
    let group = fleet.asked(printer);
    check.end(alloc, group.profiles())
}
