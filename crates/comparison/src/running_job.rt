//! A job that is carried out, item by item, as it is read.

ghost use Rattle.std.specs.Prelude.{◌≡◌, ◌*◌, ◌<◌, ◌≤◌, ◌^◌, List, [], IfErr, IfOk, IfSome};
ghost use Rattle.std.specs.Prelude.{IsFalse, IsTrue, OnOk, false, length, map, true};
ghost use Rattle.device_profile.specs.Printer.{IsAllowed, Printer};
ghost use Rattle.device_profile.specs.declared.panel.Panel.{Panel};
ghost use Rattle.pcl_lexer.specs.Lexing.Passing.{ahead_of};
ghost use Rattle.page_env.specs.declared.text_lines.TextAppearance.{TextAppearance};
ghost use Rattle.page_machine.specs.TextLines.{IsMeasuredAt};
ghost use Rattle.comparison.specs.Comparison.{Made};
ghost use Rattle.comparison.specs.Running.{GoesBy, HasRun, IsErrorOfJob, IsWaiting, RunsOn};
ghost use Rattle.comparison.specs.Running.{RunsOut, TakesEnd, TakesPiece, TakesRead, TakesWork};
ghost use Rattle.comparison.specs.Running.{failure_of, is_open, place_after, progress_after, work};
ghost use Rattle.comparison.specs.Together.{CountsBy};
ghost use Rattle.comparison.specs.Texts.{GoNext, PassesLines};
ghost use Rattle.sinks.specs.Owned.{event_of};
ghost use Rattle.streams.specs.Errors.{is_err_of_read};
ghost use Rattle.streams.specs.Source.{SourceState};

use crate::difference::Spot;
use crate::stepping::{Stepped, step};
use device_profile::{Panel, Profile};
use page_env::{TextLines, TextMeasure, TextPlace};
use page_machine::{Machine, Start};
use pcl_items::Place;
use pcl_lexer::Lexer;
use sinks::{OwnedEvent, Recorder};
use std::alloc::{AllocError, Allocator};
use std::marker::Model;
use streams::{Error, PIECE, Source};
use verdict::Failure;

/// After so many reads without an end no more are made.
const MOST_READS: u64 = 1 << 40;

/// Whether a job is over.
#[derive(Clone, Copy)]
pub(crate) enum Progress {
    /// There is more of it.
    Open,
    /// It was carried out to its end.
    Ended,
    /// It fails.
    Fails(Failure),
    /// Memory was refused, and nothing more is known of it.
    OutOfMemory,
}

/// A job that is carried out on a printer from a panel. It keeps what its last item made.
#[derive(Drop)]
pub(crate) struct RunningJob<'p, A: Allocator + Copy, P: Allocator> {
    lexer: Lexer<A>,
    machine: Machine<'p, P, A>,
    recorder: Recorder<A>,
    /// Where the last item stands; at the end of the job the number of its bytes.
    place: Place,
    /// How many bytes were fed, and by how many reads.
    total: u64,
    reads: u64,
    /// The number of the printer.
    number: u64,
    progress: Progress,
}

impl<'p, A: Allocator + Copy, P: Allocator> Model for RunningJob<'p, A, P> {
    ghost use Rattle.std.specs.Prelude.{◌≡◌, ◌+◌, ◌*◌, ◌≤◌, ◌^◌, false, length, true};
    ghost use Rattle.pcl_lexer.specs.Modes.{mode_of};
    ghost use Rattle.comparison.specs.Running.{RunState, is_open};

    ghost Value = { RunState };

    ghost view = { λ job. record {
      lexer = job.lexer;
      machine = job.machine;
      events = job.recorder.events;
      place = job.place;
      total = job.total;
      reads = job.reads;
      number = job.number;
      progress = job.progress;
    } };

    ghost invariant = { λ job. is_open job.progress ≡ true →
        (job.machine.stopped ≡ false) × (job.machine.mode ≡ mode_of job.lexer.context)
        × (job.lexer.place + length job.lexer.rest ≡ job.total)
        × (job.total ≤ 4096 * job.reads) × (job.reads ≤ 2 ^ 40) };
}

impl<'p, A: Allocator + Copy, P: Allocator> RunningJob<'p, A, P> {
    /// A job of which nothing is read, on the printer of this number, from this panel.
    pub(crate) fn new(
        alloc: A,
        profile: &'p Profile<P>,
        panel: &Panel,
        number: u64,
    ) -> RunningJob<'p, A, P>
        requires { IsAllowed profile.now panel.now }
        ensures run { (first : SourceState) →
            HasRun profile.now panel.now first first [] result }
        ensures number { result.number ≡ number }
        ensures none { result.events ≡ [] }
    {
        let lexer = Lexer::new(alloc);
        let machine = Machine::new(alloc, profile, Start::At(*panel));
        let recorder = Recorder::new(alloc);
        RunningJob {
            lexer,
            machine,
            recorder,
            place: 0,
            total: 0,
            reads: 0,
            number,
            progress: Progress::Open,
        }
    }

    /// Whether there is more of the job.
    pub(crate) fn is_open(&self) -> bool
        ensures { result ≡ is_open self.now.progress }
    {
        match self.progress {
            Progress::Open => true,
            Progress::Ended => false,
            Progress::Fails(_) => false,
            Progress::OutOfMemory => false,
        }
    }

    /// Why the job fails, if it was found to fail.
    pub(crate) fn failure(&self) -> Option<Failure>
        ensures { result ≡ failure_of self.now.progress }
    {
        match self.progress {
            Progress::Open => None,
            Progress::Ended => None,
            Progress::Fails(failure) => Some(failure),
            Progress::OutOfMemory => None,
        }
    }

    /// What its last item made.
    pub(crate) fn events(&self) -> &[OwnedEvent<A>]
        ensures { map event_of result.now ≡ self.now.events }
    {
        self.recorder.events()
    }

    /// Where its last item stands.
    pub(crate) fn place(&self) -> Place
        ensures { result ≡ self.now.place }
    {
        self.place
    }

    /// The bytes that stand next, where an item may begin between units; else none.
    pub(crate) fn ahead(&self) -> &[u8]
        ensures { result.now ≡ ahead_of self.now.lexer }
    {
        self.lexer.ahead()
    }

    /// Whether text stands next.
    pub(crate) fn has_text_next(&self) -> bool {
        matches!(self.lexer.ahead(), [b' '..=255, ..])
    }

    /// What lines of text take from where the machine stands, and where they begin, if that is
    /// known.
    pub(crate) fn text_measure(&self) -> Option<(TextMeasure<'p, P>, TextPlace)>
        ensures { IfSome result (λ known. IsMeasuredAt self.now.machine known.0 known.1) }
    {
        self.machine.text_measure()
    }

    /// Carries out the first bytes ahead, which go as lines of text. What was made before is
    /// forgotten, and of these lines nothing is kept.
    pub(crate) fn pass_lines(&mut self, lines: &TextLines)
        requires running { is_open self.old.progress ≡ true }
        requires next { (look : TextAppearance) × (from : TextPlace)
            × GoNext look from lines.now self.old }
        ensures passed { PassesLines lines.now self.old self.new }
        ensures less { work self.new < work self.old }
        ensures none { self.new.events ≡ [] }
        ensures number { self.new.number ≡ self.old.number }
    {
        self.recorder.clear();
        self.machine.pass_lines(lines);
        self.lexer.pass_lines(lines.count);
    }

    /// Carries out the next item or the end, or reads on. What was made before is forgotten.
    ///
    /// An error is `Read` where the read failed, `Memory`, or `Turns` where it was one too many.
    pub(crate) fn step<S: Source>(&mut self, source: &mut S) -> Result<(), Error>
        requires working { IsFalse (S.state source.old).failed }
        requires running { is_open self.old.progress ≡ true }
        ensures run { OnOk result (RunsOn (S.state source.old) (S.state source.new)
            self.old self.new) }
        ensures less { OnOk result (work self.new < work self.old) }
        ensures number { self.new.number ≡ self.old.number }
        ensures read { (S.state source.new).failed ≡ is_err_of_read result }
        ensures err { IfErr result IsErrorOfJob }
    {
        let stepped = self.advance();
        match stepped {
            Stepped::More => self.read(source),
            Stepped::Refused => Err(Error::Memory),
            _ => Ok(()),
        }
    }

    /// Carries out the next item or the end, as far as the bytes that were fed decide these. What
    /// was made before is forgotten.
    fn advance(&mut self) -> Stepped
        requires { is_open self.old.progress ≡ true }
        ensures came { (printer : Printer) (panel : Panel) (first now : SourceState)
            (made : List Made) → HasRun printer panel first now made self.old →
            GoesBy result printer panel first now made self.new }
        ensures waits { result ≡ Stepped.More → IsWaiting self.new }
        ensures less { TakesWork result self.old self.new }
        ensures number { self.new.number ≡ self.old.number }
    {
        self.recorder.clear();
        let (lexer, machine) = (&mut self.lexer, &mut self.machine);
        let stepped = step(lexer, machine, &mut self.recorder, self.number, self.total);
        self.place = place_after(stepped, self.place, self.total);
        self.progress = progress_after(stepped);
        stepped
    }

    /// Carries out the next item or the end, as far as the bytes that were fed decide these, and
    /// counts what that makes.
    pub(crate) fn count_next(&mut self, spot: &mut Spot) -> Stepped
        requires running { is_open self.old.progress ≡ true }
        requires none { self.old.events ≡ [] }
        ensures counted { CountsBy result self.old self.new spot.old spot.new }
        ensures waits { result ≡ Stepped.More → IsWaiting self.new }
        ensures less { TakesWork result self.old self.new }
        ensures none { self.new.events ≡ [] }
        ensures number { self.new.number ≡ self.old.number }
    {
        let (lexer, machine) = (&mut self.lexer, &mut self.machine);
        let stepped = step(lexer, machine, spot, self.number, self.total);
        self.place = place_after(stepped, self.place, self.total);
        self.progress = progress_after(stepped);
        stepped
    }

    /// Whether one read more may be made.
    pub(crate) fn may_read(&self) -> bool
        requires { is_open self.now.progress ≡ true }
        ensures few { IsTrue result → self.now.reads < 2 ^ 40 }
        ensures small { self.now.total ≤ 4096 * self.now.reads }
    {
        self.reads < MOST_READS
    }

    /// Takes what one read more gave, where nothing is the end of the job.
    ///
    /// An error means that memory was refused.
    pub(crate) fn take_read(&mut self, piece: &[u8]) -> Result<(), AllocError>
        requires waits { IsWaiting self.old }
        requires few { self.old.reads < 2 ^ 40 }
        requires small { self.old.total ≤ 4096 * self.old.reads }
        requires short { length piece.now ≤ 4096 }
        ensures taken { OnOk result (TakesRead piece.now self.old self.new) }
        ensures less { OnOk result (work self.new < work self.old) }
        ensures none { OnOk result (self.new.events ≡ []) }
        ensures number { self.new.number ≡ self.old.number }
    {
        if piece.is_empty() {
            self.take_end();
            return Ok(());
        }
        self.take_piece(piece)
    }

    /// A job that stands where this one stands, of whose last item nothing is kept.
    ///
    /// An error means that memory was refused.
    pub(crate) fn copied(&self, alloc: A) -> Result<RunningJob<'p, A, P>, AllocError>
        requires { self.now.events ≡ [] }
        ensures { IfOk result (λ copy. copy ≡ self.now) }
    {
        let lexer = self.lexer.copied(alloc)?;
        let machine = self.machine.copied(alloc)?;
        Ok(RunningJob {
            lexer,
            machine,
            recorder: Recorder::new(alloc),
            place: self.place,
            total: self.total,
            reads: self.reads,
            number: self.number,
            progress: self.progress,
        })
    }

    /// Reads on, where the bytes so far decide nothing more.
    fn read<S: Source>(&mut self, source: &mut S) -> Result<(), Error>
        requires working { IsFalse (S.state source.old).failed }
        requires waits { IsWaiting self.old }
        ensures run { OnOk result (RunsOn (S.state source.old) (S.state source.new)
            self.old self.new) }
        ensures less { OnOk result (work self.new < work self.old) }
        ensures number { self.new.number ≡ self.old.number }
        ensures read { (S.state source.new).failed ≡ is_err_of_read result }
        ensures err { IfErr result IsErrorOfJob }
    {
        if self.reads == MOST_READS {
            return Err(Error::Turns);
        }
        let mut piece = [0u8; PIECE];
        let Ok(count) = source.read(&mut piece) else {
            return Err(Error::Read);
        };
        if count == 0 {
            self.take_end();
            return Ok(());
        }
        self.take_piece(&piece[..count])?;
        Ok(())
    }

    /// Takes the end of the job.
    fn take_end(&mut self)
        requires waits { IsWaiting self.old }
        requires few { self.old.reads < 2 ^ 40 }
        ensures ended { TakesEnd self.old self.new }
        ensures less { work self.new < work self.old }
        ensures none { self.new.events ≡ [] }
        ensures number { self.new.number ≡ self.old.number }
    {
        self.lexer.end_input();
        self.reads += 1;
    }

    /// Takes a further piece of the job.
    fn take_piece(&mut self, piece: &[u8]) -> Result<(), AllocError>
        requires waits { IsWaiting self.old }
        requires few { self.old.reads < 2 ^ 40 }
        requires small { self.old.total ≤ 4096 * self.old.reads }
        requires some { 0 < length piece.now }
        requires short { length piece.now ≤ 4096 }
        ensures fed { OnOk result (TakesPiece piece.now self.old self.new) }
        ensures less { OnOk result (work self.new < work self.old) }
        ensures none { OnOk result (self.new.events ≡ []) }
        ensures number { self.new.number ≡ self.old.number }
    {
        self.lexer.feed(piece)?;
        self.reads += 1;
        self.total += piece.len() as u64;
        Ok(())
    }

    /// Carries out the rest of the job, whatever it makes.
    ///
    /// The errors are those of `step`.
    pub(crate) fn run_out<S: Source>(&mut self, source: &mut S) -> Result<(), Error>
        requires { IsFalse (S.state source.old).failed }
        ensures run { OnOk result (RunsOut (S.state source.old) (S.state source.new)
            self.old self.new) }
        ensures over { OnOk result (is_open self.new.progress ≡ false) }
        ensures number { self.new.number ≡ self.old.number }
        ensures read { (S.state source.new).failed ≡ is_err_of_read result }
        ensures err { IfErr result IsErrorOfJob }
    {
        'steps: while self.is_open() {
            self.step(source)?;
        }
        Ok(())
    }
}

/// Where the last item stands behind a step, which stood at a place before it.
fn place_after(stepped: Stepped, last: Place, total: u64) -> Place
    ensures { result ≡ place_after stepped last total }
{
    match stepped {
        Stepped::On(place) => place,
        Stepped::More => last,
        Stepped::AtEnd => total,
        Stepped::FailsBy(_) => last,
        Stepped::Refused => last,
    }
}

/// Whether a job is over behind a step.
fn progress_after(stepped: Stepped) -> Progress
    ensures { result ≡ progress_after stepped }
{
    match stepped {
        Stepped::On(_) => Progress::Open,
        Stepped::More => Progress::Open,
        Stepped::AtEnd => Progress::Ended,
        Stepped::FailsBy(failure) => Progress::Fails(failure),
        Stepped::Refused => Progress::OutOfMemory,
    }
}
