//! Commands, lines of text and the ends of lines, one behind another.

ghost use Rattle.std.specs.Prelude.{◌≡◌, ◌≤◌, ◌<◌, ◌+◌, ℕ, List, length, take};
ghost use Rattle.std.specs.Prelude.{IfNone, IfSome, IsTrue};
ghost use Rattle.device_profile.specs.Printer.{Printer};
ghost use Rattle.pcl_items.specs.Lines.{AreLines};
ghost use Rattle.pcl_lexer.specs.Modes.{mode_of};
ghost use Rattle.pcl_lexer.specs.Laws.{HasOneReading};
ghost use Rattle.pcl_lexer.specs.Reading.{Reading, left};
ghost use Rattle.page_machine.specs.Laws.{IsWatchedAlike};
ghost use Rattle.preflight.specs.Carriers.Checking.{HasExecuted};
ghost use Rattle.preflight.specs.Carriers.FormsInStep.{FirstForms, FirstMeasures};
ghost use Rattle.preflight.specs.Carriers.Lockstep.{machines_of, counts_of, AreRunning, AreIn};
ghost use Rattle.preflight.specs.Carriers.Loops.{ExecutesOn, ExecutesOne, Knows, MayExecute};
ghost use Rattle.preflight.specs.Carriers.TextInStep.{PrintInStep};

use crate::checking::Checking;
use crate::known::{forget_bounds, forget_measure};
use crate::lockstep::Lockstep;
use page_env::{FormBounds, TextMeasure};
use page_machine::watched_runs_are_alike;
use pcl_items::Group;
use pcl_lexer::{Lexer, one_reading};
use std::alloc::Allocator;

impl<'p, A: Allocator + Copy, P: Allocator> Checking<'p, A, P> {
    /// Executes the commands, the lines of text and the ends of lines that stand next, as many as
    /// are known to, and tells whether the check is still open.
    // A call of its own: a job is mostly these, and what executes them keeps nothing else.
    #[inline(never)]
    pub fn execute_pcl(&mut self) -> bool
        requires { MayExecute self.old }
        ensures { ExecutesOn self.old self.new result }
    {
        one_reading();
        watched_runs_are_alike();
        // What moves and rectangles take, where it is known since the command before, and what text
        // takes.
        let mut known = None;
        let mut measure = None;
        loop {
            if let Some(is_open) = self.execute_command(&mut known, &mut measure) {
                if !is_open {
                    return false;
                }
            } else if execute_text(&mut self.lexer, &mut self.machines, &known, &mut measure) {
                // Text went, and mostly a command stands behind it.
            } else if let Some(is_open) = self.execute_escape(&mut known, &mut measure) {
                if !is_open {
                    return false;
                }
            } else {
                let Some(is_open) = self.execute_line_end(&mut known, &mut measure) else {
                    return true;
                };
                if !is_open {
                    return false;
                }
            }
        }
    }

    /// Executes the command of a group of moves or of rectangles that stands next with a short
    /// number, where it is known that one does, and tells whether the check is still open.
    #[inline(always)]
    fn execute_command(
        &mut self,
        known: &mut Option<FormBounds>,
        measure: &mut Option<TextMeasure<'p, P>>,
    ) -> Option<bool>
        requires one { (job : List ℕ) → HasOneReading job }
        requires watched { (printer : Printer) (reading : Reading) →
            IsWatchedAlike printer reading }
        requires may { MayExecute self.old }
        requires knows { Knows known.old measure.old (machines_of self.old.machines) }
        ensures executed { IfSome result
            (λ is_open. ExecutesOne self.old self.new known.new measure.new is_open) }
        ensures none { IfNone result (self.new ≡ self.old) }
        ensures knows { IfNone result
            (Knows known.new measure.new (machines_of self.new.machines)) }
    {
        match self.lexer.group_ahead() {
            Some(Group::Rectangle) => self.execute_rectangle(known, measure),
            Some(Group::UnitPosition) => self.execute_move(known, measure),
            Some(Group::Position) => self.execute_position(known, measure),
            _ => None,
        }
    }

    /// Executes the command of rectangles (`*c`) that stands next with a short number, so.
    // One for each group: what has one caller alone is inlined there, however large it is, and then
    // the group is known.
    #[inline(always)]
    fn execute_rectangle(
        &mut self,
        known: &mut Option<FormBounds>,
        measure: &mut Option<TextMeasure<'p, P>>,
    ) -> Option<bool>
        requires one { (job : List ℕ) → HasOneReading job }
        requires watched { (printer : Printer) (reading : Reading) →
            IsWatchedAlike printer reading }
        requires may { MayExecute self.old }
        requires knows { Knows known.old measure.old (machines_of self.old.machines) }
        ensures executed { IfSome result
            (λ is_open. ExecutesOne self.old self.new known.new measure.new is_open) }
        ensures none { IfNone result (self.new ≡ self.old) }
        ensures knows { IfNone result
            (Knows known.new measure.new (machines_of self.new.machines)) }
    {
        let Some(read) = self.lexer.next_short(Group::Rectangle) else {
            return None;
        };
        let (state, failing_item) = (&mut self.state, &mut self.failing_item);
        Some(
            self.machines
                .step_known(read, known, measure, state, failing_item),
        )
    }

    /// Executes the move in PCL units (`*p`) that stands next with a short number, so.
    #[inline(always)]
    fn execute_move(
        &mut self,
        known: &mut Option<FormBounds>,
        measure: &mut Option<TextMeasure<'p, P>>,
    ) -> Option<bool>
        requires one { (job : List ℕ) → HasOneReading job }
        requires watched { (printer : Printer) (reading : Reading) →
            IsWatchedAlike printer reading }
        requires may { MayExecute self.old }
        requires knows { Knows known.old measure.old (machines_of self.old.machines) }
        ensures executed { IfSome result
            (λ is_open. ExecutesOne self.old self.new known.new measure.new is_open) }
        ensures none { IfNone result (self.new ≡ self.old) }
        ensures knows { IfNone result
            (Knows known.new measure.new (machines_of self.new.machines)) }
    {
        let Some(read) = self.lexer.next_short(Group::UnitPosition) else {
            return None;
        };
        let (state, failing_item) = (&mut self.state, &mut self.failing_item);
        Some(
            self.machines
                .step_known(read, known, measure, state, failing_item),
        )
    }

    /// Executes the move by columns, rows or decipoints (`&a`) that stands next with a short
    /// number, so.
    #[inline(always)]
    fn execute_position(
        &mut self,
        known: &mut Option<FormBounds>,
        measure: &mut Option<TextMeasure<'p, P>>,
    ) -> Option<bool>
        requires one { (job : List ℕ) → HasOneReading job }
        requires watched { (printer : Printer) (reading : Reading) →
            IsWatchedAlike printer reading }
        requires may { MayExecute self.old }
        requires knows { Knows known.old measure.old (machines_of self.old.machines) }
        ensures executed { IfSome result
            (λ is_open. ExecutesOne self.old self.new known.new measure.new is_open) }
        ensures none { IfNone result (self.new ≡ self.old) }
        ensures knows { IfNone result
            (Knows known.new measure.new (machines_of self.new.machines)) }
    {
        let Some(read) = self.lexer.next_short(Group::Position) else {
            return None;
        };
        let (state, failing_item) = (&mut self.state, &mut self.failing_item);
        Some(
            self.machines
                .step_known(read, known, measure, state, failing_item),
        )
    }

    /// Executes any other escape sequence that stands next, so.
    #[inline(always)]
    fn execute_escape(
        &mut self,
        known: &mut Option<FormBounds>,
        measure: &mut Option<TextMeasure<'p, P>>,
    ) -> Option<bool>
        requires one { (job : List ℕ) → HasOneReading job }
        requires watched { (printer : Printer) (reading : Reading) →
            IsWatchedAlike printer reading }
        requires may { MayExecute self.old }
        requires knows { Knows known.old measure.old (machines_of self.old.machines) }
        ensures executed { IfSome result
            (λ is_open. ExecutesOne self.old self.new known.new measure.new is_open) }
        ensures none { IfNone result (self.new ≡ self.old) }
        ensures knows { IfNone result
            (Knows known.new measure.new (machines_of self.new.machines)) }
    {
        let Some(read) = self.lexer.next_escape() else {
            return None;
        };
        let (state, failing_item) = (&mut self.state, &mut self.failing_item);
        Some(
            self.machines
                .step_known(read, known, measure, state, failing_item),
        )
    }

    /// Executes the end of a line that stands next, which is not known to go, and keeps nothing.
    #[inline(always)]
    fn execute_line_end(
        &mut self,
        known: &mut Option<FormBounds>,
        measure: &mut Option<TextMeasure<'p, P>>,
    ) -> Option<bool>
        requires one { (job : List ℕ) → HasOneReading job }
        requires watched { (printer : Printer) (reading : Reading) →
            IsWatchedAlike printer reading }
        requires may { MayExecute self.old }
        ensures executed { IfSome result
            (λ is_open. ExecutesOne self.old self.new known.new measure.new is_open) }
        ensures none { IfNone result (self.new ≡ self.old) }
    {
        let Some(read) = self.lexer.next_line_end() else {
            return None;
        };
        forget_bounds(known);
        forget_measure(measure);
        let (state, failing_item) = (&mut self.state, &mut self.failing_item);
        Some(self.machines.step_line_end(read, state, failing_item))
    }
}

/// Executes the lines of text that stand next, as far as they are known to go on all machines with
/// the same marks, and tells whether any was.
#[inline(always)]
fn execute_text<'p, A: Allocator + Copy, P: Allocator>(
    lexer: &mut Lexer<A>,
    machines: &mut Lockstep<'p, A, P>,
    known: &Option<FormBounds>,
    measure: &mut Option<TextMeasure<'p, P>>,
) -> bool
    requires running { AreRunning (machines_of machines.old) }
    requires modes { AreIn (mode_of lexer.old.context) (machines_of machines.old) }
    requires known { IfSome known.now (λ bounds. FirstForms bounds (machines_of machines.old)) }
    requires measured { IfSome measure.old (λ m. FirstMeasures m (machines_of machines.old)) }
    ensures running { AreRunning (machines_of machines.new) }
    ensures modes { AreIn (mode_of lexer.new.context) (machines_of machines.new) }
    ensures executed { (fleet : List Printer) (bytes : List ℕ) →
        HasExecuted fleet bytes lexer.old (machines_of machines.old) (counts_of machines.old) →
        HasExecuted fleet bytes lexer.new (machines_of machines.new) (counts_of machines.new) }
    ensures ended { lexer.new.ended ≡ lexer.old.ended }
    ensures place { lexer.new.place + length lexer.new.rest ≡
        lexer.old.place + length lexer.old.rest }
    ensures no_more { left lexer.new.context lexer.new.rest ≤
        left lexer.old.context lexer.old.rest }
    ensures less { IsTrue result → left lexer.new.context lexer.new.rest <
        left lexer.old.context lexer.old.rest }
    ensures known { IfSome known.now (λ bounds. FirstForms bounds (machines_of machines.new)) }
    ensures measured { IfSome measure.new (λ m. FirstMeasures m (machines_of machines.new)) }
{
    let passed = execute_ahead(machines, lexer.ahead(), known, measure);
    if passed == 0 {
        return false;
    }
    lexer.pass_lines(passed);
    true
}

/// Executes the first bytes as lines of text, by what is known of the page and of text.
#[inline(always)]
fn execute_ahead<'p, A: Allocator + Copy, P: Allocator>(
    machines: &mut Lockstep<'p, A, P>,
    bytes: &[u8],
    known: &Option<FormBounds>,
    measure: &mut Option<TextMeasure<'p, P>>,
) -> usize
    requires running { AreRunning (machines_of machines.old) }
    requires known { IfSome known.now (λ bounds. FirstForms bounds (machines_of machines.old)) }
    requires measured { IfSome measure.old (λ m. FirstMeasures m (machines_of machines.old)) }
    ensures short { result ≤ length bytes.now }
    ensures lines { AreLines (take result bytes.now) }
    ensures step { PrintInStep (take result bytes.now) (machines_of machines.old)
        (machines_of machines.new) (counts_of machines.old) (counts_of machines.new) }
    ensures known { IfSome known.now (λ bounds. FirstForms bounds (machines_of machines.new)) }
    ensures measured { IfSome measure.new (λ m. FirstMeasures m (machines_of machines.new)) }
{
    match known {
        Some(_) => machines.execute_on_page(bytes, measure),
        None => {
            forget_measure(measure);
            machines.execute_text(bytes)
        }
    }
}
