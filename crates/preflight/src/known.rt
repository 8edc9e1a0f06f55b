//! What the machines of a fleet execute by what is known of the first one: moves, rectangles and
//! lines of text on a page that is looked up once.

ghost use Rattle.std.specs.Prelude.{◌≡◌, ◌≤◌, List, length, map, take, None, IfSome, IsFalse};
ghost use Rattle.std.specs.Prelude.{IsTrue};
ghost use Rattle.page_env.specs.declared.lookup.FormBounds.{FormBounds};
ghost use Rattle.page_env.specs.Mark.{Shape};
ghost use Rattle.page_machine.specs.Event.{Marked};
ghost use Rattle.pcl_items.specs.Items.{Entry, Parameterized, amount, simple_view};
ghost use Rattle.pcl_items.specs.Lines.{AreLines};
ghost use Rattle.sinks.specs.Counts.{counts_after};
ghost use Rattle.preflight.specs.Carriers.FormsInStep.{FirstForms, FirstKeeps, FirstMeasures};
ghost use Rattle.preflight.specs.Carriers.Lockstep.{machines_of, counts_of, Execute, AreRunning};
ghost use Rattle.preflight.specs.Carriers.Lockstep.{AllAdmit, GoesAlike, GoesInStep};
ghost use Rattle.preflight.specs.Carriers.TextInStep.{PrintInStep};
ghost use Rattle.judgement.specs.FailingItem.{Names};
ghost use Rattle.preflight.specs.CheckState.{StandsBy, is_open};
ghost use Rattle.preflight.specs.declared.check_state.CheckState.TheVariants.{Open};

use crate::check_state::CheckState;
use crate::fleet_mode::FleetMode;
use crate::lockstep::Lockstep;
use judgement::FailingItem;
use page_env::{FormBounds, TextMeasure, is_of_forms, items_go_on_like_printers};
use page_machine::items_run_on_like_printers;
use pcl_items::{Command, Number, SimpleItem};
use pcl_lexer::PlacedItem;
use sinks::Counts;
use std::alloc::Allocator;

impl<'p, A: Allocator + Copy, P: Allocator> Lockstep<'p, A, P> {
    /// Has each machine execute a command as `step_read` does, by what is known of the page, where
    /// it is. That is kept while the commands leave it, and so is what text takes.
    #[inline(always)]
    pub fn step_known(
        &mut self,
        read: PlacedItem,
        known: &mut Option<FormBounds>,
        measure: &mut Option<TextMeasure<'p, P>>,
        state: &mut CheckState,
        failing_item: &mut Option<FailingItem>,
    ) -> bool
        requires running { AreRunning (machines_of self.old) }
        requires admitted { AllAdmit (Execute (simple_view read.item)) (machines_of self.old) }
        requires open { state.old ≡ Open }
        requires known { IfSome known.old (λ bounds. FirstForms bounds (machines_of self.old)) }
        requires measured { IfSome measure.old (λ m. FirstMeasures m (machines_of self.old)) }
        ensures came { StandsBy state.new
            (λ failed. GoesInStep (Execute (simple_view read.item)) read.place
            (machines_of self.old) (machines_of self.new)
            (counts_of self.old) (counts_of self.new) failed) }
        ensures open { result ≡ is_open state.new }
        ensures told { IsFalse result → Names failing_item.new (simple_view read.item) }
        ensures untold { IsTrue result → failing_item.new ≡ failing_item.old }
        ensures known { IsTrue result →
            IfSome known.new (λ bounds. FirstForms bounds (machines_of self.new)) }
        ensures measured { IsTrue result →
            IfSome measure.new (λ m. FirstMeasures m (machines_of self.new)) }
    {
        if self.form(read.item, known) {
            return true;
        }
        self.step_copied(read, known, measure, state, failing_item)
    }

    /// Has each machine execute a command as `step_read` does, and keeps nothing of the page.
    // What a call reads lies in memory: it gets a copy, and a command that is known to go stays in
    // registers. The copy has a function of its own, so that no room is cleared for it before.
    #[inline(always)]
    fn step_copied(
        &mut self,
        read: PlacedItem,
        known: &mut Option<FormBounds>,
        measure: &mut Option<TextMeasure<'p, P>>,
        state: &mut CheckState,
        failing_item: &mut Option<FailingItem>,
    ) -> bool
        requires running { AreRunning (machines_of self.old) }
        requires admitted { AllAdmit (Execute (simple_view read.item)) (machines_of self.old) }
        requires open { state.old ≡ Open }
        ensures came { StandsBy state.new
            (λ failed. GoesInStep (Execute (simple_view read.item)) read.place
            (machines_of self.old) (machines_of self.new)
            (counts_of self.old) (counts_of self.new) failed) }
        ensures open { result ≡ is_open state.new }
        ensures told { IsFalse result → Names failing_item.new (simple_view read.item) }
        ensures untold { IsTrue result → failing_item.new ≡ failing_item.old }
        ensures no_bounds { known.new ≡ None }
        ensures no_measure { measure.new ≡ None }
    {
        let PlacedItem { place, item } = read;
        let read = PlacedItem { place, item };
        self.step_unknown(read, known, measure, state, failing_item)
    }

    /// Has each machine execute a command as `step_read` does, and keeps nothing of the page.
    // A call of its own: most commands are known to go, and what executes them is to stay small.
    #[inline(never)]
    fn step_unknown(
        &mut self,
        read: PlacedItem,
        known: &mut Option<FormBounds>,
        measure: &mut Option<TextMeasure<'p, P>>,
        state: &mut CheckState,
        failing_item: &mut Option<FailingItem>,
    ) -> bool
        requires running { AreRunning (machines_of self.old) }
        requires admitted { AllAdmit (Execute (simple_view read.item)) (machines_of self.old) }
        requires open { state.old ≡ Open }
        ensures came { StandsBy state.new
            (λ failed. GoesInStep (Execute (simple_view read.item)) read.place
            (machines_of self.old) (machines_of self.new)
            (counts_of self.old) (counts_of self.new) failed) }
        ensures open { result ≡ is_open state.new }
        ensures told { IsFalse result → Names failing_item.new (simple_view read.item) }
        ensures untold { IsTrue result → failing_item.new ≡ failing_item.old }
        ensures no_bounds { known.new ≡ None }
        ensures no_measure { measure.new ≡ None }
    {
        forget_bounds(known);
        forget_measure(measure);
        self.step_read(read, state, failing_item)
    }

    /// Has the machines execute a command that moves the cursor or makes a rectangle, or a half
    /// line feed, where it is known that it goes on all of them, and tells whether it was executed.
    #[inline(always)]
    fn form(&mut self, item: SimpleItem, known: &mut Option<FormBounds>) -> bool
        requires running { AreRunning (machines_of self.old) }
        requires known { IfSome known.old (λ bounds. FirstForms bounds (machines_of self.old)) }
        ensures formed { IsTrue result → GoesAlike (Execute (simple_view item))
            (machines_of self.old) (machines_of self.new)
            (counts_of self.old) (counts_of self.new) }
        ensures known { IsTrue result →
            IfSome known.new (λ bounds. FirstForms bounds (machines_of self.new)) }
        ensures kept { IsTrue result → FirstKeeps (machines_of self.old) (machines_of self.new) }
        ensures same { IsFalse result → self.new ≡ self.old }
    {
        match item {
            SimpleItem::Parameterized(command, n) => self.form_command(command, n, known),
            SimpleItem::HalfLineFeed => self.feed_half_line(known),
            _ => false,
        }
    }

    /// Has the machines execute such a command, and looks the page up for it where it is not known.
    #[inline(always)]
    fn form_command(&mut self, command: Command, n: Number, known: &mut Option<FormBounds>) -> bool
        requires running { AreRunning (machines_of self.old) }
        requires known { IfSome known.old (λ bounds. FirstForms bounds (machines_of self.old)) }
        ensures formed { IsTrue result → GoesAlike (Execute (Parameterized command (amount n)))
            (machines_of self.old) (machines_of self.new)
            (counts_of self.old) (counts_of self.new) }
        ensures known { IsTrue result →
            IfSome known.new (λ bounds. FirstForms bounds (machines_of self.new)) }
        ensures kept { IsTrue result → FirstKeeps (machines_of self.old) (machines_of self.new) }
        ensures same { IsFalse result → self.new ≡ self.old }
    {
        self.keep_bounds(command, known);
        match &*known {
            None => false,
            Some(lent) => self.form_on(lent, command, n),
        }
    }

    /// Has the machines execute a half line feed, where it is known that it goes on all of them,
    /// and tells whether it was executed.
    #[inline(always)]
    fn feed_half_line(&mut self, known: &Option<FormBounds>) -> bool
        requires running { AreRunning (machines_of self.old) }
        requires known { IfSome known.now (λ bounds. FirstForms bounds (machines_of self.old)) }
        ensures fed { IsTrue result → GoesAlike (Execute Entry.HalfLineFeed)
            (machines_of self.old) (machines_of self.new)
            (counts_of self.old) (counts_of self.new) }
        ensures kept { IsTrue result → FirstKeeps (machines_of self.old) (machines_of self.new) }
        ensures same { IsFalse result → self.new ≡ self.old }
    {
        items_run_on_like_printers();
        let (FleetMode::Alone | FleetMode::Together) = self.fleet_mode else {
            return false;
        };
        let Some(bounds) = known else {
            return false;
        };
        if !self.first.feed_half_line_on(bounds) {
            return false;
        }
        true
    }

    /// Keeps what moves and rectangles take from where the machines stand, if this command may be
    /// one of these, that is known and it suffices to move the first.
    #[inline(always)]
    fn keep_bounds(&self, command: Command, known: &mut Option<FormBounds>)
        requires { IfSome known.old (λ bounds. FirstForms bounds (machines_of self.now)) }
        ensures { IfSome known.new (λ bounds. FirstForms bounds (machines_of self.now)) }
    {
        if known.is_some() {
            return;
        }
        if !is_of_forms(command) {
            return;
        }
        self.look_up(known);
    }

    /// Looks it up.
    // A call of its own, so that what is kept lies in memory and goes through no registers.
    #[inline(never)]
    fn look_up(&self, known: &mut Option<FormBounds>)
        ensures { IfSome known.new (λ bounds. FirstForms bounds (machines_of self.now)) }
    {
        *known = self.form_bounds();
    }

    /// What moves and rectangles take on the first machine, if that is known and it suffices to
    /// move that one. Nothing is told where an overlay is enabled, since it may part the machines.
    #[inline(always)]
    fn form_bounds(&self) -> Option<FormBounds>
        ensures { IfSome result (λ bounds. FirstForms bounds (machines_of self.now)) }
    {
        if self.first.has_overlay() {
            return None;
        }
        match self.fleet_mode {
            FleetMode::Alone | FleetMode::Together => self.first.form_bounds(),
            FleetMode::Defining | FleetMode::Apart => None,
        }
    }

    /// Has the machines execute such a command, where it suffices to move the first.
    #[inline(always)]
    fn form_on(&mut self, bounds: &FormBounds, command: Command, n: Number) -> bool
        requires running { AreRunning (machines_of self.old) }
        requires known { FirstForms bounds.now (machines_of self.old) }
        ensures formed { IsTrue result → GoesAlike (Execute (Parameterized command (amount n)))
            (machines_of self.old) (machines_of self.new)
            (counts_of self.old) (counts_of self.new) }
        ensures kept { IsTrue result → FirstKeeps (machines_of self.old) (machines_of self.new) }
        ensures same { IsFalse result → self.new ≡ self.old }
    {
        items_run_on_like_printers();
        let (FleetMode::Alone | FleetMode::Together) = self.fleet_mode else {
            return false;
        };
        let Some(marks) = self.first.form_on(bounds, command, n) else {
            return false;
        };
        count_marks(&mut self.counts, marks);
        true
    }

    /// Has each machine execute lines of text as `execute_text` does, where the page is known, and
    /// the ends of lines without text, too. The page stays known, and what text takes from the
    /// settings is kept.
    #[inline]
    pub fn execute_on_page(
        &mut self,
        bytes: &[u8],
        measure: &mut Option<TextMeasure<'p, P>>,
    ) -> usize
        requires running { AreRunning (machines_of self.old) }
        requires measured { IfSome measure.old (λ m. FirstMeasures m (machines_of self.old)) }
        ensures short { result ≤ length bytes.now }
        ensures lines { AreLines (take result bytes.now) }
        ensures step { PrintInStep (take result bytes.now) (machines_of self.old)
            (machines_of self.new) (counts_of self.old) (counts_of self.new) }
        ensures measured { IfSome measure.new (λ m. FirstMeasures m (machines_of self.new)) }
        ensures kept { (bounds : FormBounds) → FirstForms bounds (machines_of self.old) →
            FirstForms bounds (machines_of self.new) }
    {
        match bytes {
            [b' '..=255 | b'\r' | b'\n', ..] => self.execute_begun(bytes, measure),
            _ => 0,
        }
    }

    /// Does so with bytes that begin with text or with the end of a line.
    // A call of its own, so that commands keep their registers.
    #[inline(never)]
    fn execute_begun(&mut self, bytes: &[u8], measure: &mut Option<TextMeasure<'p, P>>) -> usize
        requires running { AreRunning (machines_of self.old) }
        requires measured { IfSome measure.old (λ m. FirstMeasures m (machines_of self.old)) }
        ensures short { result ≤ length bytes.now }
        ensures lines { AreLines (take result bytes.now) }
        ensures step { PrintInStep (take result bytes.now) (machines_of self.old)
            (machines_of self.new) (counts_of self.old) (counts_of self.new) }
        ensures measured { IfSome measure.new (λ m. FirstMeasures m (machines_of self.new)) }
        ensures kept { (bounds : FormBounds) → FirstForms bounds (machines_of self.old) →
            FirstForms bounds (machines_of self.new) }
    {
        self.keep_measure(measure);
        match &*measure {
            None => 0,
            Some(lent) => self.execute_measured(bytes, lent),
        }
    }

    /// Keeps what lines of text take from where the machines stand, if that is known and it
    /// suffices to move the first.
    #[inline(always)]
    fn keep_measure(&self, measure: &mut Option<TextMeasure<'p, P>>)
        requires { IfSome measure.old (λ m. FirstMeasures m (machines_of self.now)) }
        ensures { IfSome measure.new (λ m. FirstMeasures m (machines_of self.now)) }
    {
        if measure.is_some() {
            return;
        }
        self.look_up_measure(measure);
    }

    /// Looks it up.
    // A call of its own, so that lines clear no room for what it puts together.
    #[inline(never)]
    fn look_up_measure(&self, measure: &mut Option<TextMeasure<'p, P>>)
        ensures { IfSome measure.new (λ m. FirstMeasures m (machines_of self.now)) }
    {
        *measure = self.line_measure();
    }

    /// What lines of text take from where the machines stand, if that is known and it suffices to
    /// move the first.
    #[inline(always)]
    fn line_measure(&self) -> Option<TextMeasure<'p, P>>
        ensures { IfSome result (λ m. FirstMeasures m (machines_of self.now)) }
    {
        match self.fleet_mode {
            FleetMode::Alone | FleetMode::Together => self.first.line_measure(),
            FleetMode::Defining | FleetMode::Apart => None,
        }
    }

    /// Has the machines execute such bytes by a measure of the first one.
    #[inline(always)]
    fn execute_measured(&mut self, bytes: &[u8], measure: &TextMeasure<'_, P>) -> usize
        requires running { AreRunning (machines_of self.old) }
        requires measured { FirstMeasures measure.now (machines_of self.old) }
        ensures short { result ≤ length bytes.now }
        ensures lines { AreLines (take result bytes.now) }
        ensures step { PrintInStep (take result bytes.now) (machines_of self.old)
            (machines_of self.new) (counts_of self.old) (counts_of self.new) }
        ensures kept { FirstKeeps (machines_of self.old) (machines_of self.new) }
    {
        items_go_on_like_printers();
        let (FleetMode::Alone | FleetMode::Together) = self.fleet_mode else {
            return 0;
        };
        let Some(from) = self.first.text_place() else {
            return 0;
        };
        let lines = measure.lines_ahead(from, bytes);
        self.first.pass_lines(&lines);
        self.counts.add_marks(lines.glyphs);
        lines.count
    }
}

/// Counts so many marks.
// Moves and the sizes of rectangles make none, and then nothing is written.
#[inline(always)]
fn count_marks(counts: &mut Counts, marks: u64)
    ensures { (shapes : List Shape) → length shapes ≡ marks →
        counts.new ≡ counts_after (map Marked shapes) counts.old }
{
    if marks == 0 {
        return;
    }
    counts.add_marks(marks);
}

// Where nothing is kept, as mostly, these two write nothing.

/// Keeps nothing of what moves and rectangles take.
#[inline(always)]
pub fn forget_bounds(known: &mut Option<FormBounds>)
    ensures { known.new ≡ None }
{
    if known.is_none() {
        return;
    }
    *known = None;
}

/// Keeps nothing of what lines of text take.
#[inline(always)]
pub fn forget_measure<P: Allocator>(measure: &mut Option<TextMeasure<'_, P>>)
    ensures { measure.new ≡ None }
{
    if measure.is_none() {
        return;
    }
    *measure = None;
}
