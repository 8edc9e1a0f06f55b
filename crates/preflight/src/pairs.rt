//! Commands of the pen and their pairs of coordinates, one behind another.

ghost use Rattle.std.specs.Prelude.{◌≡◌, true, IfNone, IfSome};
ghost use Rattle.pcl_items.specs.declared.frame.Motion.TheVariants.{Down};
ghost use Rattle.pcl_lexer.specs.declared.frame.Gap.TheVariants.{Straight};
ghost use Rattle.pcl_lexer.specs.Lexing.Contexts.{Numbered, Even};
ghost use Rattle.preflight.specs.Carriers.Lockstep.{machines_of};
ghost use Rattle.preflight.specs.Carriers.Loops.{ExecutesOn, MayExecute};
ghost use Rattle.preflight.specs.Carriers.PairsInStep.{FirstDraws};

use crate::checking::Checking;
use page_env::PenBounds;
use page_machine::watched_runs_are_alike;
use pcl_items::Item;
use pcl_lexer::one_reading;
use std::alloc::Allocator;

impl<A: Allocator + Copy, P: Allocator> Checking<'_, A, P> {
    /// Executes what of a plot stands next behind a pair of coordinates: further pairs, and
    /// commands that move the pen, with coordinates and without, as many as are known to; and tells
    /// whether the check is still open.
    // A call of its own: a plot is mostly these, and what executes them keeps nothing else.
    #[inline(never)]
    pub fn execute_plot(&mut self) -> bool
        requires { MayExecute self.old }
        ensures { ExecutesOn self.old self.new result }
    {
        one_reading();
        watched_runs_are_alike();
        loop {
            if !self.execute_in_box() {
                return false;
            }
            let Some(read) = self.lexer.next_pen_move() else {
                return true;
            };
            let item = Item::Simple(read.item);
            let (state, failing_item) = (&mut self.state, &mut self.failing_item);
            if !self
                .machines
                .step_other(read.place, &item, state, failing_item)
            {
                return false;
            }
        }
    }

    /// Executes the commands that move the pen and the pairs of coordinates that stand next, where
    /// it is known in which box the pen draws, up to the first that is not known to lead within it,
    /// which goes as any other item; and tells whether the check is still open.
    // A call of its own: a plot is mostly these, and what executes them keeps nothing else.
    #[inline(never)]
    fn execute_in_box(&mut self) -> bool
        requires { MayExecute self.old }
        ensures { ExecutesOn self.old self.new result }
    {
        one_reading();
        watched_runs_are_alike();
        let Some(bounds) = self.machines.pen_bounds() else {
            return true;
        };
        loop {
            if let Some(is_open) = self.execute_further(&bounds) {
                return is_open;
            }
            let Some(read) = self.lexer.next_pen_move() else {
                return true;
            };
            if !self.machines.draw_pair(&bounds, read.item) {
                let item = Item::Simple(read.item);
                let (state, failing_item) = (&mut self.state, &mut self.failing_item);
                return self
                    .machines
                    .step_other(read.place, &item, state, failing_item);
            }
        }
    }

    /// Executes the further pairs of a command that lowers the pen that stand next, in this box.
    /// The first that is not known to lead within it goes as any other item; then this tells
    /// whether the check is still open, and nothing of the box.
    #[inline(always)]
    fn execute_further(&mut self, bounds: &PenBounds) -> Option<bool>
        requires may { MayExecute self.old }
        requires draws { FirstDraws bounds.now (machines_of self.old.machines) }
        ensures left { IfSome result (λ is_open. ExecutesOn self.old self.new is_open) }
        ensures stays { IfNone result (ExecutesOn self.old self.new true
            × FirstDraws bounds.now (machines_of self.new.machines)) }
    {
        if !self.lexer.goes_on_down() {
            return None;
        }
        self.execute_down(bounds)
    }

    /// Does so behind whole pairs of such a command.
    // A call of its own: a plot is mostly these, and what executes them keeps nothing else.
    #[inline(never)]
    fn execute_down(&mut self, bounds: &PenBounds) -> Option<bool>
        requires may { MayExecute self.old }
        requires draws { FirstDraws bounds.now (machines_of self.old.machines) }
        requires down { self.old.lexer.context ≡ Numbered (Even Down) Straight 0 }
        ensures left { IfSome result (λ is_open. ExecutesOn self.old self.new is_open) }
        ensures stays { IfNone result (ExecutesOn self.old self.new true
            × FirstDraws bounds.now (machines_of self.new.machines)) }
    {
        one_reading();
        watched_runs_are_alike();
        loop {
            let Some(read) = self.lexer.next_further() else {
                return None;
            };
            if !self.machines.draw_pair(bounds, read.item) {
                let item = Item::Simple(read.item);
                let (state, failing_item) = (&mut self.state, &mut self.failing_item);
                return Some(
                    self.machines
                        .step_other(read.place, &item, state, failing_item),
                );
            }
        }
    }
}
