//! A check under way.

ghost use Rattle.std.specs.Prelude.{◌≡◌, ℕ, List, length, None};
ghost use Rattle.device_profile.specs.Printer.{Printer};
ghost use Rattle.preflight.specs.Carriers.Lockstep.{machines_of, counts_of};
ghost use Rattle.preflight.specs.Judgement.{IsJudgementOn};
ghost use Rattle.preflight.specs.CheckState.{Ends};
ghost use Rattle.preflight.specs.Where.{page_with};

use crate::check_state::CheckState;
use crate::laws::fails_say;
use crate::lockstep::Lockstep;
use judgement::FailingItem;
use page_machine::{
    ended_pages_are_whole, marks_are_inside, peaks_are_within, watched_is_plain,
    watched_runs_are_alike,
};
use pcl_items::{DataCommand, Item};
use pcl_lexer::{Lexed, Lexer, one_reading};
use std::alloc::Allocator;
use verdict::{Failure, Verdict};

/// What a check carries from one item to the next.
///
/// What executes items tells whether the check is still open. Where it is not, the item that the
/// job fails at is the failing item.
#[derive(Drop)]
pub struct Checking<'p, A: Allocator + Copy, P: Allocator> {
    pub lexer: Lexer<A>,
    pub machines: Lockstep<'p, A, P>,
    pub state: CheckState,
    pub failing_item: Option<FailingItem>,
}

impl<A: Allocator + Copy, P: Allocator> Checking<'_, A, P> {
    ghost use Rattle.preflight.specs.Carriers.Checking.{HasExecuted};
    ghost use Rattle.preflight.specs.Carriers.Loops.{ExecutesDecided, MayExecute};

    /// Executes the items that the bytes fed so far decide, and tells whether the check is still
    /// open.
    pub fn execute_decided(&mut self) -> bool
        requires may { MayExecute self.old }
        requires untold { self.old.failing_item ≡ None }
        ensures { ExecutesDecided self.old self.new result }
    {
        one_reading();
        watched_runs_are_alike();
        // Most jobs are made of commands, lines of text and pairs of coordinates. They have loops
        // of their own, so that what executes an item knows its kind.
        let mut is_open = true;
        while is_open {
            if !self.execute_pcl() {
                return false;
            }
            is_open = if let Some(read) = self.lexer.next_pair() {
                let item = Item::Simple(read.item);
                let (state, failing_item) = (&mut self.state, &mut self.failing_item);
                // Behind a pair mostly stands the next one.
                self.machines.step(read.place, &item, state, failing_item) && self.execute_plot()
            } else {
                match self.lexer.next_other() {
                    Ok(Lexed::Item(place, item)) => {
                        let (state, failing_item) = (&mut self.state, &mut self.failing_item);
                        if !self.machines.step_other(place, &item, state, failing_item) {
                            false
                        } else if is_row(&item) {
                            // Behind a row mostly stands the next one.
                            self.execute_rows()
                        } else {
                            true
                        }
                    }
                    Ok(Lexed::NeedMore) => return true,
                    Ok(Lexed::End) => return true,
                    Err(fault) => return self.state.fail(Failure::of_fault(fault)),
                }
            };
        }
        false
    }

    /// Comes to the verdict on the bytes that were fed, `total` in number, where none follows,
    /// unless memory is refused.
    pub fn finish(&mut self, total: u64)
        requires may { MayExecute self.old }
        requires untold { self.old.failing_item ≡ None }
        ensures { Ends self.new.state (λ verdict. (fleet : List Printer) (bytes : List ℕ) →
            HasExecuted fleet bytes self.old.lexer (machines_of self.old.machines)
            (counts_of self.old.machines) → total ≡ length bytes →
            IsJudgementOn fleet bytes verdict self.new.failing_item
            (page_with verdict (counts_of self.new.machines)) (machines_of self.new.machines)) }
    {
        watched_runs_are_alike();
        watched_is_plain();
        marks_are_inside();
        ended_pages_are_whole();
        peaks_are_within();
        fails_say();
        self.lexer.end_input();
        if !self.execute_decided() {
            return;
        }
        if !self.machines.finish(total, &mut self.state) {
            return;
        }
        let counts = self.machines.counts();
        self.state = CheckState::Judged(Verdict::Pass {
            pages: counts.pages,
            marks: counts.marks,
        });
    }
}

/// Whether an item is a row of a raster.
fn is_row(item: &Item<'_>) -> bool {
    matches!(item, Item::WithData(DataCommand::RasterRow, _))
}
