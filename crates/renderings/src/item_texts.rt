//! Renders each item by itself.
ghost use Rattle.std.specs.Prelude.{◌≡◌, ◌++◌, ℕ, List, OnOk, refl};
ghost use Rattle.pcl_items.specs.Items.{Placed, at, view};
ghost use Rattle.renderings.specs.Carriers.Rests.{faults_matter};
ghost use Rattle.renderings.specs.Expected.{item_by_item};

use crate::outcome::Outcome;
use crate::render::Renderer;
use pcl_items::{Item, LexFault, Place};
use std::alloc::{AllocError, Allocator};
use streams::{Error, Outlet, write_enough};

/// What stands for each item, whatever stands before it.
pub trait ItemText {
    // The text of an item.
    ghost text: { Placed → List ℕ };

    /// Appends the text of an item.
    fn push<A: Allocator>(
        &mut self,
        kept: &mut Vec<u8, A>,
        place: Place,
        item: &Item<'_>,
    ) -> Result<(), AllocError>
        ensures { OnOk result (kept.new.items ≡
            kept.old.items ++ text (at place (view item.now))) };
}

/// Writes the text of each item, and nothing behind the last.
#[derive(Drop)]
pub struct ItemByItem<T: ItemText>(pub T);

impl<T: ItemText> Renderer for ItemByItem<T> {
    ghost rendering = { λ _. item_by_item T.text };

    ghost is_in = { λ _ _. Unit {0} };

    #[inline(always)]
    fn item<W: Outlet, A: Allocator>(
        &mut self,
        outlet: &mut W,
        kept: &mut Vec<u8, A>,
        place: Place,
        item: &Item<'_>,
    ) -> Result<Option<Outcome>, Error> {
        self.0.push(kept, place, item)?;
        write_enough(outlet, kept)?;
        Ok(None)
    }

    fn end<W: Outlet, A: Allocator>(
        &mut self,
        _outlet: &mut W,
        _kept: &mut Vec<u8, A>,
        _place: Place,
    ) -> Result<Outcome, Error> {
        Ok(Outcome::Done)
    }

    fn fault<W: Outlet, A: Allocator>(
        &mut self,
        _outlet: &mut W,
        _kept: &mut Vec<u8, A>,
        fault: LexFault,
    ) -> Result<Outcome, Error> {
        Ok(Outcome::of_fault(fault))
    }

    ghost adds_at_fault = { λ _ place cause. refl };

    ghost rest_matters = { λ _ over. faults_matter (item_by_item T.text) (λ place. refl) over };
}
