//! The list of a job's items.
ghost use Rattle.std.specs.Prelude.{IsFalse, refl};
ghost use Rattle.renderings.specs.Carriers.Rests.{faults_matter};
ghost use Rattle.renderings.specs.Expected.{Renders, list_rendering};

use crate::outcome::Outcome;
use crate::render::{Renderer, render_job};
use line_words::{push_fault, push_item};
use pcl_items::{Item, LexFault, Place};
use std::alloc::Allocator;
use streams::{Error, Outlet, Source, write_enough};

/// Writes a line for each item.
#[derive(Drop)]
pub struct Listing<B: Allocator> {
    /// Room for the spelling of an item, so that it is not asked for at each.
    spelling: Vec<u8, B>,
}

impl<B: Allocator> Listing<B> {
    /// Of which nothing is written yet.
    pub fn new(alloc: B) -> Listing<B> {
        Listing {
            spelling: Vec::new(alloc),
        }
    }
}

impl<B: Allocator> Renderer for Listing<B> {
    ghost rendering = { λ _. list_rendering };

    ghost is_in = { λ _ _. Unit {0} };

    #[inline(always)]
    fn item<W: Outlet, A: Allocator>(
        &mut self,
        outlet: &mut W,
        kept: &mut Vec<u8, A>,
        place: Place,
        item: &Item<'_>,
    ) -> Result<Option<Outcome>, Error> {
        push_item(kept, &mut self.spelling, place, item)?;
        write_enough(outlet, kept)?;
        Ok(None)
    }

    fn end<W: Outlet, A: Allocator>(
        &mut self,
        _outlet: &mut W,
        _kept: &mut Vec<u8, A>,
        _place: Place,
    ) -> Result<Outcome, Error> {
        Ok(Outcome::Done)
    }

    fn fault<W: Outlet, A: Allocator>(
        &mut self,
        _outlet: &mut W,
        kept: &mut Vec<u8, A>,
        fault: LexFault,
    ) -> Result<Outcome, Error> {
        push_fault(kept, fault)?;
        Ok(Outcome::of_fault(fault))
    }

    ghost adds_at_fault = { λ _ place cause. refl };

    ghost rest_matters = { λ _ over. faults_matter list_rendering (λ place. refl) over };
}

/// Writes a line for each item of a job, its place and its spelling, and for a fault of its bytes a
/// last one.
///
/// It is the library's surface for other programs; `pclcheck` has `render` write a `Listing`. What
/// an item comes to on a page is not looked at. After an error a front of the text is written:
/// `Memory` where the allocator refused a request, `Read` and `Write` where a read or a write
/// failed, `Turns` after 2^40 reads without an end.
pub fn list_job<S: Source, W: Outlet, A: Allocator + Copy>(
    alloc: A,
    reader: &mut S,
    writer: &mut W,
) -> Result<Outcome, Error>
    requires reading { IsFalse (S.state reader.old).failed }
    requires writing { IsFalse (W.state writer.old).failed }
    ensures { Renders list_rendering (S.state reader.old) (S.state reader.new)
        (W.state writer.old) (W.state writer.new) result }
{
    let mut listing = Listing::new(alloc);
    render_job(alloc, reader, &mut listing, writer)
}
