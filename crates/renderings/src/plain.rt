//! The items of a job in their canonical spelling.
ghost use Rattle.std.specs.Prelude.{IsFalse};
ghost use Rattle.pcl_items.specs.Spellings.Canon.{canon};
ghost use Rattle.renderings.specs.Expected.{Renders, plain_rendering};

use crate::item_texts::{ItemByItem, ItemText};
use crate::outcome::Outcome;
use crate::render::render_job;
use pcl_items::{Item, Place};
use pcl_spelling::spell;
use std::alloc::{AllocError, Allocator};
use streams::{Error, Outlet, Source};

/// Writes each item in its canonical spelling.
#[derive(Clone, Copy)]
struct Plain;

impl ItemText for Plain {
    ghost text = { λ x. canon x.item };

    fn push<A: Allocator>(
        &mut self,
        kept: &mut Vec<u8, A>,
        _place: Place,
        item: &Item<'_>,
    ) -> Result<(), AllocError> {
        spell(item, kept)
    }
}

/// Writes the items of a job, each in its canonical spelling, up to its end or up to a fault of its
/// bytes.
///
/// What an item comes to on a page is not looked at. After an error a front of the text is written:
/// `Memory` where the allocator refused a request, `Read` and `Write` where a read or a write
/// failed, `Turns` after 2^40 reads without an end.
pub fn plain_job<S: Source, W: Outlet, A: Allocator + Copy>(
    alloc: A,
    reader: &mut S,
    writer: &mut W,
) -> Result<Outcome, Error>
    requires reading { IsFalse (S.state reader.old).failed }
    requires writing { IsFalse (W.state writer.old).failed }
    ensures { Renders plain_rendering (S.state reader.old) (S.state reader.new)
        (W.state writer.old) (W.state writer.new) result }
{
    render_job(alloc, reader, &mut ItemByItem(Plain), writer)
}
