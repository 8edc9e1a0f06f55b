//! Items that a machine carries out.

use page_machine::{Machine, MarkSink, Stop};
use pcl_items::{Item, OwnedItem, Place};
use std::alloc::Allocator;
use std::test::Fail;

/// What comes of items: a machine stops at the first that does not go.
pub type Outcome<F> = Result<(), Stop<F>>;

/// Carries out an item, which the mode of the items before it has to admit.
fn step<P: Allocator, A: Allocator + Copy, S: MarkSink>(
    machine: &mut Machine<'_, P, A>,
    place: Place,
    item: &Item<'_>,
    sink: &mut S,
) -> Result<Outcome<S::Fault>, Fail> {
    if item.follows(machine.mode()).is_none() {
        return Err(Fail::new(format_args!("no item of the mode at {place}")));
    }
    Ok(machine.step(item, sink))
}

/// Carries out items up to the first that does not go.
pub fn step_all<P: Allocator, A: Allocator + Copy, S: MarkSink>(
    machine: &mut Machine<'_, P, A>,
    items: &[(Place, OwnedItem)],
    sink: &mut S,
) -> Result<Outcome<S::Fault>, Fail> {
    for (place, item) in items {
        if let Err(stop) = step(machine, *place, &item.as_item(), sink)? {
            return Ok(Err(stop));
        }
    }
    Ok(Ok(()))
}
