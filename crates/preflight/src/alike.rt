//! Whether an item leaves the machines of a fleet standing alike.

ghost use Rattle.std.specs.Prelude.{◌≡◌, List, IsTrue, None, false, true};
ghost use Rattle.pcl_items.specs.Escapes.Value.{Amount};
ghost use Rattle.pcl_items.specs.Items.{Parameterized, view};
ghost use Rattle.device_profile.specs.Printer.{Printer};
ghost use Rattle.page_env.specs.JobControl.{is_reset};
ghost use Rattle.page_env.specs.Likeness.{asks_alike};
ghost use Rattle.page_machine.specs.Defining.{is_defining};
ghost use Rattle.page_machine.specs.Likeness.{LeavesStore};
ghost use Rattle.page_machine.specs.MachineState.{MachineState};
ghost use Rattle.preflight.specs.Carriers.FleetMode.{AskAlike, AsksAlike, GoesAsOne};
ghost use Rattle.preflight.specs.Carriers.FleetMode.{ShareMacro, StayAlike, joined_as};
ghost use Rattle.preflight.specs.Carriers.Lockstep.{Execute, action_of};
ghost use Rattle.preflight.specs.declared.fleet_mode.FleetMode.TheVariants.{Together};

use crate::fleet_mode::FleetMode;
use crate::task::Task;
use macro_store::Body;
use page_env::{asks_alike, asks_device, command_asks_device};
use page_machine::{Machine, keeps_stores, plain_macros_run_alike};
use pcl_items::{Command, Item, SimpleItem};
use std::alloc::Allocator;

/// Whether an item does the same on machines that stand together.
#[inline(always)]
pub(crate) fn goes_alike<A: Allocator + Copy, P: Allocator>(
    first: &Machine<'_, P, A>,
    others: &[Machine<'_, P, A>],
    item: &Item<'_>,
) -> bool
    ensures { IsTrue result → GoesAsOne Together first.now others.now (view item.now) }
{
    if asks_nothing(first, item) {
        return true;
    }
    all_do_as(first, others, item)
}

/// Whether a command of any value does the same on machines that stand together.
#[inline(always)]
pub(crate) fn command_goes_alike<A: Allocator + Copy, P: Allocator>(
    first: &Machine<'_, P, A>,
    command: Command,
) -> bool
    ensures { IsTrue result → (n : Amount) (others : List MachineState) →
        GoesAsOne Together first.now others (Parameterized command n) }
{
    if first.has_overlay() {
        return false;
    }
    !command_asks_device(command)
}

/// Whether no overlay is enabled, and an item asks nothing of the device and deletes no macro.
#[inline(always)]
fn asks_nothing<A: Allocator + Copy, P: Allocator>(
    first: &Machine<'_, P, A>,
    item: &Item<'_>,
) -> bool
    ensures no_overlay { IsTrue result → first.now.page.env.job.overlay ≡ None }
    ensures no_reset { IsTrue result → is_reset (view item.now) ≡ false }
    ensures asks { IsTrue result → (p q : Printer) → asks_alike p q (view item.now) ≡ true }
{
    !first.has_overlay() && !is_reset(item) && !asks_device(item)
}

/// Whether an item is a reset, which deletes all macros.
#[inline(always)]
fn is_reset(item: &Item<'_>) -> bool
    ensures { result ≡ is_reset (view item.now) }
{
    matches!(
        item,
        Item::Simple(SimpleItem::Reset | SimpleItem::ExitLanguage)
    )
}

/// Whether an item does on each machine what it does on the first.
// It copies the item, so that one that does not come here stays in registers.
#[inline(always)]
fn all_do_as<A: Allocator + Copy, P: Allocator>(
    first: &Machine<'_, P, A>,
    others: &[Machine<'_, P, A>],
    item: &Item<'_>,
) -> bool
    ensures { IsTrue result → GoesAsOne Together first.now others.now (view item.now) }
{
    let item = *item;
    do_as(first, others, &item)
}

/// Whether an item does on these machines what it does on the first.
#[inline(never)]
fn do_as<A: Allocator + Copy, P: Allocator>(
    first: &Machine<'_, P, A>,
    others: &[Machine<'_, P, A>],
    item: &Item<'_>,
) -> bool
    ensures { IsTrue result → GoesAsOne Together first.now others.now (view item.now) }
{
    plain_macros_run_alike();
    if let Some(body) = first.plain_macro(item) {
        return share_macro(first, others, &body);
    }
    if first.has_overlay() {
        return false;
    }
    if !leaves_store(first, item) {
        return false;
    }
    ask_alike(first, others, item)
}

/// Whether these machines have this body for the macro of the id in force on the first.
fn share_macro<A: Allocator + Copy, P: Allocator>(
    first: &Machine<'_, P, A>,
    others: &[Machine<'_, P, A>],
    body: &Body<'_>,
) -> bool
    ensures { IsTrue result → ShareMacro first.now body.now others.now }
{
    for machine in others {
        if !machine.shares_macro(&*first, &*body) {
            return false;
        }
    }
    true
}

/// Whether an item asks the printers of these machines what it asks the first one's, and deletes
/// no macro of theirs.
fn ask_alike<A: Allocator + Copy, P: Allocator>(
    first: &Machine<'_, P, A>,
    others: &[Machine<'_, P, A>],
    item: &Item<'_>,
) -> bool
    ensures { IsTrue result → AskAlike first.now (view item.now) others.now }
{
    for machine in others {
        if !asks_as(first, machine, item) {
            return false;
        }
    }
    true
}

/// Whether an item asks the printer of a machine what it asks the first one's, and deletes no macro
/// of its.
fn asks_as<A: Allocator + Copy, P: Allocator>(
    first: &Machine<'_, P, A>,
    machine: &Machine<'_, P, A>,
    item: &Item<'_>,
) -> bool
    ensures { IsTrue result → AsksAlike first.now (view item.now) machine.now }
{
    if !asks_alike(first.profile(), machine.profile(), item) {
        return false;
    }
    leaves_store(machine, item)
}

/// Whether an item deletes no macro of a machine, unless it is a control.
fn leaves_store<A: Allocator + Copy, P: Allocator>(
    machine: &Machine<'_, P, A>,
    item: &Item<'_>,
) -> bool
    ensures { IsTrue result → LeavesStore (view item.now) machine.now.macros }
{
    if is_reset(item) {
        return machine.knows_no_macro();
    }
    true
}

/// Whether machines that stand alike do so again where each has executed a task by itself, whatever
/// macros it has.
pub(crate) fn stay_alike<A: Allocator + Copy, P: Allocator>(
    fleet_mode: FleetMode,
    first: &Machine<'_, P, A>,
    task: &Task<'_, '_>,
) -> bool
    ensures { IsTrue result → StayAlike fleet_mode first.now (action_of task.now) }
{
    let Task::Item(item) = task else {
        return false;
    };
    match fleet_mode {
        FleetMode::Defining => true,
        FleetMode::Together => keeps_alike(first, item),
        FleetMode::Alone | FleetMode::Apart => false,
    }
}

/// Whether an item is a control that runs no macro, or a reset where no overlay is enabled.
fn keeps_alike<A: Allocator + Copy, P: Allocator>(
    first: &Machine<'_, P, A>,
    item: &Item<'_>,
) -> bool
    ensures { IsTrue result → StayAlike Together first.now (Execute (view item.now)) }
{
    if keeps_stores(item) {
        return true;
    }
    if !is_reset(item) {
        return false;
    }
    !first.has_overlay()
}

/// How machines stand that stand alike, each by itself.
pub(crate) fn joined<A: Allocator + Copy, P: Allocator>(first: &Machine<'_, P, A>) -> FleetMode
    ensures { result ≡ joined_as (is_defining first.now.macros) }
{
    if first.is_defining() {
        FleetMode::Defining
    } else {
        FleetMode::Together
    }
}
