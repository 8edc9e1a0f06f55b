//! Items on printers that are alike but for the device.

ghost use Rattle.std.specs.Prelude.{◌≡◌, IsFalse, true};
ghost use Rattle.device_profile.specs.Printer.{Printer};
ghost use Rattle.pcl_items.specs.Escapes.Value.{Amount};
ghost use Rattle.pcl_items.specs.Items.{amount, view};
ghost use Rattle.page_env.specs.Likeness.{asks_alike, command_asks_alike};

use crate::number::whole_of;
use device_profile::Profile;
use pcl_items::{Command, Item, Number, SimpleItem};
use std::alloc::Allocator;

/// Whether an item asks what printers may differ in that are alike but for the device.
#[inline(always)]
pub fn asks_device(item: &Item<'_>) -> bool
    ensures { IsFalse result → (p q : Printer) → asks_alike p q (view item.now) ≡ true }
{
    match item {
        Item::Simple(SimpleItem::Parameterized(command, _)) => command_asks_device(*command),
        _ => false,
    }
}

/// Whether a command asks what printers may differ in that are alike but for the device.
#[inline(always)]
pub fn command_asks_device(command: Command) -> bool
    ensures { IsFalse result → (p q : Printer) (n : Amount) →
        command_asks_alike p q command n ≡ true }
{
    matches!(
        command,
        Command::Sides | Command::Source | Command::MacroControl
    )
}

/// Whether an item asks nothing of the device, or two printers answer it the same. A macro control
/// is never taken for that.
pub fn asks_alike<A: Allocator>(a: &Profile<A>, b: &Profile<A>, item: &Item<'_>) -> bool
    ensures { result ≡ asks_alike a.now b.now (view item.now) }
{
    match item {
        Item::Simple(SimpleItem::Parameterized(command, n)) => {
            command_asks_alike(a, b, *command, *n)
        }
        _ => true,
    }
}

/// Whether a command asks nothing of the device, or two printers answer it the same.
fn command_asks_alike<A: Allocator>(
    a: &Profile<A>,
    b: &Profile<A>,
    command: Command,
    n: Number,
) -> bool
    ensures { result ≡ command_asks_alike a.now b.now command (amount n) }
{
    match command {
        Command::Sides => whole_of(n) == 0 || a.has_duplex() == b.has_duplex(),
        Command::Source => a.has_tray(whole_of(n)) == b.has_tray(whole_of(n)),
        Command::MacroControl => false,
        _ => true,
    }
}
