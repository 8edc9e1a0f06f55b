//! Commands of the pool that are kept beside their spellings, so that none of these is read again.

ghost use Rattle.std.specs.Prelude.{◌≡◌, ◌+◌, ◌<◌, ◌≤◌, ◌^◌, ◌++◌, List, ℕ, OnOk, OnErr, length};
ghost use Rattle.std.specs.Prelude.{nat_le, nat_lt};
ghost use Rattle.pcl_items.specs.Items.{view as entry_of};
ghost use Rattle.pcl_items.specs.Spellings.Canon.{canon};
ghost use Rattle.macro_store.specs.Commands.{AreStored, EndBefore};

use pcl_items::{Command, Item, Number, SimpleItem};
use pcl_spelling::spell;
use std::alloc::{AllocError, Allocator};

/// A command of the pool: where its spelling begins and ends there, and what it says.
#[derive(Clone, Copy)]
pub(crate) struct StoredCommand {
    pub at: u32,
    pub end: u32,
    pub command: Command,
    pub number: Number,
}

/// Appends the spelling of an item to the pool, and keeps it if it is a command.
///
/// An error means that memory was refused; the pool then stands as before.
pub(crate) fn spell_behind<A: Allocator>(
    pool: &mut Vec<u8, A>,
    commands: &mut Vec<StoredCommand, A>,
    item: &Item<'_>,
) -> Result<(), AllocError>
    requires short { length pool.old.items + length (canon (entry_of item.now)) < 2 ^ 32 }
    requires stored { AreStored pool.old.items commands.old.items }
    ensures ok { OnOk result (pool.new.items ≡ pool.old.items ++ canon (entry_of item.now)) }
    ensures err { OnErr result (pool.new.items ≡ pool.old.items) }
    ensures stored { AreStored pool.new.items commands.new.items }
{
    let Item::Simple(SimpleItem::Parameterized(command, number)) = item else {
        return spell(item, pool);
    };
    // Room for both is made before either is appended.
    commands.reserve(1)?;
    let at = pool.len() as u32;
    spell(item, pool)?;
    let stored = StoredCommand {
        at,
        end: pool.len() as u32,
        command: *command,
        number: *number,
    };
    let Ok(()) = commands.push(stored) else {
        unreachable!()
    };
    Ok(())
}

/// Forgets the commands that do not end before a place.
pub(crate) fn forget_from<A: Allocator>(commands: &mut Vec<StoredCommand, A>, place: usize)
    ensures kept { (pool : List ℕ) → AreStored pool commands.old.items →
        AreStored pool commands.new.items }
    ensures before { EndBefore place commands.new.items }
{
    commands.retain(
        |stored: &StoredCommand| -> bool
            ensures { result ≡ nat_le stored.now.end place }
        { stored.end as usize <= place },
    );
}

/// The commands from a place on, if they stand in the order of their places.
pub(crate) fn commands_from(commands: &[StoredCommand], place: usize) -> &[StoredCommand]
    ensures { (pool : List ℕ) → AreStored pool commands.now → AreStored pool result.now }
{
    let first = commands.partition_point(
        |stored: &StoredCommand| -> bool
            ensures { result ≡ nat_lt stored.now.at place }
        { (stored.at as usize) < place },
    );
    &commands[first..]
}
