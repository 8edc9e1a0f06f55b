//! Items of the job and the macros: what is stored, and what the controls do to the store.

ghost use Rattle.std.specs.Prelude.{◌≡◌, None, Some, true, OnOk, OnErr};
ghost use Rattle.pcl_items.specs.declared.item.Mode.{Mode};
ghost use Rattle.pcl_items.specs.Modes.{follows};
ghost use Rattle.macro_store.specs.Store.{Admits};
ghost use Rattle.pcl_items.specs.Items.{view};
ghost use Rattle.page_env.specs.Action.{page_view};
ghost use Rattle.page_env.specs.JobControl.{is_reset};
ghost use Rattle.page_machine.specs.Defining.{control_in, defining_control, defining_of, begins};
ghost use Rattle.page_machine.specs.Defining.{carried_after, controlled_after, StandsIn};
ghost use Rattle.page_machine.specs.Machine.{Defines};

use crate::stop::Stop;
use macro_store::{MacroStore, Refusal};
use page_env::{Control, Finding, PageCommand, PageItem, control_of};
use pcl_items::{Command, Item, SimpleItem};
use std::alloc::{AllocError, Allocator};

/// What an item does to the definition that is open.
#[derive(Clone, Copy, PartialEq, Eq)]
pub enum Defining {
    /// It may not stand in a definition.
    Refused,
    /// It ends the definition.
    Completed,
    /// It is stored.
    Stored,
}

/// The control that an item is.
#[inline(always)]
pub(crate) fn control_in(item: &Item<'_>) -> Option<Control>
    ensures { result ≡ control_in (view item.now) }
{
    match item {
        Item::Simple(item) => match item {
            SimpleItem::Parameterized(Command::MacroControl, n) => control_of(*n),
            _ => None,
        },
        _ => None,
    }
}

/// Whether an item is a reset: the universal exit is one, too.
#[inline(always)]
fn is_reset(item: &Item<'_>) -> bool
    ensures { result ≡ is_reset (view item.now) }
{
    matches!(
        item,
        Item::Simple(SimpleItem::Reset | SimpleItem::ExitLanguage)
    )
}

/// What a control does to the definition that is open.
fn defining_control(control: Option<Control>) -> Defining
    ensures { result ≡ defining_control control }
{
    match control {
        Some(Control::Begin) => Defining::Refused,
        Some(Control::End) => Defining::Completed,
        _ => Defining::Stored,
    }
}

/// What an item does to the definition that is open.
fn defining_of(item: &Item<'_>) -> Defining
    ensures { result ≡ defining_of (view item.now) }
{
    if is_reset(item) {
        Defining::Refused
    } else {
        defining_control(control_in(item))
    }
}

/// Stores the item, or ends the definition, or refuses the item.
pub(crate) fn define<F, B: Allocator + Copy>(
    macros: &mut MacroStore<B>,
    item: &Item<'_>,
) -> Result<(), Stop<F>>
    requires { Admits macros.old (view item.now) }
    ensures defines { Defines (view item.now) macros.old macros.new result }
    ensures stands { (mode next : Mode) → StandsIn macros.old mode → follows mode (view item.now) ≡
        Some next → OnOk result (StandsIn macros.new next) }
{
    match defining_of(item) {
        Defining::Refused => Err(Stop::Found(Finding::DefinitionOpen)),
        Defining::Completed => {
            macros.commit();
            Ok(())
        }
        Defining::Stored => match macros.append(item) {
            Ok(()) => Ok(()),
            Err(Refusal::MacroMemory) => Err(Stop::Found(Finding::MacroMemory)),
            Err(Refusal::Memory(error)) => Err(Stop::Memory(error)),
        },
    }
}

/// Does to the macros what a macro control that was carried out does, with this id in force.
#[inline(always)]
fn keep_control<B: Allocator + Copy>(
    macros: &mut MacroStore<B>,
    id: u16,
    control: Option<Control>,
) -> Result<(), AllocError>
    requires { macros.old.definition ≡ None }
    ensures ok { OnOk result (macros.new ≡ controlled_after id control macros.old) }
    ensures err { OnErr result (begins control ≡ true) }
{
    match control {
        Some(Control::Begin) => macros.begin(id),
        Some(Control::DeleteAll) => {
            macros.clear();
            Ok(())
        }
        Some(Control::Delete) => {
            macros.delete(id);
            Ok(())
        }
        _ => Ok(()),
    }
}

/// Does to the macros what an item that was carried out does, with this id in force.
#[inline(always)]
pub(crate) fn keep<B: Allocator + Copy>(
    macros: &mut MacroStore<B>,
    id: u16,
    item: PageItem,
) -> Result<(), AllocError>
    requires { macros.old.definition ≡ None }
    ensures ok { OnOk result (macros.new ≡ carried_after id (page_view item) macros.old) }
    ensures err { OnErr result (begins (control_in (page_view item)) ≡ true) }
{
    match item {
        PageItem::Reset => macros.clear(),
        PageItem::ExitLanguage => macros.clear(),
        PageItem::Command(PageCommand::MacroControl, n) => {
            return keep_control(macros, id, control_of(n));
        }
        _ => {}
    }
    Ok(())
}
