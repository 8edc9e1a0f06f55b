//! Macros whose items are text and commands that are one step: on printers that are alike but for
//! the device they run the same.

ghost use Rattle.std.specs.Prelude.{◌≡◌, ◌≤◌, IfSome, IsTrue, false, is_some, length, true};
ghost use Rattle.pcl_items.specs.Items.{view as entry_of};
ghost use Rattle.page_machine.specs.Defining.{control_in};
ghost use Rattle.page_machine.specs.PlainMacros.{ArePlain, is_plain, runs_body};
ghost use Rattle.page_machine.specs.Still.{may_close};

use crate::defining::control_in;
use macro_store::Body;
use page_env::Control;
use pcl_items::{Command, Item, SimpleItem};

/// Whether an item is a control that executes a macro or calls it.
pub(crate) fn is_running(item: &Item<'_>) -> bool
    ensures { result ≡ runs_body (control_in (entry_of item.now)) }
{
    runs_body(control_in(item))
}

/// Whether an item is a control that runs no macro.
pub fn keeps_stores(item: &Item<'_>) -> bool
    ensures controls { IsTrue result → is_some (control_in (entry_of item.now)) ≡ true }
    ensures runs_none { IsTrue result → runs_body (control_in (entry_of item.now)) ≡ false }
{
    let control = control_in(item);
    control.is_some() && !runs_body(control)
}

/// Whether a control runs the body of a macro.
fn runs_body(control: Option<Control>) -> bool
    ensures { result ≡ runs_body control }
{
    matches!(control, Some(Control::Execute | Control::Call))
}

/// Whether each item of a body is text or a command that is one step.
pub(crate) fn is_plain(mut body: Body<'_>) -> bool
    ensures { IsTrue result → ArePlain body.entry }
{
    loop {
        let Some(left) = behind_plain_commands(body) else {
            return false;
        };
        body = left;
        let Some(item) = body.next() else {
            return true;
        };
        if !is_plain_item(&item) {
            return false;
        }
    }
}

/// What is left of a body behind its first commands that are kept, where each of them is one step.
// Bodies are mostly made of commands. A call of its own, in which the body lies in registers.
#[inline(never)]
fn behind_plain_commands(mut body: Body<'_>) -> Option<Body<'_>>
    ensures plain { IfSome result (λ left. ArePlain left → ArePlain body.entry) }
    ensures shorter { IfSome result (λ left. length left ≤ length body.entry) }
{
    while let Some(item) = body.next_command() {
        if !is_plain_item(&Item::Simple(item)) {
            return None;
        }
    }
    Some(body)
}

/// Whether an item is text or a command that is one step.
#[inline(always)]
fn is_plain_item(item: &Item<'_>) -> bool
    ensures { result ≡ is_plain (entry_of item.now) }
{
    match item {
        Item::Text(_) => true,
        Item::Simple(SimpleItem::Parameterized(command, _)) => !may_close(*command),
        _ => false,
    }
}

/// Whether a command may close the page.
#[inline(always)]
fn may_close(command: Command) -> bool
    ensures { result ≡ may_close command }
{
    matches!(
        command,
        Command::Sides
            | Command::Source
            | Command::PageSize
            | Command::Orientation
            | Command::MacroControl
    )
}
