//! The name that HP's manual has for what a job fails at, where pclcheck does not check it.
ghost use Rattle.std.specs.Prelude.{◌≡◌, ◌++◌, OnOk, drop};
ghost use Rattle.pcl_items.specs.Spellings.Canon.{canon};
ghost use Rattle.pcl_items.specs.Items.{simple_view};
ghost use Rattle.line_words.specs.Reason.{name_words};
ghost use Rattle.command_names.specs.CommandNames.{command_name};
ghost use Rattle.job_reports.specs.RefusedNames.{called, refused_name, value_key, value_name};

use command_names::command_name;
use judgement::FailingItem;
use line_words::push_name;
use page_env::Finding;
use pcl_items::{Item, LexCause, Name, SimpleItem};
use pcl_spelling::spell;
use std::alloc::{AllocError, Allocator};
use verdict::Reason;

/// Appends the name of the command that a fault names, or of a command whose value is not taken,
/// where the manual has one: `page length (&l#P)`.
pub fn push_refused_name<A: Allocator + Copy>(
    alloc: A,
    words: &mut Vec<u8, A>,
    failing_item: Option<FailingItem>,
    reason: Reason,
) -> Result<(), AllocError>
    ensures { OnOk result (words.new.items ≡
        words.old.items ++ refused_name (value_key failing_item) reason) }
{
    match reason {
        Reason::Fault(LexCause::NotInProfile(name)) => push_fault_name(alloc, words, name),
        Reason::Finding(Finding::BadValue) => push_value_name(alloc, words, failing_item),
        _ => Ok(()),
    }
}

/// Appends the name of the command that a fault names.
fn push_fault_name<A: Allocator>(
    alloc: A,
    words: &mut Vec<u8, A>,
    name: Name,
) -> Result<(), AllocError>
    ensures { OnOk result (words.new.items ≡ words.old.items ++ command_name (name_words name)) }
{
    let mut key = Vec::new(alloc);
    push_name(&mut key, name)?;
    words.extend_from_slice(command_name(key.as_slice()).as_bytes())
}

/// Appends the name of a command with its value, where it has one of its own.
fn push_value_name<A: Allocator + Copy>(
    alloc: A,
    words: &mut Vec<u8, A>,
    failing_item: Option<FailingItem>,
) -> Result<(), AllocError>
    ensures { OnOk result (words.new.items ≡
        words.old.items ++ value_name (value_key failing_item)) }
{
    match failing_item {
        Some(FailingItem::Simple(item)) => push_item_name(alloc, words, item),
        _ => Ok(()),
    }
}

/// Appends the name of an item that stands in the table by all of its spelling.
fn push_item_name<A: Allocator + Copy>(
    alloc: A,
    words: &mut Vec<u8, A>,
    item: SimpleItem,
) -> Result<(), AllocError>
    ensures { OnOk result (words.new.items ≡
        words.old.items ++ command_name (drop 1 (canon (simple_view item)))) }
{
    let mut spelling = Vec::new(alloc);
    spell(&Item::Simple(item), &mut spelling)?;
    let key = behind_first(spelling.as_slice());
    words.extend_from_slice(command_name(key).as_bytes())
}

/// Bytes behind the first one.
fn behind_first(bytes: &[u8]) -> &[u8]
    ensures { result.now ≡ drop 1 bytes.now }
{
    match bytes {
        [] => &[],
        [_, rest @ ..] => rest,
    }
}

/// Appends, behind a comma, what the manual calls what is not checked.
pub(crate) fn push_called<A: Allocator + Copy>(
    alloc: A,
    line: &mut Vec<u8, A>,
    failing_item: Option<FailingItem>,
    reason: Reason,
) -> Result<(), AllocError>
    ensures { OnOk result (line.new.items ≡
        line.old.items ++ called (refused_name (value_key failing_item) reason)) }
{
    let mut name = Vec::new(alloc);
    push_refused_name(alloc, &mut name, failing_item, reason)?;
    if name.is_empty() {
        return Ok(());
    }
    line.extend_from_slice(b", ")?;
    line.extend_from_slice(name.as_slice())
}
