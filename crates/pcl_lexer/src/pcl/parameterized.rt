//! A parameterized command that stands first.
//!
//! A job is mostly these. What `first_in` answers of them is answered here in a shape of its own,
//! which stays in registers where an answer of several shapes goes through memory.

ghost use Rattle.std.specs.Prelude.{◌≤◌, ◌<◌, length, IfSome};
ghost use Rattle.pcl_lexer.specs.Lexing.Contexts.{Pcl, Sequence};
ghost use Rattle.pcl_lexer.specs.Lexing.FirstView.{context_view};
ghost use Rattle.pcl_lexer.specs.Escapes.ReadCommands.{GoesOnIn, IsAhead, IsEndedBy, IsInGroup};

use crate::lexer::first::Context;
use crate::pcl::field::{EndedField, FieldEnd, field_end, short_field};
use pcl_items::{Command, Group, Number};

/// A command with its number, how many bytes spell it, and what stands before the bytes after them.
#[derive(Clone, Copy)]
pub struct ReadCommand {
    pub len: usize,
    pub command: Command,
    pub number: Number,
    pub next: Context,
}

/// The parameterized command that stands first in the bytes, unless they begin with something else.
#[inline(always)]
#[tactic(auto, unfolding(crate::specs::Reader::first_of))]
pub fn parameterized_in(context: Context, bytes: &[u8]) -> Option<ReadCommand>
    ensures { IfSome result (λ read. IsAhead read (context_view context) bytes.now) }
{
    let (group, begun) = match context {
        Context::Sequence(group) => (group, 0),
        Context::Pcl => {
            let [b'\x1b', introducer, character, ..] = bytes else {
                return None;
            };
            let group = Group::of(*introducer, *character)?;
            // Most commands of rows have data, which is known only behind the number.
            if let Group::RasterData = group {
                return None;
            }
            (group, 3)
        }
        _ => return None,
    };
    let read = command(group, &bytes[begun..])?;
    Some(ReadCommand {
        len: begun + read.len,
        ..read
    })
}

/// The parameterized command of this group that stands first between units with a short number,
/// unless the bytes begin with something else.
// Where the group is written in the call, nothing is looked up of it.
#[inline(always)]
#[tactic(auto, unfolding(crate::specs::Reader::first_of))]
pub fn short_in(group: Group, bytes: &[u8]) -> Option<ReadCommand>
    ensures { IfSome result (λ read. IsAhead read Pcl bytes.now) }
{
    let [b'\x1b', introducer, character, rest @ ..] = bytes else {
        return None;
    };
    let begun = Group::of(*introducer, *character)?;
    if begun != group {
        return None;
    }
    let read = short_command(begun, rest)?;
    Some(ReadCommand {
        len: 3 + read.len,
        ..read
    })
}

/// The command of this group that stands first with a short number behind another of the group.
#[inline(always)]
#[tactic(auto, unfolding(crate::specs::Reader::first_of))]
pub fn further_in(group: Group, bytes: &[u8]) -> Option<ReadCommand>
    ensures ahead { IfSome result (λ read. IsAhead read (Sequence group) bytes.now) }
    ensures goes_on { IfSome result (λ read. GoesOnIn group read) }
{
    short_command(group, bytes)
}

/// The command of a group that stands first behind the group's characters, or behind a command of
/// the group.
#[inline(always)]
fn command(group: Group, bytes: &[u8]) -> Option<ReadCommand>
    ensures { IfSome result (λ read. IsInGroup read group bytes.now) }
{
    let FieldEnd::Ended(field) = field_end(bytes) else {
        return None;
    };
    ended_command(group, field)
}

/// The command of a group with a short number that stands first behind the group's characters, or
/// behind a command of the group.
#[inline(always)]
fn short_command(group: Group, bytes: &[u8]) -> Option<ReadCommand>
    ensures ahead { IfSome result (λ read. IsInGroup read group bytes.now) }
    ensures goes_on { IfSome result (λ read. GoesOnIn group read) }
{
    let field = short_field(bytes)?;
    ended_command(group, field)
}

/// The command of a group that the byte behind a field ends.
#[inline(always)]
fn ended_command(group: Group, field: EndedField) -> Option<ReadCommand>
    requires { field.len ≤ 16 }
    ensures ends { IfSome result (λ read. IsEndedBy read group field) }
    ensures goes_on { IfSome result (λ read. GoesOnIn group read) }
{
    if field.last < b'`' {
        last_command(group, field)
    } else {
        other_command(group, field)
    }
}

// The letters of commands are capital ones, so a byte that is no letter names none.

/// The command that ends its sequence.
#[inline(always)]
fn last_command(group: Group, field: EndedField) -> Option<ReadCommand>
    requires short { field.len ≤ 16 }
    requires capital { field.last < 96 }
    ensures ends { IfSome result (λ read. IsEndedBy read group field) }
    ensures goes_on { IfSome result (λ read. GoesOnIn group read) }
{
    let command = Command::of(group, field.last)?;
    Some(ReadCommand {
        len: field.len + 1,
        command,
        number: field.number,
        next: Context::Pcl,
    })
}

/// The command behind which a further one of the group is due.
#[inline(always)]
fn other_command(group: Group, field: EndedField) -> Option<ReadCommand>
    requires short { field.len ≤ 16 }
    requires small { 96 ≤ field.last }
    ensures ends { IfSome result (λ read. IsEndedBy read group field) }
    ensures goes_on { IfSome result (λ read. GoesOnIn group read) }
{
    let command = Command::of(group, field.last - 32)?;
    Some(ReadCommand {
        len: field.len + 1,
        command,
        number: field.number,
        next: Context::Sequence(group),
    })
}
