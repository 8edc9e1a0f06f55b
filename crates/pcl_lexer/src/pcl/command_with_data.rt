//! A command with its data that stands first.
//!
//! A raster is mostly these. What `first_in` answers of them is answered here at once.

ghost use Rattle.std.specs.Prelude.{◌≡◌, ◌≤◌, ◌∷◌, length, IfSome};
ghost use Rattle.pcl_items.specs.declared.pcl.command.DataCommand.TheVariants.{RasterRow};
ghost use Rattle.pcl_lexer.specs.Lexing.Contexts.{Pcl};
ghost use Rattle.pcl_lexer.specs.Lexing.FirstView.{context_view};
ghost use Rattle.pcl_lexer.specs.Escapes.ReadCommands.{IsAheadWithData, IsInGroupWithData};

use crate::lexer::first::{Context, First, Head, command, short_command};
use pcl_items::{DataCommand, DataCount, Group};

/// A command and how many bytes of data it has, how many bytes spell both, and what stands before
/// the bytes after them.
#[derive(Clone, Copy)]
pub struct ReadWithData {
    pub len: usize,
    pub command: DataCommand,
    pub count: DataCount,
    pub next: Context,
}

/// The command with data that stands first in the bytes, unless they begin with something else.
#[inline(always)]
#[tactic(auto, unfolding(crate::specs::Reader::first_of))]
pub fn with_data_in(context: Context, bytes: &[u8]) -> Option<ReadWithData>
    ensures { IfSome result (λ read. IsAheadWithData read (context_view context) bytes.now) }
{
    match context {
        Context::Sequence(group) => in_group(group, bytes),
        Context::Pcl => match bytes {
            [b'\x1b', rest @ ..] => escaped(rest),
            _ => None,
        },
        _ => None,
    }
}

/// The row of a raster that stands first in the bytes in mode PCL, if its number is a short one,
/// unless they begin with something else.
// It does what `with_data_in` does, for one group alone, and looks for none but short numbers.
#[inline(always)]
pub fn row_in(bytes: &[u8]) -> Option<ReadWithData>
    ensures { IfSome result (λ read. (read.command ≡ RasterRow)
        × IsAheadWithData read Pcl bytes.now × (context_view read.next ≡ Pcl)) }
{
    let [b'\x1b', b'*', b'b', rest @ ..] = bytes else {
        return None;
    };
    let read = in_short(Group::RasterData, rest)?;
    let DataCommand::RasterRow = read.command else {
        return None;
    };
    let Context::Pcl = read.next else {
        return None;
    };
    Some(ReadWithData {
        len: 3 + read.len,
        ..read
    })
}

/// The command with data that stands first behind an escape character.
#[inline(always)]
fn escaped(bytes: &[u8]) -> Option<ReadWithData>
    ensures { IfSome result (λ read. IsAheadWithData read Pcl (27 ∷ bytes.now)) }
{
    match bytes {
        [introducer, character, rest @ ..] => {
            let group = Group::of(*introducer, *character)?;
            let read = in_group(group, rest)?;
            Some(ReadWithData {
                len: 3 + read.len,
                ..read
            })
        }
        _ => None,
    }
}

/// The command with data and a short number that stands first behind the characters of its group.
#[inline(always)]
fn in_short(group: Group, bytes: &[u8]) -> Option<ReadWithData>
    ensures { IfSome result (λ read. IsInGroupWithData read group bytes.now) }
{
    match short_command(group, bytes) {
        Some(First::Begins(len, Head::WithData(command, count), next)) => Some(ReadWithData {
            len,
            command,
            count,
            next,
        }),
        _ => None,
    }
}

/// The command with data that stands first behind the characters of its group, or behind a command
/// of the group.
#[inline(always)]
fn in_group(group: Group, bytes: &[u8]) -> Option<ReadWithData>
    ensures { IfSome result (λ read. IsInGroupWithData read group bytes.now) }
{
    match command(group, bytes) {
        First::Begins(len, Head::WithData(command, count), next) => Some(ReadWithData {
            len,
            command,
            count,
            next,
        }),
        _ => None,
    }
}
