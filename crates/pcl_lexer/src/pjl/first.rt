//! What stands first in mode PJL.

ghost use Rattle.std.specs.Prelude.{◌≡◌, ◌≤◌, ◌∷◌, [], Bool, length};
ghost use Rattle.std.specs.List.{prefix_len};
ghost use Rattle.pcl_lexer.specs.Lexing.Contexts.{Pjl};
ghost use Rattle.pcl_lexer.specs.Lexing.FirstView.{context_view, first_view, Within};
ghost use Rattle.pcl_items.specs.Modes.{behind_pjl};
ghost use Rattle.pcl_lexer.specs.Modes.{between};
ghost use Rattle.pcl_items.specs.PjlLines.Exit.{begins_with};
ghost use Rattle.pcl_items.specs.PjlLines.First.{at_pjl};
ghost use Rattle.pcl_lexer.specs.PjlLines.FirstView.{first_pjl_view, first_pjl_len};
ghost use Rattle.pcl_items.specs.PjlLines.Text.{at_sign, is_inside};
ghost use Rattle.pcl_items.specs.PjlLines.View.{pjl_view};
ghost use Rattle.pcl_lexer.specs.Reader.{by_pjl, first_of};

use crate::lexer::first::{Context, First, Head, first_between};
use crate::pjl::pjl_command_of;
use pcl_items::{LexCause, PjlCommand, PjlLine};

/// No line has more bytes with its newline.
pub const MOST_IN_PJL_LINE: usize = 1024;

/// No line has more bytes before its newline.
const MOST_INSIDE: usize = MOST_IN_PJL_LINE - 1;

/// What stands first where a line begins.
#[derive(Clone, Copy)]
pub enum FirstPjl<'a> {
    /// No whole line and no fault.
    Open,
    /// A line, and its length in bytes with the newline.
    Begins(PjlLine<'a>, usize),
    /// A fault, in the stead of a line.
    Faulty(LexCause),
}

/// What stands first in mode PJL: a line, or what stands first between the units of mode PCL.
pub fn in_pjl(bytes: &[u8]) -> First
    ensures first { (whole : Bool) → first_view bytes.now result ≡ first_of whole Pjl bytes.now }
    ensures within { Within (length bytes.now) result }
{
    if begins_pjl(bytes) {
        pjl_ahead(bytes)
    } else {
        first_between(bytes)
    }
}

/// Whether the bytes begin with `@`, as a line does.
pub fn begins_pjl(bytes: &[u8]) -> bool
    ensures { result ≡ begins_with (at_sign ∷ []) bytes.now }
{
    bytes.starts_with(b"@")
}

/// What stands first where a line begins, without the words of the line.
fn pjl_ahead(bytes: &[u8]) -> First
    ensures first { first_view bytes.now result ≡ by_pjl (at_pjl bytes.now) }
    ensures within { Within (length bytes.now) result }
{
    match at_pjl(bytes) {
        FirstPjl::Open => First::Open,
        FirstPjl::Begins(spelled, len) => {
            First::Begins(len, Head::PjlLine, behind_pjl(spelled.command))
        }
        FirstPjl::Faulty(cause) => First::Faulty(cause),
    }
}

/// What stands before the bytes behind a line.
fn behind_pjl(command: PjlCommand<'_>) -> Context
    ensures { context_view result ≡ between (behind_pjl (pjl_view command.entry)) }
{
    match command {
        PjlCommand::EnterPcl => Context::Pcl,
        _ => Context::Pjl,
    }
}

/// What stands first in bytes that begin with `@`. The line lends its text out of these bytes.
#[tactic(auto, unfolding(pcl_items::specs::PjlLines::First::at_pjl))]
pub fn at_pjl(bytes: &[u8]) -> FirstPjl<'_>
    ensures first { first_pjl_view result ≡ at_pjl bytes.now }
    ensures within { first_pjl_len result ≤ length bytes.now }
{
    let len = inside_len(bytes);
    if len > MOST_INSIDE {
        return FirstPjl::Faulty(LexCause::Pjl);
    }
    match &bytes[len..] {
        [] => FirstPjl::Open,
        [_, ..] => match pjl_command_of(&bytes[..len]) {
            Some(command) => FirstPjl::Begins(PjlLine { command }, len + 1),
            None => FirstPjl::Faulty(LexCause::Pjl),
        },
    }
}

/// How many bytes stand before the newline, or all of them.
fn inside_len(bytes: &[u8]) -> usize
    ensures length { result ≡ prefix_len is_inside bytes.now }
    ensures within { result ≤ length bytes.now }
{
    bytes.iter().take_while(|b| **b != b'\n').count()
}
