//! What HP's manual calls what is refused.

ghost use Rattle.std.specs.Prelude.{◌≡◌, ◌==◌, ◌++◌, OnOk};
ghost use Rattle.std.specs.List.{after_first, before_first};
ghost use Rattle.survey.specs.Names.{called, grouped_name, introduced_name, line_name};
ghost use Rattle.survey.specs.Names.{name_or, spelled_name, ungrouped_name, words_name};

use crate::named_line::line_at;
use crate::refusal::Spelled;
use command_names::command_name;
use shown_bytes::hex_byte;
use std::alloc::{AllocError, Allocator};

/// The name of what is spelled so, with its spelling in brackets; nothing where the manual has
/// none.
pub(crate) fn spelled_name(spelled: Spelled) -> &'static str
    ensures { result.now ≡ spelled_name spelled }
{
    match spelled {
        Spelled::Control(byte) => {
            let [first, second] = hex_byte(byte);
            command_name(&[b'x', first, second])
        }
        Spelled::Sequence(character) => command_name(&[character]),
        Spelled::Grouped(introducer, group, letter) => grouped_name(introducer, group, letter),
        Spelled::Ungrouped(introducer, letter) => ungrouped_name(introducer, letter),
        Spelled::Instruction(first, second) => command_name(&[first, second]),
        Spelled::Line(number) => line_name(line_at(number)),
        Spelled::Unended | Spelled::FrameBytes | Spelled::End => "",
    }
}

/// The name of a command, or of its group, where its letter has none.
fn grouped_name(introducer: u8, group: u8, letter: u8) -> &'static str
    ensures { result.now ≡ grouped_name introducer group letter }
{
    let own = command_name(&[introducer, group, letter]);
    let name = name_or(own, command_name(&[introducer, group]));
    introduced_name(introducer, name)
}

/// The name of a command without a group, or of those of all letters, where its own has none.
fn ungrouped_name(introducer: u8, letter: u8) -> &'static str
    ensures { result.now ≡ ungrouped_name introducer letter }
{
    let own = command_name(&[introducer, letter]);
    let name = name_or(own, command_name(&[introducer, b'#']));
    introduced_name(introducer, name)
}

/// This name, or that of an introducer, where it is empty.
fn introduced_name(introducer: u8, name: &'static str) -> &'static str
    ensures { result.now ≡ introduced_name introducer name.now }
{
    name_or(name, command_name(&[introducer]))
}

/// A name, or another where that is empty.
fn name_or(name: &'static str, other: &'static str) -> &'static str
    ensures { result.now ≡ name_or name.now other.now }
{
    if name.is_empty() { other } else { name }
}

/// The name of a line by the words behind `PJL`.
fn line_name(line: &str) -> &'static str
    ensures { result.now ≡ line_name line.now }
{
    let (_, words) = cut(line);
    words_name(words)
}

/// The name of two words: that of the second, or else of the first.
fn words_name(words: &str) -> &'static str
    ensures { result.now ≡ words_name words.now }
{
    let (first, second) = cut(words);
    name_or(
        command_name(second.as_bytes()),
        command_name(first.as_bytes()),
    )
}

/// What stands before the first blank, and behind it; where there is none, all and nothing.
fn cut(text: &str) -> (&str, &str)
    ensures before { result.0.now ≡ before_first (λ byte. byte == 32) text.now }
    ensures after { result.1.now ≡ after_first (λ byte. byte == 32) text.now }
{
    text.split_once(' ').unwrap_or((text, ""))
}

/// Appends, behind a comma, the name of what is spelled so, where it has one.
pub(crate) fn push_called<A: Allocator>(
    text: &mut Vec<u8, A>,
    spelled: Spelled,
) -> Result<(), AllocError>
    ensures { OnOk result (text.new.items ≡ text.old.items ++ called (spelled_name spelled)) }
{
    let name = spelled_name(spelled);
    if name.is_empty() {
        return Ok(());
    }
    text.extend_from_slice(b", ")?;
    text.extend_from_slice(name.as_bytes())
}
