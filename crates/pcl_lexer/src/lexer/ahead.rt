//! What stands ahead in a lexer's window, and what is lent of it.

ghost use Rattle.std.specs.Prelude.{◌≡◌, ◌+◌, ◌≤◌, ◌-◌, ◌^◌, ◌++◌, length, take, drop, IfSome};
ghost use Rattle.pcl_items.specs.declared.item.Item.TheVariants.{Text, Simple};
ghost use Rattle.pcl_items.specs.Items.{Entry, view};
ghost use Rattle.pcl_items.specs.Spellings.Canon.{canon, data_of};
ghost use Rattle.pcl_lexer.specs.Lexing.Contexts.{counted};
ghost use Rattle.pcl_lexer.specs.Lexing.FirstView.{context_view, data_len, head_view, HasPjl};
ghost use Rattle.pcl_lexer.specs.Lexing.FirstView.{first_view, Within};
ghost use Rattle.pcl_lexer.specs.Reader.{first_of};
ghost use Rattle.pcl_items.specs.PjlLines.View.{pjl_view};
ghost use Rattle.pcl_lexer.specs.Lexing.Ahead.{StandsFirst, StandsAhead, IsUndecided};
ghost use Rattle.pcl_lexer.specs.Lexing.Meaning.{item_of_end};

use crate::frame::first::{after_letters, after_numbers, at_frame};
use crate::lexer::first::{Context, First, Head, command, first_between};
use crate::lexer::lexed::Lexed;
use crate::pcl::command_with_data::with_data_in;
use crate::pjl::first::in_pjl;
use crate::pjl::pjl_command_of;
use pcl_items::{
    Data, DataCount, Item, LexFault, LineEnd, PjlLine, Place, SimpleItem, TextByte, control_at,
    sequence_at,
};

/// The byte of text in front, unless another byte stands there.
#[inline(always)]
#[tactic(auto, unfolding(crate::specs::Reader::first_of))]
pub fn text_in(bytes: &[u8]) -> Option<TextByte>
    ensures { IfSome result (λ byte. StandsFirst (Text byte) 1 bytes.now) }
{
    match bytes {
        [code @ 32..=255, ..] => Some(TextByte { code: *code }),
        _ => None,
    }
}

/// The line end of which the first byte is the code.
#[inline(always)]
#[tactic(auto, unfolding(crate::specs::Reader::first_of))]
pub fn line_end_in(bytes: &[u8]) -> Option<LineEnd>
    ensures { IfSome result (λ line_end. StandsFirst (Simple (item_of_end line_end)) 1 bytes.now) }
{
    match bytes {
        [b'\r', ..] => Some(LineEnd::CarriageReturn),
        [b'\n', ..] => Some(LineEnd::LineFeed),
        _ => None,
    }
}

/// The item of the first two bytes, where these are ESC and the character of a sequence of two.
#[inline(always)]
#[tactic(auto, unfolding(crate::specs::Reader::first_of, crate::specs::Reader::after_escape))]
pub fn sequence_in(bytes: &[u8]) -> Option<SimpleItem>
    ensures { IfSome result (λ item. StandsFirst (Simple item) 2 bytes.now) }
{
    match bytes {
        [b'\x1b', character, ..] => sequence_at(*character),
        _ => None,
    }
}

/// The item of the first byte, where it is one by itself.
#[inline(always)]
#[tactic(auto, unfolding(crate::specs::Reader::first_of))]
pub fn byte_in(bytes: &[u8]) -> Option<Item<'static>>
    ensures first { IfSome result (λ item. StandsFirst item 1 bytes.now) }
    ensures spelled { IfSome result (λ item. canon (view item) ≡ take 1 bytes.now) }
{
    match bytes {
        [code @ 32..=255, ..] => Some(Item::Text(TextByte { code: *code })),
        [code, ..] => Some(Item::Simple(control_at(*code)?)),
        [] => None,
    }
}

/// What stands first in a window behind bytes that end no item.
#[derive(Clone, Copy)]
pub struct Ahead {
    /// It stands behind so many bytes of the window.
    pub start: usize,
    /// And behind this.
    pub context: Context,
    /// It passes over nothing.
    pub first: First,
}

/// What stands first from `start` of the window on, behind white space, letters and numbers of a
/// frame that end no item.
// It is asked where no usual item stands, and is not to crowd the code of those that do.
#[inline(never)]
pub fn next_ahead(whole: bool, context: Context, start: usize, window: &[u8]) -> Ahead
    requires inside { start ≤ length window.now }
    requires counts { counted (context_view context) + length (drop start window.now) ≤ 2 ^ 62 }
    ensures { StandsAhead whole (context_view context) start window.now result }
{
    let mut at = start;
    let mut before = context;
    loop {
        match first_ahead(whole, before, &window[at..]) {
            First::Passes(len, next) => {
                at += len;
                before = next;
            }
            first => {
                return Ahead {
                    start: at,
                    context: before,
                    first,
                };
            }
        }
    }
}

/// What stands first in the bytes, which are all that come or not.
#[tactic(auto, unfolding(crate::specs::Reader::first_of))]
fn first_in(whole: bool, context: Context, bytes: &[u8]) -> First
    requires { counted (context_view context) + length bytes.now ≤ 2 ^ 62 }
    ensures first { first_view bytes.now result ≡ first_of whole (context_view context) bytes.now }
    ensures within { Within (length bytes.now) result }
{
    match context {
        Context::Pcl => first_between(bytes),
        Context::Sequence(group) => command(group, bytes),
        Context::Frame => at_frame(bytes),
        Context::Letters(mnemonic, begun) => after_letters(whole, mnemonic, begun, bytes),
        Context::Numbered(numbers, gap, begun) => after_numbers(whole, numbers, gap, begun, bytes),
        Context::Pjl => in_pjl(bytes),
    }
}

/// What stands first in the bytes, rows before all else.
#[inline(always)]
fn first_ahead(whole: bool, context: Context, bytes: &[u8]) -> First
    requires { counted (context_view context) + length bytes.now ≤ 2 ^ 62 }
    ensures first { first_view bytes.now result ≡ first_of whole (context_view context) bytes.now }
    ensures within { Within (length bytes.now) result }
{
    match with_data_in(context, bytes) {
        Some(read) => {
            let head = Head::WithData(read.command, read.count);
            First::Begins(read.len, head, read.next)
        }
        None => first_in(whole, context, bytes),
    }
}

/// So many bytes of the window, up to `end`.
pub fn data_before(count: DataCount, end: usize, window: &[u8]) -> Data<'_>
    requires inside { end ≤ length window.now }
    requires there { count.bytes ≤ end }
    ensures { result.bytes.now ≡ take count.bytes (drop (end - count.bytes) window.now) }
{
    Data {
        bytes: &window[end - usize::from(count.bytes)..end],
    }
}

/// The line of mode PJL that so many bytes in front spell with their newline.
pub fn pjl_before(len: usize, bytes: &[u8]) -> PjlLine<'_>
    requires inside { len ≤ length bytes.now }
    requires newline { 1 ≤ len }
    requires line { HasPjl Head.PjlLine len bytes.now }
    ensures { Entry.PjlLine (pjl_view result.command) ≡ head_view Head.PjlLine len bytes.now }
{
    let Some(command) = pjl_command_of(&bytes[..len - 1]) else {
        unreachable!()
    };
    PjlLine { command }
}

/// The item of so many bytes in front.
#[inline(always)]
pub fn with_its_data(head: Head, len: usize, bytes: &[u8]) -> Item<'_>
    requires inside { len ≤ length bytes.now }
    requires there { data_len head ≤ len }
    requires line { HasPjl head len bytes.now }
    ensures item { view result ≡ head_view head len bytes.now }
    ensures within { length (data_of (view result)) ≤ len }
    ensures last { take (len - length (data_of (view result))) bytes.now ++ data_of (view result) ≡
        take len bytes.now }
{
    match head {
        Head::Text(byte) => Item::Text(byte),
        Head::Simple(item) => Item::Simple(item),
        Head::WithData(command, count) => Item::WithData(command, data_before(count, len, bytes)),
        Head::PjlLine => Item::PjlLine(pjl_before(len, bytes)),
    }
}

/// The answer where the bytes from `start` on decide nothing.
#[inline(always)]
pub fn undecided(
    ended: bool,
    context: Context,
    place: Place,
    start: usize,
    window: &[u8],
) -> Result<Lexed<'_>, LexFault>
    requires { start ≤ length window.now }
    ensures { IsUndecided ended (context_view context) place (drop start window.now) result }
{
    if !ended {
        return Ok(Lexed::NeedMore);
    }
    match context.cause_at_end(window[start..].is_empty()) {
        None => Ok(Lexed::End),
        Some(cause) => Err(LexFault { place, cause }),
    }
}
