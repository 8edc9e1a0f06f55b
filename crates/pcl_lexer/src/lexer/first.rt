//! What stands first in bytes.

ghost use Rattle.std.specs.Prelude.{◌≡◌, ◌≤◌, ◌<◌, ◌+◌, ◌∷◌, [], List, ℕ, length, drop, Bool, Some};
ghost use Rattle.std.specs.Prelude.{IfSome};
ghost use Rattle.std.specs.Option.{option_map};
ghost use Rattle.pcl_lexer.specs.Reader.{command_in, behind_ungrouped, without_group, in_group};
ghost use Rattle.pcl_lexer.specs.Reader.{after_introducer, after_parenthesis, after_escape};
ghost use Rattle.pcl_lexer.specs.Reader.{first_of, behind, by_last_byte, by_last_letter};
ghost use Rattle.pcl_lexer.specs.Reader.{by_other_letter, by_termination, with_data};
ghost use Rattle.pcl_items.specs.Escapes.Commands.{group_at, data_command_at};
ghost use Rattle.pcl_items.specs.Items.{amount, simple_view};
ghost use Rattle.pcl_lexer.specs.Escapes.Ungrouped.{ungrouped_at};
ghost use Rattle.pcl_items.specs.PjlLines.Exit.{exit_field, begins_with};
ghost use Rattle.pcl_lexer.specs.Lexing.Contexts.{Pcl, counted, item_place};
ghost use Rattle.pcl_lexer.specs.Fault.{cause_at_end};
ghost use Rattle.pcl_lexer.specs.Modes.{mode_of};
ghost use Rattle.pcl_lexer.specs.Lexing.FirstView.{context_view, first_view, Within};

use crate::frame::Gap;
use crate::pcl::counting::{count_of, handover_of, is_three};
use crate::pcl::field::{EndedField, FieldEnd, field_end, short_field};
use pcl_items::{
    Command, DataCommand, DataCount, Group, LexCause, Magnitude, Mnemonic, Mode, Motion, Name,
    Number, Place, PlotterCoordinate, SetLetter, Setting, SimpleItem, TextByte, control_at,
    sequence_at,
};

/// The numbers of a command of a frame so far.
#[derive(Clone, Copy)]
pub enum Numbers {
    /// The one of a setting.
    Single(Setting, Magnitude),
    /// A first coordinate, whose second is due.
    Odd(Motion, PlotterCoordinate),
    /// Whole pairs, which are items already.
    Even(Motion),
}

/// What stands before the bytes that are read next.
#[derive(Clone, Copy)]
pub enum Context {
    /// A whole item of mode PCL, or nothing.
    Pcl,
    /// A command of this group that a parameter character ends, so a further one is due.
    Sequence(Group),
    /// Whole commands of a frame.
    Frame,
    /// The letters of a command, which begins so many bytes before.
    Letters(Mnemonic, u64),
    /// Numbers and a gap, where the item begins so many bytes before.
    Numbered(Numbers, Gap, u64),
    /// The universal exit, or a line of mode PJL.
    Pjl,
}

impl Context {
    /// Where the item stands that begins from here, or has begun before: behind whole pairs none
    /// has begun.
    pub fn item_place(self, place: Place) -> Place
        requires { counted (context_view self) ≤ place }
        ensures { result ≡ item_place (context_view self) place }
    {
        match self {
            Context::Letters(_, begun) => place - begun,
            Context::Numbered(Numbers::Single(_, _) | Numbers::Odd(_, _), _, begun) => place
                - begun,
            _ => place,
        }
    }

    /// The mode of the bytes before which this stands.
    pub fn mode(self) -> Mode
        ensures { result ≡ mode_of (context_view self) }
    {
        match self {
            Context::Pcl | Context::Sequence(_) => Mode::Pcl,
            Context::Frame | Context::Letters(_, _) | Context::Numbered(_, _, _) => Mode::Frame,
            Context::Pjl => Mode::Pjl,
        }
    }

    /// What the end of all bytes is, where they decide nothing: no bytes are left, or some.
    pub fn cause_at_end(self, none_left: bool) -> Option<LexCause>
        ensures { result ≡ cause_at_end (context_view self) none_left }
    {
        match self {
            Context::Pcl | Context::Pjl if none_left => None,
            Context::Frame if none_left => Some(LexCause::EndInFrame),
            _ => Some(LexCause::Truncated),
        }
    }
}

/// An item but for its data.
#[derive(Clone, Copy)]
pub enum Head {
    /// A byte of text.
    Text(TextByte),
    /// A control code, or an escape sequence without data.
    Simple(SimpleItem),
    /// A command with so many bytes of data, which end the item.
    WithData(DataCommand, DataCount),
    /// A line of mode PJL. It is read again where its text is lent.
    PjlLine,
}

/// The universal exit, of nine bytes.
pub const EXIT: First = First::Begins(9, Head::Simple(SimpleItem::ExitLanguage), Context::Pjl);

/// What stands first in bytes.
///
/// The length stands before the item, so that no byte of an item lies where a fault has one, and
/// both stay in registers.
#[derive(Clone, Copy)]
pub enum First {
    /// No whole item and no fault.
    Open,
    /// So many bytes of a frame that end no item, and what stands before the bytes after them.
    Passes(usize, Context),
    /// So many bytes spell an item, and what stands before the bytes after them.
    Begins(usize, Head, Context),
    /// A fault, in the stead of an item.
    Faulty(LexCause),
}

/// What stands first between the units of mode PCL.
#[tactic(auto, unfolding(crate::specs::Reader::first_of))]
pub fn first_between(bytes: &[u8]) -> First
    ensures first { (whole : Bool) → first_view bytes.now result ≡ first_of whole Pcl bytes.now }
    ensures within { Within (length bytes.now) result }
{
    match bytes {
        [] => First::Open,
        [code @ 32..=255, ..] => First::Begins(
            1,
            Head::Text(TextByte { code: *code }),
            Context::Pcl,
        ),
        [b'\x1b', rest @ ..] => escaped(rest),
        [byte, ..] => match control_at(*byte) {
            Some(item) => First::Begins(1, Head::Simple(item), Context::Pcl),
            None => First::Faulty(LexCause::NotInProfile(Name::Byte(*byte))),
        },
    }
}

#[tactic(auto, unfolding(crate::specs::Reader::after_escape))]
fn escaped(bytes: &[u8]) -> First
    ensures first { first_view (27 ∷ bytes.now) result ≡ after_escape bytes.now }
    ensures within { Within (1 + length bytes.now) result }
{
    let Some((byte, rest)) = bytes.split_first() else {
        return First::Open;
    };
    match *byte {
        b'&' | b'*' => introduced(*byte, rest),
        b'(' => parenthesized(rest),
        b'%' if begins_exit(rest) => EXIT,
        b'%' => ungrouped(b'%', rest),
        character => match sequence_at(character) {
            Some(item) => First::Begins(2, Head::Simple(item), Context::Pcl),
            None if (33..=126).contains(&character) => {
                First::Faulty(LexCause::NotInProfile(Name::Byte(character)))
            }
            None => First::Faulty(LexCause::Syntax),
        },
    }
}

/// Whether the bytes behind ESC and `%` begin with those of the universal exit.
pub fn begins_exit(bytes: &[u8]) -> bool
    ensures { result ≡ begins_with exit_field bytes.now }
{
    bytes.starts_with(b"-12345X")
}

#[tactic(auto, unfolding(crate::specs::Reader::after_introducer))]
fn introduced(introducer: u8, bytes: &[u8]) -> First
    ensures first { first_view (27 ∷ introducer ∷ bytes.now) result ≡
        after_introducer introducer bytes.now }
    ensures within { Within (2 + length bytes.now) result }
{
    match bytes {
        [] => First::Open,
        [character @ 96..=126, rest @ ..] => grouped(introducer, *character, rest),
        [_, ..] => First::Faulty(LexCause::Syntax),
    }
}

#[tactic(auto, unfolding(crate::specs::Reader::after_parenthesis))]
fn parenthesized(bytes: &[u8]) -> First
    ensures first { first_view (27 ∷ 40 ∷ bytes.now) result ≡ after_parenthesis bytes.now }
    ensures within { Within (2 + length bytes.now) result }
{
    match bytes {
        [] => First::Open,
        [character @ 96..=126, rest @ ..] => grouped(b'(', *character, rest),
        [_, ..] => ungrouped(b'(', bytes),
    }
}

#[inline(always)]
fn grouped(introducer: u8, character: u8, bytes: &[u8]) -> First
    ensures first { first_view (27 ∷ introducer ∷ character ∷ bytes.now) result ≡
        in_group (group_at introducer character) introducer character bytes.now }
    ensures within { Within (3 + length bytes.now) result }
{
    match Group::of(introducer, character) {
        None => First::Faulty(LexCause::NotInProfile(Name::Pair(introducer, character))),
        Some(group) => match command(group, bytes) {
            First::Begins(len, item, next) => First::Begins(3 + len, item, next),
            First::Passes(len, next) => First::Passes(3 + len, next),
            other => other,
        },
    }
}

/// The command of a group that stands first behind the group's characters, or behind a command of
/// the group.
// Inlined with all that it calls: a raster is mostly these.
#[inline(always)]
pub fn command(group: Group, bytes: &[u8]) -> First
    ensures first { first_view bytes.now result ≡ command_in group bytes.now }
    ensures within { Within (length bytes.now) result }
{
    match field_end(bytes) {
        FieldEnd::Open => First::Open,
        FieldEnd::BadNumber => First::Faulty(LexCause::BadNumber),
        FieldEnd::Ended(field) => ended_command(group, field, bytes),
    }
}

/// The command of a group that stands first, if its number is a short one.
#[inline(always)]
pub fn short_command(group: Group, bytes: &[u8]) -> Option<First>
    ensures first { IfSome result (λ first.
        first_view bytes.now first ≡ command_in group bytes.now) }
    ensures within { IfSome result (λ first. Within (length bytes.now) first) }
{
    let field = short_field(bytes)?;
    Some(ended_command(group, field, bytes))
}

/// The command that a byte ends behind its field, with which the bytes begin.
#[inline(always)]
fn ended_command(group: Group, field: EndedField, bytes: &[u8]) -> First
    requires short { field.len ≤ 16 }
    requires within { field.len < length bytes.now }
    ensures first { first_view bytes.now result ≡
        by_last_byte (Some (amount field.number)) group field.len field.last
        (drop (field.len + 1) bytes.now) }
    ensures within { Within (length bytes.now) result }
{
    let len = field.len + 1;
    match field.last {
        96..=126 => other_command(group, field.last - 32, field.number, len),
        64..=94 => last_command(group, field.last, field.number, len, bytes),
        _ => First::Faulty(LexCause::Syntax),
    }
}

/// A command that a parameter character ends: one with data may not.
#[inline(always)]
fn other_command(group: Group, letter: u8, number: Number, len: usize) -> First
    ensures first { (bytes : List ℕ) → first_view bytes result ≡
        by_other_letter (data_command_at group letter) group letter (amount number) len }
    ensures within { Within len result }
{
    match (DataCommand::of(group, letter), Command::of(group, letter)) {
        (Some(_), _) => First::Faulty(LexCause::Syntax),
        (None, None) => First::Faulty(LexCause::NotInProfile(Name::Command(group, letter))),
        (None, Some(command)) => First::Begins(
            len,
            Head::Simple(SimpleItem::Parameterized(command, number)),
            Context::Sequence(group),
        ),
    }
}

/// A command that ends its sequence, with `len` bytes before what follows it.
#[inline(always)]
fn last_command(group: Group, letter: u8, number: Number, len: usize, bytes: &[u8]) -> First
    requires { len ≤ length bytes.now }
    ensures first { first_view bytes.now result ≡
        by_last_letter (data_command_at group letter) group letter (amount number) len
        (drop len bytes.now) }
    ensures within { Within (length bytes.now) result }
{
    match (DataCommand::of(group, letter), Command::of(group, letter)) {
        (Some(command), _) => with_data(command, count_of(number), len, bytes),
        (None, None) => First::Faulty(LexCause::NotInProfile(Name::Command(group, letter))),
        (None, Some(command)) => First::Begins(
            len,
            Head::Simple(SimpleItem::Parameterized(command, number)),
            Context::Pcl,
        ),
    }
}

/// A command of `len` bytes, with its data behind it.
fn with_data(command: DataCommand, count: Option<DataCount>, len: usize, bytes: &[u8]) -> First
    requires { len ≤ length bytes.now }
    ensures first { first_view bytes.now result ≡
        with_data command (option_map (λ c. c.bytes) count) len (drop len bytes.now) }
    ensures within { Within (length bytes.now) result }
{
    match count {
        None => First::Faulty(LexCause::BadNumber),
        Some(count) if bytes.len() - len < usize::from(count.bytes) => First::Open,
        Some(count) => First::Begins(
            len + usize::from(count.bytes),
            Head::WithData(command, count),
            Context::Pcl,
        ),
    }
}

/// The sequence without a group that stands first behind its introducer.
pub fn ungrouped(introducer: u8, bytes: &[u8]) -> First
    ensures first { (all : List ℕ) → first_view all result ≡ without_group introducer bytes.now }
    ensures within { Within (2 + length bytes.now) result }
{
    match field_end(bytes) {
        FieldEnd::Open => First::Open,
        FieldEnd::BadNumber => First::Faulty(LexCause::BadNumber),
        FieldEnd::Ended(field) => ended_ungrouped(introducer, field),
    }
}

/// The sequence without a group that a byte ends behind its field.
fn ended_ungrouped(introducer: u8, field: EndedField) -> First
    requires { field.len ≤ 16 }
    ensures first { (all : List ℕ) → first_view all result ≡
        by_termination (Some (amount field.number)) introducer field.len field.last }
    ensures within { Within (field.len + 3) result }
{
    match field.last {
        64..=94 => match ungrouped_at(introducer, field.number, field.last) {
            Some(item) => First::Begins(field.len + 3, Head::Simple(item), behind_ungrouped(item)),
            None => First::Faulty(LexCause::NotInProfile(Name::Pair(introducer, field.last))),
        },
        _ => First::Faulty(LexCause::Syntax),
    }
}

/// The item of an introducer, a number and a termination character.
fn ungrouped_at(introducer: u8, number: Number, letter: u8) -> Option<SimpleItem>
    ensures { option_map simple_view result ≡ ungrouped_at introducer (amount number) letter }
{
    match (introducer, letter) {
        (b'(', b'A'..=b'W' | b'Y' | b'Z') => {
            Some(SimpleItem::SymbolSet(SetLetter { code: letter }, number))
        }
        (b'(', b'@') if is_three(number) => Some(SimpleItem::DefaultFont),
        (b'%', b'A') => Some(SimpleItem::LeaveFrame(handover_of(number)?)),
        (b'%', b'B') => Some(SimpleItem::EnterFrame(handover_of(number)?)),
        _ => None,
    }
}

/// What stands before the bytes behind such an item.
fn behind_ungrouped(item: SimpleItem) -> Context
    ensures { context_view result ≡ behind_ungrouped (simple_view item) }
{
    match item {
        SimpleItem::EnterFrame(_) => Context::Frame,
        _ => Context::Pcl,
    }
}
