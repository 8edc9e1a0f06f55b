//! The lines of items and of faults.
ghost use Rattle.std.specs.Prelude.{◌≡◌, ◌≤◌, ◌<◌, ◌+◌, ◌%◌, ◌++◌, ◌∷◌, [], OnOk, decimal, drop};
ghost use Rattle.std.specs.Prelude.{length};
ghost use Rattle.pcl_items.specs.Escapes.Commands.{introducer_of, character_of};
ghost use Rattle.pcl_items.specs.Escapes.ValueField.{sign_text};
ghost use Rattle.pcl_items.specs.Items.{Entry, amount, at, view};
ghost use Rattle.line_words.specs.ItemLines.{item_line, fault_line};

use crate::figures::push_escaped;
use crate::words::push_reason;
use itoa::write_digits;
use pcl_items::{Command, Group, Item, LexFault, Number, Place, Sign, SimpleItem};
use pcl_spelling::{spell, spell_amount};
use shown_bytes::push_number;
use std::alloc::{AllocError, Allocator};
use verdict::Reason;

/// Appends the line of an item. `spelling` is room for its spelling, so that none is asked for at
/// each item.
#[inline(always)]
pub fn push_item<A: Allocator, B: Allocator>(
    text: &mut Vec<u8, A>,
    spelling: &mut Vec<u8, B>,
    place: Place,
    item: &Item<'_>,
) -> Result<(), AllocError>
    ensures { OnOk result (text.new.items ≡
        text.old.items ++ item_line (at place (view item.now))) }
{
    if let Item::Simple(SimpleItem::Parameterized(command, number)) = item {
        return push_command(text, place, *command, *number);
    }
    spelling.clear();
    spell(item, spelling)?;
    push_number(text, place)?;
    text.push(b' ')?;
    push_escaped(text, spelling.as_slice())?;
    text.push(b'\n')?;
    Ok(())
}

/// Appends the line of a parameterized command, as most items are. Of its spelling only the escape
/// character shows nothing.
fn push_command<A: Allocator>(
    text: &mut Vec<u8, A>,
    place: Place,
    command: Command,
    number: Number,
) -> Result<(), AllocError>
    ensures { OnOk result (text.new.items ≡
        text.old.items ++ item_line (at place (Entry.Parameterized command (amount number)))) }
{
    if number.is_whole() {
        return push_whole_command(text, place, command, number);
    }
    push_front(text, place, command.group())?;
    spell_amount(number, text)?;
    text.extend_from_slice(&[command.letter(), b'\n'])
}

/// Appends the line of a command whose number is whole, as most are.
fn push_whole_command<A: Allocator>(
    text: &mut Vec<u8, A>,
    place: Place,
    command: Command,
    number: Number,
) -> Result<(), AllocError>
    requires { number.ten_thousandths % 10000 ≡ 0 }
    ensures { OnOk result (text.new.items ≡
        text.old.items ++ item_line (at place (Entry.Parameterized command (amount number)))) }
{
    // In one piece, from its end to its front: a place has up to 20 digits, a number up to 5.
    let mut line = [0; 40];
    line[38] = command.letter();
    line[39] = b'\n';
    let start = write_digits(u64::from(number.whole_part()), &mut line, 38);
    let start = write_sign(number.sign, &mut line, start);
    let group = command.group();
    let (first, second) = (group.introducer(), group.character());
    let front = [b' ', b'\\', b'x', b'1', b'b', first, second];
    let start = write_before(&front, &mut line, start);
    let start = write_digits(place, &mut line, start);
    text.extend_from_slice(&line[start..])
}

/// Writes bytes that end where `end` is, and answers where they begin.
#[inline(always)]
fn write_before(bytes: &[u8], line: &mut [u8], end: usize) -> usize
    requires { (length bytes.now ≤ end) × (end ≤ length line.old) }
    ensures start { result + length bytes.now ≡ end }
    ensures written { drop result line.new ≡ bytes.now ++ drop end line.old }
    ensures len { length line.new ≡ length line.old }
{
    let start = end - bytes.len();
    line[start..end].copy_from_slice(bytes);
    start
}

/// Writes a sign, where there is one, so that it ends where `end` is, and answers where it begins.
fn write_sign(sign: Sign, line: &mut [u8], end: usize) -> usize
    requires { (0 < end) × (end ≤ length line.old) }
    ensures start { result + length (sign_text sign) ≡ end }
    ensures written { drop result line.new ≡ sign_text sign ++ drop end line.old }
    ensures len { length line.new ≡ length line.old }
{
    let byte = match sign {
        Sign::Absent => return end,
        Sign::Plus => b'+',
        Sign::Minus => b'-',
    };
    line[end - 1] = byte;
    end - 1
}

/// Appends a place, and behind a space what begins a command of a group: the escape character by
/// its digits, and two characters.
fn push_front<A: Allocator>(
    text: &mut Vec<u8, A>,
    place: Place,
    group: Group,
) -> Result<(), AllocError>
    ensures { OnOk result (text.new.items ≡ text.old.items ++ (decimal place
        ++ 32 ∷ 92 ∷ 120 ∷ 49 ∷ 98 ∷ introducer_of group ∷ character_of group ∷ [])) }
{
    // In one piece, since most lines of a list begin so; the digits end where the space stands.
    let mut front = *b"00000000000000000000 \\x1b&a";
    front[25] = group.introducer();
    front[26] = group.character();
    let start = write_digits(place, &mut front, 20);
    text.extend_from_slice(&front[start..])
}

/// Appends the line of a fault.
pub fn push_fault<A: Allocator>(text: &mut Vec<u8, A>, fault: LexFault) -> Result<(), AllocError>
    ensures { OnOk result (text.new.items ≡ text.old.items ++ fault_line fault.place fault.cause) }
{
    push_number(text, fault.place)?;
    text.extend_from_slice(b" FAULT ")?;
    push_reason(text, Reason::Fault(fault.cause))?;
    text.extend_from_slice(b"\n")
}
