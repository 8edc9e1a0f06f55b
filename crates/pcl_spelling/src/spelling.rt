//! The one spelling of each item, written and read again.

ghost use Rattle.std.specs.Prelude.{◌≡◌, ◌≤◌, ◌+◌, ◌-◌, ◌%◌, List, ◌++◌, ◌∷◌, [], ℕ, take, length};
ghost use Rattle.std.specs.Prelude.{decimal, IfSome, MatchOption, OnOk, OnErr};
ghost use Rattle.std.specs.Fmt.{signed_decimal};
ghost use Rattle.arrayvec.specs.ArrayVec.{array_vec_len};
ghost use Rattle.pcl_items.specs.declared.item.Mode.TheVariants.{Pcl, Frame, Pjl};
ghost use Rattle.pcl_items.specs.Items.{Entry, view, simple_view, amount, pair};
ghost use Rattle.pcl_items.specs.PjlLines.Text.{BeginsPjl};
ghost use Rattle.pcl_items.specs.PjlLines.View.{pjl_view};
ghost use Rattle.pcl_items.specs.PjlLines.Canon.{behind_space, canon_pjl};
ghost use Rattle.pcl_items.specs.Spellings.Canon.{canon, IsNoPjl, data_of, amount_text};
ghost use Rattle.pcl_items.specs.Frames.Mnemonics.{letters_of};
ghost use Rattle.pcl_items.specs.Escapes.ValueField.{sign_text};
ghost use Rattle.pcl_spelling.specs.Spellings.Spelled.{StandsAt, NothingStands, IsSpelled};
ghost use Rattle.shown_bytes.specs.Decimals.{four_decimals, magnitude_text, with_point};
ghost use Rattle.shown_bytes.specs.Decimals.{without_zeros};

use arrayvec::ArrayVec;
use itoa::Buffer;
use pcl_items::{
    Command, Coordinates, DataCommand, Handover, Item, Magnitude, Mnemonic, Mode, Motion, Number,
    PjlCommand, PjlLine, PlotterCoordinate, SetLetter, Setting, Sign, SimpleItem,
};
use pcl_lexer::{
    Context, First, FirstPjl, MOST_IN_PJL_LINE, at_pjl, begins_pjl, byte_in, first_between,
    next_ahead, parameterized_in, with_its_data,
};
use shown_bytes::{point_and_decimals, shown_decimals};
use std::alloc::{AllocError, Allocator};

/// The most bytes of a spelling but for data: two letters, two coordinates, a comma and a
/// semicolon.
const LONGEST: usize = 26;

/// No spelling of an item of a frame has more bytes.
const MOST_IN_FRAME: usize = 64;

/// A spelling but for the data that end it.
type HeadText = ArrayVec<u8, LONGEST>;

/// The spelling of a line.
type PjlText = ArrayVec<u8, MOST_IN_PJL_LINE>;

/// Appends bytes that have room.
fn append<const ROOM: usize>(text: &mut ArrayVec<u8, ROOM>, bytes: &[u8])
    requires { array_vec_len text.old + length bytes.now ≤ ROOM }
    ensures text { text.new.items ≡ text.old.items ++ bytes.now }
    ensures len { array_vec_len text.new ≡ array_vec_len text.old + length bytes.now }
{
    let Ok(()) = text.try_extend_from_slice(bytes) else {
        unreachable!()
    };
}

/// Appends a point and the decimals of a number, where it has some.
#[tactic(auto, using(crate::proofs::Escapes::WholeNumbers::no_decimals))]
fn append_decimals(text: &mut HeadText, n: u32)
    requires { array_vec_len text.old ≤ 21 }
    ensures text { text.new.items ≡ text.old.items ++ with_point (without_zeros (four_decimals n)) }
    ensures len { array_vec_len text.new ≤ array_vec_len text.old + 5 }
{
    // Most numbers are whole.
    if n % 10_000 == 0 {
        return;
    }
    append(text, shown_decimals(&point_and_decimals(n as u64)));
}

/// Appends a whole number.
#[tactic(auto, using(std::proofs::lemmas::Fmt::decimal_digit))]
fn append_whole(text: &mut HeadText, n: u32)
    requires { array_vec_len text.old ≤ 16 }
    ensures text { text.new.items ≡ text.old.items ++ decimal n }
    ensures len { array_vec_len text.new ≤ array_vec_len text.old + 10 }
{
    // A number of one digit, as most are, needs no division.
    if n < 10 {
        text.push(b'0' + n as u8);
        return;
    }
    let mut digits = Buffer::new();
    append(text, digits.format(n).as_bytes());
}

/// Appends a sign, where there is one.
fn append_sign(text: &mut HeadText, sign: Sign)
    requires { array_vec_len text.old ≤ 10 }
    ensures text { text.new.items ≡ text.old.items ++ sign_text sign }
    ensures len { array_vec_len text.new ≤ array_vec_len text.old + 1 }
{
    match sign {
        Sign::Absent => {}
        Sign::Plus => text.push(b'+'),
        Sign::Minus => text.push(b'-'),
    }
}

/// Appends a number: its sign, its whole part, and its decimals.
fn append_number(text: &mut HeadText, n: Number)
    requires { array_vec_len text.old ≤ 3 }
    ensures text { text.new.items ≡ text.old.items ++ amount_text (amount n) }
    ensures len { array_vec_len text.new ≤ array_vec_len text.old + 16 }
{
    append_sign(text, n.sign);
    append_magnitude(text, n.ten_thousandths);
}

/// Appends a number that has no sign: its whole part, and its decimals.
fn append_magnitude(text: &mut HeadText, n: u32)
    requires { array_vec_len text.old ≤ 4 }
    ensures text { text.new.items ≡ text.old.items ++ magnitude_text n }
    ensures len { array_vec_len text.new ≤ array_vec_len text.old + 15 }
{
    append_whole(text, n / 10_000);
    append_decimals(text, n);
}

/// Appends a coordinate.
fn append_coordinate(text: &mut HeadText, x: PlotterCoordinate)
    requires { array_vec_len text.old ≤ 14 }
    ensures text { text.new.items ≡ text.old.items ++ signed_decimal x.units }
    ensures len { array_vec_len text.new ≤ array_vec_len text.old + 11 }
{
    let mut digits = Buffer::new();
    append(text, digits.format(x.units).as_bytes());
}

/// Appends a command with its number.
fn append_command(text: &mut HeadText, command: Command, n: Number)
    requires { array_vec_len text.old ≡ 0 }
    ensures { text.new.items ≡ text.old.items ++ canon (Entry.Parameterized command (amount n)) }
{
    let group = command.group();
    append(text, &[b'\x1b', group.introducer(), group.character()]);
    append_number(text, n);
    text.push(command.letter());
}

/// Appends the two letters of a command of a frame.
fn append_letters(text: &mut HeadText, mnemonic: Mnemonic)
    requires { array_vec_len text.old ≡ 0 }
    ensures text { text.new.items ≡ text.old.items ++ (letters_of mnemonic).0
        ∷ (letters_of mnemonic).1 ∷ [] }
    ensures len { array_vec_len text.new ≡ 2 }
{
    let (first, second) = mnemonic.letters();
    append(text, &[first, second]);
}

/// Appends a command of a frame with its number.
fn append_setting(text: &mut HeadText, setting: Setting, magnitude: Magnitude)
    requires { array_vec_len text.old ≡ 0 }
    ensures { text.new.items ≡ text.old.items
        ++ canon (Entry.Set setting magnitude.ten_thousandths) }
{
    append_letters(text, Mnemonic::Sets(setting));
    append_magnitude(text, magnitude.ten_thousandths);
    text.push(b';');
}

/// Appends a command of a frame with a pair of coordinates, or none.
fn append_motion(text: &mut HeadText, motion: Motion, to: Option<Coordinates>)
    requires { array_vec_len text.old ≡ 0 }
    ensures { text.new.items ≡ text.old.items ++ canon (Entry.Move motion (pair to)) }
{
    append_letters(text, Mnemonic::Moves(motion));
    if let Some(place) = to {
        append_coordinate(text, place.x);
        text.push(b',');
        append_coordinate(text, place.y);
    }
    text.push(b';');
}

/// Appends a symbol set with its number.
fn append_symbol_set(text: &mut HeadText, letter: SetLetter, n: Number)
    requires { array_vec_len text.old ≡ 0 }
    ensures { text.new.items ≡ text.old.items ++ canon (Entry.SymbolSet (amount n) letter.code) }
{
    append(text, b"\x1b(");
    append_number(text, n);
    text.push(letter.code);
}

/// Appends an item that has no data.
fn append_simple(text: &mut HeadText, item: &SimpleItem)
    requires { array_vec_len text.old ≡ 0 }
    ensures { text.new.items ≡ text.old.items ++ canon (simple_view item.now) }
{
    match item {
        SimpleItem::CarriageReturn => append(text, b"\r"),
        SimpleItem::LineFeed => append(text, b"\n"),
        SimpleItem::FormFeed => append(text, b"\x0c"),
        SimpleItem::Reset => append(text, b"\x1bE"),
        SimpleItem::ClearMargins => append(text, b"\x1b9"),
        SimpleItem::HalfLineFeed => append(text, b"\x1b="),
        SimpleItem::Parameterized(command, n) => append_command(text, *command, *n),
        SimpleItem::SymbolSet(letter, n) => append_symbol_set(text, *letter, *n),
        SimpleItem::DefaultFont => append(text, b"\x1b(3@"),
        SimpleItem::EnterFrame(Handover::Previous) => append(text, b"\x1b%0B"),
        SimpleItem::EnterFrame(Handover::Current) => append(text, b"\x1b%1B"),
        SimpleItem::LeaveFrame(Handover::Previous) => append(text, b"\x1b%0A"),
        SimpleItem::LeaveFrame(Handover::Current) => append(text, b"\x1b%1A"),
        SimpleItem::Initialize => append(text, b"IN;"),
        SimpleItem::Set(setting, magnitude) => append_setting(text, *setting, *magnitude),
        SimpleItem::Move(motion, to) => append_motion(text, *motion, *to),
        SimpleItem::ExitLanguage => append(text, b"\x1b%-12345X"),
    }
}

/// The spelling of an item that has no data.
fn simple_text(item: &SimpleItem) -> HeadText
    ensures { result.items ≡ canon (simple_view item.now) }
{
    let mut text = ArrayVec::new();
    append_simple(&mut text, item);
    text
}

/// A command with the count of its data, which are to follow.
fn counting_text(command: DataCommand, count: u16) -> HeadText
    ensures { (bytes : List ℕ) → length bytes ≡ count →
        result.items ++ bytes ≡ canon (Entry.WithData command bytes) }
{
    let group = command.group();
    let mut text = ArrayVec::new();
    append(&mut text, &[b'\x1b', group.introducer(), group.character()]);
    append_whole(&mut text, u32::from(count));
    text.push(command.letter());
    text
}

/// A byte of text.
fn byte_text(code: u8) -> HeadText
    ensures { result.items ≡ code ∷ [] }
{
    let mut text = ArrayVec::new();
    text.push(code);
    text
}

/// The spelling of an item that is no line, but for its data.
fn head_text(item: &Item<'_>) -> HeadText
    requires { IsNoPjl (view item.now) }
    ensures { result.items ++ data_of (view item.now) ≡ canon (view item.now) }
{
    match item {
        Item::Text(byte) => byte_text(byte.code),
        Item::Simple(item) => simple_text(item),
        Item::WithData(command, data) => counting_text(*command, data.bytes.len() as u16),
        Item::PjlLine(_) => unreachable!(),
    }
}

/// The data of an item, none for one that has no data.
fn data_of<'a>(item: &Item<'a>) -> &'a [u8]
    ensures data { result.now ≡ data_of (view item.now) }
    ensures short { length result.now ≤ 32767 }
{
    match item {
        Item::Text(_) => &[],
        Item::Simple(_) => &[],
        Item::WithData(_, data) => data.bytes,
        Item::PjlLine(_) => &[],
    }
}

/// What stands in front of a line in its spelling, up to its word, and the text behind the word.
fn pjl_parts<'a>(spelled: &PjlLine<'a>) -> (&'static [u8], &'a [u8])
    ensures text { canon_pjl (pjl_view spelled.now.command) ≡
        result.0.now ++ (behind_space result.1.now ++ 10 ∷ []) }
    ensures room { length result.0.now + length result.1.now + 2 ≤ 1024 }
{
    match spelled.command {
        PjlCommand::Bare => (b"@PJL", &[]),
        PjlCommand::Remark(text) => (b"@PJL COMMENT", text),
        PjlCommand::JobBegins(text) => (b"@PJL JOB", text),
        PjlCommand::JobEnds(text) => (b"@PJL EOJ", text),
        PjlCommand::EnterPcl => (b"@PJL ENTER LANGUAGE=PCL", &[]),
    }
}

/// The spelling of a line.
fn pjl_text(spelled: &PjlLine<'_>) -> PjlText
    ensures { result.items ≡ canon_pjl (pjl_view spelled.now.command) }
{
    let (front, text) = pjl_parts(spelled);
    let mut all = ArrayVec::new();
    append(&mut all, front);
    if !text.is_empty() {
        all.push(b' ');
        append(&mut all, text);
    }
    all.push(b'\n');
    all
}

/// Appends the spelling of a command with its data.
fn spell_with_data<A: Allocator>(
    command: DataCommand,
    data: &[u8],
    bytes: &mut Vec<u8, A>,
) -> Result<(), AllocError>
    requires { length «data».now ≤ 32767 }
    ensures ok { OnOk result (bytes.new.items ≡
        bytes.old.items ++ canon (Entry.WithData command «data».now)) }
    ensures err { OnErr result (bytes.new.items ≡ bytes.old.items) }
{
    let head = counting_text(command, data.len() as u16);
    // There is room for both before the first is appended, so that no part of a spelling is left
    // behind.
    bytes.reserve(head.len() + data.len())?;
    bytes.extend_from_slice(&head)?;
    bytes.extend_from_slice(data)
}

/// Appends the spelling of an item.
///
/// An error means that memory was refused; the bytes then stand as before.
pub fn spell<A: Allocator>(item: &Item<'_>, bytes: &mut Vec<u8, A>) -> Result<(), AllocError>
    ensures ok { OnOk result (bytes.new.items ≡ bytes.old.items ++ canon (view item.now)) }
    ensures err { OnErr result (bytes.new.items ≡ bytes.old.items) }
{
    match item {
        Item::Text(byte) => {
            bytes.push(byte.code)?;
            Ok(())
        }
        Item::Simple(item) => bytes.extend_from_slice(&simple_text(item)),
        Item::WithData(command, data) => spell_with_data(*command, data.bytes, bytes),
        Item::PjlLine(spelled) => bytes.extend_from_slice(&pjl_text(spelled)),
    }
}

/// Appends a number: its sign, its whole part, and its decimals.
///
/// An error means that memory was refused; the bytes then stand as before.
pub fn spell_amount<A: Allocator>(n: Number, bytes: &mut Vec<u8, A>) -> Result<(), AllocError>
    ensures ok { OnOk result (bytes.new.items ≡ bytes.old.items ++ amount_text (amount n)) }
    ensures err { OnErr result (bytes.new.items ≡ bytes.old.items) }
{
    let mut text = ArrayVec::new();
    append_number(&mut text, n);
    bytes.extend_from_slice(&text)
}

/// Appends so many ten-thousandths, as a number that has no sign.
///
/// An error means that memory was refused; the bytes then stand as before.
pub fn spell_magnitude<A: Allocator>(n: u32, bytes: &mut Vec<u8, A>) -> Result<(), AllocError>
    ensures ok { OnOk result (bytes.new.items ≡ bytes.old.items ++ magnitude_text n) }
    ensures err { OnErr result (bytes.new.items ≡ bytes.old.items) }
{
    let mut text = ArrayVec::new();
    append_magnitude(&mut text, n);
    bytes.extend_from_slice(&text)
}

/// The number of bytes of the spelling of an item.
pub fn spelled_len(item: &Item<'_>) -> u64
    ensures len { result ≡ length (canon (view item.now)) }
    ensures short { result ≤ 65536 }
{
    match item {
        Item::PjlLine(spelled) => pjl_text(spelled).len() as u64,
        _ => (head_text(item).len() + data_of(item).len()) as u64,
    }
}

/// The item whose spelling stands first in bytes of mode PCL, how many bytes it takes, and the mode
/// behind it.
fn first_item(bytes: &[u8]) -> Option<(Item<'_>, usize, Mode)>
    ensures { MatchOption result (NothingStands Pcl bytes.now 0)
        (λ found. StandsAt Pcl bytes.now 0 (view found.0) found.1 found.2) }
{
    // A byte that is an item by itself has no other spelling.
    if let Some(item) = byte_in(bytes) {
        return Some((item, 1, Mode::Pcl));
    }
    let First::Begins(len, head, next) = first_between(bytes) else {
        return None;
    };
    let item = with_its_data(head, len, bytes);
    let text = head_text(&item);
    // A number is read from each of its spellings, and only one of them is the item's.
    if &bytes[..len - data_of(&item).len()] == text.as_slice() {
        Some((item, len, next.mode()))
    } else {
        None
    }
}

/// The item whose spelling stands first in bytes of a frame, how many bytes it takes, and the mode
/// behind it.
fn first_of_frame(bytes: &[u8]) -> Option<(Item<'_>, usize, Mode)>
    ensures { MatchOption result (NothingStands Frame bytes.now 0)
        (λ found. StandsAt Frame bytes.now 0 (view found.0) found.1 found.2) }
{
    let front = &bytes[..bytes.len().min(MOST_IN_FRAME)];
    let ahead = next_ahead(true, Context::Frame, 0, front);
    let First::Begins(len, head, next) = ahead.first else {
        return None;
    };
    let item = with_its_data(head, len, &front[ahead.start..]);
    let text = head_text(&item);
    if bytes.starts_with(text.as_slice()) {
        Some((item, text.len(), next.mode()))
    } else {
        None
    }
}

/// The line whose spelling stands first in bytes that begin with `@`, as an item of mode PJL, how
/// many bytes it takes, and the mode behind it.
fn first_spelled_pjl(bytes: &[u8]) -> Option<(Item<'_>, usize, Mode)>
    requires { BeginsPjl bytes.now }
    ensures { MatchOption result (NothingStands Pjl bytes.now 0)
        (λ found. StandsAt Pjl bytes.now 0 (view found.0) found.1 found.2) }
{
    let FirstPjl::Begins(spelled, _) = at_pjl(bytes) else {
        return None;
    };
    let spelling = pjl_text(&spelled);
    if bytes.starts_with(spelling.as_slice()) {
        Some((
            Item::PjlLine(spelled),
            spelling.len(),
            spelled.command.mode_behind(),
        ))
    } else {
        None
    }
}

/// The item whose spelling stands first in bytes of mode PJL, how many bytes it takes, and the mode
/// behind it.
fn first_in_pjl(bytes: &[u8]) -> Option<(Item<'_>, usize, Mode)>
    ensures { MatchOption result (NothingStands Pjl bytes.now 0)
        (λ found. StandsAt Pjl bytes.now 0 (view found.0) found.1 found.2) }
{
    if begins_pjl(bytes) {
        first_spelled_pjl(bytes)
    } else {
        first_item(bytes)
    }
}

/// The command that stands first in bytes of mode PCL that are the spellings of items, and how many
/// bytes it takes. It may always answer none, as it does where no command stands, or one of rows.
#[inline(always)]
pub fn first_spelled_command(bytes: &[u8]) -> Option<(SimpleItem, usize)>
    requires { IsSpelled Pcl bytes.now }
    ensures { IfSome result (λ found. StandsAt Pcl bytes.now 0 (simple_view found.0) found.1 Pcl) }
{
    let read = parameterized_in(Context::Pcl, bytes)?;
    Some((
        SimpleItem::Parameterized(read.command, read.number),
        read.len,
    ))
}

/// The first item of bytes of mode PCL that are the spellings of items.
fn first_spelled_between(bytes: &[u8]) -> Option<(Item<'_>, usize, Mode)>
    requires { IsSpelled Pcl bytes.now }
    ensures { MatchOption result (NothingStands Pcl bytes.now 0)
        (λ found. StandsAt Pcl bytes.now 0 (view found.0) found.1 found.2) }
{
    if let Some(item) = byte_in(bytes) {
        return Some((item, 1, Mode::Pcl));
    }
    if let Some((item, len)) = first_spelled_command(bytes) {
        return Some((Item::Simple(item), len, Mode::Pcl));
    }
    let First::Begins(len, head, next) = first_between(bytes) else {
        return None;
    };
    Some((with_its_data(head, len, bytes), len, next.mode()))
}

/// The first item of bytes that are the spellings of items from a mode on, how many bytes it takes,
/// and the mode behind it; none where no item is left.
///
/// Unlike `item_at` it compares nothing in mode PCL: the bytes are known to be spellings.
pub fn first_spelled(bytes: &[u8], mode: Mode) -> Option<(Item<'_>, usize, Mode)>
    requires { IsSpelled mode bytes.now }
    ensures { MatchOption result (NothingStands mode bytes.now 0)
        (λ found. StandsAt mode bytes.now 0 (view found.0) found.1 found.2) }
{
    match mode {
        Mode::Pcl => first_spelled_between(bytes),
        Mode::Frame => first_of_frame(bytes),
        Mode::Pjl => first_in_pjl(bytes),
    }
}

/// The item whose spelling stands first in bytes of a mode, how many bytes it takes, and the mode
/// behind it.
fn first_of_mode(bytes: &[u8], mode: Mode) -> Option<(Item<'_>, usize, Mode)>
    ensures { MatchOption result (NothingStands mode bytes.now 0)
        (λ found. StandsAt mode bytes.now 0 (view found.0) found.1 found.2) }
{
    match mode {
        Mode::Pcl => first_item(bytes),
        Mode::Frame => first_of_frame(bytes),
        Mode::Pjl => first_in_pjl(bytes),
    }
}

/// The item whose spelling stands at a place of the bytes, the place behind it, and the mode there.
///
/// None means that no item that the mode admits has its spelling there. It is the library's surface
/// for other programs, whose bytes may be no spellings.
pub fn item_at(bytes: &[u8], at: usize, mode: Mode) -> Option<(Item<'_>, usize, Mode)>
    requires { at ≤ length bytes.now }
    ensures { MatchOption result (NothingStands mode bytes.now at)
        (λ found. StandsAt mode bytes.now at (view found.0) found.1 found.2) }
{
    match first_of_mode(&bytes[at..], mode) {
        None => None,
        Some((item, len, next)) => Some((item, at + len, next)),
    }
}
