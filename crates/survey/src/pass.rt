//! What of a refused command is passed over, byte by byte.

ghost use Rattle.std.specs.Prelude.{◌≡◌, ◌<◌, ◌^◌};
ghost use Rattle.pcl_items.specs.PjlLines.Text.{is_blank};
ghost use Rattle.survey.specs.Passing.{
  back,
  behind_count,
  behind_escape,
  behind_inner,
  behind_last,
  behind_letters,
  behind_line,
  behind_parameter,
  behind_ungrouped,
  breaks,
  count_on,
  data_of,
  ends,
  goes_on,
  in_character,
  in_data,
  in_grouped,
  in_inner,
  in_label,
  in_line,
  in_foreign,
  in_numbers,
  in_packed,
  in_quoted,
  in_ungrouped,
  introduced,
  is_field_byte,
  leaves,
  line_matched,
  may_have_blanks,
  passed,
  passes_to,
  told_of,
  with_digit,
  word_byte,
};

use crate::data_commands::has_data;
use crate::named_line::{NamedLine, byte_at};
use crate::part::{Count, Home, Onto, Part, Passing, Turn};
use crate::refusal::{Refusal, Spelled};
use pcl_items::{Group, Place, capital};
use pcl_lexer::Kind;

/// The most bytes of data that a number counts.
const MOST_DATA: u32 = 32_767;

/// How many bytes the words are that enter a language, and those that enter PCL.
const ENTER_LEN: u8 = 18;

const ENTER_PCL_LEN: u8 = 22;

/// What stands for a line that enters another language, and for one that enters none.
const ENTERS_OTHER: u8 = 23;

const ENTERS_NONE: u8 = 24;

/// How many bytes the universal exit is, with which a language ends.
const EXIT_LEN: u8 = 9;

/// What a byte is, behind so many others, of the refused bytes that stand next.
pub fn pass(part: Part, place: Place, byte: u8) -> Turn
    requires { place < 2 ^ 62 }
    ensures { result ≡ passed part place byte }
{
    match part {
        Part::Escape(passing) => behind_escape(passing, byte),
        Part::Introduced(passing, introducer) => introduced(passing, introducer, byte),
        Part::Grouped(passing, introducer, group, count) => {
            in_grouped(passing, introducer, group, count, place, byte)
        }
        Part::Ungrouped(passing, introducer) => in_ungrouped(passing, introducer, byte),
        Part::Data(home, bytes) => in_data(home, bytes),
        Part::Inner(passing, introducer, group, bytes) => {
            in_inner(passing, introducer, group, bytes, place)
        }
        Part::Second(first, second) => goes_on(behind_letters(first, second)),
        Part::Numbers => in_numbers(byte),
        Part::Quoted => in_quoted(byte),
        Part::Character => in_character(byte),
        Part::Label => in_label(byte),
        Part::Packed => in_packed(byte),
        Part::Line(passing, matched, line) => in_line(passing, matched, line, byte),
        Part::Foreign(matched) => in_foreign(matched, byte),
    }
}

// ---- turns

/// A byte is passed over, and then this part.
pub(crate) fn goes_on(part: Part) -> Turn
    ensures { result ≡ goes_on part }
{
    passes_to(Onto::Part(part))
}

/// A byte is passed over, with which nothing that is told ends.
fn passes_to(onto: Onto) -> Turn
    ensures { result ≡ passes_to onto }
{
    Turn {
        is_taken: true,
        told: None,
        onto,
    }
}

/// The byte is none of what is passed over.
fn leaves(onto: Onto) -> Turn
    ensures { result ≡ leaves onto }
{
    Turn {
        is_taken: false,
        told: None,
        onto,
    }
}

/// With the byte that ends which is spelled so.
pub(crate) fn ends(passing: Passing, spelled: Spelled, onto: Onto) -> Turn
    ensures { result ≡ ends passing spelled onto }
{
    Turn {
        is_taken: true,
        told: Some(told_of(passing, spelled)),
        onto,
    }
}

/// The byte is no part of the escape sequence, and that has no end.
fn breaks(passing: Passing) -> Turn
    ensures { result ≡ breaks passing }
{
    Turn {
        is_taken: false,
        told: Some(told_of(passing, Spelled::Unended)),
        onto: back(passing.home),
    }
}

/// What is told of a command at its end.
pub(crate) fn told_of(passing: Passing, spelled: Spelled) -> Refusal
    ensures { result ≡ told_of passing spelled }
{
    Refusal {
        cause: passing.cause,
        spelled,
        place: passing.begun,
    }
}

/// Where reading begins again behind an escape sequence.
fn back(home: Home) -> Onto
    ensures { result ≡ back home }
{
    match home {
        Home::Page => Onto::Page,
        Home::Frame => Onto::Frame,
    }
}

// ---- escape sequences

/// What stands behind ESC: an introducer, or the character of a sequence of two.
fn behind_escape(passing: Passing, byte: u8) -> Turn
    ensures { result ≡ behind_escape passing byte }
{
    match byte {
        33..=47 => goes_on(Part::Introduced(passing, byte)),
        48..=126 => ends(passing, Spelled::Sequence(byte), back(passing.home)),
        _ => breaks(passing),
    }
}

/// What stands behind an introducer: a group character, or a value field without one.
fn introduced(passing: Passing, introducer: u8, byte: u8) -> Turn
    ensures { result ≡ introduced passing introducer byte }
{
    match byte {
        96..=126 => goes_on(Part::Grouped(passing, introducer, byte, Count::none())),
        _ => in_ungrouped(passing, introducer, byte),
    }
}

/// A byte of a value field without a group character, or what ends it.
fn in_ungrouped(passing: Passing, introducer: u8, byte: u8) -> Turn
    ensures { result ≡ in_ungrouped passing introducer byte }
{
    if is_field_byte(byte) {
        return goes_on(Part::Ungrouped(passing, introducer));
    }
    match byte {
        64..=94 => {
            let onto = behind_ungrouped(passing.home, introducer, byte);
            ends(passing, Spelled::Ungrouped(introducer, byte), onto)
        }
        _ => breaks(passing),
    }
}

/// Where it goes on behind a sequence without a group: `%#A` leads to mode PCL, and `%#B` into a
/// frame.
fn behind_ungrouped(home: Home, introducer: u8, letter: u8) -> Onto
    ensures { result ≡ behind_ungrouped home introducer letter }
{
    match (introducer, letter) {
        (b'%', b'A') => Onto::Page,
        (b'%', b'B') => Onto::Frame,
        _ => back(home),
    }
}

/// A byte of a value field, or what ends it, behind so many bytes.
fn in_grouped(
    passing: Passing,
    introducer: u8,
    group: u8,
    count: Count,
    place: Place,
    byte: u8,
) -> Turn
    requires { place < 2 ^ 62 }
    ensures { result ≡ in_grouped passing introducer group count place byte }
{
    if is_field_byte(byte) {
        let count = count_on(count, byte);
        return goes_on(Part::Grouped(passing, introducer, group, count));
    }
    match byte {
        96..=126 => {
            let letter = byte - 32;
            let bytes = data_of(introducer, group, letter, count);
            let onto = behind_inner(passing, introducer, group, bytes, place);
            ends(passing, Spelled::Grouped(introducer, group, letter), onto)
        }
        64..=94 => {
            let onto = behind_last(passing.home, introducer, group, byte, count);
            ends(passing, Spelled::Grouped(introducer, group, byte), onto)
        }
        _ => breaks(passing),
    }
}

/// Where a combined sequence goes on behind a parameter character with so many bytes before it: it
/// is read again where the language has its group.
fn behind_parameter(passing: Passing, introducer: u8, group: u8, place: Place) -> Onto
    requires { place < 2 ^ 62 }
    ensures { result ≡ behind_parameter passing introducer group place }
{
    let next = Passing {
        begun: place + 1,
        ..passing
    };
    let part = Part::Grouped(next, introducer, group, Count::none());
    match (passing.home, Group::of(introducer, group)) {
        (Home::Page, Some(group)) => Onto::Group(group),
        _ => Onto::Part(part),
    }
}

/// How many bytes of data stand behind a command.
fn data_of(introducer: u8, group: u8, letter: u8, count: Count) -> u16
    ensures { result ≡ data_of introducer group letter count }
{
    if has_data(introducer, group, letter) {
        count.bytes
    } else {
        0
    }
}

/// Where a combined sequence goes on behind a command that is not its last: at its data, where so
/// many bytes of them are left.
fn behind_inner(passing: Passing, introducer: u8, group: u8, bytes: u16, place: Place) -> Onto
    requires { place < 2 ^ 62 }
    ensures { result ≡ behind_inner passing introducer group bytes place }
{
    if bytes == 0 {
        behind_parameter(passing, introducer, group, place)
    } else {
        Onto::Part(Part::Inner(passing, introducer, group, bytes))
    }
}

fn in_inner(passing: Passing, introducer: u8, group: u8, bytes: u16, place: Place) -> Turn
    requires { place < 2 ^ 62 }
    ensures { result ≡ in_inner passing introducer group bytes place }
{
    let left = bytes.saturating_sub(1);
    passes_to(behind_inner(passing, introducer, group, left, place))
}

/// Where it goes on behind the last command of a sequence: at its data, where it has any.
fn behind_last(home: Home, introducer: u8, group: u8, letter: u8, count: Count) -> Onto
    ensures { result ≡ behind_last home introducer group letter count }
{
    if has_data(introducer, group, letter) {
        behind_count(home, count.bytes)
    } else {
        back(home)
    }
}

/// So many bytes of data, or what stands behind them.
fn behind_count(home: Home, bytes: u16) -> Onto
    ensures { result ≡ behind_count home bytes }
{
    if bytes == 0 {
        back(home)
    } else {
        Onto::Part(Part::Data(home, bytes))
    }
}

fn in_data(home: Home, bytes: u16) -> Turn
    ensures { result ≡ in_data home bytes }
{
    passes_to(behind_count(home, bytes.saturating_sub(1)))
}

// ---- value fields

fn is_field_byte(byte: u8) -> bool
    ensures { result ≡ is_field_byte byte }
{
    match byte {
        b'0'..=b'9' | b'+' | b'-' | b'.' => true,
        _ => false,
    }
}

/// The count with a further byte of the field.
fn count_on(count: Count, byte: u8) -> Count
    ensures { result ≡ count_on count byte }
{
    match byte {
        b'-' | b'.' => Count {
            is_over: true,
            ..count
        },
        b'0'..=b'9' if !count.is_over => Count {
            bytes: with_digit(count.bytes, byte - b'0'),
            is_over: false,
        },
        _ => count,
    }
}

/// The number with a further digit, or the most that it may be.
fn with_digit(number: u16, digit: u8) -> u16
    ensures { result ≡ with_digit number digit }
{
    let longer = u32::from(number) * 10 + u32::from(digit);
    if longer <= MOST_DATA {
        longer as u16
    } else {
        MOST_DATA as u16
    }
}

// ---- instructions of HP-GL/2

/// What stands behind the letters of an instruction.
fn behind_letters(first: u8, second: u8) -> Part
    ensures { result ≡ behind_letters first second }
{
    match (first, second) {
        (b'B', b'L') | (b'L', b'B') => Part::Label,
        (b'P', b'E') => Part::Packed,
        (b'D', b'T') | (b'S', b'M') => Part::Character,
        _ => Part::Numbers,
    }
}

/// What of the numbers of an instruction is passed over: all up to its end, which is read again.
fn in_numbers(byte: u8) -> Turn
    ensures { result ≡ in_numbers byte }
{
    match Kind::of(byte) {
        Kind::Letter | Kind::Semicolon | Kind::Escape => leaves(Onto::Frame),
        _ if byte == b'"' => goes_on(Part::Quoted),
        _ => goes_on(Part::Numbers),
    }
}

fn in_quoted(byte: u8) -> Turn
    ensures { result ≡ in_quoted byte }
{
    match byte {
        b'"' => goes_on(Part::Numbers),
        b'\x1b' => leaves(Onto::Frame),
        _ => goes_on(Part::Quoted),
    }
}

fn in_character(byte: u8) -> Turn
    ensures { result ≡ in_character byte }
{
    match byte {
        b';' | b'\x1b' => leaves(Onto::Frame),
        _ => goes_on(Part::Numbers),
    }
}

fn in_label(byte: u8) -> Turn
    ensures { result ≡ in_label byte }
{
    match byte {
        b'\x03' => passes_to(Onto::Frame),
        b'\x1b' => leaves(Onto::Frame),
        _ => goes_on(Part::Label),
    }
}

fn in_packed(byte: u8) -> Turn
    ensures { result ≡ in_packed byte }
{
    match byte {
        b';' => passes_to(Onto::Frame),
        b'\x1b' => leaves(Onto::Frame),
        _ => goes_on(Part::Packed),
    }
}

// ---- lines of the job language, and other languages

/// A line is told at its end, by its words.
fn in_line(passing: Passing, matched: u8, line: NamedLine, byte: u8) -> Turn
    ensures { result ≡ in_line passing matched line byte }
{
    match byte {
        b'\n' => ends(passing, Spelled::Line(line.number()), behind_line(matched)),
        _ => {
            let matched = line_matched(matched, byte);
            goes_on(Part::Line(passing, matched, line.with_byte(byte)))
        }
    }
}

/// What stands behind a line.
fn behind_line(matched: u8) -> Onto
    ensures { result ≡ behind_line matched }
{
    if matched < ENTER_LEN || matched == ENTER_PCL_LEN || matched == ENTERS_NONE {
        Onto::Lines
    } else {
        Onto::Part(Part::Foreign(0))
    }
}

/// How many bytes of the words that enter PCL stand in a line, with one more byte, or whether it
/// enters another language or none.
fn line_matched(matched: u8, byte: u8) -> u8
    ensures { result ≡ line_matched matched byte }
{
    if matched < ENTER_PCL_LEN && word_byte(byte) == byte_at(b"PJL ENTER LANGUAGE=PCL", matched) {
        return matched + 1;
    }
    if may_have_blanks(matched) && is_blank(byte) {
        return matched;
    }
    if matched < ENTER_LEN || matched == ENTERS_NONE {
        ENTERS_NONE
    } else {
        ENTERS_OTHER
    }
}

/// A letter in either case, and one blank for all.
fn word_byte(byte: u8) -> u8
    ensures { result ≡ word_byte byte }
{
    if is_blank(byte) { b' ' } else { capital(byte) }
}

fn is_blank(byte: u8) -> bool
    ensures { result ≡ is_blank byte }
{
    byte == b'\t' || byte == b'\r' || byte == b' '
}

/// Whether further blanks may stand behind so many bytes of the words that enter PCL.
fn may_have_blanks(matched: u8) -> bool
    ensures { result ≡ may_have_blanks matched }
{
    match matched {
        4 | 10 | 18 | 19 | 22 => true,
        _ => false,
    }
}

fn in_foreign(matched: u8, byte: u8) -> Turn
    ensures { result ≡ in_foreign matched byte }
{
    if matched < EXIT_LEN && byte == byte_at(b"\x1b%-12345X", matched) {
        return if matched + 1 == EXIT_LEN {
            passes_to(Onto::Lines)
        } else {
            goes_on(Part::Foreign(matched + 1))
        };
    }
    let begun = if byte == b'\x1b' { 1 } else { 0 };
    goes_on(Part::Foreign(begun))
}
