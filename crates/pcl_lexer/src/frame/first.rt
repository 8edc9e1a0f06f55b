//! What stands first in the bytes of a frame.

ghost use Rattle.std.specs.Prelude.{◌≡◌, ◌≤◌, ◌+◌, ◌^◌, List, ℕ, length};
ghost use Rattle.pcl_lexer.specs.Lexing.Contexts.{Single, spaced};
ghost use Rattle.pcl_lexer.specs.Lexing.FirstView.{first_view, numbers_view, Within};
ghost use Rattle.pcl_lexer.specs.Frames.Reader.{language_in, enters_frame, after_letter};
ghost use Rattle.pcl_lexer.specs.Frames.Reader.{after_frame_escape, at_frame, single, first_number};
ghost use Rattle.pcl_lexer.specs.Frames.Reader.{first_of_pair, second_of_pair, after_letters};
ghost use Rattle.pcl_lexer.specs.Frames.Reader.{further, ended_by, ended, after_numbers};
ghost use Rattle.pcl_items.specs.Items.{bare, default_of, simple_view};
ghost use Rattle.pcl_lexer.specs.Frames.NumeralView.{numeral_view, numeral_len};

use crate::frame::number::{Numeral, coordinate_in, setting_in};
use crate::frame::{Gap, Kind};
use crate::lexer::first::{Context, EXIT, First, Head, Numbers, begins_exit, ungrouped};
use pcl_items::{
    Coordinates, LexCause, Magnitude, Mnemonic, Motion, Name, PlotterCoordinate, Setting,
    SimpleItem, capital,
};

// ---- between commands

/// What stands first between the commands of a frame.
#[tactic(auto, unfolding(crate::specs::Frames::Reader::at_frame))]
pub fn at_frame(bytes: &[u8]) -> First
    ensures first { (all : List ℕ) → first_view all result ≡ at_frame bytes.now }
    ensures within { Within (length bytes.now) result }
{
    let Some((byte, rest)) = bytes.split_first() else {
        return First::Open;
    };
    match Kind::of(*byte) {
        Kind::White | Kind::Semicolon => First::Passes(1, Context::Frame),
        Kind::Letter => after_letter(*byte, rest),
        Kind::Escape => escaped_in_frame(rest),
        _ => First::Faulty(LexCause::Syntax),
    }
}

fn after_letter(first: u8, bytes: &[u8]) -> First
    ensures first { (all : List ℕ) → first_view all result ≡ after_letter first bytes.now }
    ensures within { Within (1 + length bytes.now) result }
{
    let Some(second) = bytes.first() else {
        return First::Open;
    };
    if Kind::of(*second) != Kind::Letter {
        return First::Faulty(LexCause::Syntax);
    }
    let (a, b) = (capital(first), capital(*second));
    match Mnemonic::of(a, b) {
        Some(mnemonic) => First::Passes(2, Context::Letters(mnemonic, 2)),
        None => First::Faulty(LexCause::NotInProfile(Name::Pair(a, b))),
    }
}

fn escaped_in_frame(bytes: &[u8]) -> First
    ensures first { (all : List ℕ) → first_view all result ≡ after_frame_escape bytes.now }
    ensures within { Within (1 + length bytes.now) result }
{
    match bytes {
        [] => First::Open,
        [b'E', ..] => First::Begins(2, Head::Simple(SimpleItem::Reset), Context::Pcl),
        [b'%', rest @ ..] if begins_exit(rest) => EXIT,
        [b'%', rest @ ..] => language(rest),
        [byte, ..] => First::Faulty(LexCause::NotInProfile(Name::Byte(*byte))),
    }
}

/// What stands first after ESC and `%`: what would in mode PCL, but for the sequence that enters a
/// frame.
fn language(bytes: &[u8]) -> First
    ensures first { (all : List ℕ) → first_view all result ≡ language_in bytes.now }
    ensures within { Within (2 + length bytes.now) result }
{
    let first = ungrouped(b'%', bytes);
    if enters_frame(first) {
        First::Faulty(LexCause::NotInProfile(Name::Pair(b'%', b'B')))
    } else {
        first
    }
}

/// Whether a frame stands behind what stands first.
fn enters_frame(first: First) -> bool
    ensures { (all : List ℕ) → result ≡ enters_frame (first_view all first) }
{
    let First::Begins(_, _, next) = first else {
        return false;
    };
    matches!(next, Context::Frame)
}

// ---- behind the letters

/// The item of a command without a number.
fn bare(mnemonic: Mnemonic) -> SimpleItem
    ensures { simple_view result ≡ bare mnemonic }
{
    match mnemonic {
        Mnemonic::Initialize => SimpleItem::Initialize,
        Mnemonic::Sets(setting) => SimpleItem::Set(setting, default_of(setting)),
        Mnemonic::Moves(motion) => SimpleItem::Move(motion, None),
    }
}

/// What a setting is without a number: no pen, and 0.35 mm.
fn default_of(setting: Setting) -> Magnitude
    ensures { result.ten_thousandths ≡ default_of setting }
{
    let ten_thousandths = match setting {
        Setting::Pen => 0,
        Setting::Width => 3500,
    };
    Magnitude { ten_thousandths }
}

/// What stands first behind the letters of a command.
#[tactic(auto, unfolding(crate::specs::Frames::Reader::after_letters))]
pub fn after_letters(whole: bool, mnemonic: Mnemonic, begun: u64, bytes: &[u8]) -> First
    requires { begun + length bytes.now ≤ 2 ^ 62 }
    ensures first { (all : List ℕ) → first_view all result ≡
        after_letters whole mnemonic begun bytes.now }
    ensures within { Within (length bytes.now) result }
{
    let Some(byte) = bytes.first() else {
        return if whole {
            First::Begins(0, Head::Simple(bare(mnemonic)), Context::Frame)
        } else {
            First::Open
        };
    };
    match Kind::of(*byte) {
        Kind::White => First::Passes(1, Context::Letters(mnemonic, begun + 1)),
        Kind::Semicolon | Kind::Letter | Kind::Escape => {
            First::Begins(0, Head::Simple(bare(mnemonic)), Context::Frame)
        }
        Kind::Sign | Kind::Figure => first_number(whole, mnemonic, begun, bytes),
        Kind::Comma | Kind::Other => First::Faulty(LexCause::Syntax),
    }
}

fn first_number(whole: bool, mnemonic: Mnemonic, begun: u64, bytes: &[u8]) -> First
    requires { begun + length bytes.now ≤ 2 ^ 62 }
    ensures first { (all : List ℕ) → first_view all result ≡
        first_number whole mnemonic begun bytes.now }
    ensures within { Within (length bytes.now) result }
{
    match mnemonic {
        Mnemonic::Initialize => First::Faulty(LexCause::BadNumber),
        Mnemonic::Moves(motion) => first_of_pair(begun, motion, coordinate_in(whole, bytes)),
        Mnemonic::Sets(setting) => single(begun, setting, setting_in(whole, bytes)),
    }
}

/// The number of a setting.
fn single(begun: u64, setting: Setting, numeral: Numeral<Magnitude>) -> First
    requires { begun + numeral_len (numeral_view (λ m. m.ten_thousandths) numeral) ≤ 2 ^ 62 }
    ensures first { (all : List ℕ) → first_view all result ≡
        single begun (λ n. Single setting n) (numeral_view (λ m. m.ten_thousandths) numeral) }
    ensures within { Within (numeral_len (numeral_view (λ m. m.ten_thousandths) numeral)) result }
{
    match numeral {
        Numeral::Cut => First::Open,
        Numeral::Wrong(cause) => First::Faulty(cause),
        Numeral::Read(number, len) => {
            let numbers = Numbers::Single(setting, number);
            First::Passes(
                len,
                Context::Numbered(numbers, Gap::Straight, begun + len as u64),
            )
        }
    }
}

/// The first coordinate of a pair.
fn first_of_pair(begun: u64, motion: Motion, numeral: Numeral<PlotterCoordinate>) -> First
    requires { begun + numeral_len (numeral_view (λ x. x.units) numeral) ≤ 2 ^ 62 }
    ensures first { (all : List ℕ) → first_view all result ≡
        first_of_pair begun motion (numeral_view (λ x. x.units) numeral) }
    ensures within { Within (numeral_len (numeral_view (λ x. x.units) numeral)) result }
{
    match numeral {
        Numeral::Cut => First::Open,
        Numeral::Wrong(cause) => First::Faulty(cause),
        Numeral::Read(x, len) => {
            let numbers = Numbers::Odd(motion, x);
            First::Passes(
                len,
                Context::Numbered(numbers, Gap::Straight, begun + len as u64),
            )
        }
    }
}

/// The second one, with which the pair is an item.
fn second_of_pair(
    motion: Motion,
    x: PlotterCoordinate,
    numeral: Numeral<PlotterCoordinate>,
) -> First
    ensures first { (all : List ℕ) → first_view all result ≡
        second_of_pair motion x.units (numeral_view (λ y. y.units) numeral) }
    ensures within { Within (numeral_len (numeral_view (λ y. y.units) numeral)) result }
{
    match numeral {
        Numeral::Cut => First::Open,
        Numeral::Wrong(cause) => First::Faulty(cause),
        Numeral::Read(y, len) => {
            let item = SimpleItem::Move(motion, Some(Coordinates { x, y }));
            First::Begins(
                len,
                Head::Simple(item),
                Context::Numbered(Numbers::Even(motion), Gap::Straight, 0),
            )
        }
    }
}

// ---- behind numbers

/// What stands first behind numbers of a command and a gap.
#[tactic(auto, unfolding(crate::specs::Frames::Reader::after_numbers))]
pub fn after_numbers(whole: bool, numbers: Numbers, gap: Gap, begun: u64, bytes: &[u8]) -> First
    requires { begun + length bytes.now ≤ 2 ^ 62 }
    ensures first { (all : List ℕ) → first_view all result ≡
        after_numbers whole (numbers_view numbers) gap begun bytes.now }
    ensures within { Within (length bytes.now) result }
{
    let Some(byte) = bytes.first() else {
        return if whole {
            ended(numbers, gap)
        } else {
            First::Open
        };
    };
    match (Kind::of(*byte), gap) {
        (Kind::White, _) => First::Passes(1, Context::Numbered(numbers, spaced(gap), begun + 1)),
        (Kind::Comma, Gap::Comma) => First::Faulty(LexCause::Syntax),
        (Kind::Comma, _) => First::Passes(1, Context::Numbered(numbers, Gap::Comma, begun + 1)),
        (Kind::Semicolon | Kind::Letter | Kind::Escape, _) => ended_by(numbers, gap),
        (Kind::Figure, Gap::Straight) => First::Faulty(LexCause::Syntax),
        (Kind::Sign | Kind::Figure, _) => further(whole, numbers, bytes),
        (Kind::Other, _) => First::Faulty(LexCause::Syntax),
    }
}

/// The gap with white space behind it.
fn spaced(gap: Gap) -> Gap
    ensures { result ≡ spaced gap }
{
    match gap {
        Gap::Straight | Gap::Spaced => Gap::Spaced,
        Gap::Comma => Gap::Comma,
    }
}

/// A further number.
fn further(whole: bool, numbers: Numbers, bytes: &[u8]) -> First
    requires { length bytes.now ≤ 2 ^ 62 }
    ensures first { (all : List ℕ) → first_view all result ≡
        further whole (numbers_view numbers) bytes.now }
    ensures within { Within (length bytes.now) result }
{
    match numbers {
        Numbers::Single(_, _) => First::Faulty(LexCause::BadNumber),
        Numbers::Even(motion) => first_of_pair(0, motion, coordinate_in(whole, bytes)),
        Numbers::Odd(motion, x) => second_of_pair(motion, x, coordinate_in(whole, bytes)),
    }
}

/// Where a byte ends the command, which is no part of it.
fn ended_by(numbers: Numbers, gap: Gap) -> First
    ensures first { (all : List ℕ) → first_view all result ≡ ended_by (numbers_view numbers) gap }
    ensures within { Within 0 result }
{
    match (numbers, gap) {
        (_, Gap::Comma) => First::Faulty(LexCause::Syntax),
        (Numbers::Single(setting, number), _) => {
            First::Begins(
                0,
                Head::Simple(SimpleItem::Set(setting, number)),
                Context::Frame,
            )
        }
        (Numbers::Odd(_, _), _) => First::Faulty(LexCause::BadNumber),
        (Numbers::Even(_), _) => First::Passes(0, Context::Frame),
    }
}

/// Where all bytes end.
fn ended(numbers: Numbers, gap: Gap) -> First
    ensures first { (all : List ℕ) → first_view all result ≡ ended (numbers_view numbers) gap }
    ensures within { Within 0 result }
{
    match (numbers, gap) {
        (_, Gap::Comma) | (Numbers::Odd(_, _), _) => First::Open,
        (Numbers::Single(setting, number), _) => {
            First::Begins(
                0,
                Head::Simple(SimpleItem::Set(setting, number)),
                Context::Frame,
            )
        }
        (Numbers::Even(_), _) => First::Passes(0, Context::Frame),
    }
}
