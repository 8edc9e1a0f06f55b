//! A pair of coordinates, or a command that moves the pen without them, that stands first in a
//! frame.
//!
//! A plot is mostly these. What `first_in` answers of one by steps, over its comma or its command's
//! letters and over each coordinate, is answered here at once. Whatever is written in another way
//! than plots mostly are is left to those steps.

ghost use Rattle.std.specs.Prelude.{◌≡◌, ◌≤◌, ◌+◌, ◌^◌, ℕ, length, IfSome, IsTrue};
ghost use Rattle.pcl_lexer.specs.declared.frame.Gap.TheVariants.{Straight};
ghost use Rattle.pcl_items.specs.declared.frame.Motion.{Motion};
ghost use Rattle.pcl_items.specs.declared.frame.Motion.TheVariants.{Down};
ghost use Rattle.pcl_lexer.specs.Lexing.Contexts.{Frame, Numbered, Even};
ghost use Rattle.pcl_lexer.specs.Lexing.FirstView.{context_view};
ghost use Rattle.pcl_lexer.specs.Frames.Pairs.{IsBareAhead, IsPairAhead, Leads, LeadsCommand};
ghost use Rattle.pcl_lexer.specs.Frames.Pairs.{NamesMotion, HasLetters, IsCoordinateAhead};

use crate::frame::Gap;
use crate::frame::number::{Figures, PAST_COORDINATES};
use crate::lexer::first::{Context, Numbers};
use crate::pcl::field::{leading_digits, leading_sign};
use pcl_items::{Coordinates, Motion, Place, PlotterCoordinate};

/// So many bytes decide a coordinate behind its sign, unless it has more digits than the limit or a
/// point.
const DECIDING: usize = 8;

/// A pair with its motion, where its item stands, and how many bytes there are up to its end.
#[derive(Clone, Copy)]
pub struct ReadPair {
    pub len: usize,
    pub place: Place,
    pub motion: Motion,
    pub to: Coordinates,
    /// Whether it stands behind a comma, so that it leaves what may stand next as it was.
    pub is_further: bool,
}

/// What stands before a pair: its motion, where its item stands, and how many bytes there are up to
/// its first coordinate.
#[derive(Clone, Copy)]
pub struct Lead {
    pub len: usize,
    pub place: Place,
    pub motion: Motion,
    /// Whether it is a comma.
    pub is_further: bool,
}

/// A coordinate, how many characters it has, and the byte behind it.
#[derive(Clone, Copy)]
pub struct ReadCoordinate {
    pub coordinate: PlotterCoordinate,
    pub len: usize,
    pub last: u8,
}

/// The pair that stands first in the bytes at this place, unless they begin with something else.
#[inline(always)]
pub fn pair_in(context: Context, place: Place, bytes: &[u8]) -> Option<ReadPair>
    requires { place + length bytes.now ≤ 2 ^ 62 }
    ensures { IfSome result (λ read. IsPairAhead read (context_view context) place bytes.now) }
{
    let lead = pair_lead(context, place, bytes)?;
    let x = leading_coordinate(&bytes[lead.len..])?;
    if x.last != b',' {
        return None;
    }
    let second = lead.len + x.len + 1;
    let y = leading_coordinate(&bytes[second..])?;
    Some(ReadPair {
        len: second + y.len,
        place: lead.place,
        motion: lead.motion,
        to: Coordinates {
            x: x.coordinate,
            y: y.coordinate,
        },
        is_further: lead.is_further,
    })
}

/// Whether whole pairs of a command that lowers the pen stand before.
#[inline(always)]
pub fn is_behind_down(context: Context) -> bool
    ensures { IsTrue result → context_view context ≡ Numbered (Even Down) Straight 0 }
{
    match context {
        Context::Numbered(Numbers::Even(Motion::Down), Gap::Straight, 0) => true,
        _ => false,
    }
}

/// The command that moves the pen and has no coordinates, that stands first in the bytes at this
/// place with a semicolon or a P behind its letters, unless they begin with something else.
#[inline(always)]
pub fn bare_motion_in(context: Context, place: Place, bytes: &[u8]) -> Option<Lead>
    requires { place + length bytes.now ≤ 2 ^ 62 }
    ensures { IfSome result (λ lead. IsBareAhead lead (context_view context) place bytes.now) }
{
    match context {
        Context::Numbered(Numbers::Even(_), Gap::Straight, 0) | Context::Frame => {
            bare_motion(place, bytes)
        }
        _ => None,
    }
}

/// That command, behind whole pairs or between commands.
#[inline(always)]
fn bare_motion(place: Place, bytes: &[u8]) -> Option<Lead>
    requires { place + length bytes.now ≤ 2 ^ 62 }
    ensures frame { IfSome result (λ lead. IsBareAhead lead Frame place bytes.now) }
    ensures behind { (motion : Motion) → IfSome result (λ lead.
        IsBareAhead lead (Numbered (Even motion) Straight 0) place bytes.now) }
{
    let lead = command_lead(place, bytes)?;
    match &bytes[lead.len..] {
        [b';' | b'P', ..] => Some(lead),
        _ => None,
    }
}

/// What stands before the pair that is first.
#[inline(always)]
fn pair_lead(context: Context, place: Place, bytes: &[u8]) -> Option<Lead>
    requires { place + length bytes.now ≤ 2 ^ 62 }
    ensures { IfSome result (λ lead. Leads lead (context_view context) place bytes.now) }
{
    match context {
        Context::Numbered(Numbers::Even(motion), Gap::Straight, 0) => {
            lead_behind_pair(motion, place, bytes)
        }
        Context::Frame => command_lead(place, bytes),
        _ => None,
    }
}

/// A comma, or the letters of another command.
#[inline(always)]
fn lead_behind_pair(motion: Motion, place: Place, bytes: &[u8]) -> Option<Lead>
    requires { place + length bytes.now ≤ 2 ^ 62 }
    ensures { IfSome result (λ lead.
        Leads lead (Numbered (Even motion) Straight 0) place bytes.now) }
{
    match bytes {
        [b',', ..] => Some(Lead {
            len: 1,
            place: place + 1,
            motion,
            is_further: true,
        }),
        _ => command_lead(place, bytes),
    }
}

/// The letters of a command that moves the pen, perhaps behind a semicolon, or on the line behind
/// one.
#[inline(always)]
fn command_lead(place: Place, bytes: &[u8]) -> Option<Lead>
    requires { place + length bytes.now ≤ 2 ^ 62 }
    ensures { IfSome result (λ lead. LeadsCommand lead place bytes.now) }
{
    match bytes {
        [b';', b'\n', rest @ ..] => Some(Lead {
            len: 4,
            place: place + 2,
            motion: leading_motion(rest)?,
            is_further: false,
        }),
        [b';', rest @ ..] => Some(Lead {
            len: 3,
            place: place + 1,
            motion: leading_motion(rest)?,
            is_further: false,
        }),
        _ => Some(Lead {
            len: 2,
            place,
            motion: leading_motion(bytes)?,
            is_further: false,
        }),
    }
}

/// The motion of the two capitals in front.
#[inline(always)]
fn leading_motion(bytes: &[u8]) -> Option<Motion>
    ensures { IfSome result (λ motion. HasLetters motion bytes.now) }
{
    match bytes {
        [b'P', second, ..] => motion_of(*second),
        _ => None,
    }
}

/// The motion that a capital behind `P` names.
#[inline(always)]
#[tactic(auto, unfolding(crate::specs::Frames::Kinds::kind_of))]
fn motion_of(second: u8) -> Option<Motion>
    ensures { IfSome result (λ motion. NamesMotion second motion) }
{
    match second {
        b'U' => Some(Motion::Up),
        b'D' => Some(Motion::Down),
        b'A' => Some(Motion::Absolute),
        b'R' => Some(Motion::Relative),
        _ => None,
    }
}

/// The coordinate in front, which is decided, and without a point.
#[inline(always)]
fn leading_coordinate(bytes: &[u8]) -> Option<ReadCoordinate>
    ensures { IfSome result (λ read. IsCoordinateAhead read bytes.now) }
{
    let (sign, start) = leading_sign(bytes);
    let rest = &bytes[start..];
    if rest.len() < DECIDING {
        return None;
    }
    // The loop over the digits is unrolled, since there are always so many bytes.
    let front = &rest[..DECIDING];
    let digits = leading_digits(front, PAST_COORDINATES);
    if digits.len == 0 || digits.len == DECIDING {
        return None;
    }
    let last = front[digits.len];
    if last == b'.' {
        return None;
    }
    let len = start + digits.len;
    let figures = Figures {
        len,
        sign,
        units: digits.number,
        has_digit: true,
        is_whole: true,
    };
    Some(ReadCoordinate {
        coordinate: figures.coordinate()?,
        len,
        last,
    })
}
