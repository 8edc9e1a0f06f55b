//! Value fields.

ghost use Rattle.std.specs.Prelude.{◌≡◌, ◌≤◌, ◌<◌, ◌+◌, ◌^◌, ◌==◌, nat_le, if◌then◌else◌, IsTrue};
ghost use Rattle.std.specs.Prelude.{min, length, fold, drop, IfSome, None};
ghost use Rattle.std.specs.List.{list_all};
ghost use Rattle.std.specs.Option.{option_map};
ghost use Rattle.pcl_lexer.specs.Escapes.FieldEnd.{Ended, field_end, end_view, EndsWithin};
ghost use Rattle.pcl_lexer.specs.Escapes.Field.{sign_at, sign_len, has_point, digits, decimal};
ghost use Rattle.pcl_lexer.specs.Escapes.Field.{four, field_at, amount_of, next_digit};
ghost use Rattle.pcl_lexer.specs.Escapes.Field.{within_limit};
ghost use Rattle.pcl_items.specs.Items.{amount};

use pcl_items::{Number, Sign};

/// The most characters of a value field.
pub const MOST_CHARACTERS: usize = 16;

/// A whole number past the limit of a value field, which stands for every such number.
const PAST_LIMIT: u32 = 65_536;

/// The most ten-thousandths of a number.
pub const MOST_TEN_THOUSANDTHS: u32 = 655_350_000;

/// A value field: how many characters it has, its sign, and its magnitude in ten-thousandths, past
/// the limit for one that has no number.
///
/// An `Option<Number>` in their place would be put together and taken apart again for each command.
#[derive(Clone, Copy)]
pub struct Field {
    pub len: usize,
    pub sign: Sign,
    pub ten_thousandths: u32,
}

impl Field {
    /// Its number, unless that is past the limits.
    pub fn number(self) -> Option<Number>
        ensures { option_map amount result ≡ within_limit self.sign self.ten_thousandths }
    {
        if self.ten_thousandths <= MOST_TEN_THOUSANDTHS {
            Some(Number {
                sign: self.sign,
                ten_thousandths: self.ten_thousandths,
            })
        } else {
            None
        }
    }
}

/// A value field that a byte ends, and how many characters it has.
#[derive(Clone, Copy)]
pub struct EndedField {
    pub len: usize,
    pub number: Number,
    /// The byte behind it.
    pub last: u8,
}

/// How a value field ends.
#[derive(Clone, Copy)]
pub enum FieldEnd {
    /// No byte stands behind it yet.
    Open,
    /// It has too many characters, or no number within the limit.
    BadNumber,
    /// A byte stands behind it.
    Ended(EndedField),
}

/// Digits, and the number that they give.
#[derive(Clone, Copy)]
pub struct Digits {
    pub len: usize,
    pub number: u32,
}

/// Decimals, and the ten-thousandths that they give behind a whole number.
#[derive(Clone, Copy)]
struct Decimals {
    len: usize,
    ten_thousandths: u32,
    is_exact: bool,
}

/// How the longest field in front ends.
// Inlined with all that it calls, so that its answer is never put together: a job is mostly
// commands.
#[inline(always)]
pub fn field_end(bytes: &[u8]) -> FieldEnd
    ensures end { end_view result ≡ field_end bytes.now }
    ensures within { EndsWithin (length bytes.now) result }
{
    match short_field(bytes) {
        Some(field) => FieldEnd::Ended(field),
        None => any_field_end(bytes),
    }
}

/// So many bytes decide a field that is a whole number of fewer digits, as nearly each is.
const SHORT: usize = 5;

/// The field in front, where it has at most four digits, and neither a sign nor a point.
// Nothing else of a field is looked for where a letter stands behind the digits.
#[inline(always)]
pub fn short_field(bytes: &[u8]) -> Option<EndedField>
    ensures end { IfSome result (λ field.
        Ended (amount field.number) field.len field.last ≡ field_end bytes.now) }
    ensures within { IfSome result (λ field. (field.len ≤ 16) × (field.len < length bytes.now)) }
{
    if bytes.len() < SHORT {
        return None;
    }
    let whole = leading_digits(&bytes[..SHORT], PAST_LIMIT);
    if whole.len >= SHORT {
        return None;
    }
    if whole.number >= PAST_LIMIT {
        return None;
    }
    let Some(last) = bytes.get(whole.len) else {
        return None;
    };
    if *last < b'@' {
        return None;
    }
    let number = Number {
        sign: Sign::Absent,
        ten_thousandths: 10_000 * whole.number,
    };
    Some(EndedField {
        len: whole.len,
        number,
        last: *last,
    })
}

/// How the longest field in front ends, of whatever parts.
#[inline(always)]
#[tactic(auto, unfolding(crate::specs::Escapes::FieldEnd::field_end))]
fn any_field_end(bytes: &[u8]) -> FieldEnd
    ensures end { end_view result ≡ field_end bytes.now }
    ensures within { EndsWithin (length bytes.now) result }
{
    let field = longest_field(bytes);
    if field.len > MOST_CHARACTERS {
        return FieldEnd::BadNumber;
    }
    let Some(last) = bytes.get(field.len) else {
        return FieldEnd::Open;
    };
    if field.ten_thousandths > MOST_TEN_THOUSANDTHS {
        return FieldEnd::BadNumber;
    }
    let number = Number {
        sign: field.sign,
        ten_thousandths: field.ten_thousandths,
    };
    FieldEnd::Ended(EndedField {
        len: field.len,
        number,
        last: *last,
    })
}

/// The longest field in front.
#[inline(always)]
pub fn longest_field(bytes: &[u8]) -> Field
    ensures len { result.len ≡ (field_at bytes.now).len }
    ensures number { within_limit result.sign result.ten_thousandths ≡
        amount_of (field_at bytes.now) }
    ensures within { result.len ≤ length bytes.now }
{
    let (sign, start) = leading_sign(bytes);
    let whole = leading_whole(&bytes[start..]);
    let end = start + whole.len;
    if is_point_at(bytes, end) {
        return with_decimals(sign, whole.number, end + 1, &bytes[end + 1..]);
    }
    Field {
        len: end,
        sign,
        ten_thousandths: 10_000 * whole.number,
    }
}

/// The field of a sign, a whole number and a point, so many characters together, and of the
/// decimals in front of the bytes.
// Inlined, with the room for the answer of the call: so fields without a point clear none.
#[inline(always)]
fn with_decimals(sign: Sign, whole: u32, len: usize, bytes: &[u8]) -> Field
    requires whole { whole ≤ 65_536 }
    requires fits { len + length bytes.now < 2 ^ 64 }
    ensures len { result.len ≡ len + length (digits bytes.now) }
    ensures within { result.len ≤ len + length bytes.now }
    ensures number { within_limit result.sign result.ten_thousandths ≡
        (if list_all (λ d. d == 48) (drop 4 (digits bytes.now))
        then within_limit sign (fold next_digit whole (four (digits bytes.now))) else None) }
{
    let decimals = leading_decimals(whole, bytes);
    Field {
        len: len + decimals.len,
        sign,
        ten_thousandths: if decimals.is_exact {
            decimals.ten_thousandths
        } else {
            10_000 * PAST_LIMIT
        },
    }
}

/// The sign in front, and how many characters it has.
#[inline(always)]
pub fn leading_sign(bytes: &[u8]) -> (Sign, usize)
    ensures sign { result.0 ≡ sign_at bytes.now }
    ensures len { result.1 ≡ sign_len (sign_at bytes.now) }
    ensures within { result.1 ≤ length bytes.now }
{
    match bytes {
        // One comparison where there is none, as mostly.
        [first, ..] if *first < b'0' => match *first {
            b'+' => (Sign::Plus, 1),
            b'-' => (Sign::Minus, 1),
            _ => (Sign::Absent, 0),
        },
        _ => (Sign::Absent, 0),
    }
}

#[inline(always)]
pub fn is_point_at(bytes: &[u8], at: usize) -> bool
    requires { at ≤ length bytes.now }
    ensures point { result ≡ has_point (drop at bytes.now) }
    ensures within { IsTrue result → at < length bytes.now }
{
    matches!(bytes.get(at), Some(b'.'))
}

// The digits in front, and what they stand for, but for numbers past a limit.
#[inline(always)]
pub fn leading_digits(bytes: &[u8], past: u32) -> Digits
    requires { past ≤ 8_388_608 }
    ensures len { result.len ≡ length (digits bytes.now) }
    ensures within { result.len ≤ length bytes.now }
    ensures number { result.number ≡ min (decimal (digits bytes.now)) past }
{
    let mut number: u32 = 0;
    for (len, byte) in bytes.iter().enumerate() {
        if !byte.is_ascii_digit() {
            return Digits { len, number };
        }
        number = (10 * number + u32::from(*byte - b'0')).min(past);
    }
    Digits {
        len: bytes.len(),
        number,
    }
}

/// So many bytes decide a whole number that has fewer digits, as nearly each has.
const FEW: usize = 8;

// The digits in front, and what they stand for, but for numbers past the limit of a field.
#[inline(always)]
fn leading_whole(bytes: &[u8]) -> Digits
    ensures len { result.len ≡ length (digits bytes.now) }
    ensures within { result.len ≤ length bytes.now }
    ensures number { result.number ≡ min (decimal (digits bytes.now)) 65_536 }
{
    if bytes.len() >= FEW {
        // The loop over the digits is unrolled, since there are always so many bytes.
        let whole = leading_digits(&bytes[..FEW], PAST_LIMIT);
        if whole.len < FEW {
            return whole;
        }
    }
    all_leading_digits(bytes)
}

// The same of any number of digits: a call of its own, since few fields have many.
#[inline(never)]
fn all_leading_digits(bytes: &[u8]) -> Digits
    ensures len { result.len ≡ length (digits bytes.now) }
    ensures within { result.len ≤ length bytes.now }
    ensures number { result.number ≡ min (decimal (digits bytes.now)) 65_536 }
{
    leading_digits(bytes, PAST_LIMIT)
}

// The decimals in front, behind a whole number: each is worth a tenth of the one before, and the
// fifth nothing.
#[inline(never)]
fn leading_decimals(whole: u32, bytes: &[u8]) -> Decimals
    requires { whole ≤ 65_536 }
    ensures len { result.len ≡ length (digits bytes.now) }
    ensures within { result.len ≤ length bytes.now }
    ensures value { result.ten_thousandths ≡ fold next_digit whole (four (digits bytes.now)) }
    ensures exact { result.is_exact ≡ list_all (λ d. d == 48) (drop 4 (digits bytes.now)) }
{
    let mut ten_thousandths = 10_000 * whole;
    let mut worth: u32 = 1_000;
    let mut is_exact = true;
    for (len, byte) in bytes.iter().enumerate() {
        if !byte.is_ascii_digit() {
            return Decimals {
                len,
                ten_thousandths,
                is_exact,
            };
        }
        ten_thousandths += worth * u32::from(*byte - b'0');
        if worth == 0 && *byte != b'0' {
            is_exact = false;
        }
        worth /= 10;
    }
    Decimals {
        len: bytes.len(),
        ten_thousandths,
        is_exact,
    }
}
