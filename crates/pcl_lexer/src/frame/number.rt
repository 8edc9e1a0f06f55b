//! The numbers of frames.

ghost use Rattle.std.specs.Prelude.{◌≡◌, ◌≤◌, ◌==◌, length};
ghost use Rattle.std.specs.List.{list_all};
ghost use Rattle.std.specs.Option.{option_map};
ghost use Rattle.pcl_lexer.specs.Escapes.Field.{field_at};
ghost use Rattle.pcl_lexer.specs.Frames.Number.{numeral_at, has_digit, coordinate_by};
ghost use Rattle.pcl_lexer.specs.Frames.Number.{coordinate_of, unsigned, setting_of};
ghost use Rattle.pcl_lexer.specs.Frames.NumeralView.{numeral_view, numeral_len};
ghost use Rattle.pcl_items.specs.Items.{amount};

use crate::pcl::field::{
    MOST_CHARACTERS, is_point_at, leading_digits, leading_sign, longest_field,
};
use pcl_items::{LexCause, Magnitude, Number, PlotterCoordinate, Sign};

/// A number past the limit of a coordinate, which stands for every such number.
pub const PAST_COORDINATES: u32 = 8_388_608;

/// A field by what a coordinate needs of it: how many characters it has, its sign, its whole part,
/// past the limit for one that is past it, whether it has a digit, and whether its decimals are all
/// 0.
#[derive(Clone, Copy)]
pub struct Figures {
    pub len: usize,
    pub sign: Sign,
    pub units: u32,
    pub has_digit: bool,
    pub is_whole: bool,
}

/// The longest field in front.
pub fn longest_figures(bytes: &[u8]) -> Figures
    ensures len { result.len ≡ (field_at bytes.now).len }
    ensures within { result.len ≤ length bytes.now }
    ensures coordinate { coordinate_by result.sign result.units result.is_whole ≡
        coordinate_of (field_at bytes.now) }
    ensures digit { result.has_digit ≡ has_digit (field_at bytes.now) }
{
    let (sign, start) = leading_sign(bytes);
    let whole = leading_digits(&bytes[start..], PAST_COORDINATES);
    let end = start + whole.len;
    if !is_point_at(bytes, end) {
        return Figures {
            len: end,
            sign,
            units: whole.number,
            has_digit: whole.len != 0,
            is_whole: true,
        };
    }
    let rest = &bytes[end + 1..];
    let decimals = leading_digits(rest, PAST_COORDINATES);
    Figures {
        len: end + 1 + decimals.len,
        sign,
        units: whole.number,
        has_digit: whole.len + decimals.len != 0,
        is_whole: are_zeros(&rest[..decimals.len]),
    }
}

fn are_zeros(digits: &[u8]) -> bool
    ensures { result ≡ list_all (λ d. d == 48) digits.now }
{
    digits.iter().all(|d| *d == b'0')
}

impl Figures {
    /// The coordinate that the field stands for, where it is whole and within the limit.
    pub fn coordinate(self) -> Option<PlotterCoordinate>
        ensures { option_map (λ x. x.units) result ≡
            coordinate_by self.sign self.units self.is_whole }
    {
        if self.units >= PAST_COORDINATES || !self.is_whole {
            return None;
        }
        let units = self.units as i32;
        match self.sign {
            Sign::Minus => Some(PlotterCoordinate { units: -units }),
            Sign::Absent | Sign::Plus => Some(PlotterCoordinate { units }),
        }
    }
}

/// What stands where a number of a frame may stand.
pub enum Numeral<T> {
    /// The bytes decide no number yet.
    Cut,
    /// No number.
    Wrong(LexCause),
    /// A number of so many characters.
    Read(T, usize),
}

/// The coordinate in front.
#[tactic(auto, unfolding(crate::specs::Frames::Number::numeral_at))]
pub fn coordinate_in(whole: bool, bytes: &[u8]) -> Numeral<PlotterCoordinate>
    ensures value { numeral_view (λ x. x.units) result ≡ numeral_at coordinate_of whole bytes.now }
    ensures within { numeral_len (numeral_view (λ x. x.units) result) ≤ length bytes.now }
{
    let figures = longest_figures(bytes);
    if figures.len > MOST_CHARACTERS {
        return Numeral::Wrong(LexCause::BadNumber);
    }
    match (&bytes[figures.len..], figures.coordinate()) {
        ([], Some(x)) if whole && figures.has_digit => Numeral::Read(x, figures.len),
        ([], _) => Numeral::Cut,
        _ if !figures.has_digit => Numeral::Wrong(LexCause::Syntax),
        (_, Some(x)) => Numeral::Read(x, figures.len),
        (_, None) => Numeral::Wrong(LexCause::BadNumber),
    }
}

/// The number of a setting in front.
#[tactic(auto, unfolding(crate::specs::Frames::Number::numeral_at))]
pub fn setting_in(whole: bool, bytes: &[u8]) -> Numeral<Magnitude>
    ensures value { numeral_view (λ m. m.ten_thousandths) result ≡
        numeral_at setting_of whole bytes.now }
    ensures within { numeral_len (numeral_view (λ m. m.ten_thousandths) result) ≤ length bytes.now }
{
    let field = longest_field(bytes);
    let digit = longest_figures(bytes).has_digit;
    if field.len > MOST_CHARACTERS {
        return Numeral::Wrong(LexCause::BadNumber);
    }
    match (&bytes[field.len..], unsigned(field.number())) {
        ([], Some(number)) if whole && digit => Numeral::Read(number, field.len),
        ([], _) => Numeral::Cut,
        _ if !digit => Numeral::Wrong(LexCause::Syntax),
        (_, Some(number)) => Numeral::Read(number, field.len),
        (_, None) => Numeral::Wrong(LexCause::BadNumber),
    }
}

// A number without its sign, unless it is negative.
fn unsigned(number: Option<Number>) -> Option<Magnitude>
    ensures { option_map (λ m. m.ten_thousandths) result ≡ unsigned (option_map amount number) }
{
    let number = number?;
    match number.sign {
        Sign::Minus if number.ten_thousandths != 0 => None,
        _ => Some(Magnitude {
            ten_thousandths: number.ten_thousandths,
        }),
    }
}
