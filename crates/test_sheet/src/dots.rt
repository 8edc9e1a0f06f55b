//! Lengths of a profile in the units of the sheet.
ghost use Rattle.std.specs.Prelude.{◌≡◌, ◌≤◌, ◌^◌, unsigned_abs};
ghost use Rattle.test_sheet.specs.Dots.{dots_in, dots_over, nearest_dots, tenths_of_millimetres};

use tick_length::{Length, TICKS_PER_TENTH_MILLIMETRE};

/// A dot, which is 1/300 inch, in ticks.
pub(crate) const DOT: u64 = 121_920_000;

/// The most dots that a command can give.
const MOST_DOTS: u64 = 65_535;

/// The ticks of a length, which in a profile is not negative.
pub(crate) fn ticks_of(length: Length) -> u64
    ensures value { result ≡ unsigned_abs length }
    ensures in_range { result ≤ 2 ^ 60 }
{
    length.ticks().unsigned_abs()
}

/// The whole dots in so many ticks.
pub(crate) fn dots_in(ticks: u64) -> u16
    ensures { result ≡ dots_in ticks }
{
    (ticks / DOT).min(MOST_DOTS) as u16
}

/// The dots that cover so many ticks.
pub(crate) fn dots_over(ticks: u64) -> u16
    ensures { result ≡ dots_over ticks }
{
    ticks.div_ceil(DOT).min(MOST_DOTS) as u16
}

/// So many ticks in dots, to the nearest.
pub(crate) fn nearest_dots(ticks: u64) -> u64
    requires { ticks ≤ 2 ^ 62 }
    ensures { result ≡ nearest_dots ticks }
{
    (ticks + DOT / 2) / DOT
}

/// So many ticks in tenths of a millimetre, to the nearest.
pub(crate) fn tenths_of_millimetres(ticks: u64) -> u64
    requires { ticks ≤ 2 ^ 62 }
    ensures { result ≡ tenths_of_millimetres ticks }
{
    (ticks + TICKS_PER_TENTH_MILLIMETRE / 2) / TICKS_PER_TENTH_MILLIMETRE
}
