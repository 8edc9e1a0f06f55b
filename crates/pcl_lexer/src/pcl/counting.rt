//! What a number says behind some introducers: a count of bytes, 3, or whose position is kept.

ghost use Rattle.std.specs.Prelude.{◌≡◌, ◌≤◌};
ghost use Rattle.std.specs.Option.{option_map};
ghost use Rattle.pcl_items.specs.Items.{amount};
ghost use Rattle.pcl_lexer.specs.Escapes.Ungrouped.{is_minus, is_three, handover_of, count_of};

use pcl_items::{DataCount, Handover, Number, Sign};

/// How many bytes of data the number counts, unless it is not whole, negative or past 32767.
pub fn count_of(number: Number) -> Option<DataCount>
    ensures { option_map (λ c. c.bytes) result ≡ count_of (amount number) }
{
    let n = number.ten_thousandths;
    if number.is_whole() && n <= 327_670_000 && (!is_minus(number.sign) || n == 0) {
        Some(DataCount {
            bytes: number.whole_part() as u16,
        })
    } else {
        None
    }
}

/// Whether the number is 3, and not negative.
pub fn is_three(number: Number) -> bool
    ensures { result ≡ is_three (amount number) }
{
    number.ten_thousandths == 30_000 && !is_minus(number.sign)
}

/// Whose position a number hands over: 0 with any sign, or 1 that is not negative.
pub fn handover_of(number: Number) -> Option<Handover>
    ensures { result ≡ handover_of (amount number) }
{
    match number.ten_thousandths {
        0 => Some(Handover::Previous),
        10_000 if !is_minus(number.sign) => Some(Handover::Current),
        _ => None,
    }
}

fn is_minus(sign: Sign) -> bool
    ensures { result ≡ is_minus sign }
{
    match sign {
        Sign::Absent | Sign::Plus => false,
        Sign::Minus => true,
    }
}
