//! Bytes of files and numbers as they stand in lines of text.
#![tactic(auto)]

mod decimals;
mod lengths;
mod lettered;
mod letters;
mod numbers;
mod shown;

pub use decimals::{
    digit, point_and_decimals, push_amount, push_minus, push_with_four_decimals,
    push_with_hundredths, push_with_millionths, push_with_tenth, shown_decimals,
};
pub use lengths::{push_millimetres, push_with_signed_hundredths};
pub use lettered::push_lettered;
pub use letters::push_shown_text;
pub use numbers::push_number;
pub use shown::{hex_byte, push_shown, push_shown_from};
