//! Texts that are appended by their parts.
ghost use Rattle.std.specs.Prelude.{◌≡◌, ◌++◌, OnOk};
ghost use Rattle.test_sheet.specs.Parts.{part_words, parts_words};

use crate::dots::ticks_of;
use crate::figures::{push_amount, push_millimetres, push_signed_amount};
use device_profile::SymbolSet;
use shown_bytes::{push_lettered, push_number};
use std::alloc::{AllocError, Allocator};
use tick_length::Length;

/// A part of a text.
#[derive(Clone, Copy)]
pub(crate) enum Part<'a> {
    Words(&'a [u8]),
    Number(u32),
    /// One that may be larger.
    LongNumber(u64),
    /// So many ten-thousandths.
    Amount(u32),
    /// So many ten-thousandths, which may be less than 0.
    SignedAmount(i32),
    /// In millimetres.
    Millimetres(Length),
    /// By its number and letter.
    Set(SymbolSet),
}

/// Appends a part.
fn push_part<A: Allocator>(text: &mut Vec<u8, A>, part: &Part<'_>) -> Result<(), AllocError>
    ensures { OnOk result (text.new.items ≡ text.old.items ++ part_words part.now) }
{
    match part {
        Part::Words(words) => text.extend_from_slice(words),
        Part::Number(number) => push_number(text, u64::from(*number)),
        Part::LongNumber(number) => push_number(text, *number),
        Part::Amount(amount) => push_amount(text, *amount),
        Part::SignedAmount(amount) => push_signed_amount(text, *amount),
        Part::Millimetres(length) => push_millimetres(text, ticks_of(*length)),
        Part::Set(set) => push_lettered(text, set.number, set.letter),
    }
}

/// Appends parts one behind another.
pub(crate) fn push_parts<A: Allocator>(
    text: &mut Vec<u8, A>,
    parts: &[Part<'_>],
) -> Result<(), AllocError>
    ensures { OnOk result (text.new.items ≡ text.old.items ++ parts_words parts.now) }
{
    for part in parts {
        push_part(text, part)?;
    }
    Ok(())
}
