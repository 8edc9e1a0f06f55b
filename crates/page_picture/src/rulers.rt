//! Rulers along the upper and the left edge of a sheet.
ghost use Rattle.std.specs.Prelude.{◌≡◌, ◌≤◌, ◌<◌, ◌+◌, ◌*◌, ◌/◌, ◌++◌, OnOk, pos};
ghost use Rattle.page_picture.specs.Rulers.{
  counts_by,
  edge_ticks,
  label,
  label_count,
  labels,
  left_labels,
  left_ticks,
  rulers_picture,
  step_of,
  upper_labels,
  upper_ticks,
};

use crate::attributes::{Attribute, push_ticks_attribute};
use crate::figures::push_length_units;
use crate::ruler_parts::RulerPart;
use device_profile::Geometry;
use shown_bytes::push_number;
use std::alloc::{AllocError, Allocator};
use tick_length::Length;

/// What the numbers of a ruler count.
#[derive(Clone, Copy)]
pub(crate) enum Scale {
    /// Each centimetre has a number of millimetres.
    Millimetres,
    Inches,
}

/// The most numbers that a ruler has along an edge.
const MOST_LABELS: u64 = 1_000;

/// Appends the rulers of a sheet.
#[tactic(auto, unfolding(crate::specs::Rulers::rulers_picture))]
pub(crate) fn push_rulers<A: Allocator>(
    text: &mut Vec<u8, A>,
    page: &Geometry,
) -> Result<(), AllocError>
    ensures { OnOk result (text.new.items ≡ text.old.items ++ rulers_picture page.now) }
{
    text.extend_from_slice(RulerPart::RulersStart.bytes())?;
    push_upper_ticks(text, page.page_width)?;
    push_left_ticks(text, page.page_height)?;
    push_upper_labels(text, page.page_width)?;
    push_left_labels(text, page.page_height)?;
    text.extend_from_slice(RulerPart::RulersEnd.bytes())
}

// ---- ticks

/// Appends a dashed line along an edge of this length.
#[tactic(auto, unfolding(crate::specs::Rulers::edge_ticks))]
fn push_ticks<A: Allocator>(
    text: &mut Vec<u8, A>,
    start: RulerPart,
    length: Length,
    end: RulerPart,
) -> Result<(), AllocError>
    ensures { OnOk result (text.new.items ≡ text.old.items ++ edge_ticks start length end) }
{
    text.extend_from_slice(start.bytes())?;
    push_length_units(text, length.ticks())?;
    text.extend_from_slice(end.bytes())
}

#[tactic(auto, unfolding(crate::specs::Rulers::upper_ticks))]
fn push_upper_ticks<A: Allocator>(text: &mut Vec<u8, A>, width: Length) -> Result<(), AllocError>
    ensures { OnOk result (text.new.items ≡ text.old.items ++ upper_ticks width) }
{
    push_ticks(
        text,
        RulerPart::UpperMillimetres,
        width,
        RulerPart::MillimetreTicks,
    )?;
    push_ticks(
        text,
        RulerPart::UpperCentimetres,
        width,
        RulerPart::CentimetreTicks,
    )?;
    push_ticks(text, RulerPart::UpperInches, width, RulerPart::InchTicks)
}

#[tactic(auto, unfolding(crate::specs::Rulers::left_ticks))]
fn push_left_ticks<A: Allocator>(text: &mut Vec<u8, A>, height: Length) -> Result<(), AllocError>
    ensures { OnOk result (text.new.items ≡ text.old.items ++ left_ticks height) }
{
    push_ticks(
        text,
        RulerPart::LeftMillimetres,
        height,
        RulerPart::MillimetreTicks,
    )?;
    push_ticks(
        text,
        RulerPart::LeftCentimetres,
        height,
        RulerPart::CentimetreTicks,
    )?;
    push_ticks(text, RulerPart::LeftInches, height, RulerPart::InchTicks)
}

// ---- numbers

/// How often so many ticks have room for what a number counts.
fn steps_in(scale: Scale, ticks: u64) -> u64
    ensures { result ≡ ticks / step_of scale }
{
    match scale {
        Scale::Millimetres => ticks / 14_400_000_000,
        Scale::Inches => ticks / 36_576_000_000,
    }
}

/// How many numbers stand along an edge of this length.
fn label_count(scale: Scale, length: Length) -> u64
    ensures value { result ≡ label_count scale length }
    ensures small { result ≤ 1_000 }
{
    MOST_LABELS.min(steps_in(scale, length.ticks().unsigned_abs()))
}

/// Where the number behind so many stands, in ticks.
fn label_place(scale: Scale, n: u64) -> i64
    requires { n < 1_000 }
    ensures { result ≡ pos ((n + 1) * step_of scale) }
{
    match scale {
        Scale::Millimetres => ((n + 1) * 14_400_000_000) as i64,
        Scale::Inches => ((n + 1) * 36_576_000_000) as i64,
    }
}

/// The number behind so many.
fn label_number(scale: Scale, n: u64) -> u64
    requires { n < 1_000 }
    ensures { result ≡ (n + 1) * counts_by scale }
{
    match scale {
        Scale::Millimetres => (n + 1) * 10,
        Scale::Inches => n + 1,
    }
}

/// Appends the number behind so many.
#[tactic(auto, unfolding(crate::specs::Rulers::label))]
fn push_label<A: Allocator>(
    text: &mut Vec<u8, A>,
    start: RulerPart,
    along: Attribute,
    scale: Scale,
    n: u64,
) -> Result<(), AllocError>
    requires { n < 1_000 }
    ensures { OnOk result (text.new.items ≡ text.old.items ++ label start along scale n) }
{
    text.extend_from_slice(start.bytes())?;
    push_ticks_attribute(text, along, label_place(scale, n))?;
    text.extend_from_slice(RulerPart::LabelText.bytes())?;
    push_number(text, label_number(scale, n))?;
    text.extend_from_slice(RulerPart::LabelEnd.bytes())
}

/// Appends the numbers along an edge of this length.
#[tactic(auto, using(crate::proofs::Runs::runs_more))]
fn push_labels<A: Allocator>(
    text: &mut Vec<u8, A>,
    start: RulerPart,
    along: Attribute,
    scale: Scale,
    length: Length,
) -> Result<(), AllocError>
    ensures { OnOk result (text.new.items ≡ text.old.items ++ labels start along scale length) }
{
    for n in 0..label_count(scale, length) {
        push_label(text, start, along, scale, n)?;
    }
    Ok(())
}

#[tactic(auto, unfolding(crate::specs::Rulers::upper_labels))]
fn push_upper_labels<A: Allocator>(text: &mut Vec<u8, A>, width: Length) -> Result<(), AllocError>
    ensures { OnOk result (text.new.items ≡ text.old.items ++ upper_labels width) }
{
    push_labels(
        text,
        RulerPart::UpperMillimetreLabel,
        Attribute::X,
        Scale::Millimetres,
        width,
    )?;
    push_labels(
        text,
        RulerPart::UpperInchLabel,
        Attribute::X,
        Scale::Inches,
        width,
    )
}

#[tactic(auto, unfolding(crate::specs::Rulers::left_labels))]
fn push_left_labels<A: Allocator>(text: &mut Vec<u8, A>, height: Length) -> Result<(), AllocError>
    ensures { OnOk result (text.new.items ≡ text.old.items ++ left_labels height) }
{
    push_labels(
        text,
        RulerPart::LeftMillimetreLabel,
        Attribute::Y,
        Scale::Millimetres,
        height,
    )?;
    push_labels(
        text,
        RulerPart::LeftInchLabel,
        Attribute::Y,
        Scale::Inches,
        height,
    )
}
