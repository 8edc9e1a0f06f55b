//! What shows why a job fails: the mark that it would have made, and the box that this leaves.
ghost use Rattle.std.specs.Prelude.{◌≡◌, ◌++◌, OnOk};
ghost use Rattle.page_picture.specs.Attributes.{span};
ghost use Rattle.page_picture.specs.Failure.{
  across,
  corner_attributes,
  down,
  height_attribute,
  limit_picture,
  measure_place,
  measures,
  outline_attributes,
  span_attribute,
  stretch,
  unmade_picture,
  veil_picture,
  width_attribute,
};

use crate::attributes::{Attribute, push_attribute, push_length_attribute, push_ticks_attribute};
use crate::failure_parts::{FailurePart, Limit};
use crate::figures::hundredths;
use crate::sheet::middle;
use device_profile::Geometry;
use shown_bytes::push_millimetres;
use std::alloc::{AllocError, Allocator};

/// A box in ticks from the upper left corner of the sheet, be it on the sheet or not.
#[derive(Clone, Copy)]
pub struct Outline {
    pub left: i64,
    pub top: i64,
    pub right: i64,
    pub bottom: i64,
}

/// Appends what makes the marks before it look gray.
#[tactic(auto, unfolding(crate::specs::Failure::veil_picture))]
pub fn push_veil<A: Allocator>(text: &mut Vec<u8, A>, page: &Geometry) -> Result<(), AllocError>
    ensures { OnOk result (text.new.items ≡ text.old.items ++ veil_picture page.now) }
{
    text.extend_from_slice(FailurePart::VeilStart.bytes())?;
    push_length_attribute(text, Attribute::Width, page.page_width)?;
    push_length_attribute(text, Attribute::Height, page.page_height)?;
    text.extend_from_slice(FailurePart::VeilEnd.bytes())
}

// ---- boxes

/// How many hundredths of a unit one place lies behind another, both in ticks and rounded.
fn ticks_span(first: i64, last: i64) -> i64
    ensures { result ≡ span first last }
{
    hundredths(last) - hundredths(first)
}

/// Appends an attribute that is how far one place lies behind another.
#[tactic(auto, unfolding(crate::specs::Failure::span_attribute))]
fn push_span<A: Allocator>(
    text: &mut Vec<u8, A>,
    name: Attribute,
    first: i64,
    last: i64,
) -> Result<(), AllocError>
    ensures { OnOk result (text.new.items ≡ text.old.items ++ span_attribute name first last) }
{
    push_attribute(text, name, ticks_span(first, last))
}

/// Appends the upper left corner of a box.
#[tactic(auto, unfolding(crate::specs::Failure::corner_attributes))]
fn push_corner<A: Allocator>(text: &mut Vec<u8, A>, outline: &Outline) -> Result<(), AllocError>
    ensures { OnOk result (text.new.items ≡ text.old.items ++ corner_attributes outline.now) }
{
    push_ticks_attribute(text, Attribute::X, outline.left)?;
    push_ticks_attribute(text, Attribute::Y, outline.top)
}

/// Appends how wide a box is.
#[tactic(auto, unfolding(crate::specs::Failure::width_attribute))]
fn push_width<A: Allocator>(text: &mut Vec<u8, A>, outline: &Outline) -> Result<(), AllocError>
    ensures { OnOk result (text.new.items ≡ text.old.items ++ width_attribute outline.now) }
{
    push_span(text, Attribute::Width, outline.left, outline.right)
}

/// Appends how high a box is.
#[tactic(auto, unfolding(crate::specs::Failure::height_attribute))]
fn push_height<A: Allocator>(text: &mut Vec<u8, A>, outline: &Outline) -> Result<(), AllocError>
    ensures { OnOk result (text.new.items ≡ text.old.items ++ height_attribute outline.now) }
{
    push_span(text, Attribute::Height, outline.top, outline.bottom)
}

/// Appends a box.
#[tactic(auto, unfolding(crate::specs::Failure::outline_attributes))]
fn push_outline<A: Allocator>(text: &mut Vec<u8, A>, outline: &Outline) -> Result<(), AllocError>
    ensures { OnOk result (text.new.items ≡ text.old.items ++ outline_attributes outline.now) }
{
    push_corner(text, outline)?;
    push_width(text, outline)?;
    push_height(text, outline)
}

/// Appends from where to where something goes.
#[tactic(auto, unfolding(crate::specs::Failure::stretch))]
fn push_stretch<A: Allocator>(
    text: &mut Vec<u8, A>,
    first: i64,
    last: i64,
) -> Result<(), AllocError>
    ensures { OnOk result (text.new.items ≡ text.old.items ++ stretch first last) }
{
    push_millimetres(text, first)?;
    text.extend_from_slice(FailurePart::MeasureTo.bytes())?;
    push_millimetres(text, last)
}

/// Appends from where to where a box goes along the first axis.
#[tactic(auto, unfolding(crate::specs::Failure::across))]
fn push_across<A: Allocator>(text: &mut Vec<u8, A>, outline: &Outline) -> Result<(), AllocError>
    ensures { OnOk result (text.new.items ≡ text.old.items ++ across outline.now) }
{
    text.extend_from_slice(FailurePart::MeasureX.bytes())?;
    push_stretch(text, outline.left, outline.right)
}

/// Appends from where to where a box goes along the second axis.
#[tactic(auto, unfolding(crate::specs::Failure::down))]
fn push_down<A: Allocator>(text: &mut Vec<u8, A>, outline: &Outline) -> Result<(), AllocError>
    ensures { OnOk result (text.new.items ≡ text.old.items ++ down outline.now) }
{
    text.extend_from_slice(FailurePart::MeasureY.bytes())?;
    push_stretch(text, outline.top, outline.bottom)
}

/// Appends from where to where a box goes.
#[tactic(auto, unfolding(crate::specs::Failure::measures))]
fn push_measures<A: Allocator>(text: &mut Vec<u8, A>, outline: &Outline) -> Result<(), AllocError>
    ensures { OnOk result (text.new.items ≡ text.old.items ++ measures outline.now) }
{
    push_across(text, outline)?;
    push_down(text, outline)?;
    text.extend_from_slice(FailurePart::MeasureEnd.bytes())
}

/// Appends where measures stand.
#[tactic(auto, unfolding(crate::specs::Failure::measure_place))]
fn push_measure_place<A: Allocator>(
    text: &mut Vec<u8, A>,
    start: FailurePart,
    page: &Geometry,
) -> Result<(), AllocError>
    ensures { OnOk result (text.new.items ≡ text.old.items ++ measure_place start page.now) }
{
    text.extend_from_slice(start.bytes())?;
    push_attribute(text, Attribute::X, middle(page.page_width))?;
    push_attribute(text, Attribute::Y, middle(page.page_height))?;
    text.extend_from_slice(FailurePart::MeasureText.bytes())
}

/// Appends the mark that would have been made, with its measures.
#[tactic(auto, unfolding(crate::specs::Failure::unmade_picture))]
pub fn push_unmade<A: Allocator>(
    text: &mut Vec<u8, A>,
    page: &Geometry,
    outline: &Outline,
) -> Result<(), AllocError>
    ensures { OnOk result
        (text.new.items ≡ text.old.items ++ unmade_picture page.now outline.now) }
{
    text.extend_from_slice(FailurePart::MarkStart.bytes())?;
    push_outline(text, outline)?;
    text.extend_from_slice(FailurePart::MarkEnd.bytes())?;
    push_measure_place(text, FailurePart::MarkMeasure, page)?;
    text.extend_from_slice(FailurePart::MarkName.bytes())?;
    push_measures(text, outline)
}

/// Appends a box that a mark leaves, with its measures.
#[tactic(auto, unfolding(crate::specs::Failure::limit_picture))]
pub fn push_limit<A: Allocator>(
    text: &mut Vec<u8, A>,
    page: &Geometry,
    limit: Limit,
    outline: &Outline,
) -> Result<(), AllocError>
    ensures { OnOk result
        (text.new.items ≡ text.old.items ++ limit_picture page.now limit outline.now) }
{
    text.extend_from_slice(FailurePart::LimitStart.bytes())?;
    push_outline(text, outline)?;
    text.extend_from_slice(FailurePart::LimitEnd.bytes())?;
    push_measure_place(text, FailurePart::LimitMeasure, page)?;
    text.extend_from_slice(limit.name())?;
    push_measures(text, outline)
}
