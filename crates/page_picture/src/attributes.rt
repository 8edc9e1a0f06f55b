//! Attributes of elements that are numbers of units.
ghost use Rattle.std.specs.Prelude.{◌≡◌, ◌++◌, OnOk};
ghost use Rattle.page_picture.specs.Attributes.{attribute, box_attributes, length_attribute, span};

use crate::figures::{hundredths, push_units};
use page_env::Bounds;
use std::alloc::{AllocError, Allocator};
use tick_length::Length;

/// An attribute that is a number of units.
#[derive(Clone, Copy)]
pub(crate) enum Attribute {
    X,
    Y,
    Width,
    Height,
    X1,
    Y1,
    X2,
    Y2,
    StrokeWidth,
    FontSize,
    TextLength,
}

impl Attribute {
    ghost use Rattle.std.specs.Prelude.{◌≡◌};
    ghost use Rattle.page_picture.specs.Attributes.{attribute_name};

    /// The name of the attribute, up to its number.
    #[tactic(auto, unfolding(crate::specs::Attributes::attribute_name))]
    fn name(self) -> &'static [u8]
        ensures { result.now ≡ attribute_name self }
    {
        match self {
            Attribute::X => b" x=\"",
            Attribute::Y => b" y=\"",
            Attribute::Width => b" width=\"",
            Attribute::Height => b" height=\"",
            Attribute::X1 => b" x1=\"",
            Attribute::Y1 => b" y1=\"",
            Attribute::X2 => b" x2=\"",
            Attribute::Y2 => b" y2=\"",
            Attribute::StrokeWidth => b" stroke-width=\"",
            Attribute::FontSize => b" font-size=\"",
            Attribute::TextLength => b" textLength=\"",
        }
    }
}

/// Appends an attribute of so many hundredths of a unit.
#[tactic(auto, unfolding(crate::specs::Attributes::attribute))]
pub(crate) fn push_attribute<A: Allocator>(
    text: &mut Vec<u8, A>,
    name: Attribute,
    n: i64,
) -> Result<(), AllocError>
    ensures { OnOk result (text.new.items ≡ text.old.items ++ attribute name n) }
{
    text.extend_from_slice(name.name())?;
    push_units(text, n)?;
    text.push(b'"')?;
    Ok(())
}

/// Appends an attribute of so many ticks.
#[tactic(auto, unfolding(crate::specs::Attributes::length_attribute))]
pub(crate) fn push_ticks_attribute<A: Allocator>(
    text: &mut Vec<u8, A>,
    name: Attribute,
    ticks: i64,
) -> Result<(), AllocError>
    ensures { OnOk result (text.new.items ≡ text.old.items ++ length_attribute name ticks) }
{
    push_attribute(text, name, hundredths(ticks))
}

/// Appends an attribute that is a length, or a place on the page.
pub(crate) fn push_length_attribute<A: Allocator>(
    text: &mut Vec<u8, A>,
    name: Attribute,
    length: Length,
) -> Result<(), AllocError>
    ensures { OnOk result (text.new.items ≡ text.old.items ++ length_attribute name length) }
{
    push_ticks_attribute(text, name, length.ticks())
}

/// How many hundredths of a unit one place lies behind another, both rounded.
pub fn span(first: Length, last: Length) -> i64
    ensures { result ≡ span first last }
{
    hundredths(last.ticks()) - hundredths(first.ticks())
}

/// Appends a box by its upper left corner, and by how far its other edges lie from there.
#[tactic(auto, unfolding(crate::specs::Attributes::box_attributes))]
pub(crate) fn push_box<A: Allocator>(
    text: &mut Vec<u8, A>,
    bounds: &Bounds,
) -> Result<(), AllocError>
    ensures { OnOk result (text.new.items ≡ text.old.items ++ box_attributes bounds.now) }
{
    push_length_attribute(text, Attribute::X, bounds.left)?;
    push_length_attribute(text, Attribute::Y, bounds.top)?;
    push_attribute(text, Attribute::Width, span(bounds.left, bounds.right))?;
    push_attribute(text, Attribute::Height, span(bounds.top, bounds.bottom))
}
