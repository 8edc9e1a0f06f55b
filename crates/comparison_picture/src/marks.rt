//! The marks of a page, in two layers: those that do not differ, and those that do.
ghost use Rattle.std.specs.Prelude.{◌≡◌, ◌++◌, OnOk, false};
ghost use Rattle.page_comparison.specs.Pages.{made_mark, made_marks};
ghost use Rattle.page_picture.specs.Marks.{mark_picture};
ghost use Rattle.sinks.specs.Owned.{shape_of_owned};
ghost use Rattle.comparison_picture.specs.Marks.{
  due_mark,
  first_flag,
  is_due,
  layer_picture,
  marks_drawn,
  other_flags,
};

use crate::differing::flags_of;
use comparison::Which;
use page_comparison::{PageDifference, PlacedMark};
use page_env::{Mark, RasterRow};
use page_picture::push_mark;
use sinks::OwnedMark;
use std::alloc::{AllocError, Allocator};

/// Which marks of a page are drawn.
#[derive(Clone, Copy)]
pub(crate) enum Layer {
    /// Those that do not differ.
    Common,
    /// Those that do.
    Apart,
}

/// Appends a layer of a job's page, by the differences of the page.
#[tactic(auto, unfolding(crate::specs::Marks::layer_picture))]
pub(crate) fn push_layer<A: Allocator + Copy, B: Allocator>(
    alloc: A,
    text: &mut Vec<u8, A>,
    layer: Layer,
    which: Which,
    marks: &[PlacedMark<B>],
    differences: &[PageDifference],
) -> Result<(), AllocError>
    ensures { OnOk result (text.new.items ≡ text.old.items
        ++ layer_picture layer which (made_marks marks.now) differences.now) }
{
    let flags = flags_of(alloc, which, marks, differences)?;
    push_marks(text, layer, flags.as_slice(), marks)
}

/// Appends the marks of a layer, by the flags of marks that differ.
fn push_marks<A: Allocator, B: Allocator>(
    text: &mut Vec<u8, A>,
    layer: Layer,
    flags: &[bool],
    marks: &[PlacedMark<B>],
) -> Result<(), AllocError>
    ensures { OnOk result (text.new.items ≡ text.old.items
        ++ marks_drawn layer flags.now (made_marks marks.now)) }
{
    let mut left = flags;
    for mark in marks {
        push_next(text, layer, left, mark)?;
        left = other_flags(left);
    }
    Ok(())
}

/// Appends the mark of the first flag, where it is of the layer.
fn push_next<A: Allocator, B: Allocator>(
    text: &mut Vec<u8, A>,
    layer: Layer,
    flags: &[bool],
    mark: &PlacedMark<B>,
) -> Result<(), AllocError>
    ensures { OnOk result (text.new.items ≡ text.old.items
        ++ due_mark layer (first_flag flags.now) (made_mark mark.now)) }
{
    push_due(text, layer, first_flag(flags), mark)
}

/// Appends a mark, where it is of the layer.
#[tactic(auto, unfolding(crate::specs::Marks::due_mark))]
fn push_due<A: Allocator, B: Allocator>(
    text: &mut Vec<u8, A>,
    layer: Layer,
    differs: bool,
    mark: &PlacedMark<B>,
) -> Result<(), AllocError>
    ensures { OnOk result (text.new.items ≡ text.old.items
        ++ due_mark layer differs (made_mark mark.now)) }
{
    if !is_due(layer, differs) {
        return Ok(());
    }
    push_kept(text, &mark.mark, mark.place)
}

/// Whether a mark is of the layer, by whether it differs.
#[tactic(auto, unfolding(crate::specs::Marks::is_due))]
fn is_due(layer: Layer, differs: bool) -> bool
    ensures { result ≡ is_due layer differs }
{
    match layer {
        Layer::Common => !differs,
        Layer::Apart => differs,
    }
}

/// Appends the elements of a mark that is kept.
fn push_kept<A: Allocator, B: Allocator>(
    text: &mut Vec<u8, A>,
    mark: &OwnedMark<B>,
    place: u64,
) -> Result<(), AllocError>
    ensures { OnOk result (text.new.items ≡ text.old.items
        ++ mark_picture (shape_of_owned mark.now) false place) }
{
    match mark {
        OwnedMark::Rect(area) => push_mark(text, &Mark::Rect(*area), false, place),
        OwnedMark::Glyph(glyph) => push_mark(text, &Mark::Glyph(*glyph), false, place),
        OwnedMark::Row(row) => {
            let lent = RasterRow {
                resolution: row.resolution,
                x: row.x,
                y: row.y,
                bytes: row.bytes.as_slice(),
            };
            push_mark(text, &Mark::Row(lent), false, place)
        }
        OwnedMark::Line(line) => push_mark(text, &Mark::Line(*line), false, place),
    }
}

// ---- flags

/// Whether the first mark differs; without a flag it does not.
#[tactic(auto, unfolding(crate::specs::Marks::first_flag))]
fn first_flag(flags: &[bool]) -> bool
    ensures { result ≡ first_flag flags.now }
{
    match flags {
        [first, ..] => *first,
        [] => false,
    }
}

/// The flags of the marks behind the first.
#[tactic(auto, unfolding(crate::specs::Marks::other_flags))]
fn other_flags(flags: &[bool]) -> &[bool]
    ensures { result.now ≡ other_flags flags.now }
{
    match flags {
        [_, others @ ..] => others,
        [] => flags,
    }
}
