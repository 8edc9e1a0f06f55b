//! The sheet of a page: what both jobs have on it gray, and upon that what one of them has alone,
//! in its color.
ghost use Rattle.std.specs.Prelude.{◌≡◌, ◌++◌, OnOk};
ghost use Rattle.comparison_picture.specs.DrawnPages.{compared_page};
ghost use Rattle.comparison_picture.specs.Sheets.{
  apart,
  common_sheet,
  new_group,
  new_layer,
  old_group,
  old_layer,
};

use crate::drawn_page::DrawnPage;
use crate::marks::{Layer, push_layer};
use comparison::Which;
use page_picture::{push_head, push_veil};
use std::alloc::{AllocError, Allocator};

/// Appends the sheet with the marks that do not differ, gray. They are those of OLD; where marks
/// count as the same that lie near each other, those of NEW lie as near.
#[tactic(auto, unfolding(crate::specs::Sheets::common_sheet))]
pub(crate) fn push_common_sheet<A: Allocator + Copy, B: Allocator>(
    alloc: A,
    text: &mut Vec<u8, A>,
    page: &DrawnPage<'_, B>,
    has_sentence: bool,
    has_patterns: bool,
) -> Result<(), AllocError>
    ensures { OnOk result (text.new.items ≡ text.old.items
        ++ common_sheet (compared_page page.now) has_sentence has_patterns) }
{
    push_head(text, &page.paper, has_sentence, has_patterns)?;
    push_old_layer(alloc, text, Layer::Common, page)?;
    push_veil(text, &page.paper)
}

/// Appends the marks that differ: those of OLD, and upon them those of NEW.
#[tactic(auto, unfolding(crate::specs::Sheets::apart))]
pub(crate) fn push_apart<A: Allocator + Copy, B: Allocator>(
    alloc: A,
    text: &mut Vec<u8, A>,
    page: &DrawnPage<'_, B>,
) -> Result<(), AllocError>
    ensures { OnOk result
        (text.new.items ≡ text.old.items ++ apart (compared_page page.now)) }
{
    push_old_group(alloc, text, page)?;
    push_new_group(alloc, text, page)
}

#[tactic(auto, unfolding(crate::specs::Sheets::old_group))]
fn push_old_group<A: Allocator + Copy, B: Allocator>(
    alloc: A,
    text: &mut Vec<u8, A>,
    page: &DrawnPage<'_, B>,
) -> Result<(), AllocError>
    ensures { OnOk result
        (text.new.items ≡ text.old.items ++ old_group (compared_page page.now)) }
{
    text.extend_from_slice(b"<g class=\"differs old\">\n")?;
    push_old_layer(alloc, text, Layer::Apart, page)?;
    text.extend_from_slice(b"</g>\n")
}

#[tactic(auto, unfolding(crate::specs::Sheets::new_group))]
fn push_new_group<A: Allocator + Copy, B: Allocator>(
    alloc: A,
    text: &mut Vec<u8, A>,
    page: &DrawnPage<'_, B>,
) -> Result<(), AllocError>
    ensures { OnOk result
        (text.new.items ≡ text.old.items ++ new_group (compared_page page.now)) }
{
    text.extend_from_slice(b"<g class=\"differs new\">\n")?;
    push_new_layer(alloc, text, Layer::Apart, page)?;
    text.extend_from_slice(b"</g>\n")
}

/// Appends marks of OLD.
#[tactic(auto, unfolding(crate::specs::Sheets::old_layer))]
fn push_old_layer<A: Allocator + Copy, B: Allocator>(
    alloc: A,
    text: &mut Vec<u8, A>,
    layer: Layer,
    page: &DrawnPage<'_, B>,
) -> Result<(), AllocError>
    ensures { OnOk result
        (text.new.items ≡ text.old.items ++ old_layer layer (compared_page page.now)) }
{
    push_layer(
        alloc,
        text,
        layer,
        Which::Old,
        page.old.marks.as_slice(),
        page.differences.as_slice(),
    )
}

/// Appends marks of NEW.
#[tactic(auto, unfolding(crate::specs::Sheets::new_layer))]
fn push_new_layer<A: Allocator + Copy, B: Allocator>(
    alloc: A,
    text: &mut Vec<u8, A>,
    layer: Layer,
    page: &DrawnPage<'_, B>,
) -> Result<(), AllocError>
    ensures { OnOk result
        (text.new.items ≡ text.old.items ++ new_layer layer (compared_page page.now)) }
{
    push_layer(
        alloc,
        text,
        layer,
        Which::New,
        page.new.marks.as_slice(),
        page.differences.as_slice(),
    )
}
