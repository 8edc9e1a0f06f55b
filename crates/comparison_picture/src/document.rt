//! The HTML document of pages on which two jobs differ.
ghost use Rattle.std.specs.Prelude.{◌≡◌, ◌++◌, OnOk, true};
ghost use Rattle.comparison_picture.specs.Document.{
  difference_document,
  document_head,
  document_start,
  page_section,
  section_list,
  section_sheet,
  section_start,
  sections,
  undrawn_part,
};
ghost use Rattle.comparison_picture.specs.DrawnPages.{compared_page, compared_pages};

use crate::drawn_page::DrawnPage;
use crate::fixed_parts::{
    push_body_part, push_filters, push_head_part, push_legend, push_list_head, push_style,
};
use crate::lists::{ListForm, push_list};
use crate::sheets::{push_apart, push_common_sheet};
use page_picture::{push_foot, push_sentence_text};
use shown_bytes::push_number;
use std::alloc::{AllocError, Allocator};

/// Beside a page so many differences are listed.
const MOST_ROWS: usize = 1_000;

/// Appends the document of pages that differ, with this sentence above them, which tells what comes
/// of both jobs. So many pages more differ, and are not drawn.
#[tactic(auto, unfolding(crate::specs::Document::difference_document))]
pub fn push_document<A: Allocator + Copy, B: Allocator>(
    alloc: A,
    text: &mut Vec<u8, A>,
    pages: &[DrawnPage<'_, B>],
    undrawn: u64,
    sentence: &[u8],
) -> Result<(), AllocError>
    ensures { OnOk result (text.new.items ≡ text.old.items
        ++ difference_document (compared_pages pages.now) undrawn sentence.now) }
{
    push_document_start(text, sentence)?;
    push_sections(alloc, text, pages)?;
    push_undrawn(text, undrawn)?;
    text.extend_from_slice(b"</body>\n</html>\n")
}

// ---- before the pages

#[tactic(auto, unfolding(crate::specs::Document::document_head))]
fn push_document_head<A: Allocator>(text: &mut Vec<u8, A>) -> Result<(), AllocError>
    ensures { OnOk result (text.new.items ≡ text.old.items ++ document_head) }
{
    push_head_part(text)?;
    push_style(text)?;
    push_body_part(text)?;
    push_filters(text)
}

/// Appends the head, the sentence, and what stands for what.
#[tactic(auto, unfolding(crate::specs::Document::document_start))]
fn push_document_start<A: Allocator>(
    text: &mut Vec<u8, A>,
    sentence: &[u8],
) -> Result<(), AllocError>
    ensures { OnOk result (text.new.items ≡ text.old.items ++ document_start sentence.now) }
{
    push_document_head(text)?;
    text.extend_from_slice(b"</svg>\n<p>")?;
    push_sentence_text(text, sentence)?;
    push_legend(text)
}

// ---- the pages

/// Appends pages. The first has the patterns of hatched rectangles, whose names stand for one thing
/// in a document.
fn push_sections<A: Allocator + Copy, B: Allocator>(
    alloc: A,
    text: &mut Vec<u8, A>,
    pages: &[DrawnPage<'_, B>],
) -> Result<(), AllocError>
    ensures { OnOk result (text.new.items ≡ text.old.items
        ++ sections true (compared_pages pages.now)) }
{
    let mut has_patterns = true;
    for page in pages {
        push_page_section(alloc, text, page, has_patterns)?;
        has_patterns = false;
    }
    Ok(())
}

#[tactic(auto, unfolding(crate::specs::Document::page_section))]
fn push_page_section<A: Allocator + Copy, B: Allocator>(
    alloc: A,
    text: &mut Vec<u8, A>,
    page: &DrawnPage<'_, B>,
    has_patterns: bool,
) -> Result<(), AllocError>
    ensures { OnOk result (text.new.items ≡ text.old.items
        ++ page_section has_patterns (compared_page page.now)) }
{
    push_section_start(text, page.number)?;
    push_section_sheet(alloc, text, page, has_patterns)?;
    push_section_list(text, page)
}

#[tactic(auto, unfolding(crate::specs::Document::section_start))]
fn push_section_start<A: Allocator>(text: &mut Vec<u8, A>, number: u64) -> Result<(), AllocError>
    ensures { OnOk result (text.new.items ≡ text.old.items ++ section_start number) }
{
    text.extend_from_slice(b"<section>\n<h2>Page ")?;
    push_number(text, number)?;
    text.extend_from_slice(b"</h2>\n<div>\n")
}

#[tactic(auto, unfolding(crate::specs::Document::section_sheet))]
fn push_section_sheet<A: Allocator + Copy, B: Allocator>(
    alloc: A,
    text: &mut Vec<u8, A>,
    page: &DrawnPage<'_, B>,
    has_patterns: bool,
) -> Result<(), AllocError>
    ensures { OnOk result (text.new.items ≡ text.old.items
        ++ section_sheet has_patterns (compared_page page.now)) }
{
    push_common_sheet(alloc, text, page, false, has_patterns)?;
    push_apart(alloc, text, page)?;
    push_foot(text)
}

#[tactic(auto, unfolding(crate::specs::Document::section_list))]
fn push_section_list<A: Allocator, B: Allocator>(
    text: &mut Vec<u8, A>,
    page: &DrawnPage<'_, B>,
) -> Result<(), AllocError>
    ensures { OnOk result
        (text.new.items ≡ text.old.items ++ section_list (compared_page page.now)) }
{
    push_list_head(text)?;
    push_list(text, ListForm::Rows, MOST_ROWS, page.differences.as_slice())?;
    text.extend_from_slice(b"</tbody>\n</table>\n</div>\n</section>\n")
}

/// Appends how many pages differ and are not drawn, where there are such pages.
#[tactic(auto, unfolding(crate::specs::Document::undrawn_part))]
fn push_undrawn<A: Allocator>(text: &mut Vec<u8, A>, undrawn: u64) -> Result<(), AllocError>
    ensures { OnOk result (text.new.items ≡ text.old.items ++ undrawn_part undrawn) }
{
    if undrawn == 0 {
        return Ok(());
    }
    text.extend_from_slice(b"<p>Pages that differ, too, and are not drawn: ")?;
    push_number(text, undrawn)?;
    text.extend_from_slice(b"</p>\n")
}
