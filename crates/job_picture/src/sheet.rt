//! What an item draws on the sheet of its page.
ghost use Rattle.std.specs.Prelude.{◌≡◌, ◌++◌, OnOk};
ghost use Rattle.page_env.specs.Mark.{shape_of};
ghost use Rattle.page_machine.specs.Event.{Ended, Marked};
ghost use Rattle.job_picture.specs.Sheet.{
  cross_picture,
  drawn_event,
  drawn_failure,
  due_head,
  end_of_all,
  failed_foot,
  label_of,
  sentence_below,
  start_of_all,
};

use crate::failing::{Spot, push_why};
use crate::progress::Progress;
use device_profile::Geometry;
use page_env::{Finding, Mark, PageEnd};
use page_picture::{
    push_document_end, push_document_start, push_foot, push_head, push_mark, push_page_number,
    push_sentence, push_veil,
};
use pcl_items::Place;
use requests::{DrawnPages, Selection};
use std::alloc::{AllocError, Allocator};

/// The sheet of the page that is open, for the marks of an item, and which pages are drawn.
#[derive(Clone, Copy)]
pub(crate) struct Sheet {
    /// Where the item stands.
    pub place: Place,
    pub selection: Selection,
    pub paper: Geometry,
    /// A sentence stands below the sheet, so the picture is higher than it.
    pub has_sentence: bool,
}

/// Appends the number of a page, which stands above its picture in a document.
fn push_label<A: Allocator>(
    text: &mut Vec<u8, A>,
    pages: DrawnPages,
    number: u64,
) -> Result<(), AllocError>
    ensures { OnOk result (text.new.items ≡ text.old.items ++ label_of pages number) }
{
    match pages {
        DrawnPages::All => push_page_number(text, number),
        DrawnPages::One(_) => Ok(()),
    }
}

/// Appends the head of a page, before the first that is drawn of it.
fn push_due_head<A: Allocator>(
    text: &mut Vec<u8, A>,
    sheet: &Sheet,
    progress: Progress,
) -> Result<(), AllocError>
    ensures { OnOk result (text.new.items ≡ text.old.items ++ due_head sheet.now progress) }
{
    if progress.is_marked {
        return Ok(());
    }
    push_label(text, sheet.selection.pages, progress.page)?;
    let has_patterns = sheet.selection.has_patterns(progress.page);
    push_head(text, &sheet.paper, sheet.has_sentence, has_patterns)
}

/// Appends what is drawn of a mark.
pub(crate) fn push_drawn_mark<A: Allocator>(
    text: &mut Vec<u8, A>,
    sheet: &Sheet,
    progress: Progress,
    mark: &Mark<'_>,
) -> Result<(), AllocError>
    ensures { OnOk result (text.new.items ≡ text.old.items
        ++ drawn_event sheet.now progress (Marked (shape_of mark.now))) }
{
    if !sheet.selection.is_drawn(progress.page) {
        return Ok(());
    }
    push_due_head(text, sheet, progress)?;
    push_mark(text, mark, sheet.selection.has_boxes, sheet.place)
}

/// Appends what is drawn of the end of a page.
pub(crate) fn push_drawn_end<A: Allocator>(
    text: &mut Vec<u8, A>,
    sheet: &Sheet,
    progress: Progress,
    _end: PageEnd,
) -> Result<(), AllocError>
    ensures { OnOk result (text.new.items ≡ text.old.items
        ++ drawn_event sheet.now progress (Ended _end)) }
{
    if !sheet.selection.is_drawn(progress.page) {
        return Ok(());
    }
    push_due_head(text, sheet, progress)?;
    push_foot(text)
}

/// Appends the sentence below the sheet, where there is room for it.
fn push_sentence_below<A: Allocator>(
    text: &mut Vec<u8, A>,
    sheet: &Sheet,
    sentence: &[u8],
) -> Result<(), AllocError>
    ensures { OnOk result (text.new.items ≡ text.old.items
        ++ sentence_below sheet.now sentence.now) }
{
    if !sheet.has_sentence {
        return Ok(());
    }
    push_sentence(text, &sheet.paper, sentence)
}

/// Appends what shows a failure: what was drawn before it is gray, and why it is stands upon that.
#[tactic(auto, unfolding(crate::specs::Sheet::cross_picture))]
fn push_cross<A: Allocator>(
    text: &mut Vec<u8, A>,
    sheet: &Sheet,
    progress: Progress,
    spot: Spot,
    why: Option<Finding>,
) -> Result<(), AllocError>
    ensures { OnOk result (text.new.items ≡ text.old.items
        ++ cross_picture sheet.now progress spot why) }
{
    push_due_head(text, sheet, progress)?;
    push_veil(text, &sheet.paper)?;
    push_why(text, &sheet.paper, spot, why)
}

/// Appends the end of a page on which a job fails: the sentence, and the foot.
#[tactic(auto, unfolding(crate::specs::Sheet::failed_foot))]
fn push_failed_foot<A: Allocator>(
    text: &mut Vec<u8, A>,
    sheet: &Sheet,
    sentence: &[u8],
) -> Result<(), AllocError>
    ensures { OnOk result (text.new.items ≡ text.old.items
        ++ failed_foot sheet.now sentence.now) }
{
    push_sentence_below(text, sheet, sentence)?;
    push_foot(text)
}

/// Appends what is drawn of the failure of a job, by a finding or by a fault of the bytes.
pub(crate) fn push_drawn_failure<A: Allocator>(
    text: &mut Vec<u8, A>,
    sheet: &Sheet,
    progress: Progress,
    spot: Spot,
    why: Option<Finding>,
    sentence: &[u8],
) -> Result<(), AllocError>
    ensures { OnOk result (text.new.items ≡ text.old.items
        ++ drawn_failure sheet.now progress spot why sentence.now) }
{
    if !sheet.selection.is_drawn(progress.page) {
        return Ok(());
    }
    push_cross(text, sheet, progress, spot, why)?;
    push_failed_foot(text, sheet, sentence)
}

/// Appends what stands before all pages.
pub(crate) fn push_start_of_all<A: Allocator>(
    text: &mut Vec<u8, A>,
    selection: Selection,
    verdict: &[u8],
) -> Result<(), AllocError>
    ensures { OnOk result (text.new.items ≡ text.old.items
        ++ start_of_all selection verdict.now) }
{
    match selection.pages {
        DrawnPages::All => push_document_start(text, verdict),
        DrawnPages::One(_) => Ok(()),
    }
}

/// Appends what stands behind them.
pub(crate) fn push_end_of_all<A: Allocator>(
    text: &mut Vec<u8, A>,
    selection: Selection,
) -> Result<(), AllocError>
    ensures { OnOk result (text.new.items ≡ text.old.items ++ end_of_all selection) }
{
    match selection.pages {
        DrawnPages::All => push_document_end(text),
        DrawnPages::One(_) => Ok(()),
    }
}
