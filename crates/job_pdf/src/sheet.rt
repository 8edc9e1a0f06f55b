//! What an item adds to the document, on the sheet of its page.
ghost use Rattle.std.specs.Prelude.{◌≡◌, ◌++◌, OnOk};
ghost use Rattle.page_env.specs.Mark.{shape_of};
ghost use Rattle.page_machine.specs.Event.{Ended, Marked};
ghost use Rattle.page_pdf.specs.Document.{HasWritten};
ghost use Rattle.job_pdf.specs.Sheet.{drawn_failure, event_if_drawn, event_written};
ghost use Rattle.job_pdf.specs.Sheet.{start_if_due, started};

use page_env::{Mark, PageEnd, SheetPlace};
use page_pdf::{Document, PageSheet};
use requests::Selection;
use std::alloc::{AllocError, Allocator};

/// The sheet of the page that is open, and which pages are written.
#[derive(Clone, Copy)]
pub(crate) struct Sheet {
    pub selection: Selection,
    pub page: PageSheet,
}

/// Writes a mark, where its page is written.
pub(crate) fn push_drawn_mark<A: Allocator, B: Allocator + Copy>(
    text: &mut Vec<u8, A>,
    sheet: &Sheet,
    document: &mut Document<B>,
    mark: &Mark<'_>,
) -> Result<(), AllocError>
    ensures { OnOk result
        (HasWritten (event_written sheet.now (Marked (shape_of mark.now)) document.old)
        text.old.items text.new.items document.new) }
{
    if sheet.selection.is_drawn(document.page()) {
        return document.push_mark(text, &sheet.page, mark);
    }
    Ok(())
}

/// Writes the end of a page, where it is written.
fn push_end_if_drawn<A: Allocator, B: Allocator + Copy>(
    text: &mut Vec<u8, A>,
    sheet: &Sheet,
    document: &mut Document<B>,
    end: PageEnd,
) -> Result<(), AllocError>
    ensures { OnOk result (HasWritten (event_if_drawn sheet.now (Ended end) document.old)
        text.old.items text.new.items document.new) }
{
    let is_drawn = sheet.selection.is_drawn(document.page());
    if is_drawn {
        return document.end_page(text, &sheet.page, end);
    }
    Ok(())
}

/// Writes the end of a page, where it is written, and goes on to the next.
pub(crate) fn push_drawn_end<A: Allocator, B: Allocator + Copy>(
    text: &mut Vec<u8, A>,
    sheet: &Sheet,
    document: &mut Document<B>,
    end: PageEnd,
) -> Result<(), AllocError>
    ensures { OnOk result (HasWritten (event_written sheet.now (Ended end) document.old)
        text.old.items text.new.items document.new) }
{
    push_end_if_drawn(text, sheet, document, end)?;
    document.pass_page();
    Ok(())
}

/// Writes a failure, where its page is written.
pub(crate) fn push_drawn_failure<A: Allocator, B: Allocator + Copy>(
    text: &mut Vec<u8, A>,
    sheet: &Sheet,
    document: &mut Document<B>,
    spot: SheetPlace,
    sentence: &[u8],
) -> Result<(), AllocError>
    ensures { OnOk result (HasWritten
        (drawn_failure sheet.now (record { x = spot.x; y = spot.y }) sentence.now document.old)
        text.old.items text.new.items document.new) }
{
    if sheet.selection.is_drawn(document.page()) {
        return document.fail_page(text, &sheet.page, spot, sentence);
    }
    Ok(())
}

/// Writes what stands before the pages, unless it is written.
pub(crate) fn push_start_if_due<A: Allocator, B: Allocator + Copy>(
    text: &mut Vec<u8, A>,
    document: &mut Document<B>,
    is_started: bool,
) -> Result<(), AllocError>
    ensures text { OnOk result (text.new.items ≡ text.old.items ++ start_if_due is_started) }
    ensures document { OnOk result (document.new ≡ started is_started document.old) }
{
    if is_started {
        return Ok(());
    }
    document.push_start(text)
}
