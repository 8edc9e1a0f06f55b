//! The list of what differs on a page, beside its picture.
ghost use Rattle.std.specs.Prelude.{◌≡◌, ◌++◌, OnOk};
ghost use Rattle.comparison_picture.specs.Lists.{
  change_name,
  line_text,
  list_text,
  more_lines,
  more_rows,
  more_text,
  new_cells,
  new_places,
  old_cells,
  old_places,
  row_text,
  told_all,
  told_in,
};

use page_comparison::{PageChange, PageDifference};
use shown_bytes::push_number;
use std::alloc::{AllocError, Allocator};

/// Where a list stands.
#[derive(Clone, Copy)]
pub(crate) enum ListForm {
    /// Beside the page in an SVG: lines of text.
    Lines,
    /// Beside it in a document: rows of a table.
    Rows,
}

/// Appends a list of differences; of many the first, and how many there are behind them.
#[tactic(auto, unfolding(crate::specs::Lists::list_text))]
pub(crate) fn push_list<A: Allocator>(
    text: &mut Vec<u8, A>,
    form: ListForm,
    most: usize,
    differences: &[PageDifference],
) -> Result<(), AllocError>
    ensures { OnOk result (text.new.items ≡ text.old.items
        ++ list_text form most differences.now) }
{
    if differences.len() <= most {
        return push_all(text, form, differences);
    }
    push_all(text, form, &differences[..most])?;
    push_more(text, form, (differences.len() - most) as u64)
}

/// Appends differences.
fn push_all<A: Allocator>(
    text: &mut Vec<u8, A>,
    form: ListForm,
    differences: &[PageDifference],
) -> Result<(), AllocError>
    ensures { OnOk result (text.new.items ≡ text.old.items ++ told_all form differences.now) }
{
    for difference in differences {
        push_told(text, form, difference)?;
    }
    Ok(())
}

/// Appends a difference.
#[tactic(auto, unfolding(crate::specs::Lists::told_in))]
fn push_told<A: Allocator>(
    text: &mut Vec<u8, A>,
    form: ListForm,
    difference: &PageDifference,
) -> Result<(), AllocError>
    ensures { OnOk result (text.new.items ≡ text.old.items ++ told_in form difference.now) }
{
    match form {
        ListForm::Lines => push_line(text, difference),
        ListForm::Rows => push_row(text, difference),
    }
}

/// Appends how many differences more there are.
#[tactic(auto, unfolding(crate::specs::Lists::more_text))]
fn push_more<A: Allocator>(
    text: &mut Vec<u8, A>,
    form: ListForm,
    count: u64,
) -> Result<(), AllocError>
    ensures { OnOk result (text.new.items ≡ text.old.items ++ more_text form count) }
{
    match form {
        ListForm::Lines => push_more_lines(text, count),
        ListForm::Rows => push_more_rows(text, count),
    }
}

/// What differs, in words.
#[tactic(auto, unfolding(crate::specs::Lists::change_name))]
fn change_name(change: PageChange) -> &'static [u8]
    ensures { result.now ≡ change_name change }
{
    match change {
        PageChange::Moved => b"moved",
        PageChange::Changed => b"changed",
        PageChange::OnlyInOld => b"only in OLD",
        PageChange::OnlyInNew => b"only in NEW",
        PageChange::PageEnds => b"page ends otherwise",
        PageChange::PageOnlyInOld => b"page only in OLD",
        PageChange::PageOnlyInNew => b"page only in NEW",
        PageChange::Covers => b"covered otherwise",
    }
}

// ---- in an SVG

#[tactic(auto, unfolding(crate::specs::Lists::line_text))]
fn push_line<A: Allocator>(
    text: &mut Vec<u8, A>,
    difference: &PageDifference,
) -> Result<(), AllocError>
    ensures { OnOk result (text.new.items ≡ text.old.items ++ line_text difference.now) }
{
    text.extend_from_slice(b"<tspan x=\"10\" dy=\"17\">")?;
    text.extend_from_slice(change_name(difference.change))?;
    push_old_places(text, difference)?;
    push_new_places(text, difference)
}

/// Appends the number of OLD's mark, and where its item stands.
#[tactic(auto, unfolding(crate::specs::Lists::old_places))]
fn push_old_places<A: Allocator>(
    text: &mut Vec<u8, A>,
    difference: &PageDifference,
) -> Result<(), AllocError>
    ensures { OnOk result (text.new.items ≡ text.old.items ++ old_places difference.now) }
{
    text.extend_from_slice(b"</tspan><tspan class=\"old\" x=\"150\">mark ")?;
    push_number(text, difference.old_mark)?;
    text.extend_from_slice(b", byte ")?;
    push_number(text, difference.old_place)
}

/// Appends the same of NEW.
#[tactic(auto, unfolding(crate::specs::Lists::new_places))]
fn push_new_places<A: Allocator>(
    text: &mut Vec<u8, A>,
    difference: &PageDifference,
) -> Result<(), AllocError>
    ensures { OnOk result (text.new.items ≡ text.old.items ++ new_places difference.now) }
{
    text.extend_from_slice(b"</tspan><tspan class=\"new\" x=\"310\">mark ")?;
    push_number(text, difference.new_mark)?;
    text.extend_from_slice(b", byte ")?;
    push_number(text, difference.new_place)?;
    text.extend_from_slice(b"</tspan>\n")
}

#[tactic(auto, unfolding(crate::specs::Lists::more_lines))]
fn push_more_lines<A: Allocator>(text: &mut Vec<u8, A>, count: u64) -> Result<(), AllocError>
    ensures { OnOk result (text.new.items ≡ text.old.items ++ more_lines count) }
{
    text.extend_from_slice(b"<tspan x=\"10\" dy=\"17\">and ")?;
    push_number(text, count)?;
    text.extend_from_slice(b" more</tspan>\n")
}

// ---- in a document

#[tactic(auto, unfolding(crate::specs::Lists::row_text))]
fn push_row<A: Allocator>(
    text: &mut Vec<u8, A>,
    difference: &PageDifference,
) -> Result<(), AllocError>
    ensures { OnOk result (text.new.items ≡ text.old.items ++ row_text difference.now) }
{
    text.extend_from_slice(b"<tr><td>")?;
    text.extend_from_slice(change_name(difference.change))?;
    push_old_cells(text, difference)?;
    push_new_cells(text, difference)
}

/// Appends the number of OLD's mark, and where its item stands.
#[tactic(auto, unfolding(crate::specs::Lists::old_cells))]
fn push_old_cells<A: Allocator>(
    text: &mut Vec<u8, A>,
    difference: &PageDifference,
) -> Result<(), AllocError>
    ensures { OnOk result (text.new.items ≡ text.old.items ++ old_cells difference.now) }
{
    text.extend_from_slice(b"</td><td class=\"old\">")?;
    push_number(text, difference.old_mark)?;
    text.extend_from_slice(b"</td><td class=\"old\">")?;
    push_number(text, difference.old_place)
}

/// Appends the same of NEW.
#[tactic(auto, unfolding(crate::specs::Lists::new_cells))]
fn push_new_cells<A: Allocator>(
    text: &mut Vec<u8, A>,
    difference: &PageDifference,
) -> Result<(), AllocError>
    ensures { OnOk result (text.new.items ≡ text.old.items ++ new_cells difference.now) }
{
    text.extend_from_slice(b"</td><td class=\"new\">")?;
    push_number(text, difference.new_mark)?;
    text.extend_from_slice(b"</td><td class=\"new\">")?;
    push_number(text, difference.new_place)?;
    text.extend_from_slice(b"</td></tr>\n")
}

#[tactic(auto, unfolding(crate::specs::Lists::more_rows))]
fn push_more_rows<A: Allocator>(text: &mut Vec<u8, A>, count: u64) -> Result<(), AllocError>
    ensures { OnOk result (text.new.items ≡ text.old.items ++ more_rows count) }
{
    text.extend_from_slice(b"<tr><td colspan=\"5\">and ")?;
    push_number(text, count)?;
    text.extend_from_slice(b" more</td></tr>\n")
}
