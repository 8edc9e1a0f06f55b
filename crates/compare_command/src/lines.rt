//! The lines that tell what comes of two jobs.

ghost use Rattle.std.specs.Prelude.{◌≡◌, ◌++◌, OnOk};
ghost use Rattle.compare_command.specs.Lines.{
  change_words,
  counts_words,
  difference_line,
  line_end,
  mark_of,
  more_line,
  name_part,
  place_words,
  printer_part,
  same_line,
  spot_words,
  where_words,
};

use line_words::push_named;
use page_comparison::{PageChange, PageDifference};
use shown_bytes::push_shown;
use sinks::Counts;
use std::alloc::{AllocError, Allocator};

/// What differs.
pub(crate) fn change_words(change: PageChange) -> &'static [u8]
    ensures { result.now ≡ change_words change }
{
    match change {
        PageChange::Moved => b"moved",
        PageChange::Changed => b"changed",
        PageChange::OnlyInOld => b"only in OLD",
        PageChange::OnlyInNew => b"only in NEW",
        PageChange::PageEnds => b"page ends otherwise",
        PageChange::PageOnlyInOld => b"only in OLD",
        PageChange::PageOnlyInNew => b"only in NEW",
        PageChange::Covers => b"covered otherwise",
    }
}

/// The number of the mark that is told, on its page: that of NEW where OLD has none.
pub(crate) fn mark_of(difference: PageDifference) -> u64
    ensures { result ≡ mark_of difference }
{
    match difference.change {
        PageChange::OnlyInNew => difference.new_mark,
        PageChange::Moved => difference.old_mark,
        PageChange::Changed => difference.old_mark,
        PageChange::OnlyInOld => difference.old_mark,
        PageChange::PageEnds => difference.old_mark,
        PageChange::PageOnlyInOld => difference.old_mark,
        PageChange::PageOnlyInNew => difference.new_mark,
        PageChange::Covers => difference.old_mark,
    }
}

/// Appends so many pages and marks.
#[tactic(auto, unfolding(crate::specs::Lines::counts_words))]
pub(crate) fn push_counts<A: Allocator>(
    text: &mut Vec<u8, A>,
    counts: Counts,
) -> Result<(), AllocError>
    ensures { OnOk result (text.new.items ≡ text.old.items ++ counts_words counts) }
{
    push_named(text, b"pages=", counts.pages)?;
    push_named(text, b" marks=", counts.marks)
}

/// Appends the line on jobs that print the same; of one of many jobs with its name.
#[tactic(auto, unfolding(crate::specs::Lines::same_line))]
pub(crate) fn push_same_line<A: Allocator>(
    text: &mut Vec<u8, A>,
    is_named: bool,
    job: &str,
    counts: Counts,
) -> Result<(), AllocError>
    ensures { OnOk result (text.new.items ≡ text.old.items ++ same_line is_named job.now counts) }
{
    text.extend_from_slice(b"SAME ")?;
    push_counts(text, counts)?;
    push_line_end(text, is_named, job)?;
    Ok(())
}

/// Appends the line on jobs that differ so on the printer of this name; of one of many jobs with
/// its name.
#[tactic(auto, unfolding(crate::specs::Lines::difference_line))]
pub(crate) fn push_difference_line<A: Allocator>(
    text: &mut Vec<u8, A>,
    is_named: bool,
    job: &str,
    name: &[u8],
    difference: PageDifference,
) -> Result<(), AllocError>
    ensures { OnOk result (text.new.items ≡ text.old.items
        ++ difference_line is_named job.now name.now difference) }
{
    text.extend_from_slice(b"DIFFERS ")?;
    push_where(text, difference)?;
    push_printer(text, name, difference.change)?;
    push_line_end(text, is_named, job)?;
    Ok(())
}

/// Appends the line on differences that are left out, where so many pages differ; of one of many
/// jobs with its name.
#[tactic(auto, unfolding(crate::specs::Lines::more_line))]
pub(crate) fn push_more_line<A: Allocator>(
    text: &mut Vec<u8, A>,
    is_named: bool,
    job: &str,
    pages: u64,
) -> Result<(), AllocError>
    ensures { OnOk result (text.new.items ≡ text.old.items ++ more_line is_named job.now pages) }
{
    push_named(text, b"MORE pages=", pages)?;
    push_line_end(text, is_named, job)?;
    Ok(())
}

/// Ends a line; that of one of many jobs with its name.
#[tactic(auto, unfolding(crate::specs::Lines::line_end))]
fn push_line_end<A: Allocator>(
    text: &mut Vec<u8, A>,
    is_named: bool,
    job: &str,
) -> Result<(), AllocError>
    ensures { OnOk result (text.new.items ≡ text.old.items ++ line_end is_named job.now) }
{
    push_name_part(text, is_named, job)?;
    text.push(b'\n')?;
    Ok(())
}

/// Appends the name of a job that is one of many.
fn push_name_part<A: Allocator>(
    text: &mut Vec<u8, A>,
    is_named: bool,
    job: &str,
) -> Result<(), AllocError>
    ensures { OnOk result (text.new.items ≡ text.old.items ++ name_part is_named job.now) }
{
    if !is_named {
        return Ok(());
    }
    text.push(b' ')?;
    push_shown(text, job.as_bytes())
}

/// Appends where they differ.
#[tactic(auto, unfolding(crate::specs::Lines::where_words))]
fn push_where<A: Allocator>(
    text: &mut Vec<u8, A>,
    difference: PageDifference,
) -> Result<(), AllocError>
    ensures { OnOk result (text.new.items ≡ text.old.items ++ where_words difference) }
{
    push_spot(text, difference)?;
    push_places(text, difference)
}

#[tactic(auto, unfolding(crate::specs::Lines::spot_words))]
fn push_spot<A: Allocator>(
    text: &mut Vec<u8, A>,
    difference: PageDifference,
) -> Result<(), AllocError>
    ensures { OnOk result (text.new.items ≡ text.old.items ++ spot_words difference) }
{
    push_named(text, b"page=", difference.page)?;
    push_named(text, b" mark=", mark_of(difference))
}

#[tactic(auto, unfolding(crate::specs::Lines::place_words))]
fn push_places<A: Allocator>(
    text: &mut Vec<u8, A>,
    difference: PageDifference,
) -> Result<(), AllocError>
    ensures { OnOk result (text.new.items ≡ text.old.items ++ place_words difference) }
{
    push_named(text, b" old=", difference.old_place)?;
    push_named(text, b" new=", difference.new_place)
}

/// Appends the printer, and what differs.
#[tactic(auto, unfolding(crate::specs::Lines::printer_part))]
fn push_printer<A: Allocator>(
    text: &mut Vec<u8, A>,
    name: &[u8],
    change: PageChange,
) -> Result<(), AllocError>
    ensures { OnOk result (text.new.items ≡ text.old.items ++ printer_part name.now change) }
{
    text.extend_from_slice(b" printer=")?;
    text.extend_from_slice(name)?;
    text.extend_from_slice(b" ")?;
    text.extend_from_slice(change_words(change))?;
    Ok(())
}
