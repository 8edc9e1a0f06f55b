//! Which marks of a page differ.
ghost use Rattle.std.specs.Prelude.{◌≡◌, ◌<◌, IfOk, length, slice_set, true};
ghost use Rattle.page_comparison.specs.Pages.{made_marks};
ghost use Rattle.comparison_picture.specs.Differing.{
  differing,
  flagged,
  flagged_all,
  has_new_mark,
  has_old_mark,
  index_of,
  unflagged,
};

use comparison::Which;
use page_comparison::{PageChange, PageDifference, PlacedMark};
use std::alloc::{AllocError, Allocator};

/// A flag for each mark of a job's page: whether one of the differences tells of it.
#[tactic(auto, unfolding(crate::specs::Differing::differing))]
pub(crate) fn flags_of<A: Allocator, B: Allocator>(
    alloc: A,
    which: Which,
    marks: &[PlacedMark<B>],
    differences: &[PageDifference],
) -> Result<Vec<bool, A>, AllocError>
    ensures { IfOk result (λ flags. flags.items
        ≡ differing which (made_marks marks.now) differences.now) }
{
    let mut flags = unflagged(alloc, marks)?;
    flag_all(flags.as_mut_slice(), which, differences);
    Ok(flags)
}

/// The flags of marks of which none differs.
fn unflagged<A: Allocator, B: Allocator>(
    alloc: A,
    marks: &[PlacedMark<B>],
) -> Result<Vec<bool, A>, AllocError>
    ensures { IfOk result (λ flags. flags.items ≡ unflagged (made_marks marks.now)) }
{
    let mut flags = Vec::new(alloc);
    for mark in marks {
        let _ = mark;
        flags.push(false)?;
    }
    Ok(flags)
}

/// Sets the flag of each mark of which one of the differences tells.
fn flag_all(flags: &mut [bool], which: Which, differences: &[PageDifference])
    ensures { flags.new ≡ flagged_all which differences.now flags.old }
{
    for difference in differences {
        flag(flags, which, difference);
    }
}

/// Sets the flag of the mark of which a difference tells, where it tells of one.
#[tactic(auto, unfolding(crate::specs::Differing::flagged))]
fn flag(flags: &mut [bool], which: Which, difference: &PageDifference)
    ensures { flags.new ≡ flagged which difference.now flags.old }
{
    let index = index_of(which, difference);
    if index < flags.len() {
        set_flag(flags, index);
    }
}

fn set_flag(flags: &mut [bool], index: usize)
    requires { index < length flags.old }
    ensures { flags.new ≡ slice_set flags.old index true }
{
    flags[index] = true;
}

/// The index of the mark of a job of which a difference tells; where it tells of none, one that no
/// mark has.
#[tactic(auto, unfolding(crate::specs::Differing::index_of))]
fn index_of(which: Which, difference: &PageDifference) -> usize
    ensures { result ≡ index_of which difference.now }
{
    match which {
        Which::Old => {
            if has_old_mark(difference.change) {
                difference.old_mark.saturating_sub(1) as usize
            } else {
                usize::MAX
            }
        }
        Which::New => {
            if has_new_mark(difference.change) {
                difference.new_mark.saturating_sub(1) as usize
            } else {
                usize::MAX
            }
        }
    }
}

/// Whether a mark of OLD differs by such a change.
#[tactic(auto, unfolding(crate::specs::Differing::has_old_mark))]
fn has_old_mark(change: PageChange) -> bool
    ensures { result ≡ has_old_mark change }
{
    match change {
        PageChange::Moved => true,
        PageChange::Changed => true,
        PageChange::OnlyInOld => true,
        PageChange::OnlyInNew => false,
        PageChange::PageEnds => false,
        PageChange::PageOnlyInOld => false,
        PageChange::PageOnlyInNew => false,
        PageChange::Covers => true,
    }
}

/// Whether a mark of NEW differs by such a change.
#[tactic(auto, unfolding(crate::specs::Differing::has_new_mark))]
fn has_new_mark(change: PageChange) -> bool
    ensures { result ≡ has_new_mark change }
{
    match change {
        PageChange::Moved => true,
        PageChange::Changed => true,
        PageChange::OnlyInOld => false,
        PageChange::OnlyInNew => true,
        PageChange::PageEnds => false,
        PageChange::PageOnlyInOld => false,
        PageChange::PageOnlyInNew => false,
        PageChange::Covers => true,
    }
}
