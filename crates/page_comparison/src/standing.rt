//! Where the comparison of two pages stands.

ghost use Rattle.std.specs.Prelude.{◌≡◌};
ghost use Rattle.page_comparison.specs.Told.{behind, difference_at, first_standing};

use crate::differences::{PageChange, PageDifference};
use pcl_items::Place;

/// A page, and the numbers of the marks that come next on it, from 1.
#[derive(Clone, Copy)]
pub(crate) struct Standing {
    pub(crate) page: u64,
    pub(crate) old_mark: u64,
    pub(crate) new_mark: u64,
}

impl Standing {
    /// Before the first marks of a page.
    pub(crate) fn first(page: u64) -> Standing
        ensures { result ≡ first_standing page }
    {
        Standing {
            page,
            old_mark: 1,
            new_mark: 1,
        }
    }

    /// Behind so many marks of OLD, and so many of NEW.
    pub(crate) fn behind(self, old: usize, new: usize) -> Standing
        ensures { result ≡ behind old new self }
    {
        Standing {
            page: self.page,
            old_mark: self.old_mark.saturating_add(old as u64),
            new_mark: self.new_mark.saturating_add(new as u64),
        }
    }

    /// A difference here, of items at these places.
    pub(crate) fn difference(
        self,
        old_place: Place,
        new_place: Place,
        change: PageChange,
    ) -> PageDifference
        ensures { result ≡ difference_at self old_place new_place change }
    {
        PageDifference {
            page: self.page,
            old_mark: self.old_mark,
            new_mark: self.new_mark,
            old_place,
            new_place,
            change,
        }
    }
}
