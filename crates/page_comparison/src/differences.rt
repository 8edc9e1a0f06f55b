//! All that differs of two jobs, page by page.
ghost use Rattle.std.specs.Prelude.{◌≡◌};
ghost use Rattle.page_comparison.specs.declared.differences.PagesError.TheVariants.{Memory};

use crate::page::PagePair;
use comparison::{Unread, Which};
use sinks::Counts;
use std::alloc::{AllocError, Allocator};
use verdict::Failure;

/// Of a page that has more marks there is no comparison.
pub const MOST_MARKS: usize = 1 << 20;

/// How near is the same.
#[derive(Clone, Copy, Debug, PartialEq, Eq)]
pub struct Nearness {
    /// Whether the marks of a page may be made in any order.
    pub any_order: bool,
    /// How far each edge of a mark may lie off, in ticks; 0: not at all.
    pub within: u64,
}

/// How much is kept of what differs.
#[derive(Clone, Copy, Debug, PartialEq, Eq)]
pub struct Most {
    /// So many differences are listed.
    pub differences: u64,
    /// So many pages that differ are held with all their marks, to be drawn.
    pub pages: u64,
}

/// What differs.
#[derive(Clone, Copy, Debug, PartialEq, Eq)]
pub enum PageChange {
    /// The mark stands at another place, and is otherwise the same.
    Moved,
    /// Another mark stands for it.
    Changed,
    /// OLD has a mark that NEW does not have.
    OnlyInOld,
    /// NEW has one that OLD does not have.
    OnlyInNew,
    /// The page ends with other values.
    PageEnds,
    /// OLD has the page, and NEW does not.
    PageOnlyInOld,
    /// NEW has the page, and OLD does not.
    PageOnlyInNew,
    /// The mark of OLD overlaps one that OLD makes before it and NEW behind it, and exactly one of
    /// them is white: it covers otherwise.
    Covers,
}

/// A difference of two pages.
#[derive(Clone, Copy, Debug, PartialEq, Eq)]
pub struct PageDifference {
    /// The page, from 1.
    pub page: u64,
    /// The number of OLD's mark on its page, from 1; where OLD has none, of the mark that comes
    /// next, or one more than its page has marks.
    pub old_mark: u64,
    /// The same of NEW.
    pub new_mark: u64,
    /// Where the item of OLD stands that makes this mark, in bytes from the job's start; behind the
    /// last mark where the page ends, and of a page that OLD does not have the number of its bytes.
    pub old_place: u64,
    /// The same of NEW.
    pub new_place: u64,
    pub change: PageChange,
}

/// The differences of two jobs, of which neither fails.
#[derive(Drop)]
pub struct Differences<A: Allocator> {
    /// The first ones, in their order.
    pub listed: Vec<PageDifference, A>,
    /// Whether there are more than are listed.
    pub more: bool,
    /// How many pages differ.
    pub pages: u64,
    /// The first of these pages.
    pub pairs: Vec<PagePair<A>, A>,
}

/// What comes of two jobs, OLD and NEW, on a printer.
#[derive(Drop)]
pub enum PageComparison<A: Allocator> {
    /// They print the same: OLD has so many pages and marks, and NEW as many.
    Same(Counts),
    /// Neither fails, and they differ.
    Differs(Differences<A>),
    /// OLD fails.
    OldFails(Failure),
    /// NEW fails, and OLD does not.
    NewFails(Failure),
}

/// A page of one of two jobs, from 1.
#[derive(Clone, Copy, Debug, PartialEq, Eq)]
pub struct PageOf {
    pub which: Which,
    pub page: u64,
}

/// Why there is no comparison.
#[derive(Clone, Copy, Debug, PartialEq, Eq)]
pub enum PagesError {
    /// One of the jobs was not read to its end.
    Unread(Unread),
    /// A page has more than `MOST_MARKS` marks.
    TooManyMarks(PageOf),
    /// Memory was refused for the marks of a page, or for the differences.
    Memory,
}

impl From<AllocError> for PagesError {
    ghost from_gives = { λ _ e. e ≡ Memory };

    fn from(_error: AllocError) -> PagesError {
        PagesError::Memory
    }
}
