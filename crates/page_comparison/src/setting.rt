//! What is the same for all marks of two pages.

use pcl_items::Place;

/// The number of the page, where it ends in both jobs, and how far the edges of near marks may lie
/// from each other, in ticks.
#[derive(Clone, Copy)]
pub(crate) struct Setting {
    pub(crate) page: u64,
    pub(crate) old_end: Place,
    pub(crate) new_end: Place,
    pub(crate) within: u64,
}
