//! All that differs of two jobs on a printer, page by page, and how near is the same.
//!
//! `specs/Pages.antt` says what the pages of a job are, `specs/Marks.antt` which marks are near,
//! `specs/InOrder.antt` and `specs/AnyOrder.antt` how the marks of two pages are matched, and
//! `specs/Comparison.antt` what comes of two jobs.
#![tactic(auto)]

mod any_order;
mod bag;
mod compare;
mod differences;
mod edges;
mod footprint;
mod in_order;
mod laws;
mod listing;
mod nearness;
mod page;
mod reading;
mod setting;
mod standing;
mod turn;

pub use compare::{compare_pages, differences_of};
pub use differences::{
    Differences, MOST_MARKS, Most, Nearness, PageChange, PageComparison, PageDifference, PageOf,
    PagesError,
};
pub use laws::{in_order_is_exact, same_as_itself, same_in_any_order};
pub use page::{Page, PagePair, PlacedMark};
