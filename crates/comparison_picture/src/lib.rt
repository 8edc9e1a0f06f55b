//! The pictures of pages on which two jobs differ: what both have in gray, what OLD has alone in
//! red, and what NEW has alone in green, with the list of the differences beside it.
//!
//! `specs/Picture.antt` says what the SVG of a page is, and `specs/Document.antt` what the HTML
//! document of several pages is; `specs/Marks.antt` which marks are drawn in which layer,
//! `specs/Differing.antt` which marks differ, and `specs/Lists.antt` what stands in the lists.
#![tactic(auto)]

mod differing;
mod document;
mod drawn_page;
mod fixed_parts;
mod lists;
mod marks;
mod picture;
mod sheets;

pub use document::push_document;
pub use drawn_page::{DrawnPage, paper_of};
pub use picture::push_picture;
