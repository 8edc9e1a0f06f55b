//! The HTML document of a check of many jobs: how it begins, the row of a job, and how it ends.
#![tactic(auto)]

mod bodies;
mod document;
mod escapes;
mod heads;
mod links;
mod page_parts;
mod pictures;
mod rows;

pub use document::{push_document_end, push_document_start};
pub use escapes::texts_are_inert;
pub use heads::push_note;
pub use links::{JobDocument, last_part, push_document_path};
pub use rows::{RowParts, push_row};
