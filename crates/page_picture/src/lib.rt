//! The picture of a page: the SVG text of its sheet, of its marks, and of where a job fails.
#![tactic(auto)]

mod attributes;
mod characters;
mod failure;
mod failure_parts;
mod figures;
mod mark_parts;
mod marks;
mod rows;
mod ruler_parts;
mod rulers;
mod sheet;
mod sheet_parts;
mod texts;
mod titles;

pub use attributes::span;
pub use characters::{Repertoire, WINDOWS_FROM_128, character_in, character_of, repertoire_of};
pub use failure::{Outline, push_limit, push_unmade, push_veil};
pub use failure_parts::Limit;
pub use figures::{hundredths, push_length_units, push_units};
pub use marks::{is_bold, is_italic, push_mark};
pub use sheet::{
    letter_size, printable_box, push_document_end, push_document_start, push_failure, push_foot,
    push_head, push_page_number, push_sentence,
};
pub use texts::push_sentence_text;
