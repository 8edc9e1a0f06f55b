//! The words of the lines that are written on a job: why it fails, its items, its marks and the
//! ends of its pages.
#![tactic(auto)]

mod figures;
mod item_lines;
mod mark_lines;
mod words;

pub use figures::{push_escaped, push_named, push_number_word, push_value_word};
pub use item_lines::{push_fault, push_item};
pub use mark_lines::{push_mark, push_page};
pub use words::{
    bare_name, push_field_words, push_name, push_reason, push_reason_name, short_reason,
};
