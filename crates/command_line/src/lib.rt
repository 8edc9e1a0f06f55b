//! Reads the words of the command line.
#![tactic(auto)]

mod check_words;
mod commands;
mod compare_words;
mod form_words;
mod many_words;
mod nearness_words;
mod panel_words;
mod pdf_words;
mod picture_words;
mod profile_tool_words;
mod profile_words;
mod rows;
mod survey_words;
mod text_commands;
mod texts;
mod word;
mod words;

pub use form_words::form_of;
pub use word::Word;
pub use words::{Asked, read_words};
