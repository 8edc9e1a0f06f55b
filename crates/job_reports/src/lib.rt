//! What is told of a job, as a line or a sentence, and of printers that are refused.
#![tactic(auto)]

mod command_words;
mod groups;
mod job_lines;
mod job_sentences;
mod kind;
mod left_out;
mod lines;
mod pipes;
mod refusals;
mod refused_names;
mod reports;

pub use command_words::{push_command_words, push_font_commands};
pub use groups::PrinterGroup;
pub use job_lines::push_job_line;
pub use job_sentences::{
    push_cause_phrase, push_job_sentence, push_named_first, sentences_are_short,
};
pub use kind::{Kind, kind_of};
pub use lines::{line_of, line_of_failure};
pub use pipes::{is_pipe, refuse_pipe, refuse_words};
pub use refusals::{
    push_refused_profile, push_refused_profile_sentence, push_unread, push_unread_profile,
    push_unread_profile_sentence, tell_unread,
};
pub use refused_names::push_refused_name;
pub use reports::Report;
