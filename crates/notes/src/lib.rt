//! What a job that passes leaves to the printer, and to the jobs before and behind it.
#![tactic(auto)]

mod closing;
mod item_notes;
mod job_notes;
mod note;
mod other_words;
mod past;
mod state_before;
mod telling;

pub use job_notes::notes_of;
pub use note::{MOST_ITEMS, Note, NoteLine, NoteText, note_name, short_note};
