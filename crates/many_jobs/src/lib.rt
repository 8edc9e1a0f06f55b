//! Checks of many jobs, each told of as a line, a sentence, an object or a row of a document.
#![tactic(auto)]

mod check_jobs;
mod document;
mod ending;
mod fleet_file;
mod job_checks;
mod job_noting;
mod job_objects;
mod job_row;
mod json_object;
mod json_texts;
mod kept_readings;
mod kept_texts;
mod limited;
mod limited_text;
mod note_reports;
mod telling;
mod told_lines;

pub use check_jobs::{ManyJobs, check_many, tell_refusal, word_of};
pub use fleet_file::read_fleet_file;
pub use job_objects::push_job_object;
pub use job_row::is_read_once;
pub use json_object::Object;
pub use kept_readings::read_near;
pub use kept_texts::printer_names;
pub use telling::{Format, Telling};
