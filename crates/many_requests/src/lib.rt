//! A check of many jobs and comparisons by request, on files.
#![tactic(auto)]

mod compared_jobs;
mod documents;
mod drawn_jobs;
mod folders;
mod golden_jobs;
mod inputs;
mod lists;
mod looks;
mod many;
mod names;
mod read_again;

pub use compared_jobs::compare_asked;
pub use many::check_asked;
