//! The pictures of the pages of a job on one printer, from one panel.
#![tactic(auto)]

mod drawing;
mod failing;
mod job_picture;
mod progress;
mod sheet;

pub use job_picture::{Wanted, picture_of};
