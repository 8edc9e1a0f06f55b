//! What is done by request on one job and on profiles, on files.
#![tactic(auto)]

pub mod job_texts;
mod outs;
pub mod profiles;
