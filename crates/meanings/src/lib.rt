//! What faults, findings and notes mean, and the command that tells it.
#![tactic(auto)]

mod asked_code;
mod commands_told;
pub mod explain;
mod explanations;

pub use explanations::{EXPLANATIONS, reasons_are_explained};
