//! What a profile says, in words that people at a printer know.
#![tactic(auto)]

mod faces;
mod figures;
mod label;
mod pages;
mod panel;
mod shown;
mod words;

pub use shown::profile_text;
