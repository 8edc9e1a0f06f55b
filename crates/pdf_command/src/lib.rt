//! The program's command `pdf`: the pages of a job as a PDF document.
#![tactic(auto)]

mod command;

pub use command::{PdfAsked, PdfEnd, pdf};
