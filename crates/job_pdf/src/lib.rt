//! The pages of a job on one printer, from one panel, as a PDF document.
#![tactic(auto)]

mod drawing;
mod job_pdf;
mod sheet;
mod telling;
mod wanted;

pub use job_pdf::pdf_of;
pub use wanted::WantedPages;
