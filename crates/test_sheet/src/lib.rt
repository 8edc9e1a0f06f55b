//! The test sheet: a job with which a person compares a printer and its profile by a ruler.
#![tactic(auto)]

mod area;
mod commands;
mod dots;
mod face_pages;
mod figures;
mod lines;
mod marks;
mod measured_page;
mod own_page;
mod parts;
mod sheet;

pub use sheet::sheet_job;
