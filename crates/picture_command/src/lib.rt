//! The program's command `picture`: pages of a job as pictures.
#![tactic(auto)]

mod command;
mod named_printer;
mod page_search;
mod same;

pub use command::{Found, PictureAsked, SearchedPages, find_pages, is_missing, picture};
pub use named_printer::{NamedPrinter, read_printer};
pub use page_search::Names;
