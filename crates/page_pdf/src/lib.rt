//! What a page is in a PDF document, and what the document is made of: marks, pages, objects, and
//! the table of where these stand.
#![tactic(auto)]

mod bands;
mod codes;
mod counting;
mod document;
mod figures;
mod fixed_objects;
mod hexes;
mod maps;
mod mark_parts;
mod marks;
mod object_parts;
mod objects;
mod page_parts;
mod pages;
mod pending;
mod starts;
mod strings;
mod table;
mod titles;

pub use document::{Document, PageSheet};
