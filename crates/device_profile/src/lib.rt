//! What is known of a printer, as a profile's text tells it: the values that its panel may have,
//! its pages and its faces.
#![tactic(auto)]

mod choices;
mod code_ranges;
mod draft;
mod draft_parts;
mod face_line;
mod fault;
mod field;
mod font;
mod format;
mod geometry;
mod geometry_line;
mod key;
pub mod laws;
mod likeness;
mod name;
mod named_set;
mod nearest;
mod panel;
mod profile;
mod read;
mod rows;
mod sample;
mod scan;
mod values;
mod whole;
mod words;

pub use draft::Draft;
pub use fault::{Cause, LineFault, ProfileFault};
pub use field::Field;
pub use font::{CodeRange, FontRequest, FontRow, SymbolSet, are_same_ranges, is_same_request};
pub use format::Format;
pub use geometry::Geometry;
pub use key::Key;
pub use name::printer_name;
pub use named_set::NamedSet;
pub use nearest::nearest_request;
pub use panel::Panel;
pub use profile::Profile;
pub use read::{FORMAT_NAME, MOST_BYTES, format_of};
pub use rows::{has_face, has_orientation, has_row, has_size};
pub use sample::Sample;
pub use scan::{amount, next_line, next_word, number};
