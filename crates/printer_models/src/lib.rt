//! The texts of profiles of real printers, which are made by model from two tables: the pages by
//! paper, and the resident faces by generation.
#![tactic(auto)]

mod asked;
mod comparison;
mod face;
mod listing;
mod model;
mod new_profile;
mod page;
mod panel_lists;
mod paper;
mod text;

pub use asked::{PaperFault, WordFault};
pub use face::{
    CharacterSet, Cut, FaceLook, FaceRow, Generation, Metrics, TYPEFACES, Typeface, faces_of,
};
pub use listing::models_text;
pub use model::{MODELS, Model, ModelRow};
pub use new_profile::{NewError, new_text};
pub use page::{page_numbers, page_of};
pub use panel_lists::{FixedFields, PanelLists};
pub use paper::{Measure, PAPERS, Paper, Sheet};
