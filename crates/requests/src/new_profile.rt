//! What is asked of a new profile.

use printer_models::PanelLists;

/// What the words of `profile new` ask for.
#[derive(Drop)]
pub struct NewProfile<'a> {
    /// The model, by its name.
    pub model: &'a str,
    /// The papers, by their names.
    pub papers: Vec<&'a str>,
    pub lists: PanelLists,
}
