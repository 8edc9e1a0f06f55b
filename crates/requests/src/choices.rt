//! What is chosen at the panel of a printer, in place of the first value of a field.

use device_profile::Field;

/// A value that is chosen for a field of the panel.
#[derive(Clone, Copy, Debug, PartialEq, Eq)]
pub struct Choice {
    pub field: Field,
    /// The VMI in ten-thousandths of 1/48 inch; each other field as its command numbers it.
    pub value: u32,
}

/// The printer that a word names, and what is chosen at its panel. Each other field has its first
/// value.
#[derive(Clone, Copy)]
pub struct PanelSetting<'a> {
    /// The word PROFILE.
    pub profile: &'a str,
    /// At most one for each field.
    pub choices: &'a [Choice],
}
