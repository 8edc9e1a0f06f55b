//! The settings of a printer's control panel.

/// One value for each field of the control panel.
#[derive(Clone, Copy, PartialEq, Eq)]
pub struct Panel {
    /// The page size, as `ESC &l#A` numbers it.
    pub size: u32,
    /// The orientation, as `ESC &l#O` numbers it.
    pub orientation: u32,
    /// The vertical motion index, in ten-thousandths of 1/48 inch.
    pub vmi: u32,
    /// The id of a face.
    pub font: u32,
    /// The number of copies.
    pub copies: u32,
    /// 0 for one side; 1 and 2 for both, bound at the long and at the short edge.
    pub sides: u32,
    /// The paper tray's number.
    pub tray: u32,
    /// Line termination, as `ESC &k#G` numbers it.
    pub line_termination: u32,
}
