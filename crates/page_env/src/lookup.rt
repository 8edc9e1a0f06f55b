//! What is looked up once for moves and rectangles.

ghost use Rattle.std.specs.Prelude.{◌≤◌, ◌^◌};

use crate::mark::Bounds;
use crate::places::Origin;
use tick_length::Length;

/// What moves and rectangles take from the page in force and from the settings.
#[derive(Clone, Copy)]
pub struct FormBounds {
    /// The size of the logical page.
    pub width: Length,
    pub height: Length,
    /// Where it begins on the sheet.
    pub origin: Origin,
    /// The printable area.
    pub area: Bounds,
    /// The top margin.
    pub top: Length,
    /// How many ticks the ten-thousandth of a PCL unit has.
    pub unit: u64,
    pub ghost small: { unit ≤ 2 ^ 18 },
}
