//! What is unusual in a profile.
ghost use Rattle.std.specs.Prelude.{◌≡◌};
ghost use Rattle.profile_lint.specs.PageHints.{units_in};

use device_profile::{Field, Geometry};
use printer_models::{CharacterSet, Cut, Paper};
use tick_length::{Length, TICKS_PER_7200TH};

/// An area of a page.
#[derive(Clone, Copy)]
pub enum Area {
    /// The physical page.
    Physical,
    /// The logical page.
    Logical,
    /// The printable area.
    Printable,
}

/// Something that is unusual in a profile, and may be right all the same.
#[derive(Clone, Copy)]
pub enum Hint {
    /// An area of this page is not that which the table of papers has for the paper of its size.
    OtherArea {
        area: Area,
        page: Geometry,
        paper: Paper,
    },
    /// The advance of the face of this id is not 7200 through its pitch, within 1. The pitch is in
    /// ten-thousandths of a character an inch, the advance in 1/7200 inch.
    OddAdvance {
        face: u32,
        pitch: u32,
        advance: u64,
    },
    /// The table of faces has other numbers for the pitch, the height and the typeface of the face
    /// of this id: those of the cut. Its own are in 1/7200 inch.
    OtherNumbers {
        face: u32,
        advance: u64,
        ascent: u64,
        descent: u64,
        cut: Cut,
    },
    /// The table of faces has other codes for the symbol set of the face of this id.
    OtherCodes {
        face: u32,
        set: CharacterSet,
    },
    /// The panel may have several values in a field that jobs seldom set: copies, sides or tray.
    SeveralValues(Field),
    /// The panel may have one value alone in each field.
    FixedPanel,
}

/// The whole 7200ths of an inch in a length, which is not negative in a profile.
pub(crate) fn units_in(length: Length) -> u64
    ensures { result ≡ units_in length }
{
    length.ticks().unsigned_abs() / TICKS_PER_7200TH
}
