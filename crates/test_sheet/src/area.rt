//! Where marks may lie on a page.
ghost use Rattle.std.specs.Prelude.{◌≡◌};
ghost use Rattle.test_sheet.specs.Area.{area_of};

use crate::dots::{dots_in, dots_over, ticks_of};
use device_profile::Geometry;

/// A part of a page, in dots from the upper left corner of the logical page.
#[derive(Clone, Copy)]
pub(crate) struct Area {
    pub(crate) left: u16,
    pub(crate) top: u16,
    pub(crate) right: u16,
    pub(crate) bottom: u16,
}

impl Area {
    ghost use Rattle.std.specs.Prelude.{◌≡◌};
    ghost use Rattle.test_sheet.specs.Area.{left_half, middle, right_half};

    /// The column in its middle.
    fn middle(self) -> u16
        ensures { result ≡ middle self }
    {
        self.left + self.right.saturating_sub(self.left) / 2
    }

    pub(crate) fn left_half(self) -> Area
        ensures { result ≡ left_half self }
    {
        Area {
            right: self.middle(),
            ..self
        }
    }

    pub(crate) fn right_half(self) -> Area
        ensures { result ≡ right_half self }
    {
        Area {
            left: self.middle(),
            ..self
        }
    }
}

/// The part of the logical page that is printable, in whole dots.
#[tactic(auto, unfolding(crate::specs::Area::area_of))]
pub(crate) fn area_of(page: &Geometry) -> Area
    ensures { result ≡ area_of page.now }
{
    let left = ticks_of(page.logical_left);
    let top = ticks_of(page.logical_top);
    let right = ticks_of(page.printable_right).saturating_sub(left);
    let bottom = ticks_of(page.printable_bottom).saturating_sub(top);
    Area {
        left: dots_over(ticks_of(page.printable_left).saturating_sub(left)),
        top: dots_over(ticks_of(page.printable_top).saturating_sub(top)),
        right: dots_in(right.min(ticks_of(page.logical_width))),
        bottom: dots_in(bottom.min(ticks_of(page.logical_height))),
    }
}
