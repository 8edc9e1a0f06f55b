//! Where the cursor stands.

ghost use Rattle.std.specs.Prelude.{◌≡◌};

use std::marker::Model;
use tick_length::Length;

/// A coordinate on a page, in ticks.
///
/// It may be further than a length goes, by less than a line: a home may lie past the foot of the
/// page.
#[derive(Clone, Copy, PartialEq, Eq)]
pub struct Coordinate {
    ticks: i64,
}

impl Model for Coordinate {
    ghost use Rattle.std.specs.Prelude.{ℤ, ◌+◌, ◌^◌};
    ghost use Rattle.page_env.specs.Numbers.{IsWithin};

    ghost Value = { ℤ };

    ghost view = { λ place. place.ticks };

    ghost invariant = { λ place. IsWithin (2 ^ 60 + 2 ^ 50) place.ticks };

    ghost inverse = { λ ticks. record { ticks = ticks } };
}

impl Coordinate {
    ghost use Rattle.std.specs.Prelude.{◌≡◌, ◌+◌, ◌^◌};
    ghost use Rattle.page_env.specs.Numbers.{IsWithin};

    /// So many ticks from an edge.
    pub(crate) fn from_ticks(ticks: i64) -> Coordinate
        requires { IsWithin (2 ^ 60 + 2 ^ 50) ticks }
        ensures { result ≡ ticks }
    {
        Coordinate { ticks }
    }

    /// How many ticks it lies from that edge.
    pub fn ticks(self) -> i64
        ensures value { result ≡ self }
        ensures in_range { IsWithin (2 ^ 60 + 2 ^ 50) self }
    {
        self.ticks
    }
}

/// A place on the logical page, from its upper left corner. With no y it is at home: the top margin
/// and three quarters of the VMI, by the values at the time of use.
#[derive(Clone, Copy)]
pub struct Cursor {
    pub x: Length,
    pub y: Option<Coordinate>,
}

impl Cursor {
    ghost use Rattle.page_env.specs.Settings.{home_cursor};

    /// The left edge, at home.
    pub(crate) fn home() -> Cursor
        ensures { result ≡ home_cursor }
    {
        Cursor {
            x: Length::ZERO,
            y: None,
        }
    }
}

impl Default for Cursor {
    fn default() -> Cursor {
        Cursor::home()
    }
}
