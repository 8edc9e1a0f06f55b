//! Places that the pen may not have.

ghost use Rattle.std.specs.Prelude.{◌+◌, ◌^◌};
ghost use Rattle.page_env.specs.Numbers.{IsWithin};

/// Where the pen is to go, in ticks from the origin, be that too far or not.
#[derive(Clone, Copy)]
pub struct Target {
    pub x: i64,
    pub y: i64,
    /// A move goes no further than this.
    ghost near_x: { IsWithin (2 ^ 62 + 2 ^ 57) x },
    ghost near_y: { IsWithin (2 ^ 62 + 2 ^ 57) y },
}
