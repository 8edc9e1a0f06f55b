//! How many ticks the lengths have by which jobs and profiles count.

/// How many ticks an inch has.
pub const TICKS_PER_INCH: u64 = 36_576_000_000;

/// How many ticks half an inch has: the default top margin, and how far text ends by default above
/// the foot of the logical page.
pub const TICKS_PER_HALF_INCH: u64 = 18_288_000_000;

/// How many ticks 1/7200 inch has, in which a profile gives lengths.
pub const TICKS_PER_7200TH: u64 = 5_080_000;

/// How many ticks a tenth of a millimetre has.
pub const TICKS_PER_TENTH_MILLIMETRE: u64 = 144_000_000;

/// How many ticks a plotter unit of HP-GL/2 has, which is 0.025 mm.
pub const TICKS_PER_PLOTTER_UNIT: u64 = 36_000_000;
