//! A page of one size, as it is read in one orientation.
use tick_length::Length;

/// A page of one size, as it is read in one orientation: the physical page, the logical page and
/// the printable area.
///
/// Lengths are in ticks. Places are from the upper left corner of the physical page, to the right
/// and down. (The manual's "Page Size" and "Orientation" have the areas of a page.)
#[derive(Clone, Copy, Debug, PartialEq, Eq)]
pub struct Geometry {
    /// The page size, as `ESC &l#A` numbers it.
    pub size: u32,
    /// The orientation, as `ESC &l#O` numbers it.
    pub orientation: u32,
    /// The physical page's width.
    pub page_width: Length,
    /// The physical page's height.
    pub page_height: Length,
    /// The logical page's left edge.
    pub logical_left: Length,
    /// The logical page's upper edge.
    pub logical_top: Length,
    /// The logical page's width.
    pub logical_width: Length,
    /// The logical page's height.
    pub logical_height: Length,
    /// The printable area's left edge.
    pub printable_left: Length,
    /// The printable area's upper edge.
    pub printable_top: Length,
    /// The printable area's right edge.
    pub printable_right: Length,
    /// The printable area's lower edge.
    pub printable_bottom: Length,
}

impl Geometry {
    ghost use Rattle.std.specs.Prelude.{◌≡◌};
    ghost use Rattle.device_profile.specs.Rows.{row_of};

    /// A page of no size.
    pub const NO_PAGE: Geometry = Geometry {
        size: 0,
        orientation: 0,
        page_width: Length::ZERO,
        page_height: Length::ZERO,
        logical_left: Length::ZERO,
        logical_top: Length::ZERO,
        logical_width: Length::ZERO,
        logical_height: Length::ZERO,
        printable_left: Length::ZERO,
        printable_top: Length::ZERO,
        printable_right: Length::ZERO,
        printable_bottom: Length::ZERO,
    };

    /// The page that these numbers describe: its size and orientation; then, in 7200ths of an inch,
    /// the physical page's width and height, the logical page's left and upper edge, width and
    /// height, and the printable area's left, upper, right and lower edge.
    pub fn from_row(numbers: &[u32; 12]) -> Geometry
        ensures { result ≡ row_of numbers.now }
    {
        Geometry {
            size: numbers[0],
            orientation: numbers[1],
            page_width: Length::of_7200ths(numbers[2]),
            page_height: Length::of_7200ths(numbers[3]),
            logical_left: Length::of_7200ths(numbers[4]),
            logical_top: Length::of_7200ths(numbers[5]),
            logical_width: Length::of_7200ths(numbers[6]),
            logical_height: Length::of_7200ths(numbers[7]),
            printable_left: Length::of_7200ths(numbers[8]),
            printable_top: Length::of_7200ths(numbers[9]),
            printable_right: Length::of_7200ths(numbers[10]),
            printable_bottom: Length::of_7200ths(numbers[11]),
        }
    }
}
