//! The pages of a paper: one rule gives all their numbers.
ghost use Rattle.std.specs.Prelude.{◌≡◌, ◌≤◌, ◌+◌, ◌*◌};
ghost use Rattle.printer_models.specs.Page.{page_at, page_numbers, page_of, numbers_on};

use crate::paper::Paper;
use device_profile::Geometry;

/// A dot is 1/300 inch, and a profile's text counts 7200ths.
const UNITS_PER_DOT: u32 = 24;

/// How far from each edge of the paper the printable area lies, in dots.
const MARGIN: u32 = 50;

/// How many orientations there are.
pub(crate) const ORIENTATIONS: u32 = 4;

/// The numbers of a page's row in a profile's text: size and orientation; then, in 7200ths of an
/// inch, the physical page's width and height, the logical page's left and upper edge, width and
/// height, and the printable area's left, upper, right and lower edge.
#[tactic(auto, unfolding(crate::specs::Page::page_numbers))]
pub fn page_numbers(paper: Paper, orientation: u32) -> [u32; 12]
    ensures { result ≡ page_numbers paper orientation }
{
    let sheet = paper.sheet();
    let width = sheet.measure.dots(sheet.width);
    let height = sheet.measure.dots(sheet.height);
    if orientation % 2 == 1 {
        let left = sheet.measure.landscape_left();
        numbers_on(sheet.code, orientation, height, width, left)
    } else {
        let left = sheet.measure.portrait_left();
        numbers_on(sheet.code, orientation, width, height, left)
    }
}

/// The numbers of a page of so many dots, whose logical page begins at this dot.
fn numbers_on(code: u32, orientation: u32, width: u32, height: u32, left: u32) -> [u32; 12]
    requires left { left ≤ 75 }
    requires wide { 150 ≤ width }
    requires high { 150 ≤ height }
    requires not_too_wide { width ≤ 1_000_000 }
    requires not_too_high { height ≤ 1_000_000 }
    ensures { result ≡ numbers_on code orientation width height left }
{
    [
        code,
        orientation,
        UNITS_PER_DOT * width,
        UNITS_PER_DOT * height,
        UNITS_PER_DOT * left,
        0,
        UNITS_PER_DOT * (width - 2 * left),
        UNITS_PER_DOT * height,
        UNITS_PER_DOT * MARGIN,
        UNITS_PER_DOT * MARGIN,
        UNITS_PER_DOT * (width - MARGIN),
        UNITS_PER_DOT * (height - MARGIN),
    ]
}

/// The page of a paper in an orientation.
pub fn page_of(paper: Paper, orientation: u32) -> Geometry
    ensures { result ≡ page_of paper orientation }
{
    Geometry::from_row(&page_numbers(paper, orientation))
}

/// The page of a size and an orientation among these papers.
pub(crate) fn page_at(papers: &[Paper], size: u32, orientation: u32) -> Option<Geometry>
    ensures { result ≡ page_at papers.now size orientation }
{
    let paper = papers.iter().find(|paper| paper.code() == size)?;
    Some(page_of(*paper, orientation))
}
