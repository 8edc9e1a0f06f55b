//! The vertical motion index by how many lines a page has.
ghost use Rattle.std.specs.Prelude.{◌≡◌, ◌≤◌};
ghost use Rattle.pjl_answer.specs.FormLines.{is_whole_share, line_share, text_height};
ghost use Rattle.pjl_answer.specs.FormLines.{usual_distance, vmi_by};

use printer_models::{Paper, page_numbers};

/// An inch in 7200ths.
const INCH: u32 = 7_200;

/// 1/48 inch in 7200ths of an inch.
const UNIT: u32 = 150;

/// The height of a page's text in 7200ths of an inch: the logical page without half an inch at its
/// top and its bottom.
pub(crate) fn text_height(paper: Paper, orientation: u32) -> u32
    ensures { result ≡ text_height paper orientation }
{
    page_numbers(paper, orientation)[7].saturating_sub(INCH)
}

/// What a height leaves for each of so many lines, in ten-thousandths of 1/48 inch, cut.
fn line_share(height: u32, lines: u32) -> u64
    requires { 1 ≤ lines }
    ensures { result ≡ line_share height lines }
{
    u64::from(height) * 10_000 / (u64::from(UNIT) * u64::from(lines))
}

/// Whether that is a whole number of 1/48 inch.
pub(crate) fn is_whole_share(height: u32, lines: u32) -> bool
    requires { 1 ≤ lines }
    ensures { result ≡ is_whole_share height lines }
{
    u64::from(height) % (u64::from(UNIT) * u64::from(lines)) == 0
}

/// The first usual distance by which a height holds exactly so many whole lines, in 1/48 inch.
fn usual_distance(height: u32, lines: u32) -> Option<u32>
    ensures { result ≡ usual_distance height lines }
{
    if height / (4 * UNIT) == lines {
        Some(4)
    } else if height / (6 * UNIT) == lines {
        Some(6)
    } else if height / (8 * UNIT) == lines {
        Some(8)
    } else if height / (12 * UNIT) == lines {
        Some(12)
    } else if height / (16 * UNIT) == lines {
        Some(16)
    } else if height / (24 * UNIT) == lines {
        Some(24)
    } else {
        None
    }
}

/// The VMI by which a height has so many lines, in ten-thousandths of 1/48 inch.
#[tactic(auto, unfolding(crate::specs::FormLines::vmi_by))]
pub(crate) fn vmi_by(height: u32, lines: u32) -> u64
    requires { 1 ≤ lines }
    ensures { result ≡ vmi_by height lines }
{
    let share = line_share(height, lines);
    if is_whole_share(height, lines) {
        return share;
    }
    match usual_distance(height, lines) {
        Some(distance) => u64::from(distance) * 10_000,
        None => share,
    }
}
