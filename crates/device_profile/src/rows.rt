//! Whether pages and faces are among a printer's rows.
ghost use Rattle.std.specs.Prelude.{◌≡◌};
ghost use Rattle.device_profile.specs.Printer.{has_size, has_orientation, has_row};
ghost use Rattle.device_profile.specs.Faces.{has_face};

use crate::font::FontRow;
use crate::geometry::Geometry;
use std::alloc::Allocator;

/// Whether some page has this size.
#[tactic(auto, unfolding(crate::specs::Printer::has_size))]
pub fn has_size(rows: &[Geometry], size: u32) -> bool
    ensures { result ≡ has_size rows.now size }
{
    rows.iter().any(|row| row.size == size)
}

/// Whether some page has this orientation.
#[tactic(auto, unfolding(crate::specs::Printer::has_orientation))]
pub fn has_orientation(rows: &[Geometry], orientation: u32) -> bool
    ensures { result ≡ has_orientation rows.now orientation }
{
    rows.iter().any(|row| row.orientation == orientation)
}

/// Whether some page has this size and this orientation.
pub fn has_row(rows: &[Geometry], size: u64, orientation: u64) -> bool
    ensures { result ≡ has_row rows.now size orientation }
{
    rows.iter().any(|row| u64::from(row.size) == size && u64::from(row.orientation) == orientation)
}

/// Whether some face has this id.
#[tactic(auto, unfolding(crate::specs::Faces::has_face))]
pub fn has_face<A: Allocator>(faces: &[FontRow<A>], id: u64) -> bool
    ensures { result ≡ has_face faces.now id }
{
    faces.iter().any(|face| u64::from(face.id()) == id)
}
