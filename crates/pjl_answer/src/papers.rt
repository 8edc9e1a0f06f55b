//! The papers that a profile needs that an answer is put into.
ghost use Rattle.std.specs.Prelude.{◌≡◌, IfOk};
ghost use Rattle.pjl_answer.specs.AskedPapers.{asked_papers};

use crate::told_values::paper_told;
use printer_models::Paper;
use std::alloc::{AllocError, Allocator};

/// The papers to ask for in a new profile that an answer is to be put into: the one of the panel,
/// where the answer tells it, and letter and A4.
///
/// An error means that the allocator refused a request.
pub fn asked_papers<A: Allocator>(alloc: A, answer: &[u8]) -> Result<Vec<Paper, A>, AllocError>
    ensures { IfOk result (λ papers. papers.items ≡ asked_papers answer.now) }
{
    match paper_told(answer) {
        None | Some(Paper::Letter) => Vec::from_slice(alloc, &[Paper::Letter, Paper::A4]),
        Some(Paper::A4) => Vec::from_slice(alloc, &[Paper::A4, Paper::Letter]),
        Some(paper) => Vec::from_slice(alloc, &[paper, Paper::Letter, Paper::A4]),
    }
}
