//! What is written of a job.

use job_reports::PrinterGroup;
use requests::Selection;
use std::alloc::{Allocator, Global};

/// What is written of a job, and the names of the job and of the printer.
#[derive(Drop)]
pub struct WantedPages<'n, A: Allocator = Global> {
    pub selection: Selection,
    /// Each page with its outlines and its foot.
    pub is_proof: bool,
    pub job: &'n [u8],
    pub printers: &'n PrinterGroup<'n, A>,
}
