//! The command `list`.
ghost use Rattle.std.specs.Prelude.{IsFalse};
ghost use Rattle.renderings.specs.Expected.{list_rendering};
ghost use Rattle.subcommands.specs.JobTexts.{EndsBy, LeavesText};

use crate::render::render;
use renderings::Listing;
use requests::Status;
use std::alloc::Allocator;
use streams::{Outlet, Source};

/// The command `list`: a line on standard output for each item of the job, its place and its
/// spelling, and a last one for a fault of the bytes.
pub fn list<S: Source, O: Outlet, A: Allocator + Copy>(
    alloc: A,
    job: &mut S,
    stdout: &mut O,
) -> Status
    requires job { IsFalse (S.state job.old).failed }
    requires stdout { IsFalse (O.state stdout.old).failed }
    ensures ends { EndsBy result
        (λ old new. LeavesText result list_rendering old new (O.state stdout.old)
        (O.state stdout.new))
        (S.state job.old) (S.state job.new)
        (S.state job.new).failed (O.state stdout.new).failed }
{
    render(alloc, job, &mut Listing::new(alloc), stdout)
}
