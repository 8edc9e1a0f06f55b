//! The commands that write a text of a job on standard output, and nothing beside it.
ghost use Rattle.std.specs.Prelude.{IsFalse};
ghost use Rattle.pcl_items.specs.declared.item.Mode.TheVariants.{Pcl};
ghost use Rattle.subcommands.specs.JobTexts.{EndsBy, LeavesText};

use renderings::{Outcome, Renderer, render_job};
use requests::Status;
use std::alloc::Allocator;
use streams::{Outlet, Source};

/// A command that writes on standard output what this renderer makes of the job.
pub fn render<S: Source, R: Renderer, O: Outlet, A: Allocator + Copy>(
    alloc: A,
    job: &mut S,
    renderer: &mut R,
    stdout: &mut O,
) -> Status
    requires job { IsFalse (S.state job.old).failed }
    requires stdout { IsFalse (O.state stdout.old).failed }
    requires mode { R.is_in renderer.old Pcl }
    ensures ends { EndsBy result
        (λ old new. LeavesText result (R.rendering renderer.old) old new
        (O.state stdout.old) (O.state stdout.new))
        (S.state job.old) (S.state job.new)
        (S.state job.new).failed (O.state stdout.new).failed }
{
    match render_job(alloc, job, renderer, stdout) {
        Ok(Outcome::Done) => Status::Pass,
        Ok(Outcome::Fail { .. }) => Status::Fail,
        Err(error) => Status::Stopped(error),
    }
}
