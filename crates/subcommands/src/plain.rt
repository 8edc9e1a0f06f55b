//! The command `plain`.
ghost use Rattle.std.specs.Prelude.{◌≡◌, ◌||◌, IsFalse, IsSome, IsTrue};
ghost use Rattle.renderings.specs.Expected.{plain_rendering};
ghost use Rattle.subcommands.specs.JobTexts.{CreatesOnceOpen, EndsBy, LeavesOut};
ghost use Rattle.requests.specs.Status.{is_overwriting};

use crate::opening::open_and_create;
use crate::outcome::end_by;
use renderings::plain_job;
use requests::Status;
use std::alloc::Allocator;
use streams::{Create, Open, Outlet};

/// The command `plain`: the items of the job in OUT, each in its canonical spelling, and for a
/// fault of the bytes its line on standard output. OUT is created once the job is open, unless it
/// is the job.
pub fn plain<S: Open, W: Create, O: Outlet, A: Allocator + Copy>(
    alloc: A,
    job: &mut S,
    out: &mut W,
    stdout: &mut O,
) -> Status
    requires job { IsFalse (S.state job.old).failed }
    requires out { IsFalse (W.state out.old).failed }
    requires stdout { IsFalse (O.state stdout.old).failed }
    ensures ends { EndsBy result
        (λ old new. LeavesOut result plain_rendering old new
        (W.state out.old) (W.state out.new) (O.state stdout.old) (O.state stdout.new))
        (S.state job.old) (S.state job.new)
        (S.state job.new).failed ((W.state out.new).failed || (O.state stdout.new).failed) }
    ensures created { CreatesOnceOpen result S.opens W.creates job.old out.old out.new }
    // Where OUT is JOB, that was opened, and OUT is as it was.
    ensures kept { IsTrue (is_overwriting result) →
        (out.new ≡ out.old) × ((ready : S) × S.opens job.old ready × IsSome (S.file ready)) }
{
    if let Err(status) = open_and_create(job, None, out) {
        return status;
    }
    let work = plain_job(alloc, job, out);
    end_by(alloc, work, stdout)
}
