//! The command `pages`.
ghost use Rattle.std.specs.Prelude.{◌≡◌, ◌||◌, ◌++◌, ◌∷◌, [], IsFalse};
ghost use Rattle.subcommands.specs.JobTexts.{EndsBy, JudgesFirst, LeavesPages};
ghost use Rattle.named_inputs.specs.Fleet.{IsNamed};

use crate::outcome::end_by;
use named_inputs::{ProfileTexts, read_profile};
use renderings::pages_of;
use requests::Status;
use std::alloc::Allocator;
use streams::{Outlet, Source};

/// The command `pages`: the pages of the job on standard output, from the first panel of the
/// printer that the word PROFILE names. The profile is read and judged before the job is read.
pub fn pages<S: Source, T: ProfileTexts, O: Outlet, A: Allocator + Copy>(
    alloc: A,
    job: &mut S,
    texts: &mut T,
    profile: &str,
    stdout: &mut O,
) -> Status
    requires job { IsFalse (S.state job.old).failed }
    requires texts { IsFalse (T.failed texts.old) }
    requires stdout { IsFalse (O.state stdout.old).failed }
    ensures ends { EndsBy result
        (λ old new. LeavesPages result
        (IsNamed (T.text_of texts.old profile.now) (T.given texts.old) (T.given texts.new))
        old new (O.state stdout.old) (O.state stdout.new))
        (S.state job.old) (S.state job.new)
        ((S.state job.new).failed || T.failed texts.new) (O.state stdout.new).failed }
    ensures first { JudgesFirst result (T.text_of texts.old profile.now)
        (T.given texts.old) (T.given texts.new) (T.failed texts.new) job.old job.new }
    ensures named { T.named texts.new ≡ T.named texts.old ++ profile.now ∷ [] }
{
    let profile = match read_profile(alloc, texts, profile, 1) {
        Ok(profile) => profile,
        Err(status) => return status,
    };
    let panel = profile.first_panel();
    let work = pages_of(alloc, job, &profile, &panel, stdout);
    end_by(alloc, work, stdout)
}
