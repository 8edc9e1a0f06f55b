//! The command `pin`.
ghost use Rattle.std.specs.Prelude.{◌≡◌, ◌||◌, ◌++◌, ◌∷◌, [], IsFalse, IsTrue};
ghost use Rattle.subcommands.specs.JobTexts.{CreatesOnceOpen, EndsBy, JudgesFirst, LeavesPinned};
ghost use Rattle.named_inputs.specs.Choices.{TellsOfPin};
ghost use Rattle.named_inputs.specs.Fleet.{IsNamed};
ghost use Rattle.requests.specs.Status.{is_overwriting, is_refused_choice};

use crate::opening::open_and_create;
use crate::outcome::end_by;
use named_inputs::{ProfileTexts, chosen_panel, read_profile, refuse_choice};
use renderings::pin_job;
use requests::{PanelSetting, Status};
use std::alloc::Allocator;
use streams::{Create, Error, Open, Outlet, write_text};

/// The command `pin`: the items of the job in OUT, pinned to the panel of the printer that is
/// chosen, and for a fault of the bytes or an item that cannot be pinned its line on standard
/// output. The profile is read and judged before the job is opened, and OUT is created once it is,
/// unless it is the job or the profile. On standard error is only told of a choice that the panel
/// may not have.
pub fn pin<S: Open, T: ProfileTexts, W: Create, O: Outlet, E: Outlet, A: Allocator + Copy>(
    alloc: A,
    job: &mut S,
    texts: &mut T,
    setting: &PanelSetting<'_>,
    out: &mut W,
    stdout: &mut O,
    stderr: &mut E,
) -> Status
    requires job { IsFalse (S.state job.old).failed }
    requires texts { IsFalse (T.failed texts.old) }
    requires out { IsFalse (W.state out.old).failed }
    requires stdout { IsFalse (O.state stdout.old).failed }
    requires stderr { IsFalse (E.state stderr.old).failed }
    ensures ends { EndsBy result
        (λ old new. LeavesPinned result
        (IsNamed (T.text_of texts.old setting.now.profile.now)
        (T.given texts.old) (T.given texts.new))
        setting.now.choices.now old new
        (W.state out.old) (W.state out.new) (O.state stdout.old) (O.state stdout.new))
        (S.state job.old) (S.state job.new)
        ((S.state job.new).failed || T.failed texts.new)
        ((W.state out.new).failed || (O.state stdout.new).failed) }
    ensures first { JudgesFirst result (T.text_of texts.old setting.now.profile.now)
        (T.given texts.old) (T.given texts.new) (T.failed texts.new) job.old job.new }
    ensures named { T.named texts.new ≡ T.named texts.old ++ setting.now.profile.now ∷ [] }
    ensures created { CreatesOnceOpen result S.opens W.creates job.old out.old out.new }
    // Where OUT is a file that is read, it is as it was.
    ensures kept { IsTrue (is_overwriting result) → out.new ≡ out.old }
    ensures choice { TellsOfPin result
        (IsNamed (T.text_of texts.old setting.now.profile.now)
        (T.given texts.old) (T.given texts.new))
        setting.now.choices.now (E.state stderr.old) (E.state stderr.new) }
    ensures quiet { IsFalse (is_refused_choice result) → stderr.new ≡ stderr.old }
{
    let profile = match read_profile(alloc, texts, setting.profile, 1) {
        Ok(profile) => profile,
        Err(status) => return status,
    };
    let panel = match chosen_panel(&profile, setting.choices) {
        Ok(panel) => panel,
        Err(choice) => return refuse_choice(alloc, &profile, choice, stderr),
    };
    if let Err(status) = open_and_create(job, texts.file(), out) {
        return status;
    }
    let work = pin_job(alloc, job, &profile, &panel, out);
    end_by(alloc, work, stdout)
}
