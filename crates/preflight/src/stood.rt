//! Where a printer stood, and which font it was asked for, as a job came to the item that it fails
//! at.

ghost use Rattle.std.specs.Prelude.{◌≡◌, IfSome};
ghost use Rattle.preflight.specs.Carriers.Lockstep.{machines_of};
ghost use Rattle.preflight.specs.Stood.{LacksFont, IsFinder, IsOfStopped, IsSpotOf, StoppedAt};

use crate::lockstep::Lockstep;
use device_profile::nearest_request;
use judgement::{FailingItem, MissingFont, SheetSpot};
use page_env::{Finding, font_request, known_cursor};
use page_machine::Machine;
use std::alloc::Allocator;
use verdict::{Reason, Verdict};

/// The number of the printer that has the finding, where the verdict is one.
fn finder(verdict: Verdict) -> Option<u64>
    ensures { IfSome result (λ number. IsFinder number verdict) }
{
    match verdict {
        Verdict::Pass { .. } => None,
        Verdict::Fail {
            profile,
            finding,
            ..
        } => match finding {
            Reason::Finding(_) => Some(profile),
            Reason::Fault(_) => None,
            Reason::Differs => None,
            Reason::Unpinnable => None,
        },
    }
}

/// The machine of a finding at an item that is one step.
fn stopped<'l, 'p, A: Allocator + Copy, P: Allocator>(
    verdict: Verdict,
    failing_item: Option<FailingItem>,
    machines: &'l Lockstep<'p, A, P>,
) -> Option<&'l Machine<'p, P, A>>
    ensures { IfSome result (λ machine.
        StoppedAt verdict failing_item (machines_of machines.now) machine.now) }
{
    let number = finder(verdict)?;
    let item = failing_item?;
    if !item.is_one_step() {
        return None;
    }
    machines.machine(number)
}

/// Where the cursor of a machine stands, if that is known whatever the panel.
fn spot_of<A: Allocator + Copy, P: Allocator>(machine: &Machine<'_, P, A>) -> Option<SheetSpot>
    ensures { IfSome result (λ spot. IsSpotOf machine.now spot) }
{
    match known_cursor(machine.profile(), machine.page()) {
        Err(_) => None,
        Ok(place) => Some(SheetSpot::of(place)),
    }
}

/// The font that a machine is asked for, if that is known whatever the panel, and the nearest that
/// its printer has.
fn font_of<A: Allocator + Copy, P: Allocator>(machine: &Machine<'_, P, A>) -> Option<MissingFont>
    ensures { IfSome result (λ font. LacksFont machine.now font) }
{
    let profile = machine.profile();
    match font_request(profile, machine.page()) {
        Err(_) => None,
        Ok(asked) => {
            let nearest = nearest_request(profile.faces(), &asked);
            Some(MissingFont { asked, nearest })
        }
    }
}

/// Where the cursor stood that is told with a verdict.
pub(crate) fn cursor_with<A: Allocator + Copy, P: Allocator>(
    verdict: Verdict,
    failing_item: Option<FailingItem>,
    machines: &Lockstep<'_, A, P>,
) -> Option<SheetSpot>
    ensures { IsOfStopped IsSpotOf verdict failing_item (machines_of machines.now) result }
{
    let machine = stopped(verdict, failing_item, machines)?;
    spot_of(machine)
}

/// The font that is told with a verdict: what no face answers.
pub(crate) fn font_with<A: Allocator + Copy, P: Allocator>(
    verdict: Verdict,
    failing_item: Option<FailingItem>,
    machines: &Lockstep<'_, A, P>,
) -> Option<MissingFont>
    ensures { IsOfStopped LacksFont verdict failing_item (machines_of machines.now) result }
{
    let Verdict::Fail {
        finding: Reason::Finding(Finding::NoFont),
        ..
    } = verdict
    else {
        return None;
    };
    let machine = stopped(verdict, failing_item, machines)?;
    font_of(machine)
}
