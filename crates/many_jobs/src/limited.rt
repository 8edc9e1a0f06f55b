//! Printers whose macros get a limit.
ghost use Rattle.std.specs.Prelude.{◌≡◌, map};
ghost use Rattle.many_jobs.specs.CheckMany.{limited};

use device_profile::Profile;
use std::alloc::Allocator;

/// The printers, where the macros of each may carry out so many items of a job, or are not limited.
pub fn limited_fleet<A: Allocator>(
    mut fleet: Vec<Profile<A>, A>,
    most: Option<u64>,
) -> Vec<Profile<A>, A>
    ensures { result.items ≡ map (limited most) fleet.items }
{
    limit_each(&mut fleet, most);
    fleet
}

/// Limits how many items of a job the macros of each printer may carry out, or leaves them without
/// a limit.
fn limit_each<A: Allocator>(fleet: &mut [Profile<A>], most: Option<u64>)
    ensures { fleet.new ≡ map (limited most) fleet.old }
{
    for profile in fleet.iter_mut() {
        profile.limit_items(most);
    }
}
