//! Machines in step between two pieces, which borrow no profile.

ghost use Rattle.std.specs.Prelude.{◌≡◌, ◌∷◌, length, map, reverse, IfOk};
ghost use Rattle.page_machine.specs.Detached.{detached};
ghost use Rattle.preflight.specs.Carriers.Detached.{AreFormed, AreLeftOf, attached_each};
ghost use Rattle.preflight.specs.Carriers.Detached.{attached_fleet};
ghost use Rattle.preflight.specs.Carriers.Lockstep.{AreRunning, machines_of};

use crate::fleet_mode::FleetMode;
use crate::lockstep::Lockstep;
use device_profile::Profile;
use page_machine::{DetachedMachine, Machine};
use sinks::{Counts, Recorder};
use std::alloc::{AllocError, Allocator};
use std::marker::Model;

/// Machines in step, without their profiles.
#[derive(Drop)]
pub struct DetachedLockstep<A: Allocator + Copy> {
    first: DetachedMachine<A>,
    /// The last stands first.
    others: Vec<DetachedMachine<A>, A>,
    fleet_mode: FleetMode,
    counts: Counts,
    recorder: Recorder<A>,
}

impl<A: Allocator + Copy> Model for DetachedLockstep<A> {
    ghost use Rattle.std.specs.Prelude.{reverse};
    ghost use Rattle.preflight.specs.Carriers.Detached.{DetachedFleet};

    ghost Value = { DetachedFleet };

    ghost view = { λ l. record {
      fleet_mode = l.fleet_mode;
      first = l.first;
      others = reverse l.others.items;
      counts = l.counts;
    } };
}

impl<'p, A: Allocator + Copy, P: Allocator> Lockstep<'p, A, P> {
    /// Gives up the profiles.
    pub fn detach(self, alloc: A) -> Result<DetachedLockstep<A>, AllocError>
        requires { AreRunning (machines_of self) }
        ensures { IfOk result (AreLeftOf self.entry) }
    {
        let others = detach_each(alloc, self.others)?;
        let first = self.first.detach();
        Ok(DetachedLockstep {
            first,
            others,
            fleet_mode: self.fleet_mode,
            counts: self.counts,
            recorder: self.recorder,
        })
    }
}

impl<A: Allocator + Copy> DetachedLockstep<A> {
    /// Borrows profiles again: those of the machines, in their order.
    pub fn attach<'p, P: Allocator>(
        self,
        alloc: A,
        first: &'p Profile<P>,
        others: &'p [Profile<P>],
    ) -> Result<Lockstep<'p, A, P>, AllocError>
        requires { AreFormed (first.now ∷ others.now) self }
        ensures { IfOk result (λ machines.
            machines ≡ attached_fleet (first.now ∷ others.now) self) }
    {
        let machines = attach_each(alloc, self.others, others)?;
        let machine = self.first.attach(first);
        Ok(Lockstep {
            first: machine,
            others: machines,
            fleet_mode: self.fleet_mode,
            counts: self.counts,
            recorder: self.recorder,
        })
    }
}

/// Machines without their profiles, of which the last stands first.
fn detach_each<A: Allocator + Copy, P: Allocator>(
    alloc: A,
    mut machines: Vec<Machine<'_, P, A>, A>,
) -> Result<Vec<DetachedMachine<A>, A>, AllocError>
    ensures { IfOk result (λ left.
        reverse left.items ≡ map detached machines.entry.items) }
{
    let mut left = Vec::with_capacity(alloc, machines.len())?;
    while let Some(machine) = machines.pop() {
        left.push(machine.detach())?;
    }
    Ok(left)
}

/// Machines on these profiles, where the last stands first.
fn attach_each<'p, A: Allocator + Copy, P: Allocator>(
    alloc: A,
    mut left: Vec<DetachedMachine<A>, A>,
    profiles: &'p [Profile<P>],
) -> Result<Vec<Machine<'p, P, A>, A>, AllocError>
    requires { length left.items ≡ length profiles.now }
    ensures { IfOk result (λ machines.
        machines.items ≡ attached_each profiles.now (reverse left.items)) }
{
    let mut machines = Vec::with_capacity(alloc, profiles.len())?;
    for profile in profiles {
        let Some(machine) = left.pop() else {
            unreachable!()
        };
        machines.push(machine.attach(profile))?;
    }
    Ok(machines)
}
