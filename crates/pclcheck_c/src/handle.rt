//! A fleet that C holds.
ghost use Rattle.std.specs.Prelude.{◌≡◌, None, Option, Some, IfOk, IsSome};
ghost use Rattle.pclcheck_c.specs.declared.fleet.Fleet.{Fleet};
ghost use Rattle.pclcheck_c.specs.Fleets.{HasNone, IsMade};
ghost use Rattle.pclcheck_c.specs.Handle.{handle_owns, held_coded};

use crate::fleet::Fleet;
use crate::parts::Parts;
use foreign_calls::{DONE, MEMORY};
use std::alloc::Global;
use std::marker::Model;
use std::{mem, ptr};

/// A fleet that the caller holds, or none. C calls it `struct pclcheck_fleet`, which is a pointer.
/// All zero bytes are none.
#[repr(C)]
#[derive(Drop)]
pub struct FleetHandle {
    at: *mut u8,
    alloc: Global,
    pub ghost held: { Option Fleet } by { held_coded },
}

impl Model for FleetHandle {
    ghost also_owns = { λ handle. handle_owns handle.alloc handle.at handle.held };
}

impl FleetHandle {
    /// No fleet.
    fn none(alloc: Global) -> FleetHandle
        ensures { result.held ≡ None }
    {
        FleetHandle {
            at: ptr::null_mut(),
            alloc,
        }
    }

    /// Holds what a box does.
    fn of_parts(parts: Parts<Fleet, Global>) -> FleetHandle
        ensures { result.held ≡ Some parts.value }
    {
        let Parts { ptr, alloc } = parts;
        FleetHandle {
            at: ptr as *mut u8,
            alloc,
        }
    }

    /// What is held.
    fn into_parts(self) -> Parts<Fleet, Global>
        requires { IsSome self.held }
        ensures { self.held ≡ Some result.value }
    {
        let FleetHandle { at, alloc } = self;
        Parts {
            ptr: at as *mut Fleet,
            alloc,
        }
    }

    /// Takes the fleet, and leaves none.
    pub(crate) fn take(&mut self, alloc: Global) -> Box<Fleet>
        requires { IsSome self.old.held }
        ensures taken { self.old.held ≡ Some result.value }
        ensures none { self.new.held ≡ None }
    {
        let handle = mem::replace(self, FleetHandle::none(alloc));
        handle.into_parts().into_box()
    }

    /// Holds this fleet.
    pub(crate) fn put(&mut self, fleet: Box<Fleet>)
        requires { self.old.held ≡ None }
        ensures { self.new.held ≡ Some fleet.value }
    {
        *self = FleetHandle::of_parts(Parts::of(fleet));
    }
}

/// Holds a fleet of no printer, in place of none.
pub(crate) fn make(alloc: Global, handle: &mut FleetHandle) -> u32
    requires { handle.old.held ≡ None }
    ensures { IsMade result handle.old.held handle.new.held }
{
    match Box::new(alloc, Fleet::new(alloc)) {
        Ok(fleet) => {
            handle.put(fleet);
            DONE
        }
        Err(_) => MEMORY,
    }
}
