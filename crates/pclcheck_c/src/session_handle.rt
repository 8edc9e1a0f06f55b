//! A session that C holds.
ghost use Rattle.std.specs.Prelude.{◌≡◌, None, Option, Some, IsSome};
ghost use Rattle.pclcheck_c.specs.declared.kept_session.KeptSession.{KeptSession};
ghost use Rattle.pclcheck_c.specs.SessionHandle.{handle_owns, held_coded};
ghost use Rattle.pclcheck_c.specs.Sessions.{Begins};

use crate::fleet::Fleet;
use crate::kept_session::{KeptSession, begun};
use crate::parts::Parts;
use foreign_calls::{DONE, error_number};
use std::alloc::Global;
use std::marker::Model;
use std::{mem, ptr};

/// A session that the caller holds, or none. C calls it `struct pclcheck_session`, which is a
/// pointer. All zero bytes are none.
#[repr(C)]
#[derive(Drop)]
pub struct SessionHandle {
    at: *mut u8,
    alloc: Global,
    pub ghost held: { Option KeptSession } by { held_coded },
}

impl Model for SessionHandle {
    ghost also_owns = { λ handle. handle_owns handle.alloc handle.at handle.held };
}

impl SessionHandle {
    /// No session.
    fn none(alloc: Global) -> SessionHandle
        ensures { result.held ≡ None }
    {
        SessionHandle {
            at: ptr::null_mut(),
            alloc,
        }
    }

    /// Holds what a box does.
    fn of_parts(parts: Parts<KeptSession, Global>) -> SessionHandle
        ensures { result.held ≡ Some parts.value }
    {
        let Parts { ptr, alloc } = parts;
        SessionHandle {
            at: ptr as *mut u8,
            alloc,
        }
    }

    /// What is held.
    fn into_parts(self) -> Parts<KeptSession, Global>
        requires { IsSome self.held }
        ensures { self.held ≡ Some result.value }
    {
        let SessionHandle { at, alloc } = self;
        Parts {
            ptr: at as *mut KeptSession,
            alloc,
        }
    }

    /// Takes the session, and leaves none.
    pub(crate) fn take(&mut self, alloc: Global) -> Box<KeptSession>
        requires { IsSome self.old.held }
        ensures taken { self.old.held ≡ Some result.value }
        ensures none { self.new.held ≡ None }
    {
        let handle = mem::replace(self, SessionHandle::none(alloc));
        handle.into_parts().into_box()
    }

    /// Holds this session.
    pub(crate) fn put(&mut self, session: Box<KeptSession>)
        requires { self.old.held ≡ None }
        ensures { self.new.held ≡ Some session.value }
    {
        *self = SessionHandle::of_parts(Parts::of(session));
    }
}

/// Holds a session to which nothing was fed, in place of none.
pub(crate) fn begin(alloc: Global, fleet: &Fleet, printer: usize, handle: &mut SessionHandle) -> u32
    requires { handle.old.held ≡ None }
    ensures { Begins printer result fleet.now handle.new.held }
{
    match begun(alloc, fleet, printer) {
        Ok(session) => {
            handle.put(session);
            DONE
        }
        Err(error) => error_number(error),
    }
}
