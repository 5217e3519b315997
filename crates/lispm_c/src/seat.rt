//! What C holds: a seat, empty or with a session.
ghost use Rattle.std.specs.Prelude.{◌≡◌, Some, None, is_some, option_map};

use crate::parts::Parts;
use crate::slot::Slot;
use byte_run::ByteSession;
use std::alloc::Global;
use std::mem;

/// A seat. C provides zeroed memory for it, and never changes that memory.
#[repr(C)]
#[derive(Drop)]
pub struct Seat {
    pub full: bool,
    pub slot: Slot,
    ghost agrees: { is_some slot.held ≡ full },
}

impl Seat {
    fn empty() -> Seat
        ensures { result.slot.held ≡ None }
    {
        Seat {
            full: false,
            slot: Slot::empty(),
        }
    }

    fn of(session: Box<ByteSession>) -> Seat
        ensures { result.slot.held ≡ Some session.value }
    {
        Seat {
            full: true,
            slot: Slot::of(Parts::of(session)),
        }
    }

    fn into_session(self, alloc: Global) -> Option<Box<ByteSession>>
        ensures { option_map (λ session. session.value) result ≡ self.slot.held }
    {
        if !self.full {
            return None;
        }
        Some(self.slot.into_parts(alloc).into_box())
    }

    /// Takes the session out, if there is one, so that the seat is empty.
    pub fn take(&mut self, alloc: Global) -> Option<Box<ByteSession>>
        ensures taken { option_map (λ session. session.value) result ≡ self.old.slot.held }
        ensures empty { self.new.slot.held ≡ None }
    {
        mem::replace(self, Seat::empty()).into_session(alloc)
    }

    /// Puts a session in. If there was one, it is freed.
    pub fn put(&mut self, alloc: Global, session: Box<ByteSession>)
        ensures { self.new.slot.held ≡ Some session.value }
    {
        drop(mem::replace(self, Seat::of(session)).into_session(alloc));
    }
}
