//! A pointer to a session, or none.
ghost use Rattle.std.specs.Prelude.{◌≡◌, Option, Some, None, IsSome};
ghost use Rattle.std.specs.Global.{Global};
ghost use Rattle.byte_run.specs.declared.session.ByteSession.{ByteSession};
ghost use Rattle.lispm_c.specs.Slots.{heap_coded, held_coded, slot_owns};

use crate::parts::Parts;
use byte_run::ByteSession;
use std::alloc::Global;
use std::marker::Model;
use std::ptr;

/// The address of a session, or none. C never reads or writes it.
#[repr(C)]
#[derive(Drop)]
pub struct Slot {
    at: *mut u8,
    ghost heap: { Global } by { heap_coded },
    pub ghost held: { Option ByteSession } by { held_coded },
}

impl Model for Slot {
    ghost also_owns = { λ s. slot_owns s.heap s.at s.held };
}

impl Slot {
    /// A slot without a session.
    pub fn empty() -> Slot
        ensures { result.held ≡ None }
    {
        Slot {
            at: ptr::null_mut(),
        }
    }

    /// A slot with the session that has these parts.
    pub fn of(parts: Parts<ByteSession, Global>) -> Slot
        ensures { result.held ≡ Some parts.value }
    {
        let Parts { at, from } = parts;
        Slot { at: at as *mut u8 }
    }

    /// The parts of the session.
    pub fn into_parts(self, from: Global) -> Parts<ByteSession, Global>
        requires { IsSome self.held }
        ensures { self.held ≡ Some result.value }
    {
        let Slot { at } = self;
        Parts {
            at: at as *mut ByteSession,
            from,
        }
    }
}
