//! A sink in memory.
ghost use Rattle.std.specs.Prelude.{◌≡◌, ◌-◌, ◌≤◌, ◌<◌, ◌↔◌, ◌⊎◌, [], min, length, take, IfOk, OnErr, IsErr, is_err};
ghost use Rattle.outer_ports.specs.Plans.{FailsNext, Kept, after_call, Holds, kept_of};
ghost use Rattle.outer_ports.specs.Ports.{Gained, HasCause, next_count};

use crate::plan::FaultPlan;
use crate::room::copy_at;
use crate::sinks::sink::{Sink, SinkFault};
use std::alloc::Global;
use std::marker::Model;
use store_word::NoMemory;

/// Bytes in memory, in a buffer of fixed size. A call takes at most a fixed number of bytes, and
/// calls fail as planned.
#[derive(Drop)]
pub struct SinkBytes {
    room: Vec<u8>,
    len: usize,
    piece: usize,
    plan: FaultPlan,
}

impl Model for SinkBytes {
    ghost use Rattle.std.specs.Prelude.{◌≤◌, ◌<◌, take, vec_len};
    ghost use Rattle.outer_ports.specs.Plans.{Kept};

    ghost Value = { Kept };

    ghost view = { λ s. record { bytes = take s.len s.room.items; room = vec_len s.room; piece = s.piece; plan = s.plan } };

    ghost invariant = { λ s. (s.len ≤ vec_len s.room) × (0 < s.piece) };
}

impl SinkBytes {
    /// A sink with room for this many bytes, which takes at most `piece` bytes in a call. The calls with
    /// a number in `fails` fail, counted from 1, and so does each call when the room is full.
    pub fn new(
        alloc: Global,
        room: usize,
        piece: usize,
        fails: Vec<u64>,
    ) -> Result<SinkBytes, NoMemory>
        requires { 0 < piece }
        ensures { IfOk result (λ sink. sink ≡ kept_of room piece fails.items) }
    {
        let room = vec![in alloc; 0; room]?;
        Ok(SinkBytes {
            room,
            len: 0,
            piece,
            plan: FaultPlan::new(fails),
        })
    }

    /// The bytes that it contains.
    pub fn bytes(&self) -> &[u8]
        ensures { result.now ≡ self.now.bytes }
    {
        &self.room[..self.len]
    }
}

impl Sink for SinkBytes {
    ghost stands = { Holds };

    ghost faults = { λ s. s.plan.faults };

    ghost failed = { λ s. s.plan.failed };

    fn give(&mut self, piece: &[u8]) -> Result<usize, SinkFault>
        requires { 0 < length piece.now }
        ensures some { IfOk result (λ n. 0 < n) }
        ensures fits { IfOk result (λ n. n ≤ length piece.now) }
        ensures written { IfOk result (λ n. Gained (Holds self.old) (Holds self.new) (take n piece.now)) }
        ensures err { OnErr result (Gained (Holds self.old) (Holds self.new) []) }
        ensures cause { HasCause self.old.plan.faults self.new.plan.faults result }
        ensures failed { self.new.plan.failed ≡ is_err result }
        ensures once { OnErr result (self.new.plan.faults ≡ next_count self.old.plan.faults) }

        // The length of the piece, and which calls fail.
        ensures size { IfOk result (λ n. n ≡ min self.old.piece
            (min (length piece.now) (self.old.room - length self.old.bytes))) }
        ensures fails { IsErr result ↔ (FailsNext self.old.plan ⊎ (length self.old.bytes ≡ self.old.room)) }
        ensures after { self.new.plan ≡ after_call self.old.plan (is_err result) }
        ensures unchanged { (self.new.piece ≡ self.old.piece) × (self.new.room ≡ self.old.room) }
    {
        let free = self.room.len() - self.len;
        if free == 0 || self.plan.fails_next() {
            self.plan.fail();
            return Err(SinkFault);
        }
        self.plan.pass();
        let count = self.piece.min(piece.len()).min(free);
        copy_at(&mut self.room, self.len, &piece[..count]);
        self.len += count;
        Ok(count)
    }
}
