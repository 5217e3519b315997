//! A source in memory.
ghost use Rattle.std.specs.Prelude.{◌≡◌, ◌≤◌, ◌<◌, ◌↔◌, Some, min, length, take, IfOk, OnErr, IsErr, is_err};
ghost use Rattle.outer_ports.specs.Plans.{FailsNext, Served, after_call, plan_of};
ghost use Rattle.outer_ports.specs.Ports.{Gave, HasCause, IsAtEnd, piece_length};

use crate::plan::FaultPlan;
use crate::sources::source::{Source, SourceFault};
use std::marker::Model;

/// Bytes in memory. A call gives at most a fixed number of bytes, and calls fail as planned.
#[derive(Drop)]
pub struct SourceBytes {
    bytes: Vec<u8>,
    at: usize,
    piece: usize,
    last: usize,
    plan: FaultPlan,
}

impl Model for SourceBytes {
    ghost use Rattle.std.specs.Prelude.{◌≤◌, ◌<◌, drop, vec_len};
    ghost use Rattle.outer_ports.specs.Plans.{Served};

    ghost Value = { Served };

    ghost view = { λ s. record { left = drop s.at s.bytes.items; piece = s.piece; last = s.last; plan = s.plan } };

    ghost invariant = { λ s. (s.at ≤ vec_len s.bytes) × (0 < s.piece) };
}

impl SourceBytes {
    /// A source of these bytes, which gives at most `piece` bytes in a call. The calls with a number in
    /// `fails` fail, counted from 1.
    pub fn new(bytes: Vec<u8>, piece: usize, fails: Vec<u64>) -> SourceBytes
        requires { 0 < piece }
        ensures { result ≡ record { left = bytes.items; piece = piece; last = 0; plan = plan_of fails.items } }
    {
        SourceBytes {
            bytes,
            at: 0,
            piece,
            last: 0,
            plan: FaultPlan::new(fails),
        }
    }
}

impl Source for SourceBytes {
    ghost left = { λ s. Some s.left };

    ghost faults = { λ s. s.plan.faults };

    ghost last = { λ s. s.last };

    fn take(&mut self, into: &mut [u8]) -> Result<usize, SourceFault>
        requires { 0 < length into.old }
        ensures fits { IfOk result (λ n. n ≤ length into.new) }
        ensures given { IfOk result (λ n. Gave (Some self.old.left) (Some self.new.left) (take n into.new)) }
        ensures end { IfOk result (λ n. n ≡ 0 → IsAtEnd (Some self.new.left)) }
        ensures err { OnErr result (Some self.new.left ≡ Some self.old.left) }
        ensures cause { HasCause self.old.plan.faults self.new.plan.faults result }
        ensures last { self.new.last ≡ piece_length result }

        // The length of the piece, and which calls fail.
        ensures size { IfOk result (λ n. n ≡ min self.old.piece
            (min (length into.old) (length self.old.left))) }
        ensures fails { IsErr result ↔ FailsNext self.old.plan }
        ensures after { self.new.plan ≡ after_call self.old.plan (is_err result) }
        ensures unchanged { self.new.piece ≡ self.old.piece }
    {
        if self.plan.fails_next() {
            self.plan.fail();
            self.last = 0;
            return Err(SourceFault);
        }
        self.plan.pass();
        let count = self.piece.min(into.len()).min(self.bytes.len() - self.at);
        into[..count].copy_from_slice(&self.bytes[self.at..self.at + count]);
        self.at += count;
        self.last = count;
        Ok(count)
    }
}
