//! A sink in memory that grows.
ghost use Rattle.std.specs.Prelude.{◌≡◌, ◌<◌, ◌≤◌, [], false, length, take, is_err, IfOk, OnErr};
ghost use Rattle.outer_ports.specs.Ports.{Gained, HasCause, next_count};

use crate::sinks::sink::{Sink, SinkFault};
use std::alloc::Global;

/// Bytes in memory, in a vector that grows as it needs. A call fails if there is no memory for the bytes.
#[derive(Drop)]
pub struct SinkVec {
    /// The bytes that it was given.
    pub bytes: Vec<u8>,
    /// How many calls have failed; it saturates at 2^64 - 1.
    pub faults: u64,
    /// Whether the latest call failed.
    pub failed: bool,
}

impl SinkVec {
    /// A sink without bytes. It allocates no memory yet.
    pub fn new(alloc: Global) -> SinkVec
        ensures bytes { result.bytes.items ≡ [] }
        ensures no_fault { result.faults ≡ 0 }
        ensures failed { result.failed ≡ false }
    {
        SinkVec {
            bytes: Vec::new(alloc),
            faults: 0,
            failed: false,
        }
    }
}

impl Sink for SinkVec {
    ghost stands = { λ s had. s.bytes.items ≡ had };

    ghost faults = { λ s. s.faults };

    ghost failed = { λ s. s.failed };

    fn give(&mut self, piece: &[u8]) -> Result<usize, SinkFault>
        requires { 0 < length piece.now }
        ensures some { IfOk result (λ n. 0 < n) }
        ensures fits { IfOk result (λ n. n ≤ length piece.now) }
        ensures written { IfOk result (λ n. Gained (λ had. self.old.bytes.items ≡ had) (λ had. self.new.bytes.items ≡ had) (take n piece.now)) }
        ensures err { OnErr result (Gained (λ had. self.old.bytes.items ≡ had) (λ had. self.new.bytes.items ≡ had) []) }
        ensures cause { HasCause self.old.faults self.new.faults result }
        ensures failed { self.new.failed ≡ is_err result }
        ensures once { OnErr result (self.new.faults ≡ next_count self.old.faults) }
    {
        match self.bytes.extend_from_slice(piece) {
            Ok(()) => {
                self.failed = false;
                Ok(piece.len())
            }
            Err(_) => {
                self.faults = self.faults.saturating_add(1);
                self.failed = true;
                Err(SinkFault)
            }
        }
    }
}
