//! Sources and sinks over std's readers and writers. As ports they report no content.
ghost use Rattle.std.specs.Prelude.{◌≡◌, ◌<◌, ◌≤◌, false, None, length, is_err, IfOk, OnErr};
ghost use Rattle.std.specs.Io.KnownBytes.{ReadConsumes, WriteAppends};
ghost use Rattle.outer_ports.specs.Ports.{HasCause, next_count, piece_length};

use crate::sinks::{Sink, SinkFault};
use crate::sources::{Source, SourceFault};
use std::io;
use std::io::{Read, Write};
use std::marker::Model;

/// The bytes of a reader. As a source it doesn't report what remains. Its count of failed calls saturates at 2^64 - 1.
#[derive(Drop)]
pub struct SourceRead<R: Read> {
    inner: R,
    faults: u64,
    last: usize,
}

impl<R: Read> Model for SourceRead<R> {
    ghost use Rattle.outer_ports.specs.Adapters.{Adapted};

    ghost Value = { Adapted };

    ghost view = { λ s. record { told = R.remaining s.inner; faults = s.faults; last = s.last } };
}

impl<R: Read> SourceRead<R> {
    /// A source over this reader. No call has failed yet.
    pub fn new(inner: R) -> SourceRead<R>
        ensures { result ≡ record { told = R.remaining inner; faults = 0; last = 0 } }
    {
        SourceRead {
            inner,
            faults: 0,
            last: 0,
        }
    }
}

impl<R: Read> Source for SourceRead<R> {
    ghost left = { λ _. None };

    ghost faults = { λ s. s.faults };

    ghost last = { λ s. s.last };

    fn take(&mut self, into: &mut [u8]) -> Result<usize, SourceFault>
        ensures fits { IfOk result (λ n. n ≤ length into.new) }
        ensures read { ReadConsumes self.old.told self.new.told result into.new }
        ensures cause { HasCause self.old.faults self.new.faults result }
        ensures last { self.new.last ≡ piece_length result }
    {
        let outcome = self.inner.read(into);
        let answer = counted(outcome, 0, SourceFault, &mut self.faults);
        self.last = answer.unwrap_or(0);
        answer
    }
}

/// A writer. As a sink it reports no content. A call that takes 0 bytes of a piece has failed. Its count
/// of failed calls saturates at 2^64 - 1.
#[derive(Drop)]
pub struct SinkWrite<W: Write> {
    inner: W,
    faults: u64,
    failed: bool,
}

impl<W: Write> Model for SinkWrite<W> {
    ghost use Rattle.outer_ports.specs.Adapters.{AdaptedSink};

    ghost Value = { AdaptedSink };

    ghost view = { λ s. record { told = W.contents s.inner; faults = s.faults; failed = s.failed } };
}

impl<W: Write> SinkWrite<W> {
    /// A sink over this writer. No call has failed yet.
    pub fn new(inner: W) -> SinkWrite<W>
        ensures { result ≡ record { told = W.contents inner; faults = 0; failed = false } }
    {
        SinkWrite {
            inner,
            faults: 0,
            failed: false,
        }
    }
}

impl<W: Write> Sink for SinkWrite<W> {
    ghost stands = { λ _ _. ⊥ };

    ghost faults = { λ s. s.faults };

    ghost failed = { λ s. s.failed };

    fn give(&mut self, piece: &[u8]) -> Result<usize, SinkFault>
        ensures some { IfOk result (λ n. 0 < n) }
        ensures fits { IfOk result (λ n. n ≤ length piece.now) }
        ensures after { WriteAppends self.old.told self.new.told result piece.now }
        ensures cause { HasCause self.old.faults self.new.faults result }
        ensures failed { self.new.failed ≡ is_err result }
        ensures once { OnErr result (self.new.faults ≡ next_count self.old.faults) }
    {
        let outcome = self.inner.write(piece);
        let answer = counted(outcome, 1, SinkFault, &mut self.faults);
        self.failed = answer.is_err();
        answer
    }
}

// The count that a reader or a writer returned, if it is at least `least`. An error or a smaller
// count is a failed call, and is counted.
fn counted<E: Drop>(
    outcome: io::Result<usize>,
    least: usize,
    fault: E,
    faults: &mut u64,
) -> Result<usize, E>
    ensures ok { IfOk outcome (λ n. least ≤ n → (result ≡ Ok n) × (faults.new ≡ faults.old)) }
    ensures at_most { IfOk outcome (λ n. n < least →
        (result ≡ Err fault) × (faults.new ≡ next_count faults.old)) }
    ensures fails { OnErr outcome ((result ≡ Err fault) × (faults.new ≡ next_count faults.old)) }
    ensures cause { HasCause faults.old faults.new result }
    ensures once { OnErr result (faults.new ≡ next_count faults.old) }
{
    match outcome {
        Ok(count) if count >= least => Ok(count),
        _ => {
            *faults = faults.saturating_add(1);
            Err(fault)
        }
    }
}
