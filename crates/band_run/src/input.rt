//! A whole run.
ghost use Rattle.std.specs.Prelude.{◌≡◌, ◌≢◌, ℕ, List, true, false};
ghost use Rattle.outer_ports.specs.Ports.{FailedLast, Gained, Rose};
ghost use Rattle.line_input.specs.declared.statuses.status.Status.TheVariants.{ReadFailed as read_failed, WriteFailed as write_failed};
ghost use Rattle.band_run.specs.Answers.{Answers};
ghost use Rattle.band_run.specs.Outcome.{Ran, Says, Wrote, runs_commands};

use crate::reading::{Commands, read_bands};
use crate::run::run;
use band_store::{BandDisk, BandStore};
use line_input::{RunError, Status, finish, report};
use outer_ports::{Sink, SinkBuffer, Source};
use std::alloc::Global;

/// The most bytes of replies that are pending before they are given to the sink.
const PENDING: usize = 32_768;

/// Runs the commands of an input that was read, and gives their replies to the sink.
fn answer_commands<K: Sink, D: BandDisk>(
    alloc: Global,
    commands: &Commands,
    sink: &mut K,
    disk: &mut D,
) -> Status
    ensures ran { (i b : List ℕ) → Says i b commands.now → ((w : List ℕ) × Gained (K.stands sink.old) (K.stands sink.new) w
        × Wrote result (Answers D.bytes D.space D.images D.clock D.images_since D.faults D.changes disk.old disk.new) ⊥ i b w) }
    ensures runs { runs_commands result ≡ true }
    ensures write { result ≡ write_failed → Rose (K.faults sink.old) (K.faults sink.new) }
    ensures last { result ≡ write_failed → FailedLast (K.faults sink.old) (K.faults sink.new) (K.failed sink.new) }
    ensures no_fault { result ≢ write_failed → K.faults sink.new ≡ K.faults sink.old }
{
    let mut buffer = match SinkBuffer::new(alloc, PENDING) {
        Ok(buffer) => buffer,
        Err(_) => return report(sink, &RunError::Memory),
    };
    let mut store = BandStore::new(alloc);
    let outcome = run(
        alloc,
        commands.as_slice(),
        &mut store,
        &mut buffer,
        sink,
        disk,
    );
    finish(&mut buffer, sink, outcome)
}

/// Reads a whole input, runs its commands, and gives their replies to the sink.
pub fn answer_input<S: Source, K: Sink, D: BandDisk>(
    alloc: Global,
    source: &mut S,
    sink: &mut K,
    disk: &mut D,
) -> Status
    ensures ran { Ran (S.left source.old) (S.left source.new) (K.stands sink.old) (K.stands sink.new)
        (Answers D.bytes D.space D.images D.clock D.images_since D.faults D.changes disk.old disk.new)
        (Rose (S.faults source.old) (S.faults source.new)) result }
    ensures unchanged { runs_commands result ≡ false → disk.new ≡ disk.old }
    ensures read { result ≡ read_failed → Rose (S.faults source.old) (S.faults source.new) }
    ensures write { result ≡ write_failed → Rose (K.faults sink.old) (K.faults sink.new) }
    ensures last { result ≡ write_failed → FailedLast (K.faults sink.old) (K.faults sink.new) (K.failed sink.new) }
    ensures source_no_fault { result ≢ read_failed → result ≢ write_failed → S.faults source.new ≡ S.faults source.old }
    ensures sink_no_fault { result ≢ write_failed → K.faults sink.new ≡ K.faults sink.old }
{
    match read_bands(alloc, source) {
        Ok(commands) => answer_commands(alloc, &commands, sink, disk),
        Err(trouble) => report(sink, &trouble),
    }
}
