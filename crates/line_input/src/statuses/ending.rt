//! The last line of a run.
ghost use Rattle.std.specs.Prelude.{◌≡◌, ◌≢◌, ◌≤◌, Err};
ghost use Rattle.outer_ports.specs.Ports.{FailedLast, Rose};
ghost use Rattle.line_input.specs.Statuses.{Closed, Finished, error_line, status_of, trouble_line};

use crate::statuses::reasons::{write_error, write_trouble};
use crate::statuses::status::{RunError, RunStop, Status};
use outer_ports::{Sink, SinkBuffer};

/// Writes the error line of a trouble, and returns its status, or `WriteFailed` if the sink failed.
pub fn report<K: Sink>(sink: &mut K, trouble: &RunError) -> Status
    ensures written { Closed (K.stands sink.old) (K.stands sink.new) (trouble_line trouble.now) (status_of trouble.now) result }
    ensures write { result ≡ Status.WriteFailed → Rose (K.faults sink.old) (K.faults sink.new) }
    ensures last { result ≡ Status.WriteFailed → FailedLast (K.faults sink.old) (K.faults sink.new) (K.failed sink.new) }
    ensures never_falls { K.faults sink.old ≤ K.faults sink.new }
    ensures no_fault { result ≢ Status.WriteFailed → K.faults sink.new ≡ K.faults sink.old }
{
    match write_trouble(sink, trouble) {
        Ok(()) => trouble.status(),
        Err(_) => Status::WriteFailed,
    }
}

/// Writes the error line of a line that was refused with these words, and returns `Refused`, or `WriteFailed` if the sink failed.
pub fn tell_line<K: Sink>(sink: &mut K, line: u64, words: &[u8]) -> Status
    ensures written { Closed (K.stands sink.old) (K.stands sink.new) (error_line line words.now) Status.Refused result }
    ensures write { result ≡ Status.WriteFailed → Rose (K.faults sink.old) (K.faults sink.new) }
    ensures last { result ≡ Status.WriteFailed → FailedLast (K.faults sink.old) (K.faults sink.new) (K.failed sink.new) }
    ensures never_falls { K.faults sink.old ≤ K.faults sink.new }
    ensures no_fault { result ≢ Status.WriteFailed → K.faults sink.new ≡ K.faults sink.old }
{
    match write_error(sink, line, words) {
        Ok(()) => Status::Refused,
        Err(_) => Status::WriteFailed,
    }
}

/// Writes what is pending and then the error line of a trouble, and returns its status, or `WriteFailed` if the sink failed.
fn report_behind<K: Sink>(buffer: &mut SinkBuffer, sink: &mut K, trouble: &RunError) -> Status
    ensures written { Finished (K.stands sink.old) (K.stands sink.new) buffer.old.pending (Err (RunStop.Tell trouble.now)) result }
    ensures write { result ≡ Status.WriteFailed → Rose (K.faults sink.old) (K.faults sink.new) }
    ensures last { result ≡ Status.WriteFailed → FailedLast (K.faults sink.old) (K.faults sink.new) (K.failed sink.new) }
    ensures never_falls { K.faults sink.old ≤ K.faults sink.new }
    ensures no_fault { result ≢ Status.WriteFailed → K.faults sink.new ≡ K.faults sink.old }
{
    match buffer.flush(sink) {
        Ok(()) => report(sink, trouble),
        Err(_) => Status::WriteFailed,
    }
}

/// Writes what is pending, and then the error line, if the run stopped with a trouble. Returns the status: `Done` if the run reached
/// the end of its input, the status of the trouble if there is one, and `WriteFailed` if the sink failed now or before.
pub fn finish<K: Sink>(
    buffer: &mut SinkBuffer,
    sink: &mut K,
    outcome: Result<(), RunStop>,
) -> Status
    ensures written { Finished (K.stands sink.old) (K.stands sink.new) buffer.old.pending outcome result }
    ensures write { result ≡ Status.WriteFailed → outcome ≢ Err RunStop.Write → Rose (K.faults sink.old) (K.faults sink.new) }
    ensures last { result ≡ Status.WriteFailed → outcome ≢ Err RunStop.Write → FailedLast (K.faults sink.old) (K.faults sink.new) (K.failed sink.new) }
    ensures unchanged { outcome ≡ Err RunStop.Write → sink.new ≡ sink.old }
    ensures never_falls { K.faults sink.old ≤ K.faults sink.new }
    ensures no_fault { result ≢ Status.WriteFailed → K.faults sink.new ≡ K.faults sink.old }
{
    match outcome {
        Ok(()) => match buffer.flush(sink) {
            Ok(()) => Status::Done,
            Err(_) => Status::WriteFailed,
        },
        Err(RunStop::Write) => Status::WriteFailed,
        Err(RunStop::Tell(trouble)) => report_behind(buffer, sink, &trouble),
    }
}
