//! Writing the heap of a machine.
ghost use Rattle.std.specs.Prelude.{◌≡◌, ◌≢◌, ◌++◌, IfErr, OnErr};
ghost use Rattle.outer_ports.specs.Ports.{FailedLast, HasCause, Rose};
ghost use Rattle.outer_ports.specs.Buffers.{Gathers};
ghost use Rattle.line_input.specs.Statuses.{Closed};
ghost use Rattle.inside_run.specs.Outcome.{machine_text};

use crate::device::ShownSwap;
use line_input::{RunStop, Status, finish};
use outer_ports::{Sink, SinkBuffer};
use paged_machine::Machine;

/// Writes the heap of a machine after what is pending. The machine is unchanged: no page is used, and no page call is made.
fn tell_machine<K: Sink, D: ShownSwap>(
    buffer: &mut SinkBuffer,
    sink: &mut K,
    machine: &mut Machine<D>,
) -> Result<(), RunStop>
    ensures gathers { Gathers (K.stands sink.old) (K.stands sink.new)
        buffer.old.pending buffer.new.pending (machine_text machine.old.heap) result }
    ensures unchanged { machine.new ≡ machine.old }
    ensures write { IfErr result (λ stop. stop ≡ RunStop.Write) }
    ensures cause { HasCause (K.faults sink.old) (K.faults sink.new) result }
    ensures last { OnErr result (FailedLast (K.faults sink.old) (K.faults sink.new) (K.failed sink.new)) }
{
    match D::gather_machine(buffer, sink, machine) {
        Ok(()) => Ok(()),
        Err(_) => Err(RunStop::Write),
    }
}

/// Writes what is pending, and after it the heap of a machine. So a run ends that reached the end of its input. The machine is
/// unchanged: no page is used, and no page call is made.
pub fn finish_shown<K: Sink, D: ShownSwap>(
    buffer: &mut SinkBuffer,
    sink: &mut K,
    machine: &mut Machine<D>,
) -> Status
    ensures written { Closed (K.stands sink.old) (K.stands sink.new)
        (buffer.old.pending ++ machine_text machine.old.heap) Status.Done result }
    ensures unchanged { machine.new ≡ machine.old }
    ensures write { result ≡ Status.WriteFailed → Rose (K.faults sink.old) (K.faults sink.new) }
    ensures last { result ≡ Status.WriteFailed → FailedLast (K.faults sink.old) (K.faults sink.new) (K.failed sink.new) }
    ensures no_fault { result ≢ Status.WriteFailed → K.faults sink.new ≡ K.faults sink.old }
{
    let outcome = tell_machine(buffer, sink, machine);
    finish(buffer, sink, outcome)
}
