//! Swap devices whose machines can be shown.
ghost use Rattle.std.specs.Prelude.{OnErr};
ghost use Rattle.outer_ports.specs.Ports.{FailedLast, HasCause};
ghost use Rattle.outer_ports.specs.Buffers.{Gathers};
ghost use Rattle.outer_ports.specs.Pages.{Device};
ghost use Rattle.inside_run.specs.Outcome.{machine_text};

use inside_text::tell_heap;
use outer_ports::{Sink, SinkBuffer, SinkFault, Swap, SwapMemory};
use paged_machine::Machine;

/// A swap device with a planned error, whose machine can be shown. No function of this trait makes a device. So a function that is generic
/// over it has no device except those that it is given.
pub trait ShownSwap: Swap + Sized {
    /// The device: its pages, its page calls so far, and the number of the page call that fails.
    ghost device: { Self → Device };

    /// Gathers the text of a machine after what is pending. It allocates no memory and makes no page call.
    fn gather_machine<K: Sink>(
        buffer: &mut SinkBuffer,
        sink: &mut K,
        machine: &Machine<Self>,
    ) -> Result<(), SinkFault>
        ensures gathers { Gathers (K.stands sink.old) (K.stands sink.new)
            buffer.old.pending buffer.new.pending (machine_text machine.now.heap) result }
        ensures cause { HasCause (K.faults sink.old) (K.faults sink.new) result }
        ensures last { OnErr result (FailedLast (K.faults sink.old) (K.faults sink.new) (K.failed sink.new)) };
}

impl ShownSwap for SwapMemory {
    ghost device = { λ s. s };

    fn gather_machine<K: Sink>(
        buffer: &mut SinkBuffer,
        sink: &mut K,
        machine: &Machine<SwapMemory>,
    ) -> Result<(), SinkFault> {
        match machine.heap() {
            None => Ok(()),
            Some(heap) => tell_heap(buffer, sink, heap),
        }
    }
}
