//! The whole text.
ghost use Rattle.std.specs.Prelude.{OnErr};
ghost use Rattle.outer_ports.specs.Ports.{FailedLast, HasCause};
ghost use Rattle.outer_ports.specs.Buffers.{Gathers};
ghost use Rattle.inside_text.specs.InsideText.{head_lines, inside_text, middle_lines};

use crate::line::{PagedHeap, Told};
use crate::pages::tell_pages;
use crate::regions::tell_regions;
use crate::scan::{tell_registers, tell_scan};
use crate::sizes::tell_sizes;
use lisp_heap::Heap;
use outer_ports::{Sink, SinkBuffer, SinkFault, SwapMemory};
use paged_memory::PagedMemory;

/// Gathers the first line, the sizes and the areas.
fn tell_head<K: Sink>(buffer: &mut SinkBuffer, sink: &mut K, heap: &PagedHeap) -> Told
    ensures gathers { Gathers (K.stands sink.old) (K.stands sink.new)
        buffer.old.pending buffer.new.pending (head_lines heap.now) result }
    ensures cause { HasCause (K.faults sink.old) (K.faults sink.new) result }
    ensures last { OnErr result (FailedLast (K.faults sink.old) (K.faults sink.new) (K.failed sink.new)) }
{
    buffer.gather(sink, b"lispm-inside 1\n")?;
    tell_sizes(buffer, sink, heap)
}

/// Gathers the collection, the registers and the regions.
fn tell_middle<K: Sink>(buffer: &mut SinkBuffer, sink: &mut K, heap: &PagedHeap) -> Told
    ensures gathers { Gathers (K.stands sink.old) (K.stands sink.new)
        buffer.old.pending buffer.new.pending (middle_lines heap.now) result }
    ensures cause { HasCause (K.faults sink.old) (K.faults sink.new) result }
    ensures last { OnErr result (FailedLast (K.faults sink.old) (K.faults sink.new) (K.failed sink.new)) }
{
    tell_scan(buffer, sink, heap)?;
    tell_registers(buffer, sink, heap)?;
    tell_regions(buffer, sink, heap)
}

/// Gathers the text of a heap after what is pending, line by line. It allocates no memory. The heap is unchanged: no page
/// is used, and no page call is made.
pub fn tell_heap<K: Sink>(
    buffer: &mut SinkBuffer,
    sink: &mut K,
    heap: &Heap<PagedMemory<SwapMemory>>,
) -> Result<(), SinkFault>
    ensures gathers { Gathers (K.stands sink.old) (K.stands sink.new)
        buffer.old.pending buffer.new.pending (inside_text heap.now) result }
    ensures cause { HasCause (K.faults sink.old) (K.faults sink.new) result }
    ensures last { OnErr result (FailedLast (K.faults sink.old) (K.faults sink.new) (K.failed sink.new)) }
{
    tell_head(buffer, sink, heap)?;
    tell_middle(buffer, sink, heap)?;
    tell_pages(buffer, sink, heap)?;
    buffer.gather(sink, b"end-inside\n")
}
