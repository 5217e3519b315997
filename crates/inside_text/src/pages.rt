//! Pages in frames and on the swap device, and the calls of the device.
ghost use Rattle.std.specs.Prelude.{◌<◌, Contains, ◌∷◌, [], codes, decimal, flat_map, OnErr};
ghost use Rattle.std.specs.List.{range_with_len};
ghost use Rattle.outer_ports.specs.Ports.{FailedLast, HasCause};
ghost use Rattle.outer_ports.specs.Buffers.{Gathers};
ghost use Rattle.paged_memory.specs.Paging.{resident_of, size_of};
ghost use Rattle.inside_text.specs.InsideText.{calls_line, page_lines};
ghost use Rattle.inside_text.specs.Pages.{frame_of, row_of};
ghost use Rattle.inside_text.specs.Words.{counts_line, line, resident_line, swapped_line};

use crate::line::{PagedHeap, Told, levels_text, tell_line, without_comma};
use itoa::Buffer;
use outer_ports::{Sink, SinkBuffer, SwapMemory};
use paged_memory::{Memory, PagedMemory};
use store_word::Levels;

/// Gathers the line of a page in a frame, with or without a tag.
fn tell_resident<K: Sink>(buffer: &mut SinkBuffer, sink: &mut K, page: u32, tag: bool) -> Told
    ensures gathers { Gathers (K.stands sink.old) (K.stands sink.new)
        buffer.old.pending buffer.new.pending (resident_line page tag) result }
    ensures cause { HasCause (K.faults sink.old) (K.faults sink.new) result }
    ensures last { OnErr result (FailedLast (K.faults sink.old) (K.faults sink.new) (K.failed sink.new)) }
{
    let mut digits = Buffer::new();
    let number = digits.format(page).as_bytes();
    if tag {
        return tell_line(
            buffer,
            sink,
            b"page",
            &[number, b"resident", b"tag", b"yes"],
        );
    }
    tell_line(buffer, sink, b"page", &[number, b"resident", b"tag", b"no"])
}

/// Gathers the line of a page in a frame of this memory.
fn tell_frame<K: Sink>(
    buffer: &mut SinkBuffer,
    sink: &mut K,
    mem: &PagedMemory<SwapMemory>,
    page: u32,
) -> Told
    requires { Contains (resident_of mem.now.0) page }
    ensures gathers { Gathers (K.stands sink.old) (K.stands sink.new)
        buffer.old.pending buffer.new.pending (frame_of mem.now.0 page) result }
    ensures cause { HasCause (K.faults sink.old) (K.faults sink.new) result }
    ensures last { OnErr result (FailedLast (K.faults sink.old) (K.faults sink.new) (K.failed sink.new)) }
{
    // This call gives the prover the invariant of the memory.
    let _pages = mem.pages();
    let tag = mem.marked(page, Levels::up_to(6));
    tell_resident(buffer, sink, page, tag)
}

/// Gathers a line for each page in a frame, the least recently used page first.
fn tell_frames<K: Sink>(
    buffer: &mut SinkBuffer,
    sink: &mut K,
    mem: &PagedMemory<SwapMemory>,
) -> Told
    ensures gathers { Gathers (K.stands sink.old) (K.stands sink.new)
        buffer.old.pending buffer.new.pending (flat_map (frame_of mem.now.0) (resident_of mem.now.0)) result }
    ensures cause { HasCause (K.faults sink.old) (K.faults sink.new) result }
    ensures last { OnErr result (FailedLast (K.faults sink.old) (K.faults sink.new) (K.failed sink.new)) }
{
    let mut next = mem.oldest();
    for turn in 0..mem.frames() {
        match next {
            None => return Ok(()),
            Some(page) => {
                tell_frame(buffer, sink, mem, page)?;
                next = mem.after(page);
            }
        }
    }
    Ok(())
}

/// Gathers the line of a page on the swap device, whose row has this spelling.
fn tell_row_of<K: Sink>(buffer: &mut SinkBuffer, sink: &mut K, page: u32, row: &[u8]) -> Told
    ensures gathers { Gathers (K.stands sink.old) (K.stands sink.new)
        buffer.old.pending buffer.new.pending (line (codes "page" ∷ decimal page ∷ codes "swapped" ∷ codes "row" ∷ row.now ∷ [])) result }
    ensures cause { HasCause (K.faults sink.old) (K.faults sink.new) result }
    ensures last { OnErr result (FailedLast (K.faults sink.old) (K.faults sink.new) (K.failed sink.new)) }
{
    let mut number = Buffer::new();
    let number = number.format(page).as_bytes();
    tell_line(buffer, sink, b"page", &[number, b"swapped", b"row", row])
}

/// Gathers the line of a page on the swap device with this row.
fn tell_swapped<K: Sink>(buffer: &mut SinkBuffer, sink: &mut K, page: u32, row: Levels) -> Told
    ensures gathers { Gathers (K.stands sink.old) (K.stands sink.new)
        buffer.old.pending buffer.new.pending (swapped_line page row.0) result }
    ensures cause { HasCause (K.faults sink.old) (K.faults sink.new) result }
    ensures last { OnErr result (FailedLast (K.faults sink.old) (K.faults sink.new) (K.failed sink.new)) }
{
    let levels = levels_text(row);
    tell_row_of(buffer, sink, page, without_comma(&levels))
}

/// Gathers the line of a page, if it is on the swap device.
fn tell_row<K: Sink>(
    buffer: &mut SinkBuffer,
    sink: &mut K,
    mem: &PagedMemory<SwapMemory>,
    page: u32,
) -> Told
    requires { page < size_of mem.now.0 }
    ensures gathers { Gathers (K.stands sink.old) (K.stands sink.new)
        buffer.old.pending buffer.new.pending (row_of mem.now.0 page) result }
    ensures cause { HasCause (K.faults sink.old) (K.faults sink.new) result }
    ensures last { OnErr result (FailedLast (K.faults sink.old) (K.faults sink.new) (K.failed sink.new)) }
{
    if mem.is_swapped(page) {
        return tell_swapped(buffer, sink, page, mem.row(page));
    }
    Ok(())
}

/// Gathers a line for each page on the swap device, in ascending order.
fn tell_rows<K: Sink>(buffer: &mut SinkBuffer, sink: &mut K, mem: &PagedMemory<SwapMemory>) -> Told
    ensures gathers { Gathers (K.stands sink.old) (K.stands sink.new)
        buffer.old.pending buffer.new.pending (flat_map (row_of mem.now.0) (range_with_len 0 (size_of mem.now.0))) result }
    ensures cause { HasCause (K.faults sink.old) (K.faults sink.new) result }
    ensures last { OnErr result (FailedLast (K.faults sink.old) (K.faults sink.new) (K.failed sink.new)) }
{
    for page in 0..mem.pages() {
        tell_row(buffer, sink, mem, page)?;
    }
    Ok(())
}

/// Gathers the line of these numbers of page calls.
fn tell_counts<K: Sink>(buffer: &mut SinkBuffer, sink: &mut K, writes: u64, reads: u64) -> Told
    ensures gathers { Gathers (K.stands sink.old) (K.stands sink.new)
        buffer.old.pending buffer.new.pending (counts_line writes reads) result }
    ensures cause { HasCause (K.faults sink.old) (K.faults sink.new) result }
    ensures last { OnErr result (FailedLast (K.faults sink.old) (K.faults sink.new) (K.failed sink.new)) }
{
    let mut written = Buffer::new();
    let mut read = Buffer::new();
    tell_line(
        buffer,
        sink,
        b"calls",
        &[
            b"write",
            written.format(writes).as_bytes(),
            b"read",
            read.format(reads).as_bytes(),
        ],
    )
}

/// Gathers the line of the page calls.
fn tell_calls<K: Sink>(buffer: &mut SinkBuffer, sink: &mut K, heap: &PagedHeap) -> Told
    ensures gathers { Gathers (K.stands sink.old) (K.stands sink.new)
        buffer.old.pending buffer.new.pending (calls_line heap.now.counts.swaps) result }
    ensures cause { HasCause (K.faults sink.old) (K.faults sink.new) result }
    ensures last { OnErr result (FailedLast (K.faults sink.old) (K.faults sink.new) (K.failed sink.new)) }
{
    let calls = heap.ground().mem.page_calls();
    tell_counts(buffer, sink, calls.writes, calls.reads)
}

/// Gathers the pages in frames, those on the swap device, and the page calls.
pub(crate) fn tell_pages<K: Sink>(buffer: &mut SinkBuffer, sink: &mut K, heap: &PagedHeap) -> Told
    ensures gathers { Gathers (K.stands sink.old) (K.stands sink.new)
        buffer.old.pending buffer.new.pending (page_lines heap.now) result }
    ensures cause { HasCause (K.faults sink.old) (K.faults sink.new) result }
    ensures last { OnErr result (FailedLast (K.faults sink.old) (K.faults sink.new) (K.failed sink.new)) }
{
    let mem = &heap.ground().mem;
    let _pages = mem.pages();
    tell_frames(buffer, sink, mem)?;
    tell_rows(buffer, sink, mem)?;
    tell_calls(buffer, sink, heap)
}
