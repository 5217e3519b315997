//! The sizes of the world, and its areas.
ghost use Rattle.std.specs.Prelude.{◌<◌, ◌≤◌, ◌++◌, ◌∷◌, decimal, flat_map, map, length, OnErr};
ghost use Rattle.outer_ports.specs.Ports.{FailedLast, HasCause};
ghost use Rattle.outer_ports.specs.Buffers.{Gathers};
ghost use Rattle.inside_text.specs.Words.{line};
ghost use Rattle.inside_text.specs.InsideText.{area_line, area_lines, capacity_line, charged_line, space_line};

use crate::line::{PagedHeap, Told, tell_line, tell_number};
use itoa::Buffer;
use lisp_graph::AreaKind;
use outer_ports::{Sink, SinkBuffer};
use store_word::Space;
use world_text::kind_text;

/// Gathers numbers, each after a space.
fn tell_numbers<K: Sink>(buffer: &mut SinkBuffer, sink: &mut K, numbers: &[u32]) -> Told
    ensures gathers { Gathers (K.stands sink.old) (K.stands sink.new)
        buffer.old.pending buffer.new.pending (flat_map (λ number. 32 ∷ decimal number) numbers.now) result }
    ensures cause { HasCause (K.faults sink.old) (K.faults sink.new) result }
    ensures last { OnErr result (FailedLast (K.faults sink.old) (K.faults sink.new) (K.failed sink.new)) }
{
    for number in numbers {
        tell_number(buffer, sink, *number)?;
    }
    Ok(())
}

/// Gathers a line with numbers.
fn tell_number_line<K: Sink>(
    buffer: &mut SinkBuffer,
    sink: &mut K,
    first: &[u8],
    numbers: &[u32],
) -> Told
    ensures gathers { Gathers (K.stands sink.old) (K.stands sink.new)
        buffer.old.pending buffer.new.pending (line (first.now ∷ map decimal numbers.now)) result }
    ensures cause { HasCause (K.faults sink.old) (K.faults sink.new) result }
    ensures last { OnErr result (FailedLast (K.faults sink.old) (K.faults sink.new) (K.failed sink.new)) }
{
    buffer.gather(sink, first)?;
    tell_numbers(buffer, sink, numbers)?;
    buffer.gather(sink, b"\n")
}

/// Gathers the line of the sizes.
fn tell_space<K: Sink>(buffer: &mut SinkBuffer, sink: &mut K, space: &Space) -> Told
    ensures gathers { Gathers (K.stands sink.old) (K.stands sink.new)
        buffer.old.pending buffer.new.pending (space_line space.now) result }
    ensures cause { HasCause (K.faults sink.old) (K.faults sink.new) result }
    ensures last { OnErr result (FailedLast (K.faults sink.old) (K.faults sink.new) (K.failed sink.new)) }
{
    let levels = u32::from(space.levels);
    tell_number_line(
        buffer,
        sink,
        b"space",
        &[
            space.regions,
            space.frames,
            space.registers,
            levels,
            space.rate,
        ],
    )
}

/// Gathers the line of the capacities of all levels.
fn tell_capacity<K: Sink>(buffer: &mut SinkBuffer, sink: &mut K, space: &Space) -> Told
    requires { space.now.levels ≤ 6 }
    ensures gathers { Gathers (K.stands sink.old) (K.stands sink.new)
        buffer.old.pending buffer.new.pending (capacity_line space.now) result }
    ensures cause { HasCause (K.faults sink.old) (K.faults sink.new) result }
    ensures last { OnErr result (FailedLast (K.faults sink.old) (K.faults sink.new) (K.failed sink.new)) }
{
    let capacities = &space.capacity[..usize::from(space.levels)];
    tell_number_line(buffer, sink, b"capacity", capacities)
}

/// Gathers the line of an area of this kind, with this quota and this account.
fn tell_account<K: Sink>(
    buffer: &mut SinkBuffer,
    sink: &mut K,
    area: u8,
    kind: AreaKind,
    quota: u32,
    charged: u32,
) -> Told
    ensures gathers { Gathers (K.stands sink.old) (K.stands sink.new)
        buffer.old.pending buffer.new.pending (charged_line area kind quota charged) result }
    ensures cause { HasCause (K.faults sink.old) (K.faults sink.new) result }
    ensures last { OnErr result (FailedLast (K.faults sink.old) (K.faults sink.new) (K.failed sink.new)) }
{
    let mut number = Buffer::new();
    let mut limit = Buffer::new();
    let mut sum = Buffer::new();
    tell_line(
        buffer,
        sink,
        b"area",
        &[
            number.format(area).as_bytes(),
            kind_text(kind),
            b"quota",
            limit.format(quota).as_bytes(),
            b"charged",
            sum.format(charged).as_bytes(),
        ],
    )
}

/// Gathers the line of an area.
fn tell_area<K: Sink>(buffer: &mut SinkBuffer, sink: &mut K, heap: &PagedHeap, area: u8) -> Told
    requires { area < length heap.now.table.kinds }
    ensures gathers { Gathers (K.stands sink.old) (K.stands sink.new)
        buffer.old.pending buffer.new.pending (area_line heap.now area) result }
    ensures cause { HasCause (K.faults sink.old) (K.faults sink.new) result }
    ensures last { OnErr result (FailedLast (K.faults sink.old) (K.faults sink.new) (K.failed sink.new)) }
{
    let kinds = heap.kinds();
    let table = &heap.ground().table;
    tell_account(
        buffer,
        sink,
        area,
        kinds[usize::from(area)],
        table.quota(area),
        table.account(area),
    )
}

/// Gathers a line for each area.
fn tell_areas<K: Sink>(buffer: &mut SinkBuffer, sink: &mut K, heap: &PagedHeap) -> Told
    ensures gathers { Gathers (K.stands sink.old) (K.stands sink.new)
        buffer.old.pending buffer.new.pending (area_lines heap.now) result }
    ensures cause { HasCause (K.faults sink.old) (K.faults sink.new) result }
    ensures last { OnErr result (FailedLast (K.faults sink.old) (K.faults sink.new) (K.failed sink.new)) }
{
    for area in 0..heap.kinds().len() {
        tell_area(buffer, sink, heap, area as u8)?;
    }
    Ok(())
}

/// Gathers the sizes, and then the areas.
pub(crate) fn tell_sizes<K: Sink>(buffer: &mut SinkBuffer, sink: &mut K, heap: &PagedHeap) -> Told
    ensures gathers { Gathers (K.stands sink.old) (K.stands sink.new)
        buffer.old.pending buffer.new.pending (space_line heap.now.space ++ (capacity_line heap.now.space ++ area_lines heap.now)) result }
    ensures cause { HasCause (K.faults sink.old) (K.faults sink.new) result }
    ensures last { OnErr result (FailedLast (K.faults sink.old) (K.faults sink.new) (K.failed sink.new)) }
{
    let space = heap.space();
    tell_space(buffer, sink, space)?;
    tell_capacity(buffer, sink, space)?;
    tell_areas(buffer, sink, heap)
}
