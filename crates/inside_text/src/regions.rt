//! The regions that aren't free, and their words.
ghost use Rattle.std.specs.Prelude.{◌≡◌, ◌<◌, ◌*◌, flat_map, Some, OnErr};
ghost use Rattle.std.specs.List.{range_with_len};
ghost use Rattle.outer_ports.specs.Ports.{FailedLast, HasCause};
ghost use Rattle.outer_ports.specs.Buffers.{Gathers};
ghost use Rattle.area_space.specs.Table.{used_of};
ghost use Rattle.inside_text.specs.Words.{age_word};
ghost use Rattle.inside_text.specs.InsideText.{all_region_lines, owned_line, region_lines, word_line};

use crate::line::{PagedHeap, Told, tell_line, tell_marked};
use area_space::{Class, RegionTable};
use itoa::Buffer;
use outer_ports::{Sink, SinkBuffer};
use store_word::REGION_WORDS;

/// The word for a region's age: old or live.
fn age_word(old: bool) -> &'static [u8]
    ensures { result.now ≡ age_word old }
{
    if old {
        return b"old";
    }
    b"live"
}

/// Gathers the line of a region that belongs to this area and this level.
fn tell_owned<K: Sink>(
    buffer: &mut SinkBuffer,
    sink: &mut K,
    table: &RegionTable,
    region: u32,
    owner: Class,
) -> Told
    requires { region < table.now.regions }
    ensures gathers { Gathers (K.stands sink.old) (K.stands sink.new)
        buffer.old.pending buffer.new.pending (owned_line table.now region owner.area owner.level owner.stale) result }
    ensures cause { HasCause (K.faults sink.old) (K.faults sink.new) result }
    ensures last { OnErr result (FailedLast (K.faults sink.old) (K.faults sink.new) (K.failed sink.new)) }
{
    let mut number = Buffer::new();
    let mut area = Buffer::new();
    let mut level = Buffer::new();
    let mut used = Buffer::new();
    let mut mark = Buffer::new();
    tell_line(
        buffer,
        sink,
        b"region",
        &[
            number.format(region).as_bytes(),
            b"area",
            area.format(owner.area).as_bytes(),
            b"level",
            level.format(owner.level).as_bytes(),
            age_word(owner.stale),
            b"used",
            used.format(table.used(region)).as_bytes(),
            b"mark",
            mark.format(table.flip_mark(region)).as_bytes(),
        ],
    )
}

/// Gathers the line of a word of memory.
fn tell_word<K: Sink>(buffer: &mut SinkBuffer, sink: &mut K, heap: &PagedHeap, at: u32) -> Told
    requires { at < REGION_WORDS * heap.now.table.regions }
    ensures gathers { Gathers (K.stands sink.old) (K.stands sink.new)
        buffer.old.pending buffer.new.pending (word_line heap.now at) result }
    ensures cause { HasCause (K.faults sink.old) (K.faults sink.new) result }
    ensures last { OnErr result (FailedLast (K.faults sink.old) (K.faults sink.new) (K.failed sink.new)) }
{
    let ground = heap.ground();
    let left = heap.scan().is_word_left(&ground.table, at);
    tell_marked(buffer, sink, b"word", at, ground.mem.peek(at), left)
}

/// Gathers a line for each used word of a region.
fn tell_words_in<K: Sink>(
    buffer: &mut SinkBuffer,
    sink: &mut K,
    heap: &PagedHeap,
    region: u32,
) -> Told
    requires { region < heap.now.table.regions }
    ensures gathers { Gathers (K.stands sink.old) (K.stands sink.new)
        buffer.old.pending buffer.new.pending (flat_map (word_line heap.now) (range_with_len (REGION_WORDS * region) (used_of heap.now.table region))) result }
    ensures cause { HasCause (K.faults sink.old) (K.faults sink.new) result }
    ensures last { OnErr result (FailedLast (K.faults sink.old) (K.faults sink.new) (K.failed sink.new)) }
{
    for offset in 0..heap.ground().table.used(region) {
        tell_word(buffer, sink, heap, REGION_WORDS * region + offset)?;
    }
    Ok(())
}

/// Gathers the line of a region and those of its used words, unless the region is free.
fn tell_region<K: Sink>(
    buffer: &mut SinkBuffer,
    sink: &mut K,
    heap: &PagedHeap,
    region: u32,
) -> Told
    requires { region < heap.now.table.regions }
    ensures gathers { Gathers (K.stands sink.old) (K.stands sink.new)
        buffer.old.pending buffer.new.pending (region_lines heap.now region) result }
    ensures cause { HasCause (K.faults sink.old) (K.faults sink.new) result }
    ensures last { OnErr result (FailedLast (K.faults sink.old) (K.faults sink.new) (K.failed sink.new)) }
{
    let table = &heap.ground().table;
    match table.class_of(REGION_WORDS * region) {
        None => Ok(()),
        Some(owner) => {
            tell_owned(buffer, sink, table, region, owner)?;
            tell_words_in(buffer, sink, heap, region)
        }
    }
}

/// Gathers the lines of all regions that aren't free.
pub(crate) fn tell_regions<K: Sink>(buffer: &mut SinkBuffer, sink: &mut K, heap: &PagedHeap) -> Told
    ensures gathers { Gathers (K.stands sink.old) (K.stands sink.new)
        buffer.old.pending buffer.new.pending (all_region_lines heap.now) result }
    ensures cause { HasCause (K.faults sink.old) (K.faults sink.new) result }
    ensures last { OnErr result (FailedLast (K.faults sink.old) (K.faults sink.new) (K.failed sink.new)) }
{
    for region in 0..heap.ground().table.regions() {
        tell_region(buffer, sink, heap, region)?;
    }
    Ok(())
}
