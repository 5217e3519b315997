//! The collection that runs, the units not yet scanned, and the registers.
ghost use Rattle.std.specs.Prelude.{◌<◌, ◌∷◌, [], codes, length, OnErr};
ghost use Rattle.outer_ports.specs.Ports.{FailedLast, HasCause};
ghost use Rattle.outer_ports.specs.Buffers.{Gathers};
ghost use Rattle.inside_text.specs.InsideText.{left_line, moved_line, next_line, phase_line, phase_lines, register_line, register_lines};
ghost use Rattle.inside_text.specs.Words.{condemned_word, line};

use crate::line::{PagedHeap, Told, levels_text, tell_line, tell_marked, without_comma};
use itoa::Buffer;
use lisp_graph::Condemn;
use outer_ports::{Sink, SinkBuffer};
use scavenger::Unit;

/// Gathers the line of the phase of a collection; `what` is what its flip condemned.
fn tell_what<K: Sink>(buffer: &mut SinkBuffer, sink: &mut K, phase: &[u8], what: Condemn) -> Told
    ensures gathers { Gathers (K.stands sink.old) (K.stands sink.new)
        buffer.old.pending buffer.new.pending (line (codes "phase" ∷ phase.now ∷ condemned_word what ∷ [])) result }
    ensures cause { HasCause (K.faults sink.old) (K.faults sink.new) result }
    ensures last { OnErr result (FailedLast (K.faults sink.old) (K.faults sink.new) (K.failed sink.new)) }
{
    match what {
        Condemn::Full => tell_line(buffer, sink, b"phase", &[phase, b"full"]),
        Condemn::Chosen(set) => {
            let levels = levels_text(set);
            tell_line(buffer, sink, b"phase", &[phase, without_comma(&levels)])
        }
    }
}

/// Gathers the line of the phase.
fn tell_phase<K: Sink>(buffer: &mut SinkBuffer, sink: &mut K, heap: &PagedHeap) -> Told
    ensures gathers { Gathers (K.stands sink.old) (K.stands sink.new)
        buffer.old.pending buffer.new.pending (phase_line heap.now) result }
    ensures cause { HasCause (K.faults sink.old) (K.faults sink.new) result }
    ensures last { OnErr result (FailedLast (K.faults sink.old) (K.faults sink.new) (K.failed sink.new)) }
{
    match heap.ground().table.condemned() {
        None => tell_line(buffer, sink, b"phase", &[b"idle"]),
        Some(what) => {
            let phase: &[u8] = if heap.scan().is_over() {
                b"over"
            } else {
                b"running"
            };
            tell_what(buffer, sink, phase, what)
        }
    }
}

/// Gathers the line of how many units have yet to be scanned.
fn tell_left<K: Sink>(buffer: &mut SinkBuffer, sink: &mut K, heap: &PagedHeap) -> Told
    ensures gathers { Gathers (K.stands sink.old) (K.stands sink.new)
        buffer.old.pending buffer.new.pending (left_line heap.now) result }
    ensures cause { HasCause (K.faults sink.old) (K.faults sink.new) result }
    ensures last { OnErr result (FailedLast (K.faults sink.old) (K.faults sink.new) (K.failed sink.new)) }
{
    let mut left = Buffer::new();
    tell_line(
        buffer,
        sink,
        b"left",
        &[left.format(heap.units_left()).as_bytes()],
    )
}

/// Gathers the line of the next unit.
fn tell_next<K: Sink>(buffer: &mut SinkBuffer, sink: &mut K, heap: &PagedHeap) -> Told
    ensures gathers { Gathers (K.stands sink.old) (K.stands sink.new)
        buffer.old.pending buffer.new.pending (next_line heap.now) result }
    ensures cause { HasCause (K.faults sink.old) (K.faults sink.new) result }
    ensures last { OnErr result (FailedLast (K.faults sink.old) (K.faults sink.new) (K.failed sink.new)) }
{
    let mut number = Buffer::new();
    match heap.next_unit() {
        None => tell_line(buffer, sink, b"next", &[b"none"]),
        Some(Unit::Register(register)) => {
            let digits = number.format(register).as_bytes();
            tell_line(buffer, sink, b"next", &[b"register", digits])
        }
        Some(Unit::Word(at)) => {
            let digits = number.format(at).as_bytes();
            tell_line(buffer, sink, b"next", &[b"word", digits])
        }
    }
}

/// Gathers the line of the page of the latest transport.
fn tell_moved<K: Sink>(buffer: &mut SinkBuffer, sink: &mut K, heap: &PagedHeap) -> Told
    ensures gathers { Gathers (K.stands sink.old) (K.stands sink.new)
        buffer.old.pending buffer.new.pending (moved_line heap.now) result }
    ensures cause { HasCause (K.faults sink.old) (K.faults sink.new) result }
    ensures last { OnErr result (FailedLast (K.faults sink.old) (K.faults sink.new) (K.failed sink.new)) }
{
    let mut number = Buffer::new();
    match heap.ground().table.last_moved() {
        None => tell_line(buffer, sink, b"moved", &[b"none"]),
        Some(page) => tell_line(buffer, sink, b"moved", &[number.format(page).as_bytes()]),
    }
}

/// Gathers what a collection condemned, how many units have yet to be scanned, which is next, and the page of the latest transport.
pub(crate) fn tell_scan<K: Sink>(buffer: &mut SinkBuffer, sink: &mut K, heap: &PagedHeap) -> Told
    ensures gathers { Gathers (K.stands sink.old) (K.stands sink.new)
        buffer.old.pending buffer.new.pending (phase_lines heap.now) result }
    ensures cause { HasCause (K.faults sink.old) (K.faults sink.new) result }
    ensures last { OnErr result (FailedLast (K.faults sink.old) (K.faults sink.new) (K.failed sink.new)) }
{
    tell_phase(buffer, sink, heap)?;
    tell_left(buffer, sink, heap)?;
    tell_next(buffer, sink, heap)?;
    tell_moved(buffer, sink, heap)
}

/// Gathers the line of a register.
fn tell_register<K: Sink>(
    buffer: &mut SinkBuffer,
    sink: &mut K,
    heap: &PagedHeap,
    register: u32,
) -> Told
    requires { register < length heap.now.registers }
    ensures gathers { Gathers (K.stands sink.old) (K.stands sink.new)
        buffer.old.pending buffer.new.pending (register_line heap.now register) result }
    ensures cause { HasCause (K.faults sink.old) (K.faults sink.new) result }
    ensures last { OnErr result (FailedLast (K.faults sink.old) (K.faults sink.new) (K.failed sink.new)) }
{
    let word = heap.register_words()[register as usize];
    let left = heap.scan().is_register_left(register);
    tell_marked(buffer, sink, b"register", register, word, left)
}

/// Gathers a line for each register.
pub(crate) fn tell_registers<K: Sink>(
    buffer: &mut SinkBuffer,
    sink: &mut K,
    heap: &PagedHeap,
) -> Told
    ensures gathers { Gathers (K.stands sink.old) (K.stands sink.new)
        buffer.old.pending buffer.new.pending (register_lines heap.now) result }
    ensures cause { HasCause (K.faults sink.old) (K.faults sink.new) result }
    ensures last { OnErr result (FailedLast (K.faults sink.old) (K.faults sink.new) (K.failed sink.new)) }
{
    for register in 0..heap.register_words().len() {
        tell_register(buffer, sink, heap, register as u32)?;
    }
    Ok(())
}
