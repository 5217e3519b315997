//! Replies.
ghost use Rattle.std.specs.Prelude.{flat_map, OnErr};
ghost use Rattle.outer_ports.specs.Ports.{FailedLast, HasCause};
ghost use Rattle.outer_ports.specs.Buffers.{Gathers};
ghost use Rattle.band_run.specs.Replies.{name_line, number_line, reply_text};

use itoa::Buffer;
use lisp_graph::{Name, Text};
use outer_ports::{Sink, SinkBuffer, SinkFault};

/// The answer to a command.
#[derive(Debug, Drop)]
pub enum Reply {
    /// The store was opened, and has this many names.
    Opened { count: u32 },
    /// The disk has no store.
    NotAStore,
    /// The first gate that is open and isn't followed by a record is the byte with this number, counted from 0.
    Damaged { at: u64 },
    Saved { name: Name },
    /// The text has this many bytes, more than 1,048,576.
    TooLarge { size: u64 },
    /// The disk would need room for this many bytes.
    Full { end: u64 },
    Loaded { text: Text },
    NoBand { name: Name },
    /// The lines of all names.
    Listed { lines: Text },
    /// The store isn't open.
    Closed,
    /// The disk failed.
    Fault,
}

/// Gathers these parts after what is pending, one after another, so that a line needn't be put together first.
fn gather_parts<K: Sink>(
    buffer: &mut SinkBuffer,
    sink: &mut K,
    parts: &[&[u8]],
) -> Result<(), SinkFault>
    ensures gathers { Gathers (K.stands sink.old) (K.stands sink.new)
        buffer.old.pending buffer.new.pending (flat_map (λ part. part.now) parts.now) result }
    ensures cause { HasCause (K.faults sink.old) (K.faults sink.new) result }
    ensures last { OnErr result (FailedLast (K.faults sink.old) (K.faults sink.new) (K.failed sink.new)) }
{
    for part in parts {
        buffer.gather(sink, part)?;
    }
    Ok(())
}

/// Gathers a line with a word and a number.
fn gather_number<K: Sink>(
    buffer: &mut SinkBuffer,
    sink: &mut K,
    word: &[u8],
    number: u64,
) -> Result<(), SinkFault>
    ensures gathers { Gathers (K.stands sink.old) (K.stands sink.new)
        buffer.old.pending buffer.new.pending (number_line word.now number) result }
    ensures cause { HasCause (K.faults sink.old) (K.faults sink.new) result }
    ensures last { OnErr result (FailedLast (K.faults sink.old) (K.faults sink.new) (K.failed sink.new)) }
{
    let mut digits = Buffer::new();
    gather_parts(
        buffer,
        sink,
        &[word, b" ", digits.format(number).as_bytes(), b"\n"],
    )
}

/// Gathers a line with a word and a name.
fn gather_name<K: Sink>(
    buffer: &mut SinkBuffer,
    sink: &mut K,
    word: &[u8],
    name: &Name,
) -> Result<(), SinkFault>
    ensures gathers { Gathers (K.stands sink.old) (K.stands sink.new)
        buffer.old.pending buffer.new.pending (name_line word.now name.now) result }
    ensures cause { HasCause (K.faults sink.old) (K.faults sink.new) result }
    ensures last { OnErr result (FailedLast (K.faults sink.old) (K.faults sink.new) (K.failed sink.new)) }
{
    gather_parts(buffer, sink, &[word, b" ", name.as_bytes(), b"\n"])
}

/// Gathers a reply after what is pending.
pub fn gather_reply<K: Sink>(
    buffer: &mut SinkBuffer,
    sink: &mut K,
    reply: &Reply,
) -> Result<(), SinkFault>
    ensures gathers { Gathers (K.stands sink.old) (K.stands sink.new)
        buffer.old.pending buffer.new.pending (reply_text reply.now) result }
    ensures cause { HasCause (K.faults sink.old) (K.faults sink.new) result }
    ensures last { OnErr result (FailedLast (K.faults sink.old) (K.faults sink.new) (K.failed sink.new)) }
{
    match reply {
        Reply::Opened { count } => gather_number(buffer, sink, b"opened", u64::from(*count)),
        Reply::NotAStore => buffer.gather(sink, b"not-a-store\n"),
        Reply::Damaged { at } => gather_number(buffer, sink, b"damaged", *at),
        Reply::Saved { name } => gather_name(buffer, sink, b"saved", name),
        Reply::TooLarge { size } => gather_number(buffer, sink, b"too-large", *size),
        Reply::Full { end } => gather_number(buffer, sink, b"full", *end),
        Reply::Loaded { text } => buffer.gather(sink, text.as_slice()),
        Reply::NoBand { name } => gather_name(buffer, sink, b"no-band", name),
        Reply::Listed { lines } => buffer.gather(sink, lines.as_slice()),
        Reply::Closed => buffer.gather(sink, b"closed\n"),
        Reply::Fault => buffer.gather(sink, b"fault\n"),
    }
}
