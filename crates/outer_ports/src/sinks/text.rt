//! Writing whole texts to a sink.
ghost use Rattle.std.specs.Prelude.{◌≡◌, ◌<◌, ◌≤◌, length, take, flat_map, OnOk, OnErr};
ghost use Rattle.outer_ports.specs.Ports.{FailedLast, Gained, HasCause, Wrote};

use crate::sinks::sink::{Sink, SinkFault};

/// Gives these bytes until all are given or the sink fails, and returns how many the sink took.
pub(crate) fn give_front<K: Sink>(sink: &mut K, bytes: &[u8]) -> (usize, Result<(), SinkFault>)
    ensures fits { result.0 ≤ length bytes.now }
    ensures written { Gained (K.stands sink.old) (K.stands sink.new) (take result.0 bytes.now) }
    ensures ok { OnOk result.1 (result.0 ≡ length bytes.now) }
    ensures err { OnErr result.1 (result.0 < length bytes.now) }
    ensures cause { HasCause (K.faults sink.old) (K.faults sink.new) result.1 }
    ensures last { OnErr result.1 (FailedLast (K.faults sink.old) (K.faults sink.new) (K.failed sink.new)) }
{
    let mut at = 0;
    while at < bytes.len() {
        match sink.give(&bytes[at..]) {
            Ok(count) => at += count,
            Err(fault) => return (at, Err(fault)),
        }
    }
    (at, Ok(()))
}

/// Gives all of these bytes. If the sink fails, it has gained a prefix of them, and not all.
pub fn give_all<K: Sink>(sink: &mut K, bytes: &[u8]) -> Result<(), SinkFault>
    ensures written { Wrote (K.stands sink.old) (K.stands sink.new) bytes.now result }
    ensures cause { HasCause (K.faults sink.old) (K.faults sink.new) result }
    ensures last { OnErr result (FailedLast (K.faults sink.old) (K.faults sink.new) (K.failed sink.new)) }
{
    let (_, outcome) = give_front(sink, bytes);
    outcome
}

/// Gives all of these parts, one after another, so that a line needn't be put together first. If
/// the sink fails, it has gained a prefix of their bytes, and not all.
pub fn give_parts<K: Sink>(sink: &mut K, parts: &[&[u8]]) -> Result<(), SinkFault>
    ensures written { Wrote (K.stands sink.old) (K.stands sink.new)
        (flat_map (λ part. part.now) parts.now) result }
    ensures cause { HasCause (K.faults sink.old) (K.faults sink.new) result }
    ensures last { OnErr result (FailedLast (K.faults sink.old) (K.faults sink.new) (K.failed sink.new)) }
{
    for part in parts {
        give_all(sink, part)?;
    }
    Ok(())
}
