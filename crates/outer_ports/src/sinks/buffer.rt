//! A buffer of bytes in front of a sink.
ghost use Rattle.std.specs.Prelude.{◌≡◌, ◌+◌, ◌-◌, ◌<◌, ◌≤◌, [], ◌++◌, length, take, IfOk, OnOk, OnErr};
ghost use Rattle.outer_ports.specs.Ports.{FailedLast, HasCause, Wrote};
ghost use Rattle.outer_ports.specs.Buffers.{Buffered, Gathered, Gathers};

use crate::room::{copy_at, drop_front};
use crate::sinks::sink::{Sink, SinkFault};
use crate::sinks::text::{give_all, give_front};
use std::alloc::Global;
use std::marker::Model;
use store_word::NoMemory;

// How many bytes of memory follow the room of a buffer, so that the whole array of a short text can be copied at its end.
const SPARE: usize = 64;

/// A buffer of fixed size in front of a sink. It gathers texts, and gives them to the sink together when
/// the next text doesn't fit, and at a flush.
#[derive(Drop)]
pub struct SinkBuffer {
    room: Vec<u8>,
    len: usize,
}

impl Model for SinkBuffer {
    ghost use Rattle.std.specs.Prelude.{◌+◌, ◌-◌, ◌≤◌, take, vec_len};
    ghost use Rattle.outer_ports.specs.Buffers.{Buffered};

    ghost Value = { Buffered };

    ghost view = { λ b. record { pending = take b.len b.room.items; room = vec_len b.room - 64 } };

    ghost invariant = { λ b. b.len + 64 ≤ vec_len b.room };
}

impl SinkBuffer {
    /// A buffer with room for this many bytes. No bytes are pending.
    pub fn new(alloc: Global, room: usize) -> Result<SinkBuffer, NoMemory>
        ensures { IfOk result (λ buffer. buffer ≡ record { pending = []; room = room }) }
    {
        let size = room.checked_add(SPARE).ok_or(NoMemory)?;
        let room = vec![in alloc; 0; size]?;
        Ok(SinkBuffer { room, len: 0 })
    }

    /// The bytes that are pending.
    pub fn bytes(&self) -> &[u8]
        ensures { result.now ≡ self.now.pending }
    {
        &self.room[..self.len]
    }

    /// Drops what is pending.
    pub fn clear(&mut self)
        ensures { self.new ≡ record self.old { pending = [] } }
    {
        self.len = 0;
    }

    /// Gathers these bytes after what is pending. If they fit in the buffer, the sink isn't called;
    /// otherwise the sink is first given what is pending. If the sink fails, a prefix of the bytes, and not
    /// all of them, was gathered, and none of that prefix is lost.
    #[inline(always)]
    pub fn gather<K: Sink>(&mut self, sink: &mut K, bytes: &[u8]) -> Result<(), SinkFault>
        ensures gathers { Gathers (K.stands sink.old) (K.stands sink.new)
            self.old.pending self.new.pending bytes.now result }
        ensures no_fault { length self.old.pending + length bytes.now ≤ self.old.room → sink.new ≡ sink.old }
        ensures room { self.new.room ≡ self.old.room }
        ensures cause { HasCause (K.faults sink.old) (K.faults sink.new) result }
        ensures last { OnErr result (FailedLast (K.faults sink.old) (K.faults sink.new) (K.failed sink.new)) }
    {
        if bytes.len() <= self.free() {
            self.put(bytes);
            return Ok(());
        }
        self.gather_anew(sink, bytes)
    }

    /// Gathers the first `len` bytes of an array of at most 64, as `gather` does. The whole array is copied, which is
    /// faster than a copy whose size isn't known when the program is compiled.
    #[inline(always)]
    pub fn gather_short<K: Sink, const N: usize>(
        &mut self,
        sink: &mut K,
        text: &[u8; N],
        len: usize,
    ) -> Result<(), SinkFault>
        requires at_most { N ≤ 64 }
        requires in_range { len ≤ N }
        ensures gathers { Gathers (K.stands sink.old) (K.stands sink.new)
            self.old.pending self.new.pending (take len text.now) result }
        ensures no_fault { length self.old.pending + len ≤ self.old.room → sink.new ≡ sink.old }
        ensures room { self.new.room ≡ self.old.room }
        ensures cause { HasCause (K.faults sink.old) (K.faults sink.new) result }
        ensures last { OnErr result (FailedLast (K.faults sink.old) (K.faults sink.new) (K.failed sink.new)) }
    {
        if len <= self.free() {
            self.put_short(text, len);
            return Ok(());
        }
        self.gather_anew(sink, &text[..len])
    }

    // Gathers bytes that don't fit after what is pending.
    #[inline(never)]
    fn gather_anew<K: Sink>(&mut self, sink: &mut K, bytes: &[u8]) -> Result<(), SinkFault>
        requires { self.old.room - length self.old.pending < length bytes.now }
        ensures gathers { Gathers (K.stands sink.old) (K.stands sink.new)
            self.old.pending self.new.pending bytes.now result }
        ensures room { self.new.room ≡ self.old.room }
        ensures cause { HasCause (K.faults sink.old) (K.faults sink.new) result }
        ensures last { OnErr result (FailedLast (K.faults sink.old) (K.faults sink.new) (K.failed sink.new)) }
    {
        self.flush(sink)?;
        if bytes.len() <= self.free() {
            self.put(bytes);
            return Ok(());
        }
        give_all(sink, bytes)
    }

    /// Gives the sink what is pending. If the sink fails, what it didn't take remains pending.
    pub fn flush<K: Sink>(&mut self, sink: &mut K) -> Result<(), SinkFault>
        ensures written { Wrote (K.stands sink.old) (K.stands sink.new) self.old.pending result }
        ensures gathers { Gathered (K.stands sink.old) (K.stands sink.new) self.new.pending self.old.pending }
        ensures ok { OnOk result (self.new.pending ≡ []) }
        ensures err { OnErr result (0 < length self.new.pending) }
        ensures room { self.new.room ≡ self.old.room }
        ensures cause { HasCause (K.faults sink.old) (K.faults sink.new) result }
        ensures last { OnErr result (FailedLast (K.faults sink.old) (K.faults sink.new) (K.failed sink.new)) }
    {
        let (given, outcome) = give_front(sink, &self.room[..self.len]);
        drop_front(&mut self.room, given, self.len);
        self.len -= given;
        outcome
    }

    // How many more bytes there is room for.
    #[inline(always)]
    fn free(&self) -> usize
        ensures { result + length self.now.pending ≡ self.now.room }
    {
        self.room.len() - SPARE - self.len
    }

    // Puts these bytes after what is pending.
    #[inline(always)]
    fn put(&mut self, bytes: &[u8])
        requires { length self.old.pending + length bytes.now ≤ self.old.room }
        ensures { self.new ≡ record self.old { pending = self.old.pending ++ bytes.now } }
    {
        copy_at(&mut self.room, self.len, bytes);
        self.len += bytes.len();
    }
    // Puts the first `len` bytes of this array after what is pending.
    #[inline(always)]
    fn put_short<const N: usize>(&mut self, text: &[u8; N], len: usize)
        requires fits { length self.old.pending + len ≤ self.old.room }
        requires at_most { N ≤ 64 }
        requires in_range { len ≤ N }
        ensures { self.new ≡ record self.old { pending = self.old.pending ++ take len text.now } }
    {
        copy_at(&mut self.room, self.len, text);
        self.len += len;
    }
}
