//! A log of fixed size.
ghost use Rattle.std.specs.Prelude.{◌≡◌, ◌+◌, ◌<◌, ◌≤◌, ◌^◌, ◌==◌, [], false, length, nat_le, ◌&&◌, sum_by, IfOk, vec_capacity, vec_len};
ghost use Rattle.band_disk.specs.Logs.{AreWithin, Wrote, Synced, Restarted, bytes_of, entries_of, spoiled, unsynced, with_writes, writes_in};
ghost use Rattle.band_disk.specs.Entries.{IsLog, IsNoted, calls_of, log_calls, written_size};

use crate::overwrite::{append, overwrite, put, spoil};
use std::alloc::{AllocError, Global};

/// A call in the log. The bytes of writes are stored in a separate list, one write after another.
#[derive(Clone, Copy, Debug)]
pub enum Entry {
    Write { at: u32, len: u32 },
    Sync,
    Restart,
}

/// The writes, syncs and restarts of a disk, in memory that was allocated when the log was made.
#[derive(Drop)]
pub struct Log {
    pub entries: Vec<Entry>,
    pub written: Vec<u8>,
    /// The number of entries that the log has room for, and the number of bytes.
    pub places: usize,
    pub space: usize,
    /// The number of entries in use, including those that are reserved for a restart.
    pub taken: usize,
    /// The first entry since the last sync or restart, and the first byte written since then.
    pub first: usize,
    pub first_byte: usize,
}

/// Writes the pieces of these entries over the bytes.
fn lay_writes(bytes: &mut Vec<u8>, entries: &[Entry], written: &[u8])
    requires size { written_size entries.now ≡ length written.now }
    requires in_range { AreWithin (vec_capacity bytes.old) bytes.old.items (writes_in (calls_of entries.now written.now)) }
    ensures items { bytes.new.items ≡ with_writes bytes.old.items (writes_in (calls_of entries.now written.now)) }
    ensures capacity { vec_capacity bytes.old ≤ vec_capacity bytes.new }
{
    let mut rest = written;
    for entry in entries {
        if let Entry::Write { at, len } = *entry {
            let (piece, after) = rest.split_at(len as usize);
            overwrite(bytes, at as usize, piece);
            rest = after;
        }
    }
}

/// Writes the byte 255 to each place that these entries wrote.
fn spoil_writes(bytes: &mut Vec<u8>, entries: &[Entry], written: &[u8])
    requires size { written_size entries.now ≡ length written.now }
    requires in_range { AreWithin (vec_capacity bytes.old) bytes.old.items (spoiled (writes_in (calls_of entries.now written.now))) }
    ensures items { bytes.new.items ≡ with_writes bytes.old.items (spoiled (writes_in (calls_of entries.now written.now))) }
    ensures capacity { vec_capacity bytes.old ≤ vec_capacity bytes.new }
{
    let mut rest = written;
    for entry in entries {
        if let Entry::Write { at, len } = *entry {
            let (piece, after) = rest.split_at(len as usize);
            spoil(bytes, at as usize, piece.len(), 255);
            rest = after;
        }
    }
}

impl Log {
    /// An empty log with room for this many entries and bytes.
    pub fn new(alloc: Global, places: usize, space: usize) -> Result<Log, AllocError>
        ensures sound { IfOk result IsLog }
        ensures calls { IfOk result (λ log. log_calls log ≡ []) }
        ensures size { IfOk result (λ log. (log.places ≡ places) × (log.space ≡ space)) }
    {
        Ok(Log {
            entries: Vec::with_capacity(alloc, places)?,
            written: Vec::with_capacity(alloc, space)?,
            places,
            space,
            taken: 0,
            first: 0,
            first_byte: 0,
        })
    }

    /// Whether it has room for this many more entries and bytes.
    pub fn has_place(&self, entries: usize, bytes: usize) -> bool
        requires { IsLog self.now }
        ensures { result ≡ (nat_le (sum_by entries_of (log_calls self.now) + entries) self.now.places
            && nat_le (sum_by bytes_of (log_calls self.now) + bytes) self.now.space) }
    {
        entries <= self.places - self.taken && bytes <= self.space - self.written.len()
    }

    /// Whether nothing was written since the last sync or restart.
    pub fn is_synced(&self) -> bool
        requires { IsLog self.now }
        ensures value { result ≡ (length (unsynced (log_calls self.now)) == 0) }
        ensures in_range { result ≡ false → self.now.first < vec_len self.now.entries }
    {
        self.first == self.entries.len()
    }

    /// Logs a write. It reserves an entry for a restart after it.
    pub fn note_write(&mut self, at: u32, piece: &[u8])
        requires sound { IsLog self.old }
        requires places { sum_by entries_of (log_calls self.old) + 2 ≤ self.old.places }
        requires space { sum_by bytes_of (log_calls self.old) + length piece.now ≤ self.old.space }
        requires at_most { length piece.now < 2 ^ 32 }
        ensures { IsNoted self.old (Wrote at piece.now) self.new }
    {
        put(
            &mut self.entries,
            Entry::Write {
                at,
                len: piece.len() as u32,
            },
        );
        append(&mut self.written, piece);
        self.taken += 2;
    }

    /// Logs a sync.
    pub fn note_sync(&mut self)
        requires sound { IsLog self.old }
        requires places { sum_by entries_of (log_calls self.old) + 1 ≤ self.old.places }
        ensures { IsNoted self.old Synced self.new }
    {
        put(&mut self.entries, Entry::Sync);
        self.taken += 1;
        self.first = self.entries.len();
        self.first_byte = self.written.len();
    }

    /// Logs a restart. A write since the last sync or restart reserved an entry for it.
    pub fn note_restart(&mut self)
        requires sound { IsLog self.old }
        requires in_range { self.old.first < vec_len self.old.entries }
        ensures { IsNoted self.old Restarted self.new }
    {
        put(&mut self.entries, Entry::Restart);
        self.first = self.entries.len();
        self.first_byte = self.written.len();
    }

    /// Makes the writes that weren't synced.
    pub fn lay(&self, bytes: &mut Vec<u8>)
        requires sound { IsLog self.now }
        requires in_range { AreWithin (vec_capacity bytes.old) bytes.old.items (unsynced (log_calls self.now)) }
        ensures items { bytes.new.items ≡ with_writes bytes.old.items (unsynced (log_calls self.now)) }
        ensures capacity { vec_capacity bytes.old ≤ vec_capacity bytes.new }
    {
        lay_writes(
            bytes,
            &self.entries[self.first..],
            &self.written[self.first_byte..],
        );
    }

    /// Writes the byte 255 to each place of the writes that weren't synced.
    pub fn spoil(&self, bytes: &mut Vec<u8>)
        requires sound { IsLog self.now }
        requires in_range { AreWithin (vec_capacity bytes.old) bytes.old.items (spoiled (unsynced (log_calls self.now))) }
        ensures items { bytes.new.items ≡ with_writes bytes.old.items (spoiled (unsynced (log_calls self.now))) }
        ensures capacity { vec_capacity bytes.old ≤ vec_capacity bytes.new }
    {
        spoil_writes(
            bytes,
            &self.entries[self.first..],
            &self.written[self.first_byte..],
        );
    }
}
