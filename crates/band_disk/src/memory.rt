//! A disk in memory that can crash and tear writes.
ghost use Rattle.std.specs.Prelude.{◌≡◌, ◌+◌, ◌<◌, ◌≤◌, ◌==◌, ℕ, List, length, take, drop, not, is_ok, IfOk, OnOk, vec_capacity, if◌then◌else◌};
ghost use Rattle.outer_ports.specs.Ports.{HasCause, next_count};
ghost use Rattle.band_disk.specs.Disks.{Elapses, Follows, Only, Torn, overwritten};
ghost use Rattle.band_disk.specs.Logs.{AreWithin, LiesWithin, MemoryDisk, Synced, Wrote, accepts, after_call, after_read, counted, disk_bytes, failed, fresh, goes, image_of, image_since, left_by, restarted, unsynced};
ghost use Rattle.band_disk.specs.Entries.{IsLog, log_calls};
ghost use Rattle.band_disk.specs.Moments.{memory_counts_now, memory_only_now};

use crate::disk::{BandDisk, DiskFault};
use crate::log::Log;
use crate::overwrite::{overwrite, replace};
use outer_ports::NoMemory;
use std::alloc::Global;
use std::marker::Model;

/// A disk in memory. All its memory is allocated when it is made. It keeps a log of its writes, syncs and restarts, so that
/// the state after a crash at any earlier moment is known.
#[derive(Drop)]
pub struct BandMemory {
    start: Vec<u8>,
    bytes: Vec<u8>,
    synced: Vec<u8>,
    log: Log,
    room: u32,
    tear: u8,
    stop: u32,
    count: u64,
    stopped: bool,
    faults: u64,
}

impl Model for BandMemory {
    ghost use Rattle.std.specs.Prelude.{◌≤◌, vec_capacity};
    ghost use Rattle.band_disk.specs.Logs.{MemoryDisk};
    ghost use Rattle.band_disk.specs.Entries.{log_calls};
    ghost use Rattle.band_disk.specs.Memory.{LogInvariant};

    ghost Value = { MemoryDisk };

    ghost view = { λ m. record {
      start = m.start.items;
      calls = log_calls m.log;
      room = m.room;
      tear = m.tear;
      stop = m.stop;
      count = m.count;
      stopped = m.stopped;
      faults = m.faults;
    } };

    ghost invariant = { λ m. LogInvariant m.log m.start.items m.bytes.items m.synced.items m.room m.tear
        × (m.room ≤ vec_capacity m.bytes) × (m.room ≤ vec_capacity m.synced) };
}

/// Changes the synced bytes as a restart does: with a tear of 0 they are unchanged, with 1 the log's unsynced writes are
/// made, and with 2 or more each byte of those writes is 255.
#[tactic(auto, using(crate::proofs::WriteSequences::spoiled_within))]
fn leave(log: &Log, tear: u8, synced: &mut Vec<u8>)
    requires sound { IsLog log.now }
    requires in_range { AreWithin (vec_capacity synced.old) synced.old.items (unsynced (log_calls log.now)) }
    ensures items { synced.new.items ≡ left_by tear synced.old.items (unsynced (log_calls log.now)) }
    ensures capacity { vec_capacity synced.old ≤ vec_capacity synced.new }
{
    if tear == 0 {
        return;
    }
    if tear == 1 {
        log.lay(synced);
        return;
    }
    log.spoil(synced);
}

/// A copy of these bytes in a list with this capacity.
fn copy_in(alloc: Global, bytes: &[u8], room: usize) -> Result<Vec<u8>, NoMemory>
    requires { length bytes.now ≤ room }
    ensures items { IfOk result (λ copy. copy.items ≡ bytes.now) }
    ensures capacity { IfOk result (λ copy. room ≤ vec_capacity copy) }
{
    let mut copy = Vec::with_capacity(alloc, room)?;
    replace(&mut copy, bytes);
    Ok(copy)
}

impl BandMemory {
    /// A disk with these bytes, all of them synced, and room for `room` bytes. Its write or sync with the number
    /// `stop` fails, counted from 1, and so does each call after it until a restart; if `stop` is 0, none does. `tear`
    /// says what a restart makes of writes that weren't synced: with 0 they are lost, with 1 kept, and from 2 on
    /// all their bytes are 255. A write or sync also fails if the log is full: it has room for a quarter of
    /// the room in entries, two for each write and one for each sync, and for three times the room in written
    /// bytes.
    pub fn new(
        alloc: Global,
        bytes: &[u8],
        room: u32,
        stop: u32,
        tear: u8,
    ) -> Result<BandMemory, NoMemory>
        requires { length bytes.now ≤ room }
        ensures { IfOk result (λ disk. disk ≡ fresh bytes.now room stop tear) }
    {
        let space = room as usize;
        Ok(BandMemory {
            start: Vec::from_slice(alloc, bytes)?,
            bytes: copy_in(alloc, bytes, space)?,
            synced: copy_in(alloc, bytes, space)?,
            log: Log::new(alloc, space / 4, 3 * space)?,
            room,
            tear,
            stop,
            count: 0,
            stopped: false,
            faults: 0,
        })
    }

    /// Counts a write or sync that needs this many entries and bytes of the log, and returns whether it has to be made. If
    /// not, it failed.
    fn begin(&mut self, entries: usize, bytes: usize) -> bool
        ensures value { result ≡ goes self.old entries bytes }
        ensures after { self.new ≡ (if result then counted self.old else failed (counted self.old)) }
        ensures never_falls { self.old.faults ≤ self.new.faults }
        ensures in_range { LiesWithin self.old }
    {
        self.count = self.count.saturating_add(1);
        self.stopped = self.stopped || self.count == u64::from(self.stop);
        if self.stopped || !self.log.has_place(entries, bytes) {
            self.faults = self.faults.saturating_add(1);
            return false;
        }
        true
    }

    fn read(&mut self, at: usize, into: &mut [u8]) -> Result<(), DiskFault>
        requires { at + length into.old ≤ length (disk_bytes self.old) }
        ensures read { OnOk result (into.new ≡ take (length into.old) (drop at (disk_bytes self.old))) }
        ensures ok { is_ok result ≡ not self.old.stopped }
        ensures after { self.new ≡ after_read self.old }
        ensures cause { HasCause self.old.faults self.new.faults result }
    {
        if self.stopped {
            self.faults = self.faults.saturating_add(1);
            return Err(DiskFault);
        }
        into.copy_from_slice(&self.bytes[at..at + into.len()]);
        Ok(())
    }

    fn write(&mut self, at: u64, piece: &[u8]) -> Result<(), DiskFault>
        requires at_most { at ≤ length (disk_bytes self.old) }
        requires room { at + length piece.now ≤ self.old.room }
        ensures ok { is_ok result ≡ accepts self.old (Wrote at piece.now) }
        ensures after { self.new ≡ after_call self.old (Wrote at piece.now) }
        ensures cause { HasCause self.old.faults self.new.faults result }
    {
        if !self.begin(2, piece.len()) {
            return Err(DiskFault);
        }
        self.log.note_write(at as u32, piece);
        overwrite(&mut self.bytes, at as usize, piece);
        Ok(())
    }

    fn make_durable(&mut self) -> Result<(), DiskFault>
        ensures ok { is_ok result ≡ accepts self.old Synced }
        ensures after { self.new ≡ after_call self.old Synced }
        ensures cause { HasCause self.old.faults self.new.faults result }
        ensures in_range { LiesWithin self.old }
    {
        if !self.begin(1, 0) {
            return Err(DiskFault);
        }
        self.log.lay(&mut self.synced);
        self.log.note_sync();
        Ok(())
    }

    fn start_again(&mut self)
        ensures after { self.new ≡ restarted self.old }
        ensures in_range { LiesWithin self.old }
    {
        self.stopped = false;
        if self.log.is_synced() {
            return;
        }
        leave(&self.log, self.tear, &mut self.synced);
        replace(&mut self.bytes, &self.synced);
        self.log.note_restart();
    }
}

impl BandDisk for BandMemory {
    ghost bytes = { disk_bytes };

    ghost space = { λ m. m.room };

    ghost images = { image_of };

    ghost clock = { λ m. length m.calls };

    ghost images_since = { image_since };

    ghost faults = { λ m. m.faults };

    ghost changes = { λ m. m.count };

    ghost counts_now = { memory_counts_now };

    ghost only_now = { memory_only_now };

    fn size(&self) -> u64 {
        self.bytes.len() as u64
    }

    fn room(&self) -> u64 {
        u64::from(self.room)
    }

    fn read_at(&mut self, at: u64, into: &mut [u8]) -> Result<(), DiskFault>
        requires { at + length into.old ≤ length (disk_bytes self.old) }

        // The clauses of the trait.
        ensures read { OnOk result (into.new ≡ take (length into.old) (drop at (disk_bytes self.old))) }
        ensures unchanged { disk_bytes self.new ≡ disk_bytes self.old }
        ensures space { self.new.room ≡ self.old.room }
        ensures images { (image : List ℕ) → image_of self.new image → image_of self.old image }
        ensures time { Elapses (length self.old.calls) (length self.new.calls) (image_since self.old) (image_since self.new) (image_of self.new) }
        ensures cause { HasCause self.old.faults self.new.faults result }
        ensures changes { self.new.count ≡ self.old.count }

        // When it is Ok, and the disk in memory after it.
        ensures ok { is_ok result ≡ not self.old.stopped }
        ensures after { self.new ≡ after_read self.old }
    {
        self.read(at as usize, into)
    }

    fn write_at(&mut self, at: u64, from: &[u8]) -> Result<(), DiskFault>
        requires at_most { at ≤ length (disk_bytes self.old) }
        requires room { at + length from.now ≤ self.old.room }

        // The clauses of the trait.
        ensures written { OnOk result (disk_bytes self.new ≡ overwritten at from.now (disk_bytes self.old)) }
        ensures space { self.new.room ≡ self.old.room }
        ensures images { Follows (Torn at (length from.now)) (image_of self.old) (image_of self.new) }
        ensures time { Elapses (length self.old.calls) (length self.new.calls) (image_since self.old) (image_since self.new) (image_of self.new) }
        ensures cause { HasCause self.old.faults self.new.faults result }
        ensures changes { self.new.count ≡ next_count self.old.count }

        // When it is Ok, and the disk in memory after it.
        ensures ok { is_ok result ≡ accepts self.old (Wrote at from.now) }
        ensures after { self.new ≡ after_call self.old (Wrote at from.now) }
    {
        self.write(at, from)
    }

    fn sync(&mut self) -> Result<(), DiskFault>
        ensures durable { OnOk result (Only (disk_bytes self.old) (image_of self.new)) }
        ensures unchanged { disk_bytes self.new ≡ disk_bytes self.old }
        ensures space { self.new.room ≡ self.old.room }
        ensures images { (image : List ℕ) → image_of self.new image → image_of self.old image }
        ensures time { Elapses (length self.old.calls) (length self.new.calls) (image_since self.old) (image_since self.new) (image_of self.new) }
        ensures cause { HasCause self.old.faults self.new.faults result }
        ensures changes { self.new.count ≡ next_count self.old.count }
        ensures ok { is_ok result ≡ accepts self.old Synced }
        ensures after { self.new ≡ after_call self.old Synced }
    {
        self.make_durable()
    }

    fn restart(&mut self)
        ensures images { image_of self.old (disk_bytes self.new) }
        ensures durable { Only (disk_bytes self.new) (image_of self.new) }
        ensures space { self.new.room ≡ self.old.room }
        ensures time { Elapses (length self.old.calls) (length self.new.calls) (image_since self.old) (image_since self.new) (image_of self.new) }
        ensures no_fault { self.new.faults ≡ self.old.faults }
        ensures changes { self.new.count ≡ self.old.count }
        ensures after { self.new ≡ restarted self.old }
    {
        self.start_again();
    }
}
