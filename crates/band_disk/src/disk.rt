//! The trait of a disk that may crash at any moment.
ghost use Rattle.std.specs.Prelude.{◌≡◌, ◌+◌, ◌<◌, ◌≤◌, ◌^◌, ℕ, List, length, take, drop, OnOk};
ghost use Rattle.outer_ports.specs.Ports.{HasCause, next_count};
ghost use Rattle.band_disk.specs.Disks.{Elapses, Follows, Only, Torn, overwritten};

/// A call of a disk failed.
#[derive(Debug, Drop, Clone, Copy, PartialEq, Eq)]
pub struct DiskFault;

/// Bytes that survive a crash. A crash may tear what was written since the last sync: in a possible post-crash state (an image)
/// of the disk, each range that was written, and what is past the old end, may contain any bytes.
pub trait BandDisk {
    /// The bytes that a read returns.
    ghost bytes: { Self → List ℕ };

    /// The number of bytes that the disk has room for.
    ghost space: { Self → ℕ };

    /// The possible states after a crash at this moment.
    ghost images: { Self → List ℕ → Type 0 };

    /// The moment, a number that never falls.
    ghost clock: { Self → ℕ };

    /// The possible states after a crash at some moment from that one on, during a call or between two.
    ghost images_since: { Self → ℕ → List ℕ → Type 0 };

    /// How many calls failed. The count saturates at 2^64 - 1, and counts as risen from then on.
    ghost faults: { Self → ℕ };

    /// How many writes and syncs were requested: a 64-bit count, which saturates.
    ghost changes: { Self → ℕ };

    /// The number of bytes of the disk.
    fn size(&self) -> u64
        ensures { result ≡ length (bytes self.now) };

    /// The number of bytes that the disk has room for: at least its size, and fewer than 2^63. The room never changes.
    fn room(&self) -> u64
        ensures room { result ≡ space self.now }
        ensures at_least { length (bytes self.now) ≤ result }
        ensures in_range { result < 2 ^ 63 };

    /// Reads bytes from this position on until the slice is full. They must be within the size. If the call
    /// fails, the slice may contain any bytes.
    fn read_at(&mut self, at: u64, into: &mut [u8]) -> Result<(), DiskFault>
        requires { at + length into.old ≤ length (bytes self.old) }
        ensures read { OnOk result (into.new ≡ take (length into.old) (drop at (bytes self.old))) }
        ensures unchanged { bytes self.new ≡ bytes self.old }
        ensures space { space self.new ≡ space self.old }
        ensures images { (image : List ℕ) → images self.new image → images self.old image }
        ensures time { Elapses (clock self.old) (clock self.new) (images_since self.old) (images_since self.new) (images self.new) }
        ensures cause { HasCause (faults self.old) (faults self.new) result }
        ensures changes { changes self.new ≡ changes self.old };

    /// Overwrites the bytes from this position on, and past the end. The position must be within the size or at
    /// its end, and the bytes within the room. Until a sync, a crash may leave any bytes in their range, even
    /// if the call failed. After a call that failed, no clause says what a read returns.
    fn write_at(&mut self, at: u64, from: &[u8]) -> Result<(), DiskFault>
        requires at_most { at ≤ length (bytes self.old) }
        requires room { at + length from.now ≤ space self.old }
        ensures written { OnOk result (bytes self.new ≡ overwritten at from.now (bytes self.old)) }
        ensures space { space self.new ≡ space self.old }
        ensures images { Follows (Torn at (length from.now)) (images self.old) (images self.new) }
        ensures time { Elapses (clock self.old) (clock self.new) (images_since self.old) (images_since self.new) (images self.new) }
        ensures cause { HasCause (faults self.old) (faults self.new) result }
        ensures changes { changes self.new ≡ next_count (changes self.old) };

    /// Makes what was written survive a crash. If the call fails, each post-crash state that was possible may still be.
    fn sync(&mut self) -> Result<(), DiskFault>
        ensures durable { OnOk result (Only (bytes self.old) (images self.new)) }
        ensures unchanged { bytes self.new ≡ bytes self.old }
        ensures space { space self.new ≡ space self.old }
        ensures images { (image : List ℕ) → images self.new image → images self.old image }
        ensures time { Elapses (clock self.old) (clock self.new) (images_since self.old) (images_since self.new) (images self.new) }
        ensures cause { HasCause (faults self.old) (faults self.new) result }
        ensures changes { changes self.new ≡ next_count (changes self.old) };

    /// Crashes the disk and restarts it: it becomes one of its images, with everything synced. It reports no failure, so it counts none.
    fn restart(&mut self)
        ensures images { images self.old (bytes self.new) }
        ensures durable { Only (bytes self.new) (images self.new) }
        ensures space { space self.new ≡ space self.old }
        ensures time { Elapses (clock self.old) (clock self.new) (images_since self.old) (images_since self.new) (images self.new) }
        ensures no_fault { faults self.new ≡ faults self.old }
        ensures changes { changes self.new ≡ changes self.old };

    /// The present moment is one of those since an earlier moment.
    ghost counts_now: { (disk : Self) (t : ℕ) (image : List ℕ) → t ≤ clock disk → images disk image → images_since disk t image };

    /// Since the present moment there is no other moment.
    ghost only_now: { (disk : Self) (image : List ℕ) → images_since disk (clock disk) image → images disk image };
}
