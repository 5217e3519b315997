//! Writing to a disk so that the writes survive a crash.
ghost use Rattle.std.specs.Prelude.{◌≡◌, ◌+◌, ◌<◌, ◌≤◌, ◌^◌, ◌∷◌, length, OnOk};
ghost use Rattle.band_disk.specs.outer_ports.Ports.{HasCause};
ghost use Rattle.band_disk.specs.Disks.{LeavesOnly, Only, Torn, overwritten, with_more};
ghost use Rattle.band_store.specs.Store.{IsTornRecord};

use band_disk::{BandDisk, DiskFault};

/// Overwrites the bytes from a position on with these, and syncs.
fn write_through<D: BandDisk>(disk: &mut D, at: u64, bytes: &[u8]) -> Result<(), DiskFault>
    requires settled { Only (D.bytes disk.old) (D.images disk.old) }
    requires place { at ≤ length (D.bytes disk.old) }
    requires room { at + length bytes.now ≤ D.space disk.old }

    // If it succeeds, the bytes are written and durable.
    ensures written { OnOk result (D.bytes disk.new ≡ overwritten at bytes.now (D.bytes disk.old)) }
    ensures durable { OnOk result (Only (D.bytes disk.new) (D.images disk.new)) }

    // The possible post-crash states, at each moment of the call and after it.
    ensures any_moment { LeavesOnly D.clock D.images_since disk.old disk.new (Torn at (length bytes.now) (D.bytes disk.old)) }
    ensures images { (image : _) → D.images disk.new image → Torn at (length bytes.now) (D.bytes disk.old) image }

    // The room, failed calls, and the number of writes and syncs.
    ensures space { D.space disk.new ≡ D.space disk.old }
    ensures cause { HasCause (D.faults disk.old) (D.faults disk.new) result }
    ensures changes { OnOk result (D.changes disk.new ≡ with_more 2 (D.changes disk.old)) }
    ensures at_most { D.changes disk.new ≤ D.changes disk.old + 2 }
{
    disk.write_at(at, bytes)?;
    disk.sync()?;
    Ok(())
}

/// Writes a record after the gate at this position, which is closed, and opens the gate only once the record survives a crash.
pub fn write_record<D: BandDisk>(disk: &mut D, gate: u64, bytes: &[u8]) -> Result<(), DiskFault>
    requires settled { Only (D.bytes disk.old) (D.images disk.old) }
    requires place { gate < length (D.bytes disk.old) }
    requires room { gate + 1 + length bytes.now ≤ D.space disk.old }
    requires fits { D.space disk.old < 2 ^ 63 }

    // If it succeeds, the bytes are written and durable.
    ensures written { OnOk result (D.bytes disk.new ≡ overwritten gate (1 ∷ bytes.now) (D.bytes disk.old)) }
    ensures durable { OnOk result (Only (D.bytes disk.new) (D.images disk.new)) }

    // The possible post-crash states, at each moment of the call and after it.
    ensures any_moment { LeavesOnly D.clock D.images_since disk.old disk.new (IsTornRecord gate bytes.now (D.bytes disk.old)) }
    ensures images { (image : _) → D.images disk.new image → IsTornRecord gate bytes.now (D.bytes disk.old) image }

    // The room, failed calls, and the number of writes and syncs.
    ensures space { D.space disk.new ≡ D.space disk.old }
    ensures cause { HasCause (D.faults disk.old) (D.faults disk.new) result }
    ensures changes { OnOk result (D.changes disk.new ≡ with_more 4 (D.changes disk.old)) }
    ensures at_most { D.changes disk.new ≤ D.changes disk.old + 4 }
{
    write_through(disk, gate + 1, bytes)?;
    write_through(disk, gate, &[1])?;
    Ok(())
}
