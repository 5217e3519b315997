//! Reading the records of a disk.
ghost use Rattle.std.specs.Prelude.{◌≡◌, ◌≢◌, ◌<◌, ◌≤◌, ◌^◌, List, [], true, false, length, drop, Err, IfErr, IfOk};
ghost use Rattle.band_disk.specs.outer_ports.Ports.{HasCause, Rose};
ghost use Rattle.band_disk.specs.Disks.{ReadsOnly};
ghost use Rattle.band_store.specs.Directory.{index};
ghost use Rattle.band_store.specs.Format.{HasHeader, Holds, IsNoStore, Save, gate_behind};
ghost use Rattle.band_store.specs.Gates.{IsGate};
ghost use Rattle.band_store.specs.Store.{IsRefused};

use crate::directory::{Extent, put_name};
use crate::faults::OpenFault;
use crate::format::{HEADER, HeaderState, LONGEST_HEAD, read_gate};
use band_disk::{BandDisk, DiskFault};
use lisp_graph::Name;

/// Whether the disk begins with the header, followed by a gate.
fn has_header<D: BandDisk>(disk: &mut D) -> Result<bool, DiskFault>
    ensures on_true { IfOk result (λ yes. yes ≡ true → HasHeader (D.bytes disk.old)) }
    ensures on_false { IfOk result (λ yes. yes ≡ false → IsNoStore (D.bytes disk.old)) }
    ensures reads { ReadsOnly D.bytes D.space D.images D.clock D.images_since disk.old disk.new }
    ensures cause { HasCause (D.faults disk.old) (D.faults disk.new) result }
    ensures changes { D.changes disk.new ≡ D.changes disk.old }
{
    if disk.size() < 9 {
        return Ok(false);
    }
    let mut head = [0; 8];
    disk.read_at(0, &mut head)?;
    Ok(head == *HEADER)
}

/// What is at the gate at this position.
fn gate_at<D: BandDisk>(disk: &mut D, gate: u64) -> Result<HeaderState, DiskFault>
    requires { gate < length (D.bytes disk.old) }
    ensures ok { IfOk result (IsGate (drop gate (D.bytes disk.old))) }
    ensures fits { length (D.bytes disk.old) < 2 ^ 64 }
    ensures reads { ReadsOnly D.bytes D.space D.images D.clock D.images_since disk.old disk.new }
    ensures cause { HasCause (D.faults disk.old) (D.faults disk.new) result }
    ensures changes { D.changes disk.new ≡ D.changes disk.old }
{
    let left = disk.size() - gate;
    let len = left.min(LONGEST_HEAD as u64) as usize;
    let mut room = [0; LONGEST_HEAD];
    disk.read_at(gate, &mut room[..len])?;
    Ok(read_gate(&room[..len], left))
}

/// Adds each name on the disk, with the extent of its last text, to the list, which is empty, and returns the position of the gate
/// after the records.
pub fn read_directory<D: BandDisk>(
    bands: &mut Vec<(Name, Extent)>,
    disk: &mut D,
) -> Result<u64, OpenFault>
    requires { bands.old.items ≡ [] }
    ensures read { IfOk result (λ gate. (saves : List Save) × Holds saves (D.bytes disk.old) × (bands.new.items ≡ index saves) × (gate ≡ gate_behind saves)) }
    ensures refused { IfErr result (IsRefused (D.bytes disk.old)) }
    ensures reads { ReadsOnly D.bytes D.space D.images D.clock D.images_since disk.old disk.new }
    ensures never_falls { D.faults disk.old ≤ D.faults disk.new }
    ensures cause { result ≡ Err OpenFault.Disk → Rose (D.faults disk.old) (D.faults disk.new) }
    ensures no_fault { result ≢ Err OpenFault.Disk → D.faults disk.new ≡ D.faults disk.old }
    ensures changes { D.changes disk.new ≡ D.changes disk.old }
{
    if !has_header(disk)? {
        return Err(OpenFault::NotAStore);
    }
    let mut gate = 8;
    'records: loop {
        match gate_at(disk, gate)? {
            HeaderState::Shut => return Ok(gate),
            HeaderState::Broken => return Err(OpenFault::Damaged { at: gate }),
            HeaderState::Record { name, size } => {
                let at = gate + 6 + name.len();
                put_name(bands, &name, Extent { at, size })?;
                gate = at + u64::from(size);
            }
        }
    }
}
