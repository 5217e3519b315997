//! The disk of the program.
ghost use Rattle.std.specs.Prelude.{◌≡◌, IfOk};
ghost use Rattle.band_run.specs.Disk.{new_disk};

use band_store::BandMemory;
use lisp_graph::NoMemory;
use std::alloc::Global;

/// The number of bytes that the disk has room for.
const ROOM: u32 = 16_777_216;

/// A store without bands: the header, and a closed gate.
const EMPTY: &[u8; 9] = b"LISPBND1\0";

/// A disk in memory with a store without bands, room for 16,777,216 bytes, and no planned crash. All of its memory is allocated here.
pub fn new_disk(alloc: Global) -> Result<BandMemory, NoMemory>
    ensures { IfOk result (λ disk. disk ≡ new_disk) }
{
    BandMemory::new(alloc, EMPTY, ROOM, 0, 0)
}
