//! Why a call of a store failed.
ghost use Rattle.std.specs.Prelude.{◌≡◌};
ghost use Rattle.band_store.specs.declared.faults.LoadFault.TheVariants.{NoMemory as load_memory};
ghost use Rattle.band_store.specs.declared.faults.OpenFault.TheVariants.{Disk as open_disk, NoMemory as open_memory};
ghost use Rattle.band_store.specs.declared.faults.SaveFault.TheVariants.{NoMemory as save_memory};

use band_disk::DiskFault;
use lisp_graph::NoMemory;
use std::alloc::AllocError;

/// Why a disk can't be opened.
#[derive(Clone, Copy, Debug, Drop, PartialEq, Eq)]
pub enum OpenFault {
    /// The disk has fewer than 9 bytes, or doesn't begin with the header.
    NotAStore,
    /// The gate at this position is open, and isn't followed by a record and a gate. It is the first such gate.
    Damaged { at: u64 },
    /// The disk failed.
    Disk,
    NoMemory,
}

/// Why a text can't be saved. Each error except `Disk` leaves the disk and the store unchanged.
#[derive(Clone, Copy, Debug, Drop, PartialEq, Eq)]
pub enum SaveFault {
    /// The store isn't open.
    Closed,
    /// The text has this many bytes, more than 1,048,576.
    TooLarge { size: u64 },
    /// The disk would need room for this many bytes.
    Full { end: u64 },
    /// The disk failed. The save may be on the disk or not; the store is closed.
    Disk,
    NoMemory,
}

/// Why a text can't be loaded.
#[derive(Clone, Copy, Debug, Drop, PartialEq, Eq)]
pub enum LoadFault {
    /// The store isn't open.
    Closed,
    /// No text was saved under this name.
    NoBand,
    /// The disk failed. The store is closed.
    Disk,
    NoMemory,
}

impl From<DiskFault> for OpenFault {
    ghost from_gives = { λ _ fault. fault ≡ open_disk };

    fn from(_fault: DiskFault) -> OpenFault {
        OpenFault::Disk
    }
}

impl From<NoMemory> for OpenFault {
    ghost from_gives = { λ _ fault. fault ≡ open_memory };

    fn from(_fault: NoMemory) -> OpenFault {
        OpenFault::NoMemory
    }
}

impl From<NoMemory> for SaveFault {
    ghost from_gives = { λ _ fault. fault ≡ save_memory };

    fn from(_fault: NoMemory) -> SaveFault {
        SaveFault::NoMemory
    }
}

impl From<AllocError> for LoadFault {
    ghost from_gives = { λ _ fault. fault ≡ load_memory };

    fn from(_fault: AllocError) -> LoadFault {
        LoadFault::NoMemory
    }
}

impl From<NoMemory> for LoadFault {
    ghost from_gives = { λ _ fault. fault ≡ load_memory };

    fn from(_fault: NoMemory) -> LoadFault {
        LoadFault::NoMemory
    }
}
