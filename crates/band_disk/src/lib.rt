//! A disk that may crash at any moment: a trait that says which post-crash states each of its calls leaves possible, and
//! a disk in memory that implements it.
//! Contracts see the bytes that a read returns, the possible post-crash states (images), now and since an earlier moment,
//! and a count of failed calls (`specs/Disks.antt`). Begin with `disk`; `memory` keeps a log of its calls
//! (`specs/Logs.antt`), from which every image follows.
#![tactic(auto)]

mod disk;
mod log;
mod memory;
mod overwrite;

pub use disk::{BandDisk, DiskFault};
pub use memory::BandMemory;
