//! Tests of saved bands: a disk in memory that crashes at a call and tears what wasn't synced, stores on such disks, inputs and whole
//! runs.
//!
//! The crate has no public item. `disks` has the tests of `band_disk`, `stores` those of `band_store`, `inputs` those of `band_run`,
//! `runs` those of `band_run`.
#![tactic(auto)]

#[cfg(test)]
mod disks;
#[cfg(test)]
mod inputs;
#[cfg(test)]
mod runs;
#[cfg(test)]
mod stores;
