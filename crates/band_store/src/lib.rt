//! World texts that are stored by name on a disk that may crash at any moment, so that no acknowledged save is lost.
//! Contracts see the saves that the bytes of a disk contain (`specs/Format.antt`), the directory of the last text of each
//! name (`specs/Directory.antt`), and what each possible post-crash state (image) of the disk contains at each moment of a call (`specs/Store.antt`).
//! Begin with `store`; `format` has the bytes of a record, and `laws` states what holds of the format and of directories.
#![tactic(auto)]

mod directory;
mod faults;
mod format;
mod laws;
mod reading;
mod store;
mod writing;

pub use band_disk::{BandDisk, BandMemory};
pub use faults::{LoadFault, OpenFault, SaveFault};
pub use laws::{bytes_say_one_thing, directories_have_last_texts, saves_fit_the_log};
pub use store::BandStore;
