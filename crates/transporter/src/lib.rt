//! Transport (evacuation) of objects out of old regions, and settling (the read barrier).
//!
//! The layers above call `settle` to get a word without an old address, and `fetch` for a word in
//! memory; no other layer writes a GC-FORWARD. Contracts state which words move to which addresses
//! (`specs/Relocations.antt`), and that the ground represents the same objects after it
//! (`specs/Transports.antt`). Begin with `transports`.
#![tactic(auto)]

mod accesses;
mod copying;
mod laws;
mod parcel;
mod relocation;
mod settling;
mod transports;

pub use accesses::{
    FAILED_FETCH_ACCESSES, FETCH_ACCESSES, FIND_ACCESSES, HOLD_ACCESSES, RESOLVE_ACCESSES,
    SETTLE_ACCESSES,
};
pub use copying::copy_words;
pub use laws::{runs_move_together, transports_add_up, unchanged_pages_get_no_marks};
pub use parcel::Parcel;
pub use relocation::place_for;
pub use settling::{fetch, settle};
pub use transports::transport;
