//! Blocks over a ground: makes them and lets them grow, reads and writes their fields, and reads their
//! headers.
//!
//! A block is a header and its fields, in consecutive words. Contracts specify for each call
//! what the ground represents after it; a collection may be running (`specs/Headers.antt`,
//! `specs/Making.antt`, `specs/Fields.antt`, `specs/Growing.antt`). Begin with `header`.
#![tactic(auto)]

mod fault;
mod fields;
mod growing;
mod header;
mod making;
mod widening;

pub use fault::BlockFault;
pub use fields::{field, set_field};
pub use growing::{grow, grown_length};
pub use header::{BlockSize, block_size, code, length};
pub use making::make_block;
