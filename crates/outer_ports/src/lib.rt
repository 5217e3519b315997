//! The ports to the outside: traits for sources of bytes, sinks of bytes, and swap devices. A contract sees what is outside as
//! lists, and counts failed calls. The traits are implemented in memory, and over std's reader and writer.
//! Contracts say what a call gave, gained or failed by, in the definitions of `specs/Ports.antt`. Begin with
//! `sources`, `sinks` and `swaps`; `sinks::text` writes whole texts.
#![tactic(auto)]

mod adapters;
mod plan;
mod room;
mod sinks;
mod sources;
mod swaps;

pub use adapters::{SinkWrite, SourceRead};
pub use room::copy_at;
pub use sinks::{
    Sink, SinkBuffer, SinkBytes, SinkFault, SinkTally, SinkVec, Tally, give_all, give_parts,
};
pub use sources::{Source, SourceBytes, SourceFault};
pub use store_word::NoMemory;
pub use swaps::{PageCalls, Swap, SwapMemory};
