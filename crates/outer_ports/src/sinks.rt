//! Sinks of bytes.

mod buffer;
mod frequent;
mod sink;
mod sink_bytes;
mod sink_tally;
mod sink_vec;
mod tally;
mod text;

pub use buffer::SinkBuffer;
pub use sink::{Sink, SinkFault};
pub use sink_bytes::SinkBytes;
pub use sink_tally::SinkTally;
pub use sink_vec::SinkVec;
pub use tally::Tally;
pub use text::{give_all, give_parts};
