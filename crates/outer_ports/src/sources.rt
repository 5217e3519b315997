//! Sources of bytes.

mod source;
mod source_bytes;

pub use source::{Source, SourceFault};
pub use source_bytes::SourceBytes;
