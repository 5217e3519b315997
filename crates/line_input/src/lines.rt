//! The lines of a source's bytes.

mod buffer;
mod found;
mod limits;
mod reader;

pub use found::LineSpan;
pub use limits::{LONGEST_INPUT, LONGEST_LINE};
pub use reader::LineReader;
