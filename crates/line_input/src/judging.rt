//! Judging lines, one after another.

mod input;
mod judge;
mod read;

pub use input::{InputReader, early_end};
pub use judge::LineJudge;
pub use read::read_lines;
