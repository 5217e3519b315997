//! Reading and judging the whole input, before its first command is run.

mod command;
mod input;
mod judge;
mod laws;
mod line;
mod read;

pub use command::{BandCommand, Commands};
pub use input::{BandFile, BandInput};
pub use laws::inputs_are_spelled;
pub use line::BandLine;
pub use read::read_bands;
