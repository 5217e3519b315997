//! The commands on blocks.

mod growing;
mod making;
mod reading;
mod refusal;
mod writing;

pub use growing::{Growing, find_growing, grow};
pub use making::make;
pub use reading::{get, size};
pub use writing::put;
