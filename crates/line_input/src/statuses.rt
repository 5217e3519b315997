//! How a run ends, and the line that reports it.

mod ending;
mod reasons;
mod refused;
mod status;

pub use ending::{finish, report, tell_line};
pub use refused::world_trouble;
pub use status::{RunError, RunStop, Status};
