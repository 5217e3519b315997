//! Inputs that are read line by line, and how a run over one ends.
//!
//! Contracts see an input as the lines of its bytes (`specs/Lines`), its meaning as a fold over them by the rules of a judge
//! (`specs/Verdict`), a reader as the bytes that it buffers, and the end of a run as a status with its error line
//! (`specs/Statuses`). Begin with `judging`: its `judge`, `input` and `read`; then `lines` and `statuses`. `WorldFile` is the judge of
//! the lines of a world file (`specs/WorldFile`).
#![tactic(auto)]

mod arguments;
mod judging;
mod lines;
mod statuses;
mod world_file;

pub use arguments::read_arguments;
pub use judging::{InputReader, LineJudge, early_end, read_lines};
pub use lines::{LineReader, LineSpan};
pub use statuses::{RunError, RunStop, Status, finish, report, tell_line, world_trouble};
pub use world_file::WorldFile;
