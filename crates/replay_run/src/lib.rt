//! The top call: it reads an input line by line, runs its commands, and writes their replies.
//!
//! For each status, contracts say what was read of the input, what was written, and which state the machine represents
//! (`specs/Outcome.antt`), in terms of the verdict on the input. Begin with `top`, `input`, `run` and `serve`; the engine that runs commands
//! is that of `paged_machine`.
#![tactic(auto)]

mod exercise;
mod halt;
mod input;
mod line;
mod run;
mod serve;
mod session;
mod top;

pub use input::{answer_input, replay};
pub use paged_machine::Machine;
pub use run::run_trace;
pub use session::{Session, SessionState};
pub use top::run_lispm;
