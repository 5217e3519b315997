//! What runs the commands of an input, and the machine that does.
//!
//! `engine` specifies what a run requires of whatever runs its commands. `machine` is the only implementation: it holds its swap
//! alone, then a paged memory over it, then a heap over that. Contracts see what it holds (`specs/Holding.antt`).
#![tactic(auto)]

mod commands;
mod engine;
mod machine;

pub use commands::{run_command, run_request};
pub use engine::Engine;
pub use lisp_heap::LoadFault;
pub use machine::Machine;
pub use world_text::DumpFault;
