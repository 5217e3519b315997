//! What the programs do, over bytes in memory: from arguments and an input to what is written for them; and a session that is fed line
//! by line.
//!
//! Contracts use the definitions of `replay_run` and `inside_run`, for a source and a sink whose contents are known (`specs/Answered`). Begin
//! with `run` and `session`.
#![tactic(auto)]

mod run;
mod session;
mod source;

pub use run::{Written, run_inside_bytes, run_lispm_bytes};
pub use session::ByteSession;
