//! What a program answers about a file: about a world file, or about a text of S-expressions.
//!
//! `run_mode` reads a file, and then writes what the mode requests of its world, or one error line. Its clause `ran` is the record `Ran`
//! of specs/Outcome: what the source gave, what the sink gained, and how that agrees with the status; `read` and `write` say that a
//! device's failure is reported only if its count of failed calls rose. Begin with `run`, beside specs/Outcome; specs/Reading defines what
//! a file means to each mode, and specs/Modes what each mode requests of its world. What the lines of a world file mean is `verdict`
//! of specs/WorldFile in `line_input`; what a text of S-expressions means is defined in the crate `sexpr_text`.
#![tactic(auto)]

mod census_mode;
mod dump_mode;
mod laws;
mod mode;
mod read;
mod read_all;
mod run;
mod sexpr;
mod trouble;

pub use command_words::FileMode;
pub use laws::dumps_are_world_files;
pub use line_input::Status;
pub use run::run_mode;
pub use trouble::FileError;
