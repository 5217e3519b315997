//! Runs over saved bands: the whole input is read and judged, then its commands are run on a store and its disk, and their replies
//! are written.
//!
//! For each status, contracts say what was read of the input and what was written (`specs/Outcome.antt`), that the replies are those
//! of one run of the definition (`specs/Bands.antt`), and what each possible post-crash state of the disk contains (`specs/Answers.antt`). Begin with
//! `top` and `run`; `answers` has one function for each command. `reading` reads an input line by line and returns its commands, each save
//! with its text, or the trouble with the first line that breaks a rule (`specs/Verdict.antt` and `specs/Lines.antt`).
#![tactic(auto)]

mod answers;
mod disk;
mod input;
mod laws;
mod reading;
mod reply;
mod run;
mod top;

pub use band_store::BandMemory;
pub use disk::new_disk;
pub use laws::every_disk_has_a_start;
pub use line_input::{RunError, report};
pub use reading::{
    BandCommand, BandFile, BandInput, BandLine, Commands, inputs_are_spelled, read_bands,
};
pub use reply::Reply;
pub use top::run_bands;
