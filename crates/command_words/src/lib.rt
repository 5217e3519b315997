//! The arguments of the program, and the mode that they request.
//!
//! `read_words` takes the arguments after the program's name. Which arguments are accepted, and what they request, is one definition,
//! `mode_of` of specs/Words. The arguments are parsed with `clap`; proofs/Sought shows that its walk over them agrees with that
//! definition. Begin with `mode`, then `read`.
#![tactic(auto)]

mod mode;
mod read;

pub use mode::{FileMode, Mode};
pub use read::read_words;
