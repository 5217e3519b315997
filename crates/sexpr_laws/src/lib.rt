//! What is true of prints and compiled texts together, whoever writes them.
//!
//! The print of a world is compiled to a world that has the same dump (specs/Compiled). This follows from two laws: the pieces of a
//! text that spells tokens spell those tokens again, and a header is read back whatever text follows it (specs/ReadBack).
#![tactic(auto)]

mod laws;
mod token_laws;

pub use laws::prints_are_compiled_back;
pub use token_laws::{header_is_read_back, tokens_are_read_back};
