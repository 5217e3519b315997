//! Worlds printed as S-expressions: `print_sexpr` writes the text that `sexpr_text` reads back.
//!
//! A print is a list of tokens (specs/Printing) and the text that spells them (specs/Spelling). `printer` prints a value with a
//! stack of what remains to be printed; specs/Tasks says what its tasks print. Begin with `print`, then `printer`.
#![tactic(auto)]

mod name_set;
mod print;
mod printed;
mod printer;
mod reaching;
mod sharing;
mod task;
mod token_text;

pub use print::print_sexpr;
