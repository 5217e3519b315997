//! Worlds as S-expressions: `compile_sexpr` reads the world that such a text means.
#![tactic(auto)]

mod begun;
mod bracket;
mod compile;
mod fault;
mod forms;
mod grammar;
mod header;
mod labels;
mod made;
mod piece_reader;
mod pieces;
mod roots;
mod task;
mod token;

pub use bracket::Bracket;
pub use compile::compile_sexpr;
pub use fault::{Parsed, SexprFault, SexprReason};
pub use token::{Piece, Token};
