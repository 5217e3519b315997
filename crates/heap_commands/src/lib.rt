//! The commands on registers, conses and blocks, over a ground and registers.
//!
//! Each settles the registers that it reads (applies the read barrier), in the order of its line, and then acts on
//! settled words. Contracts say what it does (`Performs` and `PerformsAt` of `heap_state`), whether or not a collection runs.
//! The reply is `WrongType` if a register should hold a cons or a block and doesn't, `NoField` if the block has
//! no field of the index, and `Fault` only if the memory's count of swap errors rose. Begin with `conses`, then `blocks`.
#![tactic(auto)]

mod blocks;
mod conses;
mod object;

pub use blocks::{Growing, find_growing, get, grow, make, put, size};
pub use cdr_lists::{CELL, PAIR};
pub use conses::{car, cdr, cons, copy_register, eq, list, rplaca, rplacd};
pub use object::NewObject;
