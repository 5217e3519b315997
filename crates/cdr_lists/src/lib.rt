//! Makes, reads and writes conses over a ground.
//!
//! A cons is a pair of two words, or a cell of one word with the rest of its list in the next word. Contracts
//! specify for each call what the ground represents after it; a collection may be running
//! (`specs/Pairs.antt`, `specs/Reading.antt`, `specs/Parts.antt`). Begin with `pair`.
#![tactic(auto)]

mod fault;
mod list;
mod pair;
mod parts;
mod places;
mod settled;

pub use fault::ListFault;
pub use list::{CELL, make_list};
pub use pair::{NewPair, PAIR, make_pair, make_pair_of};
pub use parts::{set_car, set_cdr};
pub use settled::{car, cdr};
