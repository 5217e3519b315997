//! How objects are laid out in words: the addresses to which forwards lead, and an object's shape,
//! words, charge and compact run.
//!
//! Every layer that takes an object apart calls this crate, over any `Memory`. Nothing is stored, and
//! contracts are about a list of words alone: a final address (`specs/Forwards.antt`), a shape and a
//! charge (`specs/Shapes.antt`), a compact run (`specs/Runs.antt`). Begin with `forwards`.
#![tactic(auto)]

mod forwards;
mod run;
mod shape;

pub use forwards::{
    FORWARD_LIMIT, Resolved, final_addresses_are_unique, first_word, resolve, resolve_first,
};
pub use run::{
    RUN_LIMIT, Run, RunEnd, run_length, run_with, runs_are_unique, runs_grow_from_their_ends,
};
pub use shape::{Shape, charge_by, charge_of, shape_at, shape_from, words_of};
