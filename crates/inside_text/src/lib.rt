//! The contents of a heap as text: sizes and accounts, the collection that runs, registers, regions with their words, pages, and the calls of the
//! swap device.
//!
//! The text is a function of what contracts see of a heap (`specs/InsideText.antt`). It is given to a sink piece by piece, through a buffer:
//! this allocates no memory, uses no page and makes no page call. Begin with `whole`.
#![tactic(auto)]

mod laws;
mod line;
mod pages;
mod regions;
mod scan;
mod sizes;
mod whole;

pub use laws::text_is_as_worked;
pub use whole::tell_heap;
