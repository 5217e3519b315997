//! The heap: one call for each command of the program.
//!
//! Objects are in the regions of a memory. Contracts see the contents of a heap
//! (`specs/HeapView.antt`), and what it represents is the invariant of `lisp_meaning`
//! (`specs/Stands.antt`): each heap represents a state, as the invariant of its type, and each call is
//! one command of the definition there, whether or not a collection runs. A reply is the
//! definition's, or `Fault`, but that only if the memory's count of swap errors rose. The commands themselves
//! are proved over a memory, a table and registers, in `heap_commands` and
//! `heap_collect`. Begin with `heap`; what it takes is `specs/Form.antt`.
#![tactic(auto)]

mod heap;
mod laws;

pub use heap::Heap;
pub use heap_load::LoadFault;
pub use laws::{
    accepted_worlds_fit, heaps_have_room, reclaims_free_what_went, standing_is_meaning,
    walks_show_states,
};
