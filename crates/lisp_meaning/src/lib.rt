//! What a run of commands means, and what it means that a machine's memory represents a state.
//!
//! The layers above cite the definitions in specs/: begin with `State`, then `Step` and `Run` (machine/); for memory with `Stands`
//! (reading/). These a reader has to believe. The invariant that implies them is apart: `Roles` and `Invariant` (invariants/), and what each
//! change has to keep (keeping/). The functions are laws: their bodies are empty, their clauses are the laws. docs/MEANING.md has each definition in
//! plain words.
#![tactic(auto)]

mod examples;
mod laws;
mod steps;

pub use examples::{
    refused_examples, refused_images, refused_silent_steps, refused_work, worked_examples,
};
pub use laws::{
    closure_is_least, empty_machine_stands, every_command_is_answered, invariant_gives_meaning,
    meaning_is_sound, next_unit_is_left, runs_follow_the_graph, settle_frees_what_went,
    settle_loses_no_reachable_name,
};
pub use steps::{
    allocation_keeps_the_invariant, collections_keep_the_invariant, stores_keep_the_invariant,
    transport_keeps_the_invariant,
};
