//! What a census of the words of a heap says about the states that the heap represents.
//!
//! A walk over a heap shows a graph whose keys are addresses. A census of what is reached in it (`why_held`) is a census of the graph
//! of each state that the heap represents. The statement is in specs/Censuses.
#![tactic(auto)]

mod laws;

pub use laws::censuses_are_of_states;
