//! Doubly linked lists by index: many lists of nodes over one array of links that is taken once.
//!
//! Contracts see each list as its nodes in order (`specs/Chains.antt`); a node is in one list at
//! most. Begin with `lists`, the calls. `links` has the array and its changes: a node enters a
//! list, leaves it, or goes to its end.
#![tactic(auto)]

mod links;
mod lists;

pub use links::Link;
pub use lists::Lists;
pub use store_word::NoMemory;
