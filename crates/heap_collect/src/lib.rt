//! A collection begins with a flip, goes on by scans, and ends with a reclaim.
//!
//! All are calls over a ground, a scan set and the words of the registers. Contracts say what the
//! machine represents after them (`RepresentsAll` of `heap_state`), for each state that it represented before.
#![tactic(auto)]

mod admitting;
mod collecting;
mod laws;
mod scanning;
mod silent;

pub use admitting::{Allocation, admit};
pub use collecting::{flip, reclaim};
pub use laws::{allocations_are_steps, looks_are_steps};
pub use scanning::scavenge;
pub use silent::take_silent_steps;
