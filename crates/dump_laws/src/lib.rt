//! Laws on dumps, whoever writes them.
//!
//! A graph has one dump, whatever keys its objects are found by (specs/Renamed), and that of a world is a function of the world
//! (specs/Written). A dump is read back: its lines are accepted, and the world that they mean has the same dump (specs/Back).
#![tactic(auto)]

mod laws;

pub use laws::{dumps_are_functions, dumps_are_read_back, graphs_have_one_dump};
