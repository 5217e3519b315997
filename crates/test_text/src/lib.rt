//! Tests of the crates that read and write texts: worlds, traces, S-expressions, and why an object is held.
//!
//! The crate has no public item. `files` makes a world from the lines of its file, `same` compares texts; each other module tests one crate.
#![tactic(auto)]

#[cfg(test)]
mod compiling;
#[cfg(test)]
mod files;
#[cfg(test)]
mod holding;
#[cfg(test)]
mod prints;
#[cfg(test)]
mod same;
#[cfg(test)]
mod texts;
#[cfg(test)]
mod traces;
#[cfg(test)]
mod worlds;
