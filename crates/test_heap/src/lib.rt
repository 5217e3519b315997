//! Tests of `lisp_heap`: sessions on a heap over a flat memory and over a paged one, and commands without a pattern that are run beside
//! a store of a graph.
//!
//! The crate has no public item. `trial` has the machine, `asks` what it can run, `script` the worlds and commands that are
//! read, `session` the texts of what it answers.
#![tactic(auto)]

#[cfg(test)]
mod asks;
#[cfg(test)]
mod cases;
#[cfg(test)]
mod dice;
#[cfg(test)]
mod script;
#[cfg(test)]
mod session;
#[cfg(test)]
mod tests;
#[cfg(test)]
mod trial;
#[cfg(test)]
mod yardstick;
