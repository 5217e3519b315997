//! Tests of `lisp_graph`: commands on a store of a graph, by traces that an independent program has judged, and what a walk shows.
//!
//! The crate has no public item.
#![tactic(auto)]

#[cfg(test)]
mod graphs;
