//! Whole collections: a machine of eight registers over any memory, on which they are run.
//!
//! The crate has no public item. Objects are made, read, changed and grown while a collection runs, by levels or in full, and each
//! scan can be called alone. A small world is loaded, too. Contracts say that the machine represents some state at all times
//! (`specs/Machines.antt`). Begin reading at `Machine`.
#![tactic(auto)]

#[cfg(test)]
mod acting;
#[cfg(test)]
mod call;
#[cfg(test)]
mod cases;
#[cfg(test)]
mod graph;
#[cfg(test)]
mod loading;
#[cfg(test)]
mod machine;
#[cfg(test)]
mod making;
#[cfg(test)]
mod session;
#[cfg(test)]
mod tests;
#[cfg(test)]
mod walk;
