//! Tests of the crates that a memory is made of: words, lists by index, devices, memories, the pager and its tables, and how words
//! represent objects.
//!
//! The crate has no public item. Each module has the tests of one crate, and is named after what that crate keeps.
#![tactic(auto)]

#[cfg(test)]
mod devices;
#[cfg(test)]
mod frames;
#[cfg(test)]
mod lists;
#[cfg(test)]
mod memories;
#[cfg(test)]
mod objects;
#[cfg(test)]
mod pages;
#[cfg(test)]
mod paging;
#[cfg(test)]
mod rows;
#[cfg(test)]
mod words;
