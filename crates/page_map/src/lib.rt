//! The place of each page: empty, in a frame, or swapped out; and buckets of pages that aren't empty.
//!
//! Contracts see the place of each page, and the pages of each bucket in order (`specs/Map.antt`):
//! page p is in bucket p mod buckets if and only if it isn't empty. Begin with `map`, the calls.
#![tactic(auto)]

mod map;
mod place;

pub use map::PageMap;
pub use place::PagePlace;
