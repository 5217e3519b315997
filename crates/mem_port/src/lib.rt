//! Memory: words on pages, a level for each region, and marks for each page.
//!
//! Every layer that reads and writes words does it through the trait `Memory`. Contracts see a
//! memory as a `Store` (`specs/Store.antt`): its words as one list, its levels, and its marks with
//! their law. Begin with `memory`.
#![tactic(auto)]

mod memory;
mod plain;
mod reading;
mod spans;
mod tags;

pub use memory::{HOLD_LIMIT, Memory};
pub use plain::PlainMemory;
pub use reading::{WordTest, words_before};
pub use spans::{Span, hold_spans};
pub use tags::{levels_on, tag_after, tag_anew, tag_meets, tag_with};
