//! Why an object of a world is held, and how many objects of each kind there are.
//!
//! `why` returns a shortest chain of references from a register to an object (specs/Chains), chosen as specs/Choice says, and
//! `check_why` decides whether such an answer is right. `census` counts all objects of a world, and `reached` those that the
//! registers of a walk reach (specs/Census, specs/Reached); `why_text` and `census_text` write what a program prints of them.
//! Begin with `chain` and `holding`, and with `rows` and `reaching`.
#![tactic(auto)]

mod chain;
mod checking;
mod counting;
mod holding;
mod laws;
mod listing;
mod nearest;
mod optional_numbers;
mod reach;
mod reaching;
mod rows;
mod search;
mod tallies;
mod telling;

pub use chain::{Depths, Held, Hop, Hops, Part, Why};
pub use checking::check_why;
pub use counting::census;
pub use holding::why;
pub use laws::{censuses_are_of_objects, reached_objects_are_counted};
pub use listing::census_text;
pub use optional_numbers::OptionalNumbers;
pub use reaching::reached;
pub use rows::{CensusRow, CensusRows};
pub use telling::why_text;
