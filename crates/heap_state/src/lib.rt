//! What a ground and registers represent between two commands, and what each command does to it.
//!
//! The commands of the program are proved over a memory, a table and the words of the registers:
//! `specs/Represents.antt` says what these represent, and `specs/Performs.antt` what a command does. By the
//! laws here that is a transition of the definition, whether or not a collection runs.
#![tactic(auto)]

mod compare;
mod laws;
mod settling;
mod values;

pub use compare::is_same;
pub use laws::{commands_are_steps, what_is_represented_changes, what_is_represented_stands};
pub use settling::{settle_items, settle_register};
pub use transporter::{FIND_ACCESSES, RESOLVE_ACCESSES, SETTLE_ACCESSES};
pub use values::show_into;
