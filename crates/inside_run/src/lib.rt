//! A run that shows the machine at its end: it answers an input as a replay does, and if the whole input was answered, it writes the heap
//! after the replies.
//!
//! For each status, contracts say what was written (`specs/Outcome.antt`), in terms of `replay_run` and `inside_text`. Begin with `top`;
//! `words` reads the arguments, `looking` writes the heap of a machine, and `device` has the trait of the swap devices that it may have.
#![tactic(auto)]

mod device;
mod looking;
mod top;
mod words;

pub use device::ShownSwap;
pub use looking::finish_shown;
pub use paged_machine::Machine;
pub use top::{Ended, run_inside};
pub use words::fail_number;
