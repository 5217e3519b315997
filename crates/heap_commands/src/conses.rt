//! The commands on registers and conses.

mod making;
mod moving;
mod parts;

pub use making::{cons, list};
pub use moving::{copy_register, eq};
pub use parts::{car, cdr, rplaca, rplacd};
