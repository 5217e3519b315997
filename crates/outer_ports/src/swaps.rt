//! Swap devices, which store pages.

mod page_slots;
mod swap;
mod swap_memory;

pub use swap::Swap;
pub use swap_memory::{PageCalls, SwapMemory};
