//! A memory of page frames over a swap device: the trait `Memory` for the heap above, with a limited number of pages resident.
//! Contracts see its words, levels and marks by the place of each page (`specs/Paging.antt`), and what a use, an eviction or a swap
//! error does to the order of use and to the marks (`specs/Order.antt`). Begin reading at `PagedMemory` in `paged.rt`; `moves.rt`
//! moves pages between the frames and the device.
#![tactic(auto)]

mod clearing;
mod marking;
mod memory;
mod moves;
mod paged;
mod pager;
mod region_levels;
mod spans;

pub use mem_port::Memory;
pub use outer_ports::{PageCalls, Swap, SwapMemory};
pub use paged::PagedMemory;
