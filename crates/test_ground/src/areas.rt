//! One dynamic area over a flat memory, which is filled with objects of any size, flipped, copied and reclaimed.

mod page_sets;
mod tests;
