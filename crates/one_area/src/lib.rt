//! One dynamic area over a flat memory, which is filled with objects of any size, flipped, copied and reclaimed.
//!
//! The tests of areas and the benchmark of areas run it. No word is written; only the table of regions and the levels of the memory
//! change. Contracts say what `OneArea` knows of its ground (`specs/OneArea.antt`). Begin reading at `OneArea`.
#![tactic(auto)]

mod area;

pub use area::OneArea;
