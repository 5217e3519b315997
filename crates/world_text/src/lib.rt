//! Worlds as text: read line by line, and dumped.
//!
//! `WorldBuilder` takes the lines of a world in order, and refuses each line that breaks a rule, with a reason for each
//! rule: one definition, `line_at` of specs/reading/Line, gives what a line means in its place. `dump_text` writes what a walk shows as a
//! world file (specs/writing/Dump). Begin with `reading` and its `builder`, and with `writing` and its `dump`.
#![tactic(auto)]

mod fault;
mod reading;
mod writing;

pub use fault::{DumpFault, LineResult, WorldFault, WorldStep};
pub use reading::{
    Reason, Section, WorldBuilder, WorldReader, area_of, behind, behind_space, leading_area,
    leading_number, leading_value, leading_word, next_area, next_number, next_register, next_word,
    number_in, split_line, value_of,
};
pub use store_word::NoMemory;
pub use writing::{
    BackwardLine, KeyNumbers, Numbering, dump_text, kind_text, name_of, push_areas, push_capacity,
    push_number, push_space, push_spaced, push_value,
};
