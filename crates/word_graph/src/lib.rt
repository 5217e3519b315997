//! The graph that the words of a ground show: its names are addresses.
//!
//! It is determined by the words alone, with no map (`specs/Shown.antt`). By the laws it is
//! the graph of each state that the ground represents, with other names. The functions return words and
//! objects of it, and store nothing.
#![tactic(auto)]

mod laws;
mod telling;
mod walking;

pub use laws::{walks_show_states, words_show_objects, words_show_what_is_reached};
pub use telling::{read_cons, read_field, read_form, read_word};
