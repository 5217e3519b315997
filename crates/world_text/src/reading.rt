//! Reading a world line by line.

mod builder;
mod closing;
mod fast;
mod header;
mod header_words;
mod leading;
mod line;
mod missing;
mod next;
mod numbers;
mod objects;
mod reader;
mod reason;
mod words;

pub use builder::WorldBuilder;
pub use leading::{
    behind, behind_space, leading_area, leading_number, leading_value, leading_word,
};
pub use next::{next_area, next_number, next_register};
pub use numbers::{area_of, number_in, value_of};
pub use reader::{Section, WorldReader};
pub use reason::Reason;
pub use words::{next_word, split_line};
