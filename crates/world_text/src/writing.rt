//! Writing a world.

mod backward_line;
mod dump;
mod dumped;
mod file;
mod file_lines;
mod groups;
mod kept_object;
mod kept_queue;
mod number_table;
mod numbering;
mod object_writer;
mod text;
mod visit;

pub use backward_line::BackwardLine;
pub use dump::dump_text;
pub use file_lines::{push_areas, push_capacity, push_space};
pub use numbering::{KeyNumbers, Numbering};
pub use text::{kind_text, name_of, push_number, push_spaced, push_value};
