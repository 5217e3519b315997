//! The lines of a trace: commands as they are read, replies as they are printed, and the generated input.
//!
//! Nothing here allocates memory. Begin with `read` beside `specs/Commands`, and `reply` beside `specs/Replies`.
#![tactic(auto)]

mod command;
mod digit_pairs;
mod fast;
mod fast_blocks;
mod flip;
mod front;
mod made;
mod made_line;
mod maker;
mod pair;
mod read;
mod reply;
mod room;
mod store;
mod summary;
mod words;

pub use fast::read_fast;
pub use made::made_lines_are_commands;
pub use maker::Maker;
pub use read::{LineKind, lines_are_spelled, read_command, read_request};
pub use reply::{account_text, padded_text, reply_text};
pub use room::ReplyText;
pub use summary::{SummaryText, summary_text};
