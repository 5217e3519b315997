//! The regions of a memory: the places of objects, what their classes are charged, and which
//! regions are free, live or old.
//!
//! The layers above request a place here, commit its words, condemn regions and free them. Contracts
//! see numbers and lists of numbers (`specs/Table.antt`), and no object. Begin with `ground`, the
//! calls on a memory and its table; `table` and its modules are what they are made of.
#![tactic(auto)]

mod bits;
mod classes;
mod ground;
mod laws;
mod page_set;
mod table;

pub use classes::{Class, Origin};
pub use ground::{Ground, Placed};
pub use laws::{
    accepted_worlds_have_room, fresh_ground, reads_keep_ground, remarks_keep_ground, room_suffices,
    stores_keep_ground, used_words_of_classes,
};
pub use page_set::PageSet;
pub use table::{RegionTable, fresh_tables_are_sound};
