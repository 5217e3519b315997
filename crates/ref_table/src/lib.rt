//! For each page that is swapped out the levels of the addresses on it (a remembered set): a search tree by index, balanced by height.
//! To the layer above it is a map from pages to sets of levels that finds the next page with some of these levels.
//! Contracts see the set of each page, the root and the nodes, as a tree in order and in balance (`specs/Table.antt`).
//! Begin reading at `RefTable` in `table.rt`. `tree.rt` has the walks over the array, `specs/Rotation.antt` what they make.
#![tactic(auto)]

mod branch;
mod node;
mod rotate;
mod search;
mod table;
mod tree;

pub use node::RefNode;
pub use table::RefTable;
