//! What the table shows of a row.

use store_word::Levels;

/// The row of a page, as a node of the search tree. A node has the number of its page.
#[derive(Clone, Copy)]
pub struct RefNode {
    /// The levels of the page itself, at least one.
    pub levels: Levels,

    /// The union of the levels of this node and of both subtrees.
    pub below: Levels,

    /// The page of the root of the subtree of lower pages.
    pub left: Option<u32>,

    /// The page of the root of the subtree of higher pages.
    pub right: Option<u32>,

    /// One more than the height of the higher subtree; no subtree has height 0.
    pub height: u8,
}
