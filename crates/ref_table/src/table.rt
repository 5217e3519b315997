//! The table, and what callers see of it.
ghost use Rattle.std.specs.Prelude.{◌≡◌, ◌<◌, ◌≤◌, ◌↔◌, replicate, length, slice_set, IfOk, IfSome, IfNone, IsNone};
ghost use Rattle.ref_table.specs.Sets.{no_levels, set_at, has_row, rows_of, IsMatch, NoneMeets};
ghost use Rattle.ref_table.specs.Tree.{Tree};
ghost use Rattle.ref_table.specs.Branches.{HasTree, HasRows, without_row};

use crate::branch::{Branch, Link};
use crate::node::RefNode;
use crate::search::find_from;
use crate::tree::{insert, remove};
use std::alloc::Global;
use std::marker::Model;
use store_word::{Flags, Levels, NoMemory};

/// The greatest height of a tree of 16,384 pages, since a tree of height h has at least 2^(h / 2) - 1 pages.
const MAX_HEIGHT: u8 = 29;

/// Whether a page has a row: the empty set is no row.
fn has_row(sets: &[Levels], page: u32) -> bool
    requires { page < length sets.now }
    ensures { result ≡ has_row sets.now page }
{
    !sets[page as usize].is_empty()
}

/// Removes the row of a page from the tree, if it has one.
fn remove_row(sets: &mut [Levels], branches: &mut [Branch], root: Link, page: u32) -> Link
    requires { page < length sets.old }
    ensures sound { (t : Tree) → HasTree sets.old branches.old root t → HasTree sets.new branches.new result (without_row sets.old page t) }
    ensures sets { sets.new ≡ slice_set sets.old page no_levels }
{
    if !has_row(sets, page) {
        sets[page as usize] = Levels::empty();
        return root;
    }
    let root = remove(MAX_HEIGHT, sets, branches, root, page);
    sets[page as usize] = Levels::empty();
    root
}

/// Puts the row of a page that has none into the tree.
fn insert_row(
    sets: &mut [Levels],
    branches: &mut [Branch],
    root: Link,
    page: u32,
    levels: Levels,
) -> Link
    requires page { page < length sets.old }
    requires absent { set_at sets.old page ≡ 0 }
    ensures sound { (t : Tree) → HasTree sets.old branches.old root t → HasRows sets.new branches.new result }
    ensures sets { sets.new ≡ slice_set sets.old page levels }
{
    sets[page as usize] = levels;
    if levels.is_empty() {
        return root;
    }
    insert(MAX_HEIGHT, sets, branches, root, page)
}

/// A map from pages to sets of levels. After `new` no call takes memory. `note` and `forget` take time in the logarithm of the number of rows.
#[derive(Drop)]
pub struct RefTable {
    sets: Vec<Levels>,
    branches: Vec<Branch>,
    root: Link,
    count: u32,
}

impl Model for RefTable {
    ghost use Rattle.ref_table.specs.Table.{Table, table_of};
    ghost use Rattle.ref_table.specs.Branches.{RefTableInvariant};

    ghost Value = { Table };

    ghost view = { λ a. table_of a.sets.items a.branches.items a.root };

    ghost invariant = { λ a. RefTableInvariant a.sets.items a.branches.items a.root a.count };
}

impl RefTable {
    ghost use Rattle.ref_table.specs.Table.{IsIndexed, node_at};

    /// A table of this many pages, at most 16,384, with no row.
    pub fn new(alloc: Global, pages: u32) -> Result<RefTable, NoMemory>
        requires { pages ≤ 16384 }
        ensures sets { IfOk result (λ t. t.sets ≡ replicate pages no_levels) }
        ensures sound { IfOk result (λ t. IsIndexed t) }
    {
        let sets = vec![in alloc; Levels::empty(); pages as usize]?;
        let branches = vec![in alloc; Branch::none(); pages as usize]?;
        Ok(RefTable {
            sets,
            branches,
            root: None,
            count: 0,
        })
    }

    /// Replaces any earlier row of the page by this set. With the empty set the page has no row.
    pub fn note(&mut self, page: u32, levels: Levels)
        requires { page < length self.old.sets }
        ensures sets { self.new.sets ≡ slice_set self.old.sets page levels }
        ensures sound { IsIndexed self.new }
    {
        self.forget(page);
        self.root = insert_row(&mut self.sets, &mut self.branches, self.root, page, levels);
        self.count += u32::from(!levels.is_empty());
    }

    /// Removes the row of a page, if it has one.
    pub fn forget(&mut self, page: u32)
        requires { page < length self.old.sets }
        ensures sets { self.new.sets ≡ slice_set self.old.sets page no_levels }
        ensures sound { IsIndexed self.new }
    {
        self.count -= u32::from(has_row(&self.sets, page));
        self.root = remove_row(&mut self.sets, &mut self.branches, self.root, page);
    }

    /// The levels of a page; the empty set if it has no row.
    pub fn levels(&self, page: u32) -> Levels
        requires { page < length self.now.sets }
        ensures { result.0 ≡ set_at self.now.sets page }
    {
        self.sets[page as usize]
    }

    /// The lowest page, from the given one on, whose row has one of these levels; None if and only if there is none. The walk goes
    /// only into subtrees that have one.
    pub fn next_from(&self, page: u32, levels: Levels) -> Option<u32>
        ensures found { IfSome result (IsMatch self.now.sets page levels.0) }
        ensures lowest { IfSome result (NoneMeets self.now.sets levels.0 page) }
        ensures none { IfNone result (NoneMeets self.now.sets levels.0 page (length self.now.sets)) }
    {
        find_from(
            MAX_HEIGHT,
            &self.sets,
            &self.branches,
            self.root,
            page,
            levels,
        )
    }

    /// The page of the root of the search tree; None if and only if the table has no row.
    pub fn root(&self) -> Option<u32>
        ensures value { result ≡ self.now.root }
        ensures sound { IsIndexed self.now }
    {
        self.root
    }

    /// The node of a page; None if and only if the page has no row.
    pub fn node(&self, page: u32) -> Option<RefNode>
        requires { page < length self.now.sets }
        ensures value { result ≡ node_at self.now page }
        ensures none { IsNone result ↔ (set_at self.now.sets page ≡ 0) }
        ensures sound { IsIndexed self.now }
    {
        if !has_row(&self.sets, page) {
            return None;
        }
        let branch = self.branches[page as usize];
        Some(RefNode {
            levels: self.sets[page as usize],
            below: branch.below,
            left: branch.left,
            right: branch.right,
            height: branch.height,
        })
    }

    /// How many pages have a row.
    pub fn rows(&self) -> u32
        ensures { result ≡ length (rows_of self.now.sets) }
    {
        self.count
    }
}
