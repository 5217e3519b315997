//! Insertion and removal in trees over the array of branches. The page of its root names a tree. Each walk is given the depth
//! to which it may go, which ends its recursion and bounds its stack; it is never less than the height of the tree.
ghost use Rattle.std.specs.Prelude.{◌≡◌, ◌<◌, ◌≤◌, ℕ, List};
ghost use Rattle.store_word.specs.declared.levels.Levels.{Levels};
ghost use Rattle.ref_table.specs.Tree.{Tree, link, height};
ghost use Rattle.ref_table.specs.Rotation.{first, rest, insert, removed, merged};
ghost use Rattle.ref_table.specs.Branches.{Stands, IsPart, Builds};

use crate::branch::{Branch, Link, branch_at, join};
use crate::rotate::balance;
use store_word::Levels;

/// Puts a page into a tree that doesn't have it.
pub(crate) fn insert(
    depth: u8,
    sets: &[Levels],
    branches: &mut [Branch],
    at: Link,
    page: u32,
) -> Link
    ensures { (lo hi : ℕ) (t : Tree) → at ≡ link t → IsPart sets.now branches.old lo hi t → height t ≤ depth → lo ≤ page → page < hi
        → Builds sets.now branches.old branches.new result lo hi (insert page t) }
{
    let Some(top) = at else {
        return join(sets, branches, None, page, None);
    };
    if depth == 0 {
        return at;
    }
    let root = branch_at(branches, at);
    if page < top {
        let left = insert(depth - 1, sets, branches, root.left, page);
        return balance(sets, branches, left, top, root.right);
    }
    if top < page {
        let right = insert(depth - 1, sets, branches, root.right, page);
        return balance(sets, branches, root.left, top, right);
    }
    at
}

/// The lowest page of a tree.
fn first(depth: u8, branches: &[Branch], at: Link) -> Link
    ensures { (sets : List Levels) (t : Tree) → at ≡ link t → Stands sets branches.now t → height t ≤ depth → result ≡ first t }
{
    if depth == 0 {
        return at;
    }
    let root = branch_at(branches, at);
    match root.left {
        Some(_) => first(depth - 1, branches, root.left),
        None => at,
    }
}

/// Removes the lowest page from a tree.
fn rest(depth: u8, sets: &[Levels], branches: &mut [Branch], at: Link) -> Link
    ensures { (lo hi : ℕ) (t : Tree) → at ≡ link t → IsPart sets.now branches.old lo hi t → height t ≤ depth
        → Builds sets.now branches.old branches.new result lo hi (rest t) }
{
    let Some(top) = at else {
        return at;
    };
    if depth == 0 {
        return at;
    }
    let root = branch_at(branches, at);
    match root.left {
        Some(_) => {
            let left = rest(depth - 1, sets, branches, root.left);
            balance(sets, branches, left, top, root.right)
        }
        None => root.right,
    }
}

/// One tree of two: the lowest page of the right one becomes its root.
fn merge(depth: u8, sets: &[Levels], branches: &mut [Branch], left: Link, right: Link) -> Link
    ensures { (lo mid hi : ℕ) (l r : Tree) → left ≡ link l → right ≡ link r → lo ≤ mid → IsPart sets.now branches.old lo mid l → IsPart sets.now branches.old mid hi r
        → height r ≤ depth → Builds sets.now branches.old branches.new result lo hi (merged l r) }
{
    match first(depth, branches, right) {
        Some(page) => {
            let right = rest(depth, sets, branches, right);
            balance(sets, branches, left, page, right)
        }
        None => left,
    }
}

/// Removes a page from a tree.
pub(crate) fn remove(
    depth: u8,
    sets: &[Levels],
    branches: &mut [Branch],
    at: Link,
    page: u32,
) -> Link
    ensures { (lo hi : ℕ) (t : Tree) → at ≡ link t → IsPart sets.now branches.old lo hi t → height t ≤ depth
        → Builds sets.now branches.old branches.new result lo hi (removed page t) }
{
    let Some(top) = at else {
        return at;
    };
    if depth == 0 {
        return at;
    }
    let root = branch_at(branches, at);
    if page < top {
        let left = remove(depth - 1, sets, branches, root.left, page);
        return balance(sets, branches, left, top, root.right);
    }
    if top < page {
        let right = remove(depth - 1, sets, branches, root.right, page);
        return balance(sets, branches, root.left, top, right);
    }
    merge(depth - 1, sets, branches, root.left, root.right)
}
