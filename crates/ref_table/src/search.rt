//! The walk that finds a page by its levels.
ghost use Rattle.std.specs.Prelude.{◌≡◌, ◌≤◌};
ghost use Rattle.ref_table.specs.Tree.{Tree, link, height};
ghost use Rattle.ref_table.specs.Search.{found_from};
ghost use Rattle.ref_table.specs.Branches.{Stands};

use crate::branch::{Branch, Link, branch_at, levels_at};
use store_word::{Flags, Levels};

/// The lowest page of a tree, from one on, whose levels meet the given ones. The walk goes only into trees with such levels.
pub(crate) fn find_from(
    depth: u8,
    sets: &[Levels],
    branches: &[Branch],
    at: Link,
    from: u32,
    levels: Levels,
) -> Option<u32>
    ensures { (t : Tree) → at ≡ link t → Stands sets.now branches.now t → height t ≤ depth → result ≡ found_from sets.now from levels.0 t }
{
    let Some(top) = at else {
        return None;
    };
    if depth == 0 {
        return None;
    }
    let root = branch_at(branches, at);
    if !root.below.intersects(levels) {
        return None;
    }
    if from <= top {
        let found = find_from(depth - 1, sets, branches, root.left, from, levels);
        if found.is_some() {
            return found;
        }
        if levels_at(sets, top).intersects(levels) {
            return at;
        }
    }
    find_from(depth - 1, sets, branches, root.right, from, levels)
}
