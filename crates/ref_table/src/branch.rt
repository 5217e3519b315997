//! The array of branches, one for each page, in which the trees are stored.
ghost use Rattle.std.specs.Prelude.{◌≡◌};
ghost use Rattle.std.specs.Int.RustNames.{bit_or};
ghost use Rattle.ref_table.specs.Sets.{set_at};
ghost use Rattle.ref_table.specs.Branches.{Joins, branch_at, no_branch};

use store_word::{Flags, Levels};

/// The page at a tree's root, or None if the tree is empty.
pub type Link = Option<u32>;

/// A page's place in the tree: its subtrees by the pages of their roots, and the height and the levels of the whole.
#[derive(Clone, Copy)]
pub struct Branch {
    pub below: Levels,
    pub left: Link,
    pub right: Link,
    pub height: u8,
}

impl Branch {
    /// The branch of a page that is in no tree, and of no page.
    pub fn none() -> Branch
        ensures { result ≡ no_branch }
    {
        Branch {
            below: Levels::empty(),
            left: None,
            right: None,
            height: 0,
        }
    }
}

/// The branch of a tree's root.
pub(crate) fn branch_at(branches: &[Branch], at: Link) -> Branch
    ensures { result ≡ branch_at branches.now at }
{
    match at {
        Some(page) => match branches.get(page as usize) {
            Some(branch) => *branch,
            None => Branch::none(),
        },
        None => Branch::none(),
    }
}

/// The levels of a page.
pub(crate) fn levels_at(sets: &[Levels], page: u32) -> Levels
    ensures { result.0 ≡ set_at sets.now page }
{
    match sets.get(page as usize) {
        Some(levels) => *levels,
        None => Levels::empty(),
    }
}

fn union(one: Levels, two: Levels, three: Levels) -> Levels
    ensures { result ≡ record { 0 = bit_or (bit_or one.0 two.0) three.0 } }
{
    one.union(two).union(three)
}

/// Makes a page the root of two trees.
pub(crate) fn join(
    sets: &[Levels],
    branches: &mut [Branch],
    left: Link,
    page: u32,
    right: Link,
) -> Link
    ensures { Joins sets.now branches.old branches.new left page right result }
{
    let lower = branch_at(branches, left);
    let upper = branch_at(branches, right);
    let branch = Branch {
        below: union(levels_at(sets, page), lower.below, upper.below),
        left,
        right,
        height: lower.height.max(upper.height).saturating_add(1),
    };
    if (page as usize) < branches.len() {
        branches[page as usize] = branch;
    }
    Some(page)
}
