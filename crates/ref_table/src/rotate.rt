//! Balance: a page over two trees, with a rotation if one is two higher than the other.
ghost use Rattle.std.specs.Prelude.{ℕ};
ghost use Rattle.ref_table.specs.Tree.{Tree};
ghost use Rattle.ref_table.specs.Rotation.{balanced, rotated_right, rotated_left};
ghost use Rattle.ref_table.specs.Branches.{AreSides, Builds};

use crate::branch::{Branch, Link, branch_at, join};
use store_word::Levels;

/// The left tree is two higher than the right one: its root becomes the root or, if the inner subtree is the higher one, the root of that.
fn rotate_right(
    sets: &[Levels],
    branches: &mut [Branch],
    left: Link,
    page: u32,
    right: Link,
) -> Link
    ensures { (lo hi : ℕ) (l r : Tree) → AreSides sets.now branches.old left page right lo hi l r 101
        → Builds sets.now branches.old branches.new result lo hi (rotated_right l page r) }
{
    let Some(top) = left else {
        return join(sets, branches, left, page, right);
    };
    let upper = branch_at(branches, left);
    let Some(mid) = upper.right else {
        let low = join(sets, branches, None, page, right);
        return join(sets, branches, upper.left, top, low);
    };
    let inner = branch_at(branches, upper.right);
    if inner.height <= branch_at(branches, upper.left).height {
        let low = join(sets, branches, upper.right, page, right);
        return join(sets, branches, upper.left, top, low);
    }
    let one = join(sets, branches, upper.left, top, inner.left);
    let two = join(sets, branches, inner.right, page, right);
    join(sets, branches, one, mid, two)
}

/// The right tree is two higher than the left one.
fn rotate_left(sets: &[Levels], branches: &mut [Branch], left: Link, page: u32, right: Link) -> Link
    ensures { (lo hi : ℕ) (l r : Tree) → AreSides sets.now branches.old left page right lo hi l r 101
        → Builds sets.now branches.old branches.new result lo hi (rotated_left l page r) }
{
    let Some(top) = right else {
        return join(sets, branches, left, page, right);
    };
    let upper = branch_at(branches, right);
    let Some(mid) = upper.left else {
        let low = join(sets, branches, left, page, None);
        return join(sets, branches, low, top, upper.right);
    };
    let inner = branch_at(branches, upper.left);
    if inner.height <= branch_at(branches, upper.right).height {
        let low = join(sets, branches, left, page, upper.left);
        return join(sets, branches, low, top, upper.right);
    }
    let one = join(sets, branches, left, page, inner.left);
    let two = join(sets, branches, inner.right, top, upper.right);
    join(sets, branches, one, mid, two)
}

/// Makes a page the root of two trees whose heights differ by two at most.
pub(crate) fn balance(
    sets: &[Levels],
    branches: &mut [Branch],
    left: Link,
    page: u32,
    right: Link,
) -> Link
    ensures { (lo hi : ℕ) (l r : Tree) → AreSides sets.now branches.old left page right lo hi l r 101
        → Builds sets.now branches.old branches.new result lo hi (balanced l page r) }
{
    let hl = branch_at(branches, left).height;
    let hr = branch_at(branches, right).height;
    if hl.saturating_sub(hr) > 1 {
        return rotate_right(sets, branches, left, page, right);
    }
    if hr.saturating_sub(hl) > 1 {
        return rotate_left(sets, branches, left, page, right);
    }
    join(sets, branches, left, page, right)
}
