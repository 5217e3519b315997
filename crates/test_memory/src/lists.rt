//! A table of calls on small lists, and what each list then holds.
ghost use Rattle.std.specs.Prelude.{◌≡◌, ◌<◌, length};

use index_lists::Lists;
use std::test::Fail;

#[derive(Clone, Copy)]
enum Call {
    PushBack(u32, u32),
    Remove(u32),
    MoveBack(u32),
    AppendAll(u32, u32),
}

use Call::{AppendAll, MoveBack, PushBack, Remove};

// Makes a call on three lists of four nodes, if it is allowed.
fn make(lists: &mut Lists, call: Call) -> bool
    requires nodes { lists.old.nodes ≡ 4 }
    requires lists { length lists.old.lists ≡ 3 }
    ensures unchanged { lists.new.nodes ≡ 4 }
    ensures size { length lists.new.lists ≡ 3 }
{
    match call {
        PushBack(list, node) => {
            if list >= 3 || node >= 4 {
                return false;
            }
            match lists.owner(node) {
                None => lists.push_back(list, node),
                Some(_) => return false,
            }
        }
        Remove(node) => {
            if node >= 4 {
                return false;
            }
            match lists.owner(node) {
                Some(_) => lists.remove(node),
                None => return false,
            }
        }
        MoveBack(node) => {
            if node >= 4 {
                return false;
            }
            match lists.owner(node) {
                Some(_) => lists.move_back(node),
                None => return false,
            }
        }
        AppendAll(to, from) => {
            if to >= 3 || from >= 3 || to == from {
                return false;
            }
            lists.append_all(to, from);
        }
    }
    true
}

// Whether a list has these nodes, by a walk from its front to its back, and is the owner of each.
fn holds(lists: &Lists, list: u32, nodes: &[u32]) -> bool
    requires nodes { lists.now.nodes ≡ 4 }
    requires in_range { list < length lists.now.lists }
{
    let mut place = lists.front(list);
    for node in nodes {
        if place != Some(*node) || *node >= 4 || lists.owner(*node) != Some(list) {
            return false;
        }
        place = lists.next(*node);
    }
    place.is_none() && lists.back(list) == nodes.last().copied()
}

// A call, and what each list then holds.
const CALLS: [(Call, [&[u32]; 3]); 12] = [
    (PushBack(0, 2), [&[2], &[], &[]]),
    (PushBack(0, 1), [&[2, 1], &[], &[]]),
    (PushBack(1, 3), [&[2, 1], &[3], &[]]),
    (MoveBack(2), [&[1, 2], &[3], &[]]),
    (MoveBack(3), [&[1, 2], &[3], &[]]),
    (PushBack(0, 0), [&[1, 2, 0], &[3], &[]]),
    (Remove(2), [&[1, 0], &[3], &[]]),
    (AppendAll(1, 0), [&[], &[3, 1, 0], &[]]),
    (AppendAll(1, 0), [&[], &[3, 1, 0], &[]]),
    (PushBack(2, 2), [&[], &[3, 1, 0], &[2]]),
    (Remove(3), [&[], &[1, 0], &[2]]),
    (Remove(0), [&[], &[1], &[2]]),
];

#[test]
fn calls_on_small_lists(rt: HostRuntime) -> Result<(), Fail> {
    let mut lists = Lists::new(rt.alloc(), 4, 3)?;
    for (call, after) in CALLS {
        assert!(rt; make(&mut lists, call));
        for list in 0..3u32 {
            assert!(rt; holds(&lists, list, after[list as usize]));
        }
    }
    assert!(rt; lists.owner(3).is_none());
    Ok(())
}
