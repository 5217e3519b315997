//! The array of links: a place for each node, and after them an end place for each list. An end
//! place lies before the first node and after the last one, so a list is a ring and no change
//! of it is a special case.
ghost use Rattle.std.specs.Prelude.{◌≡◌, ℕ, ◌+◌, ◌<◌, ◌^◌, [], length, replicate};
ghost use Rattle.index_lists.specs.Link.{after_of, before_of, owner_of, unless_end as unless_end_of, Joins, Owns};
ghost use Rattle.index_lists.specs.Rings.{Attaches, Detaches, Enters, Holds, Relinks};

/// The owner of a node that is in no list.
pub(crate) const NO_LIST: u32 = u32::MAX;

/// One place of the array.
#[derive(Clone, Copy, PartialEq, Eq, Debug)]
pub struct Link {
    /// The place before it.
    pub before: u32,

    /// The place after it.
    pub after: u32,

    /// The list that it belongs to; `u32::MAX` for a node that is in no list.
    pub owner: u32,
}

/// The place after this one.
pub(crate) fn after(links: &[Link], place: u32) -> u32
    requires { place < length links.now }
    ensures { result ≡ after_of links.now place }
{
    links[place as usize].after
}

/// The place before this one.
pub(crate) fn before(links: &[Link], place: u32) -> u32
    requires { place < length links.now }
    ensures { result ≡ before_of links.now place }
{
    links[place as usize].before
}

/// The list that a place belongs to.
pub(crate) fn owner(links: &[Link], place: u32) -> u32
    requires { place < length links.now }
    ensures { result ≡ owner_of links.now place }
{
    links[place as usize].owner
}

/// A place, unless it is the end of its list.
pub(crate) fn unless_end(place: u32, end: u32) -> Option<u32>
    ensures { result ≡ unless_end_of place end }
{
    if place == end { None } else { Some(place) }
}

// Puts the place `to` right after the place `from`.
fn join(links: &mut [Link], from: u32, to: u32)
    requires from { from < length links.old }
    requires to { to < length links.old }
    ensures { Joins links.old links.new from to }
{
    links[from as usize].after = to;
    links[to as usize].before = from;
}

// Writes which list a place belongs to.
fn set_owner(links: &mut [Link], place: u32, owner: u32)
    requires { place < length links.old }
    ensures { Owns links.old links.new place owner }
{
    links[place as usize].owner = owner;
}

// Puts a node between the last place of a ring and its end.
fn link_last(links: &mut [Link], end: u32, node: u32)
    requires end { end < length links.old }
    requires last { before_of links.old end < length links.old }
    requires in_range { node < length links.old }
    ensures { Enters links.old links.new end node }
{
    let last = before(links, end);
    join(links, last, node);
    join(links, node, end);
}

// Puts the place after a node right after the place before it.
fn unlink(links: &mut [Link], node: u32)
    requires in_range { node < length links.old }
    requires before { before_of links.old node < length links.old }
    requires after { after_of links.old node < length links.old }
    ensures { Joins links.old links.new (before_of links.old node) (after_of links.old node) }
{
    let left = before(links, node);
    let right = after(links, node);
    join(links, left, right);
}

/// Puts a node that is in no list at the end of one.
pub(crate) fn attach(links: &mut [Link], nodes: u32, list: u32, node: u32)
    requires room { nodes + list < 2 ^ 32 }
    requires end { nodes + list < length links.old }
    requires last { before_of links.old (nodes + list) < length links.old }
    requires in_range { node < length links.old }
    ensures { Attaches links.old links.new nodes list node }
{
    link_last(links, nodes + list, node);
    set_owner(links, node, list);
}

/// Takes a node out of its list.
pub(crate) fn detach(links: &mut [Link], node: u32)
    requires in_range { node < length links.old }
    requires before { before_of links.old node < length links.old }
    requires after { after_of links.old node < length links.old }
    ensures { Detaches links.old links.new node }
{
    unlink(links, node);
    set_owner(links, node, NO_LIST);
}

/// Moves a node to the end of its list, which stays its owner.
pub(crate) fn relink(links: &mut [Link], nodes: u32, list: u32, node: u32)
    requires room { nodes + list < 2 ^ 32 }
    requires end { nodes + list < length links.old }
    requires last { before_of links.old (nodes + list) < length links.old }
    requires in_range { node < length links.old }
    requires before { before_of links.old node < length links.old }
    requires after { after_of links.old node < length links.old }
    ensures { Relinks links.old links.new nodes list node }
{
    unlink(links, node);
    link_last(links, nodes + list, node);
}

/// Makes the lists, each of them empty, over nodes that are in no list.
pub(crate) fn clear(links: &mut [Link], nodes: u32, lists: u32)
    requires room { nodes + lists < 2 ^ 32 }
    requires size { length links.old ≡ nodes + lists }
    requires free { (k : ℕ) → k < nodes → owner_of links.old k ≡ NO_LIST }
    ensures { Holds links.new nodes lists (replicate lists []) }
{
    for list in 0..lists {
        let end = nodes + list;
        links[end as usize] = Link {
            before: end,
            after: end,
            owner: list,
        };
    }
}
