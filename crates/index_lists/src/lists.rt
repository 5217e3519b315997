//! The lists, and the calls on them.
ghost use Rattle.std.specs.Prelude.{◌≡◌, ◌≢◌, ℕ, ◌+◌, ◌<◌, ◌^◌, ◌↔◌, [], ◌∷◌, ◌++◌, length, replicate, Contains, IfOk, IfSome, IsNone, MatchOption};
ghost use Rattle.index_lists.specs.Chains.{list_at, without, with_list, first_of, last_of, next_in, IsListed, IsFree, IsSound};

use crate::links::{
    Link, NO_LIST, after, attach, before, clear, detach, owner, relink, unless_end,
};
use std::alloc::Global;
use std::marker::Model;
use store_word::NoMemory;

/// Doubly linked lists of nodes. Nodes and lists are numbered from 0. A node is in one list at
/// most.
#[derive(Drop)]
pub struct Lists {
    links: Vec<Link>,
    nodes: u32,
    lists: u32,
}

impl Model for Lists {
    ghost use Rattle.index_lists.specs.Chains.{Chains};
    ghost use Rattle.index_lists.specs.Rings.{lists_of, shown, Holds};

    ghost Value = { Chains };

    ghost view = { λ a. shown a.links.items a.nodes a.lists };

    ghost invariant = { λ a. Holds a.links.items a.nodes a.lists (lists_of a.links.items a.nodes a.lists) };
}

impl Lists {
    /// Empty lists, and nodes that are in none of them: fewer than 2^32 lists and nodes
    /// together. It takes 12 bytes for each node and each list, and no later call takes memory.
    pub fn new(alloc: Global, nodes: u32, lists: u32) -> Result<Lists, NoMemory>
        requires { nodes + lists < 2 ^ 32 }
        ensures empty { IfOk result (λ made.
            made ≡ record { nodes = nodes; lists = replicate lists [] }) }
        ensures sound { IfOk result IsSound }
    {
        let free = Link {
            before: NO_LIST,
            after: NO_LIST,
            owner: NO_LIST,
        };
        let mut links = vec![in alloc; free; nodes as usize + lists as usize]?;
        clear(&mut links, nodes, lists);
        Ok(Lists {
            links,
            nodes,
            lists,
        })
    }

    /// Puts a node that is in no list at the end of one.
    pub fn push_back(&mut self, list: u32, node: u32)
        requires target { list < length self.old.lists }
        requires in_range { node < self.old.nodes }
        requires free { IsFree self.old node }
        ensures after { self.new ≡ with_list self.old list (list_at self.old list ++ node ∷ []) }
        ensures listed { Contains (list_at self.new list) node }
        ensures unchanged { self.new.nodes ≡ self.old.nodes }
        ensures size { length self.new.lists ≡ length self.old.lists }
        ensures sound { IsSound self.new }
    {
        attach(&mut self.links, self.nodes, list, node);
    }

    /// Takes a node out of the list that it is in.
    pub fn remove(&mut self, node: u32)
        requires { IsListed self.old node }
        ensures after { (l : ℕ) → Contains (list_at self.old l) node
            → self.new ≡ with_list self.old l (without node (list_at self.old l)) }
        ensures in_range { node < self.new.nodes }
        ensures free { IsFree self.new node }
        ensures unchanged { self.new.nodes ≡ self.old.nodes }
        ensures size { length self.new.lists ≡ length self.old.lists }
        ensures sound { IsSound self.new }
    {
        detach(&mut self.links, node);
    }

    /// Puts a node at the end of the list that it is in.
    pub fn move_back(&mut self, node: u32)
        requires { IsListed self.old node }
        ensures moved { (l : ℕ) → Contains (list_at self.old l) node
            → self.new ≡ with_list self.old l (without node (list_at self.old l) ++ node ∷ []) }
        ensures listed { (l : ℕ) → Contains (list_at self.old l) node
            → Contains (list_at self.new l) node }
        ensures unchanged { self.new.nodes ≡ self.old.nodes }
        ensures size { length self.new.lists ≡ length self.old.lists }
        ensures sound { IsSound self.new }
    {
        let list = owner(&self.links, node);
        relink(&mut self.links, self.nodes, list, node);
    }

    /// The first node of a list; None if and only if the list is empty.
    pub fn front(&self, list: u32) -> Option<u32>
        requires { list < length self.now.lists }
        ensures first { result ≡ first_of (list_at self.now list) }
        ensures none { IsNone result ↔ (list_at self.now list ≡ []) }
        ensures listed { IfSome result (Contains (list_at self.now list)) }
        ensures sound { IsSound self.now }
    {
        let end = self.nodes + list;
        let first = after(&self.links, end);
        unless_end(first, end)
    }

    /// The last node of a list; None if and only if the list is empty.
    pub fn back(&self, list: u32) -> Option<u32>
        requires { list < length self.now.lists }
        ensures last { result ≡ last_of (list_at self.now list) }
        ensures none { IsNone result ↔ (list_at self.now list ≡ []) }
        ensures listed { IfSome result (Contains (list_at self.now list)) }
        ensures sound { IsSound self.now }
    {
        let end = self.nodes + list;
        let last = before(&self.links, end);
        unless_end(last, end)
    }

    /// The node after this one in its list; None if and only if this one is the last.
    pub fn next(&self, node: u32) -> Option<u32>
        requires { IsListed self.now node }
        ensures value { (l : ℕ) → Contains (list_at self.now l) node
            → result ≡ next_in (list_at self.now l) node }
        ensures none { (l : ℕ) → Contains (list_at self.now l) node
            → IsNone result ↔ (last_of (list_at self.now l) ≡ Some node) }
        ensures listed { (l : ℕ) → Contains (list_at self.now l) node
            → IfSome result (Contains (list_at self.now l)) }
        ensures sound { IsSound self.now }
    {
        let end = self.nodes + owner(&self.links, node);
        let next = after(&self.links, node);
        unless_end(next, end)
    }

    /// The list that a node is in; None if and only if it is in no list.
    pub fn owner(&self, node: u32) -> Option<u32>
        requires { node < self.now.nodes }
        ensures cases { MatchOption result (IsFree self.now node)
            (λ l. Contains (list_at self.now l) node) }
        ensures found { (l : ℕ) → Contains (list_at self.now l) node → result ≡ Some l }
        ensures in_range { IfSome result (λ l. l < length self.now.lists) }
        ensures sound { IsSound self.now }
    {
        let list = owner(&self.links, node);
        if list == NO_LIST { None } else { Some(list) }
    }

    /// Moves the nodes of the list `from` to the end of the list `to`, in their order, and empties
    /// `from`. It takes time for each node that moves.
    pub fn append_all(&mut self, to: u32, from: u32)
        requires to { to < length self.old.lists }
        requires from { from < length self.old.lists }
        requires apart { to ≢ from }
        ensures after { self.new
            ≡ with_list (with_list self.old from []) to (list_at self.old to ++ list_at self.old from) }
        ensures unchanged { self.new.nodes ≡ self.old.nodes }
        ensures size { length self.new.lists ≡ length self.old.lists }
        ensures sound { IsSound self.new }
    {
        while let Some(node) = self.front(from) {
            self.remove(node);
            self.push_back(to, node);
        }
    }
}
