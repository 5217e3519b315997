//! The index lists. Each call first looks up which list the node is in, as a caller that doesn't know it would.
ghost use Rattle.std.specs.Prelude.{◌≡◌, ◌+◌, ◌<◌, ◌^◌, length};

use crate::report::{Measurement, ROUNDS, no_memory, page_at};
use index_lists::Lists;
use std::alloc::Global;
use std::io;
use std::time::{Clock, Instant};

// Every node enters a list.
fn push_back(lists: &mut Lists, nodes: u32, count: u32)
    requires nodes { lists.old.nodes ≡ nodes }
    requires lists { length lists.old.lists ≡ count }
    requires at_least { 0 < nodes }
    requires one { 0 < count }
    ensures unchanged { lists.new.nodes ≡ nodes }
    ensures size { length lists.new.lists ≡ count }
{
    for turn in 0..nodes {
        let node = page_at(turn, nodes);
        if let None = lists.owner(node) {
            lists.push_back(turn % count, node);
        }
    }
}

// What a node in a list does.
#[derive(Clone, Copy)]
enum Move {
    ToTheEnd,
    Out,
}

// Every node moves.
fn move_all(lists: &mut Lists, nodes: u32, count: u32, to: Move)
    requires nodes { lists.old.nodes ≡ nodes }
    requires lists { length lists.old.lists ≡ count }
    requires at_least { 0 < nodes }
    ensures unchanged { lists.new.nodes ≡ nodes }
    ensures size { length lists.new.lists ≡ count }
{
    for turn in 0..nodes {
        let node = page_at(turn, nodes);
        if let Some(_) = lists.owner(node) {
            match to {
                Move::ToTheEnd => lists.move_back(node),
                Move::Out => lists.remove(node),
            }
        }
    }
}

// The node after each node.
fn next(lists: &Lists, nodes: u32) -> u64
    requires nodes { lists.now.nodes ≡ nodes }
    requires at_least { 0 < nodes }
{
    let mut sum = 0u64;
    for turn in 0..nodes {
        let node = page_at(turn, nodes);
        if let Some(_) = lists.owner(node) {
            sum = sum.wrapping_add(lists.next(node).unwrap_or(nodes) as u64);
        }
    }
    sum
}

/// Each node enters a list, goes to its end, is passed, and leaves it.
pub fn run(
    alloc: Global,
    rt: &(impl Clock + Print + Eprint),
    nodes: u32,
    count: u32,
) -> io::Result<()>
    requires at_least { 0 < nodes }
    requires one { 0 < count }
    requires room { nodes + count < 2 ^ 32 }
{
    let Ok(mut lists) = Lists::new(alloc, nodes, count) else {
        return Err(no_memory());
    };
    let mut entered = Measurement::new("Lists::push_back", nodes);
    let mut moved = Measurement::new("Lists::move_back", nodes);
    let mut passed = Measurement::new("Lists::next", nodes);
    let mut left = Measurement::new("Lists::remove", nodes);
    for _ in 0..ROUNDS {
        let start = Instant::now(rt)?;
        push_back(&mut lists, nodes, count);
        entered.end_round(rt, start, 0)?;
        let start = Instant::now(rt)?;
        move_all(&mut lists, nodes, count, Move::ToTheEnd);
        moved.end_round(rt, start, 0)?;
        let start = Instant::now(rt)?;
        let sum = next(&lists, nodes);
        passed.end_round(rt, start, sum)?;
        let start = Instant::now(rt)?;
        move_all(&mut lists, nodes, count, Move::Out);
        left.end_round(rt, start, 0)?;
    }
    entered.print(rt)?;
    moved.print(rt)?;
    passed.print(rt)?;
    left.print(rt)
}
