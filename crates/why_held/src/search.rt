//! The depths of objects, found by a search from the registers on, level by level.
ghost use Rattle.std.specs.Prelude.{◌≡◌, ◌<◌, ◌≤◌, ◌^◌, [], ◌∷◌, length, drop, None, IfOk, OnOk};
ghost use Rattle.std.specs.List.{All};
ghost use Rattle.lisp_graph.specs.Graph.{IsGraph, IsObject, PartsReferBelow, RefersBelow};
ghost use Rattle.lisp_graph.specs.Objects.{body_copied};
ghost use Rattle.lisp_graph.specs.World.{opening};
ghost use Rattle.why_held.specs.Chains.{depth_at};
ghost use Rattle.why_held.specs.Search.{AreLevels, Finds, all_parts, found_in, parts_of};

use crate::chain::Depths;
use lisp_graph::{BodyRef, NoMemory, Objects, Sequence, Value, World};
use std::alloc::Global;

/// What was found so far: the depths of objects, and the objects that have one, in the order in which they were found.
#[derive(Drop)]
pub(crate) struct Search {
    depths: Depths,
    found: Sequence<u32>,
}

/// The depth of an object.
pub(crate) fn depth_at(depths: &Depths, object: u64) -> Option<u32>
    requires { object < length depths.now }
    ensures { result ≡ depth_at depths.now object }
{
    depths.get(object as usize)
}

/// Gives a depth to the object to which a value refers, if there is one and it has none.
fn find(search: &mut Search, value: Value, depth: u32) -> Result<(), NoMemory>
    requires refers { RefersBelow (length search.old.depths) value }
    requires order { depth ≤ found_in search.old.depths }
    ensures { OnOk result (Finds depth (value ∷ []) search.old search.new) }
{
    match value {
        Value::Ref(object) => {
            match search.depths.get(object as usize) {
                Some(_) => Ok(()),
                None => {
                    search.depths.set(object as usize, depth);
                    search.found.push(object as u32)?;
                    Ok(())
                }
            }
        }
        Value::Fix(_) | Value::Nil => Ok(()),
    }
}

/// Does this for the objects to which these values refer.
fn find_all(search: &mut Search, values: &[Value], depth: u32) -> Result<(), NoMemory>
    requires refers { All (RefersBelow (length search.old.depths)) values.now }
    requires order { depth ≤ found_in search.old.depths }
    ensures { OnOk result (Finds depth values.now search.old search.new) }
{
    for value in values {
        find(search, *value, depth)?;
    }
    Ok(())
}

/// Does this for the objects to which the parts of an object refer.
fn find_parts(search: &mut Search, body: BodyRef<'_>, depth: u32) -> Result<(), NoMemory>
    requires refers { PartsReferBelow (length search.old.depths) (body_copied body) }
    requires order { depth ≤ found_in search.old.depths }
    ensures { OnOk result (Finds depth (parts_of (body_copied body.entry)) search.old search.new) }
{
    match body {
        BodyRef::Cons { car, cdr } => {
            find(search, car, depth)?;
            find(search, cdr, depth)
        }
        BodyRef::Block { fields, .. } => find_all(search, fields, depth),
    }
}

/// Does this for the objects to which those refer that were found from `start` on.
fn find_next(
    search: &mut Search,
    objects: &Objects,
    start: usize,
    depth: u32,
) -> Result<(), NoMemory>
    requires at_most { start ≤ length search.old.found }
    requires order { depth ≤ found_in search.old.depths }
    requires size { length search.old.depths ≡ length objects.now }
    requires sound { All (IsObject (length objects.now)) objects.now }
    requires in_range { All (λ object. object < length objects.now) (drop start search.old.found) }
    ensures { OnOk result (Finds depth (all_parts objects.now (drop start search.old.found)) search.old search.new) }
{
    let end = search.found.len() as usize;
    let mut place = start;
    while place < end {
        let object = search.found.as_slice()[place] as usize;
        find_parts(search, objects.body(object), depth)?;
        place += 1;
    }
    Ok(())
}

/// The depths of all objects. Each reference is followed once.
pub(crate) fn depths_of(alloc: Global, world: &World) -> Result<Depths, NoMemory>
    requires graph { IsGraph (opening world.now) }
    requires at_most { length world.now.objects < 2 ^ 32 }
    ensures { IfOk result (λ depths. AreLevels (opening world.now) depths) }
{
    let objects = &world.objects;
    let depths = Depths::none(alloc, objects.len() as usize)?;
    let found = Sequence::new(alloc);
    let mut search = Search { depths, found };
    find_all(&mut search, world.roots.as_slice(), 0)?;
    let mut start = 0;
    let mut depth = 0;
    while start < search.found.len() as usize {
        let end = search.found.len() as usize;
        depth += 1;
        find_next(&mut search, objects, start, depth)?;
        start = end;
    }
    Ok(search.depths)
}
