//! Why an object is held.
ghost use Rattle.std.specs.Prelude.{◌≡◌, ◌<◌, ◌≤◌, ◌^◌, length, true, Some, IsSome, IfOk};
ghost use Rattle.lisp_graph.specs.declared.object.Value.TheVariants.{Ref};
ghost use Rattle.lisp_graph.specs.Graph.{IsGraph, body_refers, is_ref, object_at, refers_in, value_at, width};
ghost use Rattle.lisp_graph.specs.Objects.{body_copied};
ghost use Rattle.lisp_graph.specs.World.{opening};
ghost use Rattle.why_held.specs.Chains.{IsHeld, IsShortest, depth_at, register_value};
ghost use Rattle.why_held.specs.Choice.{IsChosen, IsChosenPath, IsFirst, IsFirstPart, IsWhy, place_of};
ghost use Rattle.why_held.specs.Nearest.{nearest_at};
ghost use Rattle.why_held.specs.Search.{AreLevels};

use crate::chain::{Depths, Held, Hop, Hops, Part, Why};
use crate::nearest::{nearest_at, nearest_of};
use crate::optional_numbers::OptionalNumbers;
use crate::search::{depth_at, depths_of};
use lisp_graph::{BodyRef, NoMemory, Value, World};
use std::alloc::Global;

pub(crate) fn is_ref(object: u64, value: Value) -> bool
    ensures { result ≡ is_ref object value }
{
    match value {
        Value::Ref(other) => other == object,
        Value::Fix(_) | Value::Nil => false,
    }
}

/// The index of the first of these values that refers to the object; one of them does.
fn first_reference(values: &[Value], object: u64) -> usize
    requires { refers_in object values.now ≡ true }
    ensures first { IsFirst (λ place. is_ref object (value_at values.now place)) result }
    ensures in_range { result < length values.now }
{
    let mut place = 0;
    while !is_ref(object, values[place]) {
        place += 1;
    }
    place
}

/// The first part of an object that refers to another object; one of its parts does.
fn first_part(body: BodyRef<'_>, object: u64) -> Part
    requires refers { body_refers object (body_copied body) ≡ true }
    requires at_most { width (body_copied body) ≤ 2047 }
    ensures { IsFirstPart (body_copied body.entry) object result }
{
    match body {
        BodyRef::Cons { car, .. } => {
            if is_ref(object, car) {
                Part::Car
            } else {
                Part::Cdr
            }
        }
        BodyRef::Block { fields, .. } => { Part::Field(first_reference(fields, object) as u32) }
    }
}

/// The first register that refers to an object; one of them does.
fn first_hop(registers: &[Value], object: u64) -> Hop
    requires refers { refers_in object registers.now ≡ true }
    requires at_most { length registers.now ≤ 256 }
    ensures to { result.to ≡ object }
    ensures stands { register_value registers.now result.part ≡ Ref object }
    ensures first { IsFirst (λ register. is_ref object (value_at registers.now register)) (place_of result.part) }
{
    Hop {
        part: Part::Root(first_reference(registers, object) as u8),
        to: object,
    }
}

/// The object that was found for another one.
fn found_for(nearest: &OptionalNumbers, object: u64) -> u64
    requires in_range { object < length nearest.now }
    requires at_least { IsSome (nearest_at nearest.now object) }
    ensures { nearest_at nearest.now object ≡ Some result }
{
    u64::from(nearest_at(nearest, object).unwrap())
}

/// A shortest chain to an object of this depth, chosen backwards.
fn chain_to(
    alloc: Global,
    world: &World,
    depths: &Depths,
    object: u64,
    depth: u32,
) -> Result<Hops, NoMemory>
    requires graph { IsGraph (opening world.now) }
    requires registers { length world.now.roots ≤ 256 }
    requires levels { AreLevels (opening world.now) depths.now }
    requires agrees { depth_at depths.now object ≡ Some depth }
    ensures lowest { IfOk result (λ hops. IsShortest (opening world.now) hops object) }
    ensures value { IfOk result (λ hops. IsChosen (opening world.now) depths.now hops) }
{
    let objects = &world.objects;
    let found = nearest_of(alloc, objects, depths, depth)?;
    let nearest = &found;
    let mut hops = Hops::new(alloc);
    let last = Hop {
        part: Part::Car,
        to: object,
    };
    hops.pad(depth as usize + 1, last)?;
    let mut place = depth as usize;
    let mut to = object;
    while place > 0 {
        let from = found_for(nearest, to);
        let part = first_part(objects.body(from as usize), to);
        hops.set(place, Hop { part, to });
        to = from;
        place -= 1;
    }
    hops.set(0, first_hop(world.roots.as_slice(), to));
    Ok(hops)
}

/// A shortest chain to an object, if there is one.
fn held_of(alloc: Global, world: &World, depths: &Depths, object: u64) -> Result<Held, NoMemory>
    requires graph { IsGraph (opening world.now) }
    requires registers { length world.now.roots ≤ 256 }
    requires levels { AreLevels (opening world.now) depths.now }
    requires in_range { object < length world.now.objects }
    ensures stays_held { IfOk result (λ held. IsHeld (opening world.now) object held) }
    ensures value { IfOk result (λ held. IsChosenPath (opening world.now) depths.now held) }
{
    match depth_at(depths, object) {
        None => Ok(Held::Free),
        Some(depth) => {
            let hops = chain_to(alloc, world, depths, object, depth)?;
            Ok(Held::Path(hops))
        }
    }
}

/// Why an object of a world is held: a shortest chain of references from a register to it, and the depths of all objects. The
/// chain is chosen backwards: each reference is from the lowest numbered object that is one less deep, and from the first of
/// its parts that refer to the object; the first hop is from the lowest register. The world has at most 256 registers and
/// fewer than 2^32 objects. It allocates memory for all objects, and follows each reference at most twice.
pub fn why(alloc: Global, world: &World, object: u64) -> Result<Why, NoMemory>
    requires graph { IsGraph (opening world.now) }
    requires registers { length world.now.roots ≤ 256 }
    requires at_most { length world.now.objects < 2 ^ 32 }
    requires in_range { object < length world.now.objects }
    ensures { IfOk result (λ why. IsWhy (opening world.now) object why) }
{
    let depths = depths_of(alloc, world)?;
    let held = held_of(alloc, world, &depths, object)?;
    Ok(Why { held, depths })
}
