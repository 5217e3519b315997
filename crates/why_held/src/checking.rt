//! Checking an answer to why an object is held.
ghost use Rattle.std.specs.Prelude.{◌≡◌, ◌↔◌, ◌+◌, ◌<◌, ◌∷◌, [], length, IsTrue};
ghost use Rattle.std.specs.List.{All};
ghost use Rattle.lisp_graph.specs.Graph.{IsGraph, IsObject, PartsReferBelow, RefersBelow};
ghost use Rattle.lisp_graph.specs.Objects.{body_copied};
ghost use Rattle.lisp_graph.specs.World.{opening};
ghost use Rattle.why_held.specs.Chains.{IsChain, IsHeld, Leads, Refers, depth_at, register_value, value_in};
ghost use Rattle.why_held.specs.Checking.{IsAnswered, has_length};
ghost use Rattle.why_held.specs.Choice.{IsWhy};
ghost use Rattle.why_held.specs.Search.{AreBounds, AreNextWithin, AreWithin, IsNextWithin, parts_of};

use crate::chain::{Depths, Held, Hop, Part, Why};
use crate::holding::is_ref;
use crate::search::depth_at;
use lisp_graph::{BodyRef, Objects, Value, World};

// Depths

/// Whether the object to which a value refers, if there is one, has a depth of at most `most`.
fn is_within(depths: &Depths, most: u64, value: Value) -> bool
    requires { RefersBelow (length depths.now) value }
    ensures { IsTrue result ↔ AreWithin depths.now most (value ∷ []) }
{
    match value {
        Value::Ref(object) => match depth_at(depths, object) {
            Some(depth) => u64::from(depth) <= most,
            None => false,
        },
        Value::Fix(_) | Value::Nil => true,
    }
}

/// Whether the objects to which these values refer do.
fn are_within(depths: &Depths, most: u64, values: &[Value]) -> bool
    requires { All (RefersBelow (length depths.now)) values.now }
    ensures { IsTrue result ↔ AreWithin depths.now most values.now }
{
    for value in values {
        if !is_within(depths, most, *value) {
            return false;
        }
    }
    true
}

/// Whether the objects to which the parts of an object refer do.
fn parts_within(depths: &Depths, most: u64, body: BodyRef<'_>) -> bool
    requires { PartsReferBelow (length depths.now) (body_copied body) }
    ensures { IsTrue result ↔ AreWithin depths.now most (parts_of (body_copied body.entry)) }
{
    match body {
        BodyRef::Cons { car, cdr } => are_within(depths, most, &[car, cdr]),
        BodyRef::Block { fields, .. } => are_within(depths, most, fields),
    }
}

/// Whether each reference in this object leads at most one deeper.
fn is_next_within(depths: &Depths, objects: &Objects, from: u64) -> bool
    requires from { from < length objects.now }
    requires size { length depths.now ≡ length objects.now }
    requires sound { All (IsObject (length objects.now)) objects.now }
    ensures { IsTrue result ↔ IsNextWithin objects.now depths.now from }
{
    match depth_at(depths, from) {
        Some(depth) => parts_within(depths, u64::from(depth) + 1, objects.body(from as usize)),
        None => true,
    }
}

/// Whether each reference leads at most one deeper.
fn are_next_within(depths: &Depths, objects: &Objects) -> bool
    requires size { length depths.now ≡ length objects.now }
    requires sound { All (IsObject (length objects.now)) objects.now }
    ensures { IsTrue result ↔ AreNextWithin objects.now depths.now }
{
    let mut from = 0;
    while from < objects.len() as usize {
        if !is_next_within(depths, objects, from as u64) {
            return false;
        }
        from += 1;
    }
    true
}

/// Whether no chain to an object is shorter than its depth.
fn are_bounds(depths: &Depths, world: &World) -> bool
    requires size { length depths.now ≡ length world.now.objects }
    requires graph { IsGraph (opening world.now) }
    ensures { IsTrue result ↔ AreBounds (opening world.now) depths.now }
{
    if !are_within(depths, 0, world.roots.as_slice()) {
        return false;
    }
    are_next_within(depths, &world.objects)
}

// Chains

/// The value in a part of an object; nil if it has no such part.
fn value_in(body: BodyRef<'_>, part: Part) -> Value
    ensures { result ≡ value_in (body_copied body.entry) part }
{
    match (body, part) {
        (BodyRef::Cons { car, .. }, Part::Car) => car,
        (BodyRef::Cons { cdr, .. }, Part::Cdr) => cdr,
        (BodyRef::Block { fields, .. }, Part::Field(index)) => {
            match fields.get(index as usize) {
                Some(value) => *value,
                None => Value::Nil,
            }
        }
        _ => Value::Nil,
    }
}

/// Whether the part of the object `from` that the hop names refers to the object to which the hop leads.
fn refers(objects: &Objects, from: u64, hop: Hop) -> bool
    ensures { IsTrue result ↔ Refers objects.now from hop }
{
    if from >= objects.len() {
        return false;
    }
    is_ref(hop.to, value_in(objects.body(from as usize), hop.part))
}

/// Whether the references lead from one object to the other.
fn leads(objects: &Objects, from: u64, hops: &[Hop], to: u64) -> bool
    ensures { IsTrue result ↔ Leads objects.now from hops.now to }
{
    let mut at = from;
    for hop in hops {
        if !refers(objects, at, *hop) {
            return false;
        }
        at = hop.to;
    }
    at == to
}

/// The value in the register that is named; nil if there is none.
fn register_value(registers: &[Value], part: Part) -> Value
    ensures { result ≡ register_value registers.now part }
{
    match part {
        Part::Root(register) => match registers.get(usize::from(register)) {
            Some(value) => *value,
            None => Value::Nil,
        },
        Part::Car | Part::Cdr | Part::Field(_) => Value::Nil,
    }
}

/// Whether the hops are a chain from a register to the object.
fn is_chain(world: &World, hops: &[Hop], object: u64) -> bool
    ensures { IsTrue result ↔ IsChain (opening world.now) hops.now object }
{
    if hops.is_empty() {
        return false;
    }
    let first = hops[0];
    if !is_ref(first.to, register_value(world.roots.as_slice(), first.part)) {
        return false;
    }
    leads(&world.objects, first.to, &hops[1..], object)
}

// Answers

/// Whether this many hops are a chain as long as the depth.
fn has_length(depth: Option<u32>, hops: usize) -> bool
    ensures { result ≡ has_length depth hops }
{
    match depth {
        Some(depth) => u64::from(depth) + 1 == hops as u64,
        None => false,
    }
}

/// Whether the answer is a chain as long as the object is deep, or `Free` for an object without a depth.
fn is_answered(world: &World, depths: &Depths, object: u64, held: &Held) -> bool
    requires { object < length depths.now }
    ensures { IsTrue result ↔ IsAnswered (opening world.now) depths.now object held.now }
{
    let depth = depth_at(depths, object);
    match held {
        Held::Free => depth.is_none(),
        Held::Path(hops) => {
            has_length(depth, hops.as_slice().len()) && is_chain(world, hops.as_slice(), object)
        }
    }
}

/// Whether an answer is one of `why`, except for the choice among chains of the same length. The result is false if the hops aren't
/// a chain, if some chain is shorter, or if the answer is `Free` for an object that is held. Allocates no memory, and follows each
/// reference once.
pub fn check_why(world: &World, object: u64, answer: &Why) -> bool
    requires graph { IsGraph (opening world.now) }
    requires in_range { object < length world.now.objects }
    ensures sound { IsTrue result → IsHeld (opening world.now) object answer.now.held }
    ensures whole { IsWhy (opening world.now) object answer.now → IsTrue result }
{
    let depths = &answer.depths;
    if depths.len() as u64 != world.objects.len() {
        return false;
    }
    if !are_bounds(depths, world) {
        return false;
    }
    is_answered(world, depths, object, &answer.held)
}
