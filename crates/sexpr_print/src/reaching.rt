//! The objects that the registers of a world reach, in the order of the numbers that a dump gives them.
ghost use Rattle.std.specs.Prelude.{◌≡◌, ℕ, ◌<◌, length, map, true, false, IfOk, IfSome, OnOk};
ghost use Rattle.std.specs.List.{All};
ghost use Rattle.lisp_graph.specs.Graph.{IsGraph, PartsReferBelow, RefersBelow, object_at};
ghost use Rattle.lisp_graph.specs.KeyedGraph.{is_cons, keyed, keyed_value, part_of};
ghost use Rattle.lisp_graph.specs.Objects.{body_copied};
ghost use Rattle.lisp_graph.specs.World.{opening};
ghost use Rattle.world_text.specs.Numbering.{AllVisited, Chained, IsNumbering, Visited, Walked, next_cons};
ghost use Rattle.sexpr_print.specs.Places.{is_among, parts};

use crate::name_set::NameSet;
use lisp_graph::{BodyRef, NoMemory, Value, World};
use std::alloc::Global;

/// The cdr of a cons; nil for a block.
fn cdr_of(body: BodyRef<'_>) -> Value
    ensures value { is_cons (body_copied body.entry) ≡ true → result ≡ part_of (body_copied body.entry) 1 }
    ensures refers { (count : ℕ) → PartsReferBelow count (body_copied body.entry) → RefersBelow count result }
{
    match body {
        BodyRef::Cons { cdr, .. } => cdr,
        BodyRef::Block { .. } => Value::Nil,
    }
}

/// The cons to which a value refers, if it wasn't added.
fn next_cons(world: &World, reached: &NameSet, value: Value) -> Option<u64>
    requires size { reached.now.objects ≡ length world.now.objects }
    requires refers { RefersBelow (length world.now.objects) value }
    ensures value { result ≡ next_cons reached.now.names (keyed_value world.now.objects value) }
    ensures fresh { IfSome result (λ name. is_among reached.now.names name ≡ false) }
    ensures in_range { IfSome result (λ name. name < length world.now.objects) }
    ensures cons { IfSome result (λ name. is_cons (object_at world.now.objects name).body ≡ true) }
{
    let Value::Ref(name) = value else {
        return None;
    };
    match world.objects.body(name as usize) {
        BodyRef::Block { .. } => None,
        BodyRef::Cons { .. } => if reached.contains(name) {
            None
        } else {
            Some(name)
        },
    }
}

/// Adds a cons and the conses along its cdrs, up to the first that was added before.
fn add_conses(world: &World, reached: &mut NameSet, name: u64) -> Result<(), NoMemory>
    requires graph { IsGraph (opening world.now) }
    requires size { reached.old.objects ≡ length world.now.objects }
    requires in_range { name < length world.now.objects }
    requires fresh { is_among reached.old.names name ≡ false }
    requires cons { is_cons (object_at world.now.objects name).body ≡ true }
    ensures value { OnOk result (Chained (keyed (opening world.now)) reached.old.names name reached.new.names) }
    ensures unchanged { reached.new.objects ≡ reached.old.objects }
{
    let mut name = name;
    loop {
        reached.add(name)?;
        let cdr = cdr_of(world.objects.body(name as usize));
        match next_cons(world, reached, cdr) {
            None => return Ok(()),
            Some(next) => name = next,
        }
    }
}

/// Adds the object to which a value refers, if it wasn't added; and with a cons those along its cdrs.
fn visit(world: &World, reached: &mut NameSet, value: Value) -> Result<(), NoMemory>
    requires graph { IsGraph (opening world.now) }
    requires size { reached.old.objects ≡ length world.now.objects }
    requires refers { RefersBelow (length world.now.objects) value }
    ensures value { OnOk result (Visited (keyed (opening world.now)) reached.old.names (keyed_value world.now.objects value) reached.new.names) }
    ensures unchanged { reached.new.objects ≡ reached.old.objects }
{
    let Value::Ref(name) = value else {
        return Ok(());
    };
    if reached.contains(name) {
        return Ok(());
    }
    match world.objects.body(name as usize) {
        BodyRef::Cons { .. } => add_conses(world, reached, name),
        BodyRef::Block { .. } => reached.add(name),
    }
}

/// Does this for each of these values.
fn visit_all(world: &World, reached: &mut NameSet, values: &[Value]) -> Result<(), NoMemory>
    requires graph { IsGraph (opening world.now) }
    requires size { reached.old.objects ≡ length world.now.objects }
    requires refers { All (RefersBelow (length world.now.objects)) values.now }
    ensures value { OnOk result (AllVisited (keyed (opening world.now)) reached.old.names (map (keyed_value world.now.objects) values.now) reached.new.names) }
    ensures unchanged { reached.new.objects ≡ reached.old.objects }
{
    for value in values {
        visit(world, reached, *value)?;
    }
    Ok(())
}

/// Does this for each part of an object.
fn visit_parts(world: &World, reached: &mut NameSet, body: BodyRef<'_>) -> Result<(), NoMemory>
    requires graph { IsGraph (opening world.now) }
    requires size { reached.old.objects ≡ length world.now.objects }
    requires refers { PartsReferBelow (length world.now.objects) (body_copied body) }
    ensures value { OnOk result (AllVisited (keyed (opening world.now)) reached.old.names (map (keyed_value world.now.objects) (parts (body_copied body.entry))) reached.new.names) }
    ensures unchanged { reached.new.objects ≡ reached.old.objects }
{
    match body {
        BodyRef::Cons { car, cdr } => visit_all(world, reached, &[car, cdr]),
        BodyRef::Block { fields, .. } => visit_all(world, reached, fields),
    }
}

/// Does this for the objects that were added, one after another, until none remains.
fn visit_objects(world: &World, reached: &mut NameSet) -> Result<(), NoMemory>
    requires graph { IsGraph (opening world.now) }
    requires size { reached.old.objects ≡ length world.now.objects }
    ensures value { OnOk result (Walked (keyed (opening world.now)) reached.old.names 0 reached.new.names) }
    ensures in_range { OnOk result (All (λ name. name < length world.now.objects) reached.new.names) }
{
    let mut place = 0;
    while let Some(name) = reached.name(place) {
        visit_parts(world, reached, world.objects.body(name as usize))?;
        place += 1;
    }
    Ok(())
}

/// The names of the objects that the registers of a world reach. It fails if memory runs out, and for a world of 2^32 objects or
/// more.
pub fn reached(alloc: Global, world: &World) -> Result<NameSet, NoMemory>
    requires { IsGraph (opening world.now) }
    ensures value { IfOk result (λ reached. IsNumbering (keyed (opening world.now)) reached.names) }
    ensures in_range { IfOk result (λ reached. All (λ name. name < length world.now.objects) reached.names) }
{
    let mut reached = NameSet::new(alloc, world.objects.len() as usize)?;
    visit_all(world, &mut reached, world.roots.as_slice())?;
    visit_objects(world, &mut reached)?;
    Ok(reached)
}
