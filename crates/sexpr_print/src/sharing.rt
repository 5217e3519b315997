//! Counting the references to objects.
ghost use Rattle.std.specs.Prelude.{◌≡◌, ◌<◌, ◌∷◌, [], length, flat_map, IfOk};
ghost use Rattle.std.specs.List.{All};
ghost use Rattle.lisp_graph.specs.Graph.{IsGraph, IsObject, PartsReferBelow, RefersBelow, object_at};
ghost use Rattle.lisp_graph.specs.Objects.{body_copied};
ghost use Rattle.lisp_graph.specs.World.{opening};
ghost use Rattle.sexpr_print.specs.Marks.{CountsReached};
ghost use Rattle.sexpr_print.specs.Places.{held, parts};
ghost use Rattle.sexpr_print.specs.Sharing.{AreCounted, Counts, is_many, one_more};

use crate::name_set::NameSet;
use crate::reaching::reached;
use lisp_graph::{BodyRef, NoMemory, Objects, Sequence, Value, World};
use std::alloc::Global;

/// How many places refer to an object, counted up to two.
#[derive(Clone, Copy, Debug, PartialEq, Eq)]
pub enum References {
    No,
    One,
    Many,
}

fn one_more(references: References) -> References
    ensures { result ≡ one_more references }
{
    match references {
        References::No => References::One,
        References::One | References::Many => References::Many,
    }
}

/// Whether an object is shared.
pub fn is_many(references: References) -> bool
    ensures { result ≡ is_many references }
{
    matches!(references, References::Many)
}

/// Counts a value.
fn count(counts: &mut Sequence<References>, value: Value)
    requires { RefersBelow (length counts.old) value }
    ensures { Counts (value ∷ []) counts.old counts.new }
{
    if let Value::Ref(name) = value {
        let index = name as usize;
        let references = one_more(counts.as_slice()[index]);
        counts.set(index, references);
    }
}

/// Counts values.
fn count_all(counts: &mut Sequence<References>, values: &[Value])
    requires { All (RefersBelow (length counts.old)) values.now }
    ensures { Counts values.now counts.old counts.new }
{
    for value in values {
        count(counts, *value);
    }
}

/// Counts what an object holds.
fn count_parts(counts: &mut Sequence<References>, body: BodyRef<'_>)
    requires { PartsReferBelow (length counts.old) (body_copied body) }
    ensures { Counts (parts (body_copied body.entry)) counts.old counts.new }
{
    match body {
        BodyRef::Cons { car, cdr } => {
            count(counts, car);
            count(counts, cdr);
        }
        BodyRef::Block { fields, .. } => count_all(counts, fields),
    }
}

/// Counts what the objects with these names hold.
fn count_objects(counts: &mut Sequence<References>, objects: &Objects, names: &NameSet)
    requires size { length counts.old ≡ length objects.now }
    requires sound { All (IsObject (length objects.now)) objects.now }
    requires in_range { All (λ name. name < length objects.now) names.now.names }
    ensures { Counts (flat_map (λ name. parts (object_at objects.now name).body) names.now.names) counts.old counts.new }
{
    let mut number = 0;
    while let Some(name) = names.name(number) {
        count_parts(counts, objects.body(name as usize));
        number += 1;
    }
}

/// How many registers, and places in the objects with these names, refer to each object.
fn references_of(
    alloc: Global,
    world: &World,
    names: &NameSet,
) -> Result<Sequence<References>, NoMemory>
    requires graph { IsGraph (opening world.now) }
    requires in_range { All (λ name. name < length world.now.objects) names.now.names }
    ensures value { IfOk result (λ counts. AreCounted (held (opening world.now) names.now.names) counts) }
    ensures size { IfOk result (λ counts. length counts ≡ length world.now.objects) }
{
    let objects = &world.objects;
    let mut counts = Sequence::new(alloc);
    counts.pad(objects.len() as usize, References::No)?;
    count_all(&mut counts, world.roots.as_slice());
    count_objects(&mut counts, objects, names);
    Ok(counts)
}

/// How many registers, and places in the objects that the registers reach, refer to each object. What the registers reach is
/// kept only until these are counted.
pub fn reached_references(alloc: Global, world: &World) -> Result<Sequence<References>, NoMemory>
    requires { IsGraph (opening world.now) }
    ensures { IfOk result (CountsReached world.now) }
{
    let names = reached(alloc, world)?;
    let counts = references_of(alloc, world, &names)?;
    Ok(counts)
}
