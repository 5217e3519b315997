//! Counting the objects of a world.
ghost use Rattle.std.specs.Prelude.{◌≡◌, ◌<◌, ◌^◌, length, map, IfOk};
ghost use Rattle.lisp_graph.specs.Objects.{body_copied, object_copied};
ghost use Rattle.why_held.specs.Census.{IsCensus, code_of, counted_object};

use crate::rows::{CensusRows, Counted};
use crate::tallies::{count, no_tallies, rows_of};
use lisp_graph::{BodyRef, NoMemory, ObjectRef, World};
use std::alloc::Global;

/// The code of a block; None for a cons.
fn code_of(body: BodyRef<'_>) -> Option<u16>
    ensures { result ≡ code_of (body_copied body.entry) }
{
    match body {
        BodyRef::Cons { .. } => None,
        BodyRef::Block { code, .. } => Some(code),
    }
}

/// What a census uses of an object.
fn counted_object(object: ObjectRef<'_>) -> Counted
    ensures { result ≡ counted_object (object_copied object.entry) }
{
    Counted {
        area: object.area,
        code: code_of(object.body),
        charge: object.charge,
    }
}

/// Counts all objects of a world, of which there are fewer than 2^32. Each is looked at once. It fails only if memory runs
/// out.
pub fn census(alloc: Global, world: &World) -> Result<CensusRows, NoMemory>
    requires { length world.now.objects < 2 ^ 32 }
    ensures { IfOk result (λ rows. IsCensus (map counted_object world.now.objects) rows) }
{
    let mut tallies = no_tallies(alloc);
    let objects = &world.objects;
    let mut name = 0;
    while name < objects.len() as usize {
        count(&mut tallies, counted_object(objects.at(name)))?;
        name += 1;
    }
    rows_of(alloc, tallies)
}
