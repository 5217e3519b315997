//! Numbers that occur in references, but are the number of no object.
ghost use Rattle.std.specs.Prelude.{◌≡◌, ◌-◌, min, fold};
ghost use Rattle.lisp_graph.specs.Objects.{body_copied};
ghost use Rattle.world_text.specs.reading.Closing.{lesser, missing, missing_at, missing_body, missing_value, no_object};

use crate::{Reason, Section, WorldFault, WorldReader};
use lisp_graph::{BodyRef, Objects, Value};

fn lesser(found: Option<u64>, number: u64) -> Option<u64>
    ensures { result ≡ lesser found number }
{
    match found {
        None => Some(number),
        Some(found) => Some(found.min(number)),
    }
}

pub fn missing_value(objects: u64, found: Option<u64>, value: Value) -> Option<u64>
    ensures { result ≡ missing_value objects found value }
{
    match value {
        Value::Ref(number) => {
            if number < objects {
                found
            } else {
                lesser(found, number)
            }
        }
        Value::Fix(_) | Value::Nil => found,
    }
}

fn missing_fields(objects: u64, found: Option<u64>, fields: &[Value]) -> Option<u64>
    ensures { result ≡ fold (missing_value objects) found fields.now }
{
    let mut found = found;
    for value in fields {
        found = missing_value(objects, found, *value);
    }
    found
}

fn missing_body(objects: u64, found: Option<u64>, body: BodyRef<'_>) -> Option<u64>
    ensures { result ≡ missing_body objects found (body_copied body.entry) }
{
    match body {
        BodyRef::Cons { car, cdr } => {
            let found = missing_value(objects, found, car);
            missing_value(objects, found, cdr)
        }
        BodyRef::Block { code: _, fields } => missing_fields(objects, found, fields),
    }
}

fn missing(objects: &Objects) -> Option<u64>
    ensures { result ≡ missing objects.now }
{
    let count = objects.len();
    let mut found = None;
    for name in 0..count {
        found = missing_body(count, found, objects.body(name as usize));
    }
    found
}

/// The least number in the object lines that is the number of no object; None if the lines were already tested.
pub fn missing_at(place: &WorldReader) -> Option<u64>
    ensures { result ≡ missing_at place.now }
{
    if place.part == Section::Roots {
        None
    } else {
        missing(&place.world.objects)
    }
}

/// The refusal of a line because no object has this number.
pub fn no_object(number: u64) -> WorldFault
    ensures { result ≡ no_object number }
{
    WorldFault::Bad(Reason::NoObject {
        object: number.min(u64::from(u32::MAX)) as u32,
    })
}
