//! The objects of forms.
ghost use Rattle.std.specs.Prelude.{◌≡◌, ◌<◌, ◌≤◌, ◌++◌, [], ◌∷◌, length, slice_set, OnOk, OnErr};
ghost use Rattle.world_text.specs.Objects.{block_with};
ghost use Rattle.sexpr_text.specs.Reading.{cons_charge, cons_in};
ghost use Rattle.sexpr_text.specs.Tasks.{hole};

use crate::Bracket;
use lisp_graph::{Body, Fields, NoMemory, Object, Objects, Value};

fn cons_charge(bracket: Bracket) -> u32
    ensures { result ≡ cons_charge bracket }
{
    match bracket {
        Bracket::Round => 2,
        Bracket::Square | Bracket::Curly => 3,
    }
}

/// Adds a cons of a list form. If memory runs out, the objects are unchanged.
pub fn push_cons(
    objects: &mut Objects,
    area: u8,
    bracket: Bracket,
    car: Value,
    cdr: Value,
) -> Result<(), NoMemory>
    ensures ok { OnOk result (objects.new ≡ objects.old ++ cons_in area bracket car cdr ∷ []) }
    ensures err { OnErr result (objects.new ≡ objects.old) }
{
    objects.push_cons(area, cons_charge(bracket), car, cdr)
}

/// Replaces the object with this name by a cons of a list form.
pub fn set_cons(
    objects: &mut Objects,
    name: u64,
    area: u8,
    bracket: Bracket,
    car: Value,
    cdr: Value,
)
    requires { name < length objects.old }
    ensures { objects.new ≡ slice_set objects.old name (cons_in area bracket car cdr) }
{
    objects.set_cons(name as usize, area, cons_charge(bracket), car, cdr);
}

/// A block of at most 2,047 fields.
pub fn block_with(area: u8, code: u16, fields: Fields) -> Object
    requires { length fields ≤ 2047 }
    ensures { result ≡ block_with area code fields }
{
    Object {
        area,
        charge: fields.len() as u32 + 1,
        body: Body::Block { code, fields },
    }
}

/// Adds what takes the place of a block whose fields aren't read yet. If memory runs out, the objects are unchanged.
pub fn push_hole(objects: &mut Objects) -> Result<(), NoMemory>
    ensures ok { OnOk result (objects.new ≡ objects.old ++ hole ∷ []) }
    ensures err { OnErr result (objects.new ≡ objects.old) }
{
    push_cons(objects, 0, Bracket::Round, Value::Nil, Value::Nil)
}
