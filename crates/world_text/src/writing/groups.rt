//! Which conses can be in a group: those of charge 3 that end a list or whose cdr is the next object.
ghost use Rattle.std.specs.Prelude.{◌≡◌, false, IfNone, IfSome};
ghost use Rattle.lisp_graph.specs.Graph.{is_ref};
ghost use Rattle.lisp_graph.specs.Groups.{is_cell, is_nil};
ghost use Rattle.lisp_graph.specs.declared.object.Value.TheVariants.{Nil as nil_value, Ref as a_ref};
ghost use Rattle.lisp_graph.specs.declared.object.Body.TheVariants.{Cons as a_cons};

use lisp_graph::{Body, Object, Value};

pub fn is_nil(value: Value) -> bool
    ensures { result ≡ is_nil value }
{
    match value {
        Value::Nil => true,
        Value::Fix(_) | Value::Ref(_) => false,
    }
}

/// The car of a cons of charge 3 that ends a list.
pub fn tail_car(object: &Object) -> Option<Value>
    ensures some { IfSome result (λ car. object.now ≡ record { area = object.now.area; charge = 3; body = a_cons car nil_value }) }
    ensures none { IfNone result (is_cell object.now.area is_nil object.now ≡ false) }
{
    if object.charge != 3 {
        return None;
    }
    match &object.body {
        Body::Cons { car, cdr } => match cdr {
            Value::Nil => Some(*car),
            Value::Fix(_) | Value::Ref(_) => None,
        },
        Body::Block { .. } => None,
    }
}

/// The car of a cons of charge 3 whose cdr refers to the object with this number.
pub fn link_car(object: &Object, next: u64) -> Option<Value>
    ensures some { IfSome result (λ car. object.now ≡ record { area = object.now.area; charge = 3; body = a_cons car (a_ref next) }) }
    ensures none { IfNone result (is_cell object.now.area (is_ref next) object.now ≡ false) }
{
    if object.charge != 3 {
        return None;
    }
    match &object.body {
        Body::Cons { car, cdr } => match cdr {
            Value::Ref(other) => if *other == next { Some(*car) } else { None },
            Value::Fix(_) | Value::Nil => None,
        },
        Body::Block { .. } => None,
    }
}
