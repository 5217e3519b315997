//! Registers and objects, and the commands of the program on them.
ghost use Rattle.std.specs.Prelude.{◌≡◌, ◌<◌, ◌≤◌, length, Some, None};
ghost use Rattle.lisp_graph.specs.Graph.{IsGraph, RefersBelow, object_at, shown, shown_body, value_at, width};
ghost use Rattle.lisp_graph.specs.Store.{block_copied, found_block, found_cons, graph_of};

mod answer;
mod makers;
mod parts;

use crate::object_map::ObjectMap;
use crate::{Body, Command, Fields, Object, Reply, Value};
use std::alloc::Global;

/// The registers' values and the objects.
#[derive(Debug, Drop)]
pub(crate) struct Store {
    pub(crate) alloc: Global,
    pub(crate) registers: Fields,
    pub(crate) objects: ObjectMap,
}

/// The value of a register.
fn value_at(registers: &[Value], register: u8) -> Value
    requires { register < length registers.now }
    ensures { result ≡ value_at registers.now register }
{
    registers[register as usize]
}

/// The reply that shows an object of this body.
fn shown_body(body: &Body) -> Reply
    requires { width body.now ≤ 2047 }
    ensures { result ≡ shown_body body.now }
{
    match body {
        Body::Cons { .. } => Reply::Cons,
        Body::Block { code, fields } => Reply::Block {
            code: *code,
            length: fields.len() as u16,
        },
    }
}

impl Store {
    fn register(&self, register: u8) -> Value
        requires { register < length self.now.registers }
        ensures { result ≡ value_at self.now.registers register }
    {
        value_at(self.registers.as_slice(), register)
    }

    fn object(&self, name: u64) -> &Object
        requires { name < length self.now.objects }
        ensures { result.now ≡ object_at self.now.objects name }
    {
        self.objects.get(name).unwrap()
    }

    /// The name and the parts of the cons that a value refers to, if it does.
    fn find_cons(&self, value: Value) -> Option<(u64, Value, Value)>
        requires { RefersBelow (length self.now.objects) value }
        ensures { result ≡ found_cons self.now.objects value }
    {
        if let Value::Ref(name) = value {
            if let Body::Cons { car, cdr } = self.object(name).body {
                return Some((name, car, cdr));
            }
        }
        None
    }

    /// The name, the code and the fields of the block that a value refers to, if it does.
    fn find_block(&self, value: Value) -> Option<(u64, u16, &Fields)>
        requires { RefersBelow (length self.now.objects) value }
        ensures { block_copied result ≡ found_block self.now.objects value }
    {
        if let Value::Ref(name) = value {
            if let Body::Block { code, fields } = &self.object(name).body {
                return Some((name, *code, fields));
            }
        }
        None
    }

    /// The reply that shows a value.
    fn shown(&self, value: Value) -> Reply
        requires graph { IsGraph (graph_of self.now) }
        requires refers { RefersBelow (length self.now.objects) value }
        ensures { result ≡ shown self.now.objects value }
    {
        match value {
            Value::Fix(number) => Reply::Number(number),
            Value::Nil => Reply::Nil,
            Value::Ref(name) => shown_body(&self.object(name).body),
        }
    }
}
