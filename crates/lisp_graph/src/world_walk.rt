//! A walk over the graph of a world that its caller keeps.
ghost use Rattle.std.specs.Prelude.{◌≡◌, ◌<◌, ◌≤◌, length};
ghost use Rattle.lisp_graph.specs.Graph.{IsGraph, RefersBelow, width};
ghost use Rattle.lisp_graph.specs.KeyedGraph.{form_of, part_of, keyed_value};
ghost use Rattle.lisp_graph.specs.Objects.{body_copied, object_copied};
ghost use Rattle.lisp_graph.specs.World.{opening};

use crate::{BodyRef, Form, ObjectRef, Objects, Seen, SeenCons, Value, Walk, World};
use std::marker::Model;
use store_word::SwapFault;

/// Shows the graph of a world: an object's key is its name. It never fails.
#[derive(Drop)]
pub struct WorldWalk<'a> {
    world: &'a World,
}

impl<'a> Model for WorldWalk<'a> {
    ghost use Rattle.std.specs.Prelude.{◌≡◌, length};
    ghost use Rattle.lisp_graph.specs.Graph.{Graph, IsGraph};
    ghost use Rattle.lisp_graph.specs.World.{opening};

    ghost Value = { Graph };

    ghost view = { λ w. opening w.world.now };

    ghost invariant = { λ w. IsGraph (opening w.world.now) × (length w.world.now.roots ≡ w.world.now.space.registers) };
}

/// A value as a walk shows it.
fn keyed_value(objects: &Objects, value: Value) -> Seen
    requires { RefersBelow (length objects.now) value }
    ensures { result ≡ keyed_value objects.now value }
{
    match value {
        Value::Fix(number) => Seen::Fix(number),
        Value::Nil => Seen::Nil,
        Value::Ref(name) => match objects.body(name as usize) {
            BodyRef::Cons { .. } => Seen::Cons(name),
            BodyRef::Block { .. } => Seen::Block(name),
        },
    }
}

fn form_of(object: ObjectRef<'_>) -> Form
    requires { width (body_copied object.body) ≤ 2047 }
    ensures { result ≡ form_of (object_copied object.entry) }
{
    let (code, length) = match object.body {
        BodyRef::Cons { .. } => (0, 2),
        BodyRef::Block { code, fields } => (code, fields.len() as u16),
    };
    Form {
        area: object.area,
        code,
        length,
        charge: object.charge,
    }
}

fn part_of(body: BodyRef<'_>, index: u32) -> Value
    requires { index < width (body_copied body) }
    ensures { result ≡ part_of (body_copied body.entry) index }
{
    match body {
        BodyRef::Cons { car, cdr } => if index == 0 { car } else { cdr },
        BodyRef::Block { fields, .. } => fields[index as usize],
    }
}

impl<'a> WorldWalk<'a> {
    /// A walk over this world's graph, which has a root for each register.
    pub fn new(world: &'a World) -> WorldWalk<'a>
        requires graph { IsGraph (opening world.now) }
        requires size { length world.now.roots ≡ world.now.space.registers }
        ensures { result ≡ opening world.now }
    {
        WorldWalk { world }
    }
}

impl<'a> Walk for WorldWalk<'a> {
    ghost use Rattle.lisp_graph.specs.KeyedGraph.{keyed};

    ghost graph = { keyed };

    ghost faults = { λ _. 0 };

    fn registers(&self) -> u32 {
        self.world.space.registers
    }

    fn value_of_register(&mut self, register: u32) -> Result<Seen, SwapFault> {
        let value = self.world.roots.as_slice()[register as usize];
        Ok(keyed_value(&self.world.objects, value))
    }

    fn form_of(&mut self, key: u64) -> Result<Form, SwapFault> {
        Ok(form_of(self.world.objects.at(key as usize)))
    }

    fn field_of(&mut self, key: u64, index: u32) -> Result<Seen, SwapFault> {
        let objects = &self.world.objects;
        let value = part_of(objects.body(key as usize), index);
        Ok(keyed_value(objects, value))
    }

    fn cons_of(&mut self, key: u64) -> Result<SeenCons, SwapFault> {
        let objects = &self.world.objects;
        let object = objects.at(key as usize);
        Ok(SeenCons {
            area: object.area,
            charge: object.charge,
            car: keyed_value(objects, part_of(object.body, 0)),
            cdr: keyed_value(objects, part_of(object.body, 1)),
        })
    }
}
