//! The reference that a machine is compared with: the same commands on objects that are never moved or collected.
ghost use Rattle.std.specs.Prelude.{◌≡◌, length, IsSome, IfOk, OnErr};
ghost use Rattle.lisp_graph.specs.Graph.{IsGraph, Lasts};
ghost use Rattle.lisp_graph.specs.Effect.{Allocates, Answers, effect};
ghost use Rattle.lisp_graph.specs.Commands.{InLimits, InRegisters};
ghost use Rattle.lisp_graph.specs.Objects.{object_copied};
ghost use Rattle.lisp_graph.specs.World.{opening};

use crate::object_map::ObjectMap;
use crate::store::Store;
use crate::{Body, BodyRef, Command, Fields, Object, ObjectRef, Objects, Reply, World};
use std::alloc::Global;
use std::marker::Model;
use store_word::NoMemory;

/// Registers, and objects in an ordered map. It has no quotas and no collector: its memory only grows.
#[derive(Debug, Drop)]
pub struct GraphStore {
    store: Store,
}

impl Model for GraphStore {
    ghost use Rattle.lisp_graph.specs.Graph.{Graph, IsGraph};
    ghost use Rattle.lisp_graph.specs.Store.{graph_of};

    ghost Value = { Graph };

    ghost view = { λ s. graph_of s.store };

    ghost invariant = { λ s. IsGraph (graph_of s.store) };
}

/// The same object in memory of its own.
fn copy_of(alloc: Global, object: ObjectRef<'_>) -> Result<Object, NoMemory>
    ensures { IfOk result (λ copy. copy ≡ object_copied object.entry) }
{
    let body = match object.body {
        BodyRef::Cons { car, cdr } => Body::Cons { car, cdr },
        BodyRef::Block { code, fields } => Body::Block {
            code,
            fields: Fields::from_slice(alloc, fields)?,
        },
    };
    Ok(Object {
        area: object.area,
        charge: object.charge,
        body,
    })
}

/// The same objects in a map.
fn map_of(alloc: Global, objects: &Objects) -> Result<ObjectMap, NoMemory>
    ensures { IfOk result (λ map. map ≡ objects.now) }
{
    let mut map = ObjectMap::new(alloc);
    for name in 0..objects.len() {
        map.push(copy_of(alloc, objects.at(name as usize))?)?;
    }
    Ok(map)
}

impl GraphStore {
    /// The graph that the world has before its first command: each reference is to one of its objects, and no block has
    /// more than 2,047 fields.
    pub fn new(alloc: Global, world: &World) -> Result<GraphStore, NoMemory>
        requires { IsGraph (opening world.now) }
        ensures { IfOk result (λ store. store ≡ opening world.now) }
    {
        let registers = Fields::from_slice(alloc, world.roots.as_slice())?;
        let objects = map_of(alloc, &world.objects)?;
        let store = Store {
            alloc,
            registers,
            objects,
        };
        Ok(GraphStore { store })
    }

    /// Executes a command of the program, from `set` to `eq` or `grow`. If memory runs out, nothing has changed; only a command
    /// that makes or widens an object needs memory.
    pub fn answer(&mut self, command: &Command) -> Result<Reply, NoMemory>
        requires can { IsSome (effect self.old command.now) }
        requires registers { InRegisters (length self.old.registers) command.now }
        requires in_range { InLimits command.now }
        ensures ok { IfOk result (λ reply. Answers self.old command.now reply self.new) }
        ensures sound { IsGraph self.new }
        ensures preserves { Lasts self.old self.new }
        ensures err { OnErr result (self.new ≡ self.old) }
        ensures cause { OnErr result (Allocates self.old command.now) }
    {
        self.store.answer(command)
    }
}
