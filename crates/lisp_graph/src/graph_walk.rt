//! A walk over the graph of a world of its own.
ghost use Rattle.std.specs.Prelude.{◌≡◌, length};
ghost use Rattle.lisp_graph.specs.Graph.{IsGraph};
ghost use Rattle.lisp_graph.specs.World.{opening};

use crate::{Form, Seen, SeenCons, Walk, World, WorldWalk};
use std::marker::Model;
use store_word::SwapFault;

/// Shows the graph of a world, as `WorldWalk` does, and owns the world.
#[derive(Debug, Drop)]
pub struct GraphWalk {
    world: World,
}

impl Model for GraphWalk {
    ghost use Rattle.std.specs.Prelude.{◌≡◌, length};
    ghost use Rattle.lisp_graph.specs.Graph.{Graph, IsGraph};
    ghost use Rattle.lisp_graph.specs.World.{opening};

    ghost Value = { Graph };

    ghost view = { λ w. opening w.world };

    ghost invariant = { λ w. IsGraph (opening w.world) × (length w.world.roots ≡ w.world.space.registers) };
}

impl GraphWalk {
    /// A walk over this world's graph, which has a root for each register.
    pub fn new(world: World) -> GraphWalk
        requires graph { IsGraph (opening world) }
        requires size { length world.roots ≡ world.space.registers }
        ensures { result ≡ opening world }
    {
        GraphWalk { world }
    }
}

impl Walk for GraphWalk {
    ghost use Rattle.lisp_graph.specs.KeyedGraph.{keyed};

    ghost graph = { keyed };

    ghost faults = { λ _. 0 };

    fn registers(&self) -> u32 {
        self.world.space.registers
    }

    fn value_of_register(&mut self, register: u32) -> Result<Seen, SwapFault> {
        WorldWalk::new(&self.world).value_of_register(register)
    }

    fn form_of(&mut self, key: u64) -> Result<Form, SwapFault> {
        WorldWalk::new(&self.world).form_of(key)
    }

    fn field_of(&mut self, key: u64, index: u32) -> Result<Seen, SwapFault> {
        WorldWalk::new(&self.world).field_of(key, index)
    }

    fn cons_of(&mut self, key: u64) -> Result<SeenCons, SwapFault> {
        WorldWalk::new(&self.world).cons_of(key)
    }
}
