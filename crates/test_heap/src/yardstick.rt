//! What the replies of the program's commands have to be.
ghost use Rattle.std.specs.Prelude.{◌≡◌, length};
ghost use Rattle.world_text.specs.Limits.{IsAccepted};

use crate::asks::{can_run, is_program};
use lisp_graph::{Command, GraphStore, Reply, World};
use std::alloc::Global;
use std::test::Fail;

/// A store of a graph, and how many registers it has.
#[derive(Drop)]
pub(crate) struct Yardstick {
    store: GraphStore,
    registers: u32,
    ghost all: { registers ≡ length store.registers },
}

impl Yardstick {
    /// The graph of a world.
    pub fn new(alloc: Global, world: &World) -> Result<Yardstick, Fail>
        requires { IsAccepted world.now }
    {
        let store = GraphStore::new(alloc, world)?;
        let registers = world.space.registers;
        Ok(Yardstick { store, registers })
    }

    /// Runs a command of the program; None for any other command.
    pub fn answer(&mut self, command: &Command) -> Result<Option<Reply>, Fail> {
        if is_program(command) && can_run(command, self.registers, 16) {
            Ok(Some(self.store.answer(command)?))
        } else {
            Ok(None)
        }
    }
}
