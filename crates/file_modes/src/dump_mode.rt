//! The dump of a world.
ghost use Rattle.std.specs.Prelude.{IfOk};
ghost use Rattle.file_modes.specs.Modes.{IsDumpOf, IsDumpable};

use lisp_graph::{NoMemory, Text, World, WorldWalk};
use std::alloc::Global;
use world_text::{DumpFault, dump_text};

/// The dump of a world.
pub fn dumped(alloc: Global, world: &World) -> Result<Text, NoMemory>
    requires { IsDumpable world.now }
    ensures { IfOk result (IsDumpOf world.now) }
{
    match dump_text(
        alloc,
        &mut WorldWalk::new(world),
        &world.space,
        world.areas.as_slice(),
    ) {
        Ok(text) => Ok(text),
        Err(DumpFault::NoMemory) => Err(NoMemory),
        // A walk over a world in memory makes no page call.
        Err(DumpFault::Swap(_)) => unreachable!(),
    }
}
