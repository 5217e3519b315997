//! The census of a world, as a text.
ghost use Rattle.std.specs.Prelude.{IfOk};
ghost use Rattle.lisp_graph.specs.KeyedGraph.{keyed};
ghost use Rattle.lisp_graph.specs.World.{opening};
ghost use Rattle.world_text.specs.Limits.{IsAccepted};
ghost use Rattle.why_held.specs.Reached.{IsReachedCensus};
ghost use Rattle.file_modes.specs.Modes.{IsCensusText};

use lisp_graph::{NoMemory, Text, World, WorldWalk};
use std::alloc::Global;
use why_held::{CensusRows, census, census_text, reached};
use world_text::DumpFault;

/// The rows of the objects that the registers of a world reach.
fn reached_of(alloc: Global, world: &World) -> Result<CensusRows, NoMemory>
    requires { IsAccepted world.now }
    ensures { IfOk result (IsReachedCensus (keyed (opening world.now))) }
{
    match reached(alloc, &mut WorldWalk::new(world), &world.areas) {
        Ok(rows) => Ok(rows),
        Err(DumpFault::NoMemory) => Err(NoMemory),
        // A walk over a world in memory makes no page call.
        Err(DumpFault::Swap(_)) => unreachable!(),
    }
}

/// The census of a world as a text: what its registers reach and what they don't, by area and code.
pub fn census_of(alloc: Global, world: &World) -> Result<Text, NoMemory>
    requires { IsAccepted world.now }
    ensures { IfOk result (IsCensusText world.now) }
{
    let rows = census(alloc, world)?;
    let some = reached_of(alloc, world)?;
    census_text(alloc, &world.areas, &rows, &some)
}
