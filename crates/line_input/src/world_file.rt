//! The judge of the lines of a world file.
ghost use Rattle.std.specs.Prelude.{◌≡◌};
ghost use Rattle.world_text.specs.Limits.{IsAccepted};
ghost use Rattle.line_input.specs.WorldFile.{file_rules, start};

use crate::judging::LineJudge;
use crate::statuses::{RunError, world_trouble};
use lisp_graph::World;
use std::alloc::Global;
use world_text::{Reason, WorldBuilder};

/// A world file, as far as its lines were read.
#[derive(Drop)]
pub struct WorldFile {
    pub builder: WorldBuilder,
}

impl WorldFile {
    /// The file before its first line.
    pub fn start(alloc: Global) -> WorldFile
        ensures { result ≡ start }
    {
        WorldFile {
            builder: WorldBuilder::for_file(alloc),
        }
    }
}

impl LineJudge for WorldFile {
    type Whole = World;

    ghost rules = { file_rules };

    ghost fits = { IsAccepted };

    fn is_whole(&self) -> bool {
        self.builder.is_closed()
    }

    fn line(&mut self, _alloc: Global, number: u64, text: &[u8]) -> Result<(), RunError> {
        match self.builder.line(text) {
            Ok(_) => Ok(()),
            Err(fault) => {
                let areas = self.builder.world().areas.as_slice();
                Err(world_trouble(number, areas, fault))
            }
        }
    }

    fn whole(self) -> World {
        self.builder.finish()
    }

    fn empty() -> Reason {
        Reason::NotAWorld
    }
}
