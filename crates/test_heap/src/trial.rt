//! The machine: a heap over any memory.
ghost use Rattle.std.specs.Prelude.{◌≡◌, length, IfOk};
ghost use Rattle.mem_port.specs.Store.{IsFresh};
ghost use Rattle.lisp_heap.specs.lisp_meaning.Opening.{opening};
ghost use Rattle.lisp_heap.specs.Form.{world_with};
ghost use Rattle.lisp_heap.specs.Stands.{Stands};
ghost use Rattle.world_text.specs.Limits.{IsAccepted};

use crate::asks::can_run;
use lisp_graph::{Areas, Command, Reply, Text, World};
use lisp_heap::{Heap, accepted_worlds_fit};
use mem_port::Memory;
use paged_machine::run_command;
use std::alloc::Global;
use std::marker::Brand;
use std::sync::ledger::{Blank, Ledger};
use std::test::Fail;
use store_word::Steps;
use why_held::{CensusRows, reached};

/// A heap, and how many areas it has. Any command may be given: one that names what it doesn't have is refused.
#[derive(Drop)]
pub(crate) struct Trial<M: Memory> {
    heap: Heap<M>,
    areas: u64,
    ghost all: { areas ≡ length heap.table.kinds },
}

/// Loads a world into a heap that was opened for its space and areas.
fn load<M: Memory + Drop, L: Ledger>(
    alloc: Global,
    heap: Heap<M>,
    world: &World,
    blank: Blank,
) -> Result<Heap<M>, Fail>
    requires name { blank.name ≡ L.name }
    requires parts { blank.parts ≡ L.parts }
    requires at_least { blank.parts ≡ 1 }
    requires empty { Stands heap (opening (world_with world.now.space world.now.areas)) }
    requires accepted { IsAccepted world.now }
    ensures { IfOk result (λ loaded. loaded.table.kinds ≡ heap.table.kinds) }
{
    accepted_worlds_fit();
    let mut heap = heap;
    let mut steps = Steps::<L>::new(blank);
    if heap.load(alloc, world, &mut steps).is_err() {
        return Err("not loaded".into());
    }
    Ok(heap)
}

impl<M: Memory + Drop> Trial<M> {
    /// A heap that has the objects and the roots of a world, over a new memory of its size.
    pub fn open(alloc: Global, world: &World, mem: M) -> Result<Trial<M>, Fail>
        requires accepted { IsAccepted world.now }
        requires fresh { IsFresh (M.seen mem) world.now.space.regions world.now.space.levels }
    {
        let Ok(heap) = Heap::open(alloc, &world.space, &world.areas, mem) else {
            return Err("no memory".into());
        };
        let areas = world.areas.len();
        let heap = load::<M, Brand>(alloc, heap, world, Blank::new(1))?;
        Ok(Trial { heap, areas })
    }

    /// The dump, if one is written, and the machine again.
    pub fn dump(self, alloc: Global, areas: &Areas) -> (Trial<M>, Option<Text>) {
        let (heap, dump) = self.heap.dump(alloc, areas);
        let trial = Trial {
            heap,
            areas: self.areas,
        };
        (trial, dump.ok())
    }

    /// The census of what the registers reach.
    pub fn census(self, alloc: Global, areas: &Areas) -> Option<CensusRows> {
        let mut heap = self.heap;
        reached(alloc, &mut heap, areas).ok()
    }
}

impl<M: Memory> Trial<M> {
    /// Runs a command; None if the machine doesn't have what it names, or if no reply answers it.
    pub fn answer(&mut self, command: &Command) -> Option<Reply> {
        if !can_run(command, self.heap.registers(), self.areas) {
            return None;
        }
        Some(run_command::<M, Brand>(&mut self.heap, command, Blank::new(1)))
    }

    /// What an area is charged; None if there is no such area.
    pub fn account(&self, area: usize) -> Option<u32> {
        let area = u8::try_from(area).ok()?;
        if u64::from(area) < self.areas {
            Some(self.heap.account(area))
        } else {
            None
        }
    }
}
