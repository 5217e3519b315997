//! Loading a world.
ghost use Rattle.std.specs.Prelude.{◌≡◌, ◌+◌, ◌<◌, ◌≤◌, [], true, false, OnOk, length};
ghost use Rattle.lisp_graph.specs.World.{IsWorld};
ghost use Rattle.word_graph.specs.lisp_meaning.Opening.{opening};
ghost use Rattle.heap_load.specs.Faults.{is_fault};
ghost use Rattle.heap_load.specs.Loading.{FitsQuotas};
ghost use Rattle.lisp_heap.specs.HeapView.{SameWorld};
ghost use Rattle.lisp_heap.specs.Form.{world_with};
ghost use Rattle.lisp_heap.specs.Loaded.{StandsGrouped};
ghost use Rattle.lisp_heap.specs.Stands.{Stands};

use crate::heap::Heap;
use heap_load::{LoadFault, load};
use lisp_graph::World;
use mem_port::Memory;
use std::alloc::Global;
use std::sync::ledger::Ledger;
use store_word::Steps;

impl<M: Memory> Heap<M> {
    /// Loads a world's objects and roots into a heap that was opened for its space and areas and has
    /// no objects yet. The objects fit the quotas of their areas. Consecutive conses of charge 3 that
    /// form a list are laid out as cells, any other cons as a pair.
    ///
    /// The memory counts as many accesses as `steps` does. It is refused if the allocator has no memory, or if
    /// the swap fails, which it can't in a world without objects; the heap may then have some of the
    /// objects.
    pub fn load<L: Ledger>(
        &mut self,
        alloc: Global,
        world: &World,
        steps: &mut Steps<L>,
    ) -> Result<(), LoadFault>
        requires empty { Stands self.old (opening (world_with world.now.space world.now.areas)) }
        requires accepted { IsWorld world.now }
        requires fits { FitsQuotas world.now }
        ensures stands { OnOk result (Stands self.new (opening world.now)) }
        ensures groups { OnOk result (StandsGrouped self.new world.now) }
        ensures unchanged { SameWorld self.old self.new }

        // the counts of the memory
        ensures never_falls { self.old.faults ≤ self.new.faults }
        ensures swap { is_fault result ≡ true → self.old.faults < self.new.faults }
        ensures no_fault { is_fault result ≡ false → self.new.faults ≡ self.old.faults }
        ensures succeeds { world.now.objects ≡ [] → is_fault result ≡ false }
        ensures taken { self.new.counts.taken + steps.old ≡ self.old.counts.taken + steps.new }
        ensures room { is_fault result ≡ false → length self.old.resident ≤ length self.new.resident }
        ensures resident { length self.old.resident ≤ length self.new.resident + 1 }
    {
        load(alloc, &mut self.ground, &mut self.registers, world, steps)
    }
}
