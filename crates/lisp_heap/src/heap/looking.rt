//! Looks at a heap. No call here uses a page, and none changes anything.
ghost use Rattle.std.specs.Prelude.{◌≡◌, ◌*◌, ◌≤◌, length};
ghost use Rattle.area_space.specs.View.{view};
ghost use Rattle.area_space.specs.Views.{IsGround};
ghost use Rattle.lisp_graph.specs.World.{IsSpace};
ghost use Rattle.area_space.specs.Table.{areas_of};
ghost use Rattle.scavenger.specs.Left.{next_of};
ghost use Rattle.lisp_heap.specs.HeapView.{lists_of};
ghost use Rattle.lisp_heap.specs.Costs.{left_in};

use crate::heap::Heap;
use area_space::Ground;
use lisp_graph::AreaKind;
use mem_port::Memory;
use scavenger::{ScanSet, Unit};
use store_word::{REGION_PAGES, Space, Word};

impl<M: Memory> Heap<M> {
    /// Its memory and the table of its regions.
    pub fn ground(&self) -> &Ground<M>
        ensures table { result.now.table ≡ self.now.table }
        ensures memory { lists_of (view result.now).mem.store ≡ self.now.memory }
        ensures resident { M.resident result.now.mem ≡ self.now.resident }
        ensures swap { M.swaps result.now.mem ≡ self.now.counts.swaps }
        ensures sound { IsGround (view result.now) }
    {
        &self.ground
    }

    /// What remains to be scanned. It has one number for each page.
    pub fn scan(&self) -> &ScanSet
        ensures value { result.now ≡ self.now.scan }
        ensures pages { length self.now.scan.pages ≡ REGION_PAGES * self.now.table.regions }
    {
        &self.scan
    }

    /// The words of its registers, of which there are at most 256.
    pub fn register_words(&self) -> &[Word]
        ensures registers { result.now ≡ self.now.registers }
        ensures at_most { length self.now.registers ≤ 256 }
    {
        &self.registers
    }

    /// Its sizes.
    pub fn space(&self) -> &Space
        ensures space { result.now ≡ self.now.space }
        ensures sound { IsSpace self.now.space }
    {
        &self.space
    }

    /// The kind of each area, of which there are at most 16.
    pub fn kinds(&self) -> &[AreaKind]
        ensures value { result.now ≡ self.now.table.kinds }
        ensures size { length self.now.table.kinds ≡ areas_of self.now.table }
        ensures at_most { length self.now.table.kinds ≤ 16 }
    {
        self.ground.table.kinds()
    }

    /// How many units remain to be scanned; 0 if no collection runs.
    pub fn units_left(&self) -> u64
        ensures { result ≡ left_in self.now }
    {
        if self.scan.is_over() {
            return 0;
        }
        self.scan.units_left(&self.ground, &self.registers)
    }

    /// The unit that is scanned next; None if none remains.
    pub fn next_unit(&self) -> Option<Unit>
        ensures { result ≡ next_of self.now.scan self.now.table }
    {
        self.scan.next_unit(&self.ground)
    }
}
