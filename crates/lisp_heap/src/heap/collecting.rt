//! Commands on collections.
ghost use Rattle.std.specs.Prelude.{◌≡◌, ◌≢◌, ◌+◌, ◌-◌, ◌*◌, ◌≤◌, ℕ, [], None};
ghost use Rattle.area_space.specs.Flips.{Condemns};
ghost use Rattle.area_space.specs.Frees.{outside_old};
ghost use Rattle.scavenger.specs.Starting.{Begins, base_pages};
ghost use Rattle.heap_collect.specs.Amounts.{CountsPlaced};
ghost use Rattle.word_graph.specs.lisp_meaning.State.{State};
ghost use Rattle.lisp_heap.specs.HeapView.{store_of};
ghost use Rattle.lisp_heap.specs.Costs.{ScansSome, left_in};
ghost use Rattle.lisp_heap.specs.Freed.{Reclaimed};
ghost use Rattle.lisp_heap.specs.Moves.{MovesAtMost};
ghost use Rattle.lisp_heap.specs.Stands.{Runs, Stands};
ghost use Rattle.lisp_heap.specs.Units.{IsUnfinished, ScansInOrder};

use crate::heap::Heap;
use heap_collect::{flip, reclaim, scavenge};
use lisp_graph::{Command, Condemn, Reply};
use mem_port::Memory;
use scavenger::STEP_ACCESSES;
use std::sync::ledger::Ledger;
use store_word::{MAX_OBJECT_WORDS, Steps};

impl<M: Memory> Heap<M> {
    /// `flip`: begins a collection, and replies with the number of base pages to scan; if one runs,
    /// it replies `Busy`. Base pages are the used pages of regions that aren't condemned: in a full
    /// flip all of them, otherwise those whose marks have a condemned level. It takes no memory access, and the swap
    /// can't fail in it.
    pub fn flip(&mut self, what: Condemn) -> Reply
        ensures runs { Runs self.old self.new 0 0 (Command.Flip what) result }
        ensures table { (count : ℕ) → result ≡ Reply.Flipped count → Condemns self.old.table (record self.new.table { pages = [] }) what }
        ensures pages { (count : ℕ) → result ≡ Reply.Flipped count → count ≡ base_pages (store_of self.old.memory) self.new.table what }
        ensures begins { (count : ℕ) → result ≡ Reply.Flipped count → Begins (store_of self.old.memory) self.new.table what self.old.scan self.new.scan }
        ensures refused { result ≡ Reply.Busy → self.new.scan ≡ self.old.scan }
        ensures no_fault { self.new.faults ≡ self.old.faults }
    {
        flip(&mut self.ground, &mut self.scan, what)
    }

    /// `scavenge`: scans this number of units of the collection that runs, or all that remain. It replies `More`
    /// if a unit remains, and then less is paid than is owed, and `Done` if none does; `NotFlipped`
    /// if no collection runs. The next unit is always an unscanned word on the page of
    /// the latest transport, else a register, else the word with the lowest address. Whatever it replies,
    /// the units scanned and those that remain are together those that remained before and the words
    /// placed. If no swap error occurs, it takes at most 48 memory accesses for each unit scanned and 4 for each
    /// word placed, and places at most 2,048 words for each unit.
    pub fn scavenge<L: Ledger>(&mut self, count: u32, steps: &mut Steps<L>) -> Reply
        ensures runs { Runs self.old self.new steps.old steps.new (Command.Scavenge count) result }
        ensures scans { result ≢ Reply.Fault → ScansSome self.new (left_in self.old) self.old.scan.done self.old.table.placed count }
        ensures order { result ≢ Reply.Fault → self.old.table.aim ≢ None → ScansInOrder self.old self.new count }
        ensures units { (self.new.scan.done - self.old.scan.done) + left_in self.new ≡ left_in self.old + (self.new.table.placed - self.old.table.placed) }
        ensures placed { CountsPlaced self.old.table self.new.table }
        ensures moves { MovesAtMost self.old self.new (self.new.scan.done - self.old.scan.done + 1) }
        ensures going { result ≡ Reply.More → IsUnfinished self.new }
        ensures done { result ≡ Reply.Done → left_in self.new ≡ 0 }
        ensures at_most { result ≢ Reply.Fault → self.new.table.placed ≤ self.old.table.placed + MAX_OBJECT_WORDS * (self.new.scan.done - self.old.scan.done) }
        ensures cost { result ≢ Reply.Fault → steps.new ≤ steps.old + 4 * (self.new.table.placed - self.old.table.placed) + STEP_ACCESSES * (self.new.scan.done - self.old.scan.done) }
    {
        scavenge(
            &mut self.ground,
            &mut self.scan,
            &mut self.registers,
            count,
            steps,
        )
    }

    /// `reclaim`: ends the collection that runs, if no unit remains to be scanned: what was condemned and
    /// not copied is gone, and no longer charged. The pages of the regions that it frees are no longer
    /// resident, and no other page leaves its frame. It replies `NotDone` if a unit remains, and
    /// `NotFlipped` if no collection runs. It takes no memory access, and the swap can't fail in it.
    pub fn reclaim(&mut self) -> Reply
        ensures runs { Runs self.old self.new 0 0 Command.Reclaim result }
        ensures left { result ≡ Reply.NotDone → IsUnfinished self.new }
        ensures none { result ≡ Reply.Reclaimed → left_in self.old ≡ 0 }
        ensures free { result ≡ Reply.Reclaimed → (s : State) → Stands self.old s → Reclaimed self.new s }
        ensures resident { result ≡ Reply.Reclaimed → self.new.resident ≡ outside_old self.old.table self.old.resident }
        ensures unchanged { result ≢ Reply.Reclaimed → self.new.resident ≡ self.old.resident }
        ensures no_fault { self.new.faults ≡ self.old.faults }
    {
        reclaim(&mut self.ground, &self.scan)
    }
}
