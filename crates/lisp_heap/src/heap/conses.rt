//! Commands on conses.
ghost use Rattle.std.specs.Prelude.{◌≡◌, ◌*◌, ◌<◌, ◌≤◌, get_or, length, ◌+◌};
ghost use Rattle.std.specs.List.{All};
ghost use Rattle.store_word.specs.Words.{null_word};
ghost use Rattle.heap_commands.specs.Listing.{RefersToCells};
ghost use Rattle.lisp_heap.specs.Costs.{Makes, Takes};
ghost use Rattle.lisp_heap.specs.Making.{ScansFirst};
ghost use Rattle.lisp_heap.specs.Moves.{MovesAtMost, MovesOrLays};
ghost use Rattle.lisp_heap.specs.NewMarks.{MarksMade};
ghost use Rattle.lisp_heap.specs.Stands.{Runs};

use crate::heap::allocating::admit_allocation;
use crate::heap::{Heap, finish_step, reply_of};
use heap_collect::Allocation;
use heap_commands::{CELL, NewObject, PAIR};
use heap_state::{FIND_ACCESSES, SETTLE_ACCESSES};
use lisp_graph::{Command, Items, Reply};
use mem_port::Memory;
use std::sync::ledger::Ledger;
use store_word::{MAX_MOVED_WORDS, MAX_OBJECT_WORDS, Steps};

impl<M: Memory> Heap<M> {
    /// `cons`: a register gets a new cons of the values of two registers. In a world with a capacity above 0
    /// a collection whose scan has finished is reclaimed before it; and then, if no collection runs, the
    /// levels that have reached their capacity are flipped. It is refused as exhausted if and only if its
    /// charge of 2 words exceeds what its area's quota allows, and then takes no memory access. While a
    /// collection runs it first scans the units that the rate requires for those words, or all that remain.
    ///
    /// If it was made, it took at most 128 memory accesses for each word charged, 128 for each unit that the
    /// rate requires, and 8 for each word copied.
    pub fn cons<L: Ledger>(
        &mut self,
        to: u8,
        area: u8,
        car: u8,
        cdr: u8,
        steps: &mut Steps<L>,
    ) -> Reply
        requires to { to < length self.old.registers }
        requires area { area < length self.old.table.kinds }
        requires car { car < length self.old.registers }
        requires cdr { cdr < length self.old.registers }
        ensures runs { Runs self.old self.new steps.old steps.new (Command.Cons to area car cdr) result }
        ensures costs { Makes self.old self.new steps.old steps.new 2 2 2 result }
        ensures order { result ≡ Reply.Fine → ScansFirst self.old self.new 2 2 2 }
        ensures unmarked { result ≡ Reply.Fine → MarksMade (Command.Cons to area car cdr) self.old self.new (get_or self.new.registers to null_word) 2 }
    {
        let registers = self.registers.as_mut_slice();
        match admit_allocation(
            &mut self.ground,
            &mut self.scan,
            registers,
            &self.space,
            Allocation { area, charge: PAIR },
            steps,
        ) {
            Ok(level) => {
                let answer = heap_commands::cons(
                    &mut self.ground,
                    registers,
                    NewObject { to, area, level },
                    car,
                    cdr,
                    steps,
                );
                reply_of(answer)
            }
            Err(reply) => reply,
        }
    }

    /// `list`: a register gets a new list of the values of 1 to 1,024 registers, in consecutive
    /// cells. Its charge is 3 words a cons; otherwise it is like `cons`.
    pub fn list<L: Ledger>(
        &mut self,
        to: u8,
        area: u8,
        items: &Items,
        steps: &mut Steps<L>,
    ) -> Reply
        requires to { to < length self.old.registers }
        requires area { area < length self.old.table.kinds }
        requires at_least { 1 ≤ length items.now }
        requires in_range { All (λ item. item < length self.old.registers) items.now }
        ensures runs { Runs self.old self.new steps.old steps.new (Command.List to area items.now) result }
        ensures cells { result ≡ Reply.Fine → RefersToCells self.new.memory.words (get_or self.new.registers to null_word) (length items.now) }
        ensures costs { Makes self.old self.new steps.old steps.new (3 * length items.now) (length items.now) (length items.now) result }
        ensures order { result ≡ Reply.Fine → ScansFirst self.old self.new (3 * length items.now) (length items.now) (length items.now) }
        ensures unmarked { result ≡ Reply.Fine → MarksMade (Command.List to area items.now) self.old self.new (get_or self.new.registers to null_word) (length items.now) }
    {
        let charge = list_charge(items);
        let registers = self.registers.as_mut_slice();
        match admit_allocation(
            &mut self.ground,
            &mut self.scan,
            registers,
            &self.space,
            Allocation { area, charge },
            steps,
        ) {
            Ok(level) => {
                let answer = heap_commands::list(
                    &mut self.ground,
                    registers,
                    NewObject { to, area, level },
                    items,
                    steps,
                );
                reply_of(answer)
            }
            Err(reply) => reply,
        }
    }

    /// `car`: a register gets the car of the cons in another. It places at most 4,096 words. If no
    /// swap error occurs, it takes at most 119 memory accesses, and 4 for each word placed.
    pub fn car<L: Ledger>(&mut self, to: u8, from: u8, steps: &mut Steps<L>) -> Reply
        requires to { to < length self.old.registers }
        requires from { from < length self.old.registers }
        ensures runs { Runs self.old self.new steps.old steps.new (Command.Car to from) result }
        ensures costs { Takes self.old self.new steps.old steps.new MAX_MOVED_WORDS (2 * SETTLE_ACCESSES + 2 * FIND_ACCESSES + 1) result }
        ensures moves { MovesAtMost self.old self.new 2 }
    {
        let answer = heap_commands::car(&mut self.ground, &mut self.registers, to, from, steps);
        finish_step(answer)
    }

    /// `cdr`: a register gets the cdr of the cons in another. It places at most 4,096 words. If no
    /// swap error occurs, it takes at most 120 memory accesses, and 4 for each word placed.
    pub fn cdr<L: Ledger>(&mut self, to: u8, from: u8, steps: &mut Steps<L>) -> Reply
        requires to { to < length self.old.registers }
        requires from { from < length self.old.registers }
        ensures runs { Runs self.old self.new steps.old steps.new (Command.Cdr to from) result }
        ensures costs { Takes self.old self.new steps.old steps.new MAX_MOVED_WORDS (2 * SETTLE_ACCESSES + 2 * FIND_ACCESSES + 2) result }
        ensures moves { MovesAtMost self.old self.new 2 }
    {
        let answer = heap_commands::cdr(&mut self.ground, &mut self.registers, to, from, steps);
        finish_step(answer)
    }

    /// `rplaca`: the car of the cons in a register gets the value of another. It places at most 4,096
    /// words. If no swap error occurs, it takes at most 106 memory accesses, and 4 for each word placed.
    pub fn rplaca<L: Ledger>(&mut self, target: u8, from: u8, steps: &mut Steps<L>) -> Reply
        requires target { target < length self.old.registers }
        requires from { from < length self.old.registers }
        ensures runs { Runs self.old self.new steps.old steps.new (Command.Rplaca target from) result }
        ensures costs { Takes self.old self.new steps.old steps.new MAX_MOVED_WORDS (2 * SETTLE_ACCESSES + FIND_ACCESSES + 1) result }
        ensures moves { MovesAtMost self.old self.new 2 }
    {
        let answer = heap_commands::rplaca(
            &mut self.ground,
            &mut self.registers,
            target,
            from,
            steps,
        );
        finish_step(answer)
    }

    /// `rplacd`: the cdr of the cons in a register gets the value of another. It places at most 6,146
    /// words. If no swap error occurs, it takes at most 159 memory accesses, and 4 for each word placed.
    /// It alone makes a cell a pair: the one to which the target refers.
    pub fn rplacd<L: Ledger>(&mut self, target: u8, from: u8, steps: &mut Steps<L>) -> Reply
        requires target { target < length self.old.registers }
        requires from { from < length self.old.registers }
        ensures runs { Runs self.old self.new steps.old steps.new (Command.Rplacd target from) result }
        ensures costs { Takes self.old self.new steps.old steps.new (MAX_MOVED_WORDS + MAX_OBJECT_WORDS + 2) (3 * SETTLE_ACCESSES + FIND_ACCESSES + 8) result }
        ensures moves { MovesOrLays self.old self.new (get_or self.new.registers target null_word) (get_or self.new.registers from null_word) }
    {
        let answer = heap_commands::rplacd(
            &mut self.ground,
            &mut self.registers,
            target,
            from,
            steps,
        );
        finish_step(answer)
    }
}

// The charge of a list of these items.
fn list_charge(items: &Items) -> u32
    ensures { result ≡ 3 * length items.now }
{
    CELL * items.as_slice().len() as u32
}
