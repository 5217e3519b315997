//! Commands on blocks.
ghost use Rattle.std.specs.Prelude.{◌≡◌, ◌+◌, ◌<◌, ◌≤◌, get_or, length, ◌*◌};
ghost use Rattle.lisp_heap.specs.Costs.{Makes, Takes};
ghost use Rattle.lisp_heap.specs.Making.{ScansFirst};
ghost use Rattle.lisp_heap.specs.Moves.{MovesAtMost};
ghost use Rattle.lisp_heap.specs.NewMarks.{MarksMade};
ghost use Rattle.store_word.specs.Words.{null_word};
ghost use Rattle.lisp_heap.specs.Stands.{Runs};

use crate::heap::allocating::admit_allocation;
use crate::heap::{Heap, finish_step, reply_of};
use heap_collect::Allocation;
use heap_commands::NewObject;
use heap_state::{FIND_ACCESSES, SETTLE_ACCESSES};
use lisp_graph::{Command, Reply};
use mem_port::Memory;
use std::sync::ledger::Ledger;
use store_word::{MAX_MOVED_WORDS, MAX_OBJECT_WORDS, Steps};

impl<M: Memory> Heap<M> {
    /// `make`: a register gets a new block of at most 2,047 fields, all nil. Its charge is one word
    /// more than its fields; otherwise it is like `cons`.
    pub fn make<L: Ledger>(
        &mut self,
        to: u8,
        area: u8,
        code: u16,
        count: u16,
        steps: &mut Steps<L>,
    ) -> Reply
        requires to { to < length self.old.registers }
        requires area { area < length self.old.table.kinds }
        requires at_most { count ≤ 2047 }
        ensures runs { Runs self.old self.new steps.old steps.new (Command.Make to area code count) result }
        ensures costs { Makes self.old self.new steps.old steps.new (count + 1) (count + 1) 0 result }
        ensures order { result ≡ Reply.Fine → ScansFirst self.old self.new (count + 1) (count + 1) 0 }
        ensures unmarked { result ≡ Reply.Fine → MarksMade (Command.Make to area code count) self.old self.new (get_or self.new.registers to null_word) (count + 1) }
    {
        let charge = count as u32 + 1;
        let registers = self.registers.as_mut_slice();
        match admit_allocation(
            &mut self.ground,
            &mut self.scan,
            registers,
            &self.space,
            Allocation { area, charge },
            steps,
        ) {
            Ok(level) => {
                let answer = heap_commands::make(
                    &mut self.ground,
                    registers,
                    NewObject { to, area, level },
                    code,
                    count,
                    steps,
                );
                reply_of(answer)
            }
            Err(reply) => reply,
        }
    }

    /// `get`: a register gets a field of the block in another. It places at most 4,096 words. If no
    /// swap error occurs, it takes at most 120 memory accesses, and 4 for each word placed.
    pub fn get<L: Ledger>(&mut self, to: u8, from: u8, index: u32, steps: &mut Steps<L>) -> Reply
        requires to { to < length self.old.registers }
        requires from { from < length self.old.registers }
        ensures runs { Runs self.old self.new steps.old steps.new (Command.Get to from index) result }
        ensures costs { Takes self.old self.new steps.old steps.new MAX_MOVED_WORDS (2 * SETTLE_ACCESSES + 2 * FIND_ACCESSES + 2) result }
        ensures moves { MovesAtMost self.old self.new 2 }
    {
        let answer = heap_commands::get(
            &mut self.ground,
            &mut self.registers,
            to,
            from,
            index,
            steps,
        );
        finish_step(answer)
    }

    /// `put`: a field of the block in a register gets the value of another. It places at most 4,096
    /// words. If no swap error occurs, it takes at most 107 memory accesses, and 4 for each word placed.
    pub fn put<L: Ledger>(
        &mut self,
        target: u8,
        index: u32,
        from: u8,
        steps: &mut Steps<L>,
    ) -> Reply
        requires target { target < length self.old.registers }
        requires from { from < length self.old.registers }
        ensures runs { Runs self.old self.new steps.old steps.new (Command.Put target index from) result }
        ensures costs { Takes self.old self.new steps.old steps.new MAX_MOVED_WORDS (2 * SETTLE_ACCESSES + FIND_ACCESSES + 2) result }
        ensures moves { MovesAtMost self.old self.new 2 }
    {
        let answer = heap_commands::put(
            &mut self.ground,
            &mut self.registers,
            target,
            index,
            from,
            steps,
        );
        finish_step(answer)
    }

    /// `size`: how many fields the block in a register has. It places at most 2,048 words. If no
    /// swap error occurs, it takes at most 59 memory accesses, and 4 for each word placed.
    pub fn size<L: Ledger>(&mut self, of: u8, steps: &mut Steps<L>) -> Reply
        requires in_range { of < length self.old.registers }
        ensures runs { Runs self.old self.new steps.old steps.new (Command.Size of) result }
        ensures costs { Takes self.old self.new steps.old steps.new MAX_OBJECT_WORDS (SETTLE_ACCESSES + FIND_ACCESSES) result }
        ensures moves { MovesAtMost self.old self.new 1 }
    {
        let answer = heap_commands::size(&mut self.ground, &mut self.registers, of, steps);
        finish_step(answer)
    }
}
