//! Commands on registers alone.
ghost use Rattle.std.specs.Prelude.{◌≡◌, ◌<◌, length, ◌+◌, ◌*◌};
ghost use Rattle.lisp_graph.specs.Commands.{IsPlain};
ghost use Rattle.heap_commands.specs.cdr_lists.Words.{plain};
ghost use Rattle.lisp_heap.specs.Costs.{Takes};
ghost use Rattle.lisp_heap.specs.Moves.{MovesAtMost};
ghost use Rattle.lisp_heap.specs.Stands.{Runs};
ghost use Rattle.lisp_heap.specs.Words.{content_of};

use crate::heap::{Heap, finish_step};
use heap_state::{RESOLVE_ACCESSES, SETTLE_ACCESSES, commands_are_steps};
use lisp_graph::{Command, Reply, Value};
use mem_port::Memory;
use std::sync::ledger::Ledger;
use store_word::{MAX_MOVED_WORDS, MAX_OBJECT_WORDS, Steps, Word};

impl<M: Memory> Heap<M> {
    /// `set`: a register gets a value that isn't a reference.
    pub fn set(&mut self, to: u8, value: Value) -> Reply
        requires to { to < length self.old.registers }
        requires can { IsPlain value }
        ensures runs { Runs self.old self.new 0 0 (Command.Set to value) result }
        ensures value { result ≡ Reply.Fine }
        ensures no_fault { self.new.faults ≡ self.old.faults }
    {
        self.registers[to as usize] = word_of(value);
        commands_are_steps();
        Reply::Fine
    }

    /// `move`: a register gets the value of another. It places at most 2,048 words. If no swap error occurs,
    /// it takes at most 46 memory accesses, and 4 for each word placed.
    pub fn copy_register<L: Ledger>(&mut self, to: u8, from: u8, steps: &mut Steps<L>) -> Reply
        requires to { to < length self.old.registers }
        requires from { from < length self.old.registers }
        ensures runs { Runs self.old self.new steps.old steps.new (Command.Move to from) result }
        ensures costs { Takes self.old self.new steps.old steps.new MAX_OBJECT_WORDS SETTLE_ACCESSES result }
        ensures moves { MovesAtMost self.old self.new 1 }
    {
        let answer = heap_commands::copy_register(
            &mut self.ground,
            &mut self.registers,
            to,
            from,
            steps,
        );
        finish_step(answer)
    }

    /// `eq`: whether the values of two registers are equal; references are if they lead to the same object.
    /// It places at most 4,096 words. If no swap error occurs, it takes at most 116 memory accesses, and 4 for each
    /// word placed.
    pub fn eq<L: Ledger>(&mut self, left: u8, right: u8, steps: &mut Steps<L>) -> Reply
        requires left { left < length self.old.registers }
        requires right { right < length self.old.registers }
        ensures runs { Runs self.old self.new steps.old steps.new (Command.Eq left right) result }
        ensures costs { Takes self.old self.new steps.old steps.new MAX_MOVED_WORDS (2 * SETTLE_ACCESSES + 2 * RESOLVE_ACCESSES) result }
        ensures moves { MovesAtMost self.old self.new 2 }
    {
        let answer = heap_commands::eq(&mut self.ground, &mut self.registers, left, right, steps);
        finish_step(answer)
    }
}

// The word of a value that isn't a reference.
fn word_of(value: Value) -> Word
    ensures { result ≡ plain (content_of value) }
{
    match value {
        Value::Fix(number) => Word::fixnum(number),
        Value::Nil => Word::nil(),
        Value::Ref(_) => Word::nil(),
    }
}
