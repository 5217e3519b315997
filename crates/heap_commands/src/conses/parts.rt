//! Copies the parts of conses to registers, and values of registers to them.
ghost use Rattle.std.specs.Prelude.{◌<◌, get_or, length, ◌+◌, ◌*◌};
ghost use Rattle.area_space.specs.View.{view};
ghost use Rattle.store_word.specs.Words.{null_word};
ghost use Rattle.block_store.specs.transporter.Views.{MovesAtMost};
ghost use Rattle.heap_commands.specs.Costs.{CommandCosts};
ghost use Rattle.heap_commands.specs.Views.{MovesOrLays};
ghost use Rattle.heap_state.specs.Reads.{reply_of};
ghost use Rattle.heap_state.specs.Views.{RepresentsState, Performs};

use area_space::Ground;
use cdr_lists::{ListFault, set_car, set_cdr};
use heap_state::{FIND_ACCESSES, SETTLE_ACCESSES, settle_items, settle_register, show_into};
use lisp_graph::{Command, Reply};
use mem_port::Memory;
use std::sync::ledger::Ledger;
use store_word::{MAX_MOVED_WORDS, MAX_OBJECT_WORDS, Steps, SwapFault, Word};

/// `car`: a register gets the car of the cons in another. It places at most 4,096 words. If no swap
/// error occurs, it takes at most 119 memory accesses, and 4 for each word placed.
pub fn car<M: Memory, L: Ledger>(
    ground: &mut Ground<M>,
    registers: &mut [Word],
    to: u8,
    from: u8,
    steps: &mut Steps<L>,
) -> Result<Reply, SwapFault>
    requires consistent { RepresentsState (view ground.old) registers.old }
    requires to { to < length registers.old }
    requires from { from < length registers.old }
    ensures performs { Performs (view ground.old) registers.old (view ground.new) registers.new (Command.Car to from) (reply_of result) }
    ensures moves { MovesAtMost (view ground.old) (view ground.new) 2 }
    ensures costs { CommandCosts (view ground.old) (view ground.new) steps.old steps.new result MAX_MOVED_WORDS (2 * SETTLE_ACCESSES + 2 * FIND_ACCESSES + 1) }
{
    let cons = settle_register(ground, registers, from, steps)?;
    match cdr_lists::car(ground, cons, steps) {
        Ok(word) => show_into(&mut ground.mem, registers, to, word, steps),
        Err(ListFault::NotACons) => Ok(Reply::WrongType),
        Err(ListFault::Swap(fault)) => Err(fault),
    }
}

/// `cdr`: a register gets the cdr of the cons in another. It places at most 4,096 words. If no swap
/// error occurs, it takes at most 120 memory accesses, and 4 for each word placed.
pub fn cdr<M: Memory, L: Ledger>(
    ground: &mut Ground<M>,
    registers: &mut [Word],
    to: u8,
    from: u8,
    steps: &mut Steps<L>,
) -> Result<Reply, SwapFault>
    requires consistent { RepresentsState (view ground.old) registers.old }
    requires to { to < length registers.old }
    requires from { from < length registers.old }
    ensures performs { Performs (view ground.old) registers.old (view ground.new) registers.new (Command.Cdr to from) (reply_of result) }
    ensures moves { MovesAtMost (view ground.old) (view ground.new) 2 }
    ensures costs { CommandCosts (view ground.old) (view ground.new) steps.old steps.new result MAX_MOVED_WORDS (2 * SETTLE_ACCESSES + 2 * FIND_ACCESSES + 2) }
{
    let cons = settle_register(ground, registers, from, steps)?;
    match cdr_lists::cdr(ground, cons, steps) {
        Ok(word) => show_into(&mut ground.mem, registers, to, word, steps),
        Err(ListFault::NotACons) => Ok(Reply::WrongType),
        Err(ListFault::Swap(fault)) => Err(fault),
    }
}

/// `rplaca`: the car of the cons in a register gets the value of another. It places at most 4,096 words.
/// If no swap error occurs, it takes at most 106 memory accesses, and 4 for each word placed.
pub fn rplaca<M: Memory, L: Ledger>(
    ground: &mut Ground<M>,
    registers: &mut [Word],
    target: u8,
    from: u8,
    steps: &mut Steps<L>,
) -> Result<Reply, SwapFault>
    requires consistent { RepresentsState (view ground.old) registers.old }
    requires target { target < length registers.old }
    requires from { from < length registers.old }
    ensures performs { Performs (view ground.old) registers.old (view ground.new) registers.new (Command.Rplaca target from) (reply_of result) }
    ensures moves { MovesAtMost (view ground.old) (view ground.new) 2 }
    ensures costs { CommandCosts (view ground.old) (view ground.new) steps.old steps.new result MAX_MOVED_WORDS (2 * SETTLE_ACCESSES + FIND_ACCESSES + 1) }
{
    settle_items(ground, registers, &[target, from], steps)?;
    let cons = registers[target as usize];
    let value = registers[from as usize];
    match set_car(ground, cons, value, steps) {
        Ok(()) => Ok(Reply::Fine),
        Err(ListFault::NotACons) => Ok(Reply::WrongType),
        Err(ListFault::Swap(fault)) => Err(fault),
    }
}

/// `rplacd`: the cdr of the cons in a register gets the value of another. It places at most 6,146 words.
/// If no swap error occurs, it takes at most 159 memory accesses, and 4 for each word placed.
pub fn rplacd<M: Memory, L: Ledger>(
    ground: &mut Ground<M>,
    registers: &mut [Word],
    target: u8,
    from: u8,
    steps: &mut Steps<L>,
) -> Result<Reply, SwapFault>
    requires consistent { RepresentsState (view ground.old) registers.old }
    requires target { target < length registers.old }
    requires from { from < length registers.old }
    ensures performs { Performs (view ground.old) registers.old (view ground.new) registers.new (Command.Rplacd target from) (reply_of result) }
    ensures moves { MovesOrLays (view ground.old) (view ground.new) (get_or registers.new target null_word) (get_or registers.new from null_word) }
    ensures costs { CommandCosts (view ground.old) (view ground.new) steps.old steps.new result (MAX_MOVED_WORDS + MAX_OBJECT_WORDS + 2) (3 * SETTLE_ACCESSES + FIND_ACCESSES + 8) }
{
    settle_items(ground, registers, &[target, from], steps)?;
    let cons = registers[target as usize];
    let value = registers[from as usize];
    match set_cdr(ground, cons, value, steps) {
        Ok(()) => Ok(Reply::Fine),
        Err(ListFault::NotACons) => Ok(Reply::WrongType),
        Err(ListFault::Swap(fault)) => Err(fault),
    }
}
