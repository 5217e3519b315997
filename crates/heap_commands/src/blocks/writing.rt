//! Copies the values of registers to fields of blocks.
ghost use Rattle.std.specs.Prelude.{◌<◌, length, ◌+◌, ◌*◌};
ghost use Rattle.area_space.specs.View.{view};
ghost use Rattle.block_store.specs.transporter.Views.{MovesAtMost};
ghost use Rattle.heap_commands.specs.Costs.{CommandCosts};
ghost use Rattle.heap_state.specs.Reads.{reply_of};
ghost use Rattle.heap_state.specs.Views.{RepresentsState, Performs};

use crate::blocks::refusal::refusal;
use area_space::Ground;
use block_store::set_field;
use heap_state::{FIND_ACCESSES, SETTLE_ACCESSES, settle_items};
use lisp_graph::{Command, Reply};
use mem_port::Memory;
use std::sync::ledger::Ledger;
use store_word::{MAX_MOVED_WORDS, Steps, SwapFault, Word};

/// `put`: the field of this index of the block in a register gets the value of another register. It places at
/// most 4,096 words. If no swap error occurs, it takes at most 107 memory accesses, and 4 for each word placed.
pub fn put<M: Memory, L: Ledger>(
    ground: &mut Ground<M>,
    registers: &mut [Word],
    target: u8,
    index: u32,
    from: u8,
    steps: &mut Steps<L>,
) -> Result<Reply, SwapFault>
    requires consistent { RepresentsState (view ground.old) registers.old }
    requires target { target < length registers.old }
    requires from { from < length registers.old }
    ensures performs { Performs (view ground.old) registers.old (view ground.new) registers.new (Command.Put target index from) (reply_of result) }
    ensures moves { MovesAtMost (view ground.old) (view ground.new) 2 }
    ensures costs { CommandCosts (view ground.old) (view ground.new) steps.old steps.new result MAX_MOVED_WORDS (2 * SETTLE_ACCESSES + FIND_ACCESSES + 2) }
{
    settle_items(ground, registers, &[target, from], steps)?;
    let block = registers[target as usize];
    let value = registers[from as usize];
    match set_field(ground, block, index, value, steps) {
        Ok(()) => Ok(Reply::Fine),
        Err(fault) => refusal(fault),
    }
}
