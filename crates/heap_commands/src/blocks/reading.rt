//! Copies the fields of blocks to registers, and counts them.
ghost use Rattle.std.specs.Prelude.{◌≡◌, ◌<◌, pos, length as list_length, ◌+◌, ◌*◌};
ghost use Rattle.area_space.specs.View.{view};
ghost use Rattle.block_store.specs.transporter.Views.{MovesAtMost};
ghost use Rattle.heap_commands.specs.Costs.{CommandCosts};
ghost use Rattle.heap_state.specs.Reads.{reply_of};
ghost use Rattle.heap_state.specs.Views.{RepresentsState, Performs};

use crate::blocks::refusal::refusal;
use area_space::Ground;
use block_store::{field, length};
use heap_state::{FIND_ACCESSES, SETTLE_ACCESSES, settle_register, show_into};
use lisp_graph::{Command, Reply};
use mem_port::Memory;
use std::sync::ledger::Ledger;
use store_word::{MAX_MOVED_WORDS, MAX_OBJECT_WORDS, Steps, SwapFault, Word};

/// `size`: how many fields the block in a register has. It places at most 2,048 words. If no swap error
/// occurs, it takes at most 59 memory accesses, and 4 for each word placed.
pub fn size<M: Memory, L: Ledger>(
    ground: &mut Ground<M>,
    registers: &mut [Word],
    of: u8,
    steps: &mut Steps<L>,
) -> Result<Reply, SwapFault>
    requires consistent { RepresentsState (view ground.old) registers.old }
    requires in_range { of < list_length registers.old }
    ensures performs { Performs (view ground.old) registers.old (view ground.new) registers.new (Command.Size of) (reply_of result) }
    ensures moves { MovesAtMost (view ground.old) (view ground.new) 1 }
    ensures costs { CommandCosts (view ground.old) (view ground.new) steps.old steps.new result MAX_OBJECT_WORDS (SETTLE_ACCESSES + FIND_ACCESSES) }
{
    let block = settle_register(ground, registers, of, steps)?;
    match length(ground, block, steps) {
        Ok(count) => Ok(number(count)),
        Err(fault) => refusal(fault),
    }
}

// The reply that shows a number of fields.
fn number(count: u16) -> Reply
    ensures { result ≡ Reply.Number (pos count) }
{
    Reply::Number(count as i32)
}

/// `get`: a register gets the field of this index of the block in another. It places at most 4,096
/// words. If no swap error occurs, it takes at most 120 memory accesses, and 4 for each word placed.
pub fn get<M: Memory, L: Ledger>(
    ground: &mut Ground<M>,
    registers: &mut [Word],
    to: u8,
    from: u8,
    index: u32,
    steps: &mut Steps<L>,
) -> Result<Reply, SwapFault>
    requires consistent { RepresentsState (view ground.old) registers.old }
    requires to { to < list_length registers.old }
    requires from { from < list_length registers.old }
    ensures performs { Performs (view ground.old) registers.old (view ground.new) registers.new (Command.Get to from index) (reply_of result) }
    ensures moves { MovesAtMost (view ground.old) (view ground.new) 2 }
    ensures costs { CommandCosts (view ground.old) (view ground.new) steps.old steps.new result MAX_MOVED_WORDS (2 * SETTLE_ACCESSES + 2 * FIND_ACCESSES + 2) }
{
    let block = settle_register(ground, registers, from, steps)?;
    match field(ground, block, index, steps) {
        Ok(word) => show_into(&mut ground.mem, registers, to, word, steps),
        Err(fault) => refusal(fault),
    }
}
