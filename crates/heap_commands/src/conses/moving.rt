//! Copies a register's value to another, and compares two.
ghost use Rattle.std.specs.Prelude.{◌≡◌, ◌<◌, if◌then◌else◌, length, ◌+◌, ◌*◌};
ghost use Rattle.area_space.specs.View.{view};
ghost use Rattle.block_store.specs.transporter.Views.{MovesAtMost};
ghost use Rattle.heap_commands.specs.Costs.{CommandCosts};
ghost use Rattle.heap_state.specs.Reads.{reply_of};
ghost use Rattle.heap_state.specs.Views.{RepresentsState, Performs};

use area_space::Ground;
use heap_state::{RESOLVE_ACCESSES, SETTLE_ACCESSES, is_same, settle_items, settle_register};
use lisp_graph::{Command, Reply};
use mem_port::Memory;
use std::sync::ledger::Ledger;
use store_word::{MAX_MOVED_WORDS, MAX_OBJECT_WORDS, Steps, SwapFault, Word};

/// `move`: a register gets the value of another. It places at most 2,048 words. If no swap error occurs,
/// it takes at most 46 memory accesses, and 4 for each word placed.
pub fn copy_register<M: Memory, L: Ledger>(
    ground: &mut Ground<M>,
    registers: &mut [Word],
    to: u8,
    from: u8,
    steps: &mut Steps<L>,
) -> Result<Reply, SwapFault>
    requires consistent { RepresentsState (view ground.old) registers.old }
    requires to { to < length registers.old }
    requires from { from < length registers.old }
    ensures performs { Performs (view ground.old) registers.old (view ground.new) registers.new (Command.Move to from) (reply_of result) }
    ensures moves { MovesAtMost (view ground.old) (view ground.new) 1 }
    ensures costs { CommandCosts (view ground.old) (view ground.new) steps.old steps.new result MAX_OBJECT_WORDS SETTLE_ACCESSES }
{
    let word = settle_register(ground, registers, from, steps)?;
    registers[to as usize] = word;
    Ok(Reply::Fine)
}

// The reply to a question.
fn truth(yes: bool) -> Reply
    ensures { result ≡ if yes then Reply.True else Reply.Nil }
{
    if yes { Reply::True } else { Reply::Nil }
}

/// `eq`: whether two registers have the same value. It places at most 4,096 words. If no swap error occurs, it
/// takes at most 116 memory accesses, and 4 for each word placed.
pub fn eq<M: Memory, L: Ledger>(
    ground: &mut Ground<M>,
    registers: &mut [Word],
    left: u8,
    right: u8,
    steps: &mut Steps<L>,
) -> Result<Reply, SwapFault>
    requires consistent { RepresentsState (view ground.old) registers.old }
    requires left { left < length registers.old }
    requires right { right < length registers.old }
    ensures performs { Performs (view ground.old) registers.old (view ground.new) registers.new (Command.Eq left right) (reply_of result) }
    ensures moves { MovesAtMost (view ground.old) (view ground.new) 2 }
    ensures costs { CommandCosts (view ground.old) (view ground.new) steps.old steps.new result MAX_MOVED_WORDS (2 * SETTLE_ACCESSES + 2 * RESOLVE_ACCESSES) }
{
    settle_items(ground, registers, &[left, right], steps)?;
    let first = registers[left as usize];
    let second = registers[right as usize];
    let same = is_same(&mut ground.mem, first, second, steps)?;
    Ok(truth(same))
}
