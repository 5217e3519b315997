//! Makes new blocks, with a register for each.
ghost use Rattle.std.specs.Prelude.{◌+◌, ◌<◌, ◌≤◌, get_or, length as list_length, OnOk};
ghost use Rattle.mem_port.specs.View.{AccountsForFaultsIf};
ghost use Rattle.area_space.specs.View.{view};
ghost use Rattle.store_word.specs.Words.{null_word};
ghost use Rattle.heap_commands.specs.Views.{MarksMade};
ghost use Rattle.heap_state.specs.Reads.{is_fault, reply_of};
ghost use Rattle.heap_state.specs.Views.{RepresentsState, PerformsAt};
ghost use Rattle.area_space.specs.Accounts.{account_of};
ghost use Rattle.area_space.specs.Table.{areas_of, levels_of, quota_of};

use crate::object::NewObject;
use area_space::Ground;
use block_store::make_block;
use lisp_graph::{Command, Reply};
use mem_port::Memory;
use std::sync::ledger::Ledger;
use store_word::{Steps, SwapFault, Word};

/// `make`: a register gets a new block with this code and this number of fields, at most 2,047. It is made in
/// an area, at the level of its new objects, and its charge, one more than its fields, has to fit
/// the quota. It takes at most 10 memory accesses more than it has fields. If it was made, the number of
/// words placed is at most its charge.
pub fn make<M: Memory, L: Ledger>(
    ground: &mut Ground<M>,
    registers: &mut [Word],
    object: NewObject,
    code: u16,
    length: u16,
    steps: &mut Steps<L>,
) -> Result<Reply, SwapFault>
    requires at_most { length ≤ 2047 }
    requires consistent { RepresentsState (view ground.old) registers.old }
    requires to { object.to < list_length registers.old }
    requires area { object.area < areas_of ground.old.table }
    requires level { object.level < levels_of ground.old.table }
    requires fits { account_of ground.old.table object.area + (length + 1) ≤ quota_of ground.old.table object.area }

    // what is performed
    ensures performs { PerformsAt (view ground.old) registers.old (view ground.new) registers.new (Command.Make object.to object.area code length) (reply_of result) object.area object.level }
    ensures unmarked { OnOk result (MarksMade (view ground.old) (view ground.new) (get_or registers.new object.to null_word) (length + 1)) }

    // costs and swap errors
    ensures placed { OnOk result (ground.new.table.placed ≤ ground.old.table.placed + (length + 1)) }
    ensures accounted { AccountsForFaultsIf (view ground.old).mem (view ground.new).mem steps.old steps.new (is_fault (reply_of result)) }
    ensures cost { steps.new ≤ steps.old + length + 10 }
{
    let at = make_block(ground, object.area, object.level, code, length, steps)?;
    registers[object.to as usize] = Word::struct_at(at);
    Ok(Reply::Fine)
}
