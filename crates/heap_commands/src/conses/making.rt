//! Makes new conses, with a register for each.
ghost use Rattle.std.specs.Prelude.{◌+◌, ◌*◌, ◌<◌, ◌≤◌, length, OnOk, get_or};
ghost use Rattle.area_space.specs.View.{view};
ghost use Rattle.heap_commands.specs.Costs.{CommandCosts};
ghost use Rattle.store_word.specs.Words.{null_word};
ghost use Rattle.heap_commands.specs.Listing.{RefersToCells};
ghost use Rattle.heap_state.specs.Reads.{reply_of};
ghost use Rattle.heap_commands.specs.Views.{MarksMade};
ghost use Rattle.heap_state.specs.Views.{RepresentsState, PerformsAt};
ghost use Rattle.std.specs.List.{All};
ghost use Rattle.area_space.specs.Accounts.{account_of};
ghost use Rattle.area_space.specs.Table.{areas_of, levels_of, quota_of};

use crate::object::NewObject;
use area_space::Ground;
use cdr_lists::{NewPair, PAIR, make_list, make_pair_of};
use heap_state::{SETTLE_ACCESSES, settle_items};
use lisp_graph::{Command, Items, Reply};
use mem_port::Memory;
use std::sync::ledger::Ledger;
use store_word::{MAX_MOVED_WORDS, MAX_OBJECT_WORDS, Steps, SwapFault, Word};

/// `cons`: a register gets a new cons of the values of two registers, in an area, at the level of its new
/// objects. Its charge, 2 words, has to fit the quota of the area. It places at most 4,098
/// words. If no swap error occurs, it takes at most 96 memory accesses, and 4 for each word placed.
pub fn cons<M: Memory, L: Ledger>(
    ground: &mut Ground<M>,
    registers: &mut [Word],
    object: NewObject,
    car: u8,
    cdr: u8,
    steps: &mut Steps<L>,
) -> Result<Reply, SwapFault>
    requires consistent { RepresentsState (view ground.old) registers.old }
    requires to { object.to < length registers.old }
    requires car { car < length registers.old }
    requires cdr { cdr < length registers.old }
    requires area { object.area < areas_of ground.old.table }
    requires level { object.level < levels_of ground.old.table }
    requires fits { account_of ground.old.table object.area + 2 ≤ quota_of ground.old.table object.area }

    // what is performed
    ensures performs { PerformsAt (view ground.old) registers.old (view ground.new) registers.new (Command.Cons object.to object.area car cdr) (reply_of result) object.area object.level }
    ensures unmarked { OnOk result (MarksMade (view ground.old) (view ground.new) (get_or registers.new object.to null_word) 2) }

    // costs and swap errors
    ensures costs { CommandCosts (view ground.old) (view ground.new) steps.old steps.new result (MAX_MOVED_WORDS + 2) (2 * SETTLE_ACCESSES + 4) }
{
    settle_items(ground, registers, &[car, cdr], steps)?;
    let first = registers[car as usize];
    let second = registers[cdr as usize];
    let pair = NewPair {
        area: object.area,
        level: object.level,
        charge: PAIR,
    };
    let at = make_pair_of(ground, pair, first, second, steps)?;
    registers[object.to as usize] = Word::list_at(at);
    Ok(Reply::Fine)
}

/// `list`: a register gets a new list of the values of 1 to 1,024 registers, in an area, at the level of
/// its new objects. Its charge, 3 words a cons, has to fit the quota of the area. It places
/// at most 2,049 words for each item. If no swap error occurs, it takes at most 5 memory accesses, 47 for each item,
/// and 4 for each word placed.
pub fn list<M: Memory, L: Ledger>(
    ground: &mut Ground<M>,
    registers: &mut [Word],
    object: NewObject,
    items: &Items,
    steps: &mut Steps<L>,
) -> Result<Reply, SwapFault>
    requires consistent { RepresentsState (view ground.old) registers.old }
    requires to { object.to < length registers.old }
    requires at_least { 1 ≤ length items.now }
    requires in_range { All (λ item. item < length registers.old) items.now }
    requires area { object.area < areas_of ground.old.table }
    requires level { object.level < levels_of ground.old.table }
    requires fits { account_of ground.old.table object.area + 3 * length items.now ≤ quota_of ground.old.table object.area }

    // what is performed, and that the list is one of cells
    ensures performs { PerformsAt (view ground.old) registers.old (view ground.new) registers.new (Command.List object.to object.area items.now) (reply_of result) object.area object.level }
    ensures cells { OnOk result (RefersToCells (view ground.new).mem.store.words (get_or registers.new object.to null_word) (length items.now)) }
    ensures unmarked { OnOk result (MarksMade (view ground.old) (view ground.new) (get_or registers.new object.to null_word) (length items.now)) }

    // costs and swap errors
    ensures costs { CommandCosts (view ground.old) (view ground.new) steps.old steps.new result ((MAX_OBJECT_WORDS + 1) * length items.now) ((SETTLE_ACCESSES + 1) * length items.now + 5) }
{
    settle_items(ground, registers, items.as_slice(), steps)?;
    let at = make_list(ground, object.area, object.level, registers, items, steps)?;
    registers[object.to as usize] = Word::list_at(at);
    Ok(Reply::Fine)
}
