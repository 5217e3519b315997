//! Calls that make nothing, and calls that grow a block.
ghost use Rattle.std.specs.Prelude.{◌≡◌, ◌<◌, ◌≤◌, length, IfSome, IfNone};
ghost use Rattle.area_space.specs.View.{view};
ghost use Rattle.heap_commands.specs.Views.{WantsGrowth};
ghost use Rattle.heap_state.specs.Reads.{reply_of};
ghost use Rattle.heap_state.specs.Views.{RepresentsState};
ghost use Rattle.test_collect.specs.Views.{IsPlayed};

use area_space::Ground;
use heap_commands::{Growing, find_growing};
use lisp_graph::{CommandHead, Reply};
use mem_port::Memory;
use std::sync::ledger::Ledger;
use store_word::{Steps, SwapFault, Word};

/// The reply to a command: its answer, or `fault` if a page call failed.
pub(crate) fn reply_of(answer: Result<Reply, SwapFault>) -> Reply
    ensures { result ≡ reply_of answer }
{
    match answer {
        Ok(reply) => reply,
        Err(_) => Reply::Fault,
    }
}

/// Does a command that makes nothing, grows nothing and doesn't collect; None if it is another command or names no register.
pub(crate) fn act<M: Memory, L: Ledger>(
    ground: &mut Ground<M>,
    registers: &mut [Word],
    command: CommandHead,
    steps: &mut Steps<L>,
) -> Option<Reply>
    requires consistent { RepresentsState (view ground.old) registers.old }
    requires size { length registers.old ≡ 8 }
    ensures some { IfSome result (λ _. IsPlayed (view ground.old) registers.old (view ground.new) registers.new) }
    ensures none { IfNone result (((view ground.new).mem.store ≡ (view ground.old).mem.store) × (ground.new.table ≡ ground.old.table) × (registers.new ≡ registers.old)) }
{
    match command {
        CommandHead::Move { to, from } if to < 8 && from < 8 => Some(reply_of(
            heap_commands::copy_register(ground, registers, to, from, steps),
        )),
        CommandHead::Car { to, from } if to < 8 && from < 8 => Some(reply_of(heap_commands::car(
            ground, registers, to, from, steps,
        ))),
        CommandHead::Cdr { to, from } if to < 8 && from < 8 => Some(reply_of(heap_commands::cdr(
            ground, registers, to, from, steps,
        ))),
        CommandHead::Rplaca { target, from } if target < 8 && from < 8 => Some(reply_of(
            heap_commands::rplaca(ground, registers, target, from, steps),
        )),
        CommandHead::Rplacd { target, from } if target < 8 && from < 8 => Some(reply_of(
            heap_commands::rplacd(ground, registers, target, from, steps),
        )),
        CommandHead::Get { to, from, index } if to < 8 && from < 8 => Some(reply_of(
            heap_commands::get(ground, registers, to, from, index, steps),
        )),
        CommandHead::Put {
            target,
            index,
            from,
        } if target < 8 && from < 8 => Some(reply_of(heap_commands::put(
            ground, registers, target, index, from, steps,
        ))),
        CommandHead::Size { of } if of < 8 => Some(reply_of(heap_commands::size(
            ground, registers, of, steps,
        ))),
        CommandHead::Eq { left, right } if left < 8 && right < 8 => Some(reply_of(heap_commands::eq(
            ground, registers, left, right, steps,
        ))),
        _ => None,
    }
}

/// Grows the block in a register; None if the quota of its area doesn't allow the new charge, or if it isn't a block.
pub(crate) fn grow<M: Memory, L: Ledger>(
    ground: &mut Ground<M>,
    registers: &mut [Word],
    target: u8,
    fields: u16,
    steps: &mut Steps<L>,
) -> Option<Reply>
    requires consistent { RepresentsState (view ground.old) registers.old }
    requires target { target < length registers.old }
    requires at_most { fields ≤ 2047 }
    ensures { IsPlayed (view ground.old) registers.old (view ground.new) registers.new }
{
    match find_growing(ground, registers, target, fields, steps) {
        Growing::Answered(reply) => Some(reply),
        Growing::Wants { area, charge } => grow_found(
            ground, registers, target, fields, area, charge, steps,
        ),
    }
}

// Grows a block that was found, if the quota allows its charge.
fn grow_found<M: Memory, L: Ledger>(
    ground: &mut Ground<M>,
    registers: &[Word],
    target: u8,
    fields: u16,
    area: u8,
    charge: u32,
    steps: &mut Steps<L>,
) -> Option<Reply>
    requires consistent { RepresentsState (view ground.old) registers.now }
    requires target { target < length registers.now }
    requires at_most { fields ≤ 2047 }
    requires can { WantsGrowth (view ground.old) registers.now target fields area charge }
    ensures { IsPlayed (view ground.old) registers.now (view ground.new) registers.now }
{
    let _regions = ground.table.regions();
    if ground.table.quota(area) - ground.table.account(area) < charge {
        return None;
    }
    Some(reply_of(heap_commands::grow(ground, registers, target, fields, steps)))
}
