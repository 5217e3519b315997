//! Blocks in registers grow.
ghost use Rattle.std.specs.Prelude.{◌≡◌, ◌≢◌, ◌+◌, ◌-◌, ◌*◌, ◌<◌, ◌≤◌, length as list_length, OnOk, IfOk};
ghost use Rattle.mem_port.specs.View.{AccountsForFaultsIf};
ghost use Rattle.area_space.specs.View.{view};
ghost use Rattle.heap_commands.specs.Growth.{is_found_fault};
ghost use Rattle.heap_commands.specs.Views.{CanGrowIn, Finds, MarksGrowth, PlacesGrowth};
ghost use Rattle.heap_state.specs.Reads.{is_fault, reply_of};
ghost use Rattle.heap_state.specs.Views.{RepresentsSame, RepresentsState, Performs};
ghost use Rattle.block_store.specs.transporter.Views.{NoOldAddresses, MarksFollow, PreservesScanned};
ghost use Rattle.heap_state.specs.Settled.{IsSettled, NoOldAddressesInRegisters};
ghost use Rattle.block_store.specs.transporter.Preserving.{RegistersPreserved};

use crate::blocks::refusal::refusal;
use area_space::Ground;
use block_store::{block_size, grown_length};
use heap_state::{FIND_ACCESSES, SETTLE_ACCESSES, settle_register};
use lisp_graph::{Command, Reply};
use mem_port::Memory;
use std::sync::ledger::Ledger;
use store_word::{MAX_OBJECT_WORDS, Steps, SwapFault, Word};

/// What `find_growing` finds before a block grows.
#[derive(Clone, Copy, Debug)]
pub enum Growing {
    /// The reply is known: the register holds no block, or the block has the requested fields, or the swap
    /// device failed.
    Answered(Reply),
    /// The block has to grow: this area will be charged this number of words.
    Wants { area: u8, charge: u32 },
}

/// `grow`, up to the test of the quota: finds the reply, or what the block will be charged. It
/// places at most 2,048 words. If no swap error occurs, it takes at most 59 memory accesses, and 4 for each word
/// placed.
pub fn find_growing<M: Memory, L: Ledger>(
    ground: &mut Ground<M>,
    registers: &mut [Word],
    target: u8,
    wanted: u16,
    steps: &mut Steps<L>,
) -> Growing
    requires at_most { wanted ≤ 2047 }
    requires consistent { RepresentsState (view ground.old) registers.old }
    requires target { target < list_length registers.old }

    // what is found
    ensures finds { Finds (view ground.old) registers.old (view ground.new) registers.new target wanted result }

    // what stays
    ensures represented { RepresentsSame (view ground.old) registers.old (view ground.new) registers.new }
    ensures registers { RegistersPreserved ground.new.table registers.old registers.new }
    ensures preserves { PreservesScanned (view ground.old) (view ground.new) }
    ensures stays_fresh { NoOldAddressesInRegisters ground.old.table registers.old → NoOldAddresses (view ground.old) → NoOldAddresses (view ground.new) }
    ensures marks { MarksFollow (view ground.old) (view ground.new) }

    // costs and swap errors
    ensures accounted { AccountsForFaultsIf (view ground.old).mem (view ground.new).mem steps.old steps.new (is_found_fault result) }
    ensures placed { ground.new.table.placed ≤ ground.old.table.placed + MAX_OBJECT_WORDS }
    ensures cost { result ≢ Growing.Answered Reply.Fault → steps.new ≤ steps.old + 4 * (ground.new.table.placed - ground.old.table.placed) + (SETTLE_ACCESSES + FIND_ACCESSES) }
{
    let Ok(word) = settle_register(ground, registers, target, steps) else {
        return Growing::Answered(Reply::Fault);
    };
    match block_size(ground, word, steps) {
        Ok(block) if block.length < wanted => Growing::Wants {
            area: block.area,
            charge: grown_length(block.length, wanted) as u32 + 1,
        },
        Ok(_) => Growing::Answered(Reply::Fine),
        Err(fault) => Growing::Answered(refusal(fault).unwrap_or(Reply::Fault)),
    }
}

/// `grow` of the block in a settled register, which has fewer fields, and whose charge fits the quota
/// of its area. It takes at most 40 memory accesses, and 4 for each requested field. If no swap error occurs, the
/// block has grown, and the number of words placed is its charge.
pub fn grow<M: Memory, L: Ledger>(
    ground: &mut Ground<M>,
    registers: &[Word],
    target: u8,
    wanted: u16,
    steps: &mut Steps<L>,
) -> Result<Reply, SwapFault>
    requires at_most { wanted ≤ 2047 }
    requires target { target < list_length registers.now }
    requires settled { IsSettled ground.old.table registers.now target }
    requires can { CanGrowIn (view ground.old) registers.now target wanted }

    // what is performed
    ensures performs { Performs (view ground.old) registers.now (view ground.new) registers.now (Command.Grow target wanted) (reply_of result) }
    ensures unmarked { OnOk result (MarksGrowth (view ground.old) registers.now (view ground.new) target wanted) }

    // swap errors
    ensures accounted { AccountsForFaultsIf (view ground.old).mem (view ground.new).mem steps.old steps.new (is_fault (reply_of result)) }
    ensures succeeds { IfOk result (λ reply. reply ≡ Reply.Fine) }

    // costs
    ensures placed { OnOk result (PlacesGrowth (view ground.old) registers.now ground.new.table target wanted) }
    ensures cost { steps.new ≤ steps.old + 4 * wanted + 40 }
{
    match block_store::grow(ground, registers[target as usize], wanted, steps) {
        Ok(_) => Ok(Reply::Fine),
        Err(fault) => refusal(fault),
    }
}
