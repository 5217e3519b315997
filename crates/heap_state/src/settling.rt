//! Settles registers before a command reads them.
ghost use Rattle.std.specs.Prelude.{◌≡◌, ◌+◌, ◌-◌, ◌*◌, ◌<◌, ◌≤◌, IfOk, OnOk, OnErr, get_or, length, slice_set};
ghost use Rattle.mem_port.specs.View.{AccountsForFaults};
ghost use Rattle.area_space.specs.View.{view};
ghost use Rattle.heap_state.specs.Views.{RepresentsSame, RepresentsState};
ghost use Rattle.transporter.specs.Views.{NoOldAddresses, MarksFollow, MovesAtMost, MovesFor, PreservesScanned};
ghost use Rattle.std.specs.List.{All};
ghost use Rattle.store_word.specs.Words.{null_word};
ghost use Rattle.transporter.specs.Settling.{RefersToOld};
ghost use Rattle.transporter.specs.Preserving.{RegistersPreserved};
ghost use Rattle.heap_state.specs.Settled.{IsSettled, NoOldAddressesInRegisters};

use area_space::Ground;
use mem_port::Memory;
use std::sync::ledger::Ledger;
use store_word::{MAX_OBJECT_WORDS, Steps, SwapFault, Word};
use transporter::{SETTLE_ACCESSES, settle};

/// Settles a register (the read barrier): if its word refers to an old address, the word gets the live
/// address of that object, which a collection moves there if it hasn't yet. It returns the word. While no
/// collection runs no address is old, and the word isn't looked at.
///
/// Whatever it returns, the ground and the registers represent the same states, and at most
/// 2,048 words are placed. If no swap error occurs, it takes at most 46 memory accesses and 4 for each word
/// placed. A swap error is returned only if the count of swap errors rose.
#[inline(always)]
pub fn settle_register<M: Memory, L: Ledger>(
    ground: &mut Ground<M>,
    registers: &mut [Word],
    register: u8,
    steps: &mut Steps<L>,
) -> Result<Word, SwapFault>
    requires consistent { RepresentsState (view ground.old) registers.old }
    requires in_range { register < length registers.old }

    // What the words represent is unchanged, and the register is settled.
    ensures represented { RepresentsSame (view ground.old) registers.old (view ground.new) registers.new }
    ensures word { IfOk result (λ word. get_or registers.new register null_word ≡ word) }
    ensures fresh { IfOk result (λ word. RefersToOld ground.new.table word → ⊥) }

    // Which words move.
    ensures words { IfOk result (MovesFor (view ground.old) (view ground.new) (get_or registers.old register null_word)) }
    ensures moves { MovesAtMost (view ground.old) (view ground.new) 1 }

    // What is unchanged in the registers and the ground.
    ensures set { IfOk result (λ word. registers.new ≡ slice_set registers.old register word) }
    ensures unchanged { OnErr result (registers.new ≡ registers.old) }
    ensures registers { RegistersPreserved ground.new.table registers.old registers.new }
    ensures preserves { PreservesScanned (view ground.old) (view ground.new) }
    ensures stays_fresh { NoOldAddressesInRegisters ground.old.table registers.old → NoOldAddresses (view ground.old) → NoOldAddresses (view ground.new) }
    ensures marks { MarksFollow (view ground.old) (view ground.new) }

    // Swap errors.
    ensures accounted { AccountsForFaults (view ground.old).mem (view ground.new).mem steps.old steps.new result }

    // What is placed, and the cost.
    ensures at_most { ground.new.table.placed ≤ ground.old.table.placed + MAX_OBJECT_WORDS }
    ensures cost { OnOk result (steps.new ≤ steps.old + 4 * (ground.new.table.placed - ground.old.table.placed) + SETTLE_ACCESSES) }
{
    let word = registers[register as usize];
    if !ground.table.is_collecting() {
        return Ok(word);
    }
    let settled = settle(ground, word, steps)?;
    registers[register as usize] = settled;
    Ok(settled)
}

/// Settles the registers of a list of them, one after another. While no collection runs none is looked at.
///
/// Whatever it returns, the ground and the registers represent the same states, and at most
/// 2,048 words are placed for each register of the list. If no swap error occurs, it takes at most 46
/// memory accesses for each, and 4 for each word placed. A swap error is returned only if the count of swap errors rose.
#[inline(always)]
pub fn settle_items<M: Memory, L: Ledger>(
    ground: &mut Ground<M>,
    registers: &mut [Word],
    items: &[u8],
    steps: &mut Steps<L>,
) -> Result<(), SwapFault>
    requires consistent { RepresentsState (view ground.old) registers.old }
    requires in_range { All (λ item. item < length registers.old) items.now }

    // What the words represent is unchanged, and the registers of the list are settled.
    ensures represented { RepresentsSame (view ground.old) registers.old (view ground.new) registers.new }
    ensures fresh { OnOk result (All (λ item. IsSettled ground.new.table registers.new item) items.now) }

    // Which words move.
    ensures moves { MovesAtMost (view ground.old) (view ground.new) (length items.now) }

    // What is unchanged in the registers and the ground.
    ensures registers { RegistersPreserved ground.new.table registers.old registers.new }
    ensures preserves { PreservesScanned (view ground.old) (view ground.new) }
    ensures stays_fresh { NoOldAddressesInRegisters ground.old.table registers.old → NoOldAddresses (view ground.old) → NoOldAddresses (view ground.new) }
    ensures marks { MarksFollow (view ground.old) (view ground.new) }

    // Swap errors.
    ensures accounted { AccountsForFaults (view ground.old).mem (view ground.new).mem steps.old steps.new result }

    // What is placed, and the cost.
    ensures at_most { ground.new.table.placed ≤ ground.old.table.placed + MAX_OBJECT_WORDS * length items.now }
    ensures cost { OnOk result (steps.new ≤ steps.old + 4 * (ground.new.table.placed - ground.old.table.placed) + SETTLE_ACCESSES * length items.now) }
{
    if !ground.table.is_collecting() {
        return Ok(());
    }
    for i in 0..items.len() {
        settle_register(ground, registers, items[i], steps)?;
    }
    Ok(())
}
