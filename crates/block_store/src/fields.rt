//! Reads and writes fields.
ghost use Rattle.std.specs.Prelude.{◌≡◌, ◌≢◌, ◌↔◌, ℕ, suc, ◌+◌, ◌<◌, ◌≤◌, Err, IfOk, OnOk, OnErr, ◌^◌, length as list_length};
ghost use Rattle.mem_port.specs.View.{AccountsForFaultsIf, shown};
ghost use Rattle.area_space.specs.View.{view};
ghost use Rattle.block_store.specs.Faults.{is_fault};
ghost use Rattle.block_store.specs.Views.{CanSet, IsReadable, KeepsBlock, MarksField, ReadsField, SetsField, TellsLength};
ghost use Rattle.transporter.specs.Views.{NoOldAddresses, FetchMoves, LiveWordsUnchanged, MovesAtMost, SettlesAt, PreservesScanned};
ghost use Rattle.store_word.specs.Words.{tag_of};
ghost use Rattle.store_word.specs.declared.word.Content.TheVariants.{Struct as StructAt};
ghost use Rattle.mem_port.specs.Store.{StoresNothing};
ghost use Rattle.obj_layout.specs.Forwards.{Final};
ghost use Rattle.transporter.specs.LiveWordsUnchanged.{OnlyGrows};
ghost use Rattle.transporter.specs.Reads.{KeepsGround, ReadCosts};
ghost use Rattle.transporter.specs.Settling.{RefersToOld};
ghost use Rattle.block_store.specs.Headers.{CanFind};
ghost use Rattle.block_store.specs.Fields.{IsFieldPlace, LacksField, WritesField};

use crate::fault::BlockFault;
use crate::header::find;
use area_space::Ground;
use mem_port::Memory;
use std::sync::ledger::Ledger;
use store_word::{CdrCode, Steps, SwapFault, Tag, Word};
use transporter::{FIND_ACCESSES, SETTLE_ACCESSES, fetch};

// The address of the field of this index of the block to which a word refers. It takes at most 13
// memory accesses.
fn find_field<M: Memory, L: Ledger>(
    mem: &mut M,
    of: Word,
    index: u32,
    steps: &mut Steps<L>,
) -> Result<u32, BlockFault>
    requires can { CanFind (M.seen mem.old).words of.content }
    requires fits { list_length (M.seen mem.old).words < 2 ^ 28 }
    ensures place { IfOk result (IsFieldPlace (M.seen mem.old).words of.content index) }
    ensures refused { (result ≡ Err BlockFault.NotABlock) ↔ (tag_of of.content ≢ Tag.Struct) }
    ensures no_field { (count : ℕ) → result ≡ Err (BlockFault.NoField count) → LacksField (M.seen mem.old).words of.content index count }
    ensures unchanged { StoresNothing (M.seen mem.old) (M.seen mem.new) }
    ensures accounted { AccountsForFaultsIf (shown M.Memory mem.old) (shown M.Memory mem.new) steps.old steps.new (is_fault result) }
    ensures cost { steps.new ≤ steps.old + FIND_ACCESSES }
{
    let head = find(mem, of, steps)?;
    if index >= head.length as u32 {
        return Err(BlockFault::NoField {
            length: head.length,
        });
    }
    Ok(head.at + 1 + index)
}

/// Writes a settled word into the field of this index, counted from 0, of the block to which a word
/// refers. The word there keeps its cdr code.
///
/// `NotABlock` is returned if and only if the word isn't tagged STRUCT; `NoField` if and only if the
/// index is at least the number of fields, unless the call returns `Swap`. A refusal
/// stores nothing. It takes at most 15 memory accesses.
pub fn set_field<M: Memory, L: Ledger>(
    ground: &mut Ground<M>,
    of: Word,
    index: u32,
    value: Word,
    steps: &mut Steps<L>,
) -> Result<(), BlockFault>
    requires { CanSet (view ground.old) of.content value }

    // What is written.
    ensures set { OnOk result (SetsField (view ground.old) (view ground.new).mem.store of.content index value.content) }
    ensures written { OnOk result (WritesField (view ground.old).mem.store (view ground.new).mem.store of.content index value) }
    ensures in_range { OnOk result ((count : ℕ) × TellsLength (view ground.old) of.content count × (index < count)) }

    // What is refused, and what a refusal leaves unchanged.
    ensures refused { (result ≡ Err BlockFault.NotABlock) ↔ (tag_of of.content ≢ Tag.Struct) }
    ensures no_field { (count : ℕ) → result ≡ Err (BlockFault.NoField count) → TellsLength (view ground.old) of.content count × (count ≤ index) }
    ensures unchanged { OnErr result (StoresNothing (view ground.old).mem.store (view ground.new).mem.store) }

    // What is unchanged in the ground.
    ensures table { ground.new.table ≡ ground.old.table }
    ensures moves { (RefersToOld ground.old.table of → ⊥) → MovesAtMost (view ground.old) (view ground.new) 0 }
    ensures preserves { PreservesScanned (view ground.old) (view ground.new) }
    ensures stays_fresh { NoOldAddresses (view ground.old) → NoOldAddresses (view ground.new) }
    ensures marks { MarksField (view ground.old) (view ground.new) of.content index }

    // Swap errors and the cost.
    ensures accounted { AccountsForFaultsIf (view ground.old).mem (view ground.new).mem steps.old steps.new (is_fault result) }
    ensures cost { steps.new ≤ steps.old + FIND_ACCESSES + 2 }
{
    let at = find_field(&mut ground.mem, of, index, steps)?;
    let old = ground.mem.read(at, steps)?;
    ground.mem.write(at, value.with_cdr(old.cdr_code()), steps)?;
    Ok(())
}

/// The field of this index, counted from 0, of the block to which a settled word refers, settled and
/// written back if that changes it. It has no old address, and no cdr code.
///
/// The caller must ensure that a running collection keeps the block. `NotABlock` is returned if and only if
/// the word isn't tagged STRUCT; `NoField` if and only if the index is at least the number of
/// fields, unless the call returns `Swap`. If it doesn't, it takes at most 61 memory accesses and 4
/// for each word that is placed, at most 2,048; if it does, at most 1,024 more. Any
/// refusal leaves every used word of a live region unchanged; an object may have moved.
pub fn field<M: Memory, L: Ledger>(
    ground: &mut Ground<M>,
    of: Word,
    index: u32,
    steps: &mut Steps<L>,
) -> Result<Word, BlockFault>
    requires { IsReadable (view ground.old) of }

    // What is returned, and what is written back for it.
    ensures value { IfOk result (ReadsField (view ground.old) (view ground.new) of.content index) }
    ensures fresh { IfOk result (λ word. RefersToOld ground.new.table word → ⊥) }
    ensures word { IfOk result (λ word. word.cdr ≡ CdrCode.Next) }
    ensures written { IfOk result (λ word. (at to : ℕ) → of.content ≡ StructAt at → Final (view ground.old).mem.store.words at to
        → SettlesAt (view ground.old) (view ground.new) (suc to + index) word.content) }
    ensures in_range { OnOk result ((count : ℕ) × TellsLength (view ground.old) of.content count × (index < count)) }
    ensures words { OnOk result ((at to : ℕ) → of.content ≡ StructAt at → Final (view ground.old).mem.store.words at to
        → FetchMoves (view ground.old) (view ground.new) (suc to + index)) }

    // What is refused.
    ensures refused { (result ≡ Err BlockFault.NotABlock) ↔ (tag_of of.content ≢ Tag.Struct) }
    ensures no_field { (count : ℕ) → result ≡ Err (BlockFault.NoField count) → TellsLength (view ground.old) of.content count × (count ≤ index) }

    // What is unchanged in the ground.
    ensures stays_ground { KeepsGround (view ground.old) (view ground.new) }
    ensures grows { OnlyGrows ground.old.table ground.new.table }
    ensures live { OnErr result (LiveWordsUnchanged (view ground.old) (view ground.new)) }
    ensures fault { OnErr result (KeepsBlock (view ground.old) (view ground.new) of.content) }

    // Swap errors and the cost.
    ensures accounted { AccountsForFaultsIf (view ground.old).mem (view ground.new).mem steps.old steps.new (is_fault result) }
    ensures costs { ReadCosts (view ground.old) (view ground.new) steps.old steps.new (is_fault result) (FIND_ACCESSES + SETTLE_ACCESSES + 2) }
{
    let at = find_field(&mut ground.mem, of, index, steps)?;
    let word = fetch(ground, at, steps)?;
    Ok(word.with_cdr(CdrCode::Next))
}
