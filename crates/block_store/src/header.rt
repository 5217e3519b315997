//! Finds a block by a reference, and reads its header.
ghost use Rattle.std.specs.Prelude.{◌≡◌, ◌≢◌, ◌↔◌, ◌+◌, ◌/◌, ◌<◌, ◌≤◌, ℕ, Err, IfOk};
ghost use Rattle.mem_port.specs.View.{AccountsForFaultsIf, shown};
ghost use Rattle.area_space.specs.View.{view};
ghost use Rattle.block_store.specs.Faults.{is_fault};
ghost use Rattle.block_store.specs.Views.{HasMeaning, TellsArea, TellsCode, TellsLength};
ghost use Rattle.store_word.specs.Words.{tag_of};
ghost use Rattle.mem_port.specs.Store.{StoresNothing};
ghost use Rattle.area_space.specs.Table.{areas_of, IsLive};
ghost use Rattle.area_space.specs.Sound.{IsTable};
ghost use Rattle.transporter.specs.Settling.{RefersToOld};
ghost use Rattle.block_store.specs.Headers.{CanFind, IsHead, IsLiveIn};
ghost use Rattle.block_store.specs.Looks.{LooksAtBlock};

use crate::fault::BlockFault;
use area_space::{Class, Ground, RegionTable};
use mem_port::Memory;
use obj_layout::{first_word, resolve_first};
use std::sync::ledger::Ledger;
use store_word::{Content, REGION_WORDS, Steps, Tag, Word};
use transporter::FIND_ACCESSES;

/// The address of a block, and what its header says.
#[derive(Clone, Copy)]
pub(crate) struct Head {
    pub at: u32,
    pub code: u16,
    pub length: u16,
}

// The block to which a word refers. Its header is read once. It takes at most 13 memory accesses.
pub(crate) fn find<M: Memory, L: Ledger>(
    mem: &mut M,
    of: Word,
    steps: &mut Steps<L>,
) -> Result<Head, BlockFault>
    requires { CanFind (M.seen mem.old).words of.content }
    ensures value { IfOk result (IsHead (M.seen mem.old).words of.content) }
    ensures at_most { IfOk result (λ head. head.length ≤ 2047) }
    ensures refused { (result ≡ Err BlockFault.NotABlock) ↔ (tag_of of.content ≢ Tag.Struct) }
    ensures no_field { (count : ℕ) → result ≢ Err (BlockFault.NoField count) }
    ensures unchanged { StoresNothing (M.seen mem.old) (M.seen mem.new) }
    ensures accounted { AccountsForFaultsIf (shown M.Memory mem.old) (shown M.Memory mem.new) steps.old steps.new (is_fault result) }
    ensures cost { steps.new ≤ steps.old + FIND_ACCESSES }
{
    match of.content() {
        Content::Struct(reference) => {
            let found = resolve_first(mem, reference, steps)?;
            let at = found.at;
            let header = first_word(mem, found, steps)?;
            let (code, length) = header.header_parts().unwrap();
            Ok(Head { at, code, length })
        }
        _ => Err(BlockFault::NotABlock),
    }
}

/// How many fields the block has to which a word refers, 2,047 at most. `NotABlock` is returned if and only if the
/// word isn't tagged STRUCT, `Swap` only if the count of swap errors rose, and `NoField` never. It takes
/// at most 13 memory accesses, and stores nothing.
pub fn length<M: Memory, L: Ledger>(
    ground: &mut Ground<M>,
    of: Word,
    steps: &mut Steps<L>,
) -> Result<u16, BlockFault>
    requires { HasMeaning (view ground.old) of.content }
    ensures value { IfOk result (TellsLength (view ground.old) of.content) }
    ensures at_most { IfOk result (λ count. count ≤ 2047) }
    ensures costs { LooksAtBlock (view ground.old) (view ground.new) of result steps.old steps.new }
{
    let head = find(&mut ground.mem, of, steps)?;
    Ok(head.length)
}

/// The code of the block to which a word refers, with the same refusals. It takes at most 13 memory accesses,
/// and stores nothing.
pub fn code<M: Memory, L: Ledger>(
    ground: &mut Ground<M>,
    of: Word,
    steps: &mut Steps<L>,
) -> Result<u16, BlockFault>
    requires { HasMeaning (view ground.old) of.content }
    ensures value { IfOk result (TellsCode (view ground.old) of.content) }
    ensures costs { LooksAtBlock (view ground.old) (view ground.new) of result steps.old steps.new }
{
    let head = find(&mut ground.mem, of, steps)?;
    Ok(head.code)
}

// The class of an address in a live region.
pub(crate) fn class_of_live(table: &RegionTable, at: u32) -> Class
    requires in_range { at / REGION_WORDS < table.now.regions }
    requires live { IsLive table.now (at / REGION_WORDS) }
    ensures value { IsLiveIn table.now at result }
    ensures sound { IsTable table.now }
{
    table.class_of(at).unwrap()
}

/// How many fields a block has, and the place of its area in the world's list.
#[derive(Clone, Copy, Debug)]
pub struct BlockSize {
    pub length: u16,
    pub area: u8,
}

/// The number of fields and the area of the block to which a settled word refers, with the same
/// refusals. It takes at most 13 memory accesses, and stores nothing.
pub fn block_size<M: Memory, L: Ledger>(
    ground: &mut Ground<M>,
    of: Word,
    steps: &mut Steps<L>,
) -> Result<BlockSize, BlockFault>
    requires represented { HasMeaning (view ground.old) of.content }
    requires fresh { RefersToOld ground.old.table of → ⊥ }
    ensures size { IfOk result (λ extent. TellsLength (view ground.old) of.content extent.length) }
    ensures area { IfOk result (λ extent. TellsArea (view ground.old) of.content extent.area) }
    ensures in_range { IfOk result (λ extent. extent.area < areas_of ground.old.table) }
    ensures costs { LooksAtBlock (view ground.old) (view ground.new) of result steps.old steps.new }
{
    let head = find(&mut ground.mem, of, steps)?;
    let class = class_of_live(&ground.table, head.at);
    Ok(BlockSize {
        length: head.length,
        area: class.area,
    })
}
