//! Words of new objects: a place for them, and how they are written.
ghost use Rattle.std.specs.Prelude.{◌≡◌, ◌+◌, ◌*◌, ◌<◌, ◌≤◌, OnOk, length};
ghost use Rattle.mem_port.specs.Store.{IsMemory};
ghost use Rattle.area_space.specs.View.{view};
ghost use Rattle.area_space.specs.Views.{IsGround, NamesNoFree};
ghost use Rattle.test_ground.specs.Views.{Reserves};
ghost use Rattle.area_space.specs.Table.{areas_of, quota_of};
ghost use Rattle.area_space.specs.Accounts.{account_of};
ghost use Rattle.area_space.specs.Room.{RoomRule, words_of_area};
ghost use Rattle.transporter.specs.Writes.{Writes};
ghost use Rattle.test_ground.specs.Written.{IsMade, pair_of, cell_of, block_of};

use area_space::{Ground, Origin};
use mem_port::Memory;
use std::sync::ledger::Ledger;
use store_word::{CdrCode, Steps, SwapFault, Word};

/// A place for an object in area 0 at level 0, committed. The charge is within the quota; that of a pair
/// which a cell has paid for is 0.
pub(crate) fn reserve<M: Memory>(
    ground: &mut Ground<M>,
    words: u32,
    charge: u32,
    origin: Origin,
) -> u32
    requires at_least { 0 < words }
    requires at_most { words ≤ 2048 }
    requires area { 0 < areas_of ground.old.table }
    requires room { RoomRule ground.old.table }
    requires in_range { words_of_area ground.old.table 0 + words ≤ 2 * quota_of ground.old.table 0 }
    requires fits { account_of ground.old.table 0 + charge ≤ quota_of ground.old.table 0 }
    requires made { IsMade charge origin }
    requires ground { IsGround (view ground.old) }
    requires named { NamesNoFree (view ground.old) }
    ensures { Reserves (view ground.old) (view ground.new) result words charge origin }
{
    let placed = ground.place(0, 0, words);
    ground.commit(&placed, words, charge, origin);
    placed.at
}

/// Writes a pair, by the code of its second word.
pub(crate) fn write_pair<M: Memory, L: Ledger>(
    mem: &mut M,
    at: u32,
    car: Word,
    cdr: Word,
    code: CdrCode,
    steps: &mut Steps<L>,
) -> Result<(), SwapFault>
    requires in_range { at + 2 ≤ length (M.seen mem.old).words }
    requires sound { IsMemory (M.seen mem.old) }
    ensures sound { IsMemory (M.seen mem.new) }
    ensures size { length (M.seen mem.new).words ≡ length (M.seen mem.old).words }
    ensures written { OnOk result (Writes (M.seen mem.old) (M.seen mem.new) at 2 (pair_of code car cdr)) }
{
    mem.write(at, car.with_cdr(CdrCode::Normal), steps)?;
    mem.write(at + 1, cdr.with_cdr(code), steps)?;
    Ok(())
}

/// Writes cells whose cars are their numbers; the last is coded nil.
pub(crate) fn write_cells<M: Memory, L: Ledger>(
    mem: &mut M,
    at: u32,
    count: u16,
    steps: &mut Steps<L>,
) -> Result<(), SwapFault>
    requires in_range { at + count ≤ length (M.seen mem.old).words }
    requires sound { IsMemory (M.seen mem.old) }
    ensures sound { IsMemory (M.seen mem.new) }
    ensures size { length (M.seen mem.new).words ≡ length (M.seen mem.old).words }
    ensures written { OnOk result (Writes (M.seen mem.old) (M.seen mem.new) at count (cell_of count)) }
{
    for i in 0..count {
        mem.write(at + i as u32, cell(count, i), steps)?;
    }
    Ok(())
}

// A cell that is numbered.
fn cell(count: u16, i: u16) -> Word
    requires { i < count }
    ensures { result ≡ cell_of count i }
{
    let word = Word::fixnum(i as i32);
    if i + 1 == count {
        word.with_cdr(CdrCode::Nil)
    } else {
        word
    }
}

/// Writes a block whose fields are nil.
pub(crate) fn write_block<M: Memory, L: Ledger>(
    mem: &mut M,
    at: u32,
    fields: u16,
    steps: &mut Steps<L>,
) -> Result<(), SwapFault>
    requires at_most { fields ≤ 2047 }
    requires in_range { at + fields + 1 ≤ length (M.seen mem.old).words }
    requires sound { IsMemory (M.seen mem.old) }
    ensures sound { IsMemory (M.seen mem.new) }
    ensures size { length (M.seen mem.new).words ≡ length (M.seen mem.old).words }
    ensures written { OnOk result (Writes (M.seen mem.old) (M.seen mem.new) at (fields + 1) (block_of fields)) }
{
    mem.write(at, Word::header(0, fields), steps)?;
    for i in 0..fields as u32 {
        mem.write(at + 1 + i, Word::nil(), steps)?;
    }
    Ok(())
}
