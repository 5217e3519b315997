//! A new block in its class.
ghost use Rattle.std.specs.Prelude.{◌≡◌, ◌+◌, ◌<◌, ◌≤◌, ◌^◌, ℕ, IsOk, IfOk, OnOk, OnErr, length as list_length};
ghost use Rattle.mem_port.specs.View.{WithoutFault, AccountsForFaults, shown};
ghost use Rattle.area_space.specs.View.{view};
ghost use Rattle.block_store.specs.Views.{CanMake, MakesBlock};
ghost use Rattle.transporter.specs.Views.{NoOldAddresses, LiveWordsUnchanged, MarksFollow, WordsUnchanged, PreservesScanned};
ghost use Rattle.mem_port.specs.Spans.{HoldsSpan};
ghost use Rattle.mem_port.specs.Store.{StoresNothing};
ghost use Rattle.mem_port.specs.declared.spans.Span.{Span};
ghost use Rattle.obj_layout.specs.Forwards.{word_at};
ghost use Rattle.transporter.specs.Growth.{OpensOrStays};
ghost use Rattle.transporter.specs.Making.{PlacesNew};
ghost use Rattle.transporter.specs.Writes.{Writes};
ghost use Rattle.block_store.specs.Making.{block_word};
ghost use Rattle.transporter.specs.WrittenMarks.{MarksByWords};
ghost use Rattle.block_store.specs.Opening.{OpensAsNeeded};
ghost use Rattle.area_space.specs.Table.{slot_of};

use crate::widening::fill;
use area_space::{Ground, Origin};
use mem_port::{Memory, Span, hold_spans};
use std::sync::ledger::Ledger;
use store_word::{Steps, SwapFault, Word};
use transporter::place_for;

// Writes a header and NIL in each field. All their pages are held, so no swap error occurs. It takes one memory access a
// word.
fn write_block<M: Memory, L: Ledger>(
    mem: &mut M,
    at: u32,
    code: u16,
    length: u16,
    steps: &mut Steps<L>,
) -> Result<(), SwapFault>
    requires at_most { length ≤ 2047 }
    requires in_range { at + length + 1 ≤ list_length (M.seen mem.old).words }
    requires held { HoldsSpan (M.held mem.old) (record { at = at; words = length + 1 }) }
    ensures succeeds { IsOk result }
    ensures written { Writes (M.seen mem.old) (M.seen mem.new) at (length + 1) (block_word code length) }
    ensures no_fault { WithoutFault (shown M.Memory mem.old) (shown M.Memory mem.new) steps.old steps.new }
    ensures cost { steps.new ≡ steps.old + length + 1 }
{
    mem.write(at, Word::header(code, length), steps)?;
    fill(mem, at + 1, length as u32, Word::nil(), steps)
}

// Holds the pages of a place for a block, and then writes it. On a swap error nothing is written.
fn hold_and_write<M: Memory, L: Ledger>(
    mem: &mut M,
    at: u32,
    code: u16,
    length: u16,
    steps: &mut Steps<L>,
) -> Result<(), SwapFault>
    requires at_most { length ≤ 2047 }
    requires in_range { at + length + 1 ≤ list_length (M.seen mem.old).words }
    ensures ok { OnOk result (Writes (M.seen mem.old) (M.seen mem.new) at (length + 1) (block_word code length)) }
    ensures err { OnErr result (StoresNothing (M.seen mem.old) (M.seen mem.new)) }
    ensures accounted { AccountsForFaults (shown M.Memory mem.old) (shown M.Memory mem.new) steps.old steps.new result }
    ensures cost { steps.new ≤ steps.old + length + 10 }
{
    let block = Span {
        at,
        words: length as u32 + 1,
    };
    hold_spans(mem, block, Span { at: 0, words: 0 }, steps)?;
    write_block(mem, at, code, length, steps)
}

/// Makes a block of this code and number of fields, at most 2,047, in an area, at a level, and returns
/// its address. Each field is NIL. Its charge, one more than its fields, has to fit the quota of the
/// area. If its words don't fit at the end of its class, the free region with the lowest number is
/// opened for them.
///
/// It takes at most one memory access for each word and one for each of their pages, of which there are at
/// most 9. On a swap error nothing is made, though a region may have been opened for the block, and the count
/// of swap errors has risen.
pub fn make_block<M: Memory, L: Ledger>(
    ground: &mut Ground<M>,
    area: u8,
    level: u8,
    code: u16,
    length: u16,
    steps: &mut Steps<L>,
) -> Result<u32, SwapFault>
    requires at_most { length ≤ 2047 }
    requires can { CanMake (view ground.old) area level length }

    // What is made, and at which address.
    ensures made { IfOk result (MakesBlock (view ground.old) (view ground.new) area level code length) }
    ensures in_range { IfOk result (λ at. at < 2 ^ 28) }
    ensures words { IfOk result (λ at. (i : ℕ) → i < length + 1 → word_at (view ground.new).mem.store.words (at + i) ≡ block_word code length i) }
    ensures placed { IfOk result (λ at. PlacesNew ground.old.table ground.new.table area level at (length + 1) (length + 1)) }
    ensures unmarked { IfOk result (λ at. MarksByWords (view ground.old).mem.store (view ground.new).mem.store at (length + 1)) }
    ensures needed { OpensAsNeeded ground.old.table ground.new.table (slot_of ground.old.table area level) (length + 1) }

    // What is unchanged in the ground.
    ensures live { LiveWordsUnchanged (view ground.old) (view ground.new) }
    ensures preserves { PreservesScanned (view ground.old) (view ground.new) }
    ensures stays_fresh { NoOldAddresses (view ground.old) → NoOldAddresses (view ground.new) }
    ensures marks { MarksFollow (view ground.old) (view ground.new) }

    // After a swap error, and that it is counted.
    ensures opened { OnErr result (OpensOrStays ground.old.table ground.new.table) }
    ensures fault { OnErr result (WordsUnchanged (view ground.old) (view ground.new)) }
    ensures accounted { AccountsForFaults (view ground.old).mem (view ground.new).mem steps.old steps.new result }

    // The cost.
    ensures cost { steps.new ≤ steps.old + length + 10 }
{
    let words = length as u32 + 1;
    let placed = place_for(ground, area, level, words);
    hold_and_write(&mut ground.mem, placed.at, code, length, steps)?;
    ground.commit(&placed, words, words, Origin::New);
    Ok(placed.at)
}
