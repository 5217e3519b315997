//! A parcel gets a place in the live class of its survivors, and is written there.
ghost use Rattle.std.specs.Prelude.{◌≡◌, ◌+◌, ◌-◌, ◌*◌, ◌/◌, ◌<◌, ◌≤◌, IfOk, OnOk, OnErr, IfSome, IfNone, length};
ghost use Rattle.mem_port.specs.Spans.{HoldsSpan};
ghost use Rattle.mem_port.specs.View.{AccountsForFaults, shown};
ghost use Rattle.area_space.specs.View.{view};
ghost use Rattle.area_space.specs.Views.{IsGround, NamesNoFree};
ghost use Rattle.lisp_ground.specs.Views.{Opens};
ghost use Rattle.transporter.specs.Views.{CanMove, CanPut, OpensOnly, Relocates};
ghost use Rattle.mem_port.specs.Store.{StoresNothing};
ghost use Rattle.area_space.specs.Table.{areas_of, levels_of, slot_of, quota_of, IsOld};
ghost use Rattle.area_space.specs.Room.{RoomRule, words_of_area};
ghost use Rattle.area_space.specs.Sound.{IsTable};
ghost use Rattle.area_space.specs.Places.{IsEnd};
ghost use Rattle.area_space.specs.Flips.{survivor};
ghost use Rattle.transporter.specs.Parcels.{ArePairOf, word_count_of};
ghost use Rattle.transporter.specs.Relocations.{Commits, IsOldClass, Moves, OpensIfFull};

use crate::accesses::HOLD_ACCESSES;
use crate::copying::move_words;
use crate::parcel::{Pair, Parcel};
use area_space::{Class, Ground, Origin, Placed, RegionTable};
use mem_port::{Memory, Span, hold_spans};
use std::sync::ledger::Ledger;
use store_word::{LAST_OFFSET, MAX_OBJECT_WORDS, PAGE_WORDS, REGION_WORDS, Steps, SwapFault};

// The class of an address, if it is in an old region.
#[inline]
pub(crate) fn class_if_old(table: &RegionTable, at: u32) -> Option<Class>
    requires { at / REGION_WORDS < table.now.regions }
    ensures some { IfSome result (IsOldClass table.now at) }
    ensures none { IfNone result (IsOld table.now (at / REGION_WORDS) → ⊥) }
{
    match table.class_of(at) {
        Some(class) => if class.stale { Some(class) } else { None },
        None => None,
    }
}

/// A place for 1 to 2,048 words at the used end of the live class of an area and a level.
/// If they don't fit in its last region, the free region with the lowest number is opened.
///
/// The used words of the area and these may be at most twice its quota. Nothing is stored.
#[inline]
pub fn place_for<M: Memory>(ground: &mut Ground<M>, area: u8, level: u8, words: u32) -> Placed
    requires at_least { 0 < words }
    requires at_most { words ≤ MAX_OBJECT_WORDS }
    requires area { area < areas_of ground.old.table }
    requires level { level < levels_of ground.old.table }

    // There is room for them, and the ground is sound.
    requires room { RoomRule ground.old.table }
    requires in_range { words_of_area ground.old.table area + words ≤ 2 * quota_of ground.old.table area }
    requires ground { IsGround (view ground.old) }
    requires named { NamesNoFree (view ground.old) }

    // The place, and when a region was opened for it.
    ensures opened { Opens (view ground.old) (view ground.new) result.opened area level }
    ensures end { IsEnd ground.new.table (slot_of ground.old.table area level) result.at words }
    ensures needed { OpensIfFull ground.old.table (slot_of ground.old.table area level) words result.opened }

    // What is unchanged: the counts, and the resident pages.
    ensures no_fault { M.faults ground.new.mem ≡ M.faults ground.old.mem }
    ensures taken { M.taken ground.new.mem ≡ M.taken ground.old.mem }
    ensures resident { M.resident ground.new.mem ≡ M.resident ground.old.mem }
{
    ground.place(area, level, words)
}

// Holds the pages of a parcel's old words and of its new ones. Most parcels are pairs on one page at each place, whose
// pages are held without a look at how many there are. At most 18 memory accesses.
#[inline(always)]
fn hold_places<M: Memory, L: Ledger>(
    mem: &mut M,
    from: Span,
    to: Span,
    steps: &mut Steps<L>,
) -> Result<(), SwapFault>
    requires first { from.words ≤ MAX_OBJECT_WORDS }
    requires second { to.words ≤ MAX_OBJECT_WORDS }
    requires first_in_range { from.at + from.words ≤ length (M.seen mem.old).words }
    requires second_in_range { to.at + to.words ≤ length (M.seen mem.old).words }
    ensures first_held { OnOk result (HoldsSpan (M.held mem.new) from) }
    ensures second_held { OnOk result (HoldsSpan (M.held mem.new) to) }
    ensures unchanged { StoresNothing (M.seen mem.old) (M.seen mem.new) }
    ensures accounted { AccountsForFaults (shown M.Memory mem.old) (shown M.Memory mem.new) steps.old steps.new result }
    ensures at_most { steps.new ≤ steps.old + HOLD_ACCESSES }
{
    if from.words == 2
        && to.words == 2
        && from.at % PAGE_WORDS < LAST_OFFSET
        && to.at % PAGE_WORDS < LAST_OFFSET
    {
        return mem.hold(&[from.at / PAGE_WORDS, to.at / PAGE_WORDS], steps);
    }
    hold_spans(mem, from, to, steps)
}

// Writes a parcel at a place of its survivors' class, and commits it. A swap error occurs only
// before anything is written or committed.
#[inline(always)]
fn put<M: Memory, L: Ledger>(
    ground: &mut Ground<M>,
    parcel: &Parcel,
    pair: Option<Pair>,
    class: Class,
    placed: &Placed,
    steps: &mut Steps<L>,
) -> Result<(), SwapFault>
    requires can { CanPut (view ground.old) parcel.now class placed.now.at }
    requires pair { IfSome pair (ArePairOf (view ground.old).mem.store.words parcel.now) }
    ensures moved { OnOk result (Moves (view ground.old).mem.store (view ground.new).mem.store parcel.now placed.now.at) }
    ensures placed { OnOk result (Commits ground.old.table ground.new.table class.area class.level (survivor ground.old.table class.level) placed.now.at (word_count_of parcel.now) parcel.now.charge) }
    ensures unchanged { OnErr result (StoresNothing (view ground.old).mem.store (view ground.new).mem.store) }
    ensures table { OnErr result (ground.new.table ≡ ground.old.table) }
    ensures sound { OnOk result (IsTable ground.new.table) }
    ensures accounted { AccountsForFaults (view ground.old).mem (view ground.new).mem steps.old steps.new result }
    ensures cost { steps.new ≤ steps.old + 3 * word_count_of parcel.now + HOLD_ACCESSES }
    ensures cost_at_most { OnErr result (steps.new ≤ steps.old + HOLD_ACCESSES) }
{
    let words = parcel.new_words();
    let from = Span {
        at: parcel.at,
        words: parcel.words,
    };
    let to = Span {
        at: placed.at,
        words,
    };
    hold_places(&mut ground.mem, from, to, steps)?;
    ground.commit(placed, words, parcel.charge, Origin::Moved(class));
    move_words(&mut ground.mem, parcel, pair, placed.at, steps)?;
    ground
        .table
        .note_moved((placed.at + words - 1) / PAGE_WORDS);
    Ok(())
}

// Moves a parcel out of an old region of this class, and returns the new address of its first object.
#[inline(always)]
pub(crate) fn relocate<M: Memory, L: Ledger>(
    ground: &mut Ground<M>,
    parcel: &Parcel,
    pair: Option<Pair>,
    class: Class,
    steps: &mut Steps<L>,
) -> Result<u32, SwapFault>
    requires can { CanMove (view ground.old) parcel.now }
    requires agrees { IsOldClass ground.old.table parcel.now.at class }
    requires pair { IfSome pair (ArePairOf (view ground.old).mem.store.words parcel.now) }
    ensures moved { IfOk result (Relocates (view ground.old) (view ground.new) parcel.now) }
    ensures fault { OnErr result (OpensOnly (view ground.old) (view ground.new)) }
    ensures accounted { AccountsForFaults (view ground.old).mem (view ground.new).mem steps.old steps.new result }
    ensures cost { steps.new ≤ steps.old + 3 * word_count_of parcel.now + HOLD_ACCESSES }
    ensures cost_at_most { OnErr result (steps.new ≤ steps.old + HOLD_ACCESSES) }
{
    let level = ground.table.survivor_level(class.level);
    let placed = place_for(ground, class.area, level, parcel.new_words());
    put(ground, parcel, pair, class, &placed, steps)?;
    Ok(placed.at)
}

// The same for a pair, the most frequent object. Its sizes are numbers here, so few tests remain of `relocate`.
#[inline(always)]
pub(crate) fn relocate_pair<M: Memory, L: Ledger>(
    ground: &mut Ground<M>,
    parcel: &Parcel,
    pair: Pair,
    class: Class,
    steps: &mut Steps<L>,
) -> Result<u32, SwapFault>
    requires can { CanMove (view ground.old) parcel.now }
    requires agrees { IsOldClass ground.old.table parcel.now.at class }
    requires pair { ArePairOf (view ground.old).mem.store.words parcel.now pair }
    ensures moved { IfOk result (Relocates (view ground.old) (view ground.new) parcel.now) }
    ensures fault { OnErr result (OpensOnly (view ground.old) (view ground.new)) }
    ensures accounted { AccountsForFaults (view ground.old).mem (view ground.new).mem steps.old steps.new result }
    ensures cost { steps.new ≤ steps.old + 3 * word_count_of parcel.now + HOLD_ACCESSES }
    ensures cost_at_most { OnErr result (steps.new ≤ steps.old + HOLD_ACCESSES) }
{
    let whole = Parcel {
        at: parcel.at,
        words: 2,
        objects: 1,
        charge: parcel.charge,
        rest: None,
    };
    relocate(ground, &whole, Some(pair), class, steps)
}
