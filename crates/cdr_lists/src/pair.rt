//! A new cons, as a pair in its class.
ghost use Rattle.std.specs.Prelude.{◌≡◌, ◌+◌, ◌%◌, ◌<◌, ◌≤◌, length, slice_get, Some, IfOk, OnOk, OnErr};
ghost use Rattle.mem_port.specs.View.{AccountsForFaults, shown};
ghost use Rattle.area_space.specs.View.{view};
ghost use Rattle.cdr_lists.specs.Opening.{OpensIfNeeded};
ghost use Rattle.cdr_lists.specs.Views.{CanPair, PairedOn};
ghost use Rattle.mem_port.specs.Store.{StoresNothing};
ghost use Rattle.transporter.specs.Writes.{Writes};
ghost use Rattle.cdr_lists.specs.Making.{AddsPair, FailsWhole, HasPairAt, PlacesWords};
ghost use Rattle.cdr_lists.specs.Pairs.{second_code, words_of_pair};

use crate::list::CELL;
use area_space::{Ground, Origin};
use mem_port::Memory;
use std::sync::ledger::Ledger;
use store_word::{CdrCode, LAST_OFFSET, PAGE_WORDS, Steps, SwapFault, Word};

/// The charge of a pair that `cons` makes, in words. They are its two words.
pub const PAIR: u32 = 2;

/// The area and the level of a new pair, and what it is charged.
#[derive(Clone, Copy, Debug)]
pub struct NewPair {
    /// The place of the area in the world's list.
    pub area: u8,

    /// 0 to the greatest level.
    pub level: u8,

    /// 2 or 3 words.
    pub charge: u32,
}

// Writes both words of a pair, or none: by one use of their page or, if they are on two, with both pages held first.
#[inline(always)]
fn write_pair<M: Memory, L: Ledger>(
    mem: &mut M,
    at: u32,
    first: Word,
    second: Word,
    steps: &mut Steps<L>,
) -> Result<(), SwapFault>
    requires in_range { at + 1 < length (M.seen mem.old).words }
    requires at_most { length (M.seen mem.old).words ≤ 4194304 }
    ensures pair { OnOk result (Writes (M.seen mem.old) (M.seen mem.new) at 2 (words_of_pair first second)) }
    ensures first { OnOk result (slice_get (M.seen mem.new).words at ≡ Some first) }
    ensures second { OnOk result (slice_get (M.seen mem.new).words (at + 1) ≡ Some second) }
    ensures err { OnErr result (StoresNothing (M.seen mem.old) (M.seen mem.new)) }
    ensures accounted { AccountsForFaults (shown M.Memory mem.old) (shown M.Memory mem.new) steps.old steps.new result }
    ensures cost { steps.new ≤ steps.old + 4 }
{
    if at % PAGE_WORDS < LAST_OFFSET {
        return mem.write_two(at, first, second, steps);
    }
    write_apart(mem, at, first, second, steps)
}

// Writes the words of a pair that lies on two pages, or neither: both pages are held first. It isn't inlined, since
// few pairs lie on two pages.
#[inline(never)]
fn write_apart<M: Memory, L: Ledger>(
    mem: &mut M,
    at: u32,
    first: Word,
    second: Word,
    steps: &mut Steps<L>,
) -> Result<(), SwapFault>
    requires page { LAST_OFFSET ≤ at % PAGE_WORDS }
    requires in_range { at + 1 < length (M.seen mem.old).words }
    requires at_most { length (M.seen mem.old).words ≤ 4194304 }
    ensures pair { OnOk result (Writes (M.seen mem.old) (M.seen mem.new) at 2 (words_of_pair first second)) }
    ensures first { OnOk result (slice_get (M.seen mem.new).words at ≡ Some first) }
    ensures second { OnOk result (slice_get (M.seen mem.new).words (at + 1) ≡ Some second) }
    ensures err { OnErr result (StoresNothing (M.seen mem.old) (M.seen mem.new)) }
    ensures accounted { AccountsForFaults (shown M.Memory mem.old) (shown M.Memory mem.new) steps.old steps.new result }
    ensures cost { steps.new ≤ steps.old + 4 }
{
    let page = at / PAGE_WORDS;
    mem.hold(&[page, page + 1], steps)?;
    mem.write(at, first, steps)?;
    mem.write(at + 1, second, steps)
}

// The cdr code of the second word of a pair of this charge.
fn code_of(charge: u32) -> CdrCode
    ensures { result ≡ second_code charge }
{
    if charge == CELL {
        CdrCode::Next
    } else {
        CdrCode::Second
    }
}

/// Makes a cons of two words, as a pair with a charge of two words, in an area, at a level, and returns
/// its address. Its charge has to fit the quota of the area. It takes at most 4 memory accesses. On a swap error
/// nothing is made, though a region may have been opened for the pair, and the count of swap errors has
/// risen.
pub fn make_pair<M: Memory, L: Ledger>(
    ground: &mut Ground<M>,
    area: u8,
    level: u8,
    car: Word,
    cdr: Word,
    steps: &mut Steps<L>,
) -> Result<u32, SwapFault>
    requires { CanPair (view ground.old) area level 2 car cdr }

    // What is made, and at which address.
    ensures made { IfOk result (PairedOn (view ground.old) (view ground.new) area level 2 car cdr) }
    ensures words { IfOk result (HasPairAt (view ground.new) 2 car cdr) }
    ensures placed { IfOk result (PlacesWords (view ground.old) (view ground.new) (record { area = area; level = level; words = 2; charge = 2 })) }
    ensures needed { OpensIfNeeded ground.old.table ground.new.table area level 2 }

    // What is unchanged in the ground, swap errors and the cost.
    ensures stays_ground { AddsPair (view ground.old) (view ground.new) car cdr }
    ensures fault { FailsWhole (view ground.old) (view ground.new) result steps.old steps.new }
    ensures cost { steps.new ≤ steps.old + 4 }
{
    let pair = NewPair {
        area,
        level,
        charge: PAIR,
    };
    make_pair_of(ground, pair, car, cdr, steps)
}

/// The same for a pair whose charge is 2 or 3 words.
#[inline(always)]
pub fn make_pair_of<M: Memory, L: Ledger>(
    ground: &mut Ground<M>,
    pair: NewPair,
    car: Word,
    cdr: Word,
    steps: &mut Steps<L>,
) -> Result<u32, SwapFault>
    requires { CanPair (view ground.old) pair.area pair.level pair.charge car cdr }

    // What is made, and at which address.
    ensures made { IfOk result (PairedOn (view ground.old) (view ground.new) pair.area pair.level pair.charge car cdr) }
    ensures words { IfOk result (HasPairAt (view ground.new) pair.charge car cdr) }
    ensures placed { IfOk result (PlacesWords (view ground.old) (view ground.new) (record { area = pair.area; level = pair.level; words = 2; charge = pair.charge })) }
    ensures needed { OpensIfNeeded ground.old.table ground.new.table pair.area pair.level 2 }

    // What is unchanged in the ground, swap errors and the cost.
    ensures stays_ground { AddsPair (view ground.old) (view ground.new) car cdr }
    ensures fault { FailsWhole (view ground.old) (view ground.new) result steps.old steps.new }
    ensures cost { steps.new ≤ steps.old + 4 }
{
    let first = car.with_cdr(CdrCode::Normal);
    let second = cdr.with_cdr(code_of(pair.charge));
    let placed = ground.place(pair.area, pair.level, PAIR);
    write_pair(&mut ground.mem, placed.at, first, second, steps)?;
    ground.commit(&placed, PAIR, pair.charge, Origin::New);
    Ok(placed.at)
}
