//! Words are copied within a memory, and forwards are written at their old places.
ghost use Rattle.std.specs.Prelude.{◌≡◌, ◌⊎◌, ◌+◌, ◌*◌, ◌<◌, ◌≤◌, ℕ, IfSome, IsOk, length, ◌%◌, ◌^◌};
ghost use Rattle.mem_port.specs.View.{WithoutFault, shown};
ghost use Rattle.mem_port.specs.Spans.{HoldsSpan};
ghost use Rattle.mem_port.specs.Store.{IsMemory};
ghost use Rattle.obj_layout.specs.Forwards.{word_at};
ghost use Rattle.transporter.specs.Parcels.{ArePairOf, word_count_of, new_word};
ghost use Rattle.transporter.specs.Relocations.{CanCopy, Moves};
ghost use Rattle.transporter.specs.Writes.{Writes, forward_to, pair_word, two_words};

use crate::parcel::{Pair, Parcel};
use mem_port::Memory;
use std::sync::ledger::Ledger;
use store_word::{CdrCode, LAST_OFFSET, PAGE_WORDS, Steps, SwapFault, Word};

// How many of the `left` words that remain are on one page, at each of the two places.
fn on_one_page(from: u32, to: u32, left: u32) -> u32
    requires { 0 < left }
    ensures some { 0 < result }
    ensures at_most { result ≤ left }
    ensures from { from % PAGE_WORDS + result ≤ PAGE_WORDS }
    ensures to { to % PAGE_WORDS + result ≤ PAGE_WORDS }
{
    left.min(PAGE_WORDS - from % PAGE_WORDS)
        .min(PAGE_WORDS - to % PAGE_WORDS)
}

/// Copies `count` words to an address; old and new places don't overlap. All their pages are held,
/// so no swap error occurs. It takes two memory accesses for each word.
pub fn copy_words<M: Memory, L: Ledger>(
    mem: &mut M,
    from: u32,
    to: u32,
    count: u32,
    steps: &mut Steps<L>,
) -> Result<(), SwapFault>
    requires from { from + count ≤ length (M.seen mem.old).words }
    requires to { to + count ≤ length (M.seen mem.old).words }
    requires apart { (from + count ≤ to) ⊎ (to + count ≤ from) }

    // The pages of both places are held.
    requires from_held { HoldsSpan (M.held mem.old) (record { at = from; words = count }) }
    requires to_held { HoldsSpan (M.held mem.old) (record { at = to; words = count }) }

    // No swap error occurs, and the words are copied.
    ensures succeeds { IsOk result }
    ensures written { Writes (M.seen mem.old) (M.seen mem.new) to count (λ i. word_at (M.seen mem.old).words (from + i)) }

    // What remains held, swap errors and the cost.
    ensures stays_held { (page : ℕ) → M.held mem.old page → M.held mem.new page }
    ensures no_fault { WithoutFault (shown M.Memory mem.old) (shown M.Memory mem.new) steps.old steps.new }
    ensures sound { 0 < count → IsMemory (M.seen mem.new) }
    ensures cost { steps.new ≡ steps.old + 2 * count }
{
    let mut done = 0;
    while done < count {
        let piece = on_one_page(from + done, to + done, count - done);
        mem.copy_on(from + done, to + done, piece, steps);
        done += piece;
    }
    Ok(())
}

// Writes GC-FORWARDs in `count` words, to the `count` words from `to` on. Their pages are held,
// so no swap error occurs. It takes a memory access for each word.
#[inline(always)]
pub(crate) fn leave_forwards<M: Memory, L: Ledger>(
    mem: &mut M,
    at: u32,
    to: u32,
    count: u32,
    steps: &mut Steps<L>,
) -> Result<(), SwapFault>
    requires in_range { at + count ≤ length (M.seen mem.old).words }
    requires to { to + count ≤ length (M.seen mem.old).words }
    requires held { HoldsSpan (M.held mem.old) (record { at = at; words = count }) }
    requires fits { length (M.seen mem.old).words < 2 ^ 28 }
    ensures succeeds { IsOk result }
    ensures written { Writes (M.seen mem.old) (M.seen mem.new) at count (λ i. forward_to (to + i)) }
    ensures stays_held { (page : ℕ) → M.held mem.old page → M.held mem.new page }
    ensures no_fault { WithoutFault (shown M.Memory mem.old) (shown M.Memory mem.new) steps.old steps.new }
    ensures cost { steps.new ≡ steps.old + count }
{
    for i in 0..count {
        mem.write(at + i, Word::gc_forward(to + i), steps)?;
    }
    Ok(())
}

// Makes a copy of a cell a pair of charge 3 whose cdr is a list. Both words are held, so no swap
// error occurs. It takes three memory accesses.
pub(crate) fn make_last_pair<M: Memory, L: Ledger>(
    mem: &mut M,
    from: u32,
    to: u32,
    rest: u32,
    steps: &mut Steps<L>,
) -> Result<(), SwapFault>
    requires from { from < length (M.seen mem.old).words }
    requires to { to + 2 ≤ length (M.seen mem.old).words }
    requires in_range { rest < length (M.seen mem.old).words }

    // The pages of both places are held.
    requires from_held { HoldsSpan (M.held mem.old) (record { at = from; words = 1 }) }
    requires to_held { HoldsSpan (M.held mem.old) (record { at = to; words = 2 }) }

    // No swap error occurs, and the pair is written.
    ensures succeeds { IsOk result }
    ensures pair { Writes (M.seen mem.old) (M.seen mem.new) to 2 (pair_word (word_at (M.seen mem.old).words from) rest) }

    // What remains held, swap errors and the cost.
    ensures stays_held { (page : ℕ) → M.held mem.old page → M.held mem.new page }
    ensures no_fault { WithoutFault (shown M.Memory mem.old) (shown M.Memory mem.new) steps.old steps.new }
    ensures sound { IsMemory (M.seen mem.new) }
    ensures cost { steps.new ≡ steps.old + 3 }
{
    let car = mem.read(from, steps)?;
    mem.write(to, car.with_cdr(CdrCode::Normal), steps)?;
    mem.write(to + 1, Word::list_at(rest), steps)?;
    Ok(())
}

// Writes the two words of a pair, by one use of their page if they are on one. Their pages are held, so no swap error
// occurs. Two accesses.
#[inline(always)]
fn write_pair<M: Memory, L: Ledger>(
    mem: &mut M,
    pair: Pair,
    to: u32,
    steps: &mut Steps<L>,
) -> Result<(), SwapFault>
    requires in_range { to + 2 ≤ length (M.seen mem.old).words }
    requires to_held { HoldsSpan (M.held mem.old) (record { at = to; words = 2 }) }
    ensures succeeds { IsOk result }
    ensures written { Writes (M.seen mem.old) (M.seen mem.new) to 2 (two_words pair.first pair.second) }
    ensures stays_held { (page : ℕ) → M.held mem.old page → M.held mem.new page }
    ensures no_fault { WithoutFault (shown M.Memory mem.old) (shown M.Memory mem.new) steps.old steps.new }
    ensures sound { IsMemory (M.seen mem.new) }
    ensures cost { steps.new ≡ steps.old + 2 }
{
    if to % PAGE_WORDS < LAST_OFFSET {
        mem.write_two(to, pair.first, pair.second, steps)?;
        return Ok(());
    }
    mem.write(to, pair.first, steps)?;
    mem.write(to + 1, pair.second, steps)?;
    Ok(())
}

// Writes a parcel at its new place: a pair on one page by its words, and all else by copies.
#[inline(always)]
fn lay_parcel<M: Memory, L: Ledger>(
    mem: &mut M,
    parcel: &Parcel,
    pair: Option<Pair>,
    to: u32,
    steps: &mut Steps<L>,
) -> Result<(), SwapFault>
    requires can { CanCopy (M.held mem.old) (length (M.seen mem.old).words) parcel.now to }
    requires pair { IfSome pair (ArePairOf (M.seen mem.old).words parcel.now) }
    ensures succeeds { IsOk result }
    ensures written { Writes (M.seen mem.old) (M.seen mem.new) to (word_count_of parcel.now) (new_word (M.seen mem.old).words parcel.now) }
    ensures stays_held { (page : ℕ) → M.held mem.old page → M.held mem.new page }
    ensures no_fault { WithoutFault (shown M.Memory mem.old) (shown M.Memory mem.new) steps.old steps.new }
    ensures sound { IsMemory (M.seen mem.new) }
    ensures cost { steps.new ≤ steps.old + 2 * word_count_of parcel.now }
{
    match pair {
        Some(words) if parcel.at % PAGE_WORDS < LAST_OFFSET => write_pair(mem, words, to, steps),
        _ => copy_parcel(mem, parcel, to, steps),
    }
}

// Copies a parcel to its new place, and writes the forwards of its objects. All words of both
// places are held, so no swap error occurs. At most three memory accesses for each new word.
#[inline(always)]
pub(crate) fn move_words<M: Memory, L: Ledger>(
    mem: &mut M,
    parcel: &Parcel,
    pair: Option<Pair>,
    to: u32,
    steps: &mut Steps<L>,
) -> Result<(), SwapFault>
    requires can { CanCopy (M.held mem.old) (length (M.seen mem.old).words) parcel.now to }
    requires pair { IfSome pair (ArePairOf (M.seen mem.old).words parcel.now) }

    // No swap error occurs, and all of it moves.
    ensures succeeds { IsOk result }
    ensures moved { Moves (M.seen mem.old) (M.seen mem.new) parcel.now to }

    // Swap errors and the cost.
    ensures no_fault { WithoutFault (shown M.Memory mem.old) (shown M.Memory mem.new) steps.old steps.new }
    ensures cost { steps.new ≤ steps.old + 3 * word_count_of parcel.now }
{
    lay_parcel(mem, parcel, pair, to, steps)?;
    leave_forwards(mem, parcel.at, to, parcel.objects, steps)?;
    Ok(())
}

// Copies a parcel to its new place.
#[inline(never)]
fn copy_parcel<M: Memory, L: Ledger>(
    mem: &mut M,
    parcel: &Parcel,
    to: u32,
    steps: &mut Steps<L>,
) -> Result<(), SwapFault>
    requires { CanCopy (M.held mem.old) (length (M.seen mem.old).words) parcel.now to }

    // No swap error occurs, and the words are copied.
    ensures succeeds { IsOk result }
    ensures written { Writes (M.seen mem.old) (M.seen mem.new) to (word_count_of parcel.now) (new_word (M.seen mem.old).words parcel.now) }

    // What remains held, swap errors and the cost.
    ensures stays_held { (page : ℕ) → M.held mem.old page → M.held mem.new page }
    ensures no_fault { WithoutFault (shown M.Memory mem.old) (shown M.Memory mem.new) steps.old steps.new }
    ensures sound { IsMemory (M.seen mem.new) }
    ensures cost { steps.new ≤ steps.old + 2 * word_count_of parcel.now }
{
    match parcel.rest {
        None => copy_words(mem, parcel.at, to, parcel.words, steps)?,
        Some(rest) => {
            let whole = parcel.words - 1;
            copy_words(mem, parcel.at, to, whole, steps)?;
            make_last_pair(mem, parcel.at + whole, to + whole, rest, steps)?;
        }
    }
    Ok(())
}
