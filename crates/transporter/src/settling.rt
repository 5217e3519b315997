//! Settling (the read barrier): an old address in a word becomes that of the transported object.
ghost use Rattle.std.specs.Prelude.{◌≡◌, ℕ, ◌+◌, ◌-◌, ◌*◌, ◌/◌, ◌<◌, ◌≤◌, ◌^◌, IfOk, OnOk, OnErr, Some, length};
ghost use Rattle.mem_port.specs.View.{AccountsForFaults, shown};
ghost use Rattle.area_space.specs.View.{view};
ghost use Rattle.transporter.specs.Views.{NoOldAddresses, FetchMoves, HasOldAt, IsSettleable, KeepsBarrier, LiveWordsUnchanged, LiveWordsUnchangedExcept, MarksFollow, MovesAtMost, MovesFor, RemainsRepresented, SettlesAlways, SettlesWordAt, WordsUnchanged, PreservesScanned};
ghost use Rattle.mem_port.specs.Store.{StoresNothing};
ghost use Rattle.area_space.specs.Table.{IsOld};
ghost use Rattle.obj_layout.specs.Forwards.{word_at};
ghost use Rattle.transporter.specs.Growth.{Grows};
ghost use Rattle.transporter.specs.LiveWordsUnchanged.{IsLiveWord};
ghost use Rattle.transporter.specs.Settling.{reference_of, readdressed, RefersToOld, Replaces, Settles};

use crate::accesses::{FAILED_FETCH_ACCESSES, FAILED_WORD_ACCESSES, FETCH_ACCESSES, WORD_ACCESSES};
use crate::transports::transport;
use area_space::Ground;
use mem_port::Memory;
use std::sync::ledger::Ledger;
use store_word::{Content, MAX_OBJECT_WORDS, REGION_WORDS, Steps, SwapFault, Word};

// The address of a reference.
#[inline(always)]
fn reference(word: Word) -> Option<u32>
    ensures { result ≡ reference_of word.content }
{
    match word.content() {
        Content::List(at) => Some(at),
        Content::Struct(at) => Some(at),
        _ => None,
    }
}

// The same word with another address, if it is a reference.
fn with_address(word: Word, to: u32) -> Word
    requires { to < 2 ^ 28 }
    ensures { result ≡ readdressed word to }
{
    let code = word.cdr_code();
    match word.content() {
        Content::List(_) => Word::list_at(to).with_cdr(code),
        Content::Struct(_) => Word::struct_at(to).with_cdr(code),
        _ => word,
    }
}

/// The word itself or, if it is a reference to an old address, the word with the address of the
/// same object in a live region. It has the same cdr code and the same value.
///
/// The caller must ensure that a reference has a value, and that one to an old address refers to an
/// object which the running collection keeps.
///
/// Without a swap error it takes at most 43 memory accesses and 4 for each word that it places, at
/// most 2,048; none for a word without an old address. After a swap error, at most 1,069 memory
/// accesses: every word is as before, and the count of swap errors has risen.
#[inline(always)]
pub fn settle<M: Memory, L: Ledger>(
    ground: &mut Ground<M>,
    word: Word,
    steps: &mut Steps<L>,
) -> Result<Word, SwapFault>
    requires { IsSettleable (view ground.old) word }

    // The word that is returned, and its value.
    ensures settles { IfOk result (SettlesAlways (view ground.old) (view ground.new) word) }
    ensures word { IfOk result (Settles ground.old.table ground.new.table word) }
    ensures words { IfOk result (MovesFor (view ground.old) (view ground.new) word) }
    ensures moves { MovesAtMost (view ground.old) (view ground.new) 1 }
    ensures unchanged { (RefersToOld ground.old.table word → ⊥) → (ground.new ≡ ground.old) × (steps.new ≡ steps.old) }

    // What is unchanged in the ground.
    ensures table { Grows ground.old.table ground.new.table }
    ensures live { LiveWordsUnchanged (view ground.old) (view ground.new) }
    ensures preserves { PreservesScanned (view ground.old) (view ground.new) }
    ensures marks { MarksFollow (view ground.old) (view ground.new) }
    ensures stays_fresh { (RefersToOld ground.old.table word → ⊥) → NoOldAddresses (view ground.old) → NoOldAddresses (view ground.new) }

    // What holds after a swap error, and that it is counted.
    ensures fault { OnErr result (WordsUnchanged (view ground.old) (view ground.new)) }
    ensures accounted { AccountsForFaults (view ground.old).mem (view ground.new).mem steps.old steps.new result }

    // What is placed, and the cost.
    ensures at_most { ground.new.table.placed ≤ ground.old.table.placed + MAX_OBJECT_WORDS }
    ensures cost { OnOk result (steps.new ≤ steps.old + 4 * (ground.new.table.placed - ground.old.table.placed) + WORD_ACCESSES) }
    ensures cost_at_most { OnErr result (steps.new ≤ steps.old + FAILED_WORD_ACCESSES) }
{
    match reference(word) {
        Some(at) if ground.table.is_old(at) => settle_old(ground, word, at, steps),
        _ => Ok(word),
    }
}

// The word with the live address of its object, if its address is an old one.
#[inline(never)]
fn settle_old<M: Memory, L: Ledger>(
    ground: &mut Ground<M>,
    word: Word,
    at: u32,
    steps: &mut Steps<L>,
) -> Result<Word, SwapFault>
    requires can { IsSettleable (view ground.old) word }
    requires agrees { reference_of word.content ≡ Some at }
    requires in_range { IsOld ground.old.table (at / REGION_WORDS) }

    // The word that is returned, and its value.
    ensures settles { IfOk result (SettlesAlways (view ground.old) (view ground.new) word) }
    ensures word { IfOk result (Settles ground.old.table ground.new.table word) }
    ensures words { IfOk result (MovesFor (view ground.old) (view ground.new) word) }

    // What changes in the ground, and what is unchanged.
    ensures stays_ground { KeepsBarrier (view ground.old) (view ground.new) }

    // What holds after a swap error, and that it is counted.
    ensures fault { OnErr result (WordsUnchanged (view ground.old) (view ground.new)) }
    ensures accounted { AccountsForFaults (view ground.old).mem (view ground.new).mem steps.old steps.new result }

    // What is placed, and the cost.
    ensures at_most { ground.new.table.placed ≤ ground.old.table.placed + MAX_OBJECT_WORDS }
    ensures cost { OnOk result (steps.new ≤ steps.old + 4 * (ground.new.table.placed - ground.old.table.placed) + WORD_ACCESSES) }
    ensures cost_at_most { OnErr result (steps.new ≤ steps.old + FAILED_WORD_ACCESSES) }
{
    let to = transport(ground, at, steps)?;
    Ok(with_address(word, to))
}

/// The word at an address below the used end of a live region, settled, and written back if that
/// changes it.
///
/// The caller must ensure what `settle` requires of the word. Without a swap error it takes at most
/// 45 memory accesses and 4 for each word that it places, at most 2,048; with one, at most 1,026
/// more. After a swap error each used word of a live region is as before; an object may have moved,
/// and the count of swap errors has risen.
#[inline(always)]
pub fn fetch<M: Memory, L: Ledger>(
    ground: &mut Ground<M>,
    at: u32,
    steps: &mut Steps<L>,
) -> Result<Word, SwapFault>
    requires in_range { IsLiveWord ground.old.table at }
    requires can { IsSettleable (view ground.old) (word_at (view ground.old).mem.store.words at) }

    // The word that is returned, and its value.
    ensures settles { IfOk result (SettlesAlways (view ground.old) (view ground.new) (word_at (view ground.old).mem.store.words at)) }
    ensures word { IfOk result (SettlesWordAt (view ground.old) (view ground.new) at) }
    ensures written { IfOk result (λ new. word_at (view ground.new).mem.store.words at ≡ new) }
    ensures words { OnOk result (FetchMoves (view ground.old) (view ground.new) at) }
    ensures moves { MovesAtMost (view ground.old) (view ground.new) 1 }

    // What changes in the ground, and what is unchanged.
    ensures table { Grows ground.old.table ground.new.table }
    ensures registers { LiveWordsUnchangedExcept (view ground.old) (view ground.new) at }
    ensures live { OnErr result (LiveWordsUnchanged (view ground.old) (view ground.new)) }
    ensures preserves { PreservesScanned (view ground.old) (view ground.new) }
    ensures marks { MarksFollow (view ground.old) (view ground.new) }
    ensures stays_fresh { (HasOldAt (view ground.old) at → ⊥) → NoOldAddresses (view ground.old) → NoOldAddresses (view ground.new) }

    // What holds after a swap error, and that it is counted.
    ensures fault { OnErr result (RemainsRepresented (view ground.old) (view ground.new) (word_at (view ground.old).mem.store.words at)) }
    ensures accounted { AccountsForFaults (view ground.old).mem (view ground.new).mem steps.old steps.new result }

    // What is placed, and the cost.
    ensures at_most { ground.new.table.placed ≤ ground.old.table.placed + MAX_OBJECT_WORDS }
    ensures cost { OnOk result (steps.new ≤ steps.old + 4 * (ground.new.table.placed - ground.old.table.placed) + FETCH_ACCESSES) }
    ensures cost_at_most { steps.new ≤ steps.old + 4 * (ground.new.table.placed - ground.old.table.placed) + FAILED_FETCH_ACCESSES }
{
    let word = ground.mem.read(at, steps)?;
    let settled = settle(ground, word, steps)?;
    write_changed(&mut ground.mem, at, word, settled, steps)?;
    Ok(settled)
}

// Stores a word in place of another, if they differ.
#[inline(always)]
fn write_changed<M: Memory, L: Ledger>(
    mem: &mut M,
    at: u32,
    old: Word,
    new: Word,
    steps: &mut Steps<L>,
) -> Result<(), SwapFault>
    requires { at < length (M.seen mem.old).words }
    ensures ok { OnOk result (Replaces (M.seen mem.old) (M.seen mem.new) at old new) }
    ensures err { OnErr result (StoresNothing (M.seen mem.old) (M.seen mem.new)) }
    ensures accounted { AccountsForFaults (shown M.Memory mem.old) (shown M.Memory mem.new) steps.old steps.new result }
    ensures cost { steps.new ≤ steps.old + 1 }
{
    if new.bits() == old.bits() {
        return Ok(());
    }
    mem.write(at, new, steps)
}
