//! Writes the words of a block again, wider, and turns the old ones into a husk.
ghost use Rattle.std.specs.Prelude.{◌≡◌, ◌+◌, ◌*◌, ◌<◌, ◌≤◌, ℕ, IsOk, OnOk, OnErr, length as list_length, ◌%◌, ◌^◌};
ghost use Rattle.mem_port.specs.View.{WithoutFault, AccountsForFaults, shown};
ghost use Rattle.mem_port.specs.Spans.{HoldsSpan};
ghost use Rattle.mem_port.specs.Store.{IsMemory, StoresNothing};
ghost use Rattle.mem_port.specs.declared.spans.Span.{Span};
ghost use Rattle.transporter.specs.Writes.{Writes};
ghost use Rattle.block_store.specs.Growing.{CanLayAnew, LaysAnew, grown_word, husk_word};

use crate::header::Head;
use mem_port::{Memory, Span, hold_spans};
use std::sync::ledger::Ledger;
use store_word::{PAGE_WORDS, Steps, SwapFault, Word};
use transporter::{HOLD_ACCESSES, copy_words};

// How many of the remaining words are on one page.
fn on_one_page(at: u32, left: u32) -> u32
    requires { 0 < left }
    ensures some { 0 < result }
    ensures at_most { result ≤ left }
    ensures page { at % PAGE_WORDS + result ≤ PAGE_WORDS }
{
    left.min(PAGE_WORDS - at % PAGE_WORDS)
}

// Writes one word at `count` addresses. Their pages are held, so no swap error occurs. It takes one memory access a
// word.
pub(crate) fn fill<M: Memory, L: Ledger>(
    mem: &mut M,
    at: u32,
    count: u32,
    word: Word,
    steps: &mut Steps<L>,
) -> Result<(), SwapFault>
    requires in_range { at + count ≤ list_length (M.seen mem.old).words }
    requires held { HoldsSpan (M.held mem.old) (record { at = at; words = count }) }
    ensures succeeds { IsOk result }
    ensures written { Writes (M.seen mem.old) (M.seen mem.new) at count (λ i. word) }
    ensures stays_held { (page : ℕ) → M.held mem.old page → M.held mem.new page }
    ensures no_fault { WithoutFault (shown M.Memory mem.old) (shown M.Memory mem.new) steps.old steps.new }
    ensures cost { steps.new ≡ steps.old + count }
{
    let mut done = 0;
    while done < count {
        let piece = on_one_page(at + done, count - done);
        mem.fill_on(at + done, piece, word, steps);
        done += piece;
    }
    Ok(())
}

// Writes a block again, with more fields, those after the old ones NIL. All its pages are held, so
// no swap error occurs. It takes two memory accesses for each old field, and one for each other word.
fn write_wide<M: Memory, L: Ledger>(
    mem: &mut M,
    head: Head,
    to: u32,
    wide: u16,
    steps: &mut Steps<L>,
) -> Result<(), SwapFault>
    requires can { CanLayAnew (M.seen mem.old).words head to wide }

    // The pages of both places are held.
    requires from_held { HoldsSpan (M.held mem.old) (record { at = head.at; words = head.length + 1 }) }
    requires to_held { HoldsSpan (M.held mem.old) (record { at = to; words = wide + 1 }) }

    // No swap error occurs, and the block is written.
    ensures succeeds { IsOk result }
    ensures written { Writes (M.seen mem.old) (M.seen mem.new) to (wide + 1) (grown_word (M.seen mem.old).words head.at head.code head.length wide) }

    // What stays held, swap errors and the cost.
    ensures stays_held { (page : ℕ) → M.held mem.old page → M.held mem.new page }
    ensures no_fault { WithoutFault (shown M.Memory mem.old) (shown M.Memory mem.new) steps.old steps.new }
    ensures sound { IsMemory (M.seen mem.new) }
    ensures cost { steps.new ≡ steps.old + head.length + wide + 1 }
{
    let fields = head.length as u32;
    mem.write(to, Word::header(head.code, wide), steps)?;
    copy_words(mem, head.at + 1, to + 1, fields, steps)?;
    fill(
        mem,
        to + 1 + fields,
        wide as u32 - fields,
        Word::nil(),
        steps,
    )
}

// Writes the husk of a block that is written again at an address. All its pages are held, so no
// swap error occurs. It takes one memory access a word.
fn leave_husk<M: Memory, L: Ledger>(
    mem: &mut M,
    head: Head,
    to: u32,
    steps: &mut Steps<L>,
) -> Result<(), SwapFault>
    requires in_range { head.at + head.length + 1 ≤ list_length (M.seen mem.old).words }
    requires to { to < list_length (M.seen mem.old).words }
    requires held { HoldsSpan (M.held mem.old) (record { at = head.at; words = head.length + 1 }) }
    requires fits { list_length (M.seen mem.old).words < 2 ^ 28 }
    ensures succeeds { IsOk result }
    ensures written { Writes (M.seen mem.old) (M.seen mem.new) head.at (head.length + 1) (husk_word to) }
    ensures no_fault { WithoutFault (shown M.Memory mem.old) (shown M.Memory mem.new) steps.old steps.new }
    ensures cost { steps.new ≡ steps.old + head.length + 1 }
{
    mem.write(head.at, Word::header_forward(to), steps)?;
    fill(mem, head.at + 1, head.length as u32, Word::null(), steps)
}

// Holds the pages of a block and of its new place, then writes it there and makes its old place a husk. On a swap error
// nothing is written.
pub(crate) fn lay_anew<M: Memory, L: Ledger>(
    mem: &mut M,
    head: Head,
    to: u32,
    wide: u16,
    steps: &mut Steps<L>,
) -> Result<(), SwapFault>
    requires { CanLayAnew (M.seen mem.old).words head to wide }

    // What is written, and what a swap error leaves unchanged.
    ensures ok { OnOk result (LaysAnew (M.seen mem.old) (M.seen mem.new) head to wide) }
    ensures err { OnErr result (StoresNothing (M.seen mem.old) (M.seen mem.new)) }

    // Swap errors and the cost.
    ensures accounted { AccountsForFaults (shown M.Memory mem.old) (shown M.Memory mem.new) steps.old steps.new result }
    ensures cost { steps.new ≤ steps.old + 2 * head.length + wide + HOLD_ACCESSES + 2 }
{
    let from = Span {
        at: head.at,
        words: head.length as u32 + 1,
    };
    let place = Span {
        at: to,
        words: wide as u32 + 1,
    };
    hold_spans(mem, from, place, steps)?;
    write_wide(mem, head, to, wide, steps)?;
    leave_husk(mem, head, to, steps)
}
