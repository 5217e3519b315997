//! Finds a cons by a reference.
ghost use Rattle.std.specs.Prelude.{◌≡◌, ◌≢◌, ◌↔◌, ◌+◌, ◌<◌, ◌≤◌, Err, IfOk, IfSome};
ghost use Rattle.mem_port.specs.View.{shown};
ghost use Rattle.store_word.specs.Words.{tag_of};
ghost use Rattle.mem_port.specs.Store.{StoresNothing};
ghost use Rattle.obj_layout.specs.Forwards.{word_at};
ghost use Rattle.cdr_lists.specs.Faults.{AccountsForRefusals};
ghost use Rattle.cdr_lists.specs.Reading.{CanFind, IsConsAt, IsConsPlace};

use crate::fault::ListFault;
use mem_port::Memory;
use obj_layout::{Resolved, first_word, resolve_first};
use std::sync::ledger::Ledger;
use store_word::{CdrCode, Content, Steps, SwapFault, Tag, Word};
use transporter::{FIND_ACCESSES, RESOLVE_ACCESSES};

/// The address of a cons, and the cdr code of its first word.
#[derive(Clone, Copy)]
pub(crate) struct ConsHead {
    pub at: u32,
    pub code: CdrCode,
}

// The address of the cons to which a word refers, and its first word if that was read on the way. It
// takes at most 12 memory accesses.
#[inline]
pub(crate) fn find_first<M: Memory, L: Ledger>(
    mem: &mut M,
    of: Word,
    steps: &mut Steps<L>,
) -> Result<Resolved, ListFault>
    requires { CanFind (M.seen mem.old).words of.content }
    ensures place { IfOk result (λ found. IsConsPlace (M.seen mem.old).words of.content found.at) }
    ensures first { IfOk result (λ found. IfSome found.first (λ word. word ≡ word_at (M.seen mem.old).words found.at)) }
    ensures refused { (result ≡ Err ListFault.NotACons) ↔ (tag_of of.content ≢ Tag.List) }
    ensures unread { result ≡ Err ListFault.NotACons → steps.new ≡ steps.old }
    ensures unchanged { StoresNothing (M.seen mem.old) (M.seen mem.new) }
    ensures accounted { AccountsForRefusals (shown M.Memory mem.old) (shown M.Memory mem.new) steps.old steps.new result }
    ensures cost { steps.new ≤ steps.old + RESOLVE_ACCESSES }
{
    match of.content() {
        Content::List(reference) => {
            let found = resolve_first(mem, reference, steps)?;
            Ok(found)
        }
        _ => Err(ListFault::NotACons),
    }
}

// The cons to which a word refers. It takes at most 13 memory accesses.
#[inline]
pub(crate) fn read_cons<M: Memory, L: Ledger>(
    mem: &mut M,
    of: Word,
    steps: &mut Steps<L>,
) -> Result<ConsHead, ListFault>
    requires { CanFind (M.seen mem.old).words of.content }
    ensures value { IfOk result (IsConsAt (M.seen mem.old).words of.content) }
    ensures refused { (result ≡ Err ListFault.NotACons) ↔ (tag_of of.content ≢ Tag.List) }
    ensures unread { result ≡ Err ListFault.NotACons → steps.new ≡ steps.old }
    ensures unchanged { StoresNothing (M.seen mem.old) (M.seen mem.new) }
    ensures accounted { AccountsForRefusals (shown M.Memory mem.old) (shown M.Memory mem.new) steps.old steps.new result }
    ensures cost { steps.new ≤ steps.old + FIND_ACCESSES }
{
    let found = find_first(mem, of, steps)?;
    let at = found.at;
    let first = first_word(mem, found, steps)?;
    Ok(ConsHead {
        at,
        code: first.cdr_code(),
    })
}
