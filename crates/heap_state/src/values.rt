//! Words as replies.
ghost use Rattle.std.specs.Prelude.{◌≡◌, ◌≢◌, ◌+◌, ◌<◌, ◌≤◌, IfOk, OnOk, OnErr, length, slice_set};
ghost use Rattle.mem_port.specs.View.{AccountsForFaults, AccountsForFaultsIf, shown};
ghost use Rattle.mem_port.specs.Store.{StoresNothing};
ghost use Rattle.store_word.specs.declared.word.Content.TheVariants.{Struct as StructAt};
ghost use Rattle.obj_layout.specs.Forwards.{HasFinal};
ghost use Rattle.heap_state.specs.Reads.{is_fault, reply_of};
ghost use Rattle.heap_state.specs.Words.{CanShow, Shows, header_reply};

use lisp_graph::Reply;
use mem_port::Memory;
use obj_layout::{first_word, resolve_first};
use std::sync::ledger::Ledger;
use store_word::{Content, Steps, SwapFault, Word};
use transporter::FIND_ACCESSES;

// The reply that shows a block, by its header.
fn header_reply(header: Word) -> Reply
    ensures value { result ≡ header_reply header.content }
    ensures succeeds { result ≢ Reply.Fault }
{
    match header.content() {
        Content::Header { code, length } => Reply::Block { code, length },
        _ => Reply::Nil,
    }
}

// The header of the block to which a reference has this address. It is read at the block's final address,
// once. It takes at most 13 memory accesses. On a swap error nothing is stored, and the count of swap errors rises.
#[inline(never)]
fn block_header<M: Memory, L: Ledger>(
    mem: &mut M,
    at: u32,
    steps: &mut Steps<L>,
) -> Result<Word, SwapFault>
    requires { HasFinal (M.seen mem.old).words at }
    ensures value { IfOk result (λ header. Shows (M.seen mem.old).words (StructAt at) (header_reply header.content)) }
    ensures unchanged { StoresNothing (M.seen mem.old) (M.seen mem.new) }
    ensures accounted { AccountsForFaults (shown M.Memory mem.old) (shown M.Memory mem.new) steps.old steps.new result }
    ensures cost { steps.new ≤ steps.old + FIND_ACCESSES }
{
    let block = resolve_first(mem, at, steps)?;
    let header = first_word(mem, block, steps)?;
    Ok(header)
}

// The reply that shows a word's value. Only for a reference to a block does it read memory, as `block_header` says.
#[inline]
fn show<M: Memory, L: Ledger>(
    mem: &mut M,
    word: Word,
    steps: &mut Steps<L>,
) -> Result<Reply, SwapFault>
    requires { CanShow (M.seen mem.old).words word.content }
    ensures value { IfOk result (Shows (M.seen mem.old).words word.content) }
    ensures succeeds { IfOk result (λ reply. reply ≢ Reply.Fault) }
    ensures unchanged { StoresNothing (M.seen mem.old) (M.seen mem.new) }
    ensures accounted { AccountsForFaults (shown M.Memory mem.old) (shown M.Memory mem.new) steps.old steps.new result }
    ensures cost { steps.new ≤ steps.old + FIND_ACCESSES }
{
    match word.content() {
        Content::Fixnum(number) => Ok(Reply::Number(number)),
        Content::List(_) => Ok(Reply::Cons),
        Content::Struct(at) => {
            let header = block_header(mem, at, steps)?;
            Ok(header_reply(header))
        }
        _ => Ok(Reply::Nil),
    }
}

/// Writes a word to a register, and returns the reply that shows it. On a swap error the registers are unchanged,
/// and the count of swap errors rises. It takes at most 13 memory accesses, and stores nothing.
#[inline(always)]
pub fn show_into<M: Memory, L: Ledger>(
    mem: &mut M,
    registers: &mut [Word],
    to: u8,
    word: Word,
    steps: &mut Steps<L>,
) -> Result<Reply, SwapFault>
    requires can { CanShow (M.seen mem.old).words word.content }
    requires to { to < length registers.old }
    ensures shows { IfOk result (Shows (M.seen mem.old).words word.content) }
    ensures succeeds { IfOk result (λ reply. reply ≢ Reply.Fault) }
    ensures set { OnOk result (registers.new ≡ slice_set registers.old to word) }
    ensures err { OnErr result (registers.new ≡ registers.old) }
    ensures unchanged { StoresNothing (M.seen mem.old) (M.seen mem.new) }
    ensures accounted { AccountsForFaultsIf (shown M.Memory mem.old) (shown M.Memory mem.new) steps.old steps.new (is_fault (reply_of result)) }
    ensures cost { steps.new ≤ steps.old + FIND_ACCESSES }
{
    let reply = show(mem, word, steps)?;
    registers[to as usize] = word;
    Ok(reply)
}
