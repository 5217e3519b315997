//! Compares the values of two words.
ghost use Rattle.std.specs.Prelude.{◌≡◌, ◌+◌, ◌<◌, ◌≤◌, IfOk, ◌*◌};
ghost use Rattle.mem_port.specs.View.{AccountsForFaults, shown};
ghost use Rattle.std.specs.Ordering.{int_eq};
ghost use Rattle.mem_port.specs.Store.{StoresNothing};
ghost use Rattle.obj_layout.specs.Forwards.{HasFinal};
ghost use Rattle.heap_state.specs.Words.{CanCompare, SamePlace, SameWord};

use mem_port::Memory;
use obj_layout::resolve;
use std::sync::ledger::Ledger;
use store_word::{Content, Steps, SwapFault, Word};
use transporter::RESOLVE_ACCESSES;

// Whether two numbers are equal.
fn is_same_number(left: i32, right: i32) -> bool
    ensures { result ≡ int_eq left right }
{
    left == right
}

// Whether two addresses have the same final address. It takes at most 24 memory accesses.
fn is_same_place<M: Memory, L: Ledger>(
    mem: &mut M,
    left: u32,
    right: u32,
    steps: &mut Steps<L>,
) -> Result<bool, SwapFault>
    requires left { HasFinal (M.seen mem.old).words left }
    requires right { HasFinal (M.seen mem.old).words right }
    ensures value { IfOk result (SamePlace (M.seen mem.old).words left right) }
    ensures unchanged { StoresNothing (M.seen mem.old) (M.seen mem.new) }
    ensures accounted { AccountsForFaults (shown M.Memory mem.old) (shown M.Memory mem.new) steps.old steps.new result }
    ensures cost { steps.new ≤ steps.old + 2 * RESOLVE_ACCESSES }
{
    let a = resolve(mem, left, steps)?;
    let b = resolve(mem, right, steps)?;
    Ok(a == b)
}

/// Whether two words have the same value: references do if they lead to the same object. It takes at
/// most 24 memory accesses. On a swap error nothing is stored, and the count of swap errors rises.
pub fn is_same<M: Memory, L: Ledger>(
    mem: &mut M,
    left: Word,
    right: Word,
    steps: &mut Steps<L>,
) -> Result<bool, SwapFault>
    requires { CanCompare (M.seen mem.old).words left.content right.content }
    ensures value { IfOk result (SameWord (M.seen mem.old).words left.content right.content) }
    ensures unchanged { StoresNothing (M.seen mem.old) (M.seen mem.new) }
    ensures accounted { AccountsForFaults (shown M.Memory mem.old) (shown M.Memory mem.new) steps.old steps.new result }
    ensures cost { steps.new ≤ steps.old + 2 * RESOLVE_ACCESSES }
{
    match (left.content(), right.content()) {
        (Content::Fixnum(i), Content::Fixnum(j)) => Ok(is_same_number(i, j)),
        (Content::List(a), Content::List(b)) => is_same_place(mem, a, b, steps),
        (Content::Struct(a), Content::Struct(b)) => is_same_place(mem, a, b, steps),
        (Content::Nil, Content::Nil) => Ok(true),
        _ => Ok(false),
    }
}
