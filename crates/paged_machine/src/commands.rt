//! Commands of a heap, by their names.
ghost use Rattle.std.specs.Prelude.{◌≡◌, ℕ, length, true};
ghost use Rattle.lisp_heap.specs.Stands.{Runs};
ghost use Rattle.paged_machine.specs.Asks.{is_replied};
ghost use Rattle.paged_machine.specs.Holding.{CanRun};

use lisp_graph::{Command, CommandHead, Reply, Request};
use lisp_heap::Heap;
use mem_port::Memory;
use std::sync::ledger::{Blank, Ledger};
use store_word::Steps;

/// Runs a command that replies by a `Reply`: any but `stats` and `dump`. Its memory accesses are those that the memory counts.
#[inline(always)]
pub fn run_request<M: Memory, L: Ledger>(
    heap: &mut Heap<M>,
    command: &Request,
    blank: Blank,
) -> Reply
    requires name { blank.name ≡ L.name }
    requires parts { blank.parts ≡ L.parts }
    requires at_least { blank.parts ≡ 1 }
    requires can { CanRun (length heap.old.registers) (length heap.old.table.kinds) command.now }
    requires replied { is_replied command.now ≡ true }
    ensures { (taken : ℕ) × Runs heap.old heap.new 0 taken command.now result }
{
    let (short, items) = command.parts();
    let mut steps = Steps::<L>::new(blank);
    match short {
        CommandHead::Set { to, value } => heap.set(*to, *value),
        CommandHead::Move { to, from } => heap.copy_register(*to, *from, &mut steps),
        CommandHead::Cons { to, area, car, cdr } => heap.cons(*to, *area, *car, *cdr, &mut steps),
        CommandHead::List { to, area } => heap.list(*to, *area, items, &mut steps),
        CommandHead::Make {
            to,
            area,
            code,
            length,
        } => heap.make(*to, *area, *code, *length, &mut steps),
        CommandHead::Grow { target, length } => heap.grow(*target, *length, &mut steps),
        CommandHead::Car { to, from } => heap.car(*to, *from, &mut steps),
        CommandHead::Cdr { to, from } => heap.cdr(*to, *from, &mut steps),
        CommandHead::Rplaca { target, from } => heap.rplaca(*target, *from, &mut steps),
        CommandHead::Rplacd { target, from } => heap.rplacd(*target, *from, &mut steps),
        CommandHead::Get { to, from, index } => heap.get(*to, *from, *index, &mut steps),
        CommandHead::Put {
            target,
            index,
            from,
        } => heap.put(*target, *index, *from, &mut steps),
        CommandHead::Size { of } => heap.size(*of, &mut steps),
        CommandHead::Eq { left, right } => heap.eq(*left, *right, &mut steps),
        CommandHead::Flip { what } => heap.flip(*what),
        CommandHead::Scavenge { count } => heap.scavenge(*count, &mut steps),
        CommandHead::Reclaim => heap.reclaim(),
        CommandHead::PageOut { count } => heap.page_out(*count),
        // `stats` and `dump` reply by texts, and the contract excludes them.
        _ => unreachable!(),
    }
}

/// The same for a command that is a value of its own.
pub fn run_command<M: Memory, L: Ledger>(
    heap: &mut Heap<M>,
    command: &Command,
    blank: Blank,
) -> Reply
    requires name { blank.name ≡ L.name }
    requires parts { blank.parts ≡ L.parts }
    requires at_least { blank.parts ≡ 1 }
    requires can { CanRun (length heap.old.registers) (length heap.old.table.kinds) command.now }
    requires replied { is_replied command.now ≡ true }
    ensures { (taken : ℕ) × Runs heap.old heap.new 0 taken command.now result }
{
    let request = Request::of(command);
    run_request::<M, L>(heap, &request, blank)
}
