//! The commands that read and write registers and objects.
ghost use Rattle.std.specs.Prelude.{◌≡◌, ◌≤◌, ◌+◌, length};
ghost use Rattle.world_text.specs.Words.{words_of};
ghost use Rattle.world_text.specs.Next.{Gives};
ghost use Rattle.trace_text.specs.Commands.{InLimits, command_in, cons_in, get_in, grow_in, list_in, make_in, put_in, set_in, size_in};

use crate::store::store_command;
use crate::words::{Accepted, area, has_words, items, number, plain_value, register, small};
use lisp_graph::{Areas, CommandHead, Request};
use store_word::Space;
use world_text::Reason;

/// `set R V`
#[tactic(auto, unfolding(crate::specs::Commands::set_in))]
fn set(registers: u32, count: usize, text: &[u8], command: &mut Request) -> Accepted
    requires { registers ≤ 256 }
    ensures { Gives (λ _. command.new) result (set_in registers count (words_of text.now)) }
{
    has_words(count, 3)?;
    let (to, rest) = register(registers, text)?;
    let (value, _) = plain_value(rest)?;
    command.set(CommandHead::Set { to, value });
    Ok(())
}

/// `cons R AREA S T`
#[tactic(auto, unfolding(crate::specs::Commands::cons_in))]
fn cons(registers: u32, areas: &Areas, count: usize, text: &[u8], command: &mut Request) -> Accepted
    requires registers { registers ≤ 256 }
    requires areas { length areas.now ≤ 16 }
    ensures { Gives (λ _. command.new) result (cons_in registers areas.now count (words_of text.now)) }
{
    has_words(count, 5)?;
    let (to, rest) = register(registers, text)?;
    let (area, rest) = area(areas, rest)?;
    let (car, rest) = register(registers, rest)?;
    let (cdr, _) = register(registers, rest)?;
    command.set(CommandHead::Cons { to, area, car, cdr });
    Ok(())
}

/// `list R AREA S ..`
#[tactic(auto, unfolding(crate::specs::Commands::list_in))]
fn list(registers: u32, areas: &Areas, count: usize, text: &[u8], command: &mut Request) -> Accepted
    requires registers { registers ≤ 256 }
    requires areas { length areas.now ≤ 16 }
    requires count { count ≡ length (words_of text.now) + 1 }
    ensures { Gives (λ _. command.new) result (list_in registers areas.now count (words_of text.now)) }
{
    if count > 1_027 {
        return Err(Reason::TooManyItems);
    }
    if count < 4 {
        return Err(Reason::WrongCount);
    }
    let (to, rest) = register(registers, text)?;
    let (area, rest) = area(areas, rest)?;
    items(registers, to, area, rest, command)
}

/// `make R AREA CODE N`
#[tactic(auto, unfolding(crate::specs::Commands::make_in))]
fn make(registers: u32, areas: &Areas, count: usize, text: &[u8], command: &mut Request) -> Accepted
    requires registers { registers ≤ 256 }
    requires areas { length areas.now ≤ 16 }
    ensures { Gives (λ _. command.new) result (make_in registers areas.now count (words_of text.now)) }
{
    has_words(count, 5)?;
    let (to, rest) = register(registers, text)?;
    let (area, rest) = area(areas, rest)?;
    let (code, rest) = small(65_535, rest)?;
    let (length, _) = small(2_047, rest)?;
    command.set(CommandHead::Make {
        to,
        area,
        code,
        length,
    });
    Ok(())
}

/// `grow R N`
#[tactic(auto, unfolding(crate::specs::Commands::grow_in))]
fn grow(registers: u32, count: usize, text: &[u8], command: &mut Request) -> Accepted
    requires { registers ≤ 256 }
    ensures { Gives (λ _. command.new) result (grow_in registers count (words_of text.now)) }
{
    has_words(count, 3)?;
    let (target, rest) = register(registers, text)?;
    let (length, _) = small(2_047, rest)?;
    command.set(CommandHead::Grow { target, length });
    Ok(())
}

/// `size R`
#[tactic(auto, unfolding(crate::specs::Commands::size_in))]
fn size(registers: u32, count: usize, text: &[u8], command: &mut Request) -> Accepted
    requires { registers ≤ 256 }
    ensures { Gives (λ _. command.new) result (size_in registers count (words_of text.now)) }
{
    has_words(count, 2)?;
    let (of, _) = register(registers, text)?;
    command.set(CommandHead::Size { of });
    Ok(())
}

/// `get R S I`
#[tactic(auto, unfolding(crate::specs::Commands::get_in))]
fn get(registers: u32, count: usize, text: &[u8], command: &mut Request) -> Accepted
    requires { registers ≤ 256 }
    ensures { Gives (λ _. command.new) result (get_in registers count (words_of text.now)) }
{
    has_words(count, 4)?;
    let (to, rest) = register(registers, text)?;
    let (from, rest) = register(registers, rest)?;
    let (index, _) = number(rest)?;
    command.set(CommandHead::Get { to, from, index });
    Ok(())
}

/// `put R I S`
#[tactic(auto, unfolding(crate::specs::Commands::put_in))]
fn put(registers: u32, count: usize, text: &[u8], command: &mut Request) -> Accepted
    requires { registers ≤ 256 }
    ensures { Gives (λ _. command.new) result (put_in registers count (words_of text.now)) }
{
    has_words(count, 4)?;
    let (target, rest) = register(registers, text)?;
    let (index, rest) = number(rest)?;
    let (from, _) = register(registers, rest)?;
    command.set(CommandHead::Put {
        target,
        index,
        from,
    });
    Ok(())
}

/// A command.
#[tactic(auto, unfolding(crate::specs::Commands::command_in))]
pub fn read_words(
    space: &Space,
    areas: &Areas,
    head: &[u8],
    count: usize,
    text: &[u8],
    command: &mut Request,
) -> Accepted
    requires in_range { InLimits space.now areas.now }
    requires count { count ≡ length (words_of text.now) + 1 }
    ensures { Gives (λ _. command.new) result (command_in space.now areas.now head.now count (words_of text.now)) }
{
    if head == b"set".as_slice() {
        return set(space.registers, count, text, command);
    }
    if head == b"cons".as_slice() {
        return cons(space.registers, areas, count, text, command);
    }
    if head == b"list".as_slice() {
        return list(space.registers, areas, count, text, command);
    }
    if head == b"make".as_slice() {
        return make(space.registers, areas, count, text, command);
    }
    if head == b"grow".as_slice() {
        return grow(space.registers, count, text, command);
    }
    if head == b"get".as_slice() {
        return get(space.registers, count, text, command);
    }
    if head == b"put".as_slice() {
        return put(space.registers, count, text, command);
    }
    if head == b"size".as_slice() {
        return size(space.registers, count, text, command);
    }
    store_command(space, head, count, text, command)
}
