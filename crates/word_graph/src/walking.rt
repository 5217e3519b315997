//! Reads words and objects, and stores nothing.
ghost use Rattle.std.specs.Prelude.{◌≡◌, ◌+◌, ◌/◌, ◌^◌, ◌<◌, ◌≤◌, true, Contains, IfOk, length};
ghost use Rattle.mem_port.specs.View.{AccountsForFaults, shown};
ghost use Rattle.area_space.specs.Table.{IsUnclassed, chain, class_number, levels_of};
ghost use Rattle.area_space.specs.View.{view};
ghost use Rattle.word_graph.specs.Views.{CanSee, HasObject, cons_in, field_in, form_in, is_cons_in, parts_in, told};
ghost use Rattle.mem_port.specs.Store.{StoresNothing};
ghost use Rattle.obj_layout.specs.Forwards.{Final, HasFinal, word_at};
ghost use Rattle.obj_layout.specs.Shapes.{IsWhole, charge_at, cons_shape, pair_charge, shape_of};
ghost use Rattle.lisp_ground.specs.Leading.{HasCdr, cdr_in};
ghost use Rattle.word_graph.specs.Shown.{code_in, count_in, part_in};
ghost use Rattle.word_graph.specs.Words.{HasPart};

use area_space::{Class, Ground, RegionTable};
use lisp_graph::{Form, Seen, SeenCons};
use mem_port::Memory;
use obj_layout::resolve;
use std::sync::ledger::Ledger;
use store_word::{CdrCode, Content, REGION_WORDS, Steps, SwapFault, Word};

/// The value of a word: a reference by the place of its object, to which forwards lead, into old
/// regions too. It takes at most 12 memory accesses. On a swap error nothing is stored, and the count of swap
/// errors rises.
#[inline(always)]
pub fn value_of_word<M: Memory, L: Ledger>(
    ground: &mut Ground<M>,
    word: Word,
    steps: &mut Steps<L>,
) -> Result<Seen, SwapFault>
    requires { CanSee (view ground.old) word.content }
    ensures value { IfOk result (λ seen. seen ≡ told (view ground.old) word.content) }
    ensures unchanged { StoresNothing (view ground.old).mem.store (view ground.new).mem.store }
    ensures table { ground.new.table ≡ ground.old.table }
    ensures accounted { AccountsForFaults (view ground.old).mem (view ground.new).mem steps.old steps.new result }
    ensures cost { steps.new ≤ steps.old + 12 }
{
    match word.content() {
        Content::Fixnum(number) => Ok(Seen::Fix(number)),
        Content::List(at) => {
            let cons = place_of(&mut ground.mem, at, steps)?;
            Ok(Seen::Cons(cons as u64))
        }
        Content::Struct(at) => {
            let block = place_of(&mut ground.mem, at, steps)?;
            Ok(Seen::Block(block as u64))
        }
        _ => Ok(Seen::Nil),
    }
}

// The place of an object, to which forwards lead. It takes at most 12 memory accesses. It isn't inlined,
// so that `value_of_word` is, and a number or nil costs no call.
#[inline(never)]
fn place_of<M: Memory, L: Ledger>(
    mem: &mut M,
    at: u32,
    steps: &mut Steps<L>,
) -> Result<u32, SwapFault>
    requires { HasFinal (M.seen mem.old).words at }
    ensures value { IfOk result (Final (M.seen mem.old).words at) }
    ensures unchanged { StoresNothing (M.seen mem.old) (M.seen mem.new) }
    ensures accounted { AccountsForFaults (shown M.Memory mem.old) (shown M.Memory mem.new) steps.old steps.new result }
    ensures cost { steps.new ≤ steps.old + 12 }
{
    resolve(mem, at, steps)
}

// The code of an object that begins with this word, and the number of its parts.
fn header_told(first: Word) -> (u16, u16)
    ensures first { result.0 ≡ code_in first.content }
    ensures second { result.1 ≡ count_in first.content }
{
    first.header_parts().unwrap_or((0, 2))
}

// The class of the region of an object.
fn class_of_object(table: &RegionTable, at: u32) -> Class
    requires in_range { at / REGION_WORDS < table.now.regions }
    requires used { IsUnclassed table.now (at / REGION_WORDS) → ⊥ }
    ensures level { result.level < levels_of table.now }
    ensures found { Contains (chain table.now (class_number table.now result)) (at / REGION_WORDS) }
{
    table.class_of(at).unwrap()
}

// What a pair is charged, by its second word.
fn pair_charge(second: Word) -> u32
    ensures { result ≡ pair_charge second.cdr }
{
    match second.cdr_code() {
        CdrCode::Second => 2,
        _ => 3,
    }
}

// The charge of the object that begins with this word, in words. It takes at most one memory access.
fn charge_behind<M: Memory, L: Ledger>(
    mem: &mut M,
    at: u32,
    first: Word,
    steps: &mut Steps<L>,
) -> Result<u32, SwapFault>
    requires first { first ≡ word_at (M.seen mem.old).words at }
    requires whole { IsWhole (M.seen mem.old).words at }
    requires fits { length (M.seen mem.old).words < 2 ^ 28 }
    ensures value { IfOk result (λ charge. charge ≡ charge_at (M.seen mem.old).words at) }
    ensures unchanged { StoresNothing (M.seen mem.old) (M.seen mem.new) }
    ensures accounted { AccountsForFaults (shown M.Memory mem.old) (shown M.Memory mem.new) steps.old steps.new result }
    ensures cost { steps.new ≤ steps.old + 1 }
{
    match first.content() {
        Content::Header { length, .. } => Ok(u32::from(length) + 1),
        _ => match first.cdr_code() {
            CdrCode::Normal => {
                let second = mem.read(at + 1, steps)?;
                Ok(pair_charge(second))
            }
            _ => Ok(3),
        },
    }
}

/// The form of the object at a place: its area, its code and the number of its parts,
/// and its charge, in words. Its first word is read once. It takes at most 2 memory accesses. On a swap error nothing is
/// stored, and the count of swap errors rises.
pub fn form_at<M: Memory, L: Ledger>(
    ground: &mut Ground<M>,
    key: u64,
    steps: &mut Steps<L>,
) -> Result<Form, SwapFault>
    requires { HasObject (view ground.old) key }
    ensures value { IfOk result (λ form. form ≡ form_in (view ground.old) key) }
    ensures unchanged { StoresNothing (view ground.old).mem.store (view ground.new).mem.store }
    ensures table { ground.new.table ≡ ground.old.table }
    ensures accounted { AccountsForFaults (view ground.old).mem (view ground.new).mem steps.old steps.new result }
    ensures cost { steps.new ≤ steps.old + 2 }
{
    let at = key as u32;
    let class = class_of_object(&ground.table, at);
    let first = ground.mem.read(at, steps)?;
    let charge = charge_behind(&mut ground.mem, at, first, steps)?;
    let (code, length) = header_told(first);
    Ok(Form {
        area: class.area,
        code,
        length,
        charge,
    })
}

// The cdr of the cons that begins with this word. It takes at most one memory access.
fn cdr_behind<M: Memory, L: Ledger>(
    mem: &mut M,
    at: u32,
    first: Word,
    steps: &mut Steps<L>,
) -> Result<Word, SwapFault>
    requires in_range { at < length (M.seen mem.old).words }
    requires first { first ≡ word_at (M.seen mem.old).words at }
    requires whole { HasCdr (M.seen mem.old).words at }
    requires fits { length (M.seen mem.old).words < 2 ^ 28 }
    ensures value { IfOk result (λ word. word.content ≡ cdr_in (M.seen mem.old).words at) }
    ensures unchanged { StoresNothing (M.seen mem.old) (M.seen mem.new) }
    ensures accounted { AccountsForFaults (shown M.Memory mem.old) (shown M.Memory mem.new) steps.old steps.new result }
    ensures cost { steps.new ≤ steps.old + 1 }
{
    match first.cdr_code() {
        CdrCode::Normal => mem.read(at + 1, steps),
        CdrCode::Nil => Ok(Word::nil()),
        _ => Ok(Word::list_at(at + 1)),
    }
}

// The word of a part of the object at a place. It takes at most 2 memory accesses.
fn part_at<M: Memory, L: Ledger>(
    mem: &mut M,
    at: u32,
    index: u32,
    steps: &mut Steps<L>,
) -> Result<Word, SwapFault>
    requires in_range { at < length (M.seen mem.old).words }
    requires whole { HasPart (M.seen mem.old).words at index (word_at (M.seen mem.old).words at).content }
    requires fits { length (M.seen mem.old).words < 2 ^ 28 }
    ensures value { IfOk result (λ word. word.content ≡ part_in (M.seen mem.old).words at index (word_at (M.seen mem.old).words at).content) }
    ensures unchanged { StoresNothing (M.seen mem.old) (M.seen mem.new) }
    ensures accounted { AccountsForFaults (shown M.Memory mem.old) (shown M.Memory mem.new) steps.old steps.new result }
    ensures cost { steps.new ≤ steps.old + 2 }
{
    let first = mem.read(at, steps)?;
    match first.content() {
        Content::Header { .. } => mem.read(at + 1 + index, steps),
        _ => if index == 0 {
            Ok(first)
        } else {
            cdr_behind(mem, at, first, steps)
        }
    }
}

/// A part of the object at a place, below the number of its parts: for a cons the car, then the cdr;
/// for a block a field. It takes at most 14 memory accesses. On a swap error nothing is stored, and the count of
/// swap errors rises.
pub fn field_at<M: Memory, L: Ledger>(
    ground: &mut Ground<M>,
    key: u64,
    index: u32,
    steps: &mut Steps<L>,
) -> Result<Seen, SwapFault>
    requires object { HasObject (view ground.old) key }
    requires in_range { index < parts_in (view ground.old) key }
    ensures value { IfOk result (λ seen. seen ≡ field_in (view ground.old) key index) }
    ensures unchanged { StoresNothing (view ground.old).mem.store (view ground.new).mem.store }
    ensures table { ground.new.table ≡ ground.old.table }
    ensures accounted { AccountsForFaults (view ground.old).mem (view ground.new).mem steps.old steps.new result }
    ensures cost { steps.new ≤ steps.old + 14 }
{
    let word = part_at(&mut ground.mem, key as u32, index, steps)?;
    value_of_word(ground, word, steps)
}

// The cdr of the cons that begins with this word, and the charge of the cons. It takes at most one memory access.
fn rest_behind<M: Memory, L: Ledger>(
    mem: &mut M,
    at: u32,
    first: Word,
    steps: &mut Steps<L>,
) -> Result<(Word, u32), SwapFault>
    requires in_range { at < length (M.seen mem.old).words }
    requires first { first ≡ word_at (M.seen mem.old).words at }
    requires whole { HasCdr (M.seen mem.old).words at }
    requires pair { shape_of first ≡ cons_shape first.cdr }
    requires fits { length (M.seen mem.old).words < 2 ^ 28 }
    ensures cdr { IfOk result (λ rest. rest.0.content ≡ cdr_in (M.seen mem.old).words at) }
    ensures value { IfOk result (λ rest. rest.1 ≡ charge_at (M.seen mem.old).words at) }
    ensures unchanged { StoresNothing (M.seen mem.old) (M.seen mem.new) }
    ensures accounted { AccountsForFaults (shown M.Memory mem.old) (shown M.Memory mem.new) steps.old steps.new result }
    ensures cost { steps.new ≤ steps.old + 1 }
{
    match first.cdr_code() {
        CdrCode::Normal => {
            let second = mem.read(at + 1, steps)?;
            Ok((second, pair_charge(second)))
        }
        CdrCode::Nil => Ok((Word::nil(), 3)),
        _ => Ok((Word::list_at(at + 1), 3)),
    }
}

/// The cons at a place: what `form_at` and `field_at` return of it. Each of its words is read once. It takes at most 26 memory
/// accesses. On a swap error nothing is stored, and the count of swap errors rises.
pub fn cons_at<M: Memory, L: Ledger>(
    ground: &mut Ground<M>,
    key: u64,
    steps: &mut Steps<L>,
) -> Result<SeenCons, SwapFault>
    requires object { HasObject (view ground.old) key }
    requires pair { is_cons_in (view ground.old) key ≡ true }
    ensures value { IfOk result (λ cons. cons ≡ cons_in (view ground.old) key) }
    ensures unchanged { StoresNothing (view ground.old).mem.store (view ground.new).mem.store }
    ensures table { ground.new.table ≡ ground.old.table }
    ensures accounted { AccountsForFaults (view ground.old).mem (view ground.new).mem steps.old steps.new result }
    ensures cost { steps.new ≤ steps.old + 26 }
{
    let at = key as u32;
    let class = class_of_object(&ground.table, at);
    let first = ground.mem.read(at, steps)?;
    let (rest, charge) = rest_behind(&mut ground.mem, at, first, steps)?;
    let car = value_of_word(ground, first, steps)?;
    let cdr = value_of_word(ground, rest, steps)?;
    Ok(SeenCons {
        area: class.area,
        charge,
        car,
        cdr,
    })
}
