//! The places of objects, and the words of values, given these places.
ghost use Rattle.std.specs.Prelude.{◌≡◌, ◌+◌, ◌^◌, ◌<◌, ◌≤◌, ℕ, All, length, get_or};
ghost use Rattle.cdr_lists.specs.Pairs.{second_code};
ghost use Rattle.store_word.specs.Words.{null_word, tag_of};
ghost use Rattle.lisp_graph.specs.declared.object.Value.TheVariants as V;
ghost use Rattle.lisp_graph.specs.Graph.{RefersBelow};
ghost use Rattle.heap_load.specs.Drafts.{is_known, known_part};
ghost use Rattle.heap_load.specs.Places.{block_place, cell_code_of, cell_place, pair_place, place_at, word_of};
ghost use Rattle.store_word.specs.declared.word.Content.TheVariants.{List as ListAt, Struct as StructAt};
ghost use Rattle.store_word.specs.declared.word.Tag.TheVariants.{List as ListTag, Struct as StructTag};

use cdr_lists::CELL;
use lisp_graph::Value;
use std::marker::Model;
use store_word::{CdrCode, Word};

// What lies at a place.
#[derive(Clone, Copy)]
enum PlaceKind {
    Pair,
    Cell,
    Block,
}

/// The place of an object: its address, and whether it is a pair, a cell, whose cdr is determined by its layout,
/// or a block.
#[derive(Clone, Copy)]
pub(crate) struct Place {
    at: u32,
    kind: PlaceKind,
}

impl Model for Place {
    ghost use Rattle.std.specs.Prelude.{◌<◌, ◌^◌};
    ghost use Rattle.heap_load.specs.Places.{PlaceView};

    ghost Value = { PlaceView };

    ghost use Rattle.heap_load.specs.PlaceParts.{parts_of, place_of, parts_of-place_of};

    ghost view = { place_of };

    ghost invariant = { λ p. p.at < 2 ^ 28 };

    ghost inverse = { parts_of };

    ghost inverse_ok = { λ p i. parts_of-place_of p };
}

impl Place {
    /// The place of a pair at this address.
    pub(crate) fn pair(at: u32) -> Place
        requires { at < 2 ^ 28 }
        ensures { result ≡ pair_place at }
    {
        Place {
            at,
            kind: PlaceKind::Pair,
        }
    }

    /// The place of a cell at this address.
    pub(crate) fn cell(at: u32) -> Place
        requires { at < 2 ^ 28 }
        ensures { result ≡ cell_place at }
    {
        Place {
            at,
            kind: PlaceKind::Cell,
        }
    }

    /// The place of a block whose header is at this address.
    pub(crate) fn block(at: u32) -> Place
        requires { at < 2 ^ 28 }
        ensures { result ≡ block_place at }
    {
        Place {
            at,
            kind: PlaceKind::Block,
        }
    }

    /// The reference to the object.
    pub(crate) fn word(self) -> Word
        ensures { result ≡ self.word }
    {
        match self.kind {
            PlaceKind::Pair | PlaceKind::Cell => Word::list_at(self.at),
            PlaceKind::Block => Word::struct_at(self.at),
        }
    }

    /// Whether the object is a cell.
    pub(crate) fn is_cell(self) -> bool
        ensures { result ≡ self.cell }
    {
        matches!(self.kind, PlaceKind::Cell)
    }

    /// The address of a cons.
    pub(crate) fn cons_at(self) -> u32
        requires { tag_of self.word.content ≡ ListTag }
        ensures { self.word.content ≡ ListAt result }
    {
        self.at
    }

    /// The address of a block.
    pub(crate) fn block_at(self) -> u32
        requires { tag_of self.word.content ≡ StructTag }
        ensures { self.word.content ≡ StructAt result }
    {
        self.at
    }
}

/// The word of a value; for a reference, the word in the object's place.
pub(crate) fn word_of(value: Value, places: &[Place]) -> Word
    requires { RefersBelow (length places.now) value }
    ensures { result ≡ word_of places.now value }
{
    match value {
        Value::Fix(number) => Word::fixnum(number),
        Value::Nil => Word::nil(),
        Value::Ref(name) => places[name as usize].word(),
    }
}

/// Whether a part of the object with this number is known when the object is made: it isn't a reference,
/// or one to an object before it.
pub(crate) fn is_known(value: Value, number: usize) -> bool
    ensures { result ≡ is_known number value }
{
    match value {
        Value::Ref(name) => name < number as u64,
        _ => true,
    }
}

/// The word of a part of the object with this number, as it is made: NIL if the part isn't known.
pub(crate) fn word_so_far(value: Value, number: usize, places: &[Place]) -> Word
    requires { number ≤ length places.now }
    ensures { result ≡ word_of places.now (known_part number value) }
{
    match value {
        Value::Fix(fixnum) => Word::fixnum(fixnum),
        Value::Ref(name) if name < number as u64 => places[name as usize].word(),
        _ => Word::nil(),
    }
}

/// The cdr code of a cell with this cdr.
pub(crate) fn cell_code(cdr: Value) -> CdrCode
    ensures { result ≡ cell_code_of cdr }
{
    match cdr {
        Value::Nil => CdrCode::Nil,
        _ => CdrCode::Next,
    }
}

/// The cdr code of the second word of a pair of this charge.
pub(crate) fn second_code(charge: u32) -> CdrCode
    ensures { result ≡ second_code charge }
{
    if charge == CELL {
        CdrCode::Next
    } else {
        CdrCode::Second
    }
}

/// Sets the places of `count` cells in consecutive words, from this number on.
pub(crate) fn put_cells(places: &mut [Place], number: usize, count: usize, from: u32)
    requires in_range { number + count ≤ length places.old }
    requires at_most { from + count ≤ 2 ^ 28 }
    ensures cells { (i : ℕ) → i < count → place_at places.new (number + i) ≡ cell_place (from + i) }
    ensures before { (i : ℕ) → i < number → place_at places.new i ≡ place_at places.old i }
{
    for i in 0..count {
        places[number + i] = Place::cell(from + i as u32);
    }
}

/// Sets each register to the word of its root.
pub(crate) fn set_roots(registers: &mut [Word], roots: &[Value], places: &[Place])
    requires count { length registers.old ≡ length roots.now }
    requires refers { All (RefersBelow (length places.now)) roots.now }
    ensures { (r : ℕ) → r < length roots.now → get_or registers.new r null_word ≡ word_of places.now (get_or roots.now r V.Nil) }
{
    for r in 0..registers.len() {
        registers[r] = word_of(roots[r], places);
    }
}
