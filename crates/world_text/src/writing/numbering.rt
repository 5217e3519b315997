//! The numbers of objects, from 0 on in the order in which the objects were visited.
ghost use Rattle.std.specs.Prelude.{◌≡◌, ◌<◌, ◌≤◌, ◌^◌, ◌==◌, ◌++◌, [], ◌∷◌, false, length, slice_get, position, OnOk, IfSome, IfNone};
ghost use Rattle.world_text.specs.writing.Numbering.{is_numbered};

use crate::writing::number_table::{entry_at, make_room, set_entry};
use lisp_graph::Sequence;
use std::alloc::Global;
use std::marker::Model;
use store_word::NoMemory;

/// Keys of objects, each with its place as its number. There are fewer than 2^32, and each is below 2^32.
#[derive(Drop)]
pub struct KeyNumbers {
    alloc: Global,
    keys: Vec<u32>,
    pages: Vec<Sequence<u32>>,
}

impl Model for KeyNumbers {
    ghost use Rattle.std.specs.Prelude.{ℕ, List, length, ◌<◌, ◌^◌};
    ghost use Rattle.world_text.specs.writing.NumberTable.{HasNumbers};

    ghost Value = { List ℕ };

    ghost view = { λ n. n.keys.items };

    ghost invariant = { λ n. (length n.keys.items < 2 ^ 32) × HasNumbers n.pages.items n.keys.items };
}

impl KeyNumbers {
    /// No keys.
    pub fn new(alloc: Global) -> KeyNumbers
        ensures { result ≡ [] }
    {
        KeyNumbers {
            alloc,
            keys: Vec::new(alloc),
            pages: Vec::new(alloc),
        }
    }

    /// How many keys there are.
    pub fn len(&self) -> usize
        ensures value { result ≡ length self.now }
        ensures at_most { result < 2 ^ 32 }
    {
        self.keys.len()
    }

    /// Whether a key has a number.
    pub fn contains(&self, key: u64) -> bool
        ensures { result ≡ is_numbered self.now key }
    {
        entry_at(&self.pages, key) != 0
    }

    /// The key with this number, or None from the length on.
    pub fn key(&self, number: usize) -> Option<u64>
        ensures value { result ≡ slice_get self.now number }
        ensures in_range { IfSome result (λ _. number < 2 ^ 32) }
        ensures none { IfNone result (length self.now ≤ number) }
        ensures at_most { length self.now < 2 ^ 32 }
    {
        if number >= self.keys.len() {
            return None;
        }
        Some(u64::from(self.keys[number]))
    }

    /// The number of the object with this key, or None if it has none.
    pub fn number_of(&self, key: u64) -> Option<usize>
        ensures value { result ≡ position (λ k. key == k) self.now }
        ensures none { IfNone result (is_numbered self.now key ≡ false) }
    {
        let entry = entry_at(&self.pages, key);
        if entry == 0 {
            return None;
        }
        Some((entry - 1) as usize)
    }

    /// Gives a key the next number. It fails if memory runs out, for a key of 2^32 or more, and for the 2^32th key.
    #[inline(always)]
    pub fn add(&mut self, key: u64) -> Result<(), NoMemory>
        requires { is_numbered self.old key ≡ false }
        ensures ok { OnOk result (self.new ≡ self.old ++ key ∷ []) }
        ensures at_most { length self.new < 2 ^ 32 }
    {
        let number = self.keys.len();
        if number >= u32::MAX as usize {
            return Err(NoMemory);
        }
        if key > u64::from(u32::MAX) {
            return Err(NoMemory);
        }
        make_room(self.alloc, &mut self.pages, key)?;
        self.keys.push(key as u32)?;
        set_entry(&mut self.pages, key, number as u32 + 1);
        Ok(())
    }
}

/// The objects that were visited: their keys, and which of them are conses.
#[derive(Drop)]
pub struct Numbering {
    pub keys: KeyNumbers,
    pub conses: Sequence<bool>,
}

impl Numbering {
    /// The numbering before any object is visited.
    pub fn new(alloc: Global) -> Numbering
        ensures empty { result.keys ≡ [] }
        ensures cells { result.conses ≡ [] }
    {
        Numbering {
            keys: KeyNumbers::new(alloc),
            conses: Sequence::new(alloc),
        }
    }

    /// Gives a cons or a block the next number. It fails if memory runs out, for a key of 2^32 or more, and for the 2^32th object.
    #[inline(always)]
    pub fn add(&mut self, key: u64, cons: bool) -> Result<(), NoMemory>
        requires { is_numbered self.old.keys key ≡ false }
        ensures after { OnOk result (self.new.keys ≡ self.old.keys ++ key ∷ []) }
        ensures cells { OnOk result (self.new.conses ≡ self.old.conses ++ cons ∷ []) }
        ensures at_most { length self.new.keys < 2 ^ 32 }
    {
        self.keys.add(key)?;
        self.conses.push(cons)
    }
}
