//! Pages that take memory only when they are first written.
ghost use Rattle.std.specs.Prelude.{◌≡◌, ◌+◌, ◌*◌, ◌<◌, ◌≤◌, ℕ, List, [], length, slice_get, replicate, Some, IfOk};
ghost use Rattle.store_word.specs.Words.{null_word};
ghost use Rattle.outer_ports.specs.Pages.{Fills};

use std::alloc::Global;
use std::marker::Model;
use store_word::{NoMemory, PAGE_LEN, PAGE_WORDS, Word};

/// Pages of 256 words each, NULL words at first. A page gets its slot when it is first written, and slots are in the order
/// of these first writes. `of_pages` reserves a slot for each page, but doesn't touch it before that write.
#[derive(Drop)]
pub(crate) struct PageSlots {
    slots: Vec<Option<u32>>,
    words: Vec<Word>,
}

impl Model for PageSlots {
    ghost use Rattle.std.specs.Prelude.{List, ◌*◌, ◌≤◌, length, vec_capacity};
    ghost use Rattle.store_word.specs.Words.{Parts};
    ghost use Rattle.store_word.specs.declared.sizes.TheConstants.{PAGE_WORDS};
    ghost use Rattle.outer_ports.specs.Slots.{words_of, IsSlotted};

    ghost Value = { List Parts };

    ghost view = { λ s. words_of s.slots.items s.words.items };

    ghost invariant = { λ s. IsSlotted s.slots.items s.words.items × (PAGE_WORDS * length s.slots.items ≤ vec_capacity s.words) };
}

impl PageSlots {
    /// No pages. It allocates no memory.
    pub(crate) fn none(alloc: Global) -> PageSlots
        ensures { result ≡ [] }
    {
        PageSlots {
            slots: Vec::new(alloc),
            words: Vec::new(alloc),
        }
    }

    /// This many pages of NULL words. No later call allocates memory.
    pub(crate) fn of_pages(alloc: Global, pages: u32) -> Result<PageSlots, NoMemory>
        ensures { IfOk result (λ all. all ≡ replicate (PAGE_WORDS * pages) null_word) }
    {
        let slots = vec![in alloc; None; pages as usize]?;
        let words = Vec::with_capacity(alloc, PAGE_LEN * pages as usize)?;
        Ok(PageSlots { slots, words })
    }

    /// The word at an address.
    pub(crate) fn word(&self, at: u32) -> Word
        requires { at < length self.now }
        ensures { slice_get self.now at ≡ Some result }
    {
        match self.slots[at as usize / PAGE_LEN] {
            Some(slot) => self.words[PAGE_LEN * slot as usize + at as usize % PAGE_LEN],
            None => Word::null(),
        }
    }

    /// Copies the words of a page to `into`.
    pub(crate) fn read(&self, page: u32, into: &mut [Word])
        requires in_range { PAGE_WORDS * page + PAGE_WORDS ≤ length self.now }
        requires room { length into.old ≡ PAGE_WORDS }
        ensures { (k : ℕ) → k < PAGE_WORDS → slice_get into.new k ≡ slice_get self.now (PAGE_WORDS * page + k) }
    {
        match self.slots[page as usize] {
            Some(slot) => read_words(&self.words, slot, into),
            None => into.fill(Word::null()),
        }
    }

    /// Writes these words to a page: to its slot, or to the next free slot if it has none.
    pub(crate) fn write(&mut self, page: u32, from: &[Word])
        requires in_range { PAGE_WORDS * page + PAGE_WORDS ≤ length self.old }
        requires size { length from.now ≡ PAGE_WORDS }
        ensures { Fills self.old self.new page from.now }
    {
        match self.slots[page as usize] {
            Some(slot) => write_words(&mut self.words, slot, from),
            None => {
                let slot = (self.words.len() / PAGE_LEN) as u32;
                self.words.extend_from_slice(from).unwrap();
                self.slots[page as usize] = Some(slot);
            }
        }
    }
}

// Copies the words of one slot to `into`.
fn read_words(words: &[Word], slot: u32, into: &mut [Word])
    requires in_range { PAGE_WORDS * slot + PAGE_WORDS ≤ length words.now }
    requires room { length into.old ≡ PAGE_WORDS }
    ensures { (k : ℕ) → k < PAGE_WORDS → slice_get into.new k ≡ slice_get words.now (PAGE_WORDS * slot + k) }
{
    let at = PAGE_LEN * slot as usize;
    into.copy_from_slice(&words[at..at + PAGE_LEN]);
}

// Writes these words to one slot.
fn write_words(words: &mut [Word], slot: u32, from: &[Word])
    requires in_range { PAGE_WORDS * slot + PAGE_WORDS ≤ length words.old }
    requires size { length from.now ≡ PAGE_WORDS }
    ensures { Fills words.old words.new slot from.now }
{
    let at = PAGE_LEN * slot as usize;
    words[at..at + PAGE_LEN].copy_from_slice(from);
}
