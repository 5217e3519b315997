//! A memory in one vector of words, with a tag for each page. It has no frames, no page of it is
//! resident, and no swap error occurs.
ghost use Rattle.std.specs.Prelude.{◌≡◌, ◌<◌, ◌≤◌, ℕ, length, slice_get, Some, IfOk, ◌+◌, slice_index_or};
ghost use Rattle.mem_port.specs.Plain.{plain_store};
ghost use Rattle.mem_port.specs.Store.{IsFresh, IsMemory, Overwrites, Stores};
ghost use Rattle.store_word.specs.Words.{null_word};

use crate::memory::Memory;
use crate::reading::{WordTest, words_before};
use crate::tags::{tag_after, tag_anew, tag_meets, tag_with};
use std::alloc::Global;
use std::marker::Model;
use std::sync::ledger::Ledger;
use store_word::{
    Count, Levels, NoMemory, PAGE_LEN, PAGE_WORDS, REGION_LEN, REGION_PAGES, REGION_WORDS, Space,
    Steps, SwapFault, Word,
};

/// A memory without frames: every page of it is held at any time. It takes 8 bytes a word.
#[derive(Drop)]
pub struct PlainMemory {
    words: Vec<Word>,
    levels: Vec<u8>,
    tags: Vec<bool>,
    top: u8,
    taken: Count,
}

impl Model for PlainMemory {
    ghost use Rattle.mem_port.specs.Plain.{Plain, IsPlain};

    ghost Value = { Plain };

    ghost view = { λ m. record { words = m.words.items; levels = m.levels.items; tags = m.tags.items; top = m.top; taken = m.taken.total } };

    ghost invariant = { λ m. IsPlain (record { words = m.words.items; levels = m.levels.items; tags = m.tags.items; top = m.top; taken = m.taken.total }) };
}

impl PlainMemory {
    /// A memory of NULL words at level 0: at most 1,024 regions, and a greatest level of at most 6.
    pub fn new(alloc: Global, space: &Space) -> Result<PlainMemory, NoMemory>
        requires regions { space.now.regions ≤ 1024 }
        requires levels { space.now.levels ≤ 6 }
        ensures { IfOk result (λ memory. IsFresh (plain_store memory) space.now.regions space.now.levels) }
    {
        let regions = space.regions as usize;
        let words = vec![in alloc; Word::null(); regions * REGION_LEN]?;
        let levels = vec![in alloc; 0u8; regions]?;
        let tags = vec![in alloc; false; regions * REGION_PAGES as usize]?;
        Ok(PlainMemory {
            words,
            levels,
            tags,
            top: space.levels,
            taken: Count::new(),
        })
    }

    // Stores a word at an address, and tags its page if the word has an address of level 1 or more.
    fn store(&mut self, at: u32, word: Word)
        requires { at < length self.old.words }
        ensures written { Stores (plain_store self.old) (plain_store self.new) at word }
        ensures sound { IsMemory (plain_store self.new) }
        ensures taken { self.new.taken ≡ self.old.taken }
    {
        let page = (at / PAGE_WORDS) as usize;
        let tag = tag_after(self.tags[page], &self.levels, word);
        self.words[at as usize] = word;
        self.tags[page] = tag;
    }
}

impl Memory for PlainMemory {
    ghost use Rattle.std.specs.Prelude.{[]};
    ghost use Rattle.mem_port.specs.Plain.{plain_store};
    ghost use Rattle.mem_port.specs.Swaps.{no_swaps};

    ghost seen = { plain_store };

    ghost held = { λ _ _. Unit {0} };

    ghost resident = { λ _. [] };

    ghost faults = { λ _. 0 };

    ghost taken = { λ p. p.taken };

    ghost swaps = { λ _. no_swaps };

    fn pages(&self) -> u32 {
        self.tags.len() as u32
    }

    fn read<L: Ledger>(&mut self, at: u32, steps: &mut Steps<L>) -> Result<Word, SwapFault> {
        steps.tick();
        self.taken = self.taken.and(&1);
        Ok(self.words[at as usize])
    }

    fn read_until<T: WordTest, L: Ledger>(
        &mut self,
        at: u32,
        count: u32,
        test: &T,
        steps: &mut Steps<L>,
    ) -> Result<u32, SwapFault> {
        let words = &self.words[at as usize..(at + count) as usize];
        let passed = words_before(words, test);
        let read = u64::from(count.min(passed + 1));
        steps.tick_all(read);
        self.taken = self.taken.and(&read);
        Ok(passed)
    }

    fn write<L: Ledger>(
        &mut self,
        at: u32,
        word: Word,
        steps: &mut Steps<L>,
    ) -> Result<(), SwapFault> {
        steps.tick();
        self.taken = self.taken.and(&1);
        self.store(at, word);
        Ok(())
    }

    fn write_two<L: Ledger>(
        &mut self,
        at: u32,
        first: Word,
        second: Word,
        steps: &mut Steps<L>,
    ) -> Result<(), SwapFault> {
        steps.tick_all(2);
        self.taken = self.taken.and(&2);
        self.store(at, first);
        self.store(at + 1, second);
        Ok(())
    }

    fn hold<L: Ledger>(&mut self, pages: &[u32], steps: &mut Steps<L>) -> Result<(), SwapFault> {
        let count = pages.len() as u64;
        steps.tick_all(count);
        self.taken = self.taken.and(&count);
        Ok(())
    }

    fn copy_on<L: Ledger>(&mut self, from: u32, to: u32, count: u32, steps: &mut Steps<L>) {
        let taken = 2 * count as u64;
        steps.tick_all(taken);
        self.taken = self.taken.and(&taken);
        let (start, end) = (to as usize, to as usize + count as usize);
        copy_range(&mut self.words, from as usize, start, count as usize);
        let page = (to / PAGE_WORDS) as usize;
        let tag = tag_with(self.tags[page], &self.words[start..end], &self.levels);
        self.tags[page] = tag;
    }

    fn fill_on<L: Ledger>(&mut self, at: u32, count: u32, word: Word, steps: &mut Steps<L>) {
        let taken = count as u64;
        steps.tick_all(taken);
        self.taken = self.taken.and(&taken);
        let page = (at / PAGE_WORDS) as usize;
        let tag = tag_after(self.tags[page], &self.levels, word);
        fill_range(
            &mut self.words,
            at as usize,
            at as usize + count as usize,
            word,
        );
        self.tags[page] = tag;
    }

    fn clear(&mut self, region: u32) {
        let region = region as usize;
        fill_range(
            &mut self.words,
            region * REGION_LEN,
            region * REGION_LEN + REGION_LEN,
            Word::null(),
        );
        fill_range(
            &mut self.tags,
            region * REGION_PAGES as usize,
            region * REGION_PAGES as usize + REGION_PAGES as usize,
            false,
        );
    }

    fn set_level(&mut self, region: u32, level: u8) {
        self.levels[region as usize] = level;
    }

    fn level_of(&self, at: u32) -> u8 {
        self.levels[(at / REGION_WORDS) as usize]
    }

    fn marked(&self, page: u32, levels: Levels) -> bool {
        tag_meets(self.tags[page as usize], self.top, levels)
    }

    fn next_marked(&self, from: u32, levels: Levels) -> Option<u32> {
        for page in from..self.tags.len() as u32 {
            if self.marked(page, levels) {
                return Some(page);
            }
        }
        None
    }

    fn remark(&mut self, page: u32) {
        let page = page as usize;
        let words = &self.words[PAGE_LEN * page..PAGE_LEN * page + PAGE_LEN];
        let tag = tag_anew(self.tags[page], words, &self.levels);
        self.tags[page] = tag;
    }

    fn evict_oldest(&mut self, _count: u32) -> Result<u32, SwapFault> {
        Ok(0)
    }
}

// Writes a value to the places from one up to another.
fn fill_range<T: Copy>(xs: &mut [T], from: usize, to: usize, value: T)
    requires order { from ≤ to }
    requires in_range { to ≤ length xs.old }
    ensures size { length xs.new ≡ length xs.old }
    ensures before { (k : ℕ) → k < from → slice_get xs.new k ≡ slice_get xs.old k }
    ensures filled { (k : ℕ) → from ≤ k → k < to → slice_get xs.new k ≡ Some value }
    ensures unchanged { (k : ℕ) → to ≤ k → slice_get xs.new k ≡ slice_get xs.old k }
{
    for i in from..to {
        xs[i] = value;
    }
}

// Copies `count` words from one place to another.
fn copy_range(words: &mut [Word], from: usize, to: usize, count: usize)
    requires from { from + count ≤ length words.old }
    requires to { to + count ≤ length words.old }
    ensures { Overwrites words.old words.new to count (λ i. slice_index_or words.old (from + i) null_word) }
{
    words.copy_within(from..from + count, to);
}
