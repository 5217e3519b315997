//! The contract of a memory, on which every layer of the heap is built.
ghost use Rattle.std.specs.Prelude.{◌≡◌, ◌≢◌, ◌+◌, ◌*◌, ◌/◌, ◌<◌, ◌≤◌, ℕ, List, length, slice_get, slice_set, IsOk, IfOk, MatchResult, OnOk, OnErr, IsTrue, ◌↔◌, IfSome, IfNone, All, drop, min, ◌⊎◌, ◌%◌, slice_index_or};
ghost use Rattle.mem_port.specs.Store.{Store, level_at, level_of_word, IsMemory, IsSound, IsFresh, StoresNothing, Stores, StoresTwo, Clears, IsUnused, Remarks, Covers};
ghost use Rattle.mem_port.specs.Swaps.{Swaps};
ghost use Rattle.store_word.specs.Sets.{HasLevel, Meets};
ghost use Rattle.store_word.specs.Words.{Parts, null_word};
ghost use Rattle.store_word.specs.Faults.{TellsFaults};
ghost use Rattle.mem_port.specs.Frames.{EvictsFewer, LeavesRoom, outside};
ghost use Rattle.mem_port.specs.Reading.{Passes};

use crate::reading::WordTest;
use std::sync::ledger::Ledger;
use store_word::{LAST_OFFSET, Levels, PAGE_WORDS, REGION_PAGES, Steps, SwapFault, Word};

/// The most pages of one `hold`.
pub const HOLD_LIMIT: usize = 24;

/// A list of words on pages of 256, in regions of 4,096, which are 16 pages.
///
/// An address counts words from 0: it is on page `at / 256`, in region `at / 4096`. Each region has
/// a level, 0 to 6. Each page has marks: a set of levels with the level of each address of level 1
/// or more that is stored on the page, and maybe more. A page without marks gets them only when
/// such an address is stored on it.
///
/// Using a held page causes no swap error. Pages are held together by `hold`, and stay held
/// until a page is read or written that isn't held, others are held, their region is cleared, or
/// pages are evicted. A swap error changes no word. No call takes memory.
pub trait Memory {
    /// Its words, the level of each region, the marks of each page, and the greatest level.
    ghost seen: { Self → Store };

    /// Whether a page is held.
    ghost held: { Self → ℕ → Type 0 };

    /// The resident pages, the least recently used first.
    ghost resident: { Self → List ℕ };

    /// How many swap errors there were.
    ghost faults: { Self → ℕ };

    /// How many memory accesses were made: one for each read or write, one for each page that is held, two for each
    /// word that is copied, and one for each that is filled.
    ghost taken: { Self → ℕ };

    /// The pages on the swap device, ascending, and the page calls that were made.
    ghost swaps: { Self → Swaps };

    /// The number of pages, 16 for each region and at most 16,384. This call promises what always holds of a
    /// memory: its sizes, the range of its levels, and that the marks of each page have the levels of the
    /// addresses on it. So does each call that uses pages or drops marks.
    fn pages(&self) -> u32
        ensures { IsSound (seen self.now) result };

    /// The word at an address. It takes one memory access. A swap error occurs only if the page isn't held,
    /// and raises the count of swap errors.
    fn read<L: Ledger>(&mut self, at: u32, steps: &mut Steps<L>) -> Result<Word, SwapFault>
        requires { at < length (seen self.old).words }
        ensures value { IfOk result (λ word. slice_get (seen self.old).words at ≡ Some word) }
        ensures unchanged { StoresNothing (seen self.old) (seen self.new) }
        ensures succeeds { held self.old (at / PAGE_WORDS) → IsOk result }
        ensures stays_held { held self.old (at / PAGE_WORDS) → (page : ℕ) → held self.old page → held self.new page }
        ensures cause { TellsFaults (faults self.old) (faults self.new) result }
        ensures room { LeavesRoom (length (resident self.old)) (length (resident self.new)) result }
        ensures taken { taken self.new ≡ taken self.old + 1 }
        ensures sound { IsMemory (seen self.new) }
        ensures cost { steps.new ≡ steps.old + 1 };

    /// Reads up to `count` words, at least one, one after another from an address on, and stops at the first that is
    /// wanted. It returns how many precede that word, or `count` if none is wanted. The words are on one page. Each
    /// word that is read takes one memory access, the wanted one too. A swap error occurs only at the first word, and
    /// only if the page isn't held; it raises the count of swap errors.
    fn read_until<T: WordTest, L: Ledger>(
        &mut self,
        at: u32,
        count: u32,
        test: &T,
        steps: &mut Steps<L>,
    ) -> Result<u32, SwapFault>
        requires at_least { 0 < count }
        requires in_range { at + count ≤ length (seen self.old).words }
        requires page { at % PAGE_WORDS + count ≤ PAGE_WORDS }

        // What is returned. Nothing is stored.
        ensures value { IfOk result (Passes (seen self.old).words (T.wanted test.now) at count) }
        ensures unchanged { StoresNothing (seen self.old) (seen self.new) }

        // The pages, swap errors and the cost.
        ensures succeeds { held self.old (at / PAGE_WORDS) → IsOk result }
        ensures stays_held { held self.old (at / PAGE_WORDS) → (page : ℕ) → held self.old page → held self.new page }
        ensures cause { TellsFaults (faults self.old) (faults self.new) result }
        ensures room { LeavesRoom (length (resident self.old)) (length (resident self.new)) result }
        ensures taken { MatchResult result (λ passed. taken self.new ≡ taken self.old + min count (passed + 1)) (λ _. taken self.new ≡ taken self.old + 1) }
        ensures sound { IsMemory (seen self.new) }
        ensures cost { MatchResult result (λ passed. steps.new ≡ steps.old + min count (passed + 1)) (λ _. steps.new ≡ steps.old + 1) };

    /// Stores a word at an address. It takes one memory access. A swap error occurs only if the page isn't held,
    /// stores nothing, and raises the count of swap errors.
    fn write<L: Ledger>(
        &mut self,
        at: u32,
        word: Word,
        steps: &mut Steps<L>,
    ) -> Result<(), SwapFault>
        requires { at < length (seen self.old).words }
        ensures ok { OnOk result (Stores (seen self.old) (seen self.new) at word) }
        ensures err { OnErr result (StoresNothing (seen self.old) (seen self.new)) }
        ensures succeeds { held self.old (at / PAGE_WORDS) → IsOk result }
        ensures stays_held { held self.old (at / PAGE_WORDS) → (page : ℕ) → held self.old page → held self.new page }
        ensures cause { TellsFaults (faults self.old) (faults self.new) result }
        ensures room { LeavesRoom (length (resident self.old)) (length (resident self.new)) result }
        ensures taken { taken self.new ≡ taken self.old + 1 }
        ensures sound { IsMemory (seen self.new) }
        ensures cost { steps.new ≡ steps.old + 1 };

    /// Stores two words, at an address and at the next one, both or none. They are on one page, which is used once. It
    /// takes two memory accesses. A swap error occurs only if the page isn't held, stores nothing, and raises the
    /// count of swap errors.
    fn write_two<L: Ledger>(
        &mut self,
        at: u32,
        first: Word,
        second: Word,
        steps: &mut Steps<L>,
    ) -> Result<(), SwapFault>
        requires in_range { at + 1 < length (seen self.old).words }
        requires page { at % PAGE_WORDS < LAST_OFFSET }

        // What is stored.
        ensures ok { OnOk result (StoresTwo (seen self.old) (seen self.new) at first second) }
        ensures err { OnErr result (StoresNothing (seen self.old) (seen self.new)) }

        // The pages, swap errors and the cost.
        ensures succeeds { held self.old (at / PAGE_WORDS) → IsOk result }
        ensures stays_held { held self.old (at / PAGE_WORDS) → (page : ℕ) → held self.old page → held self.new page }
        ensures cause { TellsFaults (faults self.old) (faults self.new) result }
        ensures room { LeavesRoom (length (resident self.old)) (length (resident self.new)) result }
        ensures taken { taken self.new ≡ taken self.old + 2 }
        ensures sound { IsMemory (seen self.new) }
        ensures cost { steps.new ≡ steps.old + 2 };

    /// Holds up to 24 pages together, in the order of the list, whatever was held before. Each page
    /// takes one memory access. On a swap error nothing is stored, and the count of swap errors rises.
    fn hold<L: Ledger>(&mut self, pages: &[u32], steps: &mut Steps<L>) -> Result<(), SwapFault>
        requires at_most { length pages.now ≤ HOLD_LIMIT }
        requires in_range { All (λ page. PAGE_WORDS * page < length (seen self.old).words) pages.now }
        ensures ok { OnOk result (All (λ page. held self.new page) pages.now) }
        ensures unchanged { StoresNothing (seen self.old) (seen self.new) }
        ensures cause { TellsFaults (faults self.old) (faults self.new) result }
        ensures room { LeavesRoom (length (resident self.old)) (length (resident self.new)) result }
        ensures taken { taken self.new ≡ taken self.old + length pages.now }
        ensures sound { IsMemory (seen self.new) }
        ensures cost { steps.new ≡ steps.old + length pages.now };

    /// Copies `count` words, at least one, from a held page to a held page; they may not overlap the old
    /// ones. The page of the first is used, and then the page that they are copied to. No swap error
    /// occurs. It takes two memory accesses a word.
    fn copy_on<L: Ledger>(&mut self, from: u32, to: u32, count: u32, steps: &mut Steps<L>)
        requires at_least { 0 < count }
        requires from { from + count ≤ length (seen self.old).words }
        requires to { to + count ≤ length (seen self.old).words }
        requires apart { (from + count ≤ to) ⊎ (to + count ≤ from) }

        // Both places are on one page each, which is held.
        requires from_page { from % PAGE_WORDS + count ≤ PAGE_WORDS }
        requires to_page { to % PAGE_WORDS + count ≤ PAGE_WORDS }
        requires from_held { held self.old (from / PAGE_WORDS) }
        requires to_held { held self.old (to / PAGE_WORDS) }

        // The words are copied.
        ensures written { Covers (seen self.old) (seen self.new) to count (λ i. slice_index_or (seen self.old).words (from + i) null_word) }

        // The pages, swap errors and the cost.
        ensures stays_held { (page : ℕ) → held self.old page → held self.new page }
        ensures resident { length (resident self.new) ≡ length (resident self.old) }
        ensures no_fault { faults self.new ≡ faults self.old }
        ensures taken { taken self.new ≡ taken self.old + 2 * count }
        ensures sound { IsMemory (seen self.new) }
        ensures cost { steps.new ≡ steps.old + 2 * count };

    /// Writes one word to `count` addresses, at least one, of a held page. No swap error occurs. It takes one
    /// memory access a word.
    fn fill_on<L: Ledger>(&mut self, at: u32, count: u32, word: Word, steps: &mut Steps<L>)
        requires at_least { 0 < count }
        requires in_range { at + count ≤ length (seen self.old).words }
        requires page { at % PAGE_WORDS + count ≤ PAGE_WORDS }
        requires held { held self.old (at / PAGE_WORDS) }
        ensures filled { Covers (seen self.old) (seen self.new) at count (λ _. word) }
        ensures stays_held { (page : ℕ) → held self.old page → held self.new page }
        ensures resident { length (resident self.new) ≡ length (resident self.old) }
        ensures no_fault { faults self.new ≡ faults self.old }
        ensures taken { taken self.new ≡ taken self.old + count }
        ensures sound { IsMemory (seen self.new) }
        ensures cost { steps.new ≡ steps.old + count };

    /// Makes the words of a region NULL, and drops the marks of its pages, which are no longer resident. Held
    /// pages of other regions stay held; those of this one have to be held again.
    fn clear(&mut self, region: u32)
        requires { region < length (seen self.old).levels }
        ensures cleared { Clears (seen self.old) (seen self.new) region }
        ensures resident { resident self.new ≡ outside region (resident self.old) }
        ensures stays_held { (page : ℕ) → page / REGION_PAGES ≢ region → held self.old page → held self.new page }
        ensures no_fault { faults self.new ≡ faults self.old }
        ensures taken { taken self.new ≡ taken self.old };

    /// Sets the level, at most the greatest level, of a region whose words are NULL and whose
    /// addresses are in no word.
    fn set_level(&mut self, region: u32, level: u8)
        requires in_range { region < length (seen self.old).levels }
        requires at_most { level ≤ (seen self.old).top }
        requires free { IsUnused (seen self.old) region }
        ensures level { seen self.new ≡ record (seen self.old) { levels = slice_set (seen self.old).levels region level } }
        ensures stays_held { (page : ℕ) → held self.old page → held self.new page }
        ensures resident { resident self.new ≡ resident self.old }
        ensures no_fault { faults self.new ≡ faults self.old }
        ensures taken { taken self.new ≡ taken self.old };

    /// The level of the region of an address.
    fn level_of(&self, at: u32) -> u8
        requires { at < length (seen self.now).words }
        ensures { result ≡ level_at (seen self.now).levels at };

    /// Whether the marks of a page have one of these levels.
    fn marked(&self, page: u32, levels: Levels) -> bool
        requires { PAGE_WORDS * page < length (seen self.now).words }
        ensures { IsTrue result ↔ Meets ((seen self.now).marks page) levels.0 };

    /// The lowest page, from this one on, whose marks have one of these levels. It is None if and only
    /// if there is no such page.
    fn next_marked(&self, from: u32, levels: Levels) -> Option<u32>
        ensures found { IfSome result (λ page. (from ≤ page) × (PAGE_WORDS * page < length (seen self.now).words) × Meets ((seen self.now).marks page) levels.0) }
        ensures lowest { IfSome result (λ page. (other : ℕ) → from ≤ other → other < page → ¬ Meets ((seen self.now).marks other) levels.0) }
        ensures none { IfNone result ((other : ℕ) → from ≤ other → PAGE_WORDS * other < length (seen self.now).words
            → ¬ Meets ((seen self.now).marks other) levels.0) };

    /// Drops the marks of a page if no address of level 1 or more is on it.
    fn remark(&mut self, page: u32)
        requires { PAGE_WORDS * page < length (seen self.old).words }
        ensures marks { Remarks (seen self.old) (seen self.new) page }
        ensures stays_held { (page : ℕ) → held self.old page → held self.new page }
        ensures resident { resident self.new ≡ resident self.old }
        ensures no_fault { faults self.new ≡ faults self.old }
        ensures sound { IsMemory (seen self.new) }
        ensures taken { taken self.new ≡ taken self.old };

    /// Evicts this many resident pages, or all if there are fewer, the least recently used
    /// first, and returns how many. Afterwards a page that was held may no longer be. If it fails, which raises
    /// the count of swap errors, it has evicted fewer, the least recently used first.
    fn evict_oldest(&mut self, count: u32) -> Result<u32, SwapFault>
        ensures resident { OnOk result (resident self.new ≡ drop (min count (length (resident self.old))) (resident self.old)) }
        ensures count { IfOk result (λ evicted. evicted ≡ min count (length (resident self.old))) }
        ensures stops { OnErr result (EvictsFewer (resident self.old) (resident self.new) count) }
        ensures unchanged { StoresNothing (seen self.old) (seen self.new) }
        ensures cause { TellsFaults (faults self.old) (faults self.new) result }
        ensures sound { IsMemory (seen self.old) → IsMemory (seen self.new) }
        ensures taken { taken self.new ≡ taken self.old };
}

/// What the marks say about the addresses on a page: if they have none of these levels, no word on
/// the page has an address of one.
pub fn marks_tell_levels()
    ensures { (s : Store) (pages page set at : ℕ) (word : Parts) → IsSound s pages → ¬ Meets (s.marks page) set
        → at / PAGE_WORDS ≡ page → slice_get s.words at ≡ Some word → 1 ≤ level_of_word s.levels word
        → ¬ HasLevel set (level_of_word s.levels word) }
{}

/// A new memory has no address anywhere, so each of its regions may be given a level.
pub fn fresh_regions_are_unused()
    ensures { (s : Store) (regions greatest region : ℕ) → IsFresh s regions greatest → IsUnused s region }
{}
