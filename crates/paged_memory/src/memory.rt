//! The contract of a memory, and also what each call does to the order of use, to the places and to the marks.
ghost use Rattle.std.specs.Prelude.{◌≡◌, ◌≢◌, ◌+◌, ◌*◌, ◌/◌, ◌<◌, ◌≤◌, ℕ, length, false, nat_lt, drop, min, slice_get, slice_set, Some, All, Contains, IsOk, IfOk, MatchResult, OnOk, OnErr, ◌⊎◌, ◌%◌, ◌||◌, slice_index_or};
ghost use Rattle.store_word.specs.Faults.{TellsFaults};
ghost use Rattle.mem_port.specs.Frames.{EvictsFewer, LeavesRoom, outside};
ghost use Rattle.mem_port.specs.Store.{IsMemory, IsSound, IsClean, IsUnused, StoresNothing, Stores, StoresTwo, Clears, Remarks, level_of_word, Covers};
ghost use Rattle.mem_port.specs.Reading.{Passes};
ghost use Rattle.store_word.specs.Words.{null_word};
ghost use Rattle.page_map.specs.Map.{place_at};
ghost use Rattle.frame_pool.specs.Pool.{frames_of};
ghost use Rattle.paged_memory.specs.Paging.{store_of, swaps_of, words_of, marks_of, resident_of, IsPaged};
ghost use Rattle.outer_ports.specs.Pages.{with_writes};
ghost use Rattle.paged_memory.specs.Order.{Evicts, Uses, UsesEach, Stops, StopsAmong, StopsCalls, StoresOn, calls_to_use, latest};

use crate::marking::{lower, lowest_tagged};
use crate::paged::PagedMemory;
use mem_port::{HOLD_LIMIT, Memory, WordTest, tag_anew, tag_meets, words_before};
use outer_ports::Swap;
use page_map::PagePlace;
use std::sync::ledger::Ledger;
use store_word::{
    Flags, LAST_OFFSET, Levels, PAGE_WORDS, REGION_PAGES, REGION_WORDS, Steps, SwapFault, Word,
};

impl<D: Swap> Memory for PagedMemory<D> {
    ghost seen = { λ m. store_of m.0 (D.stored m.1) };

    ghost held = { λ m page. Contains (resident_of m.0) page };

    ghost resident = { λ m. resident_of m.0 };

    ghost faults = { λ m. D.faults m.1 };

    ghost taken = { λ m. m.2 };

    ghost swaps = { λ m. swaps_of m.0 (D.calls m.1) };

    /// The number of pages. What always holds is known when this is called: of the frames, the places and the rows; that no more pages
    /// are resident than there are frames; and that the words of a swapped page are those that the device holds.
    fn pages(&self) -> u32
        ensures sound { IsSound (store_of self.now.0 (D.stored self.now.1)) result }
        ensures paged { IsPaged self.now.0 (D.stored self.now.1) }
        ensures at_most { length (resident_of self.now.0) ≤ frames_of self.now.0.pool }
        ensures absent { (at : ℕ) → at < PAGE_WORDS * result → place_at self.now.0.places (at / PAGE_WORDS) ≡ PagePlace.Swapped
            → slice_get (words_of self.now.0 (D.stored self.now.1)) at ≡ slice_get (D.stored self.now.1) at }
    {
        self.pager.levels.all().len() as u32 * REGION_PAGES
    }

    /// The word at an address, whose page is used.
    fn read<L: Ledger>(&mut self, at: u32, steps: &mut Steps<L>) -> Result<Word, SwapFault>
        requires { at < length (words_of self.old.0 (D.stored self.old.1)) }

        // What is returned. Nothing is stored.
        ensures value { IfOk result (λ word. slice_get (words_of self.old.0 (D.stored self.old.1)) at ≡ Some word) }
        ensures unchanged { StoresNothing (store_of self.old.0 (D.stored self.old.1)) (store_of self.new.0 (D.stored self.new.1)) }

        // What becomes of the pages in frames.
        ensures succeeds { Contains (resident_of self.old.0) (at / PAGE_WORDS) → IsOk result }
        ensures uses { OnOk result (Uses self.old.0 self.new.0 (at / PAGE_WORDS) false) }
        ensures stops { OnErr result (Stops self.old.0 self.new.0) }
        ensures stays_held { Contains (resident_of self.old.0) (at / PAGE_WORDS)
            → (page : ℕ) → Contains (resident_of self.old.0) page → Contains (resident_of self.new.0) page }

        // Swap errors, the calls of the device, and the cost.
        ensures cause { TellsFaults (D.faults self.old.1) (D.faults self.new.1) result }
        ensures room { LeavesRoom (length (resident_of self.old.0)) (length (resident_of self.new.0)) result }
        ensures taken { self.new.2 ≡ self.old.2 + 1 }
        ensures sound { IsMemory (store_of self.new.0 (D.stored self.new.1)) }
        ensures calls { OnOk result (D.calls self.new.1 ≡ calls_to_use self.old.0 (at / PAGE_WORDS) (D.calls self.old.1)) }
        ensures stopped { OnErr result (StopsCalls self.old.0 (at / PAGE_WORDS) (D.calls self.old.1) (D.calls self.new.1)) }
        ensures cost { steps.new ≡ steps.old + 1 }
    {
        steps.tick();
        self.taken = self.taken.and(&1);
        let frame = self
            .pager
            .use_page(&mut self.buffer, &mut self.swap, at / PAGE_WORDS)?;
        Ok(self.pager.pool.word(frame, at % PAGE_WORDS))
    }

    /// The words from an address on, up to the first that is wanted. Their page is used, as by reading them one after another.
    fn read_until<T: WordTest, L: Ledger>(
        &mut self,
        at: u32,
        count: u32,
        test: &T,
        steps: &mut Steps<L>,
    ) -> Result<u32, SwapFault>
        requires at_least { 0 < count }
        requires in_range { at + count ≤ length (words_of self.old.0 (D.stored self.old.1)) }
        requires page { at % PAGE_WORDS + count ≤ PAGE_WORDS }

        // What is returned. Nothing is stored.
        ensures value { IfOk result (Passes (words_of self.old.0 (D.stored self.old.1)) (T.wanted test.now) at count) }
        ensures unchanged { StoresNothing (store_of self.old.0 (D.stored self.old.1)) (store_of self.new.0 (D.stored self.new.1)) }

        // What becomes of the pages in frames.
        ensures succeeds { Contains (resident_of self.old.0) (at / PAGE_WORDS) → IsOk result }
        ensures uses { OnOk result (Uses self.old.0 self.new.0 (at / PAGE_WORDS) false) }
        ensures stops { OnErr result (Stops self.old.0 self.new.0) }
        ensures stays_held { Contains (resident_of self.old.0) (at / PAGE_WORDS)
            → (page : ℕ) → Contains (resident_of self.old.0) page → Contains (resident_of self.new.0) page }

        // Swap errors, the calls of the device, and the cost.
        ensures cause { TellsFaults (D.faults self.old.1) (D.faults self.new.1) result }
        ensures room { LeavesRoom (length (resident_of self.old.0)) (length (resident_of self.new.0)) result }
        ensures taken { MatchResult result (λ passed. self.new.2 ≡ self.old.2 + min count (passed + 1)) (λ _. self.new.2 ≡ self.old.2 + 1) }
        ensures sound { IsMemory (store_of self.new.0 (D.stored self.new.1)) }
        ensures calls { OnOk result (D.calls self.new.1 ≡ calls_to_use self.old.0 (at / PAGE_WORDS) (D.calls self.old.1)) }
        ensures stopped { OnErr result (StopsCalls self.old.0 (at / PAGE_WORDS) (D.calls self.old.1) (D.calls self.new.1)) }
        ensures cost { MatchResult result (λ passed. steps.new ≡ steps.old + min count (passed + 1)) (λ _. steps.new ≡ steps.old + 1) }
    {
        steps.tick();
        self.taken = self.taken.and(&1);
        let frame = self
            .pager
            .use_page(&mut self.buffer, &mut self.swap, at / PAGE_WORDS)?;
        let start = (at % PAGE_WORDS) as usize;
        let words = self.pager.pool.words(frame);
        let passed = words_before(&words[start..start + count as usize], test);
        let more = u64::from(passed.min(count - 1));
        steps.tick_all(more);
        self.taken = self.taken.and(&more);
        Ok(passed)
    }

    /// Stores a word at an address, whose page is used.
    #[inline(always)]
    fn write<L: Ledger>(
        &mut self,
        at: u32,
        word: Word,
        steps: &mut Steps<L>,
    ) -> Result<(), SwapFault>
        requires { at < length (words_of self.old.0 (D.stored self.old.1)) }

        // What is stored, and that a swap error stores nothing.
        ensures ok { OnOk result (Stores (store_of self.old.0 (D.stored self.old.1)) (store_of self.new.0 (D.stored self.new.1)) at word) }
        ensures err { OnErr result (StoresNothing (store_of self.old.0 (D.stored self.old.1)) (store_of self.new.0 (D.stored self.new.1))) }

        // What becomes of the pages in frames.
        ensures succeeds { Contains (resident_of self.old.0) (at / PAGE_WORDS) → IsOk result }
        ensures uses { OnOk result (Uses self.old.0 self.new.0 (at / PAGE_WORDS) (nat_lt 0 (level_of_word self.old.0.levels word))) }
        ensures stops { OnErr result (Stops self.old.0 self.new.0) }
        ensures stays_held { Contains (resident_of self.old.0) (at / PAGE_WORDS)
            → (page : ℕ) → Contains (resident_of self.old.0) page → Contains (resident_of self.new.0) page }

        // Swap errors, the calls of the device, and the cost.
        ensures cause { TellsFaults (D.faults self.old.1) (D.faults self.new.1) result }
        ensures room { LeavesRoom (length (resident_of self.old.0)) (length (resident_of self.new.0)) result }
        ensures taken { self.new.2 ≡ self.old.2 + 1 }
        ensures sound { IsMemory (store_of self.new.0 (D.stored self.new.1)) }
        ensures calls { OnOk result (D.calls self.new.1 ≡ calls_to_use self.old.0 (at / PAGE_WORDS) (D.calls self.old.1)) }
        ensures stopped { OnErr result (StopsCalls self.old.0 (at / PAGE_WORDS) (D.calls self.old.1) (D.calls self.new.1)) }
        ensures cost { steps.new ≡ steps.old + 1 }
    {
        steps.tick();
        self.taken = self.taken.and(&1);
        let frame = self
            .pager
            .use_page(&mut self.buffer, &mut self.swap, at / PAGE_WORDS)?;
        self.pager
            .levels
            .store_word(&mut self.pager.pool, frame, at % PAGE_WORDS, word);
        Ok(())
    }

    /// Stores two words of one page, which is used once.
    #[inline(always)]
    fn write_two<L: Ledger>(
        &mut self,
        at: u32,
        first: Word,
        second: Word,
        steps: &mut Steps<L>,
    ) -> Result<(), SwapFault>
        requires in_range { at + 1 < length (words_of self.old.0 (D.stored self.old.1)) }
        requires page { at % PAGE_WORDS < LAST_OFFSET }

        // What is stored, and that a swap error stores nothing.
        ensures ok { OnOk result (StoresTwo (store_of self.old.0 (D.stored self.old.1)) (store_of self.new.0 (D.stored self.new.1)) at first second) }
        ensures err { OnErr result (StoresNothing (store_of self.old.0 (D.stored self.old.1)) (store_of self.new.0 (D.stored self.new.1))) }

        // What becomes of the pages in frames.
        ensures succeeds { Contains (resident_of self.old.0) (at / PAGE_WORDS) → IsOk result }
        ensures uses { OnOk result (Uses self.old.0 self.new.0 (at / PAGE_WORDS) (nat_lt 0 (level_of_word self.old.0.levels first) || nat_lt 0 (level_of_word self.old.0.levels second))) }
        ensures stops { OnErr result (Stops self.old.0 self.new.0) }
        ensures stays_held { Contains (resident_of self.old.0) (at / PAGE_WORDS)
            → (page : ℕ) → Contains (resident_of self.old.0) page → Contains (resident_of self.new.0) page }

        // Swap errors, the calls of the device, and the cost.
        ensures cause { TellsFaults (D.faults self.old.1) (D.faults self.new.1) result }
        ensures room { LeavesRoom (length (resident_of self.old.0)) (length (resident_of self.new.0)) result }
        ensures taken { self.new.2 ≡ self.old.2 + 2 }
        ensures sound { IsMemory (store_of self.new.0 (D.stored self.new.1)) }
        ensures calls { OnOk result (D.calls self.new.1 ≡ calls_to_use self.old.0 (at / PAGE_WORDS) (D.calls self.old.1)) }
        ensures stopped { OnErr result (StopsCalls self.old.0 (at / PAGE_WORDS) (D.calls self.old.1) (D.calls self.new.1)) }
        ensures cost { steps.new ≡ steps.old + 2 }
    {
        steps.tick_all(2);
        self.taken = self.taken.and(&2);
        let frame = self
            .pager
            .use_page(&mut self.buffer, &mut self.swap, at / PAGE_WORDS)?;
        self.pager.levels.store_two(&mut self.pager.pool, frame, at % PAGE_WORDS, first, second);
        Ok(())
    }

    /// Uses pages one after another. With 32 frames at least, none of them is evicted for another.
    #[inline(always)]
    fn hold<L: Ledger>(&mut self, pages: &[u32], steps: &mut Steps<L>) -> Result<(), SwapFault>
        requires at_most { length pages.now ≤ HOLD_LIMIT }
        requires in_range { All (λ page. PAGE_WORDS * page < length (words_of self.old.0 (D.stored self.old.1))) pages.now }
        ensures ok { OnOk result (All (λ page. Contains (resident_of self.new.0) page) pages.now) }
        ensures uses { OnOk result (UsesEach self.old.0 (D.calls self.old.1) self.new.0 (D.calls self.new.1) pages.now) }
        ensures stops { OnErr result (StopsAmong self.old.0 (D.calls self.old.1) self.new.0 (D.calls self.new.1) pages.now) }
        ensures unchanged { StoresNothing (store_of self.old.0 (D.stored self.old.1)) (store_of self.new.0 (D.stored self.new.1)) }
        ensures cause { TellsFaults (D.faults self.old.1) (D.faults self.new.1) result }
        ensures room { LeavesRoom (length (resident_of self.old.0)) (length (resident_of self.new.0)) result }
        ensures taken { self.new.2 ≡ self.old.2 + length pages.now }
        ensures sound { IsMemory (store_of self.new.0 (D.stored self.new.1)) }
        ensures cost { steps.new ≡ steps.old + length pages.now }
    {
        let count = pages.len() as u64;
        steps.tick_all(count);
        self.taken = self.taken.and(&count);
        for page in pages {
            self.pager
                .use_page(&mut self.buffer, &mut self.swap, *page)?;
        }
        Ok(())
    }

    /// Copies words between pages in frames: the page of the first is used, and then the page that they are copied to.
    fn copy_on<L: Ledger>(&mut self, from: u32, to: u32, count: u32, steps: &mut Steps<L>)
        requires at_least { 0 < count }
        requires from { from + count ≤ length (words_of self.old.0 (D.stored self.old.1)) }
        requires to { to + count ≤ length (words_of self.old.0 (D.stored self.old.1)) }
        requires apart { (from + count ≤ to) ⊎ (to + count ≤ from) }
        requires from_page { from % PAGE_WORDS + count ≤ PAGE_WORDS }
        requires to_page { to % PAGE_WORDS + count ≤ PAGE_WORDS }
        requires from_held { Contains (resident_of self.old.0) (from / PAGE_WORDS) }
        requires to_held { Contains (resident_of self.old.0) (to / PAGE_WORDS) }

        // The words are copied.
        ensures written { Covers (store_of self.old.0 (D.stored self.old.1)) (store_of self.new.0 (D.stored self.new.1)) to count
            (λ i. slice_index_or (words_of self.old.0 (D.stored self.old.1)) (from + i) null_word) }

        // What becomes of the pages in frames.
        ensures uses { StoresOn self.old.0 self.new.0 (to / PAGE_WORDS) (latest (to / PAGE_WORDS) (latest (from / PAGE_WORDS) (resident_of self.old.0))) }
        ensures stays_held { (page : ℕ) → Contains (resident_of self.old.0) page → Contains (resident_of self.new.0) page }
        ensures resident { length (resident_of self.new.0) ≡ length (resident_of self.old.0) }

        // The device, swap errors and the cost.
        ensures unchanged { self.new.1 ≡ self.old.1 }
        ensures no_fault { D.faults self.new.1 ≡ D.faults self.old.1 }
        ensures taken { self.new.2 ≡ self.old.2 + 2 * count }
        ensures sound { IsMemory (store_of self.new.0 (D.stored self.new.1)) }
        ensures cost { steps.new ≡ steps.old + 2 * count }
    {
        let taken = 2 * count as u64;
        steps.tick_all(taken);
        self.taken = self.taken.and(&taken);
        self.pager.copy_span(from, to, count);
    }

    /// Writes one word to many addresses of a page in a frame, which is used.
    fn fill_on<L: Ledger>(&mut self, at: u32, count: u32, word: Word, steps: &mut Steps<L>)
        requires at_least { 0 < count }
        requires in_range { at + count ≤ length (words_of self.old.0 (D.stored self.old.1)) }
        requires page { at % PAGE_WORDS + count ≤ PAGE_WORDS }
        requires held { Contains (resident_of self.old.0) (at / PAGE_WORDS) }
        ensures filled { Covers (store_of self.old.0 (D.stored self.old.1)) (store_of self.new.0 (D.stored self.new.1)) at count (λ _. word) }

        // What becomes of the pages in frames.
        ensures uses { StoresOn self.old.0 self.new.0 (at / PAGE_WORDS) (latest (at / PAGE_WORDS) (resident_of self.old.0)) }
        ensures stays_held { (page : ℕ) → Contains (resident_of self.old.0) page → Contains (resident_of self.new.0) page }
        ensures resident { length (resident_of self.new.0) ≡ length (resident_of self.old.0) }

        // The device, swap errors and the cost.
        ensures unchanged { self.new.1 ≡ self.old.1 }
        ensures no_fault { D.faults self.new.1 ≡ D.faults self.old.1 }
        ensures taken { self.new.2 ≡ self.old.2 + count }
        ensures sound { IsMemory (store_of self.new.0 (D.stored self.new.1)) }
        ensures cost { steps.new ≡ steps.old + count }
    {
        let taken = count as u64;
        steps.tick_all(taken);
        self.taken = self.taken.and(&taken);
        self.pager.fill_span(at, count, word);
    }

    /// Makes the 16 pages of a region empty, with no call of the device.
    fn clear(&mut self, region: u32)
        requires { region < length self.old.0.levels }
        ensures cleared { Clears (store_of self.old.0 (D.stored self.old.1)) (store_of self.new.0 (D.stored self.new.1)) region }
        ensures resident { resident_of self.new.0 ≡ outside region (resident_of self.old.0) }
        ensures stays_held { (page : ℕ) → page / REGION_PAGES ≢ region → Contains (resident_of self.old.0) page → Contains (resident_of self.new.0) page }
        ensures frames { frames_of self.new.0.pool ≡ frames_of self.old.0.pool }
        ensures unchanged { self.new.1 ≡ self.old.1 }
        ensures taken { self.new.2 ≡ self.old.2 }
        ensures no_fault { D.faults self.new.1 ≡ D.faults self.old.1 }
    {
        let _levels = self.pager.levels.all().len();
        for page in region * REGION_PAGES..region * REGION_PAGES + REGION_PAGES {
            self.pager.empty_page(page);
        }
    }

    /// Writes the level of a region, and nothing else.
    fn set_level(&mut self, region: u32, level: u8)
        requires in_range { region < length self.old.0.levels }
        requires at_most { level ≤ self.old.0.top }
        requires free { IsUnused (store_of self.old.0 (D.stored self.old.1)) region }
        ensures level { store_of self.new.0 (D.stored self.new.1)
            ≡ record (store_of self.old.0 (D.stored self.old.1)) { levels = slice_set self.old.0.levels region level } }
        ensures stays_held { (page : ℕ) → Contains (resident_of self.old.0) page → Contains (resident_of self.new.0) page }
        ensures resident { resident_of self.new.0 ≡ resident_of self.old.0 }
        ensures frames { frames_of self.new.0.pool ≡ frames_of self.old.0.pool }
        ensures unchanged { self.new.1 ≡ self.old.1 }
        ensures taken { self.new.2 ≡ self.old.2 }
        ensures no_fault { D.faults self.new.1 ≡ D.faults self.old.1 }
    {
        self.pager.levels.set(region, level);
    }

    fn level_of(&self, at: u32) -> u8 {
        self.pager.levels.all()[(at / REGION_WORDS) as usize]
    }

    fn marked(&self, page: u32, levels: Levels) -> bool {
        match self.pager.places.place_of(page) {
            PagePlace::InFrame(frame) => tag_meets(
                self.pager.pool.tagged(frame),
                self.pager.top,
                levels,
            ),
            PagePlace::Swapped => self.pager.rows.levels(page).intersects(levels),
            PagePlace::Empty => false,
        }
    }

    /// It searches the frames, and then the table for the next row.
    fn next_marked(&self, from: u32, levels: Levels) -> Option<u32> {
        let swapped = self.pager.rows.next_from(from, levels);
        if !tag_meets(true, self.pager.top, levels) {
            return swapped;
        }
        lower(lowest_tagged(&self.pager.pool, self.frames, from), swapped)
    }

    /// The tag of a page in a frame is set if and only if an address of level 1 or more is stored on it.
    fn remark(&mut self, page: u32)
        requires { PAGE_WORDS * page < length (words_of self.old.0 (D.stored self.old.1)) }
        ensures marks { Remarks (store_of self.old.0 (D.stored self.old.1)) (store_of self.new.0 (D.stored self.new.1)) page }
        ensures refused { (IsClean (store_of self.old.0 (D.stored self.old.1)) page → ⊥) → marks_of self.new.0 page ≡ marks_of self.old.0 page }
        ensures stays_held { (page : ℕ) → Contains (resident_of self.old.0) page → Contains (resident_of self.new.0) page }
        ensures resident { resident_of self.new.0 ≡ resident_of self.old.0 }
        ensures frames { frames_of self.new.0.pool ≡ frames_of self.old.0.pool }
        ensures unchanged { self.new.1 ≡ self.old.1 }
        ensures taken { self.new.2 ≡ self.old.2 }
        ensures sound { IsMemory (store_of self.new.0 (D.stored self.new.1)) }
        ensures no_fault { D.faults self.new.1 ≡ D.faults self.old.1 }
    {
        let place = self.pager.places.place_of(page);
        if let PagePlace::InFrame(frame) = place {
            let tag = tag_anew(
                self.pager.pool.tagged(frame),
                self.pager.pool.words(frame),
                self.pager.levels.all(),
            );
            self.pager.pool.set_tag(frame, tag);
        }
    }

    fn evict_oldest(&mut self, count: u32) -> Result<u32, SwapFault>
        ensures resident { OnOk result (resident_of self.new.0 ≡ drop (min count (length (resident_of self.old.0))) (resident_of self.old.0)) }
        ensures count { IfOk result (λ evicted. evicted ≡ min count (length (resident_of self.old.0))) }
        ensures frames { Evicts self.old.0 self.new.0 }
        ensures stops { OnErr result (EvictsFewer (resident_of self.old.0) (resident_of self.new.0) count) }
        ensures stopped { OnErr result ((gone : ℕ) × (gone < count) × (resident_of self.new.0 ≡ drop gone (resident_of self.old.0)) × (D.calls self.new.1 ≡ with_writes (gone + 1) (D.calls self.old.1))) }
        ensures unchanged { StoresNothing (store_of self.old.0 (D.stored self.old.1)) (store_of self.new.0 (D.stored self.new.1)) }
        ensures cause { TellsFaults (D.faults self.old.1) (D.faults self.new.1) result }
        ensures taken { self.new.2 ≡ self.old.2 }
        ensures sound { IsMemory (store_of self.old.0 (D.stored self.old.1)) → IsMemory (store_of self.new.0 (D.stored self.new.1)) }
        ensures calls { IfOk result (λ evicted. D.calls self.new.1 ≡ with_writes evicted (D.calls self.old.1)) }
    {
        let mut evicted = 0;
        while evicted < count {
            let Some(frame) = self.pager.pool.oldest() else {
                break;
            };
            self.pager.evict(&mut self.swap, frame)?;
            evicted += 1;
        }
        Ok(evicted)
    }
}
