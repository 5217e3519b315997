//! The memory itself.
ghost use Rattle.std.specs.Prelude.{◌≡◌, ◌*◌, ◌/◌, ◌%◌, ◌<◌, ◌≤◌, ◌↔◌, [], length, replicate, slice_get, eqb, option_map, Some, Contains, IsTrue, IfOk, IfErr};
ghost use Rattle.std.specs.List.{IsDistinct};
ghost use Rattle.store_word.specs.Words.{null_word};
ghost use Rattle.frame_pool.specs.index_lists.Chains.{first_of, next_in};
ghost use Rattle.mem_port.specs.Store.{IsFresh};
ghost use Rattle.frame_pool.specs.Pool.{frames_of, page_at};
ghost use Rattle.page_map.specs.Map.{place_at};
ghost use Rattle.paged_memory.specs.Paging.{marks_of, store_of, resident_of, words_of};

use crate::pager::Pager;
use outer_ports::{PageCalls, Swap, SwapMemory};
use page_map::PagePlace;
use std::alloc::Global;
use std::marker::Model;
use store_word::{
    Count, Levels, PAGE_LEN, PAGE_WORDS, REGION_PAGES, REGION_WORDS, Refused, Space, Word,
};

/// A memory of page frames over a swap device. A page is empty, in a frame, or swapped out.
#[derive(Drop)]
pub struct PagedMemory<D: Swap> {
    pub(crate) pager: Pager,
    pub(crate) frames: u32,
    pub(crate) buffer: Vec<Word>,
    pub(crate) swap: D,
    pub(crate) taken: Count,
}

impl<D: Swap> Model for PagedMemory<D> {
    ghost use Rattle.std.specs.Prelude.{◌≡◌, ℕ, length};
    ghost use Rattle.store_word.specs.declared.sizes.TheConstants.{PAGE_WORDS};
    ghost use Rattle.frame_pool.specs.Pool.{frames_of};
    ghost use Rattle.paged_memory.specs.Paging.{Paging, IsPaged};
    ghost use Rattle.paged_memory.specs.Moves.{paging_of};

    ghost Value = { Paging × D × ℕ };

    ghost view = { λ a. (paging_of a.pager, a.swap, a.taken.total) };

    ghost invariant = { λ a. IsPaged (paging_of a.pager) (D.stored a.swap) × (a.frames ≡ frames_of a.pager.pool) × (length a.buffer.items ≡ PAGE_WORDS) };
}

impl<D: Swap> PagedMemory<D> {
    /// A memory of empty pages over a device, which is prepared: at most 1,024 regions, 32 to 4,096 frames, and a greatest level
    /// of at most 6. If memory runs out the device is returned unchanged. No other call takes memory.
    pub fn open(alloc: Global, space: &Space, mut swap: D) -> Result<PagedMemory<D>, Refused<D>>
        requires regions { space.now.regions ≤ 1024 }
        requires at_least { 32 ≤ space.now.frames }
        requires at_most { space.now.frames ≤ 4096 }
        requires levels { space.now.levels ≤ 6 }

        // A memory of empty pages, none of which is in a frame.
        ensures fresh { IfOk result (λ m. IsFresh (store_of m.0 (D.stored m.1)) space.now.regions space.now.levels) }
        ensures empty { IfOk result (λ m. resident_of m.0 ≡ []) }
        ensures frames { IfOk result (λ m. frames_of m.0.pool ≡ space.now.frames) }

        // The device, prepared or returned.
        ensures ok { IfOk result (λ m. D.stored m.1 ≡ replicate (REGION_WORDS * space.now.regions) null_word) }
        ensures no_fault { IfOk result (λ m. D.faults m.1 ≡ D.faults swap) }
        ensures err { IfErr result (λ refused. refused.back ≡ swap) }
    {
        let Ok(pager) = Pager::new(alloc, space) else {
            return Err(Refused { back: swap });
        };
        let Ok(buffer) = vec![in alloc; Word::null(); PAGE_LEN] else {
            return Err(Refused { back: swap });
        };
        match swap.prepare(alloc, space.regions * REGION_PAGES) {
            Ok(()) => Ok(PagedMemory {
                pager,
                frames: space.frames,
                buffer,
                swap,
                taken: Count::new(),
            }),
            Err(_) => Err(Refused { back: swap }),
        }
    }

    /// Whether a page is in a frame.
    pub fn resident(&self, page: u32) -> bool
        requires { page < length self.now.0.places.places }
        ensures { IsTrue result ↔ Contains (resident_of self.now.0) page }
    {
        matches!(self.pager.places.place_of(page), PagePlace::InFrame(_))
    }

    /// The least recently used of the pages in frames; None if there is none.
    pub fn oldest(&self) -> Option<u32>
        ensures { result ≡ first_of (resident_of self.now.0) }
    {
        self.pager.pool.page_of(self.pager.pool.oldest()?)
    }

    /// How many frames there are. No page is in two of them.
    pub fn frames(&self) -> u32
        ensures frames { result ≡ frames_of self.now.0.pool }
        ensures at_most { length (resident_of self.now.0) ≤ result }
        ensures sound { IsDistinct eqb (resident_of self.now.0) }
    {
        self.frames
    }

    /// The page in a frame that was used next after this one; None if this one was used last.
    pub fn after(&self, page: u32) -> Option<u32>
        requires { Contains (resident_of self.now.0) page }
        ensures { result ≡ next_in (resident_of self.now.0) page }
    {
        match self.pager.places.place_of(page) {
            PagePlace::InFrame(frame) => self.page_after(frame),
            _ => None,
        }
    }

    // The page whose frame was used next after this one.
    fn page_after(&self, frame: u32) -> Option<u32>
        requires { Contains self.now.0.pool.used frame }
        ensures { result ≡ option_map (page_at self.now.0.pool) (next_in self.now.0.pool.used frame) }
    {
        self.pager.pool.page_of(self.pager.pool.after(frame)?)
    }

    /// Whether a page is on the device.
    pub fn is_swapped(&self, page: u32) -> bool
        requires { page < length self.now.0.places.places }
        ensures { IsTrue result ↔ (place_at self.now.0.places page ≡ PagePlace.Swapped) }
    {
        matches!(self.pager.places.place_of(page), PagePlace::Swapped)
    }

    /// The levels, 1 or more, of the addresses on a page that is on the device, as its row has them.
    pub fn row(&self, page: u32) -> Levels
        requires in_range { page < length self.now.0.places.places }
        requires absent { place_at self.now.0.places page ≡ PagePlace.Swapped }
        ensures { result.0 ≡ marks_of self.now.0 page }
    {
        self.pager.rows.levels(page)
    }
}

impl PagedMemory<SwapMemory> {
    /// The word at an address, wherever its page is. The page isn't used.
    pub fn peek(&self, at: u32) -> Word
        requires { at < length (words_of self.now.0 self.now.1.stored) }
        ensures { slice_get (words_of self.now.0 self.now.1.stored) at ≡ Some result }
    {
        match self.pager.places.place_of(at / PAGE_WORDS) {
            PagePlace::Empty => Word::null(),
            PagePlace::InFrame(frame) => self.pager.pool.word(frame, at % PAGE_WORDS),
            PagePlace::Swapped => self.swap.peek(at),
        }
    }

    /// The page calls of its device.
    pub fn page_calls(&self) -> PageCalls
        ensures { (result.writes ≡ self.now.1.writes) × (result.reads ≡ self.now.1.reads) }
    {
        self.swap.page_calls()
    }
}
