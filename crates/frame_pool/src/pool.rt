//! The frames, and the calls on them.
ghost use Rattle.std.specs.Prelude.{◌≡◌, ◌≢◌, ℕ, ◌+◌, ◌*◌, ◌<◌, ◌≤◌, ◌↔◌, [], length, slice_get, slice_set, slice_index_or, Some, Contains, IfOk, IfSome, IsNone, MatchOption};
ghost use Rattle.index_lists.specs.Chains.{first_of, last_of, next_in, list_at};
ghost use Rattle.frame_pool.specs.Invariant.{IsLatest};
ghost use Rattle.frame_pool.specs.Fills.{Fills, FillsSpan};
ghost use Rattle.store_word.specs.Words.{null_word};
ghost use Rattle.frame_pool.specs.Pool.{fresh_pool, frames_of, page_at, tag_of, with_free, with_latest, with_taken, IsPool, Takes};

use crate::words::FrameWords;
use index_lists::Lists;
use std::alloc::Global;
use std::marker::Model;
use store_word::{NoMemory, PAGE_WORDS, Word};

// The list of the free frames.
const FREE: u32 = 0;

// The list of the taken frames, the least recently used first.
const USED: u32 = 1;

// Greater than each page.
const NO_PAGE: u64 = 1 << 32;

/// Frames of 256 words, each of them free or taken by a page. Frames are numbered from 0.
#[derive(Drop)]
pub struct FramePool {
    chains: Lists,
    pages: Vec<u32>,
    tags: Vec<bool>,
    words: FrameWords,

    // The most recently used frame and its page; the page is 2^32 if no frame is taken.
    latest_page: u64,
    latest_frame: u32,
}

impl Model for FramePool {
    ghost use Rattle.frame_pool.specs.Pool.{Pool};
    ghost use Rattle.frame_pool.specs.Invariant.{pool_of, IsLatest, PoolInvariant};
    ghost use Rattle.index_lists.specs.Chains.{list_at};

    ghost Value = { Pool };

    ghost view = { λ a. pool_of a.chains a.pages.items a.tags.items a.words };

    ghost invariant = { λ a. PoolInvariant a.chains (pool_of a.chains a.pages.items a.tags.items a.words)
        × IsLatest (list_at a.chains 1) a.pages.items a.latest_page a.latest_frame };
}

impl FramePool {
    /// At most 4,096 frames, all of them free. It reserves 2,048 bytes for the words of each frame,
    /// which aren't touched before the frame is used, and no later call allocates memory.
    pub fn new(alloc: Global, frames: u32) -> Result<FramePool, NoMemory>
        requires { frames ≤ 4096 }
        ensures fresh { IfOk result (λ pool. pool ≡ fresh_pool frames) }
        ensures sound { IfOk result IsPool }
    {
        let mut chains = Lists::new(alloc, frames, 2)?;
        for frame in 0..frames {
            chains.push_back(FREE, frame);
        }
        let count = frames as usize;
        let pages = vec![in alloc; 0; count]?;
        let tags = vec![in alloc; false; count]?;
        let words = FrameWords::new(alloc, frames)?;
        Ok(FramePool {
            chains,
            pages,
            tags,
            words,
            latest_page: NO_PAGE,
            latest_frame: 0,
        })
    }

    /// A free frame; None if and only if every frame is taken.
    pub fn free_frame(&self) -> Option<u32>
        ensures first { result ≡ first_of self.now.free }
        ensures none { IsNone result ↔ (length self.now.used ≡ frames_of self.now) }
        ensures free { IfSome result (Contains self.now.free) }
        ensures sound { IsPool self.now }
    {
        self.chains.front(FREE)
    }

    /// A page takes a free frame. The frame's words become NULL and its tag unset, and it is the
    /// most recently used.
    pub fn take(&mut self, frame: u32, page: u32)
        requires { Contains self.old.free frame }
        ensures taken { Takes self.old self.new frame page (λ _. Some null_word) }
        ensures used { Contains self.new.used frame }
        ensures in_range { frame < frames_of self.new }
        ensures sound { IsPool self.new }
    {
        self.claim(frame, page);
        self.clear(frame);
    }

    /// A page takes a free frame with the 256 words of a slice. The frame's tag is unset, and it is
    /// the most recently used.
    pub fn take_filled(&mut self, frame: u32, page: u32, from: &[Word])
        requires free { Contains self.old.free frame }
        requires page { length from.now ≡ PAGE_WORDS }
        ensures taken { Takes self.old self.new frame page (slice_get from.now) }
        ensures used { Contains self.new.used frame }
        ensures in_range { frame < frames_of self.new }
        ensures sound { IsPool self.new }
    {
        self.claim(frame, page);
        self.fill(frame, from);
    }

    // A page takes a free frame, whose words are unchanged. The frame is untagged, and used last.
    fn claim(&mut self, frame: u32, page: u32)
        requires { Contains self.old.free frame }
        ensures after { self.new ≡ with_taken self.old frame page }
        ensures used { Contains self.new.used frame }
        ensures in_range { frame < frames_of self.new }
        ensures sound { IsPool self.new }
    {
        self.chains.remove(frame);
        self.chains.push_back(USED, frame);
        self.pages[frame as usize] = page;
        self.tags[frame as usize] = false;
        self.latest_page = page as u64;
        self.latest_frame = frame;
    }

    // The 256 words of a frame become NULL.
    fn clear(&mut self, frame: u32)
        requires { frame < frames_of self.old }
        ensures words { Fills self.old.words self.new.words frame (λ _. Some null_word) }
        ensures unchanged { self.new ≡ record (self.old) { words = self.new.words } }
        ensures sound { IsPool self.new }
    {
        self.words.clear(frame);
    }

    /// A taken frame becomes free.
    pub fn give_back(&mut self, frame: u32)
        requires { Contains self.old.used frame }
        ensures given { self.new ≡ with_free self.old frame }
        ensures free { Contains self.new.free frame }
        ensures sound { IsPool self.new }
    {
        self.chains.remove(frame);
        self.chains.push_back(FREE, frame);
        let (page, latest) = latest_in(&self.chains, &self.pages);
        self.latest_page = page;
        self.latest_frame = latest;
    }

    /// A taken frame becomes the most recently used. If it is that already, nothing is written.
    pub fn touch(&mut self, frame: u32)
        requires { Contains self.old.used frame }
        ensures after { self.new ≡ with_latest self.old frame }
        ensures used { Contains self.new.used frame }
        ensures in_range { frame < frames_of self.new }
        ensures sound { IsPool self.new }
    {
        if self.latest_frame == frame {
            return;
        }
        self.chains.move_back(frame);
        self.latest_page = self.pages[frame as usize] as u64;
        self.latest_frame = frame;
    }

    /// A frame that a page has taken becomes the most recently used. This is faster than `touch`, unless it is that already.
    pub fn touch_page(&mut self, frame: u32, page: u32)
        requires listed { Contains self.old.used frame }
        requires page { page_at self.old frame ≡ page }
        ensures after { self.new ≡ with_latest self.old frame }
        ensures used { Contains self.new.used frame }
        ensures in_range { frame < frames_of self.new }
        ensures sound { IsPool self.new }
    {
        self.chains.move_back(frame);
        self.latest_page = page as u64;
        self.latest_frame = frame;
    }

    /// The most recently used frame, if this page has taken it; None if another page has, or no frame is taken. To touch the frame
    /// returned would change nothing.
    pub fn latest_of(&self, page: u32) -> Option<u32>
        ensures used { IfSome result (Contains self.now.used) }
        ensures unchanged { IfSome result (λ frame. with_latest self.now frame ≡ self.now) }
        ensures page { IfSome result (λ frame. page_at self.now frame ≡ page) }
        ensures none { IsNone result → (frame : ℕ) → last_of self.now.used ≡ Some frame → page_at self.now frame ≢ page }
        ensures sound { IsPool self.now }
    {
        if self.latest_page == page as u64 {
            Some(self.latest_frame)
        } else {
            None
        }
    }

    /// The least recently used of the taken frames; None if and only if no frame is taken.
    pub fn oldest(&self) -> Option<u32>
        ensures first { result ≡ first_of self.now.used }
        ensures none { IsNone result ↔ (self.now.used ≡ []) }
        ensures used { IfSome result (Contains self.now.used) }
        ensures in_range { IfSome result (λ frame. frame < frames_of self.now) }
        ensures sound { IsPool self.now }
    {
        self.chains.front(USED)
    }

    /// The taken frame that was used next after this one; None if this is the most recently used.
    pub fn after(&self, frame: u32) -> Option<u32>
        requires { Contains self.now.used frame }
        ensures value { result ≡ next_in self.now.used frame }
        ensures used { IfSome result (Contains self.now.used) }
        ensures in_range { IfSome result (λ next. next < frames_of self.now) }
        ensures sound { IsPool self.now }
    {
        self.chains.next(frame)
    }

    /// The page that has taken a frame; None if and only if the frame is free.
    pub fn page_of(&self, frame: u32) -> Option<u32>
        requires { frame < frames_of self.now }
        ensures page { MatchOption result (Contains self.now.free frame)
            (λ page. Contains self.now.used frame × (page ≡ page_at self.now frame)) }
        ensures taken { Contains self.now.used frame → result ≡ Some (page_at self.now frame) }
        ensures free { Contains self.now.free frame → result ≡ None }
        ensures sound { IsPool self.now }
    {
        if self.chains.owner(frame) == Some(USED) {
            Some(self.pages[frame as usize])
        } else {
            None
        }
    }

    /// The 256 words of a frame.
    pub fn words(&self, frame: u32) -> &[Word]
        requires { frame < frames_of self.now }
        ensures size { length result.now ≡ PAGE_WORDS }
        ensures words { (k : ℕ) → k < PAGE_WORDS
            → slice_get result.now k ≡ slice_get self.now.words (PAGE_WORDS * frame + k) }
        ensures sound { IsPool self.now }
    {
        self.words.page(frame)
    }

    /// One word of a frame. The offset is below 256.
    #[inline]
    pub fn word(&self, frame: u32, offset: u32) -> Word
        requires frame { frame < frames_of self.now }
        requires in_range { offset < PAGE_WORDS }
        ensures value { result ≡ slice_index_or self.now.words (PAGE_WORDS * frame + offset) null_word }
        ensures sound { IsPool self.now }
    {
        self.words.word(frame, offset)
    }

    /// Changes one word of a frame. The offset is below 256.
    pub fn set_word(&mut self, frame: u32, offset: u32, word: Word)
        requires frame { frame < frames_of self.old }
        requires in_range { offset < PAGE_WORDS }
        ensures set { self.new
            ≡ record (self.old) { words = slice_set self.old.words (PAGE_WORDS * frame + offset) word } }
        ensures sound { IsPool self.new }
    {
        self.words.set(frame, offset, word);
    }

    /// Changes two consecutive words of a frame. Both offsets are below 256.
    pub fn set_two(&mut self, frame: u32, offset: u32, first: Word, second: Word)
        requires frame { frame < frames_of self.old }
        requires in_range { offset + 1 < PAGE_WORDS }
        ensures set { self.new
            ≡ record (self.old) { words = slice_set (slice_set self.old.words (PAGE_WORDS * frame + offset) first) (PAGE_WORDS * frame + (offset + 1)) second } }
        ensures sound { IsPool self.new }
    {
        self.words.set_two(frame, offset, first, second);
    }

    /// The 256 words of a frame become those of a slice.
    pub fn fill(&mut self, frame: u32, from: &[Word])
        requires frame { frame < frames_of self.old }
        requires page { length from.now ≡ PAGE_WORDS }
        ensures words { Fills self.old.words self.new.words frame (slice_get from.now) }
        ensures unchanged { self.new ≡ record (self.old) { words = self.new.words } }
        ensures sound { IsPool self.new }
    {
        self.words.fill(frame, from);
    }

    /// Copies `count` words of a frame, from an offset on, to an offset of a frame, perhaps the
    /// same one. Both places are within their frame.
    pub fn copy_words(&mut self, from_frame: u32, from: u32, to_frame: u32, to: u32, count: u32)
        requires from_held { from_frame < frames_of self.old }
        requires from { from + count ≤ PAGE_WORDS }
        requires to_held { to_frame < frames_of self.old }
        requires to { to + count ≤ PAGE_WORDS }
        ensures words { FillsSpan self.old.words self.new.words (PAGE_WORDS * to_frame + to) count (λ i. slice_index_or self.old.words (PAGE_WORDS * from_frame + from + i) null_word) }
        ensures unchanged { self.new ≡ record (self.old) { words = self.new.words } }
        ensures sound { IsPool self.new }
    {
        self.words.copy(from_frame, from, to_frame, to, count);
    }

    /// Writes one word to `count` offsets of a frame, from one on. All are below 256.
    pub fn fill_words(&mut self, frame: u32, from: u32, count: u32, word: Word)
        requires frame { frame < frames_of self.old }
        requires from { from + count ≤ PAGE_WORDS }
        ensures words { FillsSpan self.old.words self.new.words (PAGE_WORDS * frame + from) count (λ _. word) }
        ensures unchanged { self.new ≡ record (self.old) { words = self.new.words } }
        ensures sound { IsPool self.new }
    {
        self.words.fill_span(frame, from, count, word);
    }

    /// Whether a frame has its tag.
    pub fn tagged(&self, frame: u32) -> bool
        requires { frame < frames_of self.now }
        ensures value { result ≡ tag_of self.now frame }
        ensures sound { IsPool self.now }
    {
        self.tags[frame as usize]
    }

    /// Sets or clears the tag of a frame.
    pub fn set_tag(&mut self, frame: u32, tag: bool)
        requires { frame < frames_of self.old }
        ensures set { self.new ≡ record (self.old) { tags = slice_set self.old.tags frame tag } }
        ensures sound { IsPool self.new }
    {
        self.tags[frame as usize] = tag;
    }
}

// The page of the last frame in the order of use, and the frame.
fn latest_in(chains: &Lists, pages: &[u32]) -> (u64, u32)
    requires size { length chains.now.lists ≡ 2 }
    requires in_range { (frame : ℕ) → Contains (list_at chains.now 1) frame → frame < length pages.now }
    ensures { IsLatest (list_at chains.now 1) pages.now result.0 result.1 }
{
    match chains.back(USED) {
        Some(frame) => (pages[frame as usize] as u64, frame),
        None => (NO_PAGE, 0),
    }
}
