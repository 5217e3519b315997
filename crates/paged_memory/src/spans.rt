//! Stores several words of a page in a frame together, with no call of the device.
ghost use Rattle.std.specs.Prelude.{◌≡◌, ◌+◌, ◌/◌, ◌%◌, ◌<◌, ◌≤◌, List, Bool, slice_index_or, Contains};
ghost use Rattle.store_word.specs.Words.{Parts, null_word};
ghost use Rattle.page_map.specs.Map.{place_at};
ghost use Rattle.frame_pool.specs.Pool.{frames_of, with_latest, IsPool};

use crate::pager::Pager;
use page_map::PagePlace;
use store_word::{PAGE_WORDS, Word};

impl Pager {
    ghost use Rattle.paged_memory.specs.Paging.{resident_of, words_of, IsPaged};
    ghost use Rattle.paged_memory.specs.Order.{latest};
    ghost use Rattle.paged_memory.specs.Moves.{paging_of};
    ghost use Rattle.paged_memory.specs.Spans.{Lays, TagsSpan};

    // Uses a resident page: it is the most recently used. Returns its frame.
    fn use_resident(&mut self, page: u32) -> u32
        requires paged { (stored : List Parts) × IsPaged (paging_of self.old) stored }
        requires held { Contains (resident_of (paging_of self.old)) page }
        ensures frame { place_at self.old.places page ≡ PagePlace.InFrame result }
        ensures after { paging_of self.new ≡ record (paging_of self.old) { pool = with_latest self.old.pool result } }
        ensures sound { IsPool self.new.pool }
    {
        let PagePlace::InFrame(frame) = self.places.place_of(page) else {
            // A resident page is in a frame.
            unreachable!()
        };
        self.pool.touch(frame);
        frame
    }

    // Sets the tag of a frame if one of the `count` words from an offset on has an address of level 1 or more. They are read only
    // if it has none.
    fn tag_span(&mut self, frame: u32, offset: u32, count: u32)
        requires frame { frame < frames_of self.old.pool }
        requires in_range { offset + count ≤ PAGE_WORDS }
        ensures marks { (tag : Bool) × TagsSpan self.old.pool self.new.pool self.old.levels frame offset count tag }
        ensures unchanged { paging_of self.new ≡ record (paging_of self.old) { pool = self.new.pool } }
        ensures sound { IsPool self.new.pool }
    {
        let words = self.pool.words(frame);
        let span = &words[offset as usize..(offset + count) as usize];
        let tag = self.levels.tag_with(self.pool.tagged(frame), span);
        self.pool.set_tag(frame, tag);
    }

    /// Copies `count` words of a resident page to a resident page.
    pub(crate) fn copy_span(&mut self, from: u32, to: u32, count: u32)
        requires paged { (stored : List Parts) × IsPaged (paging_of self.old) stored }
        requires at_least { 0 < count }
        requires from_page { from % PAGE_WORDS + count ≤ PAGE_WORDS }
        requires to_page { to % PAGE_WORDS + count ≤ PAGE_WORDS }
        requires from_held { Contains (resident_of (paging_of self.old)) (from / PAGE_WORDS) }
        requires to_held { Contains (resident_of (paging_of self.old)) (to / PAGE_WORDS) }
        ensures { (stored : List Parts) → IsPaged (paging_of self.old) stored
            → Lays (paging_of self.old) stored (paging_of self.new) to count (λ i. slice_index_or (words_of (paging_of self.old) stored) (from + i) null_word)
            (latest (to / PAGE_WORDS) (latest (from / PAGE_WORDS) (resident_of (paging_of self.old)))) }
    {
        let from_frame = self.use_resident(from / PAGE_WORDS);
        let to_frame = self.use_resident(to / PAGE_WORDS);
        self.pool.copy_words(
            from_frame,
            from % PAGE_WORDS,
            to_frame,
            to % PAGE_WORDS,
            count,
        );
        self.tag_span(to_frame, to % PAGE_WORDS, count);
    }

    /// Writes one word to `count` addresses of a resident page.
    pub(crate) fn fill_span(&mut self, at: u32, count: u32, word: Word)
        requires paged { (stored : List Parts) × IsPaged (paging_of self.old) stored }
        requires at_least { 0 < count }
        requires page { at % PAGE_WORDS + count ≤ PAGE_WORDS }
        requires held { Contains (resident_of (paging_of self.old)) (at / PAGE_WORDS) }
        ensures { (stored : List Parts) → IsPaged (paging_of self.old) stored
            → Lays (paging_of self.old) stored (paging_of self.new) at count (λ _. word) (latest (at / PAGE_WORDS) (resident_of (paging_of self.old))) }
    {
        let frame = self.use_resident(at / PAGE_WORDS);
        self.pool.fill_words(frame, at % PAGE_WORDS, count, word);
        self.levels.tag_word(&mut self.pool, frame, word);
    }
}
