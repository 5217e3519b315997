//! The level of each region, and the words whose addresses have one of 1 or more.
ghost use Rattle.std.specs.Prelude.{ℕ, List, ◌≡◌, ◌+◌, ◌<◌, ◌↔◌, ◌⊎◌, ◌||◌, IfOk, IsTrue, length, nat_lt, replicate, slice_set};
ghost use Rattle.frame_pool.specs.Pool.{frames_of, tag_of, IsPool};
ghost use Rattle.mem_port.specs.Store.{level_of_word};
ghost use Rattle.mem_port.specs.Tags.{HasEphemeral};
ghost use Rattle.paged_memory.specs.Paging.{stored_pool, StoresPair};

use frame_pool::FramePool;
use mem_port::{tag_after, tag_with};
use std::alloc::Global;
use std::marker::Model;
use store_word::{NoMemory, PAGE_WORDS, Word};

/// The level of each region, and whether any was ever 1 or more: as long as none was, no address has such a level.
#[derive(Drop)]
pub struct RegionLevels {
    levels: Vec<u8>,
    ephemeral: bool,
}

impl Model for RegionLevels {
    ghost use Rattle.std.specs.Prelude.{ℕ, List};
    ghost use Rattle.paged_memory.specs.Levels.{HasNone};

    ghost Value = { List ℕ };

    ghost view = { λ r. r.levels.items };

    ghost invariant = { λ r. HasNone r.ephemeral r.levels.items };
}

impl RegionLevels {
    /// Level 0 for each region.
    pub(crate) fn new(alloc: Global, regions: u32) -> Result<RegionLevels, NoMemory>
        ensures { IfOk result (λ levels. levels ≡ replicate regions 0) }
    {
        let levels = vec![in alloc; 0u8; regions as usize]?;
        Ok(RegionLevels {
            levels,
            ephemeral: false,
        })
    }

    /// The levels, by region.
    #[inline]
    pub(crate) fn all(&self) -> &[u8]
        ensures { result.now ≡ self.now }
    {
        &self.levels
    }

    /// Sets the level of a region.
    pub(crate) fn set(&mut self, region: u32, level: u8)
        requires { region < length self.old }
        ensures { self.new ≡ slice_set self.old region level }
    {
        self.levels[region as usize] = level;
        self.ephemeral = was_or_is(self.ephemeral, level);
    }

    /// Whether a word has an address of level 1 or more.
    #[inline]
    pub(crate) fn is_ephemeral(&self, word: Word) -> bool
        ensures { result ≡ nat_lt 0 (level_of_word self.now word) }
    {
        if !self.ephemeral {
            return false;
        }
        tag_after(false, &self.levels, word)
    }

    /// Sets the tag of a frame if a word has an address of level 1 or more.
    #[inline(always)]
    pub(crate) fn tag_word(&self, pool: &mut FramePool, frame: u32, word: Word)
        requires frame { frame < frames_of pool.old }
        requires sound { IsPool pool.old }
        ensures marks { pool.new ≡ record (pool.old) { tags = slice_set pool.old.tags frame (tag_of pool.old frame || nat_lt 0 (level_of_word self.now word)) } }
        ensures stays_sound { IsPool pool.new }
    {
        if self.is_ephemeral(word) {
            pool.set_tag(frame, true);
        }
    }

    /// Stores a word into a frame, at an offset below 256, and sets the tag of the frame if the word has an address of level 1 or
    /// more.
    #[inline]
    pub(crate) fn store_word(&self, pool: &mut FramePool, frame: u32, offset: u32, word: Word)
        requires frame { frame < frames_of pool.old }
        requires in_range { offset < PAGE_WORDS }
        ensures written { pool.new ≡ stored_pool pool.old frame offset word (tag_of pool.old frame || nat_lt 0 (level_of_word self.now word)) }
        ensures sound { IsPool pool.new }
    {
        pool.set_word(frame, offset, word);
        self.tag_word(pool, frame, word);
    }

    /// Stores two words into a frame, at consecutive offsets below 256, and sets the tag of the frame if one of them has an address
    /// of level 1 or more.
    #[inline(always)]
    pub(crate) fn store_two(
        &self,
        pool: &mut FramePool,
        frame: u32,
        offset: u32,
        first: Word,
        second: Word,
    )
        requires frame { frame < frames_of pool.old }
        requires in_range { offset + 1 < PAGE_WORDS }
        ensures written { StoresPair pool.old pool.new self.now frame offset first second }
        ensures sound { IsPool pool.new }
    {
        pool.set_two(frame, offset, first, second);
        self.tag_word(pool, frame, first);
        self.tag_word(pool, frame, second);
    }

    /// Whether a page is tagged once these words are stored into it. They are looked at only if it was not tagged before, and a
    /// region may have a level of 1 or more.
    pub(crate) fn tag_with(&self, tag: bool, words: &[Word]) -> bool
        ensures { IsTrue result ↔ (IsTrue tag ⊎ HasEphemeral words.now self.now) }
    {
        if !self.ephemeral {
            return tag;
        }
        tag_with(tag, words, &self.levels)
    }
}

// Whether a level was 1 or more, or this one is.
fn was_or_is(was: bool, level: u8) -> bool
    ensures { result ≡ (was || nat_lt 0 level) }
{
    was || level > 0
}
