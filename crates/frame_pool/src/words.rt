//! The words of all frames, stored frame after frame.
ghost use Rattle.std.specs.Prelude.{◌≡◌, ℕ, ◌+◌, ◌-◌, ◌*◌, ◌<◌, ◌≤◌, ◌++◌, length, replicate, slice_get, slice_set, slice_index_or, vec_len, vec_capacity, Some, IfOk};
ghost use Rattle.store_word.specs.Words.{null_word};
ghost use Rattle.frame_pool.specs.Fills.{Fills, FillsSpan};

use std::alloc::Global;
use std::marker::Model;
use store_word::{NoMemory, PAGE_LEN, PAGE_WORDS, Word};

/// The words of all frames. Those of the first frames are stored, up to the last frame that was ever written to; the others
/// are NULL. `new` reserves room for all of them, but doesn't touch it.
#[derive(Drop)]
pub(crate) struct FrameWords {
    stored: Vec<Word>,
    blank: Vec<Word>,
    frames: u32,
}

impl Model for FrameWords {
    ghost use Rattle.std.specs.Prelude.{◌≡◌, ◌*◌, List, replicate, vec_capacity};
    ghost use Rattle.store_word.specs.Words.{Parts, null_word};
    ghost use Rattle.store_word.specs.declared.sizes.TheConstants.{PAGE_WORDS};
    ghost use Rattle.frame_pool.specs.Stored.{padded, IsStored};

    ghost Value = { List Parts };

    ghost view = { λ w. padded (PAGE_WORDS * w.frames) w.stored.items };

    ghost invariant = { λ w. IsStored w.frames (vec_capacity w.stored) w.stored.items × (w.blank.items ≡ replicate PAGE_WORDS null_word) };
}

impl FrameWords {
    /// The words of this many frames, at most 4,096, all of them NULL. No later call allocates memory.
    pub(crate) fn new(alloc: Global, frames: u32) -> Result<FrameWords, NoMemory>
        requires { frames ≤ 4096 }
        ensures { IfOk result (λ words. words ≡ replicate (frames * PAGE_WORDS) null_word) }
    {
        let stored = Vec::with_capacity(alloc, frames as usize * PAGE_LEN)?;
        let blank = vec![in alloc; Word::null(); PAGE_LEN]?;
        Ok(FrameWords {
            stored,
            blank,
            frames,
        })
    }

    /// The 256 words of a frame.
    pub(crate) fn page(&self, frame: u32) -> &[Word]
        requires { PAGE_WORDS * frame + PAGE_WORDS ≤ length self.now }
        ensures size { length result.now ≡ PAGE_WORDS }
        ensures words { (k : ℕ) → k < PAGE_WORDS → slice_get result.now k ≡ slice_get self.now (PAGE_WORDS * frame + k) }
    {
        let start = frame as usize * PAGE_LEN;
        if start < self.stored.len() {
            &self.stored[start..start + PAGE_LEN]
        } else {
            &self.blank
        }
    }

    /// One word of a frame.
    #[inline]
    pub(crate) fn word(&self, frame: u32, offset: u32) -> Word
        requires frame { PAGE_WORDS * frame + PAGE_WORDS ≤ length self.now }
        requires in_range { offset < PAGE_WORDS }
        ensures { result ≡ slice_index_or self.now (PAGE_WORDS * frame + offset) null_word }
    {
        let at = frame as usize * PAGE_LEN + offset as usize;
        if at < self.stored.len() {
            self.stored[at]
        } else {
            Word::null()
        }
    }

    /// Changes one word of a frame.
    pub(crate) fn set(&mut self, frame: u32, offset: u32, word: Word)
        requires frame { PAGE_WORDS * frame + PAGE_WORDS ≤ length self.old }
        requires in_range { offset < PAGE_WORDS }
        ensures { self.new ≡ slice_set self.old (PAGE_WORDS * frame + offset) word }
    {
        let start = frame as usize * PAGE_LEN;
        reach(&mut self.stored, start + PAGE_LEN);
        self.stored[start + offset as usize] = word;
    }

    /// Changes two consecutive words of a frame.
    pub(crate) fn set_two(&mut self, frame: u32, offset: u32, first: Word, second: Word)
        requires frame { PAGE_WORDS * frame + PAGE_WORDS ≤ length self.old }
        requires in_range { offset + 1 < PAGE_WORDS }
        ensures { self.new ≡ slice_set (slice_set self.old (PAGE_WORDS * frame + offset) first) (PAGE_WORDS * frame + (offset + 1)) second }
    {
        let start = frame as usize * PAGE_LEN;
        reach(&mut self.stored, start + PAGE_LEN);
        let at = start + offset as usize;
        self.stored[at] = first;
        self.stored[at + 1] = second;
    }

    /// The words of one frame become those of a slice.
    pub(crate) fn fill(&mut self, frame: u32, from: &[Word])
        requires in_range { PAGE_WORDS * frame + PAGE_WORDS ≤ length self.old }
        requires page { length from.now ≡ PAGE_WORDS }
        ensures { Fills self.old self.new frame (slice_get from.now) }
    {
        reach(&mut self.stored, frame as usize * PAGE_LEN + PAGE_LEN);
        fill_frame(&mut self.stored, frame, from);
    }

    /// The words of one frame become NULL.
    pub(crate) fn clear(&mut self, frame: u32)
        requires in_range { PAGE_WORDS * frame + PAGE_WORDS ≤ length self.old }
        ensures { Fills self.old self.new frame (λ _. Some null_word) }
    {
        reach(&mut self.stored, frame as usize * PAGE_LEN + PAGE_LEN);
        clear_frame(&mut self.stored, frame);
    }

    /// Copies `count` words of a frame, from an offset on, to an offset of a frame, perhaps the same one.
    pub(crate) fn copy(&mut self, from_frame: u32, from: u32, to_frame: u32, to: u32, count: u32)
        requires from_held { PAGE_WORDS * from_frame + PAGE_WORDS ≤ length self.old }
        requires from { from + count ≤ PAGE_WORDS }
        requires to_held { PAGE_WORDS * to_frame + PAGE_WORDS ≤ length self.old }
        requires to { to + count ≤ PAGE_WORDS }
        ensures { FillsSpan self.old self.new (PAGE_WORDS * to_frame + to) count (λ i. slice_index_or self.old (PAGE_WORDS * from_frame + from + i) null_word) }
    {
        let start = from_frame as usize * PAGE_LEN;
        let target = to_frame as usize * PAGE_LEN;
        reach(&mut self.stored, start.max(target) + PAGE_LEN);
        copy_span(
            &mut self.stored,
            start + from as usize,
            target + to as usize,
            count as usize,
        );
    }

    /// Writes one word to `count` offsets of a frame, from one on.
    pub(crate) fn fill_span(&mut self, frame: u32, from: u32, count: u32, word: Word)
        requires frame { PAGE_WORDS * frame + PAGE_WORDS ≤ length self.old }
        requires from { from + count ≤ PAGE_WORDS }
        ensures { FillsSpan self.old self.new (PAGE_WORDS * frame + from) count (λ _. word) }
    {
        let start = frame as usize * PAGE_LEN;
        reach(&mut self.stored, start + PAGE_LEN);
        fill_span(
            &mut self.stored,
            start + from as usize,
            count as usize,
            word,
        );
    }
}

// Stores words up to a number of words: those that weren't stored are NULL.
#[inline]
fn reach(stored: &mut Vec<Word>, end: usize)
    requires { end ≤ vec_capacity stored.old }
    ensures items { stored.new.items ≡ stored.old.items ++ replicate (end - length stored.old.items) null_word }
    ensures capacity { vec_capacity stored.old ≤ vec_capacity stored.new }
{
    if stored.len() < end {
        store_more(stored, end);
    }
}

// Stores NULL words up to a number of words.
#[inline(never)]
fn store_more(stored: &mut Vec<Word>, end: usize)
    requires room { end ≤ vec_capacity stored.old }
    requires order { vec_len stored.old < end }
    ensures items { stored.new.items ≡ stored.old.items ++ replicate (end - length stored.old.items) null_word }
    ensures capacity { vec_capacity stored.old ≤ vec_capacity stored.new }
{
    stored.resize(end, Word::null()).unwrap();
}

// The words of one frame become those of a slice.
fn fill_frame(words: &mut [Word], frame: u32, from: &[Word])
    requires in_range { PAGE_WORDS * frame + PAGE_WORDS ≤ length words.old }
    requires page { length from.now ≡ PAGE_WORDS }
    ensures { Fills words.old words.new frame (slice_get from.now) }
{
    let start = frame as usize * PAGE_LEN;
    words[start..start + PAGE_LEN].copy_from_slice(from);
}

// The words of one frame become NULL.
fn clear_frame(words: &mut [Word], frame: u32)
    requires in_range { PAGE_WORDS * frame + PAGE_WORDS ≤ length words.old }
    ensures { Fills words.old words.new frame (λ _. Some null_word) }
{
    let start = frame as usize * PAGE_LEN;
    words[start..start + PAGE_LEN].fill(Word::null());
}

// The `count` words from one place on become those from another.
fn copy_span(words: &mut [Word], from: usize, to: usize, count: usize)
    requires from { from + count ≤ length words.old }
    requires to { to + count ≤ length words.old }
    ensures { FillsSpan words.old words.new to count (λ i. slice_index_or words.old (from + i) null_word) }
{
    words.copy_within(from..from + count, to);
}

// The `count` words from a place on become one word.
fn fill_span(words: &mut [Word], at: usize, count: usize, word: Word)
    requires in_range { at + count ≤ length words.old }
    ensures { FillsSpan words.old words.new at count (λ _. word) }
{
    words[at..at + count].fill(word);
}
