//! The trait of a swap device, which stores pages.
ghost use Rattle.std.specs.Prelude.{◌≡◌, ◌+◌, ◌*◌, ◌<◌, ◌≤◌, ℕ, List, length, slice_get, replicate, OnOk, OnErr};
ghost use Rattle.store_word.specs.Faults.{TellsFaults};
ghost use Rattle.store_word.specs.Words.{Parts, null_word};
ghost use Rattle.outer_ports.specs.Pages.{Calls, Fills, with_read, with_write};

use std::alloc::Global;
use store_word::{NoMemory, PAGE_WORDS, SwapFault, Word};

/// A device of pages of 256 words each, numbered from 0.
pub trait Swap {
    /// The words of its pages, one page after another.
    ghost stored: { Self → List Parts };

    /// How many calls failed.
    ghost faults: { Self → ℕ };

    /// The page calls so far, including those that failed.
    ghost calls: { Self → Calls };

    /// Gives the device this many pages of NULL words. If memory runs out, the device is
    /// unchanged.
    fn prepare(&mut self, alloc: Global, pages: u32) -> Result<(), NoMemory>
        ensures ok { OnOk result (stored self.new ≡ replicate (PAGE_WORDS * pages) null_word) }
        ensures err { OnErr result (self.new ≡ self.old) }
        ensures no_fault { faults self.new ≡ faults self.old }
        ensures calls { calls self.new ≡ calls self.old };

    /// Reads a page, as last written, into a slice of 256 words. The count of failed calls rises
    /// if and only if the call fails; the slice may then hold any words.
    fn read_page(&mut self, page: u32, into: &mut [Word]) -> Result<(), SwapFault>
        requires in_range { PAGE_WORDS * page + PAGE_WORDS ≤ length (stored self.old) }
        requires room { length into.old ≡ PAGE_WORDS }
        ensures words { OnOk result ((k : ℕ) → k < PAGE_WORDS →
            slice_get into.new k ≡ slice_get (stored self.old) (PAGE_WORDS * page + k)) }
        ensures unchanged { stored self.new ≡ stored self.old }
        ensures cause { TellsFaults (faults self.old) (faults self.new) result }
        ensures calls { calls self.new ≡ with_read (calls self.old) };

    /// Writes a page of 256 words. If the call fails, no page has changed. The count of failed calls
    /// rises if and only if the call fails.
    fn write_page(&mut self, page: u32, from: &[Word]) -> Result<(), SwapFault>
        requires in_range { PAGE_WORDS * page + PAGE_WORDS ≤ length (stored self.old) }
        requires size { length from.now ≡ PAGE_WORDS }
        ensures ok { OnOk result (Fills (stored self.old) (stored self.new) page from.now) }
        ensures err { OnErr result (stored self.new ≡ stored self.old) }
        ensures cause { TellsFaults (faults self.old) (faults self.new) result }
        ensures calls { calls self.new ≡ with_write (calls self.old) };
}
