//! A swap device in memory.
ghost use Rattle.std.specs.Prelude.{◌≡◌, ◌+◌, ◌*◌, ◌<◌, ◌≤◌, ◌↔◌, ℕ, [], length, slice_get, replicate, Some, OnOk, OnErr, IsErr};
ghost use Rattle.store_word.specs.Faults.{TellsFaults};
ghost use Rattle.store_word.specs.Words.{null_word};
ghost use Rattle.outer_ports.specs.Pages.{Device, Fills, after_page_call, after_read, after_write, faults_of};

use crate::swaps::page_slots::PageSlots;
use crate::swaps::swap::Swap;
use std::alloc::Global;
use std::marker::Model;
use store_word::{NoMemory, PAGE_WORDS, SwapFault, Word};

/// A swap device in memory. At most one of its page calls fails.
#[derive(Drop)]
pub struct SwapMemory {
    pages: PageSlots,
    fail: u32,
    calls: u64,
    writes: u64,
    reads: u64,
}

/// The page calls of a device, including those that failed.
#[derive(Clone, Copy, Debug, PartialEq, Eq)]
pub struct PageCalls {
    pub writes: u64,
    pub reads: u64,
}

impl Model for SwapMemory {
    ghost use Rattle.outer_ports.specs.Pages.{Device};

    ghost Value = { Device };

    ghost view = { λ s. record { stored = s.pages; fail = s.fail; calls = s.calls; writes = s.writes; reads = s.reads } };
}

impl SwapMemory {
    /// A device without pages. Only its page call number `fail` fails, counted from 1 over reads and
    /// writes; if `fail` is 0, none does. It allocates no memory.
    pub fn new(alloc: Global, fail: u32) -> SwapMemory
        ensures { result ≡ record { stored = []; fail = fail; calls = 0; writes = 0; reads = 0 } }
    {
        SwapMemory {
            pages: PageSlots::none(alloc),
            fail,
            calls: 0,
            writes: 0,
            reads: 0,
        }
    }

    /// The word at an address, as the device stores it. This isn't a page call.
    pub fn peek(&self, at: u32) -> Word
        requires { at < length self.now.stored }
        ensures { slice_get self.now.stored at ≡ Some result }
    {
        self.pages.word(at)
    }

    /// The number of page writes and page reads so far, including those that failed.
    pub fn page_calls(&self) -> PageCalls
        ensures { (result.writes ≡ self.now.writes) × (result.reads ≡ self.now.reads) }
    {
        PageCalls {
            writes: self.writes,
            reads: self.reads,
        }
    }

    // Counts a page call, and fails if this is the call that has to fail.
    fn call(&mut self) -> Result<(), SwapFault>
        ensures after { self.new ≡ after_page_call self.old }
        ensures fails { IsErr result ↔ (self.old.calls + 1 ≡ self.old.fail) }
        ensures cause { TellsFaults (faults_of self.old) (faults_of self.new) result }
    {
        self.calls = self.calls.saturating_add(1);
        if self.calls == self.fail as u64 {
            return Err(SwapFault);
        }
        Ok(())
    }
}

impl Swap for SwapMemory {
    ghost stored = { λ s. s.stored };

    ghost faults = { λ s. faults_of s };

    ghost calls = { λ s. record { writes = s.writes; reads = s.reads } };

    fn prepare(&mut self, alloc: Global, pages: u32) -> Result<(), NoMemory>
        ensures ok { OnOk result (self.new ≡ record self.old { stored = replicate (PAGE_WORDS * pages) null_word }) }
        ensures err { OnErr result (self.new ≡ self.old) }
    {
        let pages = PageSlots::of_pages(alloc, pages)?;
        self.pages = pages;
        Ok(())
    }

    fn read_page(&mut self, page: u32, into: &mut [Word]) -> Result<(), SwapFault>
        requires in_range { PAGE_WORDS * page + PAGE_WORDS ≤ length self.old.stored }
        requires room { length into.old ≡ PAGE_WORDS }
        ensures words { OnOk result ((k : ℕ) → k < PAGE_WORDS →
            slice_get into.new k ≡ slice_get self.old.stored (PAGE_WORDS * page + k)) }
        ensures after { self.new ≡ after_read self.old }
        ensures fails { IsErr result ↔ (self.old.calls + 1 ≡ self.old.fail) }
        ensures cause { TellsFaults (faults_of self.old) (faults_of self.new) result }
    {
        self.reads = self.reads.saturating_add(1);
        self.call()?;
        self.pages.read(page, into);
        Ok(())
    }

    fn write_page(&mut self, page: u32, from: &[Word]) -> Result<(), SwapFault>
        requires in_range { PAGE_WORDS * page + PAGE_WORDS ≤ length self.old.stored }
        requires size { length from.now ≡ PAGE_WORDS }
        ensures ok { OnOk result (Fills self.old.stored self.new.stored page from.now) }
        ensures err { OnErr result (self.new.stored ≡ self.old.stored) }
        ensures after { self.new ≡ record (after_write self.old) { stored = self.new.stored } }
        ensures fails { IsErr result ↔ (self.old.calls + 1 ≡ self.old.fail) }
        ensures cause { TellsFaults (faults_of self.old) (faults_of self.new) result }
    {
        self.writes = self.writes.saturating_add(1);
        self.call()?;
        self.pages.write(page, from);
        Ok(())
    }
}
