//! Words without an old address: a scan passes them by one read of their page.
ghost use Rattle.std.specs.Prelude.{ℕ, List, ◌≡◌, ◌↔◌, ◌+◌, ◌-◌, ◌*◌, ◌/◌, ◌%◌, ◌<◌, ◌≤◌, ◌^◌, IsTrue, IfOk, IfSome, IfNone, OnErr, Some, length};
ghost use Rattle.store_word.specs.Words.{Parts};
ghost use Rattle.mem_port.specs.Store.{StoresNothing};
ghost use Rattle.mem_port.specs.View.{AccountsForFaults, shown};
ghost use Rattle.area_space.specs.Table.{IsOld, used_of};
ghost use Rattle.scavenger.specs.declared.scan_set.Unit.TheVariants.{Word as InWord};
ghost use Rattle.scavenger.specs.Collecting.{IsCollecting};
ghost use Rattle.scavenger.specs.Left.{next_of};
ghost use Rattle.scavenger.specs.Scanning.{HasAfter, Remains, words_done};
ghost use Rattle.scavenger.specs.Sweeping.{ScansQuiet};

use crate::scan_set::ScanSet;
use area_space::RegionTable;
use mem_port::{Memory, Span, WordTest};
use std::sync::ledger::Ledger;
use store_word::{PAGE_WORDS, REGION_PAGES, REGION_WORDS, Steps, SwapFault, Word};

/// Which words have an address in an old region, or one past the last region.
#[derive(Clone, Copy)]
struct OldAddresses<'a> {
    table: &'a RegionTable,
}

impl<'a> WordTest for OldAddresses<'a> {
    ghost use Rattle.scavenger.specs.Scanning.{MayBeOld};

    ghost wanted = { λ s word. MayBeOld s.table.now word };

    fn wants(&self, word: Word) -> bool {
        match word.address() {
            Some(at) => may_be_old(self.table, at),
            None => false,
        }
    }
}

// Whether an address is in an old region, or past the last region.
#[inline]
fn may_be_old(table: &RegionTable, at: u32) -> bool
    ensures { IsTrue result ↔ (at / REGION_WORDS < table.now.regions → IsOld table.now (at / REGION_WORDS)) }
{
    if table.regions() <= at / REGION_WORDS {
        return true;
    }
    table.is_old(at)
}

// How many words of a page, from this one on, precede the last used one.
#[inline]
fn words_before_last(table: &RegionTable, at: u32) -> u32
    requires { at / PAGE_WORDS / REGION_PAGES < table.now.regions }
    ensures { (count : ℕ) → 0 < count → count ≤ result → HasAfter table.now at count }
{
    let page_end = at % REGION_WORDS - at % PAGE_WORDS + PAGE_WORDS;
    let end = table.used(at / PAGE_WORDS / REGION_PAGES).min(page_end);
    end.saturating_sub(at % REGION_WORDS + 1)
}

/// The words that a scan has passed, the one that is next after them if it is known, and whether they were read and
/// none was passed.
#[derive(Clone, Copy)]
pub(crate) struct Passed {
    pub(crate) count: u64,
    pub(crate) near: Option<u32>,
    pub(crate) missed: bool,
}

impl ScanSet {
    // Scans words without an old address, at most `limit`: from the one that is next, if it is known, to
    // the first that may have one. The last unscanned word of the page isn't among them. Each is read, and the
    // first that may have an old address too. A swap error occurs only at the first.
    #[inline]
    pub(crate) fn pass_quiet<M: Memory, L: Ledger>(
        &mut self,
        mem: &mut M,
        table: &RegionTable,
        near: Option<u32>,
        limit: u64,
        steps: &mut Steps<L>,
    ) -> Result<Passed, SwapFault>
        requires agrees { IfSome near (λ at. next_of self.old table.now ≡ Some (InWord at)) }
        requires collecting { (registers : List Parts) × IsCollecting (M.seen mem.old) table.now self.old registers }

        // what is scanned
        ensures scans { IfOk result (λ passed. (registers : List Parts) → IsCollecting (M.seen mem.old) table.now self.old registers
            → ScansQuiet (M.seen mem.old) table.now self.old registers self.new passed.count) }
        ensures near { IfOk result (λ passed. IfSome passed.near (λ at. next_of self.new table.now ≡ Some (InWord at))) }
        ensures count { IfOk result (λ passed. self.new.done ≡ self.old.done + passed.count) }
        ensures at_most { IfOk result (λ passed. passed.count ≤ limit) }
        ensures fault { OnErr result ((registers : List Parts) → IsCollecting (M.seen mem.old) table.now self.old registers
            → Remains (M.seen mem.old) table.now self.old registers (M.seen mem.new) table.now self.new registers) }

        // what is unchanged
        ensures unchanged { StoresNothing (M.seen mem.old) (M.seen mem.new) }
        ensures idle { IfOk result (λ passed. IfNone passed.near (M.seen mem.new ≡ M.seen mem.old)) }
        ensures unread { IfOk result (λ passed. IfNone passed.near (steps.new ≡ steps.old)) }

        // costs and swap errors
        ensures cost { IfOk result (λ passed. steps.new ≤ steps.old + passed.count + 1) }
        ensures cost_at_most { OnErr result (steps.new ≤ steps.old + 1) }
        ensures accounted { AccountsForFaults (shown M.Memory mem.old) (shown M.Memory mem.new) steps.old steps.new result }
    {
        let none = Passed {
            count: 0,
            near,
            missed: false,
        };
        let Some(at) = near else {
            return Ok(none);
        };
        if limit == 0 {
            return Ok(none);
        }
        let words = limit.min(u64::from(words_before_last(table, at))) as u32;
        if words == 0 {
            return Ok(none);
        }
        let passed = self.pass_words(mem, table, Span { at, words }, steps)?;
        Ok(Passed {
            count: u64::from(passed),
            near: Some(at + passed),
            missed: passed == 0,
        })
    }

    // Scans the words of a span up to the first that may have an old address. The first is next, and the
    // page of the span has a used word after it.
    fn pass_words<M: Memory, L: Ledger>(
        &mut self,
        mem: &mut M,
        table: &RegionTable,
        span: Span,
        steps: &mut Steps<L>,
    ) -> Result<u32, SwapFault>
        requires at_least { 0 < span.words }
        requires agrees { next_of self.old table.now ≡ Some (InWord span.at) }
        requires after { HasAfter table.now span.at span.words }
        requires collecting { (registers : List Parts) × IsCollecting (M.seen mem.old) table.now self.old registers }

        // what is scanned
        ensures scans { IfOk result (λ passed. (registers : List Parts) → IsCollecting (M.seen mem.old) table.now self.old registers
            → ScansQuiet (M.seen mem.old) table.now self.old registers self.new passed) }
        ensures near { IfOk result (λ passed. next_of self.new table.now ≡ Some (InWord (span.at + passed))) }
        ensures count { IfOk result (λ passed. self.new.done ≡ self.old.done + passed) }
        ensures at_most { IfOk result (λ passed. passed ≤ span.words) }

        // what is unchanged
        ensures unchanged { StoresNothing (M.seen mem.old) (M.seen mem.new) }
        ensures err { OnErr result (self.new ≡ self.old) }

        // costs and swap errors
        ensures cost { IfOk result (λ passed. steps.new ≤ steps.old + passed + 1) }
        ensures cost_at_most { OnErr result (steps.new ≤ steps.old + 1) }
        ensures accounted { AccountsForFaults (shown M.Memory mem.old) (shown M.Memory mem.new) steps.old steps.new result }
    {
        let test = OldAddresses { table };
        let passed = mem.read_until(span.at, span.words, &test, steps)?;
        if passed == 0 {
            return Ok(0);
        }
        self.mark_words(span.at, passed);
        Ok(passed)
    }

    // Records that words of a page are scanned, and all before them are.
    #[inline]
    fn mark_words(&mut self, at: u32, count: u32)
        requires in_range { at / PAGE_WORDS < length self.old.pages }
        requires page { at % PAGE_WORDS + count ≤ PAGE_WORDS }
        requires at_most { self.old.begun < 2 ^ 32 → self.old.done < 2 ^ 40 }
        ensures { self.new ≡ words_done self.old at count }
    {
        self.pages[(at / PAGE_WORDS) as usize] = (at % PAGE_WORDS + count) as u16;
        self.done += u64::from(count);
    }
}
