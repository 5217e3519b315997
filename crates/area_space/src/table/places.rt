//! Places: room for the words of an object, a region that is opened for them, and their used end.
ghost use Rattle.std.specs.Prelude.{◌≡◌, ℕ, ◌+◌, ◌-◌, ◌*◌, ◌/◌, ◌<◌, ◌≤◌, IfSome, IfNone, Some};
ghost use Rattle.index_lists.specs.Chains.{last_of};
ghost use Rattle.area_space.specs.Table.{areas_of, levels_of, slots_of, slot_of, live, chain, used_of, IsUnclassed, page_list};
ghost use Rattle.area_space.specs.Room.{regions_of_area, share};
ghost use Rattle.area_space.specs.Places.{IsEnd, opened, extended};
ghost use Rattle.area_space.specs.Sound.{IsTable};
ghost use Rattle.area_space.specs.PageList.{Adds};

use super::RegionTable;
use store_word::{MAX_OBJECT_WORDS, PAGE_WORDS, REGION_WORDS};

impl RegionTable {
    // The used end of a live chain, if this many words fit there.
    #[inline(always)]
    pub(crate) fn room(&self, area: u8, level: u8, words: u32) -> Option<u32>
        requires area { area < areas_of self.now }
        requires level { level < levels_of self.now }
        requires at_least { 0 < words }
        requires at_most { words ≤ MAX_OBJECT_WORDS }
        ensures some { IfSome result (λ at. IsEnd self.now (slot_of self.now area level) at words) }
        ensures none { IfNone result ((region : ℕ) → last_of (chain self.now (live (slot_of self.now area level))) ≡ Some region
            → REGION_WORDS < used_of self.now region + words) }
        ensures sound { IsTable self.now }
    {
        let slot = self.slot(area, level);
        match self.last_region(slot) {
            Some(region) => {
                let used = self.used(region);
                if used + words <= REGION_WORDS {
                    Some(region * REGION_WORDS + used)
                } else {
                    None
                }
            }
            None => None,
        }
    }

    // The last region of a slot's live chain.
    #[inline(always)]
    fn last_region(&self, slot: u32) -> Option<u32>
        requires { slot < slots_of self.now }
        ensures last { result ≡ last_of (chain self.now (live slot)) }
        ensures in_range { IfSome result (λ region. region < self.now.regions) }
        ensures sound { IsTable self.now }
    {
        self.chains.back(2 * slot)
    }

    // The lowest free region. There must be one.
    #[inline(never)]
    pub(crate) fn lowest_free(&self) -> u32
        requires { ((region : ℕ) → region < self.now.regions → IsUnclassed self.now region → ⊥) → ⊥ }
        ensures in_range { result < self.now.regions }
        ensures free { IsUnclassed self.now result }
        ensures lowest { (region : ℕ) → region < result → IsUnclassed self.now region → ⊥ }
    {
        self.free.lowest().unwrap()
    }

    // Puts a free region at the end of a live chain.
    #[inline(never)]
    pub(crate) fn open(&mut self, area: u8, level: u8, region: u32)
        requires area { area < areas_of self.old }
        requires level { level < levels_of self.old }
        requires in_range { region < self.old.regions }
        requires free { IsUnclassed self.old region }
        requires needed { (r : ℕ) → last_of (chain self.old (live (slot_of self.old area level))) ≡ Some r → MAX_OBJECT_WORDS < used_of self.old r }
        requires at_most { regions_of_area self.old area + 1 ≤ share self.old area }
        ensures table { self.new ≡ opened self.old (live (slot_of self.old area level)) region }
        ensures sound { IsTable self.new }
    {
        let slot = self.slot(area, level);
        self.chains.push_back(2 * slot, region);
        self.free.remove(region);
    }

    // Moves the used end of the last region of a live chain.
    #[inline(always)]
    pub(crate) fn extend(&mut self, at: u32, words: u32)
        requires at_least { 0 < words }
        requires end { (slot : ℕ) × IsEnd self.old slot at words }
        ensures after { self.new ≡ record (extended self.old at words) { pages = self.new.pages } }
        ensures sound { IsTable self.new }
        ensures pages { Adds (page_list self.old) (page_list self.new) (at / PAGE_WORDS) ((at + words - 1) / PAGE_WORDS) }
    {
        let region = (at / REGION_WORDS) as usize;
        self.used[region] += words;
        self.placed += words as u64;
        self.scan
            .insert_span(at / PAGE_WORDS, (at + words - 1) / PAGE_WORDS);
    }
}
