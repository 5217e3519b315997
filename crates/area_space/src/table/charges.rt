//! Charges: what the classes are charged for committed words, and the husks of grown blocks.
ghost use Rattle.std.specs.Prelude.{◌≡◌, ◌≢◌, ℕ, ◌+◌, ◌*◌, ◌/◌, ◌<◌, ◌≤◌, [], slice_index, Contains};
ghost use Rattle.area_space.specs.Table.{levels_of, slots_of, live, chain, quota_of};
ghost use Rattle.area_space.specs.Accounts.{account_of};
ghost use Rattle.area_space.specs.Sound.{IsTable};
ghost use Rattle.area_space.specs.Charges.{charged, husked, charged_by, AllowsOrigin};
ghost use Rattle.area_space.specs.declared.classes.Origin.TheVariants.{Moved};

use super::RegionTable;
use crate::classes::{Class, Origin};
use store_word::REGION_WORDS;

impl RegionTable {
    // Charges the live class of a slot, by the origin of the charge.
    #[inline(always)]
    pub(crate) fn charge_by(&mut self, slot: u32, charge: u32, origin: Origin)
        requires in_range { slot < slots_of self.old }
        requires placed { chain self.old (live slot) ≢ [] }
        requires allowed { AllowsOrigin self.old slot charge origin }
        ensures { self.new ≡ charged_by self.old slot charge origin }
    {
        match origin {
            Origin::New => self.add_charge(slot, charge),
            Origin::Moved(from) => self.move_charge(from, slot, charge),
            Origin::Reserve => {}
        }
    }

    // Adds to the charge of a live class that has a region.
    #[inline]
    fn add_charge(&mut self, slot: u32, amount: u32)
        requires in_range { slot < slots_of self.old }
        requires placed { chain self.old (live slot) ≢ [] }
        requires fits { account_of self.old (slot / levels_of self.old) + amount ≤ quota_of self.old (slot / levels_of self.old) }
        ensures { self.new ≡ charged self.old (live slot) amount }
    {
        let area = self.area_of(2 * slot);
        self.charges[2 * slot as usize] += amount;
        self.debts[area as usize] += amount;
    }

    // Moves a charge from an old class to the live class of a slot that has a region. The slot is one of
    // the same area, whose account stays.
    #[inline]
    fn move_charge(&mut self, from: Class, slot: u32, amount: u32)
        requires in_range { slot < slots_of self.old }
        requires placed { chain self.old (live slot) ≢ [] }
        requires allowed { AllowsOrigin self.old slot amount (Moved from) }
        ensures { self.new ≡ charged_by self.old slot amount (Moved from) }
    {
        let class = 2 * self.slot(from.area, from.level) + 1;
        self.charges[class as usize] -= amount;
        self.charges[2 * slot as usize] += amount;
    }

    // Turns charges of the live class of a place into husks.
    pub(crate) fn note_husk(&mut self, at: u32, words: u32)
        requires in_range { (slot : ℕ) × Contains (chain self.old (live slot)) (at / REGION_WORDS) }
        requires at_most { (slot : ℕ) → Contains (chain self.old (live slot)) (at / REGION_WORDS) → words ≤ slice_index self.old.charges (live slot) }
        ensures after { (slot : ℕ) → Contains (chain self.old (live slot)) (at / REGION_WORDS) → self.new ≡ husked self.old (live slot) words }
        ensures sound { IsTable self.new }
    {
        let slot = self.slot_at(at / REGION_WORDS);
        self.add_husk(2 * slot, words);
    }

    // Turns charges of a class into husks.
    fn add_husk(&mut self, class: u32, words: u32)
        requires in_range { class < 2 * slots_of self.old }
        requires at_most { words ≤ slice_index self.old.charges class }
        ensures after { self.new ≡ husked self.old class words }
        ensures sound { IsTable self.new }
    {
        self.charges[class as usize] -= words;
        self.husks[class as usize] += words;
    }
}
