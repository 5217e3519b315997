//! A reclaim: old classes become empty, and their regions free.
ghost use Rattle.std.specs.Prelude.{◌≡◌, ℕ, ◌<◌, IfSome, IfNone, Some, None, []};
ghost use Rattle.index_lists.specs.Chains.{first_of};
ghost use Rattle.area_space.specs.Table.{slots_of, stale, chain};
ghost use Rattle.area_space.specs.Accounts.{debt};
ghost use Rattle.area_space.specs.Sound.{IsTable};
ghost use Rattle.area_space.specs.Frees.{forgiven, released, IsFreeing, Frees};

use super::RegionTable;

impl RegionTable {
    // Makes all old regions free.
    pub(crate) fn free_old(&mut self)
        ensures table { Frees self.old self.new }
        ensures sound { IsTable self.new }
    {
        let slots = self.slots();
        for slot in 0..slots {
            self.free_slot(slot);
        }
        self.finish();
    }

    // Makes the regions of an old class free.
    fn free_slot(&mut self, slot: u32)
        requires { slot < slots_of self.old }
        ensures free { IsFreeing self.old self.new slot }
        ensures empty { chain self.new (stale slot) ≡ [] }
    {
        self.forgive(slot);
        while let Some(_region) = self.release(slot) {}
    }

    // Removes all charges and husks of an old class.
    fn forgive(&mut self, slot: u32)
        requires { slot < slots_of self.old }
        ensures after { self.new ≡ forgiven self.old slot }
        ensures sound { IsTable self.old }
    {
        let area = slot / (self.top as u32 + 1);
        let class = 2 * slot + 1;
        let owed = self.debt(class);
        self.debts[area as usize] -= owed;
        self.charges[class as usize] = 0;
        self.husks[class as usize] = 0;
    }

    // Frees the first region of an old class without charges, if it has one.
    fn release(&mut self, slot: u32) -> Option<u32>
        requires in_range { slot < slots_of self.old }
        requires empty { debt self.old (stale slot) ≡ 0 }
        ensures sound { IsTable self.old }
        ensures none { IfNone result (chain self.old (stale slot) ≡ []) }
        ensures unchanged { IfNone result (self.new ≡ self.old) }
        ensures some { IfSome result (λ region. first_of (chain self.old (stale slot)) ≡ Some region) }
        ensures after { IfSome result (λ region. self.new ≡ released self.old slot region) }
    {
        match self.chains.front(2 * slot + 1) {
            Some(region) => {
                self.chains.remove(region);
                self.free.insert(region);
                self.used[region as usize] = 0;
                self.marks[region as usize] = 0;
                Some(region)
            }
            None => None,
        }
    }

    // Ends a collection: no class is old any more.
    fn finish(&mut self)
        requires { (slot : ℕ) → slot < slots_of self.old → chain self.old (stale slot) ≡ [] }
        ensures after { self.new ≡ record self.old { aim = None } }
        ensures sound { IsTable self.new }
    {
        self.aim = None;
    }
}
