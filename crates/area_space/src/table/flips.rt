//! A flip: classes become old, and the other live regions get their flip marks.
ghost use Rattle.std.specs.Prelude.{◌≡◌, ◌≢◌, ℕ, ◌+◌, ◌*◌, ◌^◌, ◌<◌, IsSome, None, [], length, slice_index, slice_set};
ghost use Rattle.area_space.specs.Table.{levels_of, slots_of, stale, chain, mark_of, IsOld};
ghost use Rattle.area_space.specs.Sound.{IsTable};
ghost use Rattle.area_space.specs.Flips.{condemns, condemns_level, begun, made_old, IsFlipMark, FlipsSlot, Condemns, survivor};

use super::RegionTable;
use lisp_graph::Condemn;
use store_word::Flags;

impl RegionTable {
    /// What the flip of the collection that runs condemned; None if no collection runs.
    pub fn condemned(&self) -> Option<Condemn>
        ensures { result ≡ self.now.aim }
    {
        self.aim
    }

    /// The level of the survivors of a level while a collection runs: 0 in a full collection,
    /// else the next level, or 0 for the greatest.
    pub fn survivor_level(&self, level: u8) -> u8
        requires collecting { IsSome self.now.aim }
        requires level { level < levels_of self.now }
        ensures value { result ≡ survivor self.now level }
        ensures sound { IsTable self.now }
    {
        match self.aim {
            Some(Condemn::Chosen(_)) => if level < self.top { level + 1 } else { 0 },
            _ => 0,
        }
    }

    // Makes what is condemned old, and the used end of each other live region its flip mark.
    pub(crate) fn condemn(&mut self, what: Condemn)
        requires { (region : ℕ) → IsOld self.old region → ⊥ }
        ensures table { Condemns self.old self.new what }
        ensures stays_sound { IsTable self.old × IsTable self.new }
    {
        let slots = self.slots();
        self.begin(what);
        for slot in 0..slots {
            self.flip_slot(slot, what);
        }
        self.mark_all();
    }

    // Begins a collection: nothing is placed, moved or to be scanned yet.
    fn begin(&mut self, what: Condemn)
        ensures { self.new ≡ begun self.old what }
    {
        self.aim = Some(what);
        self.last = None;
        self.scan.clear();
        self.placed = 0;
    }

    // Makes the live regions of a slot old, if the slot is condemned.
    fn flip_slot(&mut self, slot: u32, what: Condemn)
        requires in_range { slot < slots_of self.old }
        requires empty { chain self.old (stale slot) ≡ [] }
        requires placed { self.old.placed ≡ 0 }
        requires collecting { self.old.aim ≢ None }
        ensures { FlipsSlot self.old self.new what slot }
    {
        if self.is_condemned(slot, what) {
            self.turn(slot);
        }
    }

    // Whether a slot is condemned, by its level and its area.
    fn is_condemned(&self, slot: u32, what: Condemn) -> bool
        requires { slot < slots_of self.now }
        ensures value { result ≡ condemns self.now what slot }
        ensures sound { IsTable self.now }
    {
        let levels = self.levels();
        !self.is_static(slot / levels) && condemned(what, (slot % levels) as u8)
    }

    // Makes the live regions of a slot old.
    fn turn(&mut self, slot: u32)
        requires in_range { slot < slots_of self.old }
        requires empty { chain self.old (stale slot) ≡ [] }
        requires placed { self.old.placed ≡ 0 }
        requires collecting { self.old.aim ≢ None }
        ensures { self.new ≡ made_old self.old slot }
    {
        let from = 2 * slot as usize;
        let to = from + 1;
        self.chains.append_all(2 * slot + 1, 2 * slot);
        move_number(&mut self.charges, from, to);
        move_number(&mut self.husks, from, to);
    }

    // Sets the flip mark of every region.
    fn mark_all(&mut self)
        ensures unchanged { self.new ≡ record self.old { marks = self.new.marks } }
        ensures marks { (region : ℕ) → region < self.old.regions → IsFlipMark self.old region (slice_index self.new.marks region) }
        ensures sound { IsTable self.new }
    {
        let regions = self.regions();
        for region in 0..regions {
            let mark = self.mark_of(region);
            self.set_mark(region, mark);
        }
    }

    // The flip mark that a region is to have.
    fn mark_of(&self, region: u32) -> u32
        requires { region < self.now.regions }
        ensures { IsFlipMark self.now region result }
    {
        match self.class_at(region) {
            Some(class) => if class % 2 == 0 { self.used(region) } else { 0 },
            None => 0,
        }
    }

    // Sets the flip mark of a region.
    fn set_mark(&mut self, region: u32, mark: u32)
        requires in_range { region < self.old.regions }
        requires marks { IsFlipMark self.old region mark }
        ensures after { self.new ≡ record self.old { marks = slice_set self.old.marks region mark } }
        ensures sound { IsTable self.new }
    {
        self.marks[region as usize] = mark;
    }
}

// Whether a level is condemned.
fn condemned(what: Condemn, level: u8) -> bool
    requires { level < 8 }
    ensures { result ≡ condemns_level what level }
{
    match what {
        Condemn::Full => true,
        Condemn::Chosen(set) => level > 0 && (set.bits() >> (level - 1)) & 1 == 1,
    }
}

// Adds one number of a list to another, and makes it 0.
fn move_number(numbers: &mut [u32], from: usize, to: usize)
    requires from { from < length numbers.old }
    requires to { to < length numbers.old }
    requires apart { to ≢ from }
    requires fits { slice_index numbers.old to + slice_index numbers.old from < 2 ^ 32 }
    ensures { numbers.new ≡ slice_set (slice_set numbers.old to (slice_index numbers.old to + slice_index numbers.old from)) from 0 }
{
    numbers[to] += numbers[from];
    numbers[from] = 0;
}
