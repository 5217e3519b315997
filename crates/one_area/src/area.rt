//! One area, its live and its old words, and the charge of old objects that remain to be moved.
ghost use Rattle.std.specs.Prelude.{◌≡◌, ◌+◌, ◌*◌, ◌/◌, ◌<◌, ◌≤◌, ℕ, IfOk, IfSome, IsTrue};
ghost use Rattle.lisp_graph.specs.declared.world.AreaKind.{AreaKind as OneKind};
ghost use Rattle.mem_port.specs.Plain.{plain_store};
ghost use Rattle.area_space.specs.Places.{IsEnd};
ghost use Rattle.area_space.specs.Table.{IsOld, quota_of};
ghost use Rattle.one_area.specs.OneArea.{IsOneArea};

use area_space::{Class, Ground, Origin, Placed, RegionTable};
use lisp_graph::{AreaKind, AreaRule, Areas, Condemn};
use mem_port::{Memory, PlainMemory};
use std::alloc::Global;
use store_word::{NoMemory, REGION_WORDS, Space};

/// A ground with one dynamic area and one level above 0, its words that are live and old, and the charge of old objects that
/// remain to be moved, all in words.
#[derive(Drop)]
pub struct OneArea {
    pub ground: Ground<PlainMemory>,
    pub live_words: u32,
    pub old_words: u32,
    pub moving: u32,
}

impl OneArea {
    /// An empty ground of this many regions with this area, which is dynamic and for which there is room: a region for each 1,024
    /// words of its quota, rounded up, and four more.
    pub fn new(alloc: Global, regions: u32, rule: AreaRule) -> Result<OneArea, NoMemory>
        requires at_most { regions ≤ 1024 }
        requires area { rule.kind ≡ OneKind.Dynamic }
        requires size { rule.quota ≤ 1048576 }
        requires room { (rule.quota + 1023) / 1024 + 4 ≤ regions }
        ensures { IfOk result (λ a. IsOneArea (plain_store a.ground.mem) a.ground.table a.live_words a.old_words a.moving) }
    {
        let space = Space {
            regions,
            frames: 32,
            registers: 1,
            levels: 1,
            rate: 0,
            capacity: [0; 6],
        };
        let mut areas = Areas::new(alloc);
        areas.push(rule)?;
        let mem = PlainMemory::new(alloc, &space)?;
        let table = RegionTable::new(alloc, &space, &areas)?;
        Ok(OneArea {
            ground: Ground { mem, table },
            live_words: 0,
            old_words: 0,
            moving: 0,
        })
    }

    // The place of an object of 1 to 2,048 words, if with these the used words of the area are at most twice its quota.
    fn place(&mut self, words: u32) -> Option<Placed>
        requires { IsOneArea (plain_store self.old.ground.mem) self.old.ground.table self.old.live_words self.old.old_words self.old.moving }
        ensures sound { IsOneArea (plain_store self.new.ground.mem) self.new.ground.table self.new.live_words self.new.old_words self.new.moving }
        ensures live { self.new.live_words ≡ self.old.live_words }
        ensures unchanged { self.new.old_words ≡ self.old.old_words }
        ensures moved { self.new.moving ≡ self.old.moving }
        ensures end { IfSome result (λ placed. IsEnd self.new.ground.table 0 placed.at words) }
        ensures some { IfSome result (λ _. 0 < words) }
        ensures at_most { IfSome result (λ _. words ≤ 2048) }
        ensures in_range { IfSome result (λ _. self.old.live_words + self.old.old_words + words ≤ 2 * quota_of self.new.ground.table 0) }
    {
        let quota = self.ground.table.quota(0);
        if words == 0 || words > 2048 || self.live_words + self.old_words + words > 2 * quota {
            return None;
        }
        Some(self.ground.place(0, 0, words))
    }

    /// Places and commits a new object of 1 to 2,048 words, if the quota allows it.
    pub fn put(&mut self, words: u32) -> Option<u32>
        requires { IsOneArea (plain_store self.old.ground.mem) self.old.ground.table self.old.live_words self.old.old_words self.old.moving }
        ensures { IsOneArea (plain_store self.new.ground.mem) self.new.ground.table self.new.live_words self.new.old_words self.new.moving }
    {
        let placed = self.place(words)?;
        if self.ground.table.account(0) + words > self.ground.table.quota(0) {
            return None;
        }
        self.ground.commit(&placed, words, words, Origin::New);
        self.live_words += words;
        Some(placed.at)
    }

    /// Places and commits the copy of an old object of 1 to 2,048 words, and moves its charge.
    pub fn copy(&mut self, words: u32) -> Option<u32>
        requires { IsOneArea (plain_store self.old.ground.mem) self.old.ground.table self.old.live_words self.old.old_words self.old.moving }
        ensures { IsOneArea (plain_store self.new.ground.mem) self.new.ground.table self.new.live_words self.new.old_words self.new.moving }
    {
        let placed = self.place(words)?;
        if words > self.moving {
            return None;
        }
        let from = Class {
            area: 0,
            level: 0,
            stale: true,
        };
        self.ground
            .commit(&placed, words, words, Origin::Moved(from));
        self.live_words += words;
        self.moving -= words;
        Some(placed.at)
    }

    /// Flips in full, if no region is old.
    pub fn flip(&mut self) -> bool
        requires { IsOneArea (plain_store self.old.ground.mem) self.old.ground.table self.old.live_words self.old.old_words self.old.moving }
        ensures { IsOneArea (plain_store self.new.ground.mem) self.new.ground.table self.new.live_words self.new.old_words self.new.moving }
    {
        if has_no_old(&self.ground.table) {
            self.ground.condemn(Condemn::Full);
            self.old_words = self.live_words;
            self.moving = self.live_words;
            self.live_words = 0;
            true
        } else {
            false
        }
    }

    /// Frees the old regions.
    pub fn reclaim(&mut self)
        requires { IsOneArea (plain_store self.old.ground.mem) self.old.ground.table self.old.live_words self.old.old_words self.old.moving }
        ensures { IsOneArea (plain_store self.new.ground.mem) self.new.ground.table self.new.live_words self.new.old_words self.new.moving }
    {
        self.ground.free_old();
        self.old_words = 0;
        self.moving = 0;
    }

    /// How many regions are live or old.
    pub fn regions_in_use(&self) -> u32 {
        let regions = self.ground.table.regions();
        let mut count = 0u32;
        for region in 0..regions {
            if self.ground.table.class_of(region * REGION_WORDS).is_some() {
                count += 1;
            }
        }
        count
    }
}

// Whether no region is old.
fn has_no_old(table: &RegionTable) -> bool
    ensures { IsTrue result → (region : ℕ) → IsOld table.now region → ⊥ }
{
    let regions = table.regions();
    for region in 0..regions {
        if table.is_old(region * REGION_WORDS) {
            return false;
        }
    }
    true
}
