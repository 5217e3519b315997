//! The region table: which class each region has, and how far it is used.
ghost use Rattle.std.specs.Prelude.{◌≡◌, ◌≢◌, ℕ, ◌*◌, ◌/◌, ◌<◌, ◌≤◌, ◌↔◌, IsTrue, IfSome, IfNone, Some, None, false, Contains, length, MatchOption};
ghost use Rattle.area_space.specs.Table.{areas_of, kind_of, levels_of, slots_of, slot_of, live, chain, used_of, mark_of, quota_of, IsOld, IsUnclassed, class_number};
ghost use Rattle.area_space.specs.Flips.{kind_is_static};
ghost use Rattle.area_space.specs.Sound.{IsTable};

mod accounts;
mod charges;
mod flips;
mod frees;
mod making;
mod places;
mod scan;

use crate::classes::Class;
use crate::page_set::PageSet;
use index_lists::Lists;
use lisp_graph::{AreaKind, Condemn};
pub use making::fresh_tables_are_sound;
use std::marker::Model;
use store_word::REGION_WORDS;

/// The table of the regions of a memory, by number, and of the classes.
///
/// A slot is an area and a level. Each slot has two classes, a live one and an old one, and each
/// class is a chain of regions. A region that is in no chain is free.
#[derive(Drop)]
pub struct RegionTable {
    chains: Lists,
    free: PageSet,
    used: Vec<u32>,
    marks: Vec<u32>,
    charges: Vec<u32>,
    husks: Vec<u32>,
    debts: Vec<u32>,
    quotas: Vec<u32>,
    kinds: Vec<AreaKind>,
    classes: Vec<Class>,
    scan: PageSet,
    regions: u32,
    areas: u32,
    top: u8,
    aim: Option<Condemn>,
    last: Option<u32>,
    placed: u64,
}

impl Model for RegionTable {
    ghost use Rattle.area_space.specs.Table.{Table};
    ghost use Rattle.area_space.specs.Inside.{table_of, IsInside};

    ghost Value = { Table };

    ghost view = { table_of };

    ghost invariant = { IsInside };
}

impl RegionTable {
    /// The number of regions, at most 1,024. A call of it also shows what always holds of a
    /// table.
    pub fn regions(&self) -> u32
        ensures regions { result ≡ self.now.regions }
        ensures sound { IsTable self.now }
    {
        self.regions
    }

    /// The number of areas, at most 16.
    pub fn areas(&self) -> u32
        ensures value { result ≡ areas_of self.now }
        ensures at_most { result ≤ 16 }
    {
        self.areas
    }

    /// The number of levels, level 0 among them: at most 7.
    pub fn levels(&self) -> u32
        ensures levels { result ≡ levels_of self.now }
        ensures at_most { result ≤ 7 }
    {
        self.top as u32 + 1
    }

    /// The quota of an area, in words: at most 1,048,576.
    pub fn quota(&self, area: u8) -> u32
        requires { area < areas_of self.now }
        ensures value { result ≡ quota_of self.now area }
        ensures at_most { result ≤ 1048576 }
    {
        self.quotas[area as usize]
    }

    /// The kind of each area, at most 16.
    pub fn kinds(&self) -> &[AreaKind]
        ensures value { result.now ≡ self.now.kinds }
        ensures size { length self.now.kinds ≡ areas_of self.now }
        ensures at_most { length self.now.kinds ≤ 16 }
    {
        &self.kinds
    }

    /// The used words of a region: 0 to 4,096, and 0 if it is free.
    pub fn used(&self, region: u32) -> u32
        requires { region < self.now.regions }
        ensures used { result ≡ used_of self.now region }
        ensures at_most { result ≤ REGION_WORDS }
        ensures regions { self.now.regions ≤ 1024 }
    {
        self.used[region as usize]
    }

    /// The used words of a region at the latest flip, if it is live and was then; else 0.
    pub fn flip_mark(&self, region: u32) -> u32
        requires { region < self.now.regions }
        ensures { result ≡ mark_of self.now region }
    {
        self.marks[region as usize]
    }

    /// The class of the region of an address. It is None if and only if the region is free, and
    /// has `stale` if and only if the region is old.
    #[inline]
    pub fn class_of(&self, at: u32) -> Option<Class>
        requires { at / REGION_WORDS < self.now.regions }
        ensures none { IfNone result (IsUnclassed self.now (at / REGION_WORDS)) }
        ensures some { IfSome result (λ class. Contains (chain self.now (class_number self.now class)) (at / REGION_WORDS)) }
        ensures area { IfSome result (λ class. class.area < areas_of self.now) }
        ensures level { IfSome result (λ class. class.level < levels_of self.now) }
        ensures cases { IfSome result (λ class. IsTrue class.stale ↔ IsOld self.now (at / REGION_WORDS)) }
        ensures sound { IsTable self.now }
    {
        match self.class_at(at / REGION_WORDS) {
            Some(number) => Some(self.classes[number as usize]),
            None => None,
        }
    }

    /// Whether a collection runs. If none does, no region is old.
    #[inline]
    pub fn is_collecting(&self) -> bool
        ensures collecting { IsTrue result ↔ (self.now.aim ≢ None) }
        ensures idle { result ≡ false → (region : ℕ) → IsOld self.now region → ⊥ }
    {
        self.aim.is_some()
    }

    /// Whether the region of an address is old. While no collection runs none is, and the table doesn't
    /// look for the region.
    #[inline]
    pub fn is_old(&self, at: u32) -> bool
        requires { at / REGION_WORDS < self.now.regions }
        ensures { IsTrue result ↔ IsOld self.now (at / REGION_WORDS) }
    {
        self.is_collecting() && self.is_in_old_class(at / REGION_WORDS)
    }

    // Whether a region is in an old class.
    #[inline]
    fn is_in_old_class(&self, region: u32) -> bool
        requires { region < self.now.regions }
        ensures { IsTrue result ↔ IsOld self.now region }
    {
        match self.class_at(region) {
            Some(class) => class % 2 == 1,
            None => false,
        }
    }

    // The number of slots: the levels of every area.
    fn slots(&self) -> u32
        ensures value { result ≡ slots_of self.now }
        ensures sound { IsTable self.now }
    {
        self.areas * (self.top as u32 + 1)
    }

    // The slot of an area and a level.
    #[inline]
    fn slot(&self, area: u8, level: u8) -> u32
        requires area { area < areas_of self.now }
        requires level { level < levels_of self.now }
        ensures value { result ≡ slot_of self.now area level }
        ensures in_range { result < slots_of self.now }
        ensures at_most { result < 112 }
    {
        area as u32 * (self.top as u32 + 1) + level as u32
    }

    // The area of a class.
    fn area_of(&self, class: u32) -> u8
        requires { class < 2 * slots_of self.now }
        ensures value { result ≡ class / 2 / levels_of self.now }
        ensures in_range { result < areas_of self.now }
    {
        self.classes[class as usize].area
    }

    // The class of a region; None if it is free.
    #[inline]
    fn class_at(&self, region: u32) -> Option<u32>
        requires { region < self.now.regions }
        ensures cases { MatchOption result (IsUnclassed self.now region) (λ class. Contains (chain self.now class) region) }
        ensures found { (class : ℕ) → Contains (chain self.now class) region → result ≡ Some class }
        ensures in_range { IfSome result (λ class. class < 2 * slots_of self.now) }
        ensures sound { IsTable self.now }
    {
        self.chains.owner(region)
    }

    // The slot of a region that is live.
    #[inline]
    pub(crate) fn slot_at(&self, region: u32) -> u32
        requires { (slot : ℕ) × Contains (chain self.now (live slot)) region }
        ensures value { (slot : ℕ) → Contains (chain self.now (live slot)) region → result ≡ slot }
        ensures in_range { result < slots_of self.now }
        ensures at_most { result < 112 }
        ensures sound { IsTable self.now }
    {
        let class = self.chains.owner(region).unwrap();
        class / 2
    }

    // Whether an area is static.
    fn is_static(&self, area: u32) -> bool
        requires { area < areas_of self.now }
        ensures value { result ≡ kind_is_static (kind_of self.now area) }
        ensures sound { IsTable self.now }
    {
        matches!(self.kinds[area as usize], AreaKind::Static)
    }
}
