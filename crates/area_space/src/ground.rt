//! A memory and its regions: objects are placed and committed, regions are condemned and freed.
ghost use Rattle.std.specs.Prelude.{◌≡◌, ℕ, ◌+◌, ◌-◌, ◌*◌, ◌/◌, ◌<◌, ◌≤◌, IfSome, IfNone, Some, length, slice_index, Contains};
ghost use Rattle.index_lists.specs.Chains.{last_of};
ghost use Rattle.mem_port.specs.Frames.{outside};
ghost use Rattle.mem_port.specs.Store.{Clears, IsMemory};
ghost use Rattle.area_space.specs.Table.{areas_of, levels_of, slot_of, live, chain, used_of, quota_of, IsOld, IsUnclassed, page_list};
ghost use Rattle.area_space.specs.Room.{RoomRule, words_of_area};
ghost use Rattle.area_space.specs.Sound.{IsTable};
ghost use Rattle.area_space.specs.Places.{IsEnd, opened};
ghost use Rattle.area_space.specs.Charges.{AllowsOrigin, committed, husked};
ghost use Rattle.area_space.specs.Flips.{Condemns};
ghost use Rattle.area_space.specs.Frees.{Frees, outside_old};
ghost use Rattle.area_space.specs.PageList.{Adds};
ghost use Rattle.area_space.specs.Ground.{with_level};

use crate::classes::Origin;
use crate::table::RegionTable;
use lisp_graph::Condemn;
use mem_port::Memory;
use store_word::{MAX_OBJECT_WORDS, PAGE_WORDS, REGION_WORDS};

/// A memory and the table of its regions.
///
/// Each call below keeps the relation between them (`IsGround`: sizes and levels agree, and words
/// that aren't used are NULL), and that no word has an address in a free region.
#[derive(Drop)]
pub struct Ground<M: Memory> {
    pub mem: M,
    pub table: RegionTable,

    // What always holds of a memory. So no address overflows.
    ghost sound: { IsMemory (M.seen mem) },
}

/// The place at which an object may be written, and the region that was opened for it, if one was.
#[derive(Clone, Copy, Debug)]
pub struct Placed {
    pub at: u32,
    pub opened: Option<u32>,
}

impl<M: Memory> Ground<M> {
    ghost use Rattle.area_space.specs.View.{view};
    ghost use Rattle.area_space.specs.Views.{ClearsOld, IsGround, NamesNoFree, NamesNoOld};

    /// The place for 1 to 2,048 words in an area, at a level: the used end of the last region of its
    /// live chain or, if they don't fit there, the start of the free region with the lowest number,
    /// which is then opened at the end of the chain. No used end moves.
    ///
    /// There is always a place if the world keeps the room rule, and the used words of the area
    /// and these are together at most twice its quota.
    #[inline]
    pub fn place(&mut self, area: u8, level: u8, words: u32) -> Placed
        requires at_least { 0 < words }
        requires at_most { words ≤ MAX_OBJECT_WORDS }
        requires area { area < areas_of self.old.table }
        requires level { level < levels_of self.old.table }

        // There is room for them, and the ground is sound.
        requires room { RoomRule self.old.table }
        requires in_range { words_of_area self.old.table area + words ≤ 2 * quota_of self.old.table area }
        requires ground { IsGround (view self.old) }
        requires named { NamesNoFree (view self.old) }

        // The place.
        ensures end { IsEnd self.new.table (slot_of self.old.table area level) result.at words }

        // If no region is opened, nothing changes.
        ensures unchanged { IfNone result.opened (self.new.table ≡ self.old.table) }
        ensures memory { IfNone result.opened (M.seen self.new.mem ≡ M.seen self.old.mem) }

        // A region that is opened was needed, and is the lowest free one.
        ensures table { IfSome result.opened (λ region. self.new.table ≡ opened self.old.table (live (slot_of self.old.table area level)) region) }
        ensures opened { IfSome result.opened (λ region. M.seen self.new.mem ≡ with_level (view self.old).mem.store region level) }
        ensures needed { IfSome result.opened (λ _. (last : ℕ) → last_of (chain self.old.table (live (slot_of self.old.table area level))) ≡ Some last
            → REGION_WORDS < used_of self.old.table last + words) }
        ensures free { IfSome result.opened (λ region. IsUnclassed self.old.table region) }
        ensures lowest { IfSome result.opened (λ region. (r : ℕ) → r < region → IsUnclassed self.old.table r → ⊥) }
        ensures begins { IfSome result.opened (λ region. result.at ≡ REGION_WORDS * region) }

        // What is unchanged in the ground and its memory.
        ensures sound { IsTable self.new.table }
        ensures stays_ground { IsGround (view self.new) }
        ensures stays_named { NamesNoFree (view self.new) }
        ensures stays_held { (page : ℕ) → M.held self.old.mem page → M.held self.new.mem page }
        ensures resident { M.resident self.new.mem ≡ M.resident self.old.mem }
        ensures no_fault { M.faults self.new.mem ≡ M.faults self.old.mem }
        ensures taken { M.taken self.new.mem ≡ M.taken self.old.mem }
    {
        match self.table.room(area, level, words) {
            Some(at) => Placed { at, opened: None },
            None => {
                let region = self.table.lowest_free();
                self.mem.set_level(region, level);
                self.table.open(area, level, region);
                Placed {
                    at: region * REGION_WORDS,
                    opened: Some(region),
                }
            }
        }
    }

    /// Makes the words at a place those of an object: the used end moves past them, their pages are to
    /// be scanned, and the class of the place is charged, in words. The place is the used end of the
    /// last region of a live chain, as `place` returned it. A new charge has to fit the area's quota,
    /// and a moved charge has to be in the old class that it leaves; a reserve is 0.
    #[inline(always)]
    pub fn commit(&mut self, placed: &Placed, words: u32, charge: u32, origin: Origin)
        requires at_least { 0 < words }
        requires end { (slot : ℕ) × IsEnd self.old.table slot placed.now.at words }
        requires allowed { (slot : ℕ) → IsEnd self.old.table slot placed.now.at words → AllowsOrigin self.old.table slot charge origin }
        ensures memory { self.new.mem ≡ self.old.mem }
        ensures table { (slot : ℕ) → IsEnd self.old.table slot placed.now.at words
            → self.new.table ≡ record (committed self.old.table slot placed.now.at words charge origin) { pages = self.new.table.pages } }
        ensures pages { Adds (page_list self.old.table) (page_list self.new.table) (placed.now.at / PAGE_WORDS) ((placed.now.at + words - 1) / PAGE_WORDS) }
        ensures sound { IsTable self.new.table }
        ensures stays_ground { IsGround (view self.old) → IsGround (view self.new) }
        ensures stays_named { NamesNoFree (view self.old) → NamesNoFree (view self.new) }
    {
        let slot = self.table.slot_at(placed.at / REGION_WORDS);
        self.table.charge_by(slot, charge, origin);
        self.table.extend(placed.at, words);
    }

    /// Makes `words` words of an object in a live region a husk: they remain charged to its class,
    /// but to no object. The caller must ensure that the class is charged at least this much.
    pub fn note_husk(&mut self, at: u32, words: u32)
        requires in_range { (slot : ℕ) × Contains (chain self.old.table (live slot)) (at / REGION_WORDS) }
        requires at_most { (slot : ℕ) → Contains (chain self.old.table (live slot)) (at / REGION_WORDS) → words ≤ slice_index self.old.table.charges (live slot) }
        ensures memory { self.new.mem ≡ self.old.mem }
        ensures table { (slot : ℕ) → Contains (chain self.old.table (live slot)) (at / REGION_WORDS) → self.new.table ≡ husked self.old.table (live slot) words }
        ensures stays_ground { IsGround (view self.old) → IsGround (view self.new) }
        ensures stays_named { NamesNoFree (view self.old) → NamesNoFree (view self.new) }
        ensures sound { IsTable self.new.table }
    {
        self.table.note_husk(at, words);
    }

    /// Makes every condemned region old: in each area that isn't static, all live regions or those
    /// of the levels chosen. The used end of each other live region becomes its flip mark.
    /// No region may be old before the call.
    pub fn condemn(&mut self, what: Condemn)
        requires { (region : ℕ) → IsOld self.old.table region → ⊥ }
        ensures memory { self.new.mem ≡ self.old.mem }
        ensures table { Condemns self.old.table self.new.table what }
        ensures stays_ground { IsGround (view self.old) → IsGround (view self.new) }
        ensures stays_named { NamesNoFree (view self.old) → NamesNoFree (view self.new) }
        ensures sound { IsTable self.new.table }
    {
        self.table.condemn(what);
    }

    /// Makes all old regions free, their words NULL, and their classes' charges 0. Their pages are no longer
    /// resident, and no other page leaves its frame. No word outside old regions may have an address in
    /// one. No swap error occurs.
    pub fn free_old(&mut self)
        requires ground { IsGround (view self.old) }
        requires in_range { NamesNoOld (view self.old) }
        requires named { NamesNoFree (view self.old) }
        ensures words { ClearsOld (view self.old) (view self.new) }
        ensures resident { M.resident self.new.mem ≡ outside_old self.old.table (M.resident self.old.mem) }
        ensures table { Frees self.old.table self.new.table }
        ensures stays_ground { IsGround (view self.new) }
        ensures stays_named { NamesNoFree (view self.new) }
        ensures no_fault { M.faults self.new.mem ≡ M.faults self.old.mem }
        ensures taken { M.taken self.new.mem ≡ M.taken self.old.mem }
        ensures sound { IsTable self.new.table }
    {
        let regions = self.table.regions();
        for region in 0..regions {
            clear_if_old(&mut self.mem, &self.table, region);
        }
        self.table.free_old();
    }
}

// Makes the words of a region NULL, if it is old.
fn clear_if_old<M: Memory>(mem: &mut M, table: &RegionTable, region: u32)
    requires in_range { region < table.now.regions }
    requires at_most { region < 1024 }
    requires size { length (M.seen mem.old).levels ≡ table.now.regions }
    ensures cleared { IsOld table.now region → Clears (M.seen mem.old) (M.seen mem.new) region }
    ensures resident { IsOld table.now region → M.resident mem.new ≡ outside region (M.resident mem.old) }
    ensures memory { (IsOld table.now region → ⊥) → M.seen mem.new ≡ M.seen mem.old }
    ensures sound { IsMemory (M.seen mem.old) → IsMemory (M.seen mem.new) }
    ensures unchanged { (IsOld table.now region → ⊥) → M.resident mem.new ≡ M.resident mem.old }
    ensures no_fault { M.faults mem.new ≡ M.faults mem.old }
    ensures taken { M.taken mem.new ≡ M.taken mem.old }
{
    if table.is_old(region * REGION_WORDS) {
        mem.clear(region);
    }
}
