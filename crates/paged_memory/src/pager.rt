//! The parts of a memory of frames, except for the device.
ghost use Rattle.std.specs.Prelude.{◌≡◌, ◌*◌, ◌≤◌, IfOk, replicate};
ghost use Rattle.frame_pool.specs.Pool.{fresh_pool, IsPool};
ghost use Rattle.page_map.specs.Map.{fresh_map};
ghost use Rattle.ref_table.specs.Sets.{no_levels};

use crate::region_levels::RegionLevels;
use frame_pool::FramePool;
use page_map::PageMap;
use ref_table::RefTable;
use std::alloc::Global;
use store_word::{NoMemory, REGION_PAGES, Space};

/// The frames, the place of each page, the rows of swapped pages, the level of each region, and the greatest level.
#[derive(Drop)]
pub struct Pager {
    pub pool: FramePool,
    pub places: PageMap,
    pub rows: RefTable,
    pub levels: RegionLevels,
    pub top: u8,
}

impl Pager {
    /// All frames are free, all pages are empty, and every region has level 0.
    pub(crate) fn new(alloc: Global, space: &Space) -> Result<Pager, NoMemory>
        requires regions { space.now.regions ≤ 1024 }
        requires at_most { space.now.frames ≤ 4096 }
        ensures frames { IfOk result (λ p. p.pool ≡ fresh_pool space.now.frames) }
        ensures sound { IfOk result (λ p. IsPool p.pool) }
        ensures places { IfOk result (λ p. p.places ≡ fresh_map (space.now.regions * REGION_PAGES)) }
        ensures sets { IfOk result (λ p. p.rows.sets ≡ replicate (space.now.regions * REGION_PAGES) no_levels) }
        ensures levels { IfOk result (λ p. p.levels ≡ replicate space.now.regions 0) }
        ensures level { IfOk result (λ p. p.top ≡ space.now.levels) }
    {
        let pages = space.regions * REGION_PAGES;
        let pool = FramePool::new(alloc, space.frames)?;
        let places = PageMap::new(alloc, pages)?;
        let rows = RefTable::new(alloc, pages)?;
        let levels = RegionLevels::new(alloc, space.regions)?;
        Ok(Pager {
            pool,
            places,
            rows,
            levels,
            top: space.levels,
        })
    }
}
