//! Makes pages empty, with no call of the device.
ghost use Rattle.std.specs.Prelude.{◌≡◌, ◌+◌, ◌<◌, ℕ, List, length, Contains};
ghost use Rattle.store_word.specs.Words.{Parts};
ghost use Rattle.page_map.specs.Map.{place_at};

use crate::pager::Pager;
use page_map::PagePlace;

impl Pager {
    ghost use Rattle.paged_memory.specs.Paging.{IsPaged};
    ghost use Rattle.paged_memory.specs.Moves.{paging_of, Emptied};

    /// Makes a page empty: its frame is free, or its row is removed.
    pub(crate) fn empty_page(&mut self, page: u32)
        requires in_range { page < length self.old.places.places }
        requires size { length self.old.rows.sets ≡ length self.old.places.places }
        requires frame { (f : ℕ) → place_at self.old.places page ≡ PagePlace.InFrame f → Contains self.old.pool.used f }
        ensures { (stored : List Parts) → IsPaged (paging_of self.old) stored
            → Emptied (paging_of self.old) stored (paging_of self.new) page (page + 1) }
    {
        match self.places.place_of(page) {
            PagePlace::InFrame(frame) => {
                self.pool.give_back(frame);
                self.places.set(page, PagePlace::Empty);
            }
            PagePlace::Swapped => {
                self.rows.forget(page);
                self.places.set(page, PagePlace::Empty);
            }
            PagePlace::Empty => {}
        }
    }
}
