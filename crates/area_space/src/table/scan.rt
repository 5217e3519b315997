//! What the table notes for the scan of a collection.
ghost use Rattle.std.specs.Prelude.{◌≡◌, ◌*◌, ◌<◌, Some};
ghost use Rattle.area_space.specs.Table.{page_list};
ghost use Rattle.area_space.specs.Sound.{IsTable};
ghost use Rattle.area_space.specs.PageList.{Adds, Drops};

use super::RegionTable;
use crate::page_set::PageSet;
use store_word::REGION_PAGES;

impl RegionTable {
    /// The page of the last word of the latest transport; None if nothing was moved since the
    /// latest flip, or there was no flip. A reclaim doesn't change it.
    pub fn last_moved(&self) -> Option<u32>
        ensures { result ≡ self.now.last }
    {
        self.last
    }

    /// Notes the page of the last word of a transport.
    pub fn note_moved(&mut self, page: u32)
        requires { page < REGION_PAGES * self.old.regions }
        ensures after { self.new ≡ record self.old { last = Some page } }
        ensures sound { IsTable self.new }
    {
        self.last = Some(page);
    }

    /// The pages that have a word to be scanned, as far as the table knows: a flip empties the set,
    /// and a commit adds the pages of its words, whether a collection runs or not.
    pub fn scan_pages(&self) -> &PageSet
        ensures value { result.now ≡ page_list self.now }
        ensures sound { IsTable self.now }
    {
        &self.scan
    }

    /// Adds a page to those that have a word to be scanned.
    pub fn add_scan_page(&mut self, page: u32)
        requires { page < REGION_PAGES * self.old.regions }
        ensures unchanged { self.new ≡ record self.old { pages = self.new.pages } }
        ensures pages { Adds (page_list self.old) (page_list self.new) page page }
    {
        self.scan.insert(page);
    }

    /// Removes a page from those that have a word to be scanned.
    pub fn drop_scan_page(&mut self, page: u32)
        requires { page < REGION_PAGES * self.old.regions }
        ensures unchanged { self.new ≡ record self.old { pages = self.new.pages } }
        ensures pages { Drops (page_list self.old) (page_list self.new) page }
    {
        self.scan.remove(page);
    }

    /// The words committed since the latest flip, or since the table was made. A reclaim doesn't
    /// change them.
    pub fn placed_words(&self) -> u64
        ensures value { result ≡ self.now.placed }
        ensures sound { IsTable self.now }
    {
        self.placed
    }
}
