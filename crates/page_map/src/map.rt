//! The places and the buckets, and the calls on them.
ghost use Rattle.std.specs.Prelude.{◌≡◌, ◌≢◌, true, false, ◌+◌, ◌/◌, ◌%◌, ◌<◌, ◌≤◌, ◌^◌, ◌↔◌, [], length, Contains, IfOk, IfSome, IsNone};
ghost use Rattle.index_lists.specs.Chains.{list_at, first_of, last_of, next_in, with_list, IsFree, IsSound};
ghost use Rattle.page_map.specs.Map.{fresh_map, place_at, bucket_of, pages_in, bucket_after, placed, IsMap};

use crate::place::PagePlace;
use index_lists::{Lists, NoMemory};
use std::alloc::Global;
use std::marker::Model;

/// The place of each page. Pages and buckets are numbered from 0.
#[derive(Drop)]
pub struct PageMap {
    lists: Lists,
    places: Vec<PagePlace>,
    buckets: u32,
}

impl Model for PageMap {
    ghost use Rattle.page_map.specs.Map.{Map};
    ghost use Rattle.page_map.specs.Invariant.{map_of, PageMapInvariant};

    ghost Value = { Map };

    ghost view = { λ a. map_of a.lists a.places.items };

    ghost invariant = { λ a. PageMapInvariant a.lists a.places.items a.buckets };
}

// A page enters its bucket, is removed from it, or neither.
fn relist(lists: &mut Lists, buckets: u32, page: u32, was_empty: bool, is_empty: bool)
    requires at_least { 0 < buckets }
    requires in_range { page % buckets < length lists.old.lists }
    requires page { page < lists.old.nodes }
    requires free { was_empty ≡ true → IsFree lists.old page }
    requires listed { was_empty ≡ false → Contains (list_at lists.old (page % buckets)) page }
    requires sound { IsSound lists.old }
    ensures after { lists.new ≡ with_list lists.old (page % buckets)
        (bucket_after was_empty is_empty page (list_at lists.old (page % buckets))) }
    ensures stays_sound { IsSound lists.new }
{
    match (was_empty, is_empty) {
        (true, false) => lists.push_back(page % buckets, page),
        (false, true) => lists.remove(page),
        _ => {}
    }
}

impl PageMap {
    /// At most 2^20 pages, all of them empty. The number of buckets is 1 + pages / 4. It takes
    /// 20 bytes for each page and 12 for each bucket, and no later call takes memory.
    pub fn new(alloc: Global, pages: u32) -> Result<PageMap, NoMemory>
        requires { pages ≤ 2 ^ 20 }
        ensures fresh { IfOk result (λ map. map ≡ fresh_map pages) }
        ensures sound { IfOk result IsMap }
    {
        let buckets = 1 + pages / 4;
        let lists = Lists::new(alloc, pages, buckets)?;
        let places = vec![in alloc; PagePlace::Empty; pages as usize]?;
        Ok(PageMap {
            lists,
            places,
            buckets,
        })
    }

    /// The place of a page.
    pub fn place_of(&self, page: u32) -> PagePlace
        requires { page < length self.now.places }
        ensures place { result ≡ place_at self.now page }
        ensures sound { IsMap self.now }
    {
        self.places[page as usize]
    }

    /// Sets the place of a page. A page that was empty and isn't any longer enters its bucket, at its
    /// end; one that becomes empty is removed from its bucket.
    pub fn set(&mut self, page: u32, place: PagePlace)
        requires { page < length self.old.places }
        ensures placed { self.new ≡ placed self.old page place }
        ensures sound { IsMap self.new }
    {
        let was_empty = self.place_of(page).is_empty();
        relist(
            &mut self.lists,
            self.buckets,
            page,
            was_empty,
            place.is_empty(),
        );
        self.places[page as usize] = place;
    }

    /// How many buckets there are: one more than a quarter of the pages.
    pub fn buckets(&self) -> u32
        ensures value { result ≡ length self.now.buckets }
        ensures sound { IsMap self.now }
    {
        self.buckets
    }

    /// The first page of a bucket; None if and only if the bucket has no page.
    pub fn first_in(&self, bucket: u32) -> Option<u32>
        requires { bucket < length self.now.buckets }
        ensures first { result ≡ first_of (pages_in self.now bucket) }
        ensures none { IsNone result ↔ (pages_in self.now bucket ≡ []) }
        ensures some { IfSome result (λ page. place_at self.now page ≢ PagePlace.Empty) }
        ensures sound { IsMap self.now }
    {
        self.lists.front(bucket)
    }

    /// The page after one that isn't empty, in its bucket; None if and only if that is the last.
    pub fn after(&self, page: u32) -> Option<u32>
        requires { place_at self.now page ≢ PagePlace.Empty }
        ensures value { result ≡ next_in (pages_in self.now (bucket_of self.now page)) page }
        ensures none { IsNone result
            ↔ (last_of (pages_in self.now (bucket_of self.now page)) ≡ Some page) }
        ensures some { IfSome result (λ next. place_at self.now next ≢ PagePlace.Empty) }
        ensures sound { IsMap self.now }
    {
        self.lists.next(page)
    }
}
