//! A set of pages that finds its lowest page by two levels of bits.
ghost use Rattle.std.specs.Prelude.{◌≡◌, ◌↔◌, ◌<◌, ◌≤◌, IsTrue, IfOk, [], Contains};
ghost use Rattle.index_lists.specs.Chains.{first_of};
ghost use Rattle.area_space.specs.PageList.{Adds, Drops};

use crate::bits::{clear_bit, clear_words, has_bit, lowest_bit, set_bit};
use std::alloc::Global;
use std::marker::Model;
use store_word::NoMemory;

/// A set of numbers below a bound, at most 16,384: pages, or regions.
///
/// It has a bit for each number in words of 64, and a bit for each of these words that isn't 0. So
/// every call takes constant time, except `insert_span`, whose time grows with its pages, and
/// `new` and `clear`, whose time grows with the words of 64.
#[derive(Drop)]
pub struct PageSet {
    lower: Vec<u64>,
    upper: Vec<u64>,
    count: u32,
}

impl Model for PageSet {
    ghost use Rattle.area_space.specs.PageList.{PageList};
    ghost use Rattle.area_space.specs.Bits.{pages_of, IsPages};

    ghost Value = { PageList };

    ghost view = { λ a. record { count = a.count; pages = pages_of a.lower.items a.count } };

    ghost invariant = { λ a. IsPages a.lower.items a.upper.items a.count };
}

impl PageSet {
    /// The empty set of the pages below a number, at most 16,384. It takes a bit for each page and a
    /// little more, and no later call takes memory.
    pub fn new(alloc: Global, pages: u32) -> Result<PageSet, NoMemory>
        requires { pages ≤ 16384 }
        ensures { IfOk result (λ set. set ≡ record { count = pages; pages = [] }) }
    {
        let words = (pages as usize + 63) / 64;
        let lower = vec![in alloc; 0u64; words]?;
        let upper = vec![in alloc; 0u64; (words + 63) / 64]?;
        Ok(PageSet {
            lower,
            upper,
            count: pages,
        })
    }

    /// Adds a page, which may be in the set already.
    #[inline]
    pub fn insert(&mut self, page: u32)
        requires { page < self.old.count }
        ensures { Adds self.old self.new page page }
    {
        if has_bit(&self.lower, page) {
            return;
        }
        set_bit(&mut self.lower, page);
        set_bit(&mut self.upper, page / 64);
    }

    /// Adds the pages from one to another, both included.
    #[inline]
    pub fn insert_span(&mut self, from: u32, to: u32)
        requires order { from ≤ to }
        requires in_range { to < self.old.count }
        ensures { Adds self.old self.new from to }
    {
        self.insert(from);
        for page in from..to {
            self.insert(page + 1);
        }
    }

    /// Removes a page, which need not be in the set.
    pub fn remove(&mut self, page: u32)
        requires { page < self.old.count }
        ensures { Drops self.old self.new page }
    {
        clear_bit(&mut self.lower, page);
        if self.lower[(page / 64) as usize] == 0 {
            clear_bit(&mut self.upper, page / 64);
        }
    }

    /// Removes all pages.
    pub fn clear(&mut self)
        ensures { self.new ≡ record { count = self.old.count; pages = [] } }
    {
        clear_words(&mut self.lower);
        clear_words(&mut self.upper);
    }

    /// Whether a page is in the set.
    pub fn contains(&self, page: u32) -> bool
        requires { page < self.now.count }
        ensures { IsTrue result ↔ Contains self.now.pages page }
    {
        has_bit(&self.lower, page)
    }

    /// The lowest page of the set; None if and only if the set is empty.
    pub fn lowest(&self) -> Option<u32>
        ensures { result ≡ first_of self.now.pages }
    {
        match lowest_bit(&self.upper) {
            Some(word) => {
                let bits = self.lower[word as usize];
                Some(word * 64 + bits.trailing_zeros())
            }
            None => None,
        }
    }
}
