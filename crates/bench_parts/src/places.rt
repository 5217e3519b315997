//! The page map.
ghost use Rattle.std.specs.Prelude.{◌≡◌, ◌<◌, ◌≤◌, length};

use crate::report::{Measurement, ROUNDS, no_memory, page_at};
use page_map::{PageMap, PagePlace};
use std::alloc::Global;
use std::io;
use std::time::{Clock, Instant};

// Every page goes to a place.
fn set(map: &mut PageMap, pages: u32, place: PagePlace)
    requires size { length map.old.places ≡ pages }
    requires at_least { 0 < pages }
    ensures { length map.new.places ≡ pages }
{
    for turn in 0..pages {
        map.set(page_at(turn, pages), place);
    }
}

// How many pages are swapped.
fn count(map: &PageMap, pages: u32) -> u64
    requires size { length map.now.places ≡ pages }
    requires at_least { 0 < pages }
{
    let mut sum = 0u64;
    for turn in 0..pages {
        sum = sum.wrapping_add(u64::from(map.place_of(page_at(turn, pages)) == PagePlace::Swapped));
    }
    sum
}

/// Each page enters its bucket, moves in it, is looked up, and leaves it.
pub fn run(alloc: Global, rt: &(impl Clock + Print + Eprint), pages: u32) -> io::Result<()>
    requires at_least { 0 < pages }
    requires at_most { pages ≤ 16384 }
{
    let Ok(mut map) = PageMap::new(alloc, pages) else {
        return Err(no_memory());
    };
    let mut filled = Measurement::new("PageMap::set of an empty page", pages);
    let mut moved = Measurement::new("PageMap::set of another page", pages);
    let mut counted = Measurement::new("PageMap::place_of", pages);
    let mut emptied = Measurement::new("PageMap::set to empty", pages);
    for _ in 0..ROUNDS {
        let start = Instant::now(rt)?;
        set(&mut map, pages, PagePlace::InFrame(0));
        filled.end_round(rt, start, 0)?;
        let start = Instant::now(rt)?;
        set(&mut map, pages, PagePlace::Swapped);
        moved.end_round(rt, start, 0)?;
        let start = Instant::now(rt)?;
        let sum = count(&map, pages);
        counted.end_round(rt, start, sum)?;
        let start = Instant::now(rt)?;
        set(&mut map, pages, PagePlace::Empty);
        emptied.end_round(rt, start, 0)?;
    }
    filled.print(rt)?;
    moved.print(rt)?;
    counted.print(rt)?;
    emptied.print(rt)
}
