//! A table of places of ten pages in three buckets, and the pages that each bucket then has.
ghost use Rattle.std.specs.Prelude.{◌≡◌, ◌<◌, length};

use page_map::PagePlace::{Empty, InFrame, Swapped};
use page_map::{PageMap, PagePlace};
use std::test::Fail;

// A page, its place from then on, and the pages of each bucket.
const PLACES: [(u32, PagePlace, [&[u32]; 3]); 9] = [
    (4, InFrame(7), [&[], &[4], &[]]),
    (1, Swapped, [&[], &[4, 1], &[]]),
    (7, Swapped, [&[], &[4, 1, 7], &[]]),
    (0, Empty, [&[], &[4, 1, 7], &[]]),
    (4, Swapped, [&[], &[4, 1, 7], &[]]),
    (5, InFrame(0), [&[], &[4, 1, 7], &[5]]),
    (1, Empty, [&[], &[4, 7], &[5]]),
    (9, InFrame(1), [&[9], &[4, 7], &[5]]),
    (1, InFrame(2), [&[9], &[4, 7, 1], &[5]]),
];

// Whether a bucket has these pages, by a walk from its first page to its last.
fn has(map: &PageMap, bucket: u32, pages: &[u32]) -> bool
    requires pages { length map.now.places ≡ 10 }
    requires in_range { bucket < length map.now.buckets }
{
    let mut next = map.first_in(bucket);
    for page in pages {
        if next != Some(*page) || *page >= 10 || map.place_of(*page) == Empty {
            return false;
        }
        next = map.after(*page);
    }
    next.is_none()
}

#[test]
fn ten_pages_in_three_buckets(rt: HostRuntime) -> Result<(), Fail> {
    let mut map = PageMap::new(rt.alloc(), 10)?;
    assert!(rt; map.buckets() == 3);
    for (page, place, after) in PLACES {
        assert!(rt; page < 10);
        map.set(page, place);
        assert!(rt; map.place_of(page) == place);
        for bucket in 0..3u32 {
            assert!(rt; has(&map, bucket, after[bucket as usize]));
        }
    }
    Ok(())
}
