//! A set of pages over its two levels.
ghost use Rattle.std.specs.Prelude.{◌≡◌};

use area_space::PageSet;
use std::test::Fail;

#[derive(Clone, Copy)]
enum Change {
    Insert(u32),
    Remove(u32),
}

// Changes a set of 16,384 pages, and returns its lowest page.
fn lowest_after(set: &mut PageSet, change: Change) -> Option<u32>
    requires { set.old.count ≡ 16384 }
    ensures { set.new.count ≡ 16384 }
{
    match change {
        Change::Insert(page) => if page < 16384 {
            set.insert(page);
        },
        Change::Remove(page) => if page < 16384 {
            set.remove(page);
        },
    }
    set.lowest()
}

#[test]
fn a_set_of_pages_over_two_levels(rt: HostRuntime) -> Result<(), Fail> {
    let table: [(Change, Option<u32>); 9] = [
        (Change::Insert(16383), Some(16383)),
        (Change::Insert(4096), Some(4096)),
        (Change::Insert(4159), Some(4096)),
        (Change::Insert(63), Some(63)),
        (Change::Insert(64), Some(63)),
        (Change::Remove(63), Some(64)),
        (Change::Remove(64), Some(4096)),
        (Change::Remove(4096), Some(4159)),
        (Change::Remove(4159), Some(16383)),
    ];
    let mut set = PageSet::new(rt.alloc(), 16384)?;
    assert_eq!(rt; set.lowest(), None);
    for (change, lowest) in table {
        assert_eq!(rt; lowest_after(&mut set, change), lowest);
    }
    assert!(rt; set.contains(16383));
    assert!(rt; !set.contains(4159));
    set.clear();
    assert_eq!(rt; set.lowest(), None);
    Ok(())
}
