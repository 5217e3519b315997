//! Places at a region's end, and an area that is filled, flipped and copied whole.
ghost use Rattle.std.specs.Prelude.{IfOk};
ghost use Rattle.mem_port.specs.Plain.{plain_store};
ghost use Rattle.one_area.specs.OneArea.{IsOneArea};

use lisp_graph::{AreaKind, AreaRule, Name};
use one_area::OneArea;
use std::alloc::Global;
use std::test::Fail;

// One area of 40,980 words in 45 regions, which is just what the room rule requires.
fn new_area(alloc: Global) -> Result<OneArea, Fail>
    ensures { IfOk result (λ t. IsOneArea (plain_store t.ground.mem) t.ground.table t.live_words t.old_words t.moving) }
{
    let rule = AreaRule {
        name: Name::read(b"work").ok_or("no name")?,
        kind: AreaKind::Dynamic,
        quota: 40980,
    };
    Ok(OneArea::new(alloc, 45, rule)?)
}

#[test]
fn places_at_the_end_of_a_region(rt: HostRuntime) -> Result<(), Fail> {
    let mut area = new_area(rt.alloc())?;
    let table: [(u32, Option<u32>); 11] = [
        (2048, Some(0)),
        (2047, Some(2048)),
        (2, Some(4096)),
        (2046, Some(4098)),
        (2048, Some(6144)),
        (1, Some(8192)),
        (2048, Some(8193)),
        (2048, Some(12288)),
        (2047, Some(14336)),
        (1, Some(16383)),
        (1, Some(16384)),
    ];
    for (words, at) in table {
        assert_eq!(rt; area.put(words), at);
    }
    assert_eq!(rt; area.ground.table.account(0), area.live_words);
    Ok(())
}

// Blocks of 2,048 words and of 1 word in turn fill the quota: each region takes one of each, and none
// has room for a third. The copies take as many regions again, and 45 suffice each time.
#[test]
fn a_full_area_is_copied_whole(rt: HostRuntime) -> Result<(), Fail> {
    let mut area = new_area(rt.alloc())?;
    for _ in 0..20 {
        assert!(rt; area.put(2048).is_some());
        assert!(rt; area.put(1).is_some());
    }
    assert_eq!(rt; area.ground.table.account(0), 40980);
    for _ in 0..3 {
        assert!(rt; area.flip());
        for _ in 0..20 {
            assert!(rt; area.copy(2048).is_some());
            assert!(rt; area.copy(1).is_some());
        }
        assert_eq!(rt; area.regions_in_use(), 40);
        area.reclaim();
        assert_eq!(rt; area.regions_in_use(), 20);
        assert_eq!(rt; area.ground.table.account(0), 40980);
    }
    assert_eq!(rt; area.put(1), None);
    Ok(())
}
