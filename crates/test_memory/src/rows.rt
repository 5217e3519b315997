//! The table beside an ordered map of std.
ghost use Rattle.std.specs.Prelude.{◌≡◌, ◌<◌, length};

use ref_table::RefTable;
use std::collections::BTreeMap;
use std::process::Abort;
use std::test::Fail;
use store_word::{Flags, Levels};

const PAGES: u32 = 1024;

// The page whose turn it is: ascending, descending, or scattered.
fn page_at(order: u8, turn: u32) -> u32
    requires { turn < 1024 }
    ensures { result < 1024 }
{
    match order {
        0 => turn,
        1 => PAGES - 1 - turn,
        _ => turn * 173 % PAGES,
    }
}

// Some levels for a page, at least one.
fn levels_of(page: u32, round: u32) -> Levels
    requires page { page < 1024 }
    requires round { round < 3 }
{
    Levels::from_bits_retain(((page * 7 + round * 5) % 63 + 1) as u8)
}

// Tests that a row is the next from here on, with these levels.
fn compare_row(rt: &impl Abort, table: &RefTable, from: u32, page: u32, levels: Levels)
    requires sets { length table.now.sets ≡ 1024 }
    requires page { page < 1024 }
{
    assert!(rt; table.next_from(from, Levels::up_to(6)) == Some(page));
    assert!(rt; table.levels(page) == levels);
    assert!(rt; table.node(page).map(|node| node.levels) == Some(levels));
}

// Whether the root's height is at most twice the logarithm of the rows.
fn is_balanced(table: &RefTable) -> bool
    requires { length table.now.sets ≡ 1024 }
{
    match table.root() {
        None => true,
        Some(root) if root < PAGES => {
            let height = table.node(root).map_or(0, |node| node.height);
            height < 24 && (1u64 << (height / 2)) <= u64::from(table.rows()) + 1
        }
        Some(_) => false,
    }
}

// Tests that each row, and no other, is found in order.
fn compare(rt: &impl Abort, table: &RefTable, rows: &BTreeMap<u32, Levels>)
    requires { length table.now.sets ≡ 1024 }
{
    assert!(rt; table.rows() as usize == rows.len());
    let mut from = 0;
    for (page, levels) in rows.iter() {
        assert!(rt; *page < PAGES);
        compare_row(rt, table, from, *page, *levels);
        from = *page + 1;
    }
    assert!(rt; table.next_from(from, Levels::up_to(6)).is_none());
    assert!(rt; is_balanced(table));
}

// The lowest page from one on with some of the levels, by the map.
fn next_of(rows: &BTreeMap<u32, Levels>, from: u32, levels: Levels) -> Option<u32> {
    for (page, set) in rows.iter() {
        if from <= *page && set.intersects(levels) {
            return Some(*page);
        }
    }
    None
}

// Puts a row into both.
fn note(
    table: &mut RefTable,
    rows: &mut BTreeMap<u32, Levels>,
    page: u32,
    levels: Levels,
) -> Result<(), Fail>
    requires sets { length table.old.sets ≡ 1024 }
    requires page { page < 1024 }
    ensures { length table.new.sets ≡ 1024 }
{
    table.note(page, levels);
    rows.insert(page, levels)?;
    Ok(())
}

// Notes every page in the first round. In a later one each third page is noted again, and the others are forgotten.
fn note_round(
    rt: &impl Abort,
    table: &mut RefTable,
    rows: &mut BTreeMap<u32, Levels>,
    order: u8,
    round: u32,
) -> Result<(), Fail>
    requires sets { length table.old.sets ≡ 1024 }
    requires round { round < 3 }
    ensures { length table.new.sets ≡ 1024 }
{
    for turn in 0..PAGES {
        let page = page_at(order, turn);
        if round == 0 || turn % 3 == 0 {
            note(table, rows, page, levels_of(page, round))?;
        } else {
            table.forget(page);
            rows.remove(&page);
        }
        if turn % 128 == 0 {
            compare(rt, table, rows);
        }
    }
    compare(rt, table, rows);
    Ok(())
}

// Searches for each level from many pages on.
fn search(rt: &impl Abort, table: &RefTable, rows: &BTreeMap<u32, Levels>, order: u8) {
    for level in 1..7u8 {
        let levels = Levels::one(level);
        for turn in 0..64u32 {
            let from = page_at(order, turn * 16);
            assert!(rt; table.next_from(from, levels) == next_of(rows, from, levels));
        }
    }
}

// Tests that the empty set isn't a row.
fn empty_all(rt: &impl Abort, table: &mut RefTable, order: u8)
    requires { length table.old.sets ≡ 1024 }
{
    for turn in 0..PAGES {
        table.note(page_at(order, turn), Levels::empty());
    }
    assert!(rt; table.root().is_none());
    assert!(rt; table.rows() == 0);
}

#[test]
fn is_an_ordered_map(rt: HostRuntime) -> Result<(), Fail> {
    for order in 0..3u8 {
        let mut table = RefTable::new(rt.alloc(), PAGES).map_err(|_| "no memory")?;
        let mut rows = BTreeMap::new(rt.alloc());
        note_round(&rt, &mut table, &mut rows, order, 0)?;
        search(&rt, &table, &rows, order);
        note_round(&rt, &mut table, &mut rows, order, 1)?;
        search(&rt, &table, &rows, order);
        empty_all(&rt, &mut table, order);
    }
    Ok(())
}
