//! The reference table, at more and more rows.
ghost use Rattle.std.specs.Prelude.{◌≡◌, ◌<◌, ◌≤◌, length};

use crate::report::{Measurement, ROUNDS, no_memory, page_at};
use ref_table::RefTable;
use std::alloc::Global;
use std::io;
use std::time::{Clock, Instant};
use store_word::{Flags, Levels};

// One level of the six for each turn.
fn level_of(turn: u32) -> Levels {
    Levels::one((turn % 6 + 1) as u8)
}

// Notes rows that weren't in the table.
fn note(table: &mut RefTable, pages: u32, rows: u32)
    requires size { length table.old.sets ≡ pages }
    requires at_least { 0 < pages }
    ensures { length table.new.sets ≡ pages }
{
    for turn in 0..rows {
        table.note(page_at(turn, pages), level_of(turn));
    }
}

// Looks for the next row of a level from scattered pages on.
fn search(table: &RefTable, pages: u32) -> u64
    requires { 0 < pages }
{
    let mut sum = 0u64;
    for turn in 0..pages {
        let found = table.next_from(page_at(turn, pages), level_of(turn));
        sum = sum.wrapping_add(found.unwrap_or(pages) as u64);
    }
    sum
}

// Reads each row.
fn read(table: &RefTable, pages: u32) -> u64
    requires size { length table.now.sets ≡ pages }
    requires at_least { 0 < pages }
{
    let mut sum = 0u64;
    for turn in 0..pages {
        sum = sum.wrapping_add(table.levels(page_at(turn, pages)).bits() as u64);
    }
    sum
}

// Takes the rows out again.
fn forget(table: &mut RefTable, pages: u32, rows: u32)
    requires size { length table.old.sets ≡ pages }
    requires at_least { 0 < pages }
    ensures { length table.new.sets ≡ pages }
{
    for turn in 0..rows {
        table.forget(page_at(turn, pages));
    }
}

// The calls at this many rows.
fn run_at(
    rt: &(impl Clock + Print + Eprint),
    table: &mut RefTable,
    pages: u32,
    rows: u32,
) -> io::Result<()>
    requires size { length table.old.sets ≡ pages }
    requires at_least { 0 < pages }
    ensures { length table.new.sets ≡ pages }
{
    let mut noted = Measurement::new("RefTable::note", rows);
    let mut searched = Measurement::new("RefTable::next_from", pages);
    let mut were_read = Measurement::new("RefTable::levels", pages);
    let mut forgotten = Measurement::new("RefTable::forget", rows);
    for _ in 0..ROUNDS {
        let start = Instant::now(rt)?;
        note(table, pages, rows);
        noted.end_round(rt, start, table.rows() as u64)?;
        let start = Instant::now(rt)?;
        let sum = search(table, pages);
        searched.end_round(rt, start, sum)?;
        let start = Instant::now(rt)?;
        let sum = read(table, pages);
        were_read.end_round(rt, start, sum)?;
        let start = Instant::now(rt)?;
        forget(table, pages, rows);
        forgotten.end_round(rt, start, table.rows() as u64)?;
    }
    println!(rt; "{rows} rows")?;
    eprintln!(rt; "{rows} rows")?;
    noted.print(rt)?;
    searched.print(rt)?;
    were_read.print(rt)?;
    forgotten.print(rt)
}

/// The calls at 64 rows, at 1,024, and at one for each page, so that the times show how `note` and `next_from` grow with the rows.
pub fn run(alloc: Global, rt: &(impl Clock + Print + Eprint), pages: u32) -> io::Result<()>
    requires at_least { 0 < pages }
    requires at_most { pages ≤ 16384 }
{
    let Ok(mut table) = RefTable::new(alloc, pages) else {
        return Err(no_memory());
    };
    run_at(rt, &mut table, pages, 64)?;
    run_at(rt, &mut table, pages, 1_024)?;
    run_at(rt, &mut table, pages, pages)
}
