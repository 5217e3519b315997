//! The two memories beside each other.

use crate::report::no_memory;
use crate::uses;
use mem_port::PlainMemory;
use paged_memory::{PagedMemory, SwapMemory};
use std::alloc::Global;
use std::io;
use std::marker::Brand;
use std::sync::ledger::Blank;
use std::time::Clock;
use store_word::Space;

// 1,024 pages, of which 32 may be resident.
const SPACE: Space = Space {
    regions: 64,
    frames: 32,
    registers: 8,
    levels: 2,
    rate: 0,
    capacity: [0; 6],
};

/// Uses of a flat memory, and then of a paged one; on standard error, how many times as long as the flat one this took.
pub fn run(alloc: Global, rt: &(impl Clock + Print + Eprint)) -> io::Result<()> {
    let Ok(mut plain) = PlainMemory::new(alloc, &SPACE) else {
        return Err(no_memory());
    };
    println!(rt; "A flat memory")?;
    eprintln!(rt; "A flat memory")?;
    let flat = uses::run::<PlainMemory, Brand>(rt, &mut plain, Blank::new(1))?;
    let swap = SwapMemory::new(alloc, 0);
    let Ok(mut paged) = PagedMemory::open(alloc, &SPACE, swap) else {
        return Err(no_memory());
    };
    println!(rt; "A paged memory")?;
    eprintln!(rt; "A paged memory")?;
    let times = uses::run::<PagedMemory<SwapMemory>, Brand>(rt, &mut paged, Blank::new(1))?;
    times.compare(rt, &flat)
}
