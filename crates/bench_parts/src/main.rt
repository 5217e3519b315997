//! Times the calls of single crates. Each argument names what is timed:
//!
//! - `tables`: the lists, the page map and the reference table at 16,384 pages, and the frames at 4,096;
//! - `memory`: reads and writes of a paged memory beside those of a flat one;
//! - `areas`: an area at 1,024 regions that is filled, flipped and reclaimed.
//!
//! Standard output has the counts and the check sums, which are the same in each run; standard error has the times.
//! Each file runs the calls of one part; `report` prints them.
#![tactic(auto)]

mod chains;
mod fills;
mod frames;
mod memories;
mod places;
mod report;
mod rows;
mod uses;

use std::alloc::Global;
use std::time::Clock;
use std::{env, io};

fn time_tables(alloc: Global, rt: &(impl Clock + Print + Eprint)) -> io::Result<()> {
    chains::run(alloc, rt, 16_384, 64)?;
    frames::run(alloc, rt, 4_096)?;
    places::run(alloc, rt, 16_384)?;
    rows::run(alloc, rt, 16_384)
}

fn time_part(alloc: Global, rt: &(impl Clock + Print + Eprint), word: &str) -> io::Result<()> {
    match word {
        "tables" => time_tables(alloc, rt),
        "memory" => memories::run(alloc, rt),
        "areas" => fills::run(alloc, rt),
        _ => Err(io::ErrorKind::InvalidInput.into()),
    }
}

fn main(rt: HostRuntime) -> io::Result<()> {
    for word in env::args(&rt)?.skip(1) {
        time_part(rt.alloc(), &rt, word.as_str())?;
    }
    Ok(())
}
