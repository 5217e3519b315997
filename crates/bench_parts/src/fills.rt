//! One area that is filled, flipped and reclaimed, round after round.
ghost use Rattle.mem_port.specs.Plain.{plain_store};
ghost use Rattle.one_area.specs.OneArea.{IsOneArea};

use crate::report::{Measurement, ROUNDS, no_memory};
use lisp_graph::{AreaKind, AreaRule, Name};
use one_area::OneArea;
use std::alloc::Global;
use std::io;
use std::time::{Clock, Instant};

// The quota for which 1,024 regions are just enough, in words.
const QUOTA: u32 = 1_044_480;

// How many pairs a round has.
const PAIRS: u32 = 65_536;

// How many regions blocks of 2,048 words and of 1 word in turn take, within the quota.
const REGIONS: u32 = 509;

// Pairs are placed.
fn put_pairs(area: &mut OneArea) -> u64
    requires { IsOneArea (plain_store area.old.ground.mem) area.old.ground.table area.old.live_words area.old.old_words area.old.moving }
    ensures { IsOneArea (plain_store area.new.ground.mem) area.new.ground.table area.new.live_words area.new.old_words area.new.moving }
{
    let mut sum = 0u64;
    for _ in 0..PAIRS {
        sum = sum.wrapping_add(area.put(2).unwrap_or(0) as u64);
    }
    sum
}

// Blocks are placed, of which two take a region.
fn put_blocks(area: &mut OneArea) -> u64
    requires { IsOneArea (plain_store area.old.ground.mem) area.old.ground.table area.old.live_words area.old.old_words area.old.moving }
    ensures { IsOneArea (plain_store area.new.ground.mem) area.new.ground.table area.new.live_words area.new.old_words area.new.moving }
{
    let mut sum = 0u64;
    for _ in 0..REGIONS {
        sum = sum.wrapping_add(area.put(2_048).unwrap_or(0) as u64);
        sum = sum.wrapping_add(area.put(1).unwrap_or(0) as u64);
    }
    sum
}

/// Pairs, and then blocks, fill an area that is flipped and reclaimed.
pub fn run(alloc: Global, rt: &(impl Clock + Print + Eprint)) -> io::Result<()> {
    let Some(name) = Name::read(b"work") else {
        return Err(io::ErrorKind::InvalidInput.into());
    };
    let rule = AreaRule {
        name,
        kind: AreaKind::Dynamic,
        quota: QUOTA,
    };
    let Ok(mut area) = OneArea::new(alloc, 1_024, rule) else {
        return Err(no_memory());
    };
    let mut placed = Measurement::new("place and commit, a pair", PAIRS);
    let mut flipped = Measurement::new("condemn, a region", REGIONS);
    let mut freed = Measurement::new("free_old, a region", REGIONS);
    for _ in 0..ROUNDS {
        let start = Instant::now(rt)?;
        let sum = put_pairs(&mut area);
        placed.end_round(rt, start, sum)?;
        area.flip();
        area.reclaim();
        put_blocks(&mut area);
        let start = Instant::now(rt)?;
        area.flip();
        flipped.end_round(rt, start, area.regions_in_use() as u64)?;
        let start = Instant::now(rt)?;
        area.reclaim();
        freed.end_round(rt, start, area.regions_in_use() as u64)?;
    }
    placed.print(rt)?;
    flipped.print(rt)?;
    freed.print(rt)
}
