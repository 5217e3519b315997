//! The frame pool, at the greatest number of frames.
ghost use Rattle.std.specs.Prelude.{◌≡◌, ◌<◌, ◌≤◌};
ghost use Rattle.frame_pool.specs.Pool.{frames_of};

use crate::report::{Measurement, ROUNDS, no_memory, page_at};
use frame_pool::FramePool;
use std::alloc::Global;
use std::io;
use std::time::{Clock, Instant};

// Every frame is taken.
fn take(pool: &mut FramePool, frames: u32) -> u64
    requires { frames_of pool.old ≡ frames }
    ensures { frames_of pool.new ≡ frames }
{
    let mut sum = 0u64;
    for page in 0..frames {
        if let Some(frame) = pool.free_frame() {
            pool.take(frame, page);
            sum = sum.wrapping_add(frame as u64);
        }
    }
    sum
}

// Frames are used in a scattered order.
fn touch(pool: &mut FramePool, frames: u32) -> u64
    requires size { frames_of pool.old ≡ frames }
    requires at_least { 0 < frames }
    ensures { frames_of pool.new ≡ frames }
{
    let mut sum = 0u64;
    for turn in 0..frames {
        let frame = page_at(turn, frames);
        if let Some(page) = pool.page_of(frame) {
            pool.touch(frame);
            sum = sum.wrapping_add(page as u64);
        }
    }
    sum
}

// The frames are given back, the least recently used first.
fn give_back(pool: &mut FramePool, frames: u32) -> u64
    requires { frames_of pool.old ≡ frames }
    ensures { frames_of pool.new ≡ frames }
{
    let mut sum = 0u64;
    for _ in 0..frames {
        if let Some(frame) = pool.oldest() {
            pool.give_back(frame);
            sum = sum.wrapping_mul(3).wrapping_add(frame as u64);
        }
    }
    sum
}

/// Each frame is taken, used again, and given back.
pub fn run(alloc: Global, rt: &(impl Clock + Print + Eprint), frames: u32) -> io::Result<()>
    requires at_least { 0 < frames }
    requires at_most { frames ≤ 4096 }
{
    let Ok(mut pool) = FramePool::new(alloc, frames) else {
        return Err(no_memory());
    };
    let mut taken = Measurement::new("FramePool::take", frames);
    let mut touched = Measurement::new("FramePool::touch", frames);
    let mut given = Measurement::new("FramePool::give_back", frames);
    for _ in 0..ROUNDS {
        let start = Instant::now(rt)?;
        let sum = take(&mut pool, frames);
        taken.end_round(rt, start, sum)?;
        let start = Instant::now(rt)?;
        let sum = touch(&mut pool, frames);
        touched.end_round(rt, start, sum)?;
        let start = Instant::now(rt)?;
        let sum = give_back(&mut pool, frames);
        given.end_round(rt, start, sum)?;
    }
    taken.print(rt)?;
    touched.print(rt)?;
    given.print(rt)
}
