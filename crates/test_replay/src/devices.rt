//! Devices that fail at each call, sinks with each room, inputs that are cut, and bytes that occur in no line.
use super::cases::{
    BEHIND, BEHIND_SOURCES, BYTES, DUMPED, DUMPED_SWAPS, FRONTS, FULL, FULL_FRONTS, FULL_REPLIES,
    FULL_SOURCES, PAGED, PAGED_SWAPS, SAME_FRONTS, SMALLEST, SOURCES,
};
use super::run::{Devices, SOUND, bytes_of, compare, run, same};
use std::alloc::Global;
use std::process::Abort;
use std::test::Fail;

/// What a number changes in a run.
#[derive(Clone, Copy)]
pub enum Change {
    /// The input is cut off after this many bytes.
    Front,
    /// This byte is at this place.
    Byte(u8),
    /// This call of the source fails, which gives a byte a call.
    Source,
    /// This page call fails.
    Swap,
}

/// Runs an input with a change, and compares how that ends.
fn changed(
    rt: &impl Abort,
    alloc: Global,
    change: Change,
    input: &[u8],
    number: u32,
    want: &str,
) -> Result<(), Fail> {
    let mut bytes = Vec::from_slice(alloc, input)?;
    let mut devices = SOUND;
    match change {
        Change::Front => bytes.truncate(number as usize),
        Change::Byte(byte) => {
            if let Some(place) = bytes.get_mut(number as usize) {
                *place = byte;
            }
        }
        Change::Source => {
            devices.source_piece = 1;
            devices.source_fail = number as u64;
        }
        Change::Swap => devices.swap_fail = number,
    }
    let ended = run(alloc, "replay", &bytes, &devices)?;
    compare(rt, alloc, &ended, want)
}

/// Compares the runs of all numbers from one on with the rows: the runs of the numbers below the one that begins a row, and not below that
/// of the row before it, end as the row says.
pub fn each(
    rt: &impl Abort,
    alloc: Global,
    change: Change,
    input: &str,
    first: u32,
    rows: &str,
) -> Result<(), Fail> {
    let bytes = bytes_of(alloc, input)?;
    let mut from = first;
    for row in rows.lines() {
        let (to, want) = row.split_once(" = ").ok_or("no outcome")?;
        let to = to.parse::<u32>().ok().ok_or("no number")?;
        for number in from..to {
            changed(rt, alloc, change, &bytes, number, want)?;
        }
        from = to;
    }
    Ok(())
}

/// What is changed, the input, the first number, and how the runs of the numbers from there on end.
const CHANGES: [(Change, &str, u32, &str); 15] = [
    (Change::Front, SMALLEST, 0, SAME_FRONTS),
    (Change::Front, SMALLEST, 79, FRONTS),
    (Change::Front, FULL, 0, SAME_FRONTS),
    (Change::Front, FULL, 79, FULL_FRONTS),
    (Change::Byte(0), SMALLEST, 0, BYTES),
    (Change::Byte(9), SMALLEST, 0, BYTES),
    (Change::Byte(13), SMALLEST, 0, BYTES),
    (Change::Byte(127), SMALLEST, 0, BYTES),
    (Change::Byte(128), SMALLEST, 0, BYTES),
    (Change::Byte(255), SMALLEST, 0, BYTES),
    (Change::Source, SMALLEST, 0, SOURCES),
    (Change::Source, FULL, 0, FULL_SOURCES),
    (Change::Source, BEHIND, 0, BEHIND_SOURCES),
    (Change::Swap, PAGED, 0, PAGED_SWAPS),
    (Change::Swap, DUMPED, 0, DUMPED_SWAPS),
];

#[test]
fn changes(rt: HostRuntime) -> Result<(), Fail> {
    for (change, input, first, rows) in CHANGES {
        each(&rt, rt.alloc(), change, input, first, rows)?;
    }
    Ok(())
}

/// Runs the full run over these devices, and compares the bytes that its sink kept: the first `kept` of those that the run writes.
fn stops(rt: &impl Abort, alloc: Global, devices: &Devices, kept: usize) -> Result<(), Fail> {
    let mut want = bytes_of(alloc, FULL_REPLIES)?;
    want.truncate(kept);
    let ended = run(alloc, "replay", &bytes_of(alloc, FULL)?, devices)?;
    same(rt, &ended, 1, &want, "a sink that stops");
    Ok(())
}

/// A sink with each room; each failing call of a sink that takes a byte a call, with replies that are given one at a time; and each of one
/// that takes three bytes a call, with all replies together.
#[test]
fn sinks_stop(rt: HostRuntime) -> Result<(), Fail> {
    let alloc = rt.alloc();
    for kept in 0..FULL_REPLIES.len() {
        let room = Devices {
            room: kept,
            ..SOUND
        };
        stops(&rt, alloc, &room, kept)?;
        let call = Devices {
            source_piece: 1,
            sink_piece: 1,
            sink_fail: (kept as u64).saturating_add(1),
            ..SOUND
        };
        stops(&rt, alloc, &call, kept)?;
        if kept % 3 == 0 {
            let call = Devices {
                sink_piece: 3,
                sink_fail: (kept as u64 / 3).saturating_add(1),
                ..SOUND
            };
            stops(&rt, alloc, &call, kept)?;
        }
    }
    Ok(())
}

/// No more is taken than the line whose reply failed: the next byte is the first of the line after it.
#[test]
fn takes_no_more(rt: HostRuntime) -> Result<(), Fail> {
    let devices = Devices {
        source_piece: 1,
        sink_fail: 1,
        ..SOUND
    };
    let input = bytes_of(rt.alloc(), SMALLEST)?;
    let ended = run(rt.alloc(), "replay", &input, &devices)?;
    same(&rt, &ended, 1, b"", "the first call of the sink");
    assert!(rt; ended.next == Some(b'c'));
    Ok(())
}
