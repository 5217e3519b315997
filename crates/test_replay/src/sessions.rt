//! Whole inputs, in pieces of each size.
use super::cases::{LONG, SESSIONS};
use super::run::{Devices, SOUND, long_text, replay};
use std::alloc::Global;
use std::process::Abort;
use std::test::Fail;

/// Runs an input from a source and into a sink that take pieces of 1, 7 and 100,000 bytes.
fn in_pieces(rt: &impl Abort, alloc: Global, input: &str, want: &str) -> Result<(), Fail> {
    for piece in [1, 7, 100_000] {
        let devices = Devices {
            source_piece: piece,
            sink_piece: piece,
            ..SOUND
        };
        replay(rt, alloc, input, &devices, want)?;
    }
    Ok(())
}

#[test]
fn inputs(rt: HostRuntime) -> Result<(), Fail> {
    for case in SESSIONS.lines() {
        let (input, want) = case.split_once(" = ").ok_or("no outcome")?;
        in_pieces(&rt, rt.alloc(), input, want)?;
    }
    Ok(())
}

#[test]
fn long_lines(rt: HostRuntime) -> Result<(), Fail> {
    for (head, word, count, end, want) in LONG {
        let input = long_text(rt.alloc(), head, word, count, end)?;
        in_pieces(&rt, rt.alloc(), &input, want)?;
    }
    Ok(())
}
