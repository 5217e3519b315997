//! A disk in memory that crashes at a call and tears what wasn't synced.
ghost use Rattle.std.specs.Prelude.{◌≤◌, length};

use band_store::{BandDisk, BandMemory};
use std::alloc::Global;
use std::test::Fail;

// Whether a write, a sync and a read after a restart succeeded (`+` or `-`), and a digit for each byte then, `*` for 255.
fn story<D: BandDisk>(disk: &mut D, log: &mut [u8; 8])
    requires { 1 ≤ length (D.bytes disk.old) }
{
    if disk.room() < 4 {
        return;
    }
    log[0] = went(disk.write_at(1, &[7, 8, 9]).is_ok());
    log[1] = went(disk.sync().is_ok());
    disk.restart();
    let mut bytes = [0; 6];
    let size = disk.size().min(6) as usize;
    log[2] = went(disk.read_at(0, &mut bytes[..size]).is_ok());
    for i in 0..size.min(5) {
        log[3 + i] = if bytes[i] < 10 { b'0' + bytes[i] } else { b'*' };
    }
}

fn went(ok: bool) -> u8 {
    if ok { b'+' } else { b'-' }
}

// The room, the call at which the disk crashes, how it tears, and the story.
const STORIES: [(u32, u32, u8, &[u8; 8]); 9] = [
    (16, 0, 0, b"+++1789 "),
    (16, 1, 0, b"--+123  "),
    (16, 1, 1, b"--+123  "),
    (16, 2, 0, b"+-+123  "),
    (16, 2, 1, b"+-+1789 "),
    (16, 2, 2, b"+-+1*** "),
    (16, 3, 2, b"+++1789 "),
    (8, 0, 1, b"+-+1789 "),
    (4, 0, 1, b"-++123  "),
];

// The story of a disk with the bytes 1, 2 and 3.
fn story_of(alloc: Global, room: u32, stop: u32, tear: u8) -> Result<[u8; 8], Fail>
    requires { 3 ≤ room }
{
    let mut disk = BandMemory::new(alloc, &[1, 2, 3], room, stop, tear)?;
    let mut log = [b' '; 8];
    story(&mut disk, &mut log);
    Ok(log)
}

#[test]
fn stops_and_tears(rt: HostRuntime) -> Result<(), Fail> {
    for (room, stop, tear, want) in STORIES {
        assert!(rt; 3 <= room);
        assert!(rt; story_of(rt.alloc(), room, stop, tear)? == *want);
    }
    Ok(())
}

// Whether a write and a read succeeded, and another read after a restart.
fn reads<D: BandDisk>(disk: &mut D) -> [bool; 3]
    requires { 1 ≤ length (D.bytes disk.old) }
{
    let mut one = [0];
    if disk.room() < 1 {
        return [false; 3];
    }
    let wrote = disk.write_at(0, &[7]).is_ok();
    let read = disk.size() > 0 && disk.read_at(0, &mut one).is_ok();
    disk.restart();
    [
        wrote,
        read,
        disk.size() > 0 && disk.read_at(0, &mut one).is_ok(),
    ]
}

// The same for a disk with the bytes 1, 2 and 3 that crashes at this call.
fn reads_of(alloc: Global, stop: u32) -> Result<[bool; 3], Fail> {
    let mut disk = BandMemory::new(alloc, &[1, 2, 3], 16, stop, 0)?;
    Ok(reads(&mut disk))
}

#[test]
fn reads_fail_until_a_restart(rt: HostRuntime) -> Result<(), Fail> {
    assert!(rt; reads_of(rt.alloc(), 0)? == [true; 3]);
    assert!(rt; reads_of(rt.alloc(), 1)? == [false, false, true]);
    assert!(rt; reads_of(rt.alloc(), 2)? == [true; 3]);
    Ok(())
}

// How many writes of the piece at byte 0 succeed, each followed by a restart or not, until one fails; at most 99.
fn writes<D: BandDisk>(disk: &mut D, piece: &[u8], restarts: bool) -> u32
    requires { length piece.now ≤ D.space disk.old }
{
    for i in 0..99 {
        if disk.write_at(0, piece).is_err() {
            return i;
        }
        if restarts {
            disk.restart();
        }
    }
    99
}

// How many syncs succeed, until one fails; at most 99.
fn syncs<D: BandDisk>(disk: &mut D) -> u32 {
    for i in 0..99 {
        if disk.sync().is_err() {
            return i;
        }
    }
    99
}

// How many writes succeed, and then how many syncs.
fn fills<D: BandDisk>(disk: &mut D, piece: &[u8], restarts: bool) -> (u32, u32) {
    if piece.len() as u64 > disk.room() {
        return (0, 0);
    }
    (writes(disk, piece, restarts), syncs(disk))
}

// The room, the length of the piece, whether there are restarts, and how many writes and syncs succeed: the log has a quarter of
// the room in entries, and three times the room in bytes.
const FILLS: [(u32, usize, bool, (u32, u32)); 9] = [
    (64, 64, false, (3, 10)),
    (64, 25, false, (7, 2)),
    (64, 24, false, (8, 0)),
    (64, 0, false, (8, 0)),
    (64, 0, true, (8, 0)),
    (67, 67, true, (3, 10)),
    (68, 68, false, (3, 11)),
    (7, 1, false, (0, 1)),
    (3, 0, true, (0, 0)),
];

// The same for an empty disk of this room, with a piece of this length.
fn fills_of(alloc: Global, room: u32, len: usize, restarts: bool) -> Result<(u32, u32), Fail> {
    let mut disk = BandMemory::new(alloc, &[], room, 0, 1)?;
    Ok(fills(&mut disk, &[9; 68][..len.min(68)], restarts))
}

#[test]
fn a_full_log_fails_the_call(rt: HostRuntime) -> Result<(), Fail> {
    for (room, len, restarts, want) in FILLS {
        assert!(rt; fills_of(rt.alloc(), room, len, restarts)? == want);
    }
    Ok(())
}
