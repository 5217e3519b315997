//! What a store saves and loads, and what it has after a crash.
ghost use Rattle.std.specs.Prelude.{◌≡◌, List, true};
ghost use Rattle.band_store.specs.Format.{Save};
ghost use Rattle.band_store.specs.Store.{IsReady};

use super::{disk, load, name, open, save};
use band_store::{BandDisk, BandStore, LoadFault, SaveFault};
use lisp_graph::{Name, Text};
use std::alloc::Global;
use std::process::Abort;
use std::test::Fail;

const EMPTY: &[u8; 9] = b"LISPBND1\0";

// The names and the texts that an open store has, as `a=one b=two `.
fn told<D: BandDisk>(alloc: Global, store: &mut BandStore, disk: &mut D) -> Result<Vec<u8>, Fail>
    requires { store.old.opened ≡ true → (saves : List Save) × IsReady store.old (D.bytes disk.old) (D.images disk.old) saves }
    ensures { store.new.opened ≡ true → (saves : List Save) × IsReady store.new (D.bytes disk.new) (D.images disk.new) saves }
{
    let mut all = Vec::new(alloc);
    for i in 0..store.count() {
        if let Some((name, _)) = store.band(i) {
            let text = load(store, disk, &name)?;
            all.extend_from_slice(name.as_bytes())?;
            all.push(b'=')?;
            all.extend_from_slice(text.as_slice())?;
            all.push(b' ')?;
        }
    }
    Ok(all)
}

// Saves a text under a name.
fn save_text<D: BandDisk>(
    alloc: Global,
    store: &mut BandStore,
    disk: &mut D,
    bytes: &[u8],
    text: &[u8],
) -> Result<Result<(), SaveFault>, Fail>
    requires { store.old.opened ≡ true → (saves : List Save) × IsReady store.old (D.bytes disk.old) (D.images disk.old) saves }
    ensures { store.new.opened ≡ true → (saves : List Save) × IsReady store.new (D.bytes disk.new) (D.images disk.new) saves }
{
    let name = name(bytes)?;
    let text = Text::from_slice(alloc, text)?;
    Ok(save(store, disk, &name, &text))
}

// Why no text is loaded under the name `a`, if none is.
fn refusal<D: BandDisk>(store: &mut BandStore, disk: &mut D) -> Result<Option<LoadFault>, Fail>
    requires { store.old.opened ≡ true → (saves : List Save) × IsReady store.old (D.bytes disk.old) (D.images disk.old) saves }
    ensures { store.new.opened ≡ true → (saves : List Save) × IsReady store.new (D.bytes disk.new) (D.images disk.new) saves }
{
    let name = name(b"a")?;
    match load(store, disk, &name) {
        Ok(_) => Ok(None),
        Err(fault) => Ok(Some(fault)),
    }
}

// Calls a store before it is opened, and while it is empty.
fn asks_in_vain<D: BandDisk>(
    rt: &impl Abort,
    alloc: Global,
    store: &mut BandStore,
    disk: &mut D,
) -> Result<(), Fail>
    requires { store.old.opened ≡ true → (saves : List Save) × IsReady store.old (D.bytes disk.old) (D.images disk.old) saves }
    ensures { store.new.opened ≡ true → (saves : List Save) × IsReady store.new (D.bytes disk.new) (D.images disk.new) saves }
{
    let closed = save_text(alloc, store, disk, b"a", b"one")?;
    assert!(rt; closed == Err(SaveFault::Closed));
    assert!(rt; refusal(store, disk)? == Some(LoadFault::Closed));
    assert!(rt; open(store, disk) == Ok(0));
    assert!(rt; refusal(store, disk)? == Some(LoadFault::NoBand));
    Ok(())
}

// Saves under two names, and under one of them again.
fn save_three<D: BandDisk>(
    rt: &impl Abort,
    alloc: Global,
    store: &mut BandStore,
    disk: &mut D,
) -> Result<(), Fail>
    requires { store.old.opened ≡ true → (saves : List Save) × IsReady store.old (D.bytes disk.old) (D.images disk.old) saves }
    ensures { store.new.opened ≡ true → (saves : List Save) × IsReady store.new (D.bytes disk.new) (D.images disk.new) saves }
{
    assert!(rt; save_text(alloc, store, disk, b"b2", b"two")?.is_ok());
    assert!(rt; save_text(alloc, store, disk, b"a", b"one")?.is_ok());
    assert!(rt; save_text(alloc, store, disk, b"b2", b"other")?.is_ok());
    Ok(())
}

const TOLD: &[u8] = b"a=one b2=other ";

fn story<D: BandDisk>(rt: &impl Abort, alloc: Global, disk: &mut D) -> Result<(), Fail> {
    let mut store = BandStore::new(alloc);
    asks_in_vain(rt, alloc, &mut store, disk)?;
    save_three(rt, alloc, &mut store, disk)?;
    assert!(rt; told(alloc, &mut store, disk)?.as_slice() == TOLD);
    assert!(rt; open(&mut store, disk) == Ok(2));
    assert!(rt; told(alloc, &mut store, disk)?.as_slice() == TOLD);
    Ok(())
}

#[test]
fn saves_lists_and_loads(rt: HostRuntime) -> Result<(), Fail> {
    let mut disk = disk(rt.alloc(), EMPTY, 256, 0, 0)?;
    story(&rt, rt.alloc(), &mut disk)
}

// A save on an empty disk, and then the first bytes of the disk.
fn saved<D: BandDisk>(
    alloc: Global,
    disk: &mut D,
    text: &Text,
    front: &mut [u8; 20],
) -> Result<Result<(), SaveFault>, Fail> {
    let a = name(b"a")?;
    let mut store = BandStore::new(alloc);
    if open(&mut store, disk) != Ok(0) {
        return Err(Fail::from("not empty"));
    }
    let answer = save(&mut store, disk, &a, text);
    if !store.is_open() {
        return Err(Fail::from("closed"));
    }
    let size = disk.size().min(20) as usize;
    disk.read_at(0, &mut front[..size]).ok().ok_or("no read")?;
    Ok(answer)
}

#[test]
fn writes_a_record_between_gates(rt: HostRuntime) -> Result<(), Fail> {
    let text = Text::from_slice(rt.alloc(), b"hi\n")?;
    let mut front = [255; 20];
    let mut disk = disk(rt.alloc(), EMPTY, 64, 0, 0)?;
    assert!(rt; saved(rt.alloc(), &mut disk, &text, &mut front)? == Ok(()));
    assert!(rt; front.as_slice() == b"LISPBND1\x01\x01a\0\0\0\x03hi\n\0\xff".as_slice());
    Ok(())
}

// How many bytes a text has, the room of the disk, and the result: a text has at most 1,048,576 bytes, and a disk is full from the
// byte on that it has no room for.
const BOUNDS: [(usize, u32, Result<(), SaveFault>); 6] = [
    (75, 90, Err(SaveFault::Full { end: 91 })),
    (75, 91, Ok(())),
    (1_048_577, 91, Err(SaveFault::TooLarge { size: 1_048_577 })),
    (1_048_576, 91, Err(SaveFault::Full { end: 1_048_592 })),
    (
        1_048_576,
        1_048_591,
        Err(SaveFault::Full { end: 1_048_592 }),
    ),
    (1_048_576, 1_048_592, Ok(())),
];

// The result of a save of this many bytes on an empty disk of this room.
fn saved_in_room(alloc: Global, len: usize, room: u32) -> Result<Result<(), SaveFault>, Fail> {
    let text = Text::from_slice(alloc, &vec![in alloc; b'x'; len]?)?;
    let mut disk = disk(alloc, EMPTY, room, 0, 0)?;
    saved(alloc, &mut disk, &text, &mut [0; 20])
}

#[test]
fn knows_its_bounds(rt: HostRuntime) -> Result<(), Fail> {
    for (len, room, want) in BOUNDS {
        assert!(rt; saved_in_room(rt.alloc(), len, room)? == want);
    }
    Ok(())
}

// Saves a text again and again, until a save fails, and returns how many were acknowledged.
fn saves<D: BandDisk>(
    store: &mut BandStore,
    disk: &mut D,
    name: &Name,
    text: &Text,
    most: u32,
) -> u32
    requires { store.old.opened ≡ true → (saves : List Save) × IsReady store.old (D.bytes disk.old) (D.images disk.old) saves }
    ensures { store.new.opened ≡ true → (saves : List Save) × IsReady store.new (D.bytes disk.new) (D.images disk.new) saves }
{
    for i in 0..most {
        if save(store, disk, name, text).is_err() {
            return i;
        }
    }
    most
}

// The length of the text that is loaded under this name; 0 if none is.
fn found<D: BandDisk>(store: &mut BandStore, disk: &mut D, name: &Name) -> u64
    requires { store.old.opened ≡ true → (saves : List Save) × IsReady store.old (D.bytes disk.old) (D.images disk.old) saves }
    ensures { store.new.opened ≡ true → (saves : List Save) × IsReady store.new (D.bytes disk.new) (D.images disk.new) saves }
{
    match load(store, disk, name) {
        Ok(text) => text.len(),
        Err(_) => 0,
    }
}

// Saves a text under the name `a`, and returns how many saves were acknowledged.
fn acknowledged<D: BandDisk>(
    alloc: Global,
    store: &mut BandStore,
    disk: &mut D,
    text: &[u8],
) -> Result<u32, Fail>
    requires { store.old.opened ≡ true → (saves : List Save) × IsReady store.old (D.bytes disk.old) (D.images disk.old) saves }
    ensures { store.new.opened ≡ true → (saves : List Save) × IsReady store.new (D.bytes disk.new) (D.images disk.new) saves }
{
    Ok(u32::from(save_text(alloc, store, disk, b"a", text)?.is_ok()))
}

// Opens the disk, and returns the length of the text that is found under the name `a`.
fn left<D: BandDisk>(store: &mut BandStore, disk: &mut D) -> Result<u64, Fail>
    ensures { store.new.opened ≡ true → (saves : List Save) × IsReady store.new (D.bytes disk.new) (D.images disk.new) saves }
{
    let names = open(store, disk)?;
    let a = name(b"a")?;
    let size = found(store, disk, &a);
    if names != u32::from(size != 0) {
        return Err(Fail::from("a count of other names"));
    }
    Ok(size)
}

// Saves two texts of one name, 1 and 2 bytes long, opens the disk again, and returns how many saves were acknowledged and how long
// the text is that was found. A third save succeeds then.
fn stopped<D: BandDisk>(alloc: Global, disk: &mut D) -> Result<(u32, u64), Fail> {
    let mut store = BandStore::new(alloc);
    open(&mut store, disk)?;
    let first = acknowledged(alloc, &mut store, disk, b"1")?;
    let second = acknowledged(alloc, &mut store, disk, b"22")?;
    let size = left(&mut store, disk)?;
    save_text(alloc, &mut store, disk, b"a", b"333")??;
    if left(&mut store, disk)? != 3 {
        return Err(Fail::from("no third save"));
    }
    Ok((first.saturating_add(second), size))
}

// The same for a disk in memory.
fn stopped_in_memory(alloc: Global, stop: u32, tear: u8) -> Result<(u32, u64), Fail> {
    let mut disk = disk(alloc, EMPTY, 128, stop, tear)?;
    stopped(alloc, &mut disk)
}

// What has to be found: the acknowledged saves, and the current one if its gate was opened, and kept though it wasn't synced.
fn saves_left(stop: u32, tear: u8) -> (u32, u64) {
    let acknowledged: u32 = if stop <= 4 { 0 } else { 1 };
    let kept = u64::from(tear == 1 && (stop == 4 || stop == 8));
    (acknowledged, u64::from(acknowledged) + kept)
}

#[test]
fn loses_no_acknowledged_save(rt: HostRuntime) -> Result<(), Fail> {
    for tear in [0, 1, 2] {
        assert!(rt; stopped_in_memory(rt.alloc(), 0, tear)? == (2, 2));
        for stop in 1..=8 {
            assert!(rt; stopped_in_memory(rt.alloc(), stop, tear)? == saves_left(stop, tear));
        }
    }
    Ok(())
}

// A log of 32 entries has room for five saves, of six entries each.
fn fills<D: BandDisk>(rt: &impl Abort, alloc: Global, disk: &mut D) -> Result<(), Fail> {
    let a = name(b"a")?;
    let text = Text::from_slice(alloc, b"x")?;
    let mut store = BandStore::new(alloc);
    assert!(rt; open(&mut store, disk) == Ok(0));
    assert!(rt; saves(&mut store, disk, &a, &text, 9) == 5);
    assert!(rt; save(&mut store, disk, &a, &text) == Err(SaveFault::Closed));
    assert!(rt; open(&mut store, disk) == Ok(1));
    Ok(())
}

#[test]
fn a_full_log_is_a_fault(rt: HostRuntime) -> Result<(), Fail> {
    let mut disk = disk(rt.alloc(), EMPTY, 128, 0, 0)?;
    fills(&rt, rt.alloc(), &mut disk)
}
