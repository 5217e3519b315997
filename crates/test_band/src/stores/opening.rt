//! What a store opens and refuses.
ghost use Rattle.std.specs.Prelude.{◌≡◌, List, true};
ghost use Rattle.band_store.specs.Format.{Save};
ghost use Rattle.band_store.specs.Store.{IsReady};

use super::plain::{Piece, last, names, read};
use super::{disk, load, open};
use band_store::{BandDisk, BandStore, OpenFault};
use lisp_graph::Name;
use std::alloc::Global;
use std::process::Abort;
use std::test::Fail;

// The result of opening a disk.
fn opened<D: BandDisk>(alloc: Global, disk: &mut D) -> Result<u32, OpenFault> {
    open(&mut BandStore::new(alloc), disk)
}

// Whether opening a disk with these bytes has this result.
fn opens_as(alloc: Global, bytes: &[u8], want: Result<u32, OpenFault>) -> Result<bool, Fail> {
    let mut disk = disk(alloc, bytes, 64, 0, 0)?;
    Ok(opened(alloc, &mut disk) == want)
}

// The bytes of a disk, and the result of opening it.
const OPENINGS: [(&[u8], Result<u32, OpenFault>); 17] = [
    (b"", Err(OpenFault::NotAStore)),
    (b"LISPBND1", Err(OpenFault::NotAStore)),
    (b"LISPBND2\0", Err(OpenFault::NotAStore)),
    (b"lISPBND1\0", Err(OpenFault::NotAStore)),
    (b"LISPBND1\0", Ok(0)),
    (b"LISPBND1\xff", Ok(0)),
    (b"LISPBND1\x02\x01a\0\0\0\0\0", Ok(0)),
    (b"LISPBND1\x01", Err(OpenFault::Damaged { at: 8 })),
    // names with a bad byte, of no byte, of 16 and of 17
    (
        b"LISPBND1\x01\x02aB\0\0\0\0\0",
        Err(OpenFault::Damaged { at: 8 }),
    ),
    (
        b"LISPBND1\x01\x02-a\0\0\0\0\0",
        Err(OpenFault::Damaged { at: 8 }),
    ),
    (
        b"LISPBND1\x01\0\0\0\0\0\0\0",
        Err(OpenFault::Damaged { at: 8 }),
    ),
    (b"LISPBND1\x01\x10abcdefghijkl-789\0\0\0\0\0", Ok(1)),
    (
        b"LISPBND1\x01\x11abcdefghijkl-7890\0\0\0\0\0",
        Err(OpenFault::Damaged { at: 8 }),
    ),
    // two records, and damage after one
    (b"LISPBND1\x01\x01a\0\0\0\x01x\x01\x02b2\0\0\0\0\xff", Ok(2)),
    (b"LISPBND1\x01\x01a\0\0\0\x01x\x01\x01a\0\0\0\0\0", Ok(1)),
    (
        b"LISPBND1\x01\x01a\0\0\0\x01x\x01\x01a\0\0\0\0",
        Err(OpenFault::Damaged { at: 16 }),
    ),
    (
        b"LISPBND1\x01\x01a\0\0\0\x01x\x01\x01A\0\0\0\0\0",
        Err(OpenFault::Damaged { at: 16 }),
    ),
];

#[test]
fn opens_and_refuses(rt: HostRuntime) -> Result<(), Fail> {
    for (bytes, want) in OPENINGS {
        assert!(rt; opens_as(rt.alloc(), bytes, want)?);
    }
    Ok(())
}

const WHOLE: &[u8; 19] = b"LISPBND1\x01\x01a\0\0\0\x03xyz\0";

// The result of opening a disk that has the first bytes of one with one record.
fn answer_to_front(len: usize) -> Result<u32, OpenFault> {
    match len {
        0..=8 => Err(OpenFault::NotAStore),
        9..=18 => Err(OpenFault::Damaged { at: 8 }),
        _ => Ok(1),
    }
}

#[test]
fn refuses_a_record_that_is_cut(rt: HostRuntime) -> Result<(), Fail> {
    for len in 0..=WHOLE.len() {
        assert!(rt; opens_as(rt.alloc(), &WHOLE[..len], answer_to_front(len))?);
    }
    Ok(())
}

// Compares the names and the texts of an open store with those of the plain reading.
fn agrees_on_bands<D: BandDisk>(
    rt: &impl Abort,
    store: &mut BandStore,
    disk: &mut D,
    bytes: &[u8],
    pieces: &[Piece],
) -> Result<(), Fail>
    requires { store.old.opened ≡ true → (saves : List Save) × IsReady store.old (D.bytes disk.old) (D.images disk.old) saves }
{
    let mut before: Option<Name> = None;
    for i in 0..store.count() {
        let Some((name, size)) = store.band(i) else {
            return Err(Fail::from("no band"));
        };
        let text = load(store, disk, &name)?;
        assert!(rt; text.len() == u64::from(size));
        assert!(rt; Some(text.as_slice()) == last(bytes, pieces, name.as_bytes()));
        if let Some(less) = &before {
            assert!(rt; less.as_bytes() < name.as_bytes());
        }
        before = Some(name);
    }
    assert!(rt; store.band(store.count()).is_none());
    Ok(())
}

// Opens a disk that has these bytes, and compares the answer and the bands with those of the plain reading.
fn agrees<D: BandDisk>(
    rt: &impl Abort,
    alloc: Global,
    disk: &mut D,
    bytes: &[u8],
) -> Result<(), Fail> {
    let mut pieces = Vec::new(alloc);
    let refused = read(bytes, &mut pieces)?;
    let mut store = BandStore::new(alloc);
    let answer = open(&mut store, disk);
    match refused {
        Some(fault) => assert!(rt; answer == Err(fault) && !store.is_open()),
        None => {
            assert!(rt; answer == Ok(names(bytes, &pieces)));
            agrees_on_bands(rt, &mut store, disk, bytes, &pieces)?;
        }
    }
    Ok(())
}

// The same for a disk in memory.
fn agrees_in_memory(rt: &impl Abort, alloc: Global, bytes: &[u8]) -> Result<(), Fail> {
    let mut disk = disk(alloc, bytes, 64, 0, 0)?;
    agrees(rt, alloc, &mut disk, bytes)
}

#[test]
fn reads_each_changed_byte(rt: HostRuntime) -> Result<(), Fail> {
    let mut bytes = *b"LISPBND1\x01\x02bc\0\0\0\x02hi\x01\x01a\0\0\0\x01x\x01\x02bc\0\0\0\0\0\x07";
    for i in 0..bytes.len() {
        let was = bytes[i];
        for value in [0, 1, 255] {
            bytes[i] = value;
            agrees_in_memory(&rt, rt.alloc(), &bytes)?;
        }
        bytes[i] = was;
    }
    Ok(())
}
