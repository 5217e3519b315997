//! Stores on disks in memory.
ghost use Rattle.std.specs.Prelude.{◌≡◌, ◌<◌, List, true};
ghost use Rattle.band_store.specs.Format.{Save};
ghost use Rattle.band_store.specs.Store.{IsReady};

use band_store::{BandDisk, BandMemory, BandStore, LoadFault, OpenFault, SaveFault};
use lisp_graph::{Name, Text};
use std::alloc::Global;
use std::test::Fail;

mod opening;
mod plain;
mod saving;

// Restarts the disk and opens the store.
fn open<D: BandDisk>(store: &mut BandStore, disk: &mut D) -> Result<u32, OpenFault>
    ensures { store.new.opened ≡ true → (saves : List Save) × IsReady store.new (D.bytes disk.new) (D.images disk.new) saves }
{
    disk.restart();
    store.open(disk)
}

fn save<D: BandDisk>(
    store: &mut BandStore,
    disk: &mut D,
    name: &Name,
    text: &Text,
) -> Result<(), SaveFault>
    requires { store.old.opened ≡ true → (saves : List Save) × IsReady store.old (D.bytes disk.old) (D.images disk.old) saves }
    ensures { store.new.opened ≡ true → (saves : List Save) × IsReady store.new (D.bytes disk.new) (D.images disk.new) saves }
{
    store.save(disk, name, text)
}

fn load<D: BandDisk>(store: &mut BandStore, disk: &mut D, name: &Name) -> Result<Text, LoadFault>
    requires { store.old.opened ≡ true → (saves : List Save) × IsReady store.old (D.bytes disk.old) (D.images disk.old) saves }
    ensures { store.new.opened ≡ true → (saves : List Save) × IsReady store.new (D.bytes disk.new) (D.images disk.new) saves }
{
    store.load(disk, name)
}

fn name(bytes: &[u8]) -> Result<Name, Fail> {
    match Name::read(bytes) {
        Some(name) => Ok(name),
        None => Err(Fail::from("no name")),
    }
}

// A disk of this room with these bytes.
fn disk(alloc: Global, bytes: &[u8], room: u32, stop: u32, tear: u8) -> Result<BandMemory, Fail> {
    if bytes.len() > room as usize {
        return Err(Fail::from("no room"));
    }
    Ok(BandMemory::new(alloc, bytes, room, stop, tear)?)
}
