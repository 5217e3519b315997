//! One function for each command.
ghost use Rattle.std.specs.Prelude.{◌≡◌, ◌≤◌, ◌++◌, ℕ, List, false, IfOk, OnErr, OnOk};
ghost use Rattle.band_store.specs.Directory.{directory, listing, sizes};
ghost use Rattle.band_store.specs.Format.{Save};
ghost use Rattle.band_store.specs.Store.{IsOpenOn};
ghost use Rattle.band_run.specs.declared.reading.command.BandCommand.TheVariants as C;
ghost use Rattle.band_run.specs.Replies.{band_line, is_fault, list_text};
ghost use Rattle.band_run.specs.Openings.{Finds};
ghost use Rattle.band_run.specs.Steps.{Asks, Did, IsUsable, Tells};

use crate::reading::BandCommand;
use crate::reply::Reply;
use band_store::{
    BandDisk, BandStore, LoadFault, OpenFault, SaveFault, directories_have_last_texts,
};
use lisp_graph::{Name, NoMemory, Text};
use std::alloc::Global;
use world_text::push_number;

/// Restarts the disk, and opens the store on it.
fn open<D: BandDisk>(store: &mut BandStore, disk: &mut D) -> Result<Reply, NoMemory>
    ensures did { Did D.bytes D.space D.images D.clock D.images_since C.Open store.old store.new disk.old disk.new result }
    ensures finds { IfOk result (Finds C.Open store.old.opened store.new.opened) }
    ensures sound { OnOk result (IsUsable store.new (D.bytes disk.new) (D.images disk.new)) }
    ensures accounted { IfOk result (λ reply. Tells reply (D.faults disk.old) (D.faults disk.new)) }
    ensures no_fault { OnErr result (D.faults disk.new ≡ D.faults disk.old) }
    ensures changes { IfOk result (λ reply. Asks reply (D.changes disk.old) (D.changes disk.new)) }
    ensures unchanged { OnErr result (D.changes disk.new ≡ D.changes disk.old) }
    ensures never_falls { D.faults disk.old ≤ D.faults disk.new }
{
    disk.restart();
    match store.open(disk) {
        Ok(count) => Ok(Reply::Opened { count }),
        Err(OpenFault::NotAStore) => Ok(Reply::NotAStore),
        Err(OpenFault::Damaged { at }) => Ok(Reply::Damaged { at }),
        Err(OpenFault::Disk) => Ok(Reply::Fault),
        Err(OpenFault::NoMemory) => Err(NoMemory),
    }
}

/// Saves a text under a name.
fn save<D: BandDisk>(
    store: &mut BandStore,
    disk: &mut D,
    name: &Name,
    text: &Text,
) -> Result<Reply, NoMemory>
    requires { IsUsable store.old (D.bytes disk.old) (D.images disk.old) }
    ensures did { Did D.bytes D.space D.images D.clock D.images_since (C.Save name.now text.now) store.old store.new disk.old disk.new result }
    ensures finds { IfOk result (Finds (C.Save name.now text.now) store.old.opened store.new.opened) }
    ensures sound { OnOk result (IsUsable store.new (D.bytes disk.new) (D.images disk.new)) }
    ensures accounted { IfOk result (λ reply. Tells reply (D.faults disk.old) (D.faults disk.new)) }
    ensures no_fault { OnErr result (D.faults disk.new ≡ D.faults disk.old) }
    ensures changes { IfOk result (λ reply. Asks reply (D.changes disk.old) (D.changes disk.new)) }
    ensures unchanged { OnErr result (D.changes disk.new ≡ D.changes disk.old) }
    ensures never_falls { D.faults disk.old ≤ D.faults disk.new }
{
    match store.save(disk, name, text) {
        Ok(()) => Ok(Reply::Saved { name: name.copy() }),
        Err(SaveFault::Closed) => Ok(Reply::Closed),
        Err(SaveFault::TooLarge { size }) => Ok(Reply::TooLarge { size }),
        Err(SaveFault::Full { end }) => Ok(Reply::Full { end }),
        Err(SaveFault::Disk) => Ok(Reply::Fault),
        Err(SaveFault::NoMemory) => Err(NoMemory),
    }
}

/// Loads the text last saved under a name.
fn load<D: BandDisk>(store: &mut BandStore, disk: &mut D, name: &Name) -> Result<Reply, NoMemory>
    requires { IsUsable store.old (D.bytes disk.old) (D.images disk.old) }
    ensures did { Did D.bytes D.space D.images D.clock D.images_since (C.Load name.now) store.old store.new disk.old disk.new result }
    ensures finds { IfOk result (Finds (C.Load name.now) store.old.opened store.new.opened) }
    ensures sound { OnOk result (IsUsable store.new (D.bytes disk.new) (D.images disk.new)) }
    ensures accounted { IfOk result (λ reply. Tells reply (D.faults disk.old) (D.faults disk.new)) }
    ensures no_fault { OnErr result (D.faults disk.new ≡ D.faults disk.old) }
    ensures changes { IfOk result (λ reply. Asks reply (D.changes disk.old) (D.changes disk.new)) }
    ensures unchanged { OnErr result (D.changes disk.new ≡ D.changes disk.old) }
    ensures never_falls { D.faults disk.old ≤ D.faults disk.new }
{
    match store.load(disk, name) {
        Ok(text) => Ok(Reply::Loaded { text }),
        Err(LoadFault::Closed) => Ok(Reply::Closed),
        Err(LoadFault::NoBand) => Ok(Reply::NoBand { name: name.copy() }),
        Err(LoadFault::Disk) => Ok(Reply::Fault),
        Err(LoadFault::NoMemory) => Err(NoMemory),
    }
}

/// Appends the line of a name, with the length of its text in bytes.
#[tactic(auto, using(std::proofs::Common::append_assoc))]
fn push_band(lines: &mut Text, name: &Name, size: u32) -> Result<(), NoMemory>
    ensures { OnOk result (lines.new ≡ lines.old ++ band_line (name.now, size)) }
{
    lines.push_all(b"band ")?;
    lines.push_all(name.as_bytes())?;
    lines.push_all(b" ")?;
    push_number(lines, u64::from(size))?;
    lines.push_all(b"\n")
}

/// The lines of all names.
fn lines_of(alloc: Global, store: &BandStore) -> Result<Text, NoMemory>
    ensures { IfOk result (λ lines. lines ≡ list_text (sizes store.now.bands)) }
{
    let mut lines = Text::new(alloc);
    for index in 0..store.count() {
        if let Some((name, size)) = store.band(index) {
            push_band(&mut lines, &name, size)?;
        }
    }
    Ok(lines)
}

/// Lists the names.
fn list(alloc: Global, store: &BandStore) -> Result<Reply, NoMemory>
    ensures refused { IfOk result (λ reply. store.now.opened ≡ false → reply ≡ Reply.Closed) }
    ensures no_fault { IfOk result (λ reply. is_fault reply ≡ false) }
    ensures finds { IfOk result (Finds C.List store.now.opened store.now.opened) }
    ensures listed { IfOk result (λ reply. (bytes : List ℕ) (saves : List Save) → IsOpenOn store.now bytes saves → reply ≡ Reply.Listed (list_text (listing (directory saves)))) }
{
    // An open store's names are those of the directory.
    directories_have_last_texts();
    if !store.is_open() {
        return Ok(Reply::Closed);
    }
    let lines = lines_of(alloc, store)?;
    Ok(Reply::Listed { lines })
}

/// Runs a command, and returns its reply.
pub fn answer<D: BandDisk>(
    alloc: Global,
    store: &mut BandStore,
    disk: &mut D,
    command: &BandCommand,
) -> Result<Reply, NoMemory>
    requires { IsUsable store.old (D.bytes disk.old) (D.images disk.old) }
    ensures did { Did D.bytes D.space D.images D.clock D.images_since command.now store.old store.new disk.old disk.new result }
    ensures finds { IfOk result (Finds command.now store.old.opened store.new.opened) }
    ensures sound { OnOk result (IsUsable store.new (D.bytes disk.new) (D.images disk.new)) }
    ensures accounted { IfOk result (λ reply. Tells reply (D.faults disk.old) (D.faults disk.new)) }
    ensures no_fault { OnErr result (D.faults disk.new ≡ D.faults disk.old) }
    ensures changes { IfOk result (λ reply. Asks reply (D.changes disk.old) (D.changes disk.new)) }
    ensures unchanged { OnErr result (D.changes disk.new ≡ D.changes disk.old) }
    ensures never_falls { D.faults disk.old ≤ D.faults disk.new }
{
    match command {
        BandCommand::Open => open(store, disk),
        BandCommand::Save { name, text } => save(store, disk, name, text),
        BandCommand::Load { name } => load(store, disk, name),
        BandCommand::List => list(alloc, store),
    }
}
