//! A store of texts by name.
ghost use Rattle.std.specs.Prelude.{ℕ, ◌≡◌, ◌≢◌, ◌<◌, ◌≤◌, ◌+◌, ◌^◌, ◌++◌, [], ◌∷◌, List, true, Ok, Err, Some, None, length, IfErr, IfOk, OnErr, OnOk, slice_get};
ghost use Rattle.band_disk.specs.outer_ports.Ports.{Rose};
ghost use Rattle.band_disk.specs.Disks.{LeavesOnly, Only, ReadsOnly, with_more};
ghost use Rattle.band_store.specs.Directory.{directory, named, put_name, sizes};
ghost use Rattle.band_store.specs.Format.{Holds, IsDamaged, IsNoStore, Save};
ghost use Rattle.band_store.specs.Store.{IsLoadAnswer, IsOpenAnswer, IsReady, IsRefused, IsSaveAnswer, IsWithOrWithout, checked, closed};

use crate::directory::{Extent, extent_of, put_name};
use crate::faults::{LoadFault, OpenFault, SaveFault};
use crate::format::{LONGEST_TEXT, record_bytes};
use crate::reading::read_directory;
use crate::writing::write_record;
use band_disk::BandDisk;
use lisp_graph::{Name, NoMemory, Text};
use std::alloc::Global;
use std::marker::Model;

/// World texts by name, on a disk that is passed to each call. The store knows the position of each name's last text on
/// the disk, so while it is open nothing else may change that disk.
#[derive(Drop)]
pub struct BandStore {
    alloc: Global,
    opened: bool,
    bands: Vec<(Name, Extent)>,
    gate: u64,
}

impl Model for BandStore {
    ghost use Rattle.std.specs.Prelude.{◌≡◌, ◌<◌, ◌^◌, length, true};
    ghost use Rattle.band_store.specs.Directory.{is_ordered};
    ghost use Rattle.band_store.specs.Store.{Store};

    ghost Value = { Store };

    ghost view = { λ s. record { opened = s.opened; bands = s.bands.items; gate = s.gate } };

    ghost invariant = { λ s. (is_ordered s.bands.items ≡ true) × (length s.bands.items < 2 ^ 32) };
}

impl BandStore {
    /// A store that isn't open. It allocates no memory yet.
    pub fn new(alloc: Global) -> BandStore
        ensures { result ≡ closed }
    {
        BandStore {
            alloc,
            opened: false,
            bands: Vec::new(alloc),
            gate: 0,
        }
    }

    /// Whether the store is open.
    pub fn is_open(&self) -> bool
        ensures { result ≡ self.now.opened }
    {
        self.opened
    }

    /// The number of names.
    pub fn count(&self) -> u32
        ensures { result ≡ length self.now.bands }
    {
        self.bands.len() as u32
    }

    /// The name at this position in the order of names, and the length of its last text in bytes; None from the count on.
    pub fn band(&self, index: u32) -> Option<(Name, u32)>
        ensures { result ≡ slice_get (sizes self.now.bands) index }
    {
        if index >= self.count() {
            return None;
        }
        let band = &self.bands[index as usize];
        Some((band.0.copy(), band.1.size))
    }

    /// Opens the store on a disk that was just made or restarted, and returns how many names it has. It writes nothing. If
    /// it fails, the store is closed.
    pub fn open<D: BandDisk>(&mut self, disk: &mut D) -> Result<u32, OpenFault>
        requires { Only (D.bytes disk.old) (D.images disk.old) }
        ensures opened { IfOk result (λ count. (saves : List Save) × IsReady self.new (D.bytes disk.new) (D.images disk.new) saves × (count ≡ length (directory saves))) }
        ensures failed { OnErr result (self.new ≡ closed) }

        // The bytes determine the result, unless the disk fails or memory runs out.
        ensures ok { IfOk result (λ _. (saves : List Save) → Holds saves (D.bytes disk.old) → IsReady self.new (D.bytes disk.new) (D.images disk.new) saves) }
        ensures value { (saves : List Save) → Holds saves (D.bytes disk.old) → IsOpenAnswer (Ok (length (directory saves))) result }
        ensures refused { IsNoStore (D.bytes disk.old) → IsOpenAnswer (Err OpenFault.NotAStore) result }
        ensures damaged { (at : ℕ) → IsDamaged at (D.bytes disk.old) → IsOpenAnswer (Err (OpenFault.Damaged at)) result }
        ensures err { IfErr result (IsRefused (D.bytes disk.old)) }
        ensures cause { result ≡ Err OpenFault.Disk → Rose (D.faults disk.old) (D.faults disk.new) }
        ensures no_fault { result ≢ Err OpenFault.Disk → D.faults disk.new ≡ D.faults disk.old }
        ensures never_falls { D.faults disk.old ≤ D.faults disk.new }

        // After a crash at any moment the bytes are unchanged, and no write or sync is requested.
        ensures reads { ReadsOnly D.bytes D.space D.images D.clock D.images_since disk.old disk.new }
        ensures changes { D.changes disk.new ≡ D.changes disk.old }
    {
        *self = BandStore::new(self.alloc);
        let mut bands = Vec::new(self.alloc);
        let gate = read_directory(&mut bands, disk)?;
        let Ok(count) = u32::try_from(bands.len()) else {
            return Err(OpenFault::NoMemory);
        };
        self.bands = bands;
        self.gate = gate;
        self.opened = true;
        Ok(count)
    }

    /// The position that the gate after a record of this save would have, or why the record can't be written on a disk with this room.
    fn next_gate(&self, room: u64, name: &[u8], text: &[u8]) -> Result<u64, SaveFault>
        requires in_range { self.now.opened ≡ true → self.now.gate < 2 ^ 63 }
        requires name { length name.now ≤ 16 }
        ensures { result ≡ checked self.now room (record { name = name.now; text = text.now }) }
    {
        if !self.opened {
            return Err(SaveFault::Closed);
        }
        let size = text.len() as u64;
        if size > LONGEST_TEXT {
            return Err(SaveFault::TooLarge { size });
        }
        let end = self.gate + 7 + name.len() as u64 + size;
        if end > room {
            return Err(SaveFault::Full { end });
        }
        Ok(end - 1)
    }

    /// Adds a name whose text will follow the next gate; if the name exists, its extent becomes that text's.
    fn add(&mut self, name: &Name, size: u32) -> Result<(), NoMemory>
        requires { self.old.gate < 2 ^ 63 }
        ensures ok { OnOk result (self.new ≡ record self.old {
          bands = put_name name.now (record { at = self.old.gate + 6 + length name.now; size = size }) self.old.bands;
        }) }
        ensures err { OnErr result (self.new ≡ self.old) }
    {
        if self.bands.len() >= u32::MAX as usize {
            return Err(NoMemory);
        }
        let bytes = name.as_bytes();
        let at = self.gate + 6 + bytes.len() as u64;
        put_name(&mut self.bands, name, Extent { at, size })?;
        Ok(())
    }

    /// Saves a text of at most 1,048,576 bytes under a name, after what the disk contains. Once it returns Ok, the save survives
    /// a crash; if the disk fails, the save may be on the disk or not, and the store is closed. Each other error changes nothing.
    pub fn save<D: BandDisk>(
        &mut self,
        disk: &mut D,
        name: &Name,
        text: &Text,
    ) -> Result<(), SaveFault>
        requires { self.old.opened ≡ true → (saves : List Save) × IsReady self.old (D.bytes disk.old) (D.images disk.old) saves }
        ensures ok { OnOk result ((saves : List Save) → IsReady self.old (D.bytes disk.old) (D.images disk.old) saves →
            IsReady self.new (D.bytes disk.new) (D.images disk.new) (saves ++ record { name = name.now; text = text.now } ∷ [])) }

        // After a crash at any moment the saves are unchanged, with or without this one added.
        ensures any_moment { (saves : List Save) → IsReady self.old (D.bytes disk.old) (D.images disk.old) saves →
            LeavesOnly D.clock D.images_since disk.old disk.new (IsWithOrWithout saves (record { name = name.now; text = text.now })) }

        // When each error occurs, and what it changes.
        ensures value { IsSaveAnswer (checked self.old (D.space disk.old) (record { name = name.now; text = text.now })) result }
        ensures failed { result ≡ Err SaveFault.Disk → self.new ≡ closed }
        ensures unchanged { IfErr result (λ fault. fault ≢ SaveFault.Disk → (self.new ≡ self.old) × (disk.new ≡ disk.old)) }
        ensures cause { result ≡ Err SaveFault.Disk → Rose (D.faults disk.old) (D.faults disk.new) }
        ensures no_fault { result ≢ Err SaveFault.Disk → D.faults disk.new ≡ D.faults disk.old }
        ensures never_falls { D.faults disk.old ≤ D.faults disk.new }
        ensures space { D.space disk.new ≡ D.space disk.old }

        // It requests four writes and syncs, and at most four if it fails.
        ensures changes { OnOk result (D.changes disk.new ≡ with_more 4 (D.changes disk.old)) }
        ensures at_most { D.changes disk.new ≤ D.changes disk.old + 4 }
    {
        let (bytes, text) = (name.as_bytes(), text.as_slice());
        let gate = self.next_gate(disk.room(), bytes, text)?;
        let record = record_bytes(self.alloc, bytes, text)?;
        self.add(name, text.len() as u32)?;
        match write_record(disk, self.gate, &record) {
            Ok(()) => {
                self.gate = gate;
                Ok(())
            }
            Err(_) => {
                *self = BandStore::new(self.alloc);
                Err(SaveFault::Disk)
            }
        }
    }

    /// The text last saved under a name. It writes nothing. If the disk fails, the store is closed.
    pub fn load<D: BandDisk>(&mut self, disk: &mut D, name: &Name) -> Result<Text, LoadFault>
        requires { self.old.opened ≡ true → (saves : List Save) × IsReady self.old (D.bytes disk.old) (D.images disk.old) saves }
        ensures text { IfOk result (λ text. (saves : List Save) → IsReady self.old (D.bytes disk.old) (D.images disk.old) saves → named name.now (directory saves) ≡ Some text) }
        ensures none { result ≡ Err LoadFault.NoBand → (saves : List Save) → IsReady self.old (D.bytes disk.old) (D.images disk.old) saves → named name.now (directory saves) ≡ None }
        ensures value { IsLoadAnswer self.old result }
        ensures failed { result ≡ Err LoadFault.Disk → self.new ≡ closed }
        ensures unchanged { result ≢ Err LoadFault.Disk → self.new ≡ self.old }
        ensures cause { result ≡ Err LoadFault.Disk → Rose (D.faults disk.old) (D.faults disk.new) }
        ensures no_fault { result ≢ Err LoadFault.Disk → D.faults disk.new ≡ D.faults disk.old }
        ensures never_falls { D.faults disk.old ≤ D.faults disk.new }

        // After a crash at any moment the bytes are unchanged, and no write or sync is requested.
        ensures reads { ReadsOnly D.bytes D.space D.images D.clock D.images_since disk.old disk.new }
        ensures changes { D.changes disk.new ≡ D.changes disk.old }
    {
        if !self.opened {
            return Err(LoadFault::Closed);
        }
        let Some(extent) = extent_of(&self.bands, name.as_bytes()) else {
            return Err(LoadFault::NoBand);
        };
        let mut bytes = vec![in self.alloc; 0; extent.size as usize]?;
        match disk.read_at(extent.at, &mut bytes) {
            Ok(()) => Ok(Text::from_slice(self.alloc, &bytes)?),
            Err(_) => {
                *self = BandStore::new(self.alloc);
                Err(LoadFault::Disk)
            }
        }
    }
}
