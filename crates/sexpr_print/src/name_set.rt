//! Names of objects, each at most once, in the order in which they were added.
ghost use Rattle.std.specs.Prelude.{◌≡◌};

use lisp_graph::{NoMemory, Sequence};
use std::alloc::Global;
use std::marker::Model;

/// Names of some objects of a world with fewer than 2^32 objects. An object is looked up by its name in constant time.
#[derive(Drop)]
pub struct NameSet {
    names: Sequence<u32>,
    /// For each object whether its name was added.
    added: Sequence<bool>,
}

impl Model for NameSet {
    ghost use Rattle.std.specs.Prelude.{length};
    ghost use Rattle.sexpr_print.specs.NameSets.{AreAdded, Names, names_of};

    ghost Value = { Names };

    ghost view = { λ s. names_of (length s.added) s.names };

    ghost invariant = { λ s. AreAdded s.names s.added };
}

impl NameSet {
    ghost use Rattle.std.specs.Prelude.{◌≡◌, ◌<◌, ◌≤◌, ◌^◌, ◌++◌, [], ◌∷◌, length, false, slice_get, IfOk, IfSome, IfNone, OnOk};
    ghost use Rattle.std.specs.List.{All};
    ghost use Rattle.sexpr_print.specs.Places.{is_among};

    /// No names, of a world with this many objects. It fails if memory runs out, and for 2^32 objects or more.
    pub fn new(alloc: Global, objects: usize) -> Result<NameSet, NoMemory>
        ensures empty { IfOk result (λ set. set.names ≡ []) }
        ensures size { IfOk result (λ set. set.objects ≡ objects) }
        ensures at_most { IfOk result (λ _. objects < 2 ^ 32) }
    {
        if objects > u32::MAX as usize {
            return Err(NoMemory);
        }
        let mut added = Sequence::new(alloc);
        added.pad(objects, false)?;
        Ok(NameSet {
            names: Sequence::new(alloc),
            added,
        })
    }

    /// Whether a name was added.
    pub fn contains(&self, name: u64) -> bool
        requires { name < self.now.objects }
        ensures { result ≡ is_among self.now.names name }
    {
        self.added.as_slice()[name as usize]
    }

    /// The name that was added at this place, or None from the number of names on.
    pub fn name(&self, place: usize) -> Option<u64>
        ensures value { result ≡ slice_get self.now.names place }
        ensures none { IfNone result (length self.now.names ≤ place) }
        ensures in_range { IfSome result (λ _. place < length self.now.names) }
        ensures room { length self.now.names ≤ self.now.objects }
        ensures at_most { self.now.objects < 2 ^ 32 }
        ensures refers { All (λ name. name < self.now.objects) self.now.names }
    {
        let names = self.names.as_slice();
        if place < names.len() {
            Some(u64::from(names[place]))
        } else {
            None
        }
    }

    /// Adds a name that wasn't added.
    pub fn add(&mut self, name: u64) -> Result<(), NoMemory>
        requires in_range { name < self.old.objects }
        requires fresh { is_among self.old.names name ≡ false }
        ensures after { OnOk result (self.new.names ≡ self.old.names ++ name ∷ []) }
        ensures size { self.new.objects ≡ self.old.objects }
        ensures room { OnOk result (length self.new.names ≤ self.new.objects) }
    {
        self.names.push(name as u32)?;
        self.added.set(name as usize, true);
        Ok(())
    }
}
