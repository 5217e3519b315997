//! The objects that were printed.
ghost use Rattle.std.specs.Prelude.{◌≡◌};
ghost use Rattle.sexpr_print.specs.Marks.{entry_label};

use crate::sharing::{References, is_many};
use lisp_graph::{NoMemory, Sequence};
use std::alloc::Global;
use std::marker::Model;

/// The label that an entry of the table means.
fn entry_label(entry: u32) -> Option<u32>
    ensures { result ≡ entry_label entry }
{
    if entry == 0 {
        return None;
    }
    Some(entry - 1)
}

/// Which objects were printed, and the label of each. An object is looked up by its name in constant time.
#[derive(Drop)]
pub struct Printed {
    counts: Sequence<References>,
    names: Sequence<u32>,
    /// For each object 0 if it wasn't printed, or else its label plus 1.
    entries: Sequence<u32>,
    /// The label of the next shared object.
    next: u32,
}

impl Model for Printed {
    ghost use Rattle.sexpr_print.specs.Marks.{AreLabelled, Marks, marks_of};

    ghost Value = { Marks };

    ghost view = { λ p. marks_of p.counts p.names };

    ghost invariant = { λ p. AreLabelled (marks_of p.counts p.names) p.entries p.next };
}

impl Printed {
    ghost use Rattle.std.specs.Prelude.{◌≡◌, ◌<◌, ◌≤◌, ◌++◌, [], ◌∷◌, length, IfOk, OnOk, None};
    ghost use Rattle.sexpr_print.specs.Marks.{label_in, new_label, shared_in};

    /// Before any object is printed. Contracts see the references to each object, and the names that were printed. It fails if
    /// memory runs out, and for 2^32 objects or more.
    pub fn new(alloc: Global, counts: Sequence<References>) -> Result<Printed, NoMemory>
        ensures value { IfOk result (λ printed. printed.counts ≡ counts) }
        ensures empty { IfOk result (λ printed. printed.names ≡ []) }
    {
        if counts.len() > u64::from(u32::MAX) {
            return Err(NoMemory);
        }
        let mut entries = Sequence::new(alloc);
        entries.pad(counts.len() as usize, 0)?;
        Ok(Printed {
            counts,
            names: Sequence::new(alloc),
            entries,
            next: 0,
        })
    }

    /// Whether more than one place refers to an object.
    pub fn is_shared(&self, name: u64) -> bool
        requires { name < length self.now.counts }
        ensures { result ≡ shared_in self.now.counts name }
    {
        is_many(self.counts.as_slice()[name as usize])
    }

    /// The label of an object; None if the object wasn't printed.
    pub fn label(&self, name: u64) -> Option<u32>
        requires { name < length self.now.counts }
        ensures { result ≡ label_in self.now name }
    {
        entry_label(self.entries.as_slice()[name as usize])
    }

    /// Adds an object that is printed for the first time. The result is its label; None if it isn't shared.
    pub fn add(&mut self, name: u64) -> Result<Option<u32>, NoMemory>
        requires in_range { name < length self.old.counts }
        requires first { label_in self.old name ≡ None }
        ensures value { IfOk result (λ label. label ≡ new_label self.old name) }
        ensures after { OnOk result (self.new.names ≡ self.old.names ++ name ∷ []) }
        ensures unchanged { OnOk result (self.new.counts ≡ self.old.counts) }
        ensures room { OnOk result (length self.new.names ≤ length self.new.counts) }
    {
        let label = self.next;
        let Some(entry) = label.checked_add(1) else {
            return Err(NoMemory);
        };
        let shared = self.is_shared(name);
        self.names.push(name as u32)?;
        self.entries.set(name as usize, entry);
        self.next = label + u32::from(shared);
        Ok(shared.then_some(label))
    }
}
