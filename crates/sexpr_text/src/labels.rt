//! Labels and the objects that they name.
use indexmap::IndexMap;
use lisp_graph::NoMemory;
use std::alloc::Global;
use std::marker::Model;

/// The labels of a text so far, each with the name of its object.
#[derive(Drop)]
pub struct Labels {
    names: IndexMap<u32, u64>,
}

impl Model for Labels {
    ghost use Rattle.std.specs.Prelude.{ℕ, List};

    ghost Value = { List (ℕ × ℕ) };

    ghost view = { λ l. l.names.entries };
}

impl Labels {
    ghost use Rattle.std.specs.Prelude.{◌≡◌, ◌++◌, [], ◌∷◌, None, OnOk};
    ghost use Rattle.sexpr_text.specs.Labels.{name_of};

    pub fn new(alloc: Global) -> Labels
        ensures { result ≡ [] }
    {
        Labels {
            names: IndexMap::new(alloc),
        }
    }

    /// The object of a label.
    pub fn name_of(&self, label: u32) -> Option<u64>
        ensures { result ≡ name_of self.now label }
    {
        self.names.get(&label).copied()
    }

    /// Gives an object a new label.
    pub fn add(&mut self, label: u32, name: u64) -> Result<(), NoMemory>
        requires { name_of self.old label ≡ None }
        ensures { OnOk result (self.new ≡ self.old ++ (label, name) ∷ []) }
    {
        self.names.insert(label, name)?;
        Ok(())
    }
}
