//! Objects in an ordered map.
ghost use Rattle.std.specs.Prelude.{◌≡◌, ◌<◌, ◌^◌, ◌++◌, [], ◌∷◌, length, slice_get, slice_set, take, OnOk, OnErr};
ghost use Rattle.std.specs.Option.{option_copied};
ghost use Rattle.lisp_graph.specs.Graph.{object_at};
ghost use Rattle.lisp_graph.specs.Fields.{HasField, with_field};

use crate::{Body, Object, Value};
use std::alloc::Global;
use std::collections::BTreeMap;
use std::marker::Model;
use store_word::NoMemory;

/// Objects by their names, which are 0, 1, 2 and so on.
#[derive(Debug, Drop)]
pub(crate) struct ObjectMap {
    map: BTreeMap<u64, Object>,
}

impl Model for ObjectMap {
    ghost use Rattle.std.specs.Prelude.{◌≡◌, List};
    ghost use Rattle.std.specs.BTreeMap.{values};
    ghost use Rattle.std.specs.List.{enumerate_from};
    ghost use Rattle.lisp_graph.specs.declared.object.Object.{Object};

    ghost Value = { List Object };

    ghost view = { λ s. values s.map };

    ghost invariant = { λ s. s.map.entries ≡ enumerate_from 0 (values s.map) };
}

fn write_object(place: &mut Object, object: Object)
    ensures { place.new ≡ object }
{
    *place = object;
}

fn write_field(place: &mut Object, index: usize, value: Value)
    requires { HasField place.old.body index }
    ensures { place.new ≡ record place.old { body = with_field place.old.body index value } }
{
    match &mut place.body {
        Body::Block { fields, .. } => fields.set(index, value),
        // Only a block has fields.
        Body::Cons { .. } => unreachable!(),
    }
}

impl ObjectMap {
    pub(crate) fn new(alloc: Global) -> ObjectMap
        ensures { result ≡ [] }
    {
        ObjectMap {
            map: BTreeMap::new(alloc),
        }
    }

    /// How many objects there are, which is the next name.
    pub(crate) fn len(&self) -> u64
        ensures value { result ≡ length self.now }
        ensures at_most { result < 2 ^ 63 }
    {
        self.map.len() as u64
    }

    pub(crate) fn get(&self, name: u64) -> Option<&Object>
        ensures { option_copied result ≡ slice_get self.now name }
    {
        self.map.get(&name)
    }

    /// Adds an object under the next name.
    pub(crate) fn push(&mut self, object: Object) -> Result<(), NoMemory>
        ensures ok { OnOk result (self.new ≡ self.old ++ object ∷ []) }
        ensures err { OnErr result (self.new ≡ self.old) }
    {
        let name = self.map.len() as u64;
        self.map.insert(name, object)?;
        Ok(())
    }

    /// Replaces the object with this name.
    pub(crate) fn set(&mut self, name: u64, object: Object)
        requires { name < length self.old }
        ensures { self.new ≡ slice_set self.old name object }
    {
        write_object(self.map.get_mut(&name).unwrap(), object);
    }

    /// Writes a field of the block with this name.
    pub(crate) fn set_field(&mut self, name: u64, index: usize, value: Value)
        requires name { name < length self.old }
        requires in_range { HasField (object_at self.old name).body index }
        ensures { self.new ≡ slice_set self.old name (record (object_at self.old name) { body = with_field (object_at self.old name).body index value }) }
    {
        write_field(self.map.get_mut(&name).unwrap(), index, value);
    }

    /// Removes all objects after the first `count`.
    pub(crate) fn truncate(&mut self, count: u64)
        ensures { self.new ≡ take count self.old }
    {
        while self.map.len() as u64 > count {
            self.map.pop_last();
        }
    }
}
