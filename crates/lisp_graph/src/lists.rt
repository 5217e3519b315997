//! Lists that grow at their end.
ghost use Rattle.std.specs.Prelude.{◌≡◌, ◌<◌, ◌≤◌, ◌-◌, ◌++◌, [], ◌∷◌, length, replicate, slice_get, slice_set, take, IfOk, OnOk, OnErr};
ghost use Rattle.std.specs.Option.{option_copied};

use crate::{AreaRule, Value};
use std::alloc::Global;
use std::marker::Model;
use store_word::NoMemory;

/// A list that grows at its end, in memory of the allocator that it was made with.
#[derive(Debug, Drop)]
pub struct Sequence<T> {
    items: Vec<T>,
}

/// Values: the fields of a block, or the roots of a world.
pub type Fields = Sequence<Value>;

/// Area rules, in the order of their numbers.
pub type Areas = Sequence<AreaRule>;

/// Bytes.
pub type Text = Sequence<u8>;

impl<T> Model for Sequence<T> {
    ghost use Rattle.std.specs.Prelude.{List};

    ghost Value = { List T };

    ghost view = { λ s. s.items.items };
}

impl<T> Sequence<T> {
    /// The empty list. It takes no memory yet.
    pub fn new(alloc: Global) -> Sequence<T>
        ensures { result ≡ [] }
    {
        Sequence {
            items: Vec::new(alloc),
        }
    }

    /// How many items there are.
    pub fn len(&self) -> u64
        ensures { result ≡ length self.now }
    {
        self.items.len() as u64
    }

    /// The item at this place; None if the place is the length or more.
    pub fn get(&self, index: u64) -> Option<&T>
        ensures { option_copied result ≡ slice_get self.now index }
    {
        self.items.get(index as usize)
    }

    /// The items, in their order.
    pub fn as_slice(&self) -> &[T]
        ensures { result.now ≡ self.now }
    {
        &self.items
    }
}

impl<T: Drop> Sequence<T> {
    /// Adds an item at the end. If memory runs out, the list is unchanged and the item is dropped.
    pub fn push(&mut self, item: T) -> Result<(), NoMemory>
        ensures ok { OnOk result (self.new ≡ self.old ++ item ∷ []) }
        ensures err { OnErr result (self.new ≡ self.old) }
    {
        self.items.push(item)?;
        Ok(())
    }

    /// Replaces the item at this place.
    pub fn set(&mut self, index: usize, item: T)
        requires { index < length self.old }
        ensures { self.new ≡ slice_set self.old index item }
    {
        self.items[index] = item;
    }

    /// Removes all items after the first `count`.
    pub fn truncate(&mut self, count: usize)
        ensures { self.new ≡ take count self.old }
    {
        self.items.truncate(count);
    }
}

impl<T: Copy> Sequence<T> {
    /// The list of these items.
    pub fn from_slice(alloc: Global, items: &[T]) -> Result<Sequence<T>, NoMemory>
        ensures { IfOk result (λ list. list ≡ items.now) }
    {
        let items = Vec::from_slice(alloc, items)?;
        Ok(Sequence { items })
    }

    /// Adds items at the end. If memory runs out, the list is unchanged.
    pub fn push_all(&mut self, items: &[T]) -> Result<(), NoMemory>
        ensures ok { OnOk result (self.new ≡ self.old ++ items.now) }
        ensures err { OnErr result (self.new ≡ self.old) }
    {
        self.items.extend_from_slice(items)?;
        Ok(())
    }

    /// Adds copies of an item until the list has this length, at least its own. If memory runs out, the list is unchanged.
    pub fn pad(&mut self, count: usize, item: T) -> Result<(), NoMemory>
        requires { length self.old ≤ count }
        ensures ok { OnOk result (self.new ≡ self.old ++ replicate (count - length self.old) item) }
        ensures err { OnErr result (self.new ≡ self.old) }
    {
        self.items.resize(count, item)?;
        Ok(())
    }
}
