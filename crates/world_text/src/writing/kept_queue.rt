//! The objects that a dump keeps, in the order of their numbers, each until its parts are visited.
ghost use Rattle.std.specs.Prelude.{◌≡◌, ◌<◌, ◌≤◌, ◌++◌, [], ◌∷◌, drop, length, OnOk};
ghost use Rattle.world_text.specs.writing.Kept.{kept_in};

use crate::writing::kept_object::KeptObject;
use lisp_graph::SeenCons;
use std::alloc::Global;
use std::marker::Model;
use store_word::NoMemory;

/// Contracts see the objects that weren't taken. In the list `taken` others precede them. The memory of these is given back when they are
/// at least 4,096 and more than a quarter of the list. So at most three objects are moved for each that is taken.
#[derive(Drop)]
pub struct KeptQueue {
    objects: Vec<KeptObject>,
    taken: usize,
}

impl Model for KeptQueue {
    ghost use Rattle.std.specs.Prelude.{List, Option, drop, length, map, ◌≤◌};
    ghost use Rattle.lisp_graph.specs.declared.walk.SeenCons.{SeenCons};
    ghost use Rattle.world_text.specs.writing.Kept.{kept_in};

    ghost Value = { List (Option SeenCons) };

    ghost view = { λ q. map kept_in (drop q.taken q.objects.items) };

    ghost invariant = { λ q. q.taken ≤ length q.objects.items };
}

/// Removes the first objects of a list, this many.
fn keep_from(objects: &mut Vec<KeptObject>, front: usize)
    requires { front ≤ length objects.old.items }
    ensures { objects.new.items ≡ drop front objects.old.items }
{
    let len = objects.len();
    objects.copy_within(front..len, 0);
    objects.truncate(len - front);
}

impl KeptQueue {
    /// No object.
    pub fn new(alloc: Global) -> KeptQueue
        ensures { result ≡ [] }
    {
        KeptQueue {
            objects: Vec::new(alloc),
            taken: 0,
        }
    }

    /// Adds an object at the end.
    pub fn push(&mut self, object: KeptObject) -> Result<(), NoMemory>
        ensures { OnOk result (self.new ≡ self.old ++ kept_in object ∷ []) }
    {
        self.objects.push(object)?;
        Ok(())
    }

    /// Gives back the memory of the objects that were taken.
    #[cold]
    #[inline(never)]
    fn shrink(&mut self)
        ensures { self.new ≡ self.old }
    {
        keep_from(&mut self.objects, self.taken);
        self.taken = 0;
        self.objects.shrink_to_fit();
    }

    /// Takes the first object.
    #[inline(always)]
    pub fn take_first(&mut self) -> Option<SeenCons>
        requires { 0 < length self.old }
        ensures { self.old ≡ result ∷ self.new }
    {
        let first = self.objects[self.taken].kept();
        self.taken += 1;
        if self.taken >= 4096 && self.taken > self.objects.len() / 4 {
            self.shrink();
        }
        first
    }
}
