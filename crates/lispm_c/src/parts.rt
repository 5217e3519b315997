//! The parts of a box.
ghost use Rattle.std.specs.Prelude.{◌≡◌};
ghost use Rattle.std.specs.Box.Ownership.{box_owns};

use std::alloc::Allocator;
use std::marker::Model;

/// The address of a box's value, and the allocator that allocated it. It owns what the box owned.
pub struct Parts<T, A: Allocator> {
    pub(crate) at: *mut T,
    pub(crate) from: A,
    pub ghost value: { T },
}

impl<T, A: Allocator> Model for Parts<T, A> {
    ghost also_owns = { λ p. box_owns (A.dealloc_token p.from) T.row p.at p.value };
}

impl<T, A: Allocator> Parts<T, A> {
    /// The parts of a box.
    pub fn of(boxed: Box<T, A>) -> Parts<T, A>
    where
        T: Drop,
        ensures { result.value ≡ boxed.value }
    {
        let (at, from) = Box::into_raw_with_allocator(boxed);
        Parts { at, from }
    }

    /// The box with these parts.
    pub fn into_box(self) -> Box<T, A>
        ensures { result.value ≡ self.value }
    {
        let Parts { at, from } = self;
        unsafe { Box::from_raw(from, at) }
    }
}
