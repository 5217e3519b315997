//! The registers of one list command.
ghost use Rattle.std.specs.Prelude.{◌≡◌, ◌<◌, ◌≤◌, ◌++◌, [], ◌∷◌, length, slice_get};
ghost use Rattle.std.specs.Option.{option_copied};

use arrayvec::ArrayVec;
use std::marker::Model;

/// At most 1,024 registers, which take no memory on the heap.
#[derive(Debug, Drop)]
pub struct Items {
    registers: ArrayVec<u8, 1024>,
}

impl Model for Items {
    ghost use Rattle.std.specs.Prelude.{ℕ, List};

    ghost Value = { List ℕ };

    ghost view = { λ s. s.registers.items };
}

impl Items {
    /// No registers.
    pub fn new() -> Items
        ensures { result ≡ [] }
    {
        Items {
            registers: ArrayVec::new(),
        }
    }

    /// The same registers.
    pub fn copy(&self) -> Items
        ensures { result ≡ self.now }
    {
        let mut items = Items::new();
        items
            .registers
            .try_extend_from_slice(self.as_slice())
            .unwrap();
        items
    }

    /// Removes all registers.
    pub fn clear(&mut self)
        ensures { self.new ≡ [] }
    {
        self.registers.clear();
    }

    /// Adds a register at the end of fewer than 1,024.
    pub fn push(&mut self, register: u8)
        requires { length self.old < 1024 }
        ensures { self.new ≡ self.old ++ register ∷ [] }
    {
        self.registers.push(register);
    }

    /// How many registers there are: at most 1,024.
    pub fn len(&self) -> u64
        ensures { result ≡ length self.now }
    {
        self.registers.len() as u64
    }

    /// The register at this place; None if the place is the length or more.
    pub fn get(&self, index: u64) -> Option<&u8>
        ensures { option_copied result ≡ slice_get self.now index }
    {
        self.as_slice().get(index as usize)
    }

    /// The registers, in their order.
    pub fn as_slice(&self) -> &[u8]
        ensures value { result.now ≡ self.now }
        ensures at_most { length result.now ≤ 1024 }
    {
        self.registers.as_slice()
    }
}
