//! Numbers of which any may be absent, in 4 bytes each.
ghost use Rattle.std.specs.Prelude.{◌≡◌};
ghost use Rattle.why_held.specs.OptionalNumbers.{entry_number};

use lisp_graph::{NoMemory, Sequence};
use std::alloc::Global;
use std::marker::Model;

/// The number that an entry means.
fn entry_number(entry: u32) -> Option<u32>
    ensures { result ≡ entry_number entry }
{
    if entry == 0 {
        return None;
    }
    Some(entry - 1)
}

/// For each place a number below 2^32 - 1, or none. There are fewer than 2^32 places.
#[derive(Debug, Drop)]
pub struct OptionalNumbers {
    /// 0 if there is no number, or else the number plus 1.
    entries: Sequence<u32>,
}

impl Model for OptionalNumbers {
    ghost use Rattle.std.specs.Prelude.{ℕ, List, Option, length, map, ◌<◌, ◌^◌};
    ghost use Rattle.why_held.specs.OptionalNumbers.{entry_number};

    ghost Value = { List (Option ℕ) };

    ghost view = { λ n. map entry_number n.entries };

    ghost invariant = { λ n. length n.entries < 2 ^ 32 };
}

impl OptionalNumbers {
    ghost use Rattle.std.specs.Prelude.{◌≡◌, ◌+◌, ◌<◌, ◌^◌, length, replicate, slice_index_or, slice_set, IfOk, Some, None};

    /// This many places, of which none has a number.
    pub fn none(alloc: Global, count: usize) -> Result<OptionalNumbers, NoMemory>
        requires { count < 2 ^ 32 }
        ensures { IfOk result (λ numbers. numbers ≡ replicate count None) }
    {
        let mut entries = Sequence::new(alloc);
        entries.pad(count, 0)?;
        Ok(OptionalNumbers { entries })
    }

    /// How many places there are.
    pub fn len(&self) -> usize
        ensures value { result ≡ length self.now }
        ensures at_most { result < 2 ^ 32 }
    {
        self.entries.as_slice().len()
    }

    /// The number at a place, if there is one.
    pub fn get(&self, place: usize) -> Option<u32>
        requires { place < length self.now }
        ensures value { result ≡ slice_index_or self.now place None }
        ensures at_most { length self.now < 2 ^ 32 }
    {
        entry_number(self.entries.as_slice()[place])
    }

    /// Puts a number at a place.
    pub fn set(&mut self, place: usize, number: u32)
        requires in_range { place < length self.old }
        requires at_most { number + 1 < 2 ^ 32 }
        ensures { self.new ≡ slice_set self.old place (Some number) }
    {
        self.entries.set(place, number + 1);
    }
}
