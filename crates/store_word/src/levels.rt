//! A set of the levels 1 to 6, kept as the number with the bit of value 2^(l - 1) for each level l.
ghost use Rattle.std.specs.Prelude.{◌↔◌, ◌≡◌, ◌≤◌, ◌-◌, ◌^◌, ⊤, [], ◌∷◌, codes, IfSome, IsNone};
ghost use Rattle.store_word.specs.Sets.{CallsAreOfSets};

use bitflags::{Flag, Flags};

/// A set of the levels 1 to 6.
///
/// Its calls `empty`, `all`, `contains`, `intersects`, `insert`, `remove` and `union` are those of
/// the trait `Flags`, whose contracts speak of numbers; `calls_are_of_sets` says what they mean
/// for levels.
#[derive(Clone, Copy, PartialEq, Eq, Debug)]
pub struct Levels(u8);

impl Levels {
    const ONE: Levels = Levels(1);

    const TWO: Levels = Levels(2);

    const THREE: Levels = Levels(4);

    const FOUR: Levels = Levels(8);

    const FIVE: Levels = Levels(16);

    const SIX: Levels = Levels(32);

    const ALL: &'static [Flag<Levels>] = &[
        Flag {
            name: "1",
            value: Levels::ONE,
        },
        Flag {
            name: "2",
            value: Levels::TWO,
        },
        Flag {
            name: "3",
            value: Levels::THREE,
        },
        Flag {
            name: "4",
            value: Levels::FOUR,
        },
        Flag {
            name: "5",
            value: Levels::FIVE,
        },
        Flag {
            name: "6",
            value: Levels::SIX,
        },
    ];

    /// The set of one level, 1 to 6.
    pub fn one(level: u8) -> Levels
        requires from { 1 ≤ level }
        requires to { level ≤ 6 }
        ensures { result.0 ≡ 2 ^ (level - 1) }
    {
        Levels(1 << (level - 1))
    }

    /// The levels from 1 to `level`, which is 0 to 6; for 0 the empty set.
    pub fn up_to(level: u8) -> Levels
        requires { level ≤ 6 }
        ensures { result.0 ≡ 2 ^ level - 1 }
    {
        Levels((1 << level) - 1)
    }

    /// The set that has these bits. It is None if and only if a bit of value 64 or more is set, as
    /// no level has such a bit.
    pub fn from_bits(bits: u8) -> Option<Levels>
        ensures value { IfSome result (λ levels. levels.0 ≡ bits) }
        ensures none { IsNone result ↔ (64 ≤ bits) }
    {
        <Levels as Flags>::from_bits(bits)
    }
}

impl Flags for Levels {
    type Bits = u8;

    ghost exact = { ⊤ };

    ghost table = { (codes "1", 1) ∷ (codes "2", 2) ∷ (codes "3", 4) ∷ (codes "4", 8) ∷ (codes "5", 16) ∷ (codes "6", 32) ∷ [] };

    ghost set_of = { λ s. s.0 };

    fn flags<'a>() -> &'a [Flag<Levels>] {
        Levels::ALL
    }

    fn bits(&self) -> u8 {
        self.0
    }

    fn from_bits_retain(bits: u8) -> Levels {
        Levels(bits)
    }
}

/// The calls of `Levels` are those of sets: what contracts state of numbers, stated of levels.
///
/// `empty` is 0, `one(k)` is 2^(k - 1) and `up_to(k)` is 2^k - 1. `union` and `insert` give
/// `bit_or`, and `remove` gives `without`. `a.contains(b)` tests that `bit_and a b` is b, and
/// `intersects` that it isn't 0.
pub fn calls_are_of_sets()
    ensures { CallsAreOfSets }
{}
