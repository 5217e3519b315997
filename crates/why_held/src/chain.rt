//! Chains of references, and the answer to why an object is held.
use crate::optional_numbers::OptionalNumbers;
use lisp_graph::Sequence;

/// The place of a reference: a register, or a part of an object.
#[derive(Clone, Copy, Debug, PartialEq, Eq)]
pub enum Part {
    Root(u8),
    Car,
    Cdr,
    Field(u32),
}

/// A reference, and the number of the object to which it refers.
#[derive(Clone, Copy, Debug, PartialEq, Eq)]
pub struct Hop {
    pub part: Part,
    pub to: u64,
}

/// The references of a chain, from the register on.
pub type Hops = Sequence<Hop>;

/// A depth for each object that has one, in the order of the objects' numbers: how many references follow the register in
/// the shortest chain to the object.
pub type Depths = OptionalNumbers;

/// Whether a register leads to an object.
#[derive(Debug, Drop)]
pub enum Held {
    /// A shortest chain to it.
    Path(Hops),
    /// No chain leads to it.
    Free,
}

/// Why an object is held, and the depths of all objects.
#[derive(Debug, Drop)]
pub struct Why {
    pub held: Held,
    pub depths: Depths,
}
