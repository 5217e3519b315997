//! Values and objects.
use crate::Fields;

/// What a register, a field or a root holds.
#[derive(Clone, Copy, Debug, PartialEq, Eq)]
pub enum Value {
    Fix(i32),
    Nil,
    /// The object with this name. Objects are named 0, 1, 2 and so on in the order in which they are made.
    Ref(u64),
}

/// What an object is made of. A block has at most 2,047 fields.
#[derive(Debug, Drop)]
pub enum Body {
    Cons { car: Value, cdr: Value },
    Block { code: u16, fields: Fields },
}

/// An object of an area, and the words that it is charged: 2 or 3 for a cons, and one more than its fields for a block.
#[derive(Debug, Drop)]
pub struct Object {
    pub area: u8,
    pub charge: u32,
    pub body: Body,
}
