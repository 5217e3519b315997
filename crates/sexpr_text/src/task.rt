//! What remains to be read of the forms that have begun.
use crate::Bracket;
use lisp_graph::{Fields, Value};

/// A part of a form that remains to be read.
#[derive(Drop)]
pub enum ParseTask {
    /// The conses of a list form, from an element on.
    Conses {
        area: u8,
        bracket: Bracket,
    },
    /// What follows the element that is the car of this cons.
    Behind {
        name: u64,
        area: u8,
        bracket: Bracket,
        car: Value,
    },
    /// The closing bracket after a dotted cdr.
    Close {
        bracket: Bracket,
    },
    /// The fields of this block after the first ones, up to the closing bracket.
    Fields {
        name: u64,
        area: u8,
        code: u16,
        fields: Fields,
    },
}
