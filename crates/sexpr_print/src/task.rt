//! What remains to be printed of the forms that have begun.
use lisp_graph::Value;
use sexpr_text::Bracket;

/// A part of a form that remains to be printed.
#[derive(Clone, Copy, Debug)]
pub enum PrintTask {
    Value(Value),
    /// What follows the car of a cons of this area and charge.
    Rest { area: u8, charge: u32, cdr: Value },
    /// The fields of this block from an index on, and the closing bracket.
    Fields { name: u64, index: u64 },
    Close(Bracket),
}
