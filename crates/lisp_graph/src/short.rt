//! Commands without the registers of a list.
use crate::{Condemn, Value};

/// One command; a list command is without its registers, so that each command takes a few bytes.
#[derive(Clone, Copy, Debug, PartialEq, Eq)]
pub enum CommandHead {
    /// Writes nil or a number to a register.
    Set {
        to: u8,
        value: Value,
    },
    /// Copies a register.
    Move {
        to: u8,
        from: u8,
    },
    /// Makes a cons of two registers' values.
    Cons {
        to: u8,
        area: u8,
        car: u8,
        cdr: u8,
    },
    /// Makes a list of 1 to 1,024 registers' values.
    List {
        to: u8,
        area: u8,
    },
    /// Makes a block of at most 2,047 fields, all nil.
    Make {
        to: u8,
        area: u8,
        code: u16,
        length: u16,
    },
    /// Widens a block that has fewer fields than this, which are at most 2,047.
    Grow {
        target: u8,
        length: u16,
    },
    /// Copies the car of a cons to a register.
    Car {
        to: u8,
        from: u8,
    },
    /// Copies the cdr of a cons to a register.
    Cdr {
        to: u8,
        from: u8,
    },
    /// Writes the car of a cons.
    Rplaca {
        target: u8,
        from: u8,
    },
    /// Writes the cdr of a cons.
    Rplacd {
        target: u8,
        from: u8,
    },
    /// Copies a field of a block to a register.
    Get {
        to: u8,
        from: u8,
        index: u32,
    },
    /// Writes a field of a block.
    Put {
        target: u8,
        index: u32,
        from: u8,
    },
    /// Returns how many fields a block has.
    Size {
        of: u8,
    },
    /// Returns whether two registers hold the same value.
    Eq {
        left: u8,
        right: u8,
    },
    /// Begins a collection.
    Flip {
        what: Condemn,
    },
    /// Scans this many units of a collection.
    Scavenge {
        count: u32,
    },
    /// Ends a collection.
    Reclaim,
    /// Evicts this many pages.
    PageOut {
        count: u32,
    },
    /// Returns the account of each area.
    Stats,
    /// Writes the text of all objects.
    Dump,
}
