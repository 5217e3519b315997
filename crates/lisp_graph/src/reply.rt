//! Replies.

/// The reply to a command.
#[derive(Clone, Copy, Debug, PartialEq, Eq)]
pub enum Reply {
    /// The command is done.
    Fine,
    /// The value is nil, or two values differ.
    Nil,
    /// The value is this number, or a block has this number of fields.
    Number(i32),
    /// The value is a cons.
    Cons,
    /// The value is a block with this code and number of fields.
    Block {
        code: u16,
        length: u16,
    },
    /// Two values are equal.
    True,
    /// The register holds no cons, or no block.
    WrongType,
    /// The index isn't below the number of fields, `length`.
    NoField {
        length: u16,
    },
    /// The words charged to the area plus those wanted exceed its quota.
    Exhausted {
        area: u8,
        charged: u32,
        wanted: u32,
        quota: u32,
    },
    /// The swap device failed.
    Fault,
    /// A collection has begun, and has this many base pages to scan.
    Flipped {
        pages: u32,
    },
    /// A collection runs.
    Busy,
    /// Units remain to be scanned.
    More,
    /// No unit remains to be scanned.
    Done,
    /// No collection runs.
    NotFlipped,
    /// Units remain to be scanned, so the collection can't end.
    NotDone,
    /// The collection has ended.
    Reclaimed,
}
