//! How many memory accesses a call makes at most. Four more are counted for each word that it transports.
use obj_layout::{FORWARD_LIMIT, RUN_LIMIT};

/// The place of an object is found by a reference, at the end of its forwarding words.
pub const RESOLVE_ACCESSES: u32 = FORWARD_LIMIT;

/// An object is found by a reference, and its first word is read.
pub const FIND_ACCESSES: u32 = RESOLVE_ACCESSES + 1;

/// The pages of two places are held, nine each.
pub const HOLD_ACCESSES: u32 = 2 * 9;

/// An old object is transported: it is found, and the pages of both places are held.
pub const TRANSPORT_ACCESSES: u32 = FIND_ACCESSES + HOLD_ACCESSES;

/// A word is settled: the place of its object is found, and the object transported.
pub const WORD_ACCESSES: u32 = TRANSPORT_ACCESSES + RESOLVE_ACCESSES;

/// A word of memory is settled: it is read, and written again.
pub const FETCH_ACCESSES: u32 = WORD_ACCESSES + 2;

/// A command settles a register.
pub const SETTLE_ACCESSES: u32 = WORD_ACCESSES + 3;

/// The parcel of an object is sought, in the longest run, from a first word that was read.
pub const PARCEL_ACCESSES: u32 = RUN_LIMIT + RESOLVE_ACCESSES + 2;

/// A transport fails.
pub const FAILED_TRANSPORT_ACCESSES: u32 = PARCEL_ACCESSES + 1 + HOLD_ACCESSES;

/// A word isn't settled, since the transport fails.
pub const FAILED_WORD_ACCESSES: u32 = FAILED_TRANSPORT_ACCESSES + RESOLVE_ACCESSES;

/// A word of memory isn't settled.
pub const FAILED_FETCH_ACCESSES: u32 = FAILED_WORD_ACCESSES + 2;
