//! How many memory accesses a scan makes at most. Four more are counted for each word that it transports.
use transporter::FETCH_ACCESSES;

/// The unit that is next is scanned, a register or a word.
pub const UNIT_ACCESSES: u32 = FETCH_ACCESSES + 2;

/// A unit is scanned in a sequence of many, in which words without old addresses are passed together.
pub const STEP_ACCESSES: u32 = UNIT_ACCESSES + 1;
