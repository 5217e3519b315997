//! Limits of lines and inputs.

/// The most bytes of an input.
pub const LONGEST_INPUT: u64 = 1 << 40;

/// The most bytes of a line, its line feed not counted.
pub const LONGEST_LINE: usize = 32_768;
