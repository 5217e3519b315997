//! The length of a line that was found.

/// The number of bytes of the next line without its line feed (`length`), and with it (`size`).
#[derive(Clone, Copy, Debug, PartialEq, Eq)]
pub struct LineSpan {
    pub length: usize,
    pub size: usize,
}
