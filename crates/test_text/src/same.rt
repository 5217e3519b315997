//! The one comparison of texts.
use std::process::Abort;

/// Compares what was written with what is expected, for a row of a table.
pub fn same(rt: &impl Abort, got: &[u8], want: &[u8], row: &str) {
    assert!(rt; got == want, "{row}");
}
