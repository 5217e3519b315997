//! What can fail below every layer: memory, and the swap device.

use std::alloc::{AllocError, AllocFailed};

/// There was no memory. No clause says when this occurs. Unless a call says otherwise, it has then
/// changed nothing.
#[derive(Clone, Copy, PartialEq, Eq, Debug)]
pub struct NoMemory;

/// The swap device failed. It is returned only if the count of swap errors rose in the call.
#[derive(Clone, Copy, PartialEq, Eq, Debug)]
pub struct SwapFault;

/// A call that consumes a value found no memory, and gives the value back unchanged.
#[derive(Debug, Drop)]
pub struct Refused<T> {
    /// The value that the call took, unchanged.
    pub back: T,
}

impl From<AllocError> for NoMemory {
    fn from(_error: AllocError) -> NoMemory {
        NoMemory
    }
}

impl<T: Drop> From<AllocFailed<T>> for NoMemory {
    fn from(_error: AllocFailed<T>) -> NoMemory {
        NoMemory
    }
}
