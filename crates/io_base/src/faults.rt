//! The two bare faults: a call on the outside failed, and memory was refused.

use std::alloc::{AllocError, AllocFailed};

/// A call on the outside failed. It says no more: the object that was called counts its faults.
#[derive(Clone, Copy, Debug, PartialEq, Eq)]
pub struct Failed;

/// Memory was refused.
#[derive(Clone, Copy, Debug, PartialEq, Eq)]
pub struct OutOfMemory;

impl From<AllocError> for OutOfMemory {
    fn from(_refusal: AllocError) -> OutOfMemory {
        OutOfMemory
    }
}

impl<T: Drop> From<AllocFailed<T>> for OutOfMemory {
    fn from(_refusal: AllocFailed<T>) -> OutOfMemory {
        OutOfMemory
    }
}
