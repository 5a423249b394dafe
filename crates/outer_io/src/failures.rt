//! The answers of calls that could not do their work.
use std::alloc::{AllocError, AllocFailed};

/// A read or a write failed, and the count of faults of its source or sink says so.
#[derive(Clone, Copy)]
pub struct Failed;

/// Memory ran out.
#[derive(Clone, Copy)]
pub struct Memory;

impl From<AllocError> for Memory {
    fn from(_refused: AllocError) -> Memory {
        Memory
    }
}

/// A value that was not stored is dropped.
impl<T: Drop> From<AllocFailed<T>> for Memory {
    fn from(_refused: AllocFailed<T>) -> Memory {
        Memory
    }
}
