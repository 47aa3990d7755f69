//! Want of memory.

use std::alloc::{AllocError, AllocFailed};
use thiserror::Error;

/// No memory was left: the answer of every call that can be refused for nothing else.
#[derive(Clone, Copy, Debug, PartialEq, Eq, Error)]
#[error("no memory was left")]
pub struct NoMemory;

impl From<AllocError> for NoMemory {
    fn from(_error: AllocError) -> NoMemory {
        NoMemory
    }
}

impl<T: Drop> From<AllocFailed<T>> for NoMemory {
    fn from(_error: AllocFailed<T>) -> NoMemory {
        NoMemory
    }
}
