//! Want of memory, the one answer that any call that allocates may give.
use std::alloc::{AllocError, AllocFailed};
use thiserror::Error;

/// No memory was left. No contract ties it to a refused allocation: tests show that it isn't
/// given with ample memory.
#[derive(Clone, Copy, Debug, PartialEq, Eq, Error)]
#[error("out of memory")]
pub struct NoMemory;

impl From<AllocError> for NoMemory {
    fn from(_: AllocError) -> NoMemory {
        NoMemory
    }
}

impl<T: Drop> From<AllocFailed<T>> for NoMemory {
    fn from(_: AllocFailed<T>) -> NoMemory {
        NoMemory
    }
}
