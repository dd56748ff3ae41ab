//! Why a line isn't read.
use go_base::memory::NoMemory;
use std::alloc::{AllocError, AllocFailed};

/// Why a line has no answer.
#[derive(Debug, Drop)]
pub enum Refusal {
    WrongLine,
    NoMemory,
}

impl From<NoMemory> for Refusal {
    fn from(_: NoMemory) -> Refusal {
        Refusal::NoMemory
    }
}

impl From<AllocError> for Refusal {
    fn from(_: AllocError) -> Refusal {
        Refusal::NoMemory
    }
}

impl<T: Drop> From<AllocFailed<T>> for Refusal {
    fn from(_: AllocFailed<T>) -> Refusal {
        Refusal::NoMemory
    }
}
