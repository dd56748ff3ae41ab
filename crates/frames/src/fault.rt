//! Why a program stops.
use std::alloc::AllocError;
use std::io;
use std::io::ErrorKind;
use thiserror::Error;

/// Why a program stops.
#[derive(Clone, Copy, Debug, PartialEq, Eq, Error)]
pub enum Fault {
    /// The input isn't whole frames.
    #[error("not a frame")]
    Frame,
    #[error("read or write fault")]
    Stream,
    #[error("out of memory")]
    NoMemory,
}

impl Fault {
    /// The status that the program ends with.
    pub fn status(self) -> u8 {
        match self {
            Fault::Frame => 2,
            Fault::Stream => 4,
            Fault::NoMemory => 6,
        }
    }
}

impl From<AllocError> for Fault {
    fn from(_: AllocError) -> Fault {
        Fault::NoMemory
    }
}

impl From<io::Error> for Fault {
    fn from(error: io::Error) -> Fault {
        match error.kind() {
            ErrorKind::OutOfMemory => Fault::NoMemory,
            ErrorKind::UnexpectedEof => Fault::Frame,
            _ => Fault::Stream,
        }
    }
}
