//! What keeps a block from being typed.
use thiserror::Error;

/// What keeps a block from being typed.
#[derive(Clone, Copy, Debug, PartialEq, Eq, Error)]
pub enum BlockError {
    /// A statement isn't typed: the byte offset at which the first starts that fails and holds none that does.
    #[error("untyped")]
    Untyped(u32),
    #[error("out of memory")]
    NoMemory,
}
