//! Why a file has no header.
use go_base::memory::NoMemory;
use thiserror::Error;

/// Why a file has no header.
#[derive(Clone, Copy, Debug, PartialEq, Eq, Error)]
pub enum TagError {
    /// The file has one build line, and its expression isn't in the grammar.
    #[error("go:build line not understood")]
    BadExpression,
    /// The file has two build lines or more.
    #[error("two go:build lines")]
    Twice,
    /// The file has a `+build` line and no build line.
    #[error("+build without go:build")]
    PlusBuild,
    #[error("out of memory")]
    NoMemory,
}

impl From<NoMemory> for TagError {
    ghost use Rattle.std.specs.Prelude.{◌≡◌};
    ghost use Rattle.go_tags.specs.declared.error.TagError.TheVariants.{NoMemory};

    ghost from_gives = { λ _ e. e ≡ NoMemory };

    fn from(_: NoMemory) -> TagError {
        TagError::NoMemory
    }
}
