//! Why bytes are no file of frozen lines.
use go_base::memory::NoMemory;
use thiserror::Error;

/// Why bytes are no file of frozen lines.
#[derive(Clone, Copy, Debug, PartialEq, Eq, Error)]
pub enum FrozenError {
    /// The offset of the first byte that begins no character.
    #[error("not UTF-8")]
    NotUtf8(u32),
    /// The number, from 1, of the first line that is neither a feature line nor skipped.
    #[error("not a feature line")]
    NotALine(u32),
    #[error("out of memory")]
    NoMemory,
}

impl From<NoMemory> for FrozenError {
    ghost use Rattle.std.specs.Prelude.{◌≡◌};
    ghost use Rattle.api_frozen.specs.declared.error.FrozenError.TheVariants.{NoMemory};

    ghost from_gives = { λ _ e. e ≡ NoMemory };

    fn from(_: NoMemory) -> FrozenError {
        FrozenError::NoMemory
    }
}
