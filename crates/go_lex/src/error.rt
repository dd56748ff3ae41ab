//! Why a file has no tokens.
use go_base::memory::NoMemory;
use thiserror::Error;

/// Why a file has no tokens.
#[derive(Clone, Copy, Debug, PartialEq, Eq, Error)]
pub enum LexError {
    /// At this byte offset, from 0, the longest cut into lexemes ends before the file does.
    #[error("bad token at byte {0}")]
    BadToken(u32),
    #[error("out of memory")]
    NoMemory,
}

impl From<NoMemory> for LexError {
    ghost use Rattle.std.specs.Prelude.{◌≡◌};
    ghost use Rattle.go_lex.specs.declared.error.LexError.TheVariants.{NoMemory};

    ghost from_gives = { λ _ e. e ≡ NoMemory };

    fn from(_: NoMemory) -> LexError {
        LexError::NoMemory
    }
}
