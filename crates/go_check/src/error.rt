//! Why a package is refused.
use go_base::memory::NoMemory;
use go_syntax::name::Place;
use thiserror::Error;

/// The first cause for which a package is refused, with its place.
#[derive(Clone, Copy, Debug, PartialEq, Eq, Error)]
pub enum CheckError {
    /// A name that was declared before: where it stands again.
    #[error("a name is declared twice")]
    Redeclared(Place),
    /// A used import that isn't found: the first quote of its path.
    #[error("an import isn't found")]
    MissingImport(Place),
    /// A declaration without a typing: its first name.
    #[error("a declaration has no typing")]
    Unsound(Place),
    #[error("out of memory")]
    NoMemory,
}

impl From<NoMemory> for CheckError {
    ghost use Rattle.std.specs.Prelude.{◌≡◌};
    ghost use Rattle.go_check.specs.declared.error.CheckError.TheVariants.{NoMemory};

    ghost from_gives = { λ _ e. e ≡ NoMemory };

    fn from(_: NoMemory) -> CheckError {
        CheckError::NoMemory
    }
}
