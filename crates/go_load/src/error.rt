//! Why a tree isn't loaded.
use go_base::memory::NoMemory;
use go_base::text::Text;
use go_model::files::tree::LimitName;
use thiserror::Error;

/// Why a tree isn't loaded. Paths are those below the root of the tree.
#[derive(Debug, Drop, Error)]
pub enum LoadError {
    /// Nothing is at this path, which is empty for the root itself.
    #[error("not found")]
    Missing(Text),
    /// The root has no file `go.mod`.
    #[error("no go.mod")]
    NoModule,
    /// `go.mod` hasn't exactly one good module line.
    #[error("no module line in go.mod")]
    BadModule,
    /// The count under a limit passes its number at this path.
    #[error("a limit is passed")]
    Limit(LimitName, Text),
    /// The store failed, and its count of faults rose.
    #[error("read fault")]
    ReadFault,
    #[error("out of memory")]
    NoMemory,
}

impl From<NoMemory> for LoadError {
    ghost use Rattle.std.specs.Prelude.{◌≡◌};
    ghost use Rattle.go_load.specs.declared.error.LoadError.TheVariants.{NoMemory};

    ghost from_gives = { λ _ e. e ≡ NoMemory };

    fn from(_: NoMemory) -> LoadError {
        LoadError::NoMemory
    }
}
