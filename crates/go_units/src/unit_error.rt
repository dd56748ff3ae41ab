//! Why the packages of a tree are refused.
use crate::reader::FileFault;
use go_base::memory::NoMemory;
use go_base::text::Text;
use thiserror::Error;

/// A file of a package.
#[derive(Debug, Drop)]
pub struct FileAt {
    /// The import path of its folder.
    pub path: Text,
    /// Its path below the root of its tree.
    pub file: Text,
}

/// Why the packages of a tree are refused.
#[derive(Debug, Drop, Error)]
pub enum UnitError {
    /// A file is refused.
    #[error("a file is refused")]
    File(FileAt, FileFault),
    /// The package clauses of the files in the folder with this import path have several names.
    #[error("files of several packages in one folder")]
    MixedNames(Text),
    /// At this byte offset a file uses an import of a package that is internal to another tree.
    #[error("import of an internal package")]
    InternalUse(FileAt, u32),
    /// The package with this import path needs itself, directly or through others.
    #[error("import cycle")]
    Cycle(Text),
    #[error("out of memory")]
    NoMemory,
}

impl From<NoMemory> for UnitError {
    ghost use Rattle.std.specs.Prelude.{◌≡◌};
    ghost use Rattle.go_units.specs.declared.unit_error.UnitError.TheVariants.{NoMemory};

    ghost from_gives = { λ _ e. e ≡ NoMemory };

    fn from(_: NoMemory) -> UnitError {
        UnitError::NoMemory
    }
}
