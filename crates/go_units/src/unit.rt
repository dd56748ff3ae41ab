//! Packages as they are typed: their files with the imports that these use.
ghost use Rattle.std.specs.Prelude.{◌≡◌, ◌<◌, length};
ghost use Rattle.go_units.specs.UnitFacts.{UnitFilesAreNamed, needed_by};

use go_base::list::List;
use go_base::text::Text;
use go_imports::outline::Outline;

/// An import that a file uses.
#[derive(Debug, Drop)]
pub struct UsedImport {
    /// The qualifier that names it.
    pub name: Text,
    pub path: Text,
    /// Whether its path names a package.
    pub found: bool,
    /// The byte offset of its path's first quote.
    pub place: u32,
}

/// A file of a package.
#[derive(Drop)]
pub struct UnitFile {
    /// Its path below the root of its tree.
    pub path: Text,
    pub outline: Outline,
    /// The imports that it uses, in the order of their places.
    pub imports: List<UsedImport>,
}

/// A package. One of a module or of the standard library has a file, as `Units` tells; a client's may have none on a
/// platform.
#[derive(Drop)]
pub struct Unit {
    /// Its import path.
    pub path: Text,
    /// The name in its package clauses.
    pub name: Text,
    /// Whether it stands in the standard library's tree.
    pub from_std: bool,
    /// Its files by their names.
    pub files: List<UnitFile>,
    /// The paths of the found imports that it uses, each once, in the order of bytes.
    pub needs: List<Text>,
    pub ghost few: { length files < 4294967296 },
    pub ghost named: { UnitFilesAreNamed files name },
    pub ghost needed: { needs ≡ needed_by files },
}
