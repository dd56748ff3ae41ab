//! Trees of Go files as they were read, and the limits that a tree keeps.
use go_base::list::List;
use go_base::text::Text;

/// A limit on what is read of one tree.
#[derive(Clone, Copy, Debug, PartialEq, Eq)]
pub enum LimitName {
    /// The bytes of one file.
    FileBytes,
    /// The candidate files.
    Files,
    /// The bytes of all candidate files together.
    Bytes,
    /// The folders with a candidate file.
    Packages,
    /// The folders that are listed.
    Folders,
}

/// The most bytes that `go.mod` and each candidate file may have.
pub const MOST_FILE_BYTES: u64 = 4_194_304;

/// The most candidate files of a tree.
pub const MOST_FILES: u64 = 20_000;

/// The most bytes that the candidate files of a tree may have together.
pub const MOST_BYTES: u64 = 67_108_864;

/// The most folders of a tree that hold a candidate file.
pub const MOST_PACKAGES: u64 = 4_096;

/// The most folders of a tree that are listed.
pub const MOST_FOLDERS: u64 = 65_536;

/// A file of a tree.
#[derive(Debug, Drop)]
pub struct TreeFile {
    /// The path of its folder below the root of the tree: empty for the root itself, else elements
    /// joined by `/`.
    pub folder: Text,
    /// Its name in the folder.
    pub name: Text,
    /// What it holds: at most [`MOST_FILE_BYTES`]. An outline of the file owns it too.
    pub bytes: Text,
}

/// A tree of Go files, ordered by folder and then by name.
#[derive(Debug, Drop)]
pub struct Tree {
    /// The path of the module, or nothing where the tree isn't that of a module.
    pub module: Text,
    /// The candidate files: at most [`MOST_FILES`].
    pub files: List<TreeFile>,
}
