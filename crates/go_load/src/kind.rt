//! The kinds of trees, which differ in what the walk takes.
ghost use Rattle.std.specs.Prelude.{◌≡◌};
ghost use Rattle.go_load.specs.Walk.{is_deep, takes_files};

/// A kind of tree.
#[derive(Clone, Copy, Debug, PartialEq, Eq)]
pub enum TreeKind {
    /// A module: its root has a `go.mod`, and a folder below it that has one is another module.
    Module,
    /// Declarations of packages outside the module, each at its import path: the files in its root
    /// are ignored.
    Std,
    /// A client: one folder, whose subfolders are ignored.
    Client,
}

impl TreeKind {
    /// Whether the folders below the root are walked.
    pub(crate) fn is_deep(self) -> bool
        ensures { result ≡ is_deep self }
    {
        match self {
            TreeKind::Module | TreeKind::Std => true,
            TreeKind::Client => false,
        }
    }

    /// Whether the files of a folder are taken.
    pub(crate) fn takes_files(self, folder: &[u8]) -> bool
        ensures { result ≡ takes_files self folder.now }
    {
        match self {
            TreeKind::Module | TreeKind::Client => true,
            TreeKind::Std => !folder.is_empty(),
        }
    }
}
