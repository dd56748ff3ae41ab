//! What reads the files of a folder.
ghost use Rattle.std.specs.Prelude.{◌<◌, ℕ, List, length, IfOk};
ghost use Rattle.go_imports.specs.declared.package_files.SourceFile.{SourceFile};
ghost use Rattle.go_units.specs.declared.reader.Reading.{Reading};
ghost use Rattle.go_units.specs.declared.reader.Reading.TheVariants.{Files};

use go_base::list::List;
use go_base::memory::NoMemory;
use go_base::text::Text;
use go_imports::package_files::SourceFile;
use std::alloc::Global;

/// Why a file is refused.
#[derive(Clone, Copy, Debug, PartialEq, Eq)]
pub enum FileFault {
    /// Its header has one build line, whose expression isn't in the grammar.
    BadExpression,
    /// Its header has two build lines or more.
    Twice,
    /// Its header has a `+build` line and no build line.
    PlusBuild,
    /// At this byte offset stands no token.
    BadToken(u32),
    /// It has tokens, and they aren't in the grammar.
    Syntax,
}

/// What the files of a folder give.
#[derive(Drop)]
pub enum Reading {
    /// The files that the platform chooses, by their names.
    Files(List<SourceFile>),
    /// The path of the first file that is refused, below the root of its tree, and why.
    Refused(Text, FileFault),
}

/// What reads the files of numbered folders.
pub trait FolderReader {
    /// Whether the folder of a number may give a reading.
    ghost gives: { Self → ℕ → Reading → Type 0 };

    /// Reads the folder of a number.
    fn read(&self, alloc: Global, folder: usize) -> Result<Reading, NoMemory>
        ensures { IfOk result (gives self.now folder) };

    /// A folder has few files.
    ghost few: { (reader : Self) (n : ℕ) (files : List SourceFile) → gives reader n (Files files) → length files < 4294967296 };
}
