//! Reading the folders of trees.
ghost use Rattle.std.specs.Prelude.{◌≡◌, ◌<◌, ◌≤◌, ℕ, [], List as Sequence, length, get_or};
ghost use Rattle.go_base.specs.Lists.{Has};
ghost use Rattle.go_reading.specs.declared.heads.HeadedFile.{HeadedFile};

use crate::heads::HeadedFile;
use crate::known::KnownOutlines;
use crate::sources::read_files;
use go_base::list::List;
use go_base::memory::NoMemory;
use go_units::reader::{FolderReader, Reading};
use std::alloc::Global;

/// The files of each folder, by its number, and the outlines that are known of them.
#[derive(Drop)]
pub struct TreeReader<'a> {
    pub contents: List<List<HeadedFile<'a>>>,
    pub known: &'a KnownOutlines,
    pub ghost small: { (n : ℕ) (h : HeadedFile) → Has (get_or contents n []) h → length h.file.now.bytes ≤ 4194304 },
    pub ghost few: { (n : ℕ) → length (get_or contents n []) < 4294967296 },
}

impl<'a> FolderReader for TreeReader<'a> {
    ghost use Rattle.go_reading.specs.inner.Heads.{GivesHeaded, IsHeadedReading};
    ghost use Rattle.go_units.proofs.Giving.{gives_fewer};
    ghost use Rattle.std.proofs.Math.Nat.{lt_of_le_of_lt};

    ghost gives = { λ reader n r. IsHeadedReading (get_or reader.contents n []) r };

    fn read(&self, alloc: Global, folder: usize) -> Result<Reading, NoMemory> {
        match self.contents.items().get(folder) {
            None => read_files(alloc, self.known, &[]),
            Some(files) => read_files(alloc, self.known, files.items()),
        }
    }

    ghost few = { λ reader n files g. lt_of_le_of_lt (gives_fewer GivesHeaded g) (reader.few n) };
}
