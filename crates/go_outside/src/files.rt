//! A store of files.
ghost use Rattle.std.specs.Prelude.{◌≡◌, ◌≢◌, ◌≤◌, ℕ, Option, length, IfOk, Err};
ghost use Rattle.std.specs.FinMap as map;
ghost use Rattle.go_outside.specs.Faults.{Told};
ghost use Rattle.go_outside.specs.Stores.{Contents, AnswersList, AnswersRead, FilesCause};

use go_base::list::List;
use go_base::memory::NoMemory;
use go_base::text::Text;
use std::alloc::Global;
use thiserror::Error;

/// Why a store gave nothing.
#[derive(Clone, Copy, Debug, PartialEq, Eq, Error)]
pub enum FilesError {
    /// Nothing of the kind asked for is at the path.
    #[error("not found")]
    Missing,
    /// The file has more bytes than were asked for.
    #[error("larger than the limit")]
    TooLarge,
    /// The store failed, and its count of faults rose.
    #[error("read fault")]
    Failed,
    #[error("out of memory")]
    NoMemory,
}

impl From<NoMemory> for FilesError {
    ghost use Rattle.std.specs.Prelude.{◌≡◌};
    ghost use Rattle.go_outside.specs.declared.files.FilesError.TheVariants.{NoMemory};

    ghost from_gives = { λ _ e. e ≡ NoMemory };

    fn from(_: NoMemory) -> FilesError {
        FilesError::NoMemory
    }
}

/// What an entry of a folder is.
#[derive(Clone, Copy, Debug, PartialEq, Eq)]
pub enum EntryKind {
    File,
    Folder,
    Other,
}

/// An entry of a folder.
#[derive(Debug, Drop)]
pub struct Entry {
    pub name: Text,
    pub kind: EntryKind,
}

/// A store of files, whose paths are texts of elements joined by `/`.
pub trait Files {
    /// The bytes at each path, where the store tells them.
    ghost told: { Self → Option Contents };

    /// How often it has failed: a count that never falls, and stands still at its last value.
    ghost faults: { Self → ℕ };

    /// The direct entries of a folder, each once, in any order. `Missing` comes, where the store
    /// tells, exactly where no path of it lies in the folder.
    fn list(&mut self, alloc: Global, folder: &[u8]) -> Result<List<Entry>, FilesError>
        ensures same { told self.new ≡ told self.old }
        ensures entries { Told (told self.old) (λ m. AnswersList m folder.now result) }
        ensures never { result ≢ Err FilesError.TooLarge }
        ensures cause { FilesCause (faults self.old) (faults self.new) result };

    /// The bytes of a path, which are at most `limit`. `Missing` and `TooLarge` come, where the
    /// store tells, exactly where it has no such path, or a larger file there.
    fn read(&mut self, alloc: Global, path: &[u8], limit: u64) -> Result<Text, FilesError>
        ensures same { told self.new ≡ told self.old }
        ensures bytes { Told (told self.old) (λ m. AnswersRead (map.get m path.now) limit result) }
        ensures limit { IfOk result (λ text. length text ≤ limit) }
        ensures cause { FilesCause (faults self.old) (faults self.new) result };
}
