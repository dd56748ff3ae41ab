//! A store that fails at some calls.
ghost use Rattle.std.specs.Prelude.{◌≡◌, ◌≢◌, ◌↔◌, ◌≤◌, Some, Err, true, length, IfOk};
ghost use Rattle.std.specs.FinMap as map;
ghost use Rattle.go_outside.specs.Stores.{AnswersList, AnswersRead, FilesCause};
ghost use Rattle.go_outside.specs.Failing.{fails_next, called};

use crate::call_numbers::count_call;
use crate::files::{Entry, Files, FilesError};
use crate::memory_files::MemoryFiles;
use go_base::list::List;
use go_base::text::Text;
use std::alloc::Global;
use std::marker::Model;

/// A store in memory that fails exactly the calls whose numbers, from 1, it was given. Calls of
/// both kinds are numbered together.
#[derive(Debug, Drop)]
pub struct FailingFiles {
    files: MemoryFiles,
    fail: List<u64>,
    calls: u64,
    faults: u64,
}

impl Model for FailingFiles {
    ghost use Rattle.go_outside.specs.Failing.{Store, store_code};

    ghost Value = { Store };

    ghost coded = { store_code };

    ghost view = { λ s. record { contents = s.files; fail = s.fail; calls = s.calls; faults = s.faults } };
}

impl FailingFiles {
    /// A store that fails at the calls of these numbers. A number that stands twice, or is 0, does
    /// no harm.
    pub fn new(files: MemoryFiles, fail: List<u64>) -> FailingFiles
        ensures { result ≡ record { contents = files; fail = fail; calls = 0; faults = 0 } }
    {
        FailingFiles {
            files,
            fail,
            calls: 0,
            faults: 0,
        }
    }

    // Counts a call, and its fault where it fails.
    fn fails(&mut self) -> bool
        ensures fails { result ≡ fails_next self.old.fail self.old.calls }
        ensures after { self.new ≡ called self.old }
    {
        let fails = count_call(self.fail.items(), &mut self.calls);
        if fails {
            self.faults = self.faults.saturating_add(1);
        }
        fails
    }
}

impl Files for FailingFiles {
    ghost told = { λ s. Some s.contents };

    ghost faults = { λ s. s.faults };

    fn list(&mut self, alloc: Global, folder: &[u8]) -> Result<List<Entry>, FilesError>
        ensures same { Some self.new.contents ≡ Some self.old.contents }
        ensures entries { AnswersList self.old.contents folder.now result }
        ensures never { result ≢ Err FilesError.TooLarge }
        ensures cause { FilesCause self.old.faults self.new.faults result }
        ensures exact { (result ≡ Err FilesError.Failed) ↔ (fails_next self.old.fail self.old.calls ≡ true) }
        ensures after { self.new ≡ called self.old }
    {
        if self.fails() {
            return Err(FilesError::Failed);
        }
        self.files.list(alloc, folder)
    }

    fn read(&mut self, alloc: Global, path: &[u8], limit: u64) -> Result<Text, FilesError>
        ensures same { Some self.new.contents ≡ Some self.old.contents }
        ensures bytes { AnswersRead (map.get self.old.contents path.now) limit result }
        ensures limit { IfOk result (λ text. length text ≤ limit) }
        ensures cause { FilesCause self.old.faults self.new.faults result }
        ensures exact { (result ≡ Err FilesError.Failed) ↔ (fails_next self.old.fail self.old.calls ≡ true) }
        ensures after { self.new ≡ called self.old }
    {
        if self.fails() {
            return Err(FilesError::Failed);
        }
        self.files.read(alloc, path, limit)
    }
}
