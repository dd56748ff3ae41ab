//! A store in memory.
ghost use Rattle.std.specs.Prelude.{◌≡◌, ◌≢◌, ◌≤◌, Some, Err, length, IfOk, IfErr, OnOk, IsPermutation};
ghost use Rattle.std.specs.FinMap as map;
ghost use Rattle.go_outside.specs.Stores.{AnswersList, AnswersRead, FilesCause};
ghost use Rattle.go_outside.specs.MemoryFiles.{Tells, IsClear, ClashCause};
ghost use Rattle.go_outside.specs.inner.SortedPairs.{IsSorted};

mod clash;
mod listing;
mod search;

use crate::files::{Entry, Files, FilesError};
use go_base::list::List;
use go_base::memory::NoMemory;
use go_base::text::Text;
use std::alloc::Global;
use std::marker::Model;
use thiserror::Error;

/// A path and its bytes.
#[derive(Debug, Drop)]
pub struct FilePair {
    pub path: Text,
    pub bytes: Text,
}

/// Why pairs are no store.
#[derive(Debug, Drop, Error)]
pub enum MemoryFilesError {
    /// The least path that stands twice, or begins another when a slash follows it.
    #[error("a path clashes with another")]
    Clash(Text),
    #[error("out of memory")]
    NoMemory,
}

impl From<NoMemory> for MemoryFilesError {
    ghost use Rattle.std.specs.Prelude.{◌≡◌};
    ghost use Rattle.go_outside.specs.declared.memory_files.MemoryFilesError.TheVariants as error;

    ghost from_gives = { λ _ e. e ≡ error.NoMemory };

    fn from(_: NoMemory) -> MemoryFilesError {
        MemoryFilesError::NoMemory
    }
}

/// A store in memory, which a contract sees as its contents. It never fails.
#[derive(Debug, Drop)]
pub struct MemoryFiles {
    pairs: Vec<FilePair>,
}

impl Model for MemoryFiles {
    ghost use Rattle.std.specs.Coded.{coded_list, coded_ℕ};
    ghost use Rattle.std.specs.FinMap.{code};
    ghost use Rattle.go_outside.specs.Stores.{Contents};
    ghost use Rattle.go_outside.specs.MemoryFiles.{contents_of};
    ghost use Rattle.go_outside.specs.inner.SortedPairs.{IsRising};

    ghost Value = { Contents };

    ghost coded = { code (coded_list coded_ℕ) (coded_list coded_ℕ) };

    ghost view = { λ s. contents_of s.pairs.items };

    ghost invariant = { λ s. IsRising s.pairs.items };
}

// The pairs in the order of their paths.
fn sorted(pairs: List<FilePair>) -> Result<Vec<FilePair>, NoMemory>
    ensures permutation { IfOk result (λ v. IsPermutation pairs v.items) }
    ensures sorted { IfOk result (λ v. IsSorted v.items) }
{
    let mut sorted = pairs.into_vec();
    sorted.sort_by(|left, right| left.path.cmp(&right.path))?;
    Ok(sorted)
}

impl MemoryFiles {
    /// A store of these files. `Clash` comes exactly where a path stands twice or a path and `/` begin
    /// another, with the least such path; `NoMemory` may come at any time.
    pub fn new(alloc: Global, pairs: List<FilePair>) -> Result<MemoryFiles, MemoryFilesError>
        ensures told { IfOk result (λ store. Tells store pairs) }
        ensures clear { OnOk result (IsClear pairs) }
        ensures clash { IfErr result (ClashCause pairs) }
    {
        let pairs = sorted(pairs)?;
        match clash::first_clash(alloc, &pairs)? {
            None => Ok(MemoryFiles { pairs }),
            Some(at) => Err(MemoryFilesError::Clash(pairs[at].path.copy()?)),
        }
    }
}

impl Files for MemoryFiles {
    ghost told = { λ s. Some s };

    ghost faults = { λ _. 0 };

    fn list(&mut self, alloc: Global, folder: &[u8]) -> Result<List<Entry>, FilesError>
        ensures same { Some self.new ≡ Some self.old }
        ensures entries { AnswersList self.old folder.now result }
        ensures never { result ≢ Err FilesError.TooLarge }
        ensures cause { FilesCause 0 0 result }
        ensures never_fails { result ≢ Err FilesError.Failed }
    {
        listing::list(alloc, &self.pairs, folder)
    }

    fn read(&mut self, alloc: Global, path: &[u8], limit: u64) -> Result<Text, FilesError>
        ensures same { Some self.new ≡ Some self.old }
        ensures bytes { AnswersRead (map.get self.old path.now) limit result }
        ensures limit { IfOk result (λ text. length text ≤ limit) }
        ensures cause { FilesCause 0 0 result }
        ensures never_fails { result ≢ Err FilesError.Failed }
    {
        let Some(bytes) = search::held(&self.pairs, path) else {
            return Err(FilesError::Missing);
        };
        if bytes.len() as u64 > limit {
            return Err(FilesError::TooLarge);
        }
        Ok(Text::of(alloc, bytes)?)
    }
}
