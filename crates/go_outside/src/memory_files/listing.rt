//! The entries of a folder, of pairs that are sorted by path.
ghost use Rattle.std.specs.Prelude.{◌≡◌, ◌≢◌, ◌<◌, ◌++◌, ◌∷◌, [], Some, Err, IfOk, length};
ghost use Rattle.go_outside.specs.MemoryFiles.{contents_of};
ghost use Rattle.go_outside.specs.Paths.{entry_of};
ghost use Rattle.go_outside.specs.Stores.{AnswersList};
ghost use Rattle.go_outside.specs.inner.SortedPairs.{path_at, IsRising, IsPast, IsListingBelow};

use super::FilePair;
use super::search::{ended, first_from};
use crate::files::{Entry, EntryKind, FilesError};
use crate::paths::entry_of;
use go_base::list::List;
use go_base::memory::NoMemory;
use std::alloc::Global;

// A key that comes after all that lies in the entry of a folder, and before all that follows it:
// the byte after a slash ends it.
fn past_key(alloc: Global, prefix: &[u8], name: &[u8]) -> Result<Vec<u8>, NoMemory>
    ensures { IfOk result (λ v. v.items ≡ (prefix.now ++ name.now) ++ 48 ∷ []) }
{
    let mut key = Vec::from_slice(alloc, prefix)?;
    key.extend_from_slice(name)?;
    key.push(b'0')?;
    Ok(key)
}

// The index past the pairs of this entry, the first of which stands at the index given.
fn past(
    alloc: Global,
    pairs: &[FilePair],
    folder: &[u8],
    at: usize,
    entry: &Entry,
) -> Result<usize, NoMemory>
    requires rising { IsRising pairs.now }
    requires inside { at < length pairs.now }
    requires first { (d : FilePair) → entry_of folder.now (path_at pairs.now at d) ≡ Some entry.now }
    ensures { IfOk result (IsPast pairs.now folder.now at entry.now) }
{
    match entry.kind {
        EntryKind::File => Ok(at + 1),
        _ => {
            let prefix = ended(alloc, folder, b'/')?;
            let key = past_key(alloc, &prefix, entry.name.bytes())?;
            Ok(first_from(pairs, &key))
        }
    }
}

// The entries of a folder: none where no path lies in it.
fn entries(alloc: Global, pairs: &[FilePair], folder: &[u8]) -> Result<List<Entry>, NoMemory>
    requires { IsRising pairs.now }
    ensures { IfOk result (IsListingBelow pairs.now (length pairs.now) folder.now) }
{
    let mut entries = List::new(alloc);
    let prefix = ended(alloc, folder, b'/')?;
    let mut at = first_from(pairs, &prefix);
    while at < pairs.len() {
        let Some(entry) = entry_of(alloc, folder, pairs[at].path.bytes())? else {
            return Ok(entries);
        };
        at = past(alloc, pairs, folder, at, &entry)?;
        entries.push(entry)?;
    }
    Ok(entries)
}

// The entries of a folder, which is missing where no path lies in it.
pub(super) fn list(
    alloc: Global,
    pairs: &[FilePair],
    folder: &[u8],
) -> Result<List<Entry>, FilesError>
    requires { IsRising pairs.now }
    ensures entries { AnswersList (contents_of pairs.now) folder.now result }
    ensures never_fails { result ≢ Err FilesError.Failed }
    ensures never_larger { result ≢ Err FilesError.TooLarge }
{
    let entries = entries(alloc, pairs, folder)?;
    if entries.items().is_empty() {
        return Err(FilesError::Missing);
    }
    Ok(entries)
}
