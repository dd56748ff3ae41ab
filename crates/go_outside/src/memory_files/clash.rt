//! The least path that clashes, of pairs that are sorted by path.
ghost use Rattle.std.specs.Prelude.{◌≡◌, ◌<◌, ◌+◌, true, false, Some, IfOk, length, MatchBool};
ghost use Rattle.go_outside.specs.MemoryFiles.{IsAbove, Clashes};
ghost use Rattle.go_outside.specs.inner.SortedPairs.{path_at, IsSorted, IsClearBelow, IsFirstClash};

use super::FilePair;
use super::search::{ended, first_from};
use crate::paths::is_within;
use go_base::memory::NoMemory;
use std::alloc::Global;

// The pair after this index has the same path.
fn is_repeated(pairs: &[FilePair], at: usize) -> bool
    requires { at < length pairs.now }
    ensures yes { result ≡ true → (at + 1 < length pairs.now) × ((d : FilePair) → path_at pairs.now at d ≡ path_at pairs.now (at + 1) d) }
    ensures no { result ≡ false → at + 1 < length pairs.now → (d : FilePair) → path_at pairs.now at d ≡ path_at pairs.now (at + 1) d → ⊥ }
{
    if at + 1 >= pairs.len() {
        return false;
    }
    pairs[at].path.bytes() == pairs[at + 1].path.bytes()
}

// The path and a slash begin another.
fn is_above(alloc: Global, pairs: &[FilePair], path: &[u8]) -> Result<bool, NoMemory>
    requires { IsSorted pairs.now }
    ensures { IfOk result (λ b. MatchBool b (IsAbove pairs.now path.now) (IsAbove pairs.now path.now → ⊥)) }
{
    let prefix = ended(alloc, path, b'/')?;
    let at = first_from(pairs, &prefix);
    if at >= pairs.len() {
        return Ok(false);
    }
    Ok(is_within(path, pairs[at].path.bytes()))
}

// The path at this index clashes.
fn clashes(alloc: Global, pairs: &[FilePair], at: usize) -> Result<bool, NoMemory>
    requires sorted { IsSorted pairs.now }
    requires inside { at < length pairs.now }
    requires clear { IsClearBelow pairs.now at }
    ensures { IfOk result (λ b. (d : FilePair) → MatchBool b (Clashes pairs.now (path_at pairs.now at d)) (Clashes pairs.now (path_at pairs.now at d) → ⊥)) }
{
    if is_repeated(pairs, at) {
        return Ok(true);
    }
    is_above(alloc, pairs, pairs[at].path.bytes())
}

// The index of the first path that clashes.
pub(super) fn first_clash(alloc: Global, pairs: &[FilePair]) -> Result<Option<usize>, NoMemory>
    requires { IsSorted pairs.now }
    ensures { IfOk result (IsFirstClash pairs.now) }
{
    for at in 0..pairs.len() {
        if clashes(alloc, pairs, at)? {
            return Ok(Some(at));
        }
    }
    Ok(None)
}
