//! Binary search in pairs that are sorted by path.
ghost use Rattle.std.specs.Prelude.{◌≡◌, ◌≤◌, ◌++◌, ◌∷◌, [], IfOk, length, option_copied};
ghost use Rattle.std.specs.FinMap as map;
ghost use Rattle.go_outside.specs.MemoryFiles.{contents_of};
ghost use Rattle.go_outside.specs.inner.SortedPairs.{is_before, IsSorted, IsRising, IsFirstFrom};

use super::FilePair;
use go_base::memory::NoMemory;
use std::alloc::Global;
use std::cmp::Ordering;

fn is_before(left: &[u8], right: &[u8]) -> bool
    ensures { result ≡ is_before left.now right.now }
{
    left.cmp(right) == Ordering::Less
}

// The index of the first pair whose path isn't before the key.
pub(super) fn first_from(pairs: &[FilePair], key: &[u8]) -> usize
    requires { IsSorted pairs.now }
    ensures fits { result ≤ length pairs.now }
    ensures point { IsFirstFrom pairs.now key.now result }
{
    pairs.partition_point(|pair| is_before(pair.path.bytes(), key))
}

// The text with one byte more.
pub(super) fn ended(alloc: Global, text: &[u8], end: u8) -> Result<Vec<u8>, NoMemory>
    ensures { IfOk result (λ v. v.items ≡ text.now ++ end ∷ []) }
{
    let mut bytes = Vec::from_slice(alloc, text)?;
    bytes.push(end)?;
    Ok(bytes)
}

// The bytes at a path.
pub(super) fn held<'a>(pairs: &'a [FilePair], path: &[u8]) -> Option<&'a [u8]>
    requires { IsRising pairs.now }
    ensures { option_copied result ≡ map.get (contents_of pairs.now) path.now }
{
    let at = first_from(pairs, path);
    if at >= pairs.len() {
        return None;
    }
    let pair = &pairs[at];
    if pair.path.bytes() == path {
        return Some(pair.bytes.bytes());
    }
    None
}
