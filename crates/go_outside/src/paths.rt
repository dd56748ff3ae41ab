//! Paths, and the entries that they have in folders.
ghost use Rattle.std.specs.Prelude.{◌≡◌, ◌≤◌, ◌++◌, ◌∷◌, [], IfOk, is_some, option_copied, length};
ghost use Rattle.std.specs.List.{prefix_len};
ghost use Rattle.go_outside.specs.Paths.{within, entry_of, entry_of_rest, entry_at, not_slash};

use crate::files::{Entry, EntryKind};
use go_base::memory::NoMemory;
use go_base::text::Text;
use std::alloc::Global;

// What follows the folder's name and a slash.
pub(crate) fn within<'a>(folder: &[u8], path: &'a [u8]) -> Option<&'a [u8]>
    ensures { option_copied result ≡ within folder.now path.now }
{
    match path.strip_prefix(folder) {
        None => None,
        Some(rest) => rest.strip_prefix(b"/".as_slice()),
    }
}

// The folder's name and a slash begin the path.
pub(crate) fn is_within(folder: &[u8], path: &[u8]) -> bool
    ensures { result ≡ is_some (within folder.now path.now) }
{
    within(folder, path).is_some()
}

// Where the first element of a path ends.
fn element_len(rest: &[u8]) -> usize
    ensures value { result ≡ prefix_len not_slash rest.now }
    ensures fits { result ≤ length rest.now }
{
    rest.iter().take_while(|byte| **byte != b'/').count()
}

fn first_entry(alloc: Global, rest: &[u8]) -> Result<Entry, NoMemory>
    ensures { IfOk result (λ e. e ≡ entry_at rest.now (prefix_len not_slash rest.now)) }
{
    let len = element_len(rest);
    let kind = if len == rest.len() {
        EntryKind::File
    } else {
        EntryKind::Folder
    };
    Ok(Entry {
        name: Text::of(alloc, &rest[..len])?,
        kind,
    })
}

// The entry that a path has in a folder, where it lies in that folder.
pub(crate) fn entry_of(alloc: Global, folder: &[u8], path: &[u8]) -> Result<Option<Entry>, NoMemory>
    ensures { IfOk result (λ o. o ≡ entry_of folder.now path.now) }
{
    match within(folder, path) {
        None => Ok(None),
        Some(rest) => Ok(Some(first_entry(alloc, rest)?)),
    }
}
