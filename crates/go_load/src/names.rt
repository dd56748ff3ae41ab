//! Which names of entries the walk takes, and the paths of a tree in its store.
ghost use Rattle.std.specs.Prelude.{◌≡◌, ◌<◌, ◌≤◌, ◌↔◌, ◌++◌, [], ◌∷◌, length, nat_eq, not, IsTrue, IfOk, IfSome, IfNone};
ghost use Rattle.std.specs.List.{slice_split, prefix_len, list_all};
ghost use Rattle.go_model.specs.files.Trees.{is_element_byte, begins_element, is_element, are_elements, IsModulePath};
ghost use Rattle.go_load.specs.Names.{is_hidden, is_walked, is_candidate, under, folder_path};

use go_base::memory::NoMemory;
use go_base::text::Text;
use std::alloc::Global;

fn length_before(bytes: &[u8], separator: u8) -> usize
    ensures length { result ≡ prefix_len (λ b. not (nat_eq b separator)) bytes.now }
    ensures within { result ≤ length bytes.now }
{
    bytes.iter().take_while(|byte| **byte != separator).count()
}

/// The bytes before the first separator, and those after it.
pub(crate) fn cut(bytes: &[u8], separator: u8) -> Option<(&[u8], &[u8])>
    ensures none { IfNone result (slice_split (λ b. nat_eq b separator) bytes.now ≡ bytes.now ∷ []) }
    ensures some { IfSome result (λ parts. slice_split (λ b. nat_eq b separator) bytes.now ≡ parts.0.now ∷ slice_split (λ b. nat_eq b separator) parts.1.now) }
    ensures shorter { IfSome result (λ parts. length parts.1.now < length bytes.now) }
{
    let length = length_before(bytes, separator);
    if length == bytes.len() {
        return None;
    }
    let (before, _) = bytes.split_at(length);
    let (_, rest) = bytes.split_at(length + 1);
    Some((before, rest))
}

#[tactic(auto, unfolding(go_model::specs::files::Trees::is_element_byte, go_model::specs::files::Trees::is_within))]
fn is_element_byte(byte: u8) -> bool
    ensures { result ≡ is_element_byte byte }
{
    matches!(byte, b'a'..=b'z' | b'A'..=b'Z' | b'0'..=b'9' | b'-' | b'.' | b'_' | b'~')
}

#[tactic(auto, unfolding(go_model::specs::files::Trees::begins_element))]
fn begins_element(name: &[u8]) -> bool
    ensures { result ≡ begins_element name.now }
{
    !name.is_empty() && !name.starts_with(b"-") && !name.starts_with(b".")
}

fn has_element_bytes(name: &[u8]) -> bool
    ensures { result ≡ list_all is_element_byte name.now }
{
    name.iter().all(|byte| is_element_byte(*byte))
}

/// Whether a name is an element of a path.
#[tactic(auto, unfolding(go_model::specs::files::Trees::is_element))]
fn is_element(name: &[u8]) -> bool
    ensures { result ≡ is_element name.now }
{
    begins_element(name) && has_element_bytes(name)
}

fn are_elements(path: &[u8]) -> bool
    ensures { result ≡ are_elements path.now }
{
    let mut rest = path;
    while let Some((part, more)) = cut(rest, b'/') {
        if !is_element(part) {
            return false;
        }
        rest = more;
    }
    is_element(rest)
}

/// Whether a text is the path of a module.
pub(crate) fn is_module_path(path: &[u8]) -> bool
    ensures { IsTrue result ↔ IsModulePath path.now }
{
    are_elements(path) && path != b"unsafe".as_slice() && path != b"C".as_slice()
}

fn is_hidden(name: &[u8]) -> bool
    ensures { result ≡ is_hidden name.now }
{
    name.starts_with(b".") || name.starts_with(b"_")
}

/// Whether the walk goes into a folder of this name.
pub(crate) fn is_walked(name: &[u8]) -> bool
    ensures { result ≡ is_walked name.now }
{
    is_element(name)
        && !is_hidden(name)
        && name != b"testdata".as_slice()
        && name != b"vendor".as_slice()
}

/// Whether a file of this name is read.
pub(crate) fn is_candidate(name: &[u8]) -> bool
    ensures { result ≡ is_candidate name.now }
{
    name.ends_with(b".go")
        && !name.ends_with(b"_test.go")
        && !is_hidden(name)
        && !name.contains(&b'/')
}

/// Two texts with a `/` between them, by one copy of each.
pub(crate) fn joined(alloc: Global, first: &[u8], second: &[u8]) -> Result<Text, NoMemory>
    ensures { IfOk result (λ text. text ≡ first.now ++ 47 ∷ second.now) }
{
    let mut bytes = Vec::with_capacity(alloc, first.len() + 1 + second.len())?;
    bytes.extend_from_slice(first)?;
    bytes.push(b'/')?;
    bytes.extend_from_slice(second)?;
    Text::from_vec(alloc, bytes)
}

/// The path of an entry of a folder, below the root of the tree.
pub fn under(alloc: Global, folder: &[u8], name: &[u8]) -> Result<Text, NoMemory>
    ensures { IfOk result (λ text. text ≡ under folder.now name.now) }
{
    if folder.is_empty() {
        return Text::of(alloc, name);
    }
    joined(alloc, folder, name)
}

/// The path of a folder below a root, which the empty path names.
pub fn folder_path(alloc: Global, root: &[u8], folder: &[u8]) -> Result<Text, NoMemory>
    ensures { IfOk result (λ text. text ≡ folder_path root.now folder.now) }
{
    if folder.is_empty() {
        return Text::of(alloc, root);
    }
    joined(alloc, root, folder)
}
