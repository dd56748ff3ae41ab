//! Places in files, as fault lines print them.
ghost use Rattle.std.specs.Prelude.{◌≡◌, ◌+◌, ◌<◌, ◌≤◌, ◌∷◌, ◌++◌, OnOk, bytes_eq, length, nat_eq, take, true};
ghost use Rattle.std.specs.List.{starts_with};
ghost use Rattle.go_load.specs.Names.{under};
ghost use Rattle.api_refusals.specs.Places.{bytes_at, file_path, is_newline, place_text};
ghost use Rattle.api_refusals.specs.inner.Counts.{Counts};

use go_base::memory::NoMemory;
use go_model::files::tree::TreeFile;
use itoa::Buffer;

/// What is counted of the bytes before an offset.
#[derive(Clone, Copy, Debug, PartialEq, Eq)]
pub(crate) struct Count {
    pub(crate) offset: usize,
    pub(crate) newlines: usize,
    /// The bytes behind the last newline.
    pub(crate) tail: usize,
}

fn is_newline(byte: u8) -> bool
    ensures { result ≡ is_newline byte }
{
    byte == b'\n'
}

/// The count before the first byte.
pub(crate) fn nothing(bytes: &[u8]) -> Count
    ensures counts { Counts bytes.now result }
    ensures at { result.offset ≡ 0 }
{
    Count {
        offset: 0,
        newlines: 0,
        tail: 0,
    }
}

// One byte more.
fn next(bytes: &[u8], count: Count) -> Count
    requires counts { Counts bytes.now count }
    requires within { count.offset < length bytes.now }
    ensures counts { Counts bytes.now result }
    ensures at { result.offset ≡ count.offset + 1 }
{
    if is_newline(bytes[count.offset]) {
        Count {
            offset: count.offset + 1,
            newlines: count.newlines + 1,
            tail: 0,
        }
    } else {
        Count {
            offset: count.offset + 1,
            newlines: count.newlines,
            tail: count.tail + 1,
        }
    }
}

/// The count at an offset, or at the end of shorter bytes, from one that is known: on from there where it comes before.
pub(crate) fn count_to(bytes: &[u8], from: Count, offset: usize) -> Count
    requires counts { Counts bytes.now from }
    ensures counts { Counts bytes.now result }
    ensures at { take result.offset bytes.now ≡ take offset bytes.now }
{
    let end = offset.min(bytes.len());
    let mut count = if from.offset <= end {
        from
    } else {
        nothing(bytes)
    };
    while count.offset < end {
        count = next(bytes, count);
    }
    count
}

/// Appends `:LINE:COLUMN` of an offset, to which is counted.
pub(crate) fn push_counted(
    text: &mut Vec<u8>,
    bytes: &[u8],
    offset: u32,
    count: Count,
) -> Result<(), NoMemory>
    requires counts { Counts bytes.now count }
    requires at { take count.offset bytes.now ≡ take offset bytes.now }
    ensures { OnOk result (text.new.items ≡ text.old.items ++ place_text bytes.now offset) }
{
    let line = 1 + count.newlines as u128;
    let column = 1 + count.tail as u128;
    let mut buffer = Buffer::new();
    text.extend_from_slice(b":")?;
    text.extend_from_slice(buffer.format(line).as_bytes())?;
    text.extend_from_slice(b":")?;
    text.extend_from_slice(buffer.format(column).as_bytes())?;
    Ok(())
}

/// Appends `:LINE:COLUMN` of an offset.
pub(crate) fn push_place(text: &mut Vec<u8>, bytes: &[u8], offset: u32) -> Result<(), NoMemory>
    ensures { OnOk result (text.new.items ≡ text.old.items ++ place_text bytes.now offset) }
{
    let count = count_to(bytes, nothing(bytes), offset as usize);
    push_counted(text, bytes, offset, count)
}

fn begins_with(path: &[u8], front: &[u8]) -> bool
    ensures value { result ≡ starts_with nat_eq path.now front.now }
    ensures bound { result ≡ true → length front.now ≤ length path.now }
{
    path.starts_with(front)
}

fn is_behind_slash(name: &[u8], rest: &[u8]) -> bool
    ensures { result ≡ bytes_eq (47 ∷ name.now) rest.now }
{
    match rest.split_first() {
        None => false,
        Some((first, own)) => b'/' == *first && name == own,
    }
}

// Whether a path is that of a name in a folder other than the root.
fn is_below(folder: &[u8], name: &[u8], path: &[u8]) -> bool
    ensures { result ≡ bytes_eq (folder.now ++ 47 ∷ name.now) path.now }
{
    if !begins_with(path, folder) {
        return false;
    }
    is_behind_slash(name, &path[folder.len()..])
}

#[tactic(auto, using(crate::proofs::PathFronts::in_root, crate::proofs::PathFronts::in_folder))]
fn is_under(folder: &[u8], name: &[u8], path: &[u8]) -> bool
    ensures { result ≡ bytes_eq (under folder.now name.now) path.now }
{
    if folder.is_empty() {
        return name == path;
    }
    is_below(folder, name, path)
}

fn is_at(file: &TreeFile, path: &[u8]) -> bool
    ensures { result ≡ bytes_eq (file_path file.now) path.now }
{
    is_under(file.folder.bytes(), file.name.bytes(), path)
}

/// The bytes of the first of some files with a path below the root of their tree, and none where there is no such file.
pub(crate) fn bytes_at<'a>(files: &'a [TreeFile], path: &[u8]) -> &'a [u8]
    ensures { result.now ≡ bytes_at files.now path.now }
{
    for file in files {
        if is_at(file, path) {
            return file.bytes.bytes();
        }
    }
    b""
}
