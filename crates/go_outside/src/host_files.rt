//! The real folder as a store.
ghost use Rattle.std.specs.Prelude.{◌≡◌, ◌≢◌, ◌≤◌, ℕ, None, Err, length, IfOk, IfSome};
ghost use Rattle.go_outside.specs.Faults.{one_more};

use crate::files::{Entry, EntryKind, Files, FilesError};
use go_base::list::List;
use go_base::text::Text;
use std::alloc::Global;
use std::fs::{DirEntry, File};
use std::io::{ErrorKind, Read};
use std::marker::Model;
use std::rt::Runtime;
use std::{fs, io};

/// The most entries of one folder.
const ENTRIES: usize = 1_048_576;

/// The most bytes of one read.
const BLOCK: usize = 16_384;

/// The files that a runtime reaches. It tells nothing: a contract sees its count of faults alone.
#[derive(Drop)]
pub struct HostFiles<'a, R> {
    rt: &'a R,
    faults: u64,
    block: [u8; BLOCK],
}

impl<'a, R> Model for HostFiles<'a, R> {
    ghost Value = { ℕ };

    ghost view = { λ s. s.faults };
}

// Why the runtime has no file or folder.
fn cause_of(error: io::Error) -> FilesError
    ensures { result ≢ FilesError.TooLarge }
{
    match error.kind() {
        ErrorKind::NotFound | ErrorKind::NotADirectory | ErrorKind::IsADirectory => {
            FilesError::Missing
        }
        ErrorKind::OutOfMemory => FilesError::NoMemory,
        _ => FilesError::Failed,
    }
}

// Why an entry that a folder has can't be told.
fn fault_of(error: io::Error) -> FilesError
    ensures { result ≢ FilesError.TooLarge }
{
    match error.kind() {
        ErrorKind::OutOfMemory => FilesError::NoMemory,
        _ => FilesError::Failed,
    }
}

// The entry itself, no target of a link.
fn kind_of<R: Runtime + AllocGlobal>(entry: &DirEntry<R, Global>) -> io::Result<EntryKind> {
    let kind = entry.file_type()?;
    if kind.is_file() {
        Ok(EntryKind::File)
    } else if kind.is_dir() {
        Ok(EntryKind::Folder)
    } else {
        Ok(EntryKind::Other)
    }
}

fn entry_of<R: Runtime + AllocGlobal>(
    alloc: Global,
    found: io::Result<DirEntry<R, Global>>,
) -> Result<Entry, FilesError>
    ensures { result ≢ Err FilesError.TooLarge }
{
    let entry = match found {
        Ok(entry) => entry,
        Err(error) => return Err(fault_of(error)),
    };
    let kind = match kind_of(&entry) {
        Ok(kind) => kind,
        Err(error) => return Err(fault_of(error)),
    };
    match Text::of(alloc, entry.file_name().as_bytes()) {
        Ok(name) => Ok(Entry { name, kind }),
        Err(_) => Err(FilesError::NoMemory),
    }
}

fn list<R: Runtime + AllocGlobal>(
    alloc: Global,
    rt: &R,
    path: &str,
) -> Result<List<Entry>, FilesError>
    ensures { result ≢ Err FilesError.TooLarge }
{
    let folder = match fs::read_dir(rt, path) {
        Ok(folder) => folder,
        Err(error) => return Err(cause_of(error)),
    };
    let mut entries = List::new(alloc);
    for found in folder {
        if entries.items().len() >= ENTRIES {
            return Err(FilesError::Failed);
        }
        let entry = match entry_of(alloc, found) {
            Ok(entry) => entry,
            Err(error) => return Err(error),
        };
        if let Err(_) = entries.push(entry) {
            return Err(FilesError::NoMemory);
        }
    }
    Ok(entries)
}

// The bytes that a reader has left. Each read is into the same block, since std's `read_to_end` fills
// with zeros, byte by byte, what it then reads into.
fn read_all<R: Read>(alloc: Global, reader: &mut R, block: &mut [u8; BLOCK]) -> io::Result<Vec<u8>>
    ensures { IfOk result (λ bytes. IfSome (R.remaining reader.old) (λ left. bytes.items ≡ left)) }
{
    let mut bytes = Vec::new(alloc);
    for _ in 0..u64::MAX {
        match reader.read(block) {
            Ok(0) => return Ok(bytes),
            Ok(count) => bytes.extend_from_slice(&block[..count])?,
            Err(error) => {
                if error.kind() != ErrorKind::Interrupted {
                    return Err(error);
                }
            }
        }
    }
    Err(io::Error::from(ErrorKind::TimedOut))
}

// The bytes of an open file, one more than the limit at most.
fn read_most<F: Read + Drop>(
    alloc: Global,
    file: F,
    limit: u64,
    block: &mut [u8; BLOCK],
) -> io::Result<Vec<u8>> {
    read_all(alloc, &mut file.take(limit.saturating_add(1)), block)
}

fn read<R: Runtime + AllocGlobal>(
    alloc: Global,
    rt: &R,
    path: &str,
    limit: u64,
    block: &mut [u8; BLOCK],
) -> Result<Text, FilesError>
    ensures limit { IfOk result (λ text. length text ≤ limit) }
{
    let file = match File::open(rt, path) {
        Ok(file) => file,
        Err(error) => return Err(cause_of(error)),
    };
    match read_most(alloc, file, limit, block) {
        Err(error) => Err(cause_of(error)),
        Ok(bytes) => {
            if bytes.len() as u64 > limit {
                return Err(FilesError::TooLarge);
            }
            match Text::from_vec(alloc, bytes) {
                Ok(text) => Ok(text),
                Err(_) => Err(FilesError::NoMemory),
            }
        }
    }
}

impl<'a, R: Runtime + AllocGlobal> HostFiles<'a, R> {
    /// The files of this runtime. A path that is relative is so to the folder that the program
    /// was started in.
    pub fn new(rt: &'a R) -> HostFiles<'a, R>
        ensures { result ≡ 0 }
    {
        HostFiles {
            rt,
            faults: 0,
            block: [0; BLOCK],
        }
    }

    // Counts the fault, where the error is one.
    fn counted(&mut self, error: FilesError) -> FilesError
        ensures same { result ≡ error }
        ensures rose { result ≡ FilesError.Failed → self.new ≡ one_more self.old }
        ensures still { result ≢ FilesError.Failed → self.new ≡ self.old }
    {
        if error == FilesError::Failed {
            self.faults = self.faults.saturating_add(1);
        }
        error
    }
}

impl<'a, R: Runtime + AllocGlobal> Files for HostFiles<'a, R> {
    ghost told = { λ _. None };

    ghost faults = { λ s. s };

    fn list(&mut self, alloc: Global, folder: &[u8]) -> Result<List<Entry>, FilesError> {
        let Ok(path) = str::from_utf8(folder) else {
            return Err(self.counted(FilesError::Failed));
        };
        match list(alloc, self.rt, path) {
            Ok(entries) => Ok(entries),
            Err(error) => Err(self.counted(error)),
        }
    }

    fn read(&mut self, alloc: Global, path: &[u8], limit: u64) -> Result<Text, FilesError> {
        let Ok(path) = str::from_utf8(path) else {
            return Err(self.counted(FilesError::Failed));
        };
        match read(alloc, self.rt, path, limit, &mut self.block) {
            Ok(text) => Ok(text),
            Err(error) => Err(self.counted(error)),
        }
    }
}
