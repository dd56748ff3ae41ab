//! The one store over which the tests run the gate, so that the gate is compiled once for all of them. It tells nothing.
ghost use Rattle.std.specs.Prelude.{None, ◌≤◌, IfOk, length};
ghost use Rattle.go_outside.specs.Stores.{FilesCause};

use go_base::list::List;
use go_base::memory::NoMemory;
use go_base::text::Text;
use go_outside::files::{Entry, EntryKind, Files, FilesError};
use go_outside::memory_files::{FilePair, MemoryFiles};
use std::alloc::Global;
use std::test::Fail;

/// How a store answers.
#[derive(Clone, Copy)]
pub enum Habit {
    /// It has some files.
    Plain,
    /// Everything is missing.
    Silent,
    /// It always fails, and its count of faults stands at the last value of its type.
    Spent,
    /// Each folder holds another one, and the first one a `go.mod`.
    Endless,
    /// It gives names twice, with `/` and empty, and perhaps lists what it then hasn't.
    Odd { file_gone: bool, folder_gone: bool },
}

/// A store that tells nothing.
#[derive(Drop)]
pub struct Store {
    habit: Habit,
    // How often it has failed.
    count: u64,
    files: MemoryFiles,
}

// The bytes that were asked for, within the limit.
fn within(alloc: Global, bytes: &[u8], limit: u64) -> Result<Text, FilesError>
    ensures limit { IfOk result (λ text. length text ≤ limit) }
    ensures cause { FilesCause 0 0 result }
{
    let text = Text::of(alloc, bytes)?;
    if text.bytes().len() as u64 > limit {
        return Err(FilesError::TooLarge);
    }
    Ok(text)
}

fn entry(alloc: Global, name: &[u8], kind: EntryKind) -> Result<Entry, NoMemory> {
    Ok(Entry {
        name: Text::of(alloc, name)?,
        kind,
    })
}

fn endless(alloc: Global, folder: &[u8]) -> Result<List<Entry>, NoMemory> {
    let mut entries = List::new(alloc);
    if folder == b"new".as_slice() {
        entries.push(entry(alloc, b"go.mod", EntryKind::File)?)?;
    }
    entries.push(entry(alloc, b"d", EntryKind::Folder)?)?;
    Ok(entries)
}

fn odd(alloc: Global, folder: &[u8]) -> Result<List<Entry>, NoMemory> {
    let mut entries = List::new(alloc);
    if folder != b"new".as_slice() {
        return Ok(entries);
    }
    let rows = [
        (b"d".as_slice(), EntryKind::Folder),
        (b"x.go", EntryKind::Folder),
        (b"go.mod", EntryKind::File),
        (b"x.go", EntryKind::File),
        (b"d/y.go", EntryKind::File),
        (b"d/e", EntryKind::Folder),
        (b"", EntryKind::Folder),
        (b"x.go", EntryKind::File),
        (b"d", EntryKind::Folder),
        (b"d", EntryKind::Other),
        (b"y.go", EntryKind::Other),
    ];
    for (name, kind) in rows {
        entries.push(entry(alloc, name, kind)?)?;
    }
    Ok(entries)
}

impl Store {
    /// A store that answers so.
    pub fn new(alloc: Global, habit: Habit) -> Result<Store, Fail> {
        let count = match habit {
            Habit::Spent => u64::MAX,
            _ => 0,
        };
        Ok(Store {
            habit,
            count,
            files: MemoryFiles::new(alloc, List::new(alloc))?,
        })
    }

    /// A store with these files.
    pub fn of(alloc: Global, pairs: List<FilePair>) -> Result<Store, Fail> {
        Ok(Store {
            habit: Habit::Plain,
            count: 0,
            files: MemoryFiles::new(alloc, pairs)?,
        })
    }
}

impl Files for Store {
    ghost told = { λ _. None };

    ghost faults = { λ s. s.count };

    fn list(&mut self, alloc: Global, folder: &[u8]) -> Result<List<Entry>, FilesError> {
        match self.habit {
            Habit::Plain => match self.files.list(alloc, folder) {
                Ok(entries) => Ok(entries),
                Err(FilesError::NoMemory) => Err(FilesError::NoMemory),
                Err(_) => Err(FilesError::Missing),
            },
            Habit::Silent => Err(FilesError::Missing),
            Habit::Spent if self.count == u64::MAX => Err(FilesError::Failed),
            Habit::Spent => Err(FilesError::Missing),
            Habit::Endless => Ok(endless(alloc, folder)?),
            Habit::Odd { folder_gone, .. } => {
                if folder_gone && folder != b"new".as_slice() {
                    return Err(FilesError::Missing);
                }
                Ok(odd(alloc, folder)?)
            }
        }
    }

    fn read(&mut self, alloc: Global, path: &[u8], limit: u64) -> Result<Text, FilesError> {
        match self.habit {
            Habit::Plain => match self.files.read(alloc, path, limit) {
                Ok(text) => Ok(text),
                Err(FilesError::NoMemory) => Err(FilesError::NoMemory),
                Err(FilesError::TooLarge) => Err(FilesError::TooLarge),
                Err(_) => Err(FilesError::Missing),
            },
            Habit::Silent => Err(FilesError::Missing),
            Habit::Spent if self.count == u64::MAX => Err(FilesError::Failed),
            Habit::Spent => Err(FilesError::Missing),
            Habit::Endless => within(alloc, b"module m\n", limit),
            Habit::Odd { file_gone, .. } => {
                if path == b"new/go.mod".as_slice() {
                    return within(alloc, b"module m\n", limit);
                }
                if file_gone {
                    return Err(FilesError::Missing);
                }
                within(alloc, b"package p\nconst X = 5\n", limit)
            }
        }
    }
}
