//! The store and the sinks of a run, which count what they are asked.
ghost use Rattle.std.specs.Prelude.{None};

use go_base::list::List;
use go_base::text::Text;
use go_outside::failing_files::FailingFiles;
use go_outside::failing_sink::FailingSink;
use go_outside::files::{Entry, Files, FilesError};
use go_outside::sink::{Sink, SinkError};
use std::alloc::Global;

/// A store in memory that counts its calls and its faults. It tells a contract nothing.
#[derive(Drop)]
pub struct CountedFiles {
    files: FailingFiles,
    calls: u64,
    faults: u64,
}

impl CountedFiles {
    /// A store that wasn't called yet.
    pub fn new(files: FailingFiles) -> CountedFiles {
        CountedFiles {
            files,
            calls: 0,
            faults: 0,
        }
    }

    /// How often it was called.
    pub fn calls(&self) -> u64 {
        self.calls
    }

    /// How often it failed.
    pub fn faults(&self) -> u64 {
        self.faults
    }

    fn count_call(&mut self) {
        self.calls = self.calls.saturating_add(1);
    }

    fn count_fault(&mut self) {
        self.faults = self.faults.saturating_add(1);
    }
}

impl Files for CountedFiles {
    ghost told = { λ _. None };

    ghost faults = { λ _. 18446744073709551615 };

    fn list(&mut self, alloc: Global, folder: &[u8]) -> Result<List<Entry>, FilesError> {
        self.count_call();
        match self.files.list(alloc, folder) {
            Err(FilesError::Failed) => {
                self.count_fault();
                Err(FilesError::Failed)
            }
            answer => answer,
        }
    }

    fn read(&mut self, alloc: Global, path: &[u8], limit: u64) -> Result<Text, FilesError> {
        self.count_call();
        match self.files.read(alloc, path, limit) {
            Err(FilesError::Failed) => {
                self.count_fault();
                Err(FilesError::Failed)
            }
            answer => answer,
        }
    }
}

/// A sink in memory that keeps the sizes of the pieces that it was given, and counts its faults. It
/// tells a contract nothing.
#[derive(Drop)]
pub struct CountedSink {
    sink: FailingSink,
    pieces: List<u64>,
    faults: u64,
}

impl CountedSink {
    /// A sink that wasn't written to yet.
    pub fn new(alloc: Global, sink: FailingSink) -> CountedSink {
        CountedSink {
            sink,
            pieces: List::new(alloc),
            faults: 0,
        }
    }

    /// The bytes taken.
    pub fn bytes(&self) -> &[u8] {
        self.sink.bytes()
    }

    /// The sizes of the pieces that it was given, with those that failed.
    pub fn pieces(&self) -> &[u64] {
        self.pieces.items()
    }

    /// How often it failed.
    pub fn faults(&self) -> u64 {
        self.faults
    }
}

impl Sink for CountedSink {
    ghost told = { λ _. None };

    ghost faults = { λ _. 18446744073709551615 };

    fn write(&mut self, piece: &[u8]) -> Result<(), SinkError> {
        if let Err(_) = self.pieces.push(piece.len() as u64) {
            return Err(SinkError::Failed);
        }
        if let Err(error) = self.sink.write(piece) {
            self.faults = self.faults.saturating_add(1);
            return Err(error);
        }
        Ok(())
    }
}
