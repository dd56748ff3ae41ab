//! Which calls and writes of a run fail, and how many bytes its sinks take.
use crate::archive::Piece;
use crate::content::{files, section, text};
use crate::counted::{CountedFiles, CountedSink};
use crate::tries::{cut, tries_of};
use anyhow::{anyhow, bail, ensure};
use go_base::list::List;
use go_outside::failing_files::FailingFiles;
use go_outside::failing_sink::FailingSink;
use go_outside::memory_files::{FilePair, MemoryFiles, MemoryFilesError};
use go_outside::memory_sink::MemorySink;
use std::alloc::Global;

/// The most bytes that a sink takes where a case says nothing else.
const CAPACITY: u64 = 1_048_576;

/// A call or a write that fails besides those that the case names, or how many first bytes the file
/// that is cut has.
#[derive(Clone, Copy, Debug)]
pub enum Trial {
    Plain,
    Call(u64),
    OutputWrite(u64),
    ErrorWrite(u64),
    Prefix(u64),
}

/// The numbers, from 1, of the calls and writes that fail, and which are tried in turn.
#[derive(Drop)]
pub struct Failing {
    calls: List<u64>,
    output_writes: List<u64>,
    error_writes: List<u64>,
    /// Each call is to fail in a run of its own.
    pub tries_calls: bool,
    /// Each write to the output is.
    pub tries_output_writes: bool,
    /// Each write to the error output is.
    pub tries_error_writes: bool,
}

fn number(digits: &str) -> anyhow::Result<u64> {
    match digits.parse::<u64>() {
        Ok(number) => Ok(number),
        Err(_) => bail!("no number: {digits}"),
    }
}

impl Failing {
    fn new(alloc: Global) -> Failing {
        Failing {
            calls: List::new(alloc),
            output_writes: List::new(alloc),
            error_writes: List::new(alloc),
            tries_calls: false,
            tries_output_writes: false,
            tries_error_writes: false,
        }
    }

    fn add_numbered(&mut self, line: &str) -> anyhow::Result<()> {
        if let Some(digits) = line.strip_prefix("call ") {
            self.calls.push(number(digits)?)?;
        } else if let Some(digits) = line.strip_prefix("output write ") {
            self.output_writes.push(number(digits)?)?;
        } else if let Some(digits) = line.strip_prefix("error write ") {
            self.error_writes.push(number(digits)?)?;
        } else {
            bail!("no call or write: {line}");
        }
        Ok(())
    }

    fn add(&mut self, line: &str) -> anyhow::Result<()> {
        match line {
            "each call" => self.tries_calls = true,
            "each output write" => self.tries_output_writes = true,
            "each error write" => self.tries_error_writes = true,
            _ => self.add_numbered(line)?,
        }
        Ok(())
    }

    fn add_trial(&mut self, trial: Trial) -> anyhow::Result<()> {
        match trial {
            Trial::Plain | Trial::Prefix(_) => {}
            Trial::Call(number) => self.calls.push(number)?,
            Trial::OutputWrite(number) => self.output_writes.push(number)?,
            Trial::ErrorWrite(number) => self.error_writes.push(number)?,
        }
        Ok(())
    }
}

/// What fails in this row and this trial.
pub fn failing_of(
    alloc: Global,
    pieces: &[&Piece],
    row: usize,
    trial: Trial,
) -> anyhow::Result<Failing> {
    let mut failing = Failing::new(alloc);
    let lines = text(alloc, section(pieces, "fails"), row)?;
    for line in lines.as_str().split_terminator('\n') {
        failing.add(line)?;
    }
    failing.add_trial(trial)?;
    Ok(failing)
}

// How many bytes this sink takes.
fn capacity_of(alloc: Global, pieces: &[&Piece], row: usize, name: &str) -> anyhow::Result<u64> {
    let lines = text(alloc, section(pieces, "capacity"), row)?;
    for line in lines.as_str().split_terminator('\n') {
        let Some((sink, digits)) = line.split_once(' ') else {
            bail!("no capacity: {line}");
        };
        let is_known = sink == "output" || sink == "error";
        ensure!(is_known, "no capacity: {line}");
        if sink == name {
            return number(digits);
        }
    }
    Ok(CAPACITY)
}

fn sink(alloc: Global, capacity: u64, fail: List<u64>) -> anyhow::Result<CountedSink> {
    if capacity == 0 {
        return Ok(CountedSink::new(alloc, FailingSink::new(MemorySink::new(), fail)));
    }
    let sink = MemorySink::with_capacity(alloc, capacity)?;
    Ok(CountedSink::new(alloc, FailingSink::new(sink, fail)))
}

fn store(alloc: Global, pairs: List<FilePair>, fail: List<u64>) -> anyhow::Result<CountedFiles> {
    match MemoryFiles::new(alloc, pairs) {
        Ok(files) => Ok(CountedFiles::new(FailingFiles::new(files, fail))),
        Err(MemoryFilesError::Clash(path)) => Err(clash(alloc, path.bytes())),
        Err(MemoryFilesError::NoMemory) => bail!("out of memory"),
    }
}

fn clash(alloc: Global, path: &[u8]) -> anyhow::Error {
    match crate::escape::quoted(alloc, path) {
        Ok(path) => anyhow!("a path clashes with another: {path}"),
        Err(_) => anyhow!("out of memory"),
    }
}

// The files in this row and this trial.
fn tried_files(
    alloc: Global,
    pieces: &[&Piece],
    row: usize,
    trial: Trial,
) -> anyhow::Result<List<FilePair>> {
    let pairs = files(alloc, pieces, row)?;
    let Trial::Prefix(len) = trial else {
        return Ok(pairs);
    };
    match tries_of(alloc, pieces, row)? {
        Some(tries) => cut(alloc, pairs, &tries, len),
        None => Ok(pairs),
    }
}

/// The store and the two sinks of a run.
#[derive(Drop)]
pub struct Outside {
    pub files: CountedFiles,
    pub output: CountedSink,
    pub error: CountedSink,
}

/// The store of these files and the sinks of this row and this trial.
pub fn outside_of(
    alloc: Global,
    pieces: &[&Piece],
    row: usize,
    trial: Trial,
) -> anyhow::Result<Outside> {
    let failing = failing_of(alloc, pieces, row, trial)?;
    let Failing {
        calls,
        output_writes,
        error_writes,
        tries_calls: _,
        tries_output_writes: _,
        tries_error_writes: _,
    } = failing;
    let output_capacity = capacity_of(alloc, pieces, row, "output")?;
    let error_capacity = capacity_of(alloc, pieces, row, "error")?;
    Ok(Outside {
        files: store(alloc, tried_files(alloc, pieces, row, trial)?, calls)?,
        output: sink(alloc, output_capacity, output_writes)?,
        error: sink(alloc, error_capacity, error_writes)?,
    })
}
