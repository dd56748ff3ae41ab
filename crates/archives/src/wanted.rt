//! What a case expects.
use crate::archive::Piece;
use crate::content::{content, section, text};
use crate::ending::Ending;
use anyhow::bail;
use std::alloc::Global;

const READ_LINE: &[u8] = b"apigate: read fault\n";

const WRITE_LINE: &[u8] = b"apigate: write fault\n";

/// How a run is to end.
#[derive(Drop)]
pub struct Wanted {
    pub status: u8,
    pub output: Vec<u8>,
    pub error: Vec<u8>,
    /// Some of the counts, one in each line.
    pub counts: String,
}

fn number_in(
    alloc: Global,
    pieces: &[&Piece],
    row: usize,
    name: &str,
) -> anyhow::Result<Option<u64>> {
    let section = section(pieces, name);
    if section.is_empty() {
        return Ok(None);
    }
    match text(alloc, section, row)?.as_str().trim().parse::<u64>() {
        Ok(number) => Ok(Some(number)),
        Err(_) => bail!("no number in the section {name}"),
    }
}

fn status(alloc: Global, pieces: &[&Piece], row: usize) -> anyhow::Result<u8> {
    let text = text(alloc, section(pieces, "status"), row)?;
    match text.as_str().trim().parse::<u8>() {
        Ok(status) => Ok(status),
        Err(_) => bail!("a case has a section status with a number"),
    }
}

/// How a run is to end in this row.
pub fn wanted_of(alloc: Global, pieces: &[&Piece], row: usize) -> anyhow::Result<Wanted> {
    let mut output = content(alloc, section(pieces, "output"), row)?;
    if let Some(taken) = number_in(alloc, pieces, row, "taken")? {
        output.truncate(taken as usize);
    }
    Ok(Wanted {
        status: status(alloc, pieces, row)?,
        output,
        error: content(alloc, section(pieces, "error"), row)?,
        counts: text(alloc, section(pieces, "counts"), row)?,
    })
}

/// How a run ends of which a call fails.
pub fn read_fault(alloc: Global) -> anyhow::Result<Wanted> {
    Ok(Wanted {
        status: 4,
        output: Vec::new(alloc),
        error: Vec::from_slice(alloc, READ_LINE)?,
        counts: String::new(alloc),
    })
}

// The bytes of the pieces before the one of this number, from 1.
fn front(alloc: Global, bytes: &[u8], sizes: &[u64], number: u64) -> anyhow::Result<Vec<u8>> {
    let mut len = 0u64;
    let mut at = 0u64;
    for size in sizes {
        at = at.saturating_add(1);
        if at < number {
            len = len.saturating_add(*size);
        }
    }
    let mut front = Vec::from_slice(alloc, bytes)?;
    front.truncate(len as usize);
    Ok(front)
}

/// How a run ends of which the write to the output of this number, from 1, fails.
pub fn output_fault(alloc: Global, plain: &Ending, number: u64) -> anyhow::Result<Wanted> {
    Ok(Wanted {
        status: 5,
        output: front(alloc, &plain.output, &plain.output_pieces, number)?,
        error: Vec::from_slice(alloc, WRITE_LINE)?,
        counts: String::new(alloc),
    })
}

/// How a run ends of which the write to the error output of this number, from 1, fails.
pub fn error_fault(alloc: Global, plain: &Ending, number: u64) -> anyhow::Result<Wanted> {
    Ok(Wanted {
        status: 5,
        output: Vec::from_slice(alloc, &plain.output)?,
        error: front(alloc, &plain.error, &plain.error_pieces, number)?,
        counts: String::new(alloc),
    })
}
