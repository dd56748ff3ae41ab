//! How runs end.
use crate::failing::Outside;
use std::alloc::{AllocError, Global};

/// How a run ended.
#[derive(Drop)]
pub struct Ending {
    pub status: u8,
    /// The bytes that the output took.
    pub output: Vec<u8>,
    /// The bytes that the error output took.
    pub error: Vec<u8>,
    /// How often the store was called.
    pub calls: u64,
    /// The sizes of the pieces that were written to the output.
    pub output_pieces: Vec<u64>,
    /// The sizes of the pieces that were written to the error output.
    pub error_pieces: Vec<u64>,
    /// What was counted, one count in each line.
    pub counts: String,
}

fn add_count(alloc: Global, counts: &mut String, name: &str, count: u64) -> Result<(), AllocError> {
    let line = format!(in alloc; "{name} {count}\n")?;
    counts.push_str(line.as_str())
}

fn add_pieces(
    alloc: Global,
    counts: &mut String,
    name: &str,
    pieces: &[u64],
) -> Result<(), AllocError> {
    counts.push_str(name)?;
    for size in pieces {
        let text = format!(in alloc; " {size}")?;
        counts.push_str(text.as_str())?;
    }
    counts.push_str("\n")
}

// What the store and the sinks counted.
fn counts_of(alloc: Global, outside: &Outside, checks: u64) -> Result<String, AllocError> {
    let mut counts = String::new(alloc);
    add_count(alloc, &mut counts, "checks", checks)?;
    add_count(alloc, &mut counts, "calls", outside.files.calls())?;
    add_count(alloc, &mut counts, "read faults", outside.files.faults())?;
    add_count(alloc, &mut counts, "output faults", outside.output.faults())?;
    add_count(alloc, &mut counts, "error faults", outside.error.faults())?;
    add_pieces(alloc, &mut counts, "output pieces", outside.output.pieces())?;
    add_pieces(alloc, &mut counts, "error pieces", outside.error.pieces())?;
    Ok(counts)
}

/// What a run with this status did to its store and its sinks.
pub fn ending_of(
    alloc: Global,
    outside: &Outside,
    status: u8,
    checks: u64,
) -> Result<Ending, AllocError> {
    Ok(Ending {
        status,
        output: Vec::from_slice(alloc, outside.output.bytes())?,
        error: Vec::from_slice(alloc, outside.error.bytes())?,
        calls: outside.files.calls(),
        output_pieces: Vec::from_slice(alloc, outside.output.pieces())?,
        error_pieces: Vec::from_slice(alloc, outside.error.pieces())?,
        counts: counts_of(alloc, outside, checks)?,
    })
}
