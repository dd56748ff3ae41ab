//! What differs between the ending that a case expects and the one that came.
ghost use Rattle.std.specs.Prelude.{◌≤◌, length};

use crate::ending::Ending;
use crate::escape::quoted;
use crate::wanted::Wanted;
use std::alloc::{AllocError, Global};

/// The most bytes of a piece.
const PIECE: u64 = 65_536;

/// How many first bytes are the same.
fn same_len(left: &[u8], right: &[u8]) -> usize
    ensures left { result ≤ length left.now }
    ensures right { result ≤ length right.now }
{
    for (at, byte) in left.iter().enumerate() {
        match right.get(at) {
            Some(other) if *other == *byte => {}
            _ => return at.min(right.len()),
        }
    }
    left.len().min(right.len())
}

/// The number of the last line that begins in the bytes, from 1, and where that line begins.
fn last_line(bytes: &[u8]) -> (u64, usize)
    ensures { result.1 ≤ length bytes.now }
{
    let mut number = 1u64;
    let mut start = 0usize;
    for (at, byte) in bytes.iter().enumerate() {
        if *byte == b'\n' {
            number = number.saturating_add(1);
            start = at.saturating_add(1);
        }
    }
    (number, start.min(bytes.len()))
}

/// The first line of the bytes, with its newline.
fn first_line(bytes: &[u8]) -> &[u8] {
    for (at, byte) in bytes.iter().enumerate() {
        if *byte == b'\n' {
            return &bytes[..at + 1];
        }
    }
    bytes
}

fn add(found: &mut String, label: &str, text: &str) -> Result<(), AllocError> {
    found.push_str(label)?;
    found.push_str(text)?;
    found.push_str("\n")
}

/// Tells the first line in which two texts differ.
pub fn add_text(
    alloc: Global,
    found: &mut String,
    label: &str,
    name: &str,
    wanted: &[u8],
    got: &[u8],
) -> Result<(), AllocError> {
    let same = same_len(wanted, got);
    if same == wanted.len() && same == got.len() {
        return Ok(());
    }
    let (number, start) = last_line(&wanted[..same]);
    let left = quoted(alloc, first_line(&wanted[start..]))?;
    let right = quoted(alloc, first_line(&got[start..]))?;
    let text = format!(in alloc; "{name} line {number}: wanted {left}, got {right}")?;
    add(found, label, text.as_str())
}

// The line with the same words before its numbers.
fn line_like<'a>(counts: &'a str, wanted: &str) -> &'a str {
    let name = wanted.trim_end_matches(|c: char| c.is_ascii_digit() || c == ' ');
    for line in counts.split_terminator('\n') {
        if line.starts_with(name) {
            return line;
        }
    }
    ""
}

// Tells each count that differs from what is wanted.
fn add_counts(
    alloc: Global,
    found: &mut String,
    label: &str,
    wanted: &str,
    got: &str,
) -> Result<(), AllocError> {
    for line in wanted.split_terminator('\n') {
        let other = line_like(got, line);
        if line != other {
            let text = format!(in alloc; "counts: wanted \"{line}\", got \"{other}\"")?;
            add(found, label, text.as_str())?;
        }
    }
    Ok(())
}

// Tells each piece that is empty or too large.
fn add_pieces(
    alloc: Global,
    found: &mut String,
    label: &str,
    sizes: &[u64],
) -> Result<(), AllocError> {
    for size in sizes {
        let is_good = 0 < *size && *size <= PIECE;
        if !is_good {
            let text = format!(in alloc; "a piece of {size} bytes")?;
            add(found, label, text.as_str())?;
        }
    }
    Ok(())
}

fn add_status(
    alloc: Global,
    found: &mut String,
    label: &str,
    wanted: u8,
    got: u8,
) -> Result<(), AllocError> {
    if wanted != got {
        let text = format!(in alloc; "status: wanted {wanted}, got {got}")?;
        add(found, label, text.as_str())?;
    }
    Ok(())
}

/// Tells what differs, a difference in each line, which begins with the label.
pub fn add_differences(
    alloc: Global,
    found: &mut String,
    label: &str,
    wanted: &Wanted,
    got: &Ending,
) -> Result<(), AllocError> {
    add_status(alloc, found, label, wanted.status, got.status)?;
    add_text(alloc, found, label, "output", &wanted.output, &got.output)?;
    add_text(alloc, found, label, "error", &wanted.error, &got.error)?;
    add_counts(
        alloc,
        found,
        label,
        wanted.counts.as_str(),
        got.counts.as_str(),
    )?;
    add_pieces(alloc, found, label, &got.output_pieces)?;
    add_pieces(alloc, found, label, &got.error_pieces)
}

// Whether the bytes are one line.
fn is_line(bytes: &[u8]) -> bool {
    let (number, start) = last_line(bytes);
    number == 2 && start == bytes.len()
}

/// Tells where a run ends with another status than these, with a report and a line, or with neither.
pub fn add_unlisted(
    alloc: Global,
    found: &mut String,
    label: &str,
    statuses: &[u8],
    got: &Ending,
) -> Result<(), AllocError> {
    if !statuses.contains(&got.status) {
        let status = got.status;
        let text = format!(in alloc; "status: got {status}")?;
        add(found, label, text.as_str())?;
    }
    if got.status < 2 {
        return add_text(alloc, found, label, "error", &[], &got.error);
    }
    if !is_line(&got.error) {
        let shown = quoted(alloc, &got.error)?;
        let text = format!(in alloc; "error: no line, but {shown}")?;
        add(found, label, text.as_str())?;
    }
    add_text(alloc, found, label, "output", &[], &got.output)
}
