//! A file that is cut after each of its bytes, with a run for each front.
use crate::archive::Piece;
use crate::content::{content, section, text};
use anyhow::{bail, ensure};
use go_base::list::List;
use go_base::text::Text;
use go_outside::memory_files::FilePair;
use std::alloc::Global;

/// The file whose fronts are tried, how many bytes it has, and the statuses with which these runs
/// may end.
#[derive(Drop)]
pub struct Tries {
    pub path: String,
    pub len: u64,
    pub statuses: Vec<u8>,
}

fn add(tries: &mut Tries, line: &str) -> anyhow::Result<()> {
    if let Some(path) = line.strip_prefix("each prefix of ") {
        tries.path.push_str(path)?;
        return Ok(());
    }
    if let Some(digits) = line.strip_prefix("status ")
        && let Ok(status) = digits.parse::<u8>()
    {
        tries.statuses.push(status)?;
        return Ok(());
    }
    bail!("no file or status to try: {line}");
}

/// What is tried in this row, if anything is.
pub fn tries_of(alloc: Global, pieces: &[&Piece], row: usize) -> anyhow::Result<Option<Tries>> {
    let lines = section(pieces, "tries");
    if lines.is_empty() {
        return Ok(None);
    }
    let lines = text(alloc, lines, row)?;
    let mut tries = Tries {
        path: String::new(alloc),
        len: 0,
        statuses: Vec::new(alloc),
    };
    for line in lines.as_str().split_terminator('\n') {
        add(&mut tries, line)?;
    }
    let path = tries.path.as_str();
    let file = section(pieces, path);
    ensure!(!file.is_empty(), "no file to cut: {path}");
    tries.len = content(alloc, file, row)?.len() as u64;
    Ok(Some(tries))
}

// The file with only so many first bytes.
fn front(alloc: Global, pair: FilePair, len: u64) -> anyhow::Result<FilePair> {
    let FilePair { path, bytes } = pair;
    let mut first = Vec::from_slice(alloc, bytes.bytes())?;
    first.truncate(len as usize);
    Ok(FilePair {
        path,
        bytes: Text::from_vec(alloc, first)?,
    })
}

/// The files, of which the one that is tried has only so many first bytes.
pub fn cut(
    alloc: Global,
    pairs: List<FilePair>,
    tries: &Tries,
    len: u64,
) -> anyhow::Result<List<FilePair>> {
    let mut files = List::new(alloc);
    for pair in pairs.into_vec() {
        if pair.path.bytes() == tries.path.as_bytes() {
            files.push(front(alloc, pair, len)?)?;
        } else {
            files.push(pair)?;
        }
    }
    Ok(files)
}
