//! Archives in the form of Go's txtar: comment lines, and then markers, each with the text that
//! follows it up to the next one.
use crate::heading::{How, heading_of, marker_of};
use anyhow::{bail, ensure};
use std::alloc::{AllocError, Global};

/// The sections that aren't files and don't begin a case.
const SECTIONS: [&str; 14] = [
    "and", "archive", "capacity", "counts", "differs", "error", "fails", "load", "made", "output",
    "status", "taken", "tries", "words",
];

/// A marker and the text under it.
#[derive(Drop)]
pub struct Piece {
    /// The number of the marker's line, from 1.
    pub line: u64,
    pub name: String,
    pub how: How,
    pub body: String,
}

impl Piece {
    /// Whether it adds to the section before it.
    pub fn is_more(&self) -> bool {
        self.name.as_str() == "and"
    }

    /// Whether it begins a case.
    pub fn is_case(&self) -> bool {
        self.name.as_str().starts_with("case ")
    }

    /// Whether it is a file of the trees.
    pub fn is_file(&self) -> bool {
        if self.is_case() {
            return false;
        }
        self.how.is_file || self.name.as_str().contains('/')
    }

    fn is_section(&self) -> bool {
        for name in SECTIONS {
            if self.name.as_str() == name {
                return true;
            }
        }
        false
    }
}

/// The markers before the first that begins a case.
pub fn before_case(pieces: &[Piece]) -> &[Piece] {
    for (at, piece) in pieces.iter().enumerate() {
        if piece.is_case() {
            return &pieces[..at];
        }
    }
    pieces
}

fn opened(alloc: Global, line: u64, marker: &str) -> anyhow::Result<Piece> {
    let Some((name, how)) = heading_of(marker) else {
        bail!("line {line}: unknown words in parentheses: {marker}");
    };
    let piece = Piece {
        line,
        name: String::from_str(alloc, name)?,
        how,
        body: String::new(alloc),
    };
    let is_known = piece.is_case() || piece.is_file() || piece.is_section();
    ensure!(is_known, "line {line}: unknown section: {marker}");
    Ok(piece)
}

// The last line of an archive may lack its newline.
fn ended(mut piece: Piece) -> Result<Piece, AllocError> {
    let is_open = !piece.body.is_empty() && !piece.body.as_str().ends_with('\n');
    if is_open {
        piece.body.push_str("\n")?;
    }
    Ok(piece)
}

/// The markers of an archive and the texts under them.
pub fn read_archive(alloc: Global, text: &str) -> anyhow::Result<Vec<Piece>> {
    let mut pieces = Vec::new(alloc);
    let mut last: Option<Piece> = None;
    let mut number = 0u64;
    for line in text.split_inclusive('\n') {
        number = number.saturating_add(1);
        if let Some(marker) = marker_of(line) {
            let next = opened(alloc, number, marker)?;
            if let Some(piece) = last.replace(next) {
                pieces.push(piece)?;
            }
        } else if let Some(piece) = &mut last {
            piece.body.push_str(line)?;
        }
    }
    if let Some(piece) = last {
        pieces.push(ended(piece)?)?;
    }
    Ok(pieces)
}
