//! What the sections of a case hold in one of its rows.
use crate::archive::Piece;
use crate::escape::unescaped;
use crate::heading::Copies;
use crate::made::add_made;
use anyhow::bail;
use go_base::list::List;
use go_base::memory::NoMemory;
use go_base::text::Text;
use go_outside::memory_files::FilePair;
use std::alloc::{AllocError, Global};

/// The markers that a case has: its own, and those of the whole archive whose names it hasn't.
pub fn effective<'a>(
    alloc: Global,
    shared: &'a [Piece],
    own: &'a [Piece],
) -> Result<Vec<&'a Piece>, AllocError> {
    let mut pieces = Vec::new(alloc);
    let mut is_hidden = false;
    for piece in shared {
        if !piece.is_more() {
            is_hidden = own
                .iter()
                .any(|other| other.name.as_str() == piece.name.as_str());
        }
        if !is_hidden {
            pieces.push(piece)?;
        }
    }
    for piece in own {
        pieces.push(piece)?;
    }
    Ok(pieces)
}

/// The first piece and those that add to it.
pub fn section_at<'a, 'b>(pieces: &'b [&'a Piece]) -> &'b [&'a Piece] {
    for (at, piece) in pieces.iter().enumerate() {
        if at > 0 && !piece.is_more() {
            return &pieces[..at];
        }
    }
    pieces
}

/// The pieces of a section, or none.
pub fn section<'a, 'b>(pieces: &'b [&'a Piece], name: &str) -> &'b [&'a Piece] {
    for (at, piece) in pieces.iter().enumerate() {
        if piece.name.as_str() == name {
            return section_at(&pieces[at..]);
        }
    }
    &[]
}

/// The line that stands for this row, from 0.
pub fn row_of(piece: &Piece, row: usize) -> anyhow::Result<&str> {
    for (at, line) in piece.body.as_str().split_terminator('\n').enumerate() {
        if at == row {
            return Ok(line);
        }
    }
    bail!(
        "line {}: the rows of a case are as many in each section",
        piece.line
    )
}

/// The bytes that a text of a piece stands for.
pub fn bytes_of(alloc: Global, piece: &Piece, text: &str) -> anyhow::Result<Vec<u8>> {
    let is_escaped = piece.how.is_escaped || piece.how.is_by_line;
    if !is_escaped {
        return Ok(Vec::from_slice(alloc, text.as_bytes())?);
    }
    match unescaped(alloc, text.as_bytes())? {
        Some(bytes) => Ok(bytes),
        None => bail!("line {}: a backslash that begins no escape", piece.line),
    }
}

// The bytes of one copy of a piece in this row.
fn copy_of(alloc: Global, piece: &Piece, row: usize) -> anyhow::Result<Vec<u8>> {
    if piece.how.is_by_line {
        return bytes_of(alloc, piece, row_of(piece, row)?);
    }
    bytes_of(alloc, piece, piece.body.as_str())
}

// Appends a text with the number where it has `#`.
fn add_numbered(
    alloc: Global,
    bytes: &mut Vec<u8>,
    text: &[u8],
    number: u64,
) -> Result<(), AllocError> {
    let digits = format!(in alloc; "{number}")?;
    for byte in text {
        if *byte == b'#' {
            bytes.extend_from_slice(digits.as_bytes())?;
        } else {
            bytes.push(*byte)?;
        }
    }
    Ok(())
}

fn add_copies(
    alloc: Global,
    bytes: &mut Vec<u8>,
    copies: Copies,
    text: &[u8],
) -> Result<(), AllocError> {
    match copies {
        Copies::One => bytes.extend_from_slice(text)?,
        Copies::Times(count) => {
            for _ in 0..count {
                bytes.extend_from_slice(text)?;
            }
        }
        Copies::Numbered(first, last) => {
            for number in first..=last {
                add_numbered(alloc, bytes, text, number)?;
            }
        }
    }
    Ok(())
}

// The bytes of the pieces of a section, from the one at this place on.
fn content_from(
    alloc: Global,
    pieces: &[&Piece],
    first: usize,
    row: usize,
) -> anyhow::Result<Vec<u8>> {
    let mut bytes = Vec::new(alloc);
    for (at, piece) in pieces.iter().enumerate() {
        if at >= first {
            let text = copy_of(alloc, piece, row)?;
            add_copies(alloc, &mut bytes, piece.how.copies, &text)?;
        }
    }
    Ok(bytes)
}

/// The bytes of a section in this row.
pub fn content(alloc: Global, pieces: &[&Piece], row: usize) -> anyhow::Result<Vec<u8>> {
    content_from(alloc, pieces, 0, row)
}

/// The bytes of a section in this row, which are text.
pub fn text(alloc: Global, pieces: &[&Piece], row: usize) -> anyhow::Result<String> {
    match String::from_utf8(content(alloc, pieces, row)?) {
        Ok(text) => Ok(text),
        Err(_) => bail!("a section that has to be text isn't UTF-8"),
    }
}

fn name_of(alloc: Global, piece: &Piece) -> anyhow::Result<Vec<u8>> {
    let name = piece.name.as_bytes();
    if !piece.how.has_escaped_name {
        return Ok(Vec::from_slice(alloc, name)?);
    }
    match unescaped(alloc, name)? {
        Some(bytes) => Ok(bytes),
        None => bail!("line {}: a backslash that begins no escape", piece.line),
    }
}

fn push_file(
    alloc: Global,
    pairs: &mut List<FilePair>,
    path: Vec<u8>,
    bytes: Vec<u8>,
) -> Result<(), NoMemory> {
    pairs.push(FilePair {
        path: Text::from_vec(alloc, path)?,
        bytes: Text::from_vec(alloc, bytes)?,
    })
}

fn add_file(
    alloc: Global,
    pairs: &mut List<FilePair>,
    path: Vec<u8>,
    bytes: Vec<u8>,
) -> Result<(), AllocError> {
    match push_file(alloc, pairs, path, bytes) {
        Ok(()) => Ok(()),
        Err(_) => Err(AllocError),
    }
}

/// The name and the text of a file where numbers are put, and what follows that text.
#[derive(Drop)]
struct Template {
    name: Vec<u8>,
    text: Vec<u8>,
    more: Vec<u8>,
}

// Adds a file for each of these numbers, which is put where its name and its text have `#`.
fn add_numbered_files(
    alloc: Global,
    pairs: &mut List<FilePair>,
    template: &Template,
    first: u64,
    last: u64,
) -> Result<(), AllocError> {
    for number in first..=last {
        let mut path = Vec::new(alloc);
        add_numbered(alloc, &mut path, &template.name, number)?;
        let mut bytes = Vec::new(alloc);
        add_numbered(alloc, &mut bytes, &template.text, number)?;
        bytes.extend_from_slice(&template.more)?;
        add_file(alloc, pairs, path, bytes)?;
    }
    Ok(())
}

fn add_files(
    alloc: Global,
    pairs: &mut List<FilePair>,
    piece: &Piece,
    pieces: &[&Piece],
    row: usize,
) -> anyhow::Result<()> {
    let name = name_of(alloc, piece)?;
    if let Copies::Numbered(first, last) = piece.how.copies
        && name.contains(&b'#')
    {
        let template = Template {
            name,
            text: copy_of(alloc, piece, row)?,
            more: content_from(alloc, pieces, 1, row)?,
        };
        add_numbered_files(alloc, pairs, &template, first, last)?;
        return Ok(());
    }
    add_file(alloc, pairs, name, content(alloc, pieces, row)?)?;
    Ok(())
}

/// The files of the trees in this row.
pub fn files(alloc: Global, pieces: &[&Piece], row: usize) -> anyhow::Result<List<FilePair>> {
    let mut pairs = List::new(alloc);
    for (at, piece) in pieces.iter().enumerate() {
        let is_held = piece.is_file() && !piece.how.is_absent;
        if is_held {
            add_files(alloc, &mut pairs, piece, section_at(&pieces[at..]), row)?;
        }
    }
    let made = text(alloc, section(pieces, "made"), row)?;
    for line in made.as_str().split_terminator('\n') {
        add_made(alloc, &mut pairs, line)?;
    }
    Ok(pairs)
}

/// How many rows a case has: as many as each of its sections that are read line by line has lines,
/// else one.
pub fn rows_of(pieces: &[&Piece]) -> anyhow::Result<usize> {
    let mut rows = None;
    for piece in pieces {
        if piece.how.is_by_line {
            let count = piece.body.as_str().split_terminator('\n').count();
            if rows.is_some_and(|other| other != count) {
                bail!(
                    "line {}: the rows of a case are as many in each section",
                    piece.line
                );
            }
            rows = Some(count);
        }
    }
    Ok(rows.unwrap_or(1))
}
