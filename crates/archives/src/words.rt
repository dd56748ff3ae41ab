//! The words of a case.
use crate::archive::Piece;
use crate::content::{bytes_of, row_of};
use anyhow::bail;
use std::alloc::Global;

fn add_word(
    alloc: Global,
    words: &mut Vec<String>,
    piece: &Piece,
    text: &str,
) -> anyhow::Result<()> {
    match String::from_utf8(bytes_of(alloc, piece, text)?) {
        Ok(word) => words.push(word)?,
        Err(_) => bail!("line {}: a word isn't UTF-8", piece.line),
    }
    Ok(())
}

// The words of one line, parted by single blanks. An empty line has no word.
fn add_line(
    alloc: Global,
    words: &mut Vec<String>,
    piece: &Piece,
    line: &str,
) -> anyhow::Result<()> {
    if line.is_empty() {
        return Ok(());
    }
    for word in line.split(' ') {
        add_word(alloc, words, piece, word)?;
    }
    Ok(())
}

fn add_lines(alloc: Global, words: &mut Vec<String>, piece: &Piece) -> anyhow::Result<()> {
    for line in piece.body.as_str().split_terminator('\n') {
        add_word(alloc, words, piece, line)?;
    }
    Ok(())
}

/// The words in this row: one in each line, or those of the row's line.
pub fn words(alloc: Global, pieces: &[&Piece], row: usize) -> anyhow::Result<Vec<String>> {
    let mut words = Vec::new(alloc);
    for piece in pieces {
        if piece.how.is_by_line {
            add_line(alloc, &mut words, piece, row_of(piece, row)?)?;
        } else {
            add_lines(alloc, &mut words, piece)?;
        }
    }
    Ok(words)
}
