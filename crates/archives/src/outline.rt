//! What an archive says: its cases and what their sections hold in each row.
use crate::archive::{Piece, read_archive};
use crate::content::{content, effective, files, rows_of};
use crate::ending::{Ending, ending_of};
use crate::escape::quoted;
use crate::failing::Outside;
use crate::words::words;
use go_outside::sink::Sink;
use std::alloc::Global;

fn add_line(text: &mut String, front: &str, rest: &str) -> anyhow::Result<()> {
    text.push_str(front)?;
    text.push_str(rest)?;
    text.push_str("\n")?;
    Ok(())
}

fn add_files(
    alloc: Global,
    text: &mut String,
    pieces: &[&Piece],
    row: usize,
) -> anyhow::Result<()> {
    for pair in files(alloc, pieces, row)?.items() {
        text.push_str(quoted(alloc, pair.path.bytes())?.as_str())?;
        add_line(text, " ", quoted(alloc, pair.bytes.bytes())?.as_str())?;
    }
    Ok(())
}

fn add_words(
    alloc: Global,
    text: &mut String,
    pieces: &[&Piece],
    row: usize,
) -> anyhow::Result<()> {
    for word in words(alloc, pieces, row)? {
        add_line(text, "word ", quoted(alloc, word.as_bytes())?.as_str())?;
    }
    Ok(())
}

fn add_section(
    alloc: Global,
    text: &mut String,
    pieces: &[&Piece],
    row: usize,
) -> anyhow::Result<()> {
    let Some(first) = pieces.first() else {
        return Ok(());
    };
    let is_told = !first.is_file() && !first.is_more();
    if !is_told {
        return Ok(());
    }
    if first.name.as_str() == "words" {
        return add_words(alloc, text, pieces, row);
    }
    text.push_str(first.name.as_str())?;
    let bytes = content(alloc, pieces, row)?;
    add_line(text, " ", quoted(alloc, &bytes)?.as_str())
}

fn add_case(
    alloc: Global,
    text: &mut String,
    shared: &[Piece],
    own: &[Piece],
) -> anyhow::Result<()> {
    let pieces = effective(alloc, shared, own)?;
    for row in 0..rows_of(&pieces)? {
        add_line(text, "row", "")?;
        add_files(alloc, text, &pieces, row)?;
        for (at, _) in pieces.iter().enumerate() {
            add_section(alloc, text, crate::content::section_at(&pieces[at..]), row)?;
        }
    }
    Ok(())
}

// The cases of an archive, each as its title and its rows.
fn outline(alloc: Global, archive: &str) -> anyhow::Result<String> {
    let pieces = read_archive(alloc, archive)?;
    let mut text = String::new(alloc);
    let shared = crate::archive::before_case(&pieces);
    if shared.len() == pieces.len() {
        add_case(alloc, &mut text, &[], &pieces)?;
    }
    for (at, piece) in pieces.iter().enumerate() {
        if piece.is_case() {
            add_line(&mut text, piece.name.as_str(), "")?;
            add_case(
                alloc,
                &mut text,
                shared,
                crate::archive::before_case(&pieces[at + 1..]),
            )?;
        }
    }
    Ok(text)
}

/// Reads an archive, and writes what it says, or why it isn't understood.
pub fn run_outline(alloc: Global, archive: &str, outside: &mut Outside) -> anyhow::Result<Ending> {
    let status = match outline(alloc, archive) {
        Ok(text) => {
            outside.output.write(text.as_bytes())?;
            0
        }
        Err(error) => {
            let line = format!(in alloc; "{error}\n")?;
            outside.error.write(line.as_bytes())?;
            1
        }
    };
    Ok(ending_of(alloc, outside, status, 0)?)
}
