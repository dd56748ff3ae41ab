//! A row of a case: its runs, and what differs in them.
use crate::gate::run_words;
use anyhow::bail;
use archives::archive::Piece;
use archives::compare::{add_differences, add_text, add_unlisted};
use archives::content::{content, section, text};
use archives::ending::Ending;
use archives::failing::{Trial, failing_of, outside_of};
use archives::load::run_load;
use archives::outline::run_outline;
use archives::tries::tries_of;
use archives::wanted::{Wanted, error_fault, output_fault, read_fault, wanted_of};
use archives::words::words;
use std::alloc::Global;
use std::thread::Threads;

// The ending of the run in this row and this trial.
fn ending<R: Threads + Sync + AllocGlobal>(
    rt: &R,
    pieces: &[&Piece],
    row: usize,
    trial: Trial,
) -> anyhow::Result<Ending> {
    let alloc = rt.alloc();
    let mut outside = outside_of(alloc, pieces, row, trial)?;
    let load = section(pieces, "load");
    if !load.is_empty() {
        let line = text(alloc, load, row)?;
        let line = line.as_str().strip_suffix('\n').unwrap_or(line.as_str());
        return run_load(alloc, line, &mut outside);
    }
    let archive = section(pieces, "archive");
    if !archive.is_empty() {
        let archive = text(alloc, archive, row)?;
        return run_outline(alloc, archive.as_str(), &mut outside);
    }
    let line = section(pieces, "words");
    if line.is_empty() {
        bail!("a case has a section words, load or archive");
    }
    let words = words(alloc, line, row)?;
    Ok(run_words(rt, &words, &mut outside)?)
}

// Tells what differs where each call fails in turn.
fn try_calls<R: Threads + Sync + AllocGlobal>(
    rt: &R,
    found: &mut String,
    pieces: &[&Piece],
    row: usize,
    calls: u64,
) -> anyhow::Result<()> {
    let alloc = rt.alloc();
    let wanted = read_fault(alloc)?;
    for number in 1..=calls {
        let got = ending(rt, pieces, row, Trial::Call(number))?;
        let label = format!(in alloc; "call {number}: ")?;
        add_differences(alloc, found, label.as_str(), &wanted, &got)?;
    }
    Ok(())
}

// Tells what differs where each write to the output fails in turn.
fn try_output_writes<R: Threads + Sync + AllocGlobal>(
    rt: &R,
    found: &mut String,
    pieces: &[&Piece],
    row: usize,
    plain: &Ending,
) -> anyhow::Result<()> {
    let alloc = rt.alloc();
    for number in 1..=plain.output_pieces.len() as u64 {
        let wanted = output_fault(alloc, plain, number)?;
        let got = ending(rt, pieces, row, Trial::OutputWrite(number))?;
        let label = format!(in alloc; "output write {number}: ")?;
        add_differences(alloc, found, label.as_str(), &wanted, &got)?;
    }
    Ok(())
}

// Tells what differs where each write to the error output fails in turn.
fn try_error_writes<R: Threads + Sync + AllocGlobal>(
    rt: &R,
    found: &mut String,
    pieces: &[&Piece],
    row: usize,
    plain: &Ending,
) -> anyhow::Result<()> {
    let alloc = rt.alloc();
    for number in 1..=plain.error_pieces.len() as u64 {
        let wanted = error_fault(alloc, plain, number)?;
        let got = ending(rt, pieces, row, Trial::ErrorWrite(number))?;
        let label = format!(in alloc; "error write {number}: ")?;
        add_differences(alloc, found, label.as_str(), &wanted, &got)?;
    }
    Ok(())
}

// Tells where a run isn't as it may be when a file is cut after each of its bytes.
fn try_prefixes<R: Threads + Sync + AllocGlobal>(
    rt: &R,
    found: &mut String,
    pieces: &[&Piece],
    row: usize,
) -> anyhow::Result<()> {
    let alloc = rt.alloc();
    let Some(tries) = tries_of(alloc, pieces, row)? else {
        return Ok(());
    };
    for len in 0..=tries.len {
        let got = ending(rt, pieces, row, Trial::Prefix(len))?;
        let label = format!(in alloc; "first {len} bytes: ")?;
        add_unlisted(alloc, found, label.as_str(), &tries.statuses, &got)?;
    }
    Ok(())
}

// The words with three workers, or none where there are none or they say how many workers there are.
fn shared_words(alloc: Global, pieces: &[&Piece], row: usize) -> anyhow::Result<Vec<String>> {
    let mut all = words(alloc, section(pieces, "words"), row)?;
    if all.is_empty() || all.iter().any(|word| word.as_str() == "--workers") {
        return Ok(Vec::new(alloc));
    }
    for word in ["--workers", "3"] {
        all.push(String::from_str(alloc, word)?)?;
    }
    Ok(all)
}

// Tells what differs where three workers share the run, which has to end as by one.
fn try_workers<R: Threads + Sync + AllocGlobal>(
    rt: &R,
    found: &mut String,
    pieces: &[&Piece],
    row: usize,
    wanted: &Wanted,
) -> anyhow::Result<()> {
    let alloc = rt.alloc();
    let words = shared_words(alloc, pieces, row)?;
    if words.is_empty() {
        return Ok(());
    }
    let mut outside = outside_of(alloc, pieces, row, Trial::Plain)?;
    let got = run_words(rt, &words, &mut outside)?;
    add_differences(alloc, found, "3 workers: ", wanted, &got)?;
    Ok(())
}

// What differs in a row, a difference in each line.
fn differences<R: Threads + Sync + AllocGlobal>(
    rt: &R,
    pieces: &[&Piece],
    row: usize,
) -> anyhow::Result<String> {
    let alloc = rt.alloc();
    let mut found = String::new(alloc);
    let mut wanted = wanted_of(alloc, pieces, row)?;
    let plain = ending(rt, pieces, row, Trial::Plain)?;
    add_differences(alloc, &mut found, "", &wanted, &plain)?;
    let failing = failing_of(alloc, pieces, row, Trial::Plain)?;
    if failing.tries_calls {
        try_calls(rt, &mut found, pieces, row, plain.calls)?;
    }
    if failing.tries_output_writes {
        try_output_writes(rt, &mut found, pieces, row, &plain)?;
    }
    if failing.tries_error_writes {
        try_error_writes(rt, &mut found, pieces, row, &plain)?;
    }
    try_prefixes(rt, &mut found, pieces, row)?;
    if section(pieces, "differs").is_empty() {
        // Several workers of a platform check what one takes over.
        wanted.counts = String::new(alloc);
        try_workers(rt, &mut found, pieces, row, &wanted)?;
    }
    Ok(found)
}

/// What differs in a row from what the case expects. A case with the section `differs` expects that
/// these differences are found.
pub fn run_row<R: Threads + Sync + AllocGlobal>(
    rt: &R,
    pieces: &[&Piece],
    row: usize,
) -> anyhow::Result<String> {
    let alloc = rt.alloc();
    let found = match differences(rt, pieces, row) {
        Ok(found) => found,
        Err(error) => format!(in alloc; "{error}\n")?,
    };
    let expected = section(pieces, "differs");
    if expected.is_empty() {
        return Ok(found);
    }
    let expected = content(alloc, expected, row)?;
    let mut other = String::new(alloc);
    add_text(
        alloc,
        &mut other,
        "",
        "differs",
        &expected,
        found.as_bytes(),
    )?;
    Ok(other)
}
