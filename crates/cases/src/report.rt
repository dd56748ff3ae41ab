//! What is told of the archives.
use crate::case::run_row;
use crate::paths::archive_at;
use archives::archive::{Piece, before_case, read_archive};
use archives::content::{effective, rows_of};
use std::rt::Runtime;
use std::thread::Threads;

/// What was counted so far.
#[derive(Clone, Copy, Debug)]
pub struct Totals {
    archives: u64,
    cases: u64,
    differ: u64,
}

impl Totals {
    /// Nothing was counted yet.
    pub fn none() -> Totals {
        Totals {
            archives: 0,
            cases: 0,
            differ: 0,
        }
    }

    /// Whether a case differs, or an archive isn't understood.
    pub fn has_difference(&self) -> bool {
        self.differ > 0
    }

    fn add(&mut self, cases: u64, differ: u64) {
        self.cases = self.cases.saturating_add(cases);
        self.differ = self.differ.saturating_add(differ);
    }
}

// Runs a case that begins at this line of an archive.
fn run_case<R: Runtime + Threads + Sync + AllocGlobal>(
    rt: &R,
    place: &str,
    shared: &[Piece],
    own: &[Piece],
    totals: &mut Totals,
) -> anyhow::Result<()> {
    let pieces = effective(rt.alloc(), shared, own)?;
    let rows = rows_of(&pieces)?;
    for row in 0..rows {
        let found = run_row(rt, &pieces, row)?;
        totals.add(1, if found.is_empty() { 0 } else { 1 });
        let number = row.saturating_add(1);
        for line in found.as_str().split_terminator('\n') {
            if rows > 1 {
                println!(rt; "{place}: row {number}: {line}")?;
            } else {
                println!(rt; "{place}: {line}")?;
            }
        }
    }
    Ok(())
}

fn run_cases<R: Runtime + Threads + Sync + AllocGlobal>(
    rt: &R,
    path: &str,
    pieces: &[Piece],
    totals: &mut Totals,
) -> anyhow::Result<()> {
    let shared = before_case(pieces);
    if shared.len() == pieces.len() {
        return run_case(rt, path, &[], pieces, totals);
    }
    for (at, piece) in pieces.iter().enumerate() {
        if piece.is_case() {
            let title = piece.name.as_str();
            let place = format!(in rt.alloc(); "{path}:{}: {title}", piece.line)?;
            let own = before_case(&pieces[at + 1..]);
            run_case(rt, place.as_str(), shared, own, totals)?;
        }
    }
    Ok(())
}

fn run_text<R: Runtime + Threads + Sync + AllocGlobal>(
    rt: &R,
    path: &str,
    totals: &mut Totals,
) -> anyhow::Result<()> {
    let text = archive_at(rt, path)?;
    let pieces = read_archive(rt.alloc(), text.as_str())?;
    run_cases(rt, path, &pieces, totals)
}

/// Runs the cases of the archive at this path, and prints how many they are and what differs.
pub fn run_archive<R: Runtime + Threads + Sync + AllocGlobal>(
    rt: &R,
    path: &str,
    totals: &mut Totals,
) -> anyhow::Result<()> {
    let before = totals.cases;
    totals.archives = totals.archives.saturating_add(1);
    if let Err(error) = run_text(rt, path, totals) {
        totals.add(0, 1);
        println!(rt; "{path}: {error}")?;
    }
    let cases = totals.cases.saturating_sub(before);
    println!(rt; "{path}: {cases}")?;
    Ok(())
}

/// Prints what was counted.
pub fn print_totals<R: Runtime + Threads + Sync + AllocGlobal>(
    rt: &R,
    totals: &Totals,
) -> anyhow::Result<()> {
    let Totals {
        archives,
        cases,
        differ,
    } = *totals;
    println!(rt; "{cases} cases in {archives} archives, {differ} differ")?;
    Ok(())
}
