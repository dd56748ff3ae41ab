//! Runs the cases of the whole gate that stand in archives, and tells which of them differ and where. Each
//! word of the command line is an archive or a folder, whose files `NAME.txtar` are its archives. `README.md` in
//! the folder `data` tells their form. It prints a line for each archive and a line for each
//! difference:
//!
//! ```text
//! module_line.txtar: 18 cases
//! module_line.txtar:12: row N: output line 1: wanted "pkg m/p, const X = 5\n", got nothing
//! 18 cases in 1 archive, 1 differs
//! ```
//!
//! It ends with status 1 where a case differs, or an archive can't be read or understood.
#![tactic(auto)]

mod case;
mod gate;
mod paths;
mod report;

use crate::report::Totals;
use std::env;
use std::process::ExitCode;
use std::rt::Runtime;
use std::thread::Threads;

// Runs the archives that the words of the command line name.
fn run<R: Runtime + Threads + Sync + AllocGlobal>(rt: &R) -> anyhow::Result<Totals> {
    let mut totals = Totals::none();
    for word in env::args(rt)?.skip(1) {
        for path in paths::archives_at(rt, word.as_str())? {
            report::run_archive(rt, path.as_str(), &mut totals)?;
        }
    }
    report::print_totals(rt, &totals)?;
    Ok(totals)
}

fn main(rt: HostRuntime) -> anyhow::Result<ExitCode> {
    let totals = run(&rt)?;
    if totals.has_difference() {
        return Ok(ExitCode::from(1));
    }
    Ok(ExitCode::SUCCESS)
}
