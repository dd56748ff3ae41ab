//! Tells how types of Go relate to each other. It reads a defined type or a question a line, and
//! prints the answer of each question:
//!
//! ```text
//! type NAME TERM {on-value:SELECTOR|on-pointer:SELECTOR TERM}..
//! identical TERM TERM        comparable TERM             implements TERM TERM
//! find SELECTOR TERM         method_set TERM
//! assignable plain|profile TERM TERM                     convertible plain|profile TERM TERM
//! ```
//!
//! Terms, a NAME and a SELECTOR are as the library `worlds` reads them.
//!
//! Answers are `true` and `false`; `nothing`, `ambiguous`, `field DEPTH direct|through TERM` and
//! `method DEPTH direct|through on-value|on-pointer OWNER TERM`, where OWNER is a NAME or `interface`; the
//! methods of a set, or `empty`. A line that begins with `#` is printed as it is. A wrong line ends it with
//! status 2 and the line's number on standard error.
#![tactic(auto)]

mod answer;
mod table;

use crate::answer::answer;
use crate::table::Table;
use std::io;
use std::io::{BufRead, BufReader, BufWriter, ErrorKind, Write};
use std::process::ExitCode;
use worlds::read::Stack;
use worlds::refusal::Refusal;

// Answers all lines, or gives the number of the first wrong one.
fn run(rt: &HostRuntime) -> anyhow::Result<Option<u64>> {
    let alloc = rt.alloc();
    let mut out = BufWriter::new(alloc, io::writer(rt))?;
    let mut table = Table::new(alloc);
    let mut stack = Stack::new(alloc);
    let mut number = 0u64;
    for line in BufReader::new(alloc, rt.reader())?.lines(alloc) {
        number = number.saturating_add(1);
        let told = match line {
            Ok(text) => answer(alloc, &mut table, &mut stack, text.as_str()),
            Err(error) if error.kind() == ErrorKind::InvalidData => Err(Refusal::WrongLine),
            Err(error) => return Err(error.into()),
        };
        match told {
            Ok(bytes) => out.write_all(bytes.as_slice())?,
            Err(Refusal::WrongLine) => {
                out.flush()?;
                return Ok(Some(number));
            }
            Err(Refusal::NoMemory) => anyhow::bail!("out of memory"),
        }
    }
    out.flush()?;
    Ok(None)
}

fn main(rt: HostRuntime) -> ExitCode {
    match run(&rt) {
        Ok(None) => ExitCode::SUCCESS,
        Ok(Some(number)) => {
            let _ = eprintln!(rt; "line {number}: no type and no question");
            ExitCode::from(2)
        }
        Err(error) => {
            let _ = eprintln!(rt; "{error}");
            ExitCode::from(1)
        }
    }
}
