//! Prints the features of worlds. It reads the packages of a world, and then what asks for its features:
//!
//! ```text
//! package PATH NAME                a public package, whose objects follow in the order of their names
//! const NAME VALUE OF              var NAME TERM         func NAME TERM         alias NAME TERM
//! type NAME TERM {on-value:SELECTOR|on-pointer:SELECTOR TERM}..
//! end
//!
//! features
//! ```
//!
//! Terms, OF and VALUE are as the library `worlds` reads them; a package stands behind those whose types it names. After
//! `features` a new world begins, without packages. A line that begins with `#` is printed as it is. A wrong line ends it
//! with status 2 and the line's number on standard error.
#![tactic(auto)]

mod reading;

use crate::reading::Reading;
use std::io;
use std::io::{BufWriter, Write};
use std::process::ExitCode;
use worlds::refusal::Refusal;

// Answers all lines, or gives the number of the first wrong one.
fn run(rt: &HostRuntime) -> anyhow::Result<Option<u64>> {
    let alloc = rt.alloc();
    let mut out = BufWriter::new(alloc, io::writer(rt))?;
    let text = io::read_to_string(alloc, rt.reader())?;
    let mut reading = Reading::new(alloc);
    let mut number = 0u64;
    for line in text.lines() {
        number = number.saturating_add(1);
        match reading.answer(alloc, line) {
            Ok(bytes) => out.write_all(bytes.as_slice())?,
            Err(Refusal::WrongLine) => {
                out.flush()?;
                return Ok(Some(number));
            }
            Err(Refusal::NoMemory) => anyhow::bail!("out of memory"),
        }
    }
    out.flush()?;
    Ok(None)
}

fn main(rt: HostRuntime) -> ExitCode {
    match run(&rt) {
        Ok(None) => ExitCode::SUCCESS,
        Ok(Some(number)) => {
            let _ = eprintln!(rt; "line {number}: no declaration and no question");
            ExitCode::from(2)
        }
        Err(error) => {
            let _ = eprintln!(rt; "{error}");
            ExitCode::from(1)
        }
    }
}
