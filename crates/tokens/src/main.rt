//! Prints the tokens of the Go sources on standard input, which are frames without a question: a line
//! with a source's length in bytes, at most 4194304, and then the bytes; or the source on one line after
//! `> `, where `\n`, `\r`, `\t`, `\\` and `\xHH` stand for bytes. For each it prints its tokens, one a
//! line, or `bad` and an offset where the bytes aren't tokens, and then the line `end`. A token is its
//! kind, start, end, `inserted` for a semicolon that a newline inserts, and what it says: a name, an
//! integer or `wide`, the code of a rune, or `text:` and the bytes of a string in hexadecimal digits. A
//! line that begins with `#` is printed as it is. Where the input isn't such frames it says so on standard
//! error and ends with status 2.
#![tactic(auto)]

mod listing;

use frames::fault::Fault;
use frames::frame::read_frame;
use std::io;
use std::io::{BufReader, BufWriter, Write};
use std::process::ExitCode;

fn list_all(rt: &HostRuntime) -> Result<(), Fault> {
    let mut input = BufReader::with_capacity(rt.alloc(), 65_536, rt.reader())?;
    let mut output = BufWriter::with_capacity(rt.alloc(), 65_536, io::writer(rt))?;
    for _ in 0..u64::MAX {
        let Some(frame) = read_frame(rt.alloc(), &mut input)? else {
            break;
        };
        if frame.is_comment() {
            output.write_all(&frame.words)?;
            output.write_all(b"\n")?;
            continue;
        }
        if !frame.words.is_empty() {
            return Err(Fault::Frame);
        }
        listing::write_listing(rt.alloc(), &mut output, &frame.source)?;
        writeln!(output, "end")?;
    }
    output.flush()?;
    Ok(())
}

fn main(rt: HostRuntime) -> ExitCode {
    match list_all(&rt) {
        Ok(()) => ExitCode::SUCCESS,
        Err(fault) => {
            let _said = eprintln!(rt; "tokens: {fault}");
            ExitCode::from(fault.status())
        }
    }
}
