//! Asks calls of the libraries. It reads a question a line, whose parts stand between vertical bars, and prints its
//! answer:
//!
//! ```text
//! advise|VERSION|CLASS            read_frozen|DIGITS           universe|NAME
//! compare|LINES|TEXTS|TEXTS       merge|PLATFORM:LINES..       operator_allows|OP|KIND
//! assumed_name|PATH               is_under|PATH|ROOT           is_internal_use|module or std|IMPORTER|PATH
//! canonical_order|NEEDS..         least_on_cycle|NEEDS..       read_words|DIGITS..
//! ```
//!
//! CLASS is `major`, `minor` or `patch`; DIGITS are the bytes of a file, or of a word, in hexadecimal digits; LINES
//! are feature lines and TEXTS any texts, with semicolons between them; NEEDS are the numbers of the packages that
//! a package needs, with blanks between them. `advise` answers a version, `not a version`, `not a release` or `no
//! version`; `read_frozen` lines with a semicolon behind each, or `not UTF-8 at` and an offset, or `not a feature
//! line:` and a line's number; `compare` and `merge` lines, the former with their signs; `canonical_order` numbers,
//! or `cycle at` and one; `least_on_cycle` a number or `none`; `universe` the variant of a name, or `none`;
//! `read_words` a mode and what is asked for, with hexadecimal digits for texts and `none` for what isn't there, or
//! `bad words`. A wrong line is `not a question`, and one that begins with `#` is printed as it is.
#![tactic(auto)]

mod answer;
mod frozen;
mod refusal;
mod requests;
mod units;
mod words;

use anyhow::Result;
use std::io;
use std::io::{BufWriter, Write};

fn main(rt: HostRuntime) -> Result<()> {
    let mut out = BufWriter::new(rt.alloc(), io::writer(&rt))?;
    for line in rt.lines(rt.alloc()) {
        let line = line?;
        let mut answer = if line.starts_with('#') {
            Vec::from_slice(rt.alloc(), line.as_bytes())?
        } else {
            answer::answer(rt.alloc(), line.as_str())?
        };
        answer.push(b'\n')?;
        out.write_all(answer.as_slice())?;
    }
    out.flush()?;
    Ok(())
}
