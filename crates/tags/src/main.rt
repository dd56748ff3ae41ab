//! Tells which Go files a platform chooses. It reads a case a line: a platform, a file's name and
//! the file's text, parted by single blanks. In them `\n`, `\r`, `\t`, `\\` and `\xHH` stand for
//! bytes. It prints a line for each: `chosen` or `left out` and the name in the package clause, `-`
//! where there is none, or `refused` and why; or `not a case`. A line that begins with `#` is printed as
//! it is.
#![tactic(auto)]

mod case;

use anyhow::Result;

fn main(rt: HostRuntime) -> Result<()> {
    for line in rt.lines(rt.alloc()) {
        let line = line?;
        if line.starts_with('#') {
            println!(rt; "{line}")?;
            continue;
        }
        let answer = case::answer(rt.alloc(), line.as_str())?;
        println!(rt; "{answer}")?;
    }
    Ok(())
}
