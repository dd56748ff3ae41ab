//! Deals jobs out to workers. It reads a case a line, how many jobs there are and how many workers, and prints the
//! results in the order of the jobs, of which each is the square of the job's number; or `not a case`. A line that
//! begins with `#` is printed as it is.
#![tactic(auto)]

mod squares;

use anyhow::Result;

fn main(rt: HostRuntime) -> Result<()> {
    for line in rt.lines(rt.alloc()) {
        let line = line?;
        if line.starts_with('#') {
            println!(rt; "{line}")?;
            continue;
        }
        let answer = squares::answer(&rt, rt.alloc(), line.as_str())?;
        println!(rt; "{answer}")?;
    }
    Ok(())
}
